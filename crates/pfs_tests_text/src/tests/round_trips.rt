//! Texts that are shown, and loaded again.

use pfs_conf::{Config, LimitName, TableNo, TimeoutName, load};
use pfs_conf_show::show;
use pfs_tests_cases::{holds, same};
use std::process::Abort;
use std::test::Fail;

const LIMITS: [LimitName; 4] = [
    LimitName::States,
    LimitName::SrcNodes,
    LimitName::Tables,
    LimitName::TableEntries,
];

/// Each part of a rules text, in usual and in unusual spellings.
const TEXTS: [&[u8]; 56] = [
    b"",
    b"# a comment alone \\\n",
    b"set limit states 1\nset limit src-nodes 4294967295\nset limit tables 2\nset limit table-entries 3",
    b"set limit { states 50, src-nodes 7 tables\n6,\ntable-entries 00000005 frags 9 }",
    b"set timeout { tcp.first 1, tcp.opening 2, tcp.established 3, tcp.closing 4, tcp.finwait 5, tcp.closed 6 }",
    b"set timeout { udp.first 0 udp.single 2147483647 udp.multiple 9 other.first 10\n other.single 11,\n other.multiple 12\n}",
    b"set timeout src.track 13\nset timeout interval 1\nset timeout { frag 5, tcp.tsdiff 6, icmp.first 7, icmp.error 8 }",
    b"set timeout { adaptive.start 0, adaptive.end 4294967295 }",
    b"set timeout { adaptive.start 0, adaptive.end 0 }\nset limit states 4294967295",
    b"table <a>\ntable <b> const\ntable <c> persist counters\ntable <d> {\n}",
    b"table <a> const { 0.0.0.0/0, !10.0.0.0/8 10.1.0.0/16, !10.1.2.0/23\n10.1.2.128/25, ! 10.1.2.3, 10.1.2.4/31 10.1.2.4/32 }",
    b"table <quick> { 1.2.3.4 1.2.3.4/32, 255.255.255.255, 128.0.0.0/1 }\nblock in from <quick>",
    b"pass\nblock drop all\nblock return-rst in all\nblock return out\nblock return-icmp6 quick",
    b"pass in quick\npass out\npass quick inet\nblock on em0\nblock on !em1 inet proto tcp",
    b"pass on quick\npass on !7\npass in on log proto 17 from any port 0:65535",
    b"pass log\npass log quick\npass quick log\npass log (all, matches user to em0)\npass quick log (to em-0.1)",
    b"pass proto tcp\npass proto udp\npass proto icmp\npass proto icmp6\npass proto esp\npass proto ah\npass proto gre",
    b"pass proto 6\npass proto 017\npass proto 0\npass proto 255\npass proto 1",
    b"table <both> { ::/0, !::1 1:2:3:4:5:6:7:: 10.0.0.0/8, 2001:DB8:0:0:1:0:0:1/127 } \nblock inet6 from <both> to !fe80::/10\nblock inet from <both>",
    b"pass quick inet6 from abcd:: to 0001::2 flags any\nanchor \"six\" out on em0 inet6 from !::ffff:0:0/96 {\npass inet to ::1\n}",
    b"pass proto tcp to port ssh\npass proto tcp from port = smtp:http to any port https\npass proto udp from any port domain to port 5:5",
    b"pass from 10.0.0.1 to !10.0.0.0/8\npass from !<t> to <u>\npass to <t>\nblock from <v>\ntable <v> const { 1.1.1.1 }",
    b"table <b> { !5.0.0.0/8 }\npass from <a> to <b>\ntable <a> { 6.0.0.0/7 }\npass from <c>",
    b"pass flags any\npass flags S/SA\npass flags /SAFR\npass flags WEUAPRSF/FSRPAUEW\nblock flags A/A\npass no state\npass no state flags /E",
    b"pass keep state\npass keep state (max 1)\npass keep state (sloppy, floating no-sync)\nblock no state",
    b"pass keep state (source-track rule, max-src-nodes 3)\npass keep state (source-track global max-src-states 4294967295)\npass keep state (source-track)",
    b"pass proto tcp keep state (max-src-conn 5)\npass keep state (max-src-states 9, max 8)\npass keep state (max-src-nodes 1 source-track)",
    b"pass proto tcp keep state (max-src-conn-rate 4294967/2147483647, overload <bad>)\nblock in quick from <bad>",
    b"pass keep state (max-src-conn 2, overload <x> flush)\npass keep state (max-src-conn 2 overload <y> flush global max-src-conn-rate 3/10)",
    b"pass keep state (tcp.first 1, tcp.opening 2, tcp.established 3, tcp.closing 4, tcp.finwait 5, tcp.closed 6, udp.first 7, udp.single 8)",
    b"pass keep state (udp.multiple 1, other.first 0 other.single 2147483647, other.multiple 3, adaptive.start 1, adaptive.end 2)",
    b"pass keep state (source-track rule, max-src-states 2, src.track 7)\npass keep state (source-track rule src.track 0)",
    b"anchor {\n}\nanchor {\n}\nanchor \"web\" in quick on em0 inet proto tcp from any to any port 80 flags S/SA {\n}",
    b"anchor a {\n anchor b {\n  pass\n  anchor a {\n  }\n }\n block\n anchor {\n pass from <t>\n }\n}\npass\nanchor b {\n}",
    b"anchor \"pass\" out flags any {\n\n# nothing\nblock quick\n}\nanchor \"in\" {\npass no state\n}\nanchor log from <a> to !<b> {\n}",
    b"anchor {\nanchor {\nanchor {\nanchor {\nanchor {\nanchor {\nanchor {\nanchor {\npass\n}\n}\n}\n}\n}\n}\n}\nblock\n}",
    b"pass \\\n  in \\\n on em0 # the \"rest\" of it\n\tblock\r\n\n  pass quick # \\\npass out",
    b"set limit states 50\ntable <bad> { 10.0.0.0/8, !10.9.9.9 }\nblock in quick on !em1 from <bad>\nanchor web in on em0 proto tcp {\npass proto tcp to port www keep state (max 9, max-src-conn-rate 3/10, overload <worse> flush global)\n}",
    b"pass keep state (max 25, sloppy)\nset profile openbsd-7.4\nset profile openbsd-7.4\npass keep state (sloppy max 9)\nset limit states 1009",
    b"set profile openbsd-7.4\nset limit states 8\npass keep state (max 4294967295, tcp.first 0)\npass keep state (max 30, adaptive.start 5, adaptive.end 6)\nblock",
    b"set profile openbsd-7.4\nset timeout { adaptive.start 3, adaptive.end 4 }\ntable <profile> { 10.0.0.1 }\npass on openbsd-7.4 from <profile>",
    b"set profile openbsd-7.4 # as pf does\nanchor profile {\npass keep state (max 10, max-src-conn 3, overload <t> flush, sloppy, udp.first 7)\nblock in\n}",
    b"pass synproxy state\nset profile openbsd-7.4\npass in proto tcp to port 80 flags any synproxy state (max-src-conn 9, sloppy max 20)\npass",
    b"set syncookies always\nset profile openbsd-7.4\npass",
    b"set profile openbsd-7.4\nset syncookies adaptive\nset syncookies always\nset syncookies adaptive (start 100%, end 0%)\ntable <start> { 10.0.0.1 }\nblock from <end>",
    b"set syncookies adaptive(start 07% end 006%)\nset profile openbsd-7.4\nset syncookies adaptive\nanchor adaptive {\npass on end synproxy state\n}",
    b"set syncookies adaptive (start 2%,end 1%)\nset syncookies never\npass from <never> to <always>",
    b"set profile openbsd-7.4\nanchor synproxy {\npass out on synproxy synproxy state (no-sync)\n}\nblock from <synproxy>",
    b"set route 2001:db8::1/64 em0\nset profile openbsd-7.4\npass",
    b"set profile openbsd-7.4\nset route { 0.0.0.0/0 em0, 10.1.2.3/8 set\n192.0.2.1\nlo0, ::/0 route }\nset route 0.0.0.0/0 em9\ntable <route> { 10.0.0.1 }\npass on route from <route>",
    b"set profile openbsd-7.4\nmatch\nmatch in log on em0 inet6 proto udp from any port domain to <t> flags any tag a tagged b received-on em1",
    b"pass quick keep state (max 5) ! tagged a tag tagged\nblock !received-on tag flags S/SA\nset profile openbsd-7.4\npass no state received-on a",
    b"anchor match {\nmatch out ! received-on 7 tagged 7 tag 7\n}\npass synproxy state ! tagged received-on\nset profile openbsd-7.4",
    b"set profile openbsd-7.4\nmatch out on em0 nat-to 192.0.2.1 tag OUT\nmatch out on em1 inet nat-to 192.0.2.2 static-port\nmatch in proto tcp to any port 80 ! tagged OUT received-on em0 rdr-to 10.0.0.5 port www\npass out nat-to 192.0.2.1 port 1024:2047",
    b"pass quick keep state (max 5) ! tagged a tag b\npass in rdr-to 2001:DB8::0001 port domain keep state (max 9) nat-to ::ffff:0:1 port 0:65535\nset profile openbsd-7.4\npass in no state rdr-to 0.0.0.0 port 0",
    b"set profile openbsd-7.4\nanchor nat-to {\npass out from <static-port> to ! 10.0.0.0/8 nat-to 255.255.255.255 port ssh rdr-to 10.0.0.1\n}\npass on rdr-to tag nat-to tagged static-port",
];

/// The profile, SYN cookies, routes, limits and timeouts of two configurations are the same.
fn same_settings(rt: &impl Abort, one: &Config, other: &Config) {
    same!(*rt; one.profile(), other.profile());
    same!(*rt; one.syncookies(), other.syncookies());
    holds!(*rt; one.routes() == other.routes());
    for name in LIMITS {
        same!(*rt; one.limit(name), other.limit(name));
    }
    for place in 0..16 {
        let name = TimeoutName::at(place);
        same!(*rt; one.timeout(name), other.timeout(name), name);
    }
}

/// The table of a number is the same in two configurations: its name, whether it is const, and its entries in order.
fn same_table(rt: &impl Abort, one: &Config, other: &Config, number: u32) {
    let (Some(a), Some(b)) = (one.table(TableNo(number)), other.table(TableNo(number))) else {
        assert!(rt; false, "no table {number}");
        return;
    };
    holds!(*rt; a.name == b.name, number);
    same!(*rt; a.is_const, b.is_const);
    same!(*rt; a.entries.len(), b.entries.len());
    for place in 0..a.entries.len() {
        holds!(*rt; a.entries.at(place) == b.entries.at(place), (place, number));
    }
}

/// All that is read of two configurations is the same.
fn same(rt: &impl Abort, one: &Config, other: &Config) {
    same_settings(rt, one, other);
    same!(*rt; one.entry_count(), other.entry_count());
    same!(*rt; one.table_count(), other.table_count());
    for number in 0..one.table_count() {
        same_table(rt, one, other, number);
    }
    same!(*rt; one.item_count(), other.item_count());
    for number in 0..one.item_count() {
        holds!(*rt; one.item(number) == other.item(number), number);
    }
}

#[test]
fn texts_are_read_again_as_they_are_shown(rt: HostRuntime) -> Result<(), Fail> {
    let alloc = rt.alloc();
    for text in TEXTS {
        let first = load(alloc, text)?;
        let shown = show(alloc, &first)?;
        let second = load(alloc, &shown)?;
        let again = show(alloc, &second)?;
        same!(rt; shown.as_slice(), again.as_slice());
        same(&rt, &first, &second);
    }
    Ok(())
}

#[test]
fn a_copy_shows_the_same_text(rt: HostRuntime) -> Result<(), Fail> {
    let alloc = rt.alloc();
    let text =
        b"set profile openbsd-7.4\nset route { 10.0.0.0/8 em0, ::/0 em1 }\ntable <a> const { 10.0.0.0/8, !10.1.0.0/16 }\nanchor a {\nblock in from <a>\npass keep state (max 5)\n}";
    let config = load(alloc, text)?;
    let copy = config.copy()?;
    same(&rt, &config, &copy);
    same!(rt; show(alloc, &config)?.as_slice(), show(alloc, &copy)?.as_slice());
    Ok(())
}
