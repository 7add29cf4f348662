//! Texts with the line `set profile`, and the same without it; `set syncookies`, and `set route`.

use pfs_addr_values::Addr;
use pfs_conf::{Config, Profile, RuleNo, Syncookies, TimeoutName, load};
use pfs_conf_show::show;
use pfs_tests_cases::{holds, same};
use std::test::Fail;

/// Texts, and what their canonical text ends with
const SHOWN: [(&[u8], &[u8]); 19] = [
    (
        b"set limit states 1009\nset profile openbsd-7.4\n\
        pass in proto tcp to any port 80 keep state (max 25, sloppy)\n\
        pass in proto udp keep state (max 9)\n\
        pass out keep state (max 30, adaptive.start 5, adaptive.end 6)\n",
        b"set limit { states 1009, src-nodes 10000, tables 1000, table-entries 200000 }\n\
        set timeout { tcp.first 120, tcp.opening 30, tcp.established 86400, tcp.closing 900, \
        tcp.finwait 45, tcp.closed 90, udp.first 60, udp.single 30, udp.multiple 60, \
        other.first 60, other.single 30, other.multiple 60, src.track 0, interval 10, \
        adaptive.start 600, adaptive.end 1200 }\n\
        set profile openbsd-7.4\n\
        pass in proto tcp from any to any port 80 flags S/SA keep state \
        (max 25, sloppy, adaptive.start 12, adaptive.end 24)\n\
        pass in proto udp all flags S/SA keep state (max 9)\n\
        pass out all flags S/SA keep state (max 30, adaptive.start 5, adaptive.end 6)\n",
    ),
    (
        b"set limit states 1009\npass keep state (max 25, sloppy)\n",
        b"adaptive.start 605, adaptive.end 1210 }\npass all flags S/SA keep state (max 25)\n",
    ),
    (
        b"set limit states 8\nset profile openbsd-7.4\npass\n",
        b"adaptive.start 0, adaptive.end 0 }\nset profile openbsd-7.4\npass all flags S/SA keep state\n",
    ),
    (
        b"pass keep state (max 4294967295)\nset profile openbsd-7.4\n",
        b"(max 4294967295, adaptive.start 2576980374, adaptive.end 4294967295)\n",
    ),
    (
        b"set profile openbsd-7.4\npass keep state (max-src-conn 3, overload <t>, sloppy, udp.first 0, max 10)\n",
        b"set profile openbsd-7.4\ntable <t>\npass all flags S/SA keep state (max 10, source-track rule, \
        max-src-conn 3, overload <t>, sloppy, udp.first 0, adaptive.start 6, adaptive.end 12)\n",
    ),
    (
        b"set profile openbsd-7.4\npass in proto tcp to any port 80 synproxy state (max-src-conn 9)\n",
        b"set profile openbsd-7.4\npass in proto tcp from any to any port 80 flags S/SA synproxy state \
        (source-track rule, max-src-conn 9)\n",
    ),
    (
        b"pass synproxy state\npass out flags any synproxy state (max 20)\nset profile openbsd-7.4\n",
        b"set profile openbsd-7.4\npass all flags S/SA synproxy state\npass out all flags any synproxy state \
        (max 20, adaptive.start 12, adaptive.end 24)\n",
    ),
    (
        b"set profile openbsd-7.4\nset syncookies adaptive\n\
        pass in proto tcp to any port 80 synproxy state (max-src-conn 9)\n",
        b"set profile openbsd-7.4\nset syncookies adaptive (start 25%, end 12%)\n\
        pass in proto tcp from any to any port 80 flags S/SA synproxy state \
        (source-track rule, max-src-conn 9)\n",
    ),
    (
        b"table <t>\nset syncookies always\nset profile openbsd-7.4\n",
        b"adaptive.end 120000 }\nset profile openbsd-7.4\nset syncookies always\ntable <t>\n",
    ),
    (
        b"set syncookies always\nset syncookies adaptive(start 0100% end 000%)\nset profile openbsd-7.4",
        b"set profile openbsd-7.4\nset syncookies adaptive (start 100%, end 0%)\n",
    ),
    (
        b"set profile openbsd-7.4\nset syncookies adaptive (start 9% end 8%)\nset syncookies never\nblock\n",
        b"adaptive.end 120000 }\nset profile openbsd-7.4\nblock all flags any\n",
    ),
    (
        b"set syncookies never\nblock\n",
        b"adaptive.end 120000 }\nblock all flags any\n",
    ),
    (
        b"set profile openbsd-7.4\nset route 192.0.2.9/24 em2\n\
        set route { 0.0.0.0/0 em0, 192.0.2.0/24 em1 }\n",
        b"set profile openbsd-7.4\nset route { 0.0.0.0/0 em0, 192.0.2.0/24 em1 }\n",
    ),
    (
        b"table <t>\nset route 192.0.2.9/24 em2\nset syncookies always\nset profile openbsd-7.4\n",
        b"set profile openbsd-7.4\nset syncookies always\nset route 192.0.2.0/24 em2\ntable <t>\n",
    ),
    (
        b"set profile openbsd-7.4\nset route { 10.0.0.0/8 em0 2001:DB8::/32 em1, 192.0.2.1/32 lo0\n::/0 em1 }\n\
        set route 10.9.9.9/8 em3\n",
        b"set profile openbsd-7.4\nset route { 2001:db8::/32 em1, 192.0.2.1 lo0, ::/0 em1, 10.0.0.0/8 em3 }\n",
    ),
    (
        b"set route 10.0.0.1 em0\nset route 10.0.0.1 em1\nset route { 10.0.0.1 em2 }\nset profile openbsd-7.4\nblock\n",
        b"set profile openbsd-7.4\nset route 10.0.0.1 em2\nblock all flags any\n",
    ),
    (
        b"set profile openbsd-7.4\nmatch out on em0 tag OUT\n\
        match in proto tcp to any port 80 ! tagged OUT received-on em0\n",
        b"set profile openbsd-7.4\nmatch out on em0 all flags any tag OUT\n\
        match in proto tcp from any to any port 80 flags any !tagged OUT received-on em0\n",
    ),
    (
        b"set profile openbsd-7.4\npass !received-on em1 keep state (max 9) tagged A tag B flags any\n\
        block return tagged A\nmatch log flags S/SA ! received-on em0\n",
        b"set profile openbsd-7.4\npass all flags any tag B tagged A !received-on em1 keep state (max 9)\n\
        block all flags any tagged A\nmatch all flags S/SA !received-on em0\n",
    ),
    (
        b"set profile openbsd-7.4\nanchor tag {\npass no state tag tag\nmatch\n}\n",
        b"set profile openbsd-7.4\nanchor \"tag\" all flags any {\npass all flags any tag tag no state\n\
        match all flags any\n}\n",
    ),
];

#[test]
fn the_canonical_text_shows_the_profile(rt: HostRuntime) -> Result<(), Fail> {
    for (text, wanted) in SHOWN {
        let shown = show(rt.alloc(), &load(rt.alloc(), text)?)?;
        holds!(rt; shown.as_slice().ends_with(wanted), text);
    }
    Ok(())
}

/// A rule's own adaptive values
fn pair(config: &Config, number: u32) -> (Option<u64>, Option<u64>) {
    let number = RuleNo(number);
    (
        config.rule_timeout(number, TimeoutName::AdaptiveStart),
        config.rule_timeout(number, TimeoutName::AdaptiveEnd),
    )
}

/// The line may stand behind the rules
#[test]
fn the_profile_takes_effect_at_the_end(rt: HostRuntime) -> Result<(), Fail> {
    for (text, profile, pair_told, sloppy) in [
        (
            b"pass keep state (max 25, sloppy)\nset profile openbsd-7.4\n".as_slice(),
            Profile::OpenBsd74,
            (Some(12), Some(24)),
            Some(true),
        ),
        (
            b"pass keep state (max 25, sloppy)\n",
            Profile::Own,
            (None, None),
            Some(false),
        ),
        (
            b"block\nset profile openbsd-7.4\n",
            Profile::OpenBsd74,
            (None, None),
            None,
        ),
    ] {
        let config = load(rt.alloc(), text)?;
        same!(rt; config.profile(), profile, text);
        same!(rt; pair(&config, 0), pair_told, text);
        same!(rt; config.options(RuleNo(0)).map(|options| options.sloppy), sloppy, text);
        same!(rt; (config.item_count(), config.table_count(), config.entry_count()), (1, 0, 0));
    }
    Ok(())
}

/// A rule says whether its SYN packets are answered in place of the server
#[test]
fn rules_with_synproxy_state(rt: HostRuntime) -> Result<(), Fail> {
    let text =
        b"pass synproxy state\nset profile openbsd-7.4\npass\nanchor {\npass in synproxy state (max 5)\n}\nblock\n";
    let config = load(rt.alloc(), text)?;
    for (number, wanted) in [
        (0, true),
        (1, false),
        (2, false),
        (3, true),
        (4, false),
        (5, false),
    ] {
        same!(rt; config.is_synproxy(RuleNo(number)), wanted, number);
    }
    Ok(())
}

/// Whether SYNs are answered by cookies; the last such statement counts
#[test]
fn syncookies_are_set(rt: HostRuntime) -> Result<(), Fail> {
    for (statements, wanted) in [
        ("", Syncookies::Never),
        ("set syncookies never\n", Syncookies::Never),
        ("set syncookies always\n", Syncookies::Always),
        (
            "set syncookies adaptive\n",
            Syncookies::Adaptive { start: 25, end: 12 },
        ),
        (
            "set syncookies adaptive (start 5%, end 3%)\n",
            Syncookies::Adaptive { start: 5, end: 3 },
        ),
        (
            "set syncookies always\nset syncookies adaptive ( start 001% end 0% )\n",
            Syncookies::Adaptive { start: 1, end: 0 },
        ),
        (
            "set syncookies adaptive\nset syncookies always\n",
            Syncookies::Always,
        ),
    ] {
        let text = format!(in rt.alloc(); "{statements}set profile openbsd-7.4\n")?;
        let config = load(rt.alloc(), text.as_bytes())?;
        same!(rt; config.syncookies(), wanted, statements);
        same!(rt; config.syncookies().are_sent(), wanted != Syncookies::Never);
    }
    Ok(())
}

/// A route by its address, its length and the name of its interface
type ProfileTold = (Addr, u8, &'static [u8]);

/// Which routes a text says, in order; a later one with the same prefix stands last
#[test]
fn routes_are_set(rt: HostRuntime) -> Result<(), Fail> {
    let text = b"set route { 0.0.0.0/0 em0, 192.0.2.77/24 em1, 192.0.2.0/25 em2 }\n\
        set route 192.0.2.1/24 lo0\nset profile openbsd-7.4\n";
    let wanted: [ProfileTold; 3] = [
        (Addr::V4([0, 0, 0, 0]), 0, b"em0"),
        (Addr::V4([192, 0, 2, 0]), 25, b"em2"),
        (Addr::V4([192, 0, 2, 0]), 24, b"lo0"),
    ];
    let config = load(rt.alloc(), text)?;
    same!(rt; config.routes().len(), 3);
    for (route, (addr, bits, name)) in config.routes().iter().zip(wanted) {
        same!(rt; (route.prefix.addr(), route.prefix.bits()), (addr, bits));
        holds!(rt; route.interface.as_bytes() == name, bits);
    }
    same!(rt; load(rt.alloc(), b"set profile openbsd-7.4\n")?.routes().len(), 0);
    Ok(())
}
