//! Texts of rules that are refused, and unusual ones that are not.

use pfs_conf::{Kind, load};
use pfs_tests_cases::{holds, same};
use std::alloc::{AllocError, Global};
use std::process::Abort;
use std::test::Fail;

/// A text is refused at this line, with this kind.
fn refused(rt: &(impl Abort + AllocGlobal), text: &[u8], line: u64, kind: Kind) {
    match load(rt.alloc(), text) {
        Ok(_) => assert!(rt; false, "accepted, and not refused as {kind}"),
        Err(fault) => same!(*rt; (fault.line, fault.kind), (line, kind)),
    }
}

const WORKED: &[(&[u8], u64, Kind)] = &[
    (b"pass in proto udp all keep state (max 0)", 1, Kind::Number),
    (b"pass\npass on em0 proto { tcp udp }", 2, Kind::Unsupported),
    (b"ext_if = \"em0\"", 1, Kind::Unsupported),
    (b"pass foo", 1, Kind::Syntax),
    (b"pass from 10/8", 1, Kind::Syntax),
    (b"anchor \"a\" {\n", 2, Kind::Syntax),
    (b"pass keep state (max 1, max 2)", 1, Kind::Duplicate),
    (
        b"pass keep state (source-track global, max-src-conn 3)",
        1,
        Kind::GlobalConn,
    ),
    (
        b"pass keep state (max-src-states 3, src.track 5)",
        1,
        Kind::GlobalRetention,
    ),
    (b"pass keep state (overload <x>)", 1, Kind::OverloadAlone),
    (b"set timeout adaptive.start 5", 0, Kind::AdaptivePair),
    (
        b"set profile openbsd-7.4\nset timeout adaptive.start 5",
        0,
        Kind::AdaptivePair,
    ),
    (b"set profile openbsd-7.5", 1, Kind::Syntax),
    (b"set profile", 1, Kind::Syntax),
    (b"pass\nset profile \"openbsd-7.4\"", 2, Kind::Syntax),
    (b"set profile { openbsd-7.4 }", 1, Kind::Unsupported),
    (b"set profile openbsd-7.4, openbsd-7.4", 1, Kind::Syntax),
    (
        b"anchor {\nset profile openbsd-7.4\n}",
        2,
        Kind::Unsupported,
    ),
    (b"set syncookies always", 0, Kind::NeedsProfile),
    (
        b"set profile openbsd-7.4\nset syncookies adaptive (start 10%, end 10%)",
        2,
        Kind::CookiePair,
    ),
    (
        b"set profile openbsd-7.4\nset syncookies adaptive (start 10, end 5%)",
        2,
        Kind::Number,
    ),
    (
        b"set profile openbsd-7.4\nset syncookies adaptive (start 101%, end 5%)",
        2,
        Kind::Number,
    ),
    (
        b"pass synproxy state\nset syncookies adaptive",
        0,
        Kind::NeedsProfile,
    ),
    (
        b"set syncookies always\nset limit tables 1\npass from <a> to <b>",
        0,
        Kind::TooManyTables,
    ),
    (
        b"set syncookies always\nset limit table-entries 1\ntable <a> { 10.0.0.1 10.0.0.2 }",
        0,
        Kind::NeedsProfile,
    ),
    (
        b"set syncookies always\nset limit table-entries 1\ntable <a> { 10.0.0.1 10.0.0.2 }\nset syncookies never",
        0,
        Kind::TooManyEntries,
    ),
    (
        b"pass\nset \\\n syncookies \\\n adaptive (start 0%, end 0%)\nset timeout adaptive.start 5",
        2,
        Kind::CookiePair,
    ),
    (
        b"set syncookies adaptive (start 5%, end 9%) now",
        1,
        Kind::Syntax,
    ),
    (b"set syncookies", 1, Kind::Syntax),
    (b"set syncookies sometimes", 1, Kind::Syntax),
    (b"set syncookies { always }", 1, Kind::Unsupported),
    (
        b"set syncookies always (start 5%, end 3%)",
        1,
        Kind::Unsupported,
    ),
    (b"set syncookies adaptive start 5%", 1, Kind::Syntax),
    (b"set syncookies adaptive ()", 1, Kind::Syntax),
    (
        b"set syncookies adaptive (end 3%, start 5%)",
        1,
        Kind::Syntax,
    ),
    (b"set syncookies adaptive (start 5%)", 1, Kind::Syntax),
    (
        b"set syncookies adaptive (start 5%,, end 3%)",
        1,
        Kind::Syntax,
    ),
    (
        b"set syncookies adaptive (start 5%, end 3%,)",
        1,
        Kind::Syntax,
    ),
    (
        b"set syncookies adaptive (start 5 %, end 3%)",
        1,
        Kind::Number,
    ),
    (
        b"set syncookies adaptive (start 5%%, end 3%)",
        1,
        Kind::Number,
    ),
    (
        b"set syncookies adaptive (start 5%x, end 3%)",
        1,
        Kind::Number,
    ),
    (
        b"set syncookies adaptive (start 00000000005%, end 3%)",
        1,
        Kind::Number,
    ),
    (
        b"set syncookies adaptive (start 5%, end 101%)",
        1,
        Kind::Number,
    ),
    (b"set syncookies adaptive (start 5%end 3%)", 1, Kind::Number),
    (
        b"set syncookies adaptive (start %, end 3%)",
        1,
        Kind::Syntax,
    ),
    (
        b"set syncookies adaptive (start -5%, end 3%)",
        1,
        Kind::Syntax,
    ),
    (
        b"set syncookies adaptive (start 5%,\nend 3%)",
        1,
        Kind::Syntax,
    ),
    (b"anchor {\nset syncookies never\n}", 2, Kind::Unsupported),
    (b"pass in proto tcp synproxy state", 1, Kind::NeedsProfile),
    (
        b"pass\nanchor {\npass synproxy state (max 5)\n}\npass synproxy state",
        3,
        Kind::NeedsProfile,
    ),
    (
        b"set limit tables 1\npass from <a> to <b> synproxy state",
        0,
        Kind::TooManyTables,
    ),
    (
        b"set limit table-entries 1\ntable <a> { 10.0.0.1 10.0.0.2 }\npass synproxy state",
        3,
        Kind::NeedsProfile,
    ),
    (
        b"table <t> const\npass synproxy state\npass keep state (max-src-conn 1, overload <t>)",
        3,
        Kind::ConstOverload,
    ),
    (
        b"set route { 0.0.0.0/0 em0, 192.0.2.0/24 em1 }",
        0,
        Kind::NeedsProfile,
    ),
    (
        b"set profile openbsd-7.4\nset route 192.0.2.0/24",
        2,
        Kind::Syntax,
    ),
    (
        b"set route 10.0.0.1 lo0\nset limit tables 1\npass from <a> to <b>",
        0,
        Kind::TooManyTables,
    ),
    (
        b"set route 10.0.0.1 lo0\nset limit table-entries 1\ntable <a> { 10.0.0.1 10.0.0.2 }",
        0,
        Kind::NeedsProfile,
    ),
    (
        b"pass synproxy state\nset route 10.0.0.1 lo0",
        0,
        Kind::NeedsProfile,
    ),
    (b"match in tag a", 1, Kind::NeedsProfile),
    (
        b"set profile openbsd-7.4\npass tag a tag b",
        2,
        Kind::Duplicate,
    ),
    (
        b"set profile openbsd-7.4\nmatch in quick tag a",
        2,
        Kind::Syntax,
    ),
    (
        b"set profile openbsd-7.4\nmatch in keep state",
        2,
        Kind::Syntax,
    ),
    (b"set route", 1, Kind::Syntax),
    (b"set route em0 10.0.0.0/8", 1, Kind::Unsupported),
    (b"set route any em0", 1, Kind::Unsupported),
    (b"set route 10.0.0.0/33 em0", 1, Kind::Syntax),
    (b"set route !10.0.0.0/8 em0", 1, Kind::Syntax),
    (b"set route \"10.0.0.0/8\" em0", 1, Kind::Syntax),
    (b"set route 10.0.0.0/8 \"em0\"", 1, Kind::Syntax),
    (b"set route 10.0.0.0/8\nem0", 1, Kind::Syntax),
    (b"set route 10.0.0.0/8, em0", 1, Kind::Syntax),
    (b"set route 10.0.0.0/8 any", 1, Kind::Unsupported),
    (b"set route 10.0.0.0/8 rdomain", 1, Kind::Unsupported),
    (b"set route 10.0.0.0/8 match", 0, Kind::NeedsProfile),
    (b"set route 10.0.0.0/8 em0:network", 1, Kind::Syntax),
    (b"set route 10.0.0.0/8 interface-of-16-b", 1, Kind::Syntax),
    (b"set route 10.0.0.0/8 em0 em1", 1, Kind::Syntax),
    (b"set route 10.0.0.0/8 em0, 10.0.0.1 lo0", 1, Kind::Syntax),
    (b"set route { }", 1, Kind::Syntax),
    (b"set route {\n10.0.0.0/8\n}", 3, Kind::Syntax),
    (b"set route { 10.0.0.0/8 em0, }", 1, Kind::Syntax),
    (b"set route { 10.0.0.0/8 em0,, ::/0 em1 }", 1, Kind::Syntax),
    (b"set route { 10.0.0.0/8 em0 } ::/0 em1", 1, Kind::Syntax),
    (
        b"anchor {\nset route 10.0.0.0/8 em0\n}",
        2,
        Kind::Unsupported,
    ),
    (b"pass to any port 80", 1, Kind::PortWithoutProto),
    (
        b"table <t> const\npass proto tcp keep state (max-src-conn 1, overload <t>)",
        2,
        Kind::ConstOverload,
    ),
    (b"block keep state", 1, Kind::StateOnBlock),
    (
        b"set limit tables 1\ntable <a>\ntable <b>",
        0,
        Kind::TooManyTables,
    ),
    (
        b"set limit table-entries 1\ntable <a> { 10.0.0.1 10.0.0.2 }",
        0,
        Kind::TooManyEntries,
    ),
];

#[test]
fn worked_faults(rt: HostRuntime) {
    for &(text, line, kind) in WORKED {
        refused(&rt, text, line, kind);
    }
}

fn repeated(alloc: Global, line: &[u8], times: u32, last: &[u8]) -> Result<Vec<u8>, AllocError> {
    let mut text = Vec::new(alloc);
    for _ in 0..times {
        text.extend_from_slice(line)?;
    }
    text.extend_from_slice(last)?;
    Ok(text)
}

/// The limits on depth, on rules and anchors, and on bytes; for the 10,001st item the other rules are checked first.
#[test]
fn too_many(rt: HostRuntime) -> Result<(), Fail> {
    let alloc = rt.alloc();
    refused(
        &rt,
        &repeated(alloc, b"anchor {\n", 17, b"")?,
        17,
        Kind::TooDeep,
    );
    refused(
        &rt,
        &repeated(alloc, b"pass\n", 10_001, b"")?,
        10_001,
        Kind::TooManyRules,
    );
    refused(
        &rt,
        &repeated(alloc, b"pass\n", 10_000, b"anchor {\n")?,
        10_001,
        Kind::TooManyRules,
    );
    refused(
        &rt,
        &repeated(alloc, b"pass\n", 10_000, b"block keep state")?,
        10_001,
        Kind::StateOnBlock,
    );
    refused(
        &rt,
        &repeated(alloc, b" ", 1_048_577, b"")?,
        0,
        Kind::TooLong,
    );
    holds!(rt; load(alloc, &repeated(alloc, b" ", 1_048_576, b"")?).is_ok());
    holds!(rt; load(alloc, &repeated(alloc, b"pass\n", 10_000, b"")?).is_ok());
    let deep = repeated(alloc, b"anchor {\n", 16, b"pass\n")?;
    holds!(rt; load(alloc, &repeated(alloc, b"}\n", 16, b"")?).is_err());
    let mut closed = deep;
    closed.extend_from_slice(&repeated(alloc, b"}\n", 16, b"")?)?;
    holds!(rt; load(alloc, &closed).is_ok());
    Ok(())
}

const SPELLINGS: &[&[u8]] = &[
    b"",
    b"\t\r \\\n # \\\n\n",
    b"set limit { states 5\n,\nfrags 4294967295 src-nodes\n0000000001\n }",
    b"set timeout { interval 1 icmp.first 0, frag 2147483647\ntcp.tsdiff 0 icmp.error 5 }",
    b"set timeout { adaptive.end 5 adaptive.start 0 }\nset timeout adaptive.start 0",
    b"set route\t{\n10.0.0.0/8\n\nem0\n,\n2001:DB8::5/32 route\n10.0.0.1 set}\nset route ::1 \\\n 7\nset profile openbsd-7.4",
    b"table < quick > counters const persist { ! 10.0.0.1/32, 10.0.0.1/8\n\n 10.2.0.0/8 }",
    b"table <5.x-_> {\n\n}",
    b"block return-icmp6 quick log all",
    b"pass quick log(all all, matches user to quick)on !7 inet proto 006 from!<t>port = ssh:0443 to port 5",
    b"pass in on log proto 17 from any port 0:65535",
    b"pass flags /S no state",
    b"pass no state flags SSA/AS",
    b"pass keep state (sloppy no-sync, floating, tcp.first 0 adaptive.start 1 adaptive.end 2)",
    b"pass synproxy state(max 5 no-sync)flags any\nset profile openbsd-7.4",
    b"pass keep state (source-track, src.track 5, max-src-conn-rate 4294967/2147483647, overload <any> flush)",
    b"match log(all)on match!tagged tagged tag tag received-on received-on flags S/SA\nset profile openbsd-7.4",
    b"pass quick no state tag a-name-of-sixty-three-bytes-which-is-as-long-as-one-may-be.-_56 ! received-on 7 tagged 7\nset profile openbsd-7.4",
    b"table <both> { ::, !0::/0 10.0.0.0/8, 0:0::1:2/127 !a:B:c:D:e:F:0:1/128 }",
    b"pass in inet6 proto tcp from !fe80::/10 to <both> port 80\npass from ::1 to any\npass to cafe::",
    b"pass inet from ::1\npass inet6 from any to !10.0.0.1\npass from ::1 to 10.0.0.1\nanchor inet6 {\n}",
    b"anchor log {\n}\nanchor \"pass\" quick {\n}\nanchor keep in flags any {\n}",
    b"anchor {\n anchor a {\n}\n anchor b {\n}\n}\nanchor a {\n}",
    b"anchor \"quick\" {\n}\nanchor 10.1 on em0 inet proto esp from any to !10.0.0.0/8 {\nblock\n}",
];

/// The least usual spelling of each production.
#[test]
fn unusual_spellings(rt: HostRuntime) {
    for &text in SPELLINGS {
        match load(rt.alloc(), text) {
            Ok(_) => {}
            Err(fault) => assert!(rt; false, "refused: {fault}"),
        }
    }
}

const DEFINITIONS: &[(&[u8], u64, Kind)] = &[
    (b"set skip on lo0", 1, Kind::Unsupported),
    (b"set 5", 1, Kind::Unsupported),
    (b"set \"limit\" states 5", 1, Kind::Syntax),
    (b"set", 1, Kind::Syntax),
    (b"set limit anchors 5", 1, Kind::Syntax),
    (b"set limit states 0", 1, Kind::Number),
    (b"set limit states x", 1, Kind::Syntax),
    (b"set limit states $n", 1, Kind::Unsupported),
    (b"set limit states 5 6", 1, Kind::Syntax),
    (b"set limit {\nstates 5,\n}", 3, Kind::Syntax),
    (b"set timeout interval 0", 1, Kind::Number),
    (b"set timeout tcp.first 2147483648", 1, Kind::Number),
    (b"set timeout tcp.last 5", 1, Kind::Syntax),
    (b"table <a>\ntable <a>", 2, Kind::Duplicate),
    (b"table <a> const const", 1, Kind::Duplicate),
    (b"table <a> { 1.2.3.4\n!1.2.3.4 }", 2, Kind::Duplicate),
    (b"table <a> { host }", 1, Kind::Unsupported),
    (b"table <a> { 1::2 12345:: }", 1, Kind::Unsupported),
    (
        b"table <a> { 2001:db8::1/32\n!2001:DB8::/32 }",
        2,
        Kind::Duplicate,
    ),
    (b"table <a> { 10/8 }", 1, Kind::Syntax),
    (b"table <a> { 1.2.3.4,, 5.6.7.8 }", 1, Kind::Syntax),
    (b"table <a> file \"x\"", 1, Kind::Unsupported),
    (b"table <$a>", 1, Kind::Unsupported),
    (
        b"table <a-name-that-is-longer-than-it-may>",
        1,
        Kind::Syntax,
    ),
    (b"table \"a\"", 1, Kind::Syntax),
];

/// Statements that set options and define tables.
#[test]
fn refused_definitions(rt: HostRuntime) {
    for &(text, line, kind) in DEFINITIONS {
        refused(&rt, text, line, kind);
    }
}

const RULES: &[(&[u8], u64, Kind)] = &[
    (b"match in all", 1, Kind::NeedsProfile),
    (b"\xef\xbb\xbfpass", 1, Kind::Syntax),
    (b"pass\n\\\n\"pass", 3, Kind::Syntax),
    (b"pass pass = 3", 1, Kind::Syntax),
    (b"block drop return", 1, Kind::Duplicate),
    (b"pass drop", 1, Kind::Syntax),
    (b"pass in out", 1, Kind::Duplicate),
    (b"pass quick in", 1, Kind::Syntax),
    (b"pass log log", 1, Kind::Duplicate),
    (b"pass log (foo)", 1, Kind::Syntax),
    (b"pass on any", 1, Kind::Unsupported),
    (b"pass on em0/1", 1, Kind::Syntax),
    (b"pass inet inet6", 1, Kind::Duplicate),
    (b"pass inet6 quick inet6", 1, Kind::Syntax),
    (b"pass proto tcp inet6", 1, Kind::Syntax),
    (b"pass proto 256", 1, Kind::Number),
    (b"pass proto ospf", 1, Kind::Unsupported),
    (b"pass proto", 1, Kind::Syntax),
    (b"pass proto tcp to any port 80:70", 1, Kind::Number),
    (
        b"pass proto tcp to any port https:http",
        1,
        Kind::Unsupported,
    ),
    (b"pass proto tcp to any port > 80", 1, Kind::Syntax),
    (b"pass from www.example.com", 1, Kind::Unsupported),
    (b"pass from fe80::1%em0", 1, Kind::Unsupported),
    (b"pass inet6 from ::ffff:192.0.2.1", 1, Kind::Unsupported),
    (b"pass from any to !1::2::3", 1, Kind::Unsupported),
    (b"pass from 2001:db8::/129", 1, Kind::Unsupported),
    (b"pass from any from any", 1, Kind::Duplicate),
    (b"pass from any to (em0)", 1, Kind::Unsupported),
    (b"pass flags S/", 1, Kind::Syntax),
    (b"pass flags S/SA flags any", 1, Kind::Duplicate),
    (b"pass flags $f", 1, Kind::Unsupported),
    (b"pass no state (max 5)", 1, Kind::Unsupported),
    (b"pass keep state no state", 1, Kind::Duplicate),
    (b"pass keep state (max 5,)", 1, Kind::Syntax),
    (b"pass keep state (interval 5)", 1, Kind::Syntax),
    (b"pass keep state (max-src-conn-rate 5)", 1, Kind::Number),
    (b"pass keep state (if-bound)", 1, Kind::Unsupported),
    (b"pass keep state (max 5\n)", 1, Kind::Syntax),
    (b"pass modulate state", 1, Kind::Unsupported),
    (b"pass synproxy", 1, Kind::Syntax),
    (b"pass synproxy (max 5)", 1, Kind::Unsupported),
    (b"pass synproxy state keep state", 1, Kind::Duplicate),
    (b"pass no state synproxy state", 1, Kind::Duplicate),
    (b"pass synproxy state (max 0)", 1, Kind::Number),
    (b"block synproxy state", 1, Kind::StateOnBlock),
    (b"synproxy state", 1, Kind::Syntax),
    (b"pass keep state (adaptive.end 5)", 1, Kind::AdaptivePair),
    (b"block keep state foo", 1, Kind::Syntax),
    (b"pass\npass tagged a", 2, Kind::NeedsProfile),
    (
        b"pass\nblock ! received-on em0\nmatch",
        2,
        Kind::NeedsProfile,
    ),
    (
        b"pass tag a\nset limit tables 1\npass from <a> to <b>",
        0,
        Kind::TooManyTables,
    ),
    (
        b"block tag a\nset limit table-entries 1\ntable <a> { 10.0.0.1 10.0.0.2 }",
        1,
        Kind::NeedsProfile,
    ),
    (b"match quick", 1, Kind::Syntax),
    (b"match log quick", 1, Kind::Syntax),
    (b"match no state", 1, Kind::Syntax),
    (b"match synproxy state", 1, Kind::Syntax),
    (b"match tag a \\\nkeep state", 2, Kind::Syntax),
    (b"match return", 1, Kind::Syntax),
    (b"match log log", 1, Kind::Duplicate),
    (b"match to any port 80", 1, Kind::PortWithoutProto),
    (b"pass match", 1, Kind::Unsupported),
    (b"pass tag", 1, Kind::Syntax),
    (b"pass tag \"a\"", 1, Kind::Syntax),
    (b"pass tag a/b", 1, Kind::Syntax),
    (b"pass tag $a", 1, Kind::Unsupported),
    (
        b"pass tag a-name-of-sixty-four-bytes-which-is-one-byte-more-than-it-may-be",
        1,
        Kind::Syntax,
    ),
    (b"pass tagged ! a", 1, Kind::Syntax),
    (b"pass tagged a ! tagged b", 1, Kind::Duplicate),
    (b"pass ! tagged a tagged b", 1, Kind::Duplicate),
    (
        b"pass received-on em0 flags any received-on em1",
        1,
        Kind::Duplicate,
    ),
    (
        b"pass ! received-on em0 tagged a \\\n!tagged b",
        2,
        Kind::Duplicate,
    ),
    (b"pass received-on any", 1, Kind::Unsupported),
    (b"pass received-on ! em0", 1, Kind::Syntax),
    (b"pass ! received-on rdomain", 1, Kind::Unsupported),
    (b"pass ! flags any", 1, Kind::Syntax),
    (b"pass ! ! tagged a", 1, Kind::Syntax),
    (b"pass !\ntagged a", 1, Kind::Syntax),
    (b"pass tag a from any", 1, Kind::Syntax),
    (b"pass all tag a all", 1, Kind::Duplicate),
    (b"pass tag a keep state keep state", 1, Kind::Duplicate),
];

/// Rules that translate.
const TRANSLATIONS: &[(&[u8], u64, Kind)] = &[
    (b"pass in nat-to 192.0.2.1", 1, Kind::NeedsProfile),
    (b"pass\nmatch in rdr-to 192.0.2.1", 2, Kind::NeedsProfile),
    (b"pass nat-to 192.0.2.1", 1, Kind::TranslationWithoutWay),
    (
        b"set profile openbsd-7.4\npass nat-to 192.0.2.1",
        2,
        Kind::TranslationWithoutWay,
    ),
    (
        b"set profile openbsd-7.4\nmatch rdr-to 192.0.2.1 tag a",
        2,
        Kind::TranslationWithoutWay,
    ),
    (
        b"set profile openbsd-7.4\npass inet6 rdr-to 192.0.2.1",
        2,
        Kind::TranslationWithoutWay,
    ),
    (
        b"set profile openbsd-7.4\npass in inet6 rdr-to 192.0.2.1",
        2,
        Kind::TranslationFamily,
    ),
    (
        b"set profile openbsd-7.4\npass out inet nat-to 2001:db8::1",
        2,
        Kind::TranslationFamily,
    ),
    (
        b"set profile openbsd-7.4\npass in from 2001:db8::/32 rdr-to 192.0.2.1",
        2,
        Kind::TranslationFamily,
    ),
    (
        b"set profile openbsd-7.4\npass in to ! 2001:db8::/32 rdr-to 192.0.2.1",
        2,
        Kind::TranslationFamily,
    ),
    (
        b"set profile openbsd-7.4\npass in from 10.0.0.1 to ::1 nat-to 192.0.2.1",
        2,
        Kind::TranslationFamily,
    ),
    (
        b"set profile openbsd-7.4\npass in nat-to 192.0.2.1 rdr-to 2001:db8::1",
        2,
        Kind::TranslationFamily,
    ),
    (
        b"set profile openbsd-7.4\npass out keep state (adaptive.start 5) inet6 nat-to 10.0.0.1",
        2,
        Kind::Syntax,
    ),
    (
        b"set profile openbsd-7.4\npass nat-to 10.0.0.1 keep state (adaptive.start 5)",
        2,
        Kind::AdaptivePair,
    ),
    (
        b"set profile openbsd-7.4\npass in nat-to 10.0.0.1 tag a nat-to 10.0.0.1",
        2,
        Kind::Duplicate,
    ),
    (
        b"set profile openbsd-7.4\npass in rdr-to 10.0.0.1 \\\nrdr-to 10.0.0.1",
        3,
        Kind::Duplicate,
    ),
    (
        b"set profile openbsd-7.4\npass out nat-to 10.0.0.1 port 5 port 6",
        2,
        Kind::Duplicate,
    ),
    (
        b"set profile openbsd-7.4\npass out nat-to 10.0.0.1 static-port static-port",
        2,
        Kind::Duplicate,
    ),
    (
        b"set profile openbsd-7.4\npass out nat-to 10.0.0.1 static-port tag a port 5",
        2,
        Kind::Duplicate,
    ),
    (
        b"set profile openbsd-7.4\npass out nat-to 10.0.0.1 tag a port 5",
        2,
        Kind::Syntax,
    ),
    (
        b"set profile openbsd-7.4\npass out rdr-to 10.0.0.1 static-port",
        2,
        Kind::Syntax,
    ),
    (b"set profile openbsd-7.4\npass out nat-to", 2, Kind::Syntax),
    (
        b"set profile openbsd-7.4\npass out nat-to em0",
        2,
        Kind::Unsupported,
    ),
    (
        b"set profile openbsd-7.4\npass out nat-to (em0)",
        2,
        Kind::Unsupported,
    ),
    (
        b"set profile openbsd-7.4\npass out nat-to 10.0.0.0/8",
        2,
        Kind::Syntax,
    ),
    (
        b"set profile openbsd-7.4\npass out nat-to ::1%em0",
        2,
        Kind::Unsupported,
    ),
    (
        b"set profile openbsd-7.4\npass out nat-to any",
        2,
        Kind::Unsupported,
    ),
    (
        b"set profile openbsd-7.4\npass out nat-to 10.0.0.1 port 70000",
        2,
        Kind::Number,
    ),
    (
        b"set profile openbsd-7.4\npass out nat-to 10.0.0.1 port 5:4",
        2,
        Kind::Number,
    ),
    (
        b"set profile openbsd-7.4\npass out nat-to 10.0.0.1 port foo",
        2,
        Kind::Unsupported,
    ),
    (
        b"set profile openbsd-7.4\npass in rdr-to 10.0.0.1 port 80:81",
        2,
        Kind::Number,
    ),
    (
        b"set profile openbsd-7.4\nblock in rdr-to 10.0.0.1",
        2,
        Kind::Unsupported,
    ),
    (
        b"set profile openbsd-7.4\nblock out nat-to 10.0.0.1",
        2,
        Kind::Unsupported,
    ),
    (
        b"set profile openbsd-7.4\npass in rdr-to 10.0.0.1 to any",
        2,
        Kind::Syntax,
    ),
];

#[test]
fn refused_rules(rt: HostRuntime) {
    for &(text, line, kind) in RULES {
        refused(&rt, text, line, kind);
    }
    for &(text, line, kind) in TRANSLATIONS {
        refused(&rt, text, line, kind);
    }
}

const ANCHORS: &[(&[u8], u64, Kind)] = &[
    (b"anchor a\n", 1, Kind::Unsupported),
    (b"anchor on\n", 1, Kind::Unsupported),
    (b"anchor \"a/b\" {", 1, Kind::Unsupported),
    (b"anchor a* {", 1, Kind::Unsupported),
    (b"anchor \"\" {", 1, Kind::Syntax),
    (b"anchor a {\n}\nanchor \"a\" {", 3, Kind::Duplicate),
    (b"anchor a { pass }", 1, Kind::Syntax),
    (b"anchor a {\nset limit states 5", 2, Kind::Unsupported),
    (b"anchor a {\ntable <t>", 2, Kind::Unsupported),
    (b"}", 1, Kind::Syntax),
    (b"anchor {\n} pass", 2, Kind::Syntax),
    (b"anchor proto 300 {", 1, Kind::Number),
    (b"anchor quick quick {", 1, Kind::Duplicate),
    (b"anchor inet6 inet {", 1, Kind::Duplicate),
    (b"anchor flags any flags any {", 1, Kind::Duplicate),
    (b"anchor in log {", 1, Kind::Syntax),
    (b"anchor a tag b {", 1, Kind::Unsupported),
    (b"anchor a in nat-to 10.0.0.1 {", 1, Kind::Unsupported),
    (
        b"anchor a in flags any rdr-to 10.0.0.1 {",
        1,
        Kind::Unsupported,
    ),
    (b"anchor a ! tagged b {", 1, Kind::Syntax),
    (
        b"anchor a flags any received-on em0 {",
        1,
        Kind::Unsupported,
    ),
    (b"anchor to any port 80 {\n}", 1, Kind::PortWithoutProto),
    (
        b"pass proto tcp\nanchor proto tcp {\npass to any port 80\n}",
        3,
        Kind::PortWithoutProto,
    ),
];

#[test]
fn refused_anchors(rt: HostRuntime) {
    for &(text, line, kind) in ANCHORS {
        refused(&rt, text, line, kind);
    }
}

/// Bytes without any order are answered too: a linear congruence gives them.
#[test]
fn any_bytes(rt: HostRuntime) -> Result<(), Fail> {
    let mut seed = 1u64;
    for length in 0..200usize {
        let mut text = Vec::new(rt.alloc());
        for _ in 0..length {
            seed = seed
                .wrapping_mul(6_364_136_223_846_793_005)
                .wrapping_add(1_442_695_040_888_963_407);
            text.push((seed / 4_294_967_296 % 256) as u8)?;
        }
        match load(rt.alloc(), &text) {
            Ok(config) => holds!(rt; config.item_count() <= 10_000),
            Err(fault) => holds!(rt; fault.line <= 201),
        }
    }
    Ok(())
}
