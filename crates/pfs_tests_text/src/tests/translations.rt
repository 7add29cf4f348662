//! `nat-to` and `rdr-to`, as they are read, as they are meant, and as they are shown.

ghost use Rattle.std.specs.Prelude.{◌<◌, ◌^◌, length};

use pfs_addr_values::{Addr, Dir};
use pfs_conf::{Family, Ports, RuleNo, load};
use pfs_conf_filters::{Verb, read_translation, repeats_translation};
use pfs_conf_show::show;
use pfs_conf_tokens::{Cursor, Key, Refusal, Why};
use pfs_conf_values::{NatPorts, NatTo, RdrTo, Translation};
use pfs_tests_cases::{holds, same};
use std::test::Fail;

const OUTSIDE: Addr = Addr::V4([192, 0, 2, 1]);

const INSIDE: Addr = Addr::V4([10, 0, 0, 5]);

const INSIDE6: Addr = Addr::V6([0x20, 1, 0xd, 0xb8, 0, 0, 0, 0, 0, 0, 0, 0, 0, 0, 0, 1]);

/// What is read of one part.
fn read(text: &[u8], translation: Translation) -> Result<Translation, Refusal>
    requires { length text.now < 2 ^ 63 }
{
    read_translation(&mut Cursor::new(text), translation)
}

fn nat(ports: NatPorts) -> Option<NatTo> {
    Some(NatTo {
        addr: OUTSIDE,
        ports,
    })
}

fn rdr(port: Option<u16>) -> Option<RdrTo> {
    Some(RdrTo { addr: INSIDE, port })
}

fn both(nat_to: Option<NatTo>, rdr_to: Option<RdrTo>) -> Translation {
    Translation { nat_to, rdr_to }
}

fn ports(low: u16, high: u16) -> NatPorts {
    NatPorts::Given(Ports { low, high })
}

/// A part, and what is read of it.
const PARTS: &[(&[u8], Translation)] = &[
    (
        b"nat-to 192.0.2.1",
        Translation {
            nat_to: Some(NatTo {
                addr: OUTSIDE,
                ports: NatPorts::Usual,
            }),
            rdr_to: None,
        },
    ),
    (
        b"nat-to 192.0.2.1 static-port",
        Translation {
            nat_to: Some(NatTo {
                addr: OUTSIDE,
                ports: NatPorts::Static,
            }),
            rdr_to: None,
        },
    ),
    (
        b"rdr-to 2001:DB8::1 port www",
        Translation {
            nat_to: None,
            rdr_to: Some(RdrTo {
                addr: INSIDE6,
                port: Some(80),
            }),
        },
    ),
];

#[test]
fn each_part_is_read(rt: HostRuntime) {
    same!(rt; Translation::new(), both(None, None));
    for &(text, wanted) in PARTS {
        if text.len() < 100 {
            same!(rt; read(text, Translation::new()), Ok(wanted), text);
        }
    }
    let given = both(nat(ports(1024, 2047)), None);
    same!(rt; read(b"nat-to 192.0.2.1 port 1024:2047", Translation::new()), Ok(given));
    let one = both(nat(ports(22, 22)), None);
    same!(rt; read(b"nat-to 192.0.2.1 port ssh", Translation::new()), Ok(one));
    same!(rt; read(b"rdr-to 10.0.0.5", given), Ok(both(nat(ports(1024, 2047)), rdr(None))));
    same!(rt; read(b"rdr-to 10.0.0.5 port 8080", one), Ok(both(nat(ports(22, 22)), rdr(Some(8080)))));
}

/// What is no part, or no part that may follow, and the token at which reading stops.
#[test]
fn other_parts_are_none(rt: HostRuntime) {
    for (text, why, at) in [
        (b"nat-to".as_slice(), Why::Host, b"".as_slice()),
        (b"nat-to em0", Why::Host, b"em0"),
        (b"nat-to (em0)", Why::Host, b"("),
        (b"nat-to 10.0.0.0/8", Why::Host, b"10.0.0.0/8"),
        (b"nat-to <t>", Why::Host, b"<"),
        (b"nat-to 10.0.0.1 port", Why::Service, b""),
        (b"nat-to 10.0.0.1 port 5:4", Why::Service, b"5:4"),
        (b"rdr-to 10.0.0.1 port 80:90", Why::Service, b"80:90"),
        (b"rdr-to 10.0.0.1 port = 80", Why::Service, b"="),
        (b"binat-to 10.0.0.1", Why::Plain, b"binat-to"),
    ] {
        if text.len() < 100 {
            let mut cursor = Cursor::new(text);
            same!(rt; read_translation(&mut cursor, Translation::new()), Err(Refusal::Stop(why)), text);
            same!(rt; cursor.text(), at);
        }
    }
}

#[test]
fn parts_are_given_once(rt: HostRuntime) {
    let all = both(nat(NatPorts::Static), rdr(Some(1)));
    same!(rt; read(b"nat-to 10.0.0.1", all), Err(Refusal::Stop(Why::Again)));
    same!(rt; read(b"rdr-to 10.0.0.1", all), Err(Refusal::Stop(Why::Again)));
    for (translation, port, fixed) in [
        (all, true, true),
        (both(nat(ports(1, 2)), None), true, true),
        (both(nat(NatPorts::Usual), None), false, false),
        (both(None, rdr(Some(1))), true, false),
        (both(None, rdr(None)), false, false),
        (Translation::new(), false, false),
    ] {
        same!(rt; repeats_translation(&translation, Key::Port), port);
        same!(rt; repeats_translation(&translation, Key::StaticPort), fixed);
        same!(rt; repeats_translation(&translation, Key::Tag), false);
    }
}

#[test]
fn block_rules_translate_nothing(rt: HostRuntime) {
    let block = Verb::Block { has_policy: false };
    same!(rt; (Verb::Pass.may_translate(), Verb::Match.may_translate(), block.may_translate()), (true, true, false));
}

/// A rule, and its family, which its translation gives it.
const FAMILIES: &[(&str, Option<Family>)] = &[
    ("pass in rdr-to 10.0.0.5", Some(Family::Inet)),
    ("pass in inet rdr-to 10.0.0.5", Some(Family::Inet)),
    ("match out nat-to 2001:db8::1", Some(Family::Inet6)),
    ("pass out from <t> nat-to 192.0.2.1", Some(Family::Inet)),
    ("pass in inet6", Some(Family::Inet6)),
    ("pass in", None),
];

#[test]
fn a_translation_gives_the_family(rt: HostRuntime) -> Result<(), Fail> {
    for &(rule, family) in FAMILIES {
        let mut text = Vec::from_slice(rt.alloc(), b"set profile openbsd-7.4\n".as_slice())?;
        text.extend_from_slice(rule.as_bytes())?;
        let config = load(rt.alloc(), &text)?;
        let rule = config.rule(RuleNo(0)).ok_or("a rule")?;
        same!(rt; rule.filter.family, family);
        same!(rt; config.translates(), rule.translation.translates());
    }
    Ok(())
}

/// What rules say.
#[test]
fn rules_have_their_translations(rt: HostRuntime) -> Result<(), Fail> {
    let text =
        b"pass in\nmatch out rdr-to 10.0.0.5 port 8080 tag a nat-to 192.0.2.1 port 5:9\nset profile openbsd-7.4";
    let config = load(rt.alloc(), text)?;
    holds!(rt; config.translates());
    let first = config.rule(RuleNo(0)).ok_or("a rule")?;
    same!(rt; first.translation, Translation::new());
    let second = config.rule(RuleNo(1)).ok_or("a rule")?;
    same!(rt; (second.filter.dir, second.filter.family), (Some(Dir::Out), Some(Family::Inet)));
    same!(rt; second.translation, both(nat(ports(5, 9)), rdr(Some(8080))));
    holds!(rt; !load(rt.alloc(), b"pass in\nblock")?.translates());
    Ok(())
}

/// Texts, and what their canonical text ends with
const SHOWN: [(&[u8], &[u8]); 3] = [
    (
        b"set profile openbsd-7.4\nmatch out on em0 nat-to 192.0.2.1 tag OUT\n\
        match out on em1 inet nat-to 192.0.2.2 static-port\n\
        match in proto tcp to any port 80 ! tagged OUT received-on em0 rdr-to 10.0.0.5 port www\n\
        pass out nat-to 192.0.2.1 port 1024:2047\n",
        b"set profile openbsd-7.4\nmatch out on em0 inet all flags any tag OUT nat-to 192.0.2.1\n\
        match out on em1 inet all flags any nat-to 192.0.2.2 static-port\n\
        match in inet proto tcp from any to any port 80 flags any !tagged OUT received-on em0 rdr-to 10.0.0.5 port 80\n\
        pass out inet all flags S/SA nat-to 192.0.2.1 port 1024:2047 keep state\n",
    ),
    (
        b"pass in no state rdr-to 10.0.0.5 port 0 nat-to 192.0.2.1 port 9:9 flags any\nset profile openbsd-7.4\n",
        b"set profile openbsd-7.4\n\
        pass in inet all flags any nat-to 192.0.2.1 port 9 rdr-to 10.0.0.5 port 0 no state\n",
    ),
    (
        b"set profile openbsd-7.4\nanchor {\npass in from <t> to 2001:db8::/32 rdr-to 2001:DB8:0::1\n}\n",
        b"anchor all flags any {\npass in inet6 from <t> to 2001:db8::/32 flags S/SA rdr-to 2001:db8::1 keep state\n}\n",
    ),
];

#[test]
fn the_canonical_text_shows_translations(rt: HostRuntime) -> Result<(), Fail> {
    for (text, wanted) in SHOWN {
        let shown = show(rt.alloc(), &load(rt.alloc(), text)?)?;
        holds!(rt; shown.as_slice().ends_with(wanted), text);
    }
    Ok(())
}
