//! Rules that translate: what they make of a packet, what rules behind them see of it, and which rule loses it.

ghost use Rattle.std.specs.Prelude.{◌||◌, nat_lt};

use super::asking::Rules;
use super::packets::packet;
use pfs_addr_values::{Addr, Dir, Endpoint, FlowKey, Packet, Proto, parse_ifname};
use pfs_conf::RuleNo;
use pfs_eval::Sides;
use pfs_tests_cases::{A1, CaseError, SERVER, configured, same};
use std::alloc::Global;
use std::test::Fail;

/// The first line of a text with such rules.
const PROFILED: &str = "set profile openbsd-7.4\n";

/// Rules, without the first line.
fn rules(alloc: Global, text: &str) -> Result<Rules, Fail> {
    Rules::of(alloc, &configured(alloc, PROFILED, text)?)
}

/// Each key is taken whose first end has a port below the first number, or whose second end one below the second.
#[derive(Clone, Copy)]
struct Below(u16, u16);

impl Sides for Below {
    ghost taken = { λ below dir key. nat_lt key.a.port below.0 || nat_lt key.b.port below.1 };

    fn is_taken(&self, _dir: Dir, key: &FlowKey) -> bool {
        key.a.port < self.0 || key.b.port < self.1
    }
}

/// A packet of TCP from port 1000 of A1 to port 80 of the server.
fn web(dir: Dir) -> Result<Packet, CaseError> {
    packet(dir, Proto::Tcp, A1, 80)
}

/// The addresses that the rules put in place of others.
const OUTSIDE: Addr = Addr::V4([192, 0, 2, 9]);

const INSIDE: Addr = Addr::V4([10, 0, 0, 5]);

/// An end by a number: 0 is A1, 1 the server, 2 and 3 what rules put in their place.
fn end((number, port): (u32, u16)) -> Endpoint {
    let addr = match number {
        0 => A1,
        1 => SERVER,
        2 => OUTSIDE,
        _ => INSIDE,
    };
    Endpoint { addr, port }
}

/// Rules for a packet that goes out, below which ports of its source keys are taken, the rule that decides, the source and the
/// destination behind them
const GOING: &[(&str, u16, Option<u32>, (u32, u16), (u32, u16))] = &[
    (
        "pass out nat-to 192.0.2.9",
        0,
        Some(0),
        (2, 50_001),
        (1, 80),
    ),
    (
        "pass out nat-to 192.0.2.9",
        50_004,
        Some(0),
        (2, 50_004),
        (1, 80),
    ),
    (
        "pass out nat-to 192.0.2.9",
        65_535,
        Some(0),
        (2, 65_535),
        (1, 80),
    ),
    (
        "pass out nat-to 192.0.2.9 port 7",
        0,
        Some(0),
        (2, 7),
        (1, 80),
    ),
    (
        "pass out nat-to 192.0.2.9 port 7:9",
        9,
        Some(0),
        (2, 9),
        (1, 80),
    ),
    (
        "pass out nat-to 192.0.2.9 static-port",
        2_000,
        Some(0),
        (2, 1_000),
        (1, 80),
    ),
    (
        "pass out rdr-to 10.0.0.5",
        2_000,
        Some(0),
        (0, 1_000),
        (3, 80),
    ),
    (
        "pass out rdr-to 10.0.0.5 port 8080 nat-to 192.0.2.9",
        0,
        Some(0),
        (2, 50_001),
        (3, 8_080),
    ),
    (
        "match out nat-to 192.0.2.9\npass out proto tcp from 192.0.2.9 port 50001",
        0,
        Some(1),
        (2, 50_001),
        (1, 80),
    ),
    (
        "match out proto tcp rdr-to 10.0.0.5\nblock to 10.0.0.5\npass out to 192.0.2.1",
        0,
        Some(1),
        (0, 1_000),
        (3, 80),
    ),
    (
        "pass out rdr-to 10.0.0.5\nblock to 10.0.0.5",
        0,
        Some(0),
        (0, 1_000),
        (3, 80),
    ),
    (
        "pass out nat-to 192.0.2.9\nblock",
        0,
        Some(1),
        (0, 1_000),
        (1, 80),
    ),
    (
        "match out nat-to 192.0.2.9\nmatch out nat-to 10.0.0.5 static-port\nblock",
        0,
        Some(2),
        (3, 50_001),
        (1, 80),
    ),
    (
        "match in nat-to 192.0.2.9\nmatch out proto udp rdr-to 10.0.0.5",
        0,
        None,
        (0, 1_000),
        (1, 80),
    ),
    (
        "match out nat-to 192.0.2.9\npass out nat-to 192.0.2.9 port 7",
        0,
        Some(1),
        (2, 50_001),
        (1, 80),
    ),
];

#[test]
fn packets_that_go_out_are_translated(rt: HostRuntime) -> Result<(), Fail> {
    for &(text, below, rule, source, destination) in GOING {
        let packet = web(Dir::Out)?;
        let (decision, _) = rules(rt.alloc(), text)?.decide_over(&Below(0, below), &packet);
        same!(rt; (decision.rule, decision.lost), (rule.map(RuleNo), None), text);
        same!(rt; decision.packet.source(), end(source), text);
        same!(rt; decision.packet.destination(), end(destination), text);
    }
    Ok(())
}

/// Rules for a packet that goes out, where each port is taken; the rule that loses it, which decides, and how many are visited
const LOSING: &[(&str, u32, u64)] = &[
    ("pass out nat-to 192.0.2.9", 0, 1),
    ("pass out nat-to 192.0.2.9 port 1:65535\nmatch", 0, 2),
    ("match out nat-to 192.0.2.9\nblock", 0, 1),
    ("block\nmatch out nat-to 192.0.2.9\npass", 1, 2),
    (
        "pass\nmatch out nat-to 192.0.2.9 rdr-to 10.0.0.5\npass",
        1,
        2,
    ),
    (
        "anchor out {\nmatch out nat-to 192.0.2.9\nmatch\n}\npass quick",
        1,
        2,
    ),
    ("match out rdr-to 10.0.0.5\npass out nat-to 192.0.2.9", 1, 2),
];

#[test]
fn a_packet_without_a_port_is_lost(rt: HostRuntime) -> Result<(), Fail> {
    let packet = web(Dir::Out)?;
    for &(text, rule, wanted) in LOSING {
        let rules = rules(rt.alloc(), text)?;
        let (decision, visits) = rules.decide_over(&Below(0, u16::MAX), &packet);
        same!(rt; decision.lost, None, text);
        same!(rt; decision.packet.sport(), 65_535, text);
        let (decision, visits_of_lost) = rules.decide_over(&Below(u16::MAX, 0), &packet);
        same!(rt; (decision.rule, decision.lost), (Some(RuleNo(rule)), Some(RuleNo(rule))), text);
        same!(rt; decision.packet.source(), end((0, 1_000)), text);
        same!(rt; visits_of_lost, wanted, text);
        assert!(rt; wanted <= visits, "{visits} visits");
    }
    Ok(())
}

/// A source that is the address already stays as it is where it is not known by which interface the packet came in.
#[test]
fn a_packet_behind_the_translation_stays(rt: HostRuntime) -> Result<(), Fail> {
    let rules = rules(rt.alloc(), "pass out nat-to 198.51.100.1")?;
    let own = web(Dir::Out)?;
    let (decision, _) = rules.decide_over(&Below(u16::MAX, u16::MAX), &own);
    same!(rt; (decision.packet, decision.lost), (own, None));
    let em1 = parse_ifname(b"em1").ok_or(CaseError::Unreadable)?;
    let going = web(Dir::In)?.through(em1);
    let (decision, _) = rules.decide(&going);
    same!(rt; decision.packet.source(), end((0, 50_001)));
    Ok(())
}

/// The port of a packet that comes in is sought by the key with its source in front, before its destination is another.
#[test]
fn the_key_has_the_way_of_the_packet(rt: HostRuntime) -> Result<(), Fail> {
    let rules = rules(
        rt.alloc(),
        "match in nat-to 192.0.2.9 rdr-to 10.0.0.5 port 8080",
    )?;
    let coming = web(Dir::In)?;
    let (decision, _) = rules.decide_over(&Below(50_003, 0), &coming);
    same!(rt; (decision.packet.source(), decision.packet.destination()), (end((2, 50_003)), end((3, 8_080))));
    let (decision, _) = rules.decide_over(&Below(0, 80), &coming);
    same!(rt; decision.packet.source(), end((2, 50_001)));
    let (decision, _) = rules.decide_over(&Below(0, 81), &coming);
    same!(rt; decision.lost, Some(RuleNo(0)));
    Ok(())
}
