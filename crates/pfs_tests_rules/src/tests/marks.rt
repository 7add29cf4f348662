//! Rules that give a packet a tag, `match` rules, and what rules ask of how a packet came.

use super::asking::Rules;
use super::packets::packet;
use pfs_addr_values::{Dir, Packet, Proto, TagNo, parse_ifname};
use pfs_conf::RuleNo;
use pfs_tests_cases::{A1, CaseError, configured, same};
use std::alloc::Global;
use std::test::Fail;

/// The first line of a text with such rules.
const PROFILED: &str = "set profile openbsd-7.4\n";

/// Rules, without the first line.
fn rules(alloc: Global, text: &str) -> Result<Rules, Fail> {
    Rules::of(alloc, &configured(alloc, PROFILED, text)?)
}

/// A packet that comes in on em0, with a tag or without.
fn tagged(tag: Option<u16>) -> Result<Packet, CaseError> {
    let packet = packet(Dir::In, Proto::Tcp, A1, 80)?;
    Ok(packet.with_tag(tag.map(TagNo)))
}

/// Rules, the tag of a packet that comes in, the rule that decides on it, and its tag behind them
const TAGS: &[(&str, Option<u16>, Option<u32>, Option<u16>)] = &[
    ("match tag a", None, None, Some(0)),
    ("match tag a\npass", None, Some(1), Some(0)),
    ("block\nmatch tag a", None, Some(0), Some(1)),
    ("block\nmatch", None, Some(0), None),
    ("pass tag a\nblock tag b", None, Some(1), Some(1)),
    ("pass tag a\nmatch tag b\nblock", None, Some(2), Some(1)),
    ("pass tag a\nblock", None, Some(1), Some(0)),
    ("pass quick tag a\nmatch tag b", None, Some(0), Some(0)),
    (
        "match tag a\nmatch tag b\npass tag a",
        None,
        Some(2),
        Some(0),
    ),
    ("match out tag a\npass", None, Some(1), None),
    ("match tag a\npass tagged a", None, Some(1), Some(0)),
    ("pass tagged a\nmatch tag a", None, None, Some(1)),
    (
        "match tag a\nmatch tag b\npass tagged a",
        None,
        None,
        Some(1),
    ),
    (
        "match tag a\nmatch tag b\npass ! tagged a",
        None,
        Some(2),
        Some(1),
    ),
    ("match tag a\npass ! tagged a", None, None, Some(0)),
    ("pass ! tagged a\nmatch tag a", None, Some(0), Some(1)),
    ("pass tagged nobody", None, None, None),
    ("pass tagged nobody", Some(0), None, Some(0)),
    ("pass ! tagged nobody", None, Some(0), None),
    ("pass ! tagged nobody", Some(0), Some(0), Some(0)),
    ("pass", Some(7), Some(0), Some(7)),
    ("match tag a\npass tagged a", Some(7), Some(1), Some(0)),
    ("pass tagged a\nmatch out tag a", Some(1), Some(0), Some(1)),
    ("pass tagged b tag a\nmatch out tag b", None, None, None),
    (
        "pass tagged b tag a\nmatch out tag b",
        Some(1),
        Some(0),
        Some(0),
    ),
    ("pass quick tagged a\nblock tag a", None, Some(1), Some(1)),
    (
        "match tag a\npass quick tagged a\nblock tag b",
        None,
        Some(1),
        Some(0),
    ),
    (
        "anchor in quick {\nmatch tag a\n}\npass",
        None,
        Some(2),
        Some(1),
    ),
    (
        "anchor in quick {\npass tag a\n}\nblock tag b",
        None,
        Some(1),
        Some(1),
    ),
    (
        "anchor in quick {\npass tag a\nmatch tag b\n}\nblock",
        None,
        Some(1),
        Some(2),
    ),
    (
        "anchor in quick {\npass tagged a\n}\nblock tag a",
        None,
        Some(2),
        Some(2),
    ),
    (
        "anchor out {\nmatch tag a\n}\npass tagged a",
        None,
        None,
        None,
    ),
];

#[test]
fn a_rule_that_matches_gives_its_tag(rt: HostRuntime) -> Result<(), Fail> {
    for &(text, before, rule, behind) in TAGS {
        let packet = tagged(before)?;
        let (decision, _) = rules(rt.alloc(), text)?.decide(&packet);
        same!(rt; decision.rule, rule.map(RuleNo), text);
        same!(rt; decision.packet, packet.with_tag(behind.map(TagNo)), text);
    }
    Ok(())
}

/// A rule, and whether it holds of a packet that is on em0, of one that goes out on em1 and came by em0, and of one that goes out on em0
/// and came by no interface that is known
const RECEIVED: &[(&str, bool, bool, bool)] = &[
    ("pass received-on em0", true, true, false),
    ("pass ! received-on em0", false, false, true),
    ("pass received-on em1", false, false, false),
    ("pass ! received-on em1", true, true, true),
    ("pass out received-on em0", false, true, false),
    ("pass on em1 received-on em0", false, true, false),
];

#[test]
fn the_interface_by_which_a_packet_came_is_asked(rt: HostRuntime) -> Result<(), Fail> {
    let coming = packet(Dir::In, Proto::Tcp, A1, 80)?;
    let em1 = parse_ifname(b"em1").ok_or(CaseError::Unreadable)?;
    let going = coming.through(em1);
    let own = packet(Dir::Out, Proto::Tcp, A1, 80)?;
    for &(text, of_coming, of_going, of_own) in RECEIVED {
        let rules = rules(rt.alloc(), text)?;
        for (packet, holds) in [(&coming, of_coming), (&going, of_going), (&own, of_own)] {
            let (decided, _) = rules.ask(packet);
            same!(rt; decided.is_some(), holds, text);
        }
    }
    Ok(())
}

/// Rules, and how many are visited with a packet without a tag that comes in on em0: none is left behind with one on whose tag, or
/// interface of before, alone it fails
const VISITS: &[(&str, u64)] = &[
    ("block tagged a\nblock tagged a\nblock tagged a", 3),
    ("block received-on em1\nblock received-on em1", 2),
    ("block on em1 tagged a\nblock on em1 tagged b\npass", 2),
    ("match tag a\nmatch tag a\nmatch tag a", 3),
    ("pass quick tagged a\nblock\npass quick\nblock", 3),
];

#[test]
fn a_rule_that_fails_on_its_tag_is_visited(rt: HostRuntime) -> Result<(), Fail> {
    let packet = packet(Dir::In, Proto::Tcp, A1, 80)?;
    for &(text, wanted) in VISITS {
        let (_, visits) = rules(rt.alloc(), text)?.ask(&packet);
        same!(rt; visits, wanted, text);
    }
    Ok(())
}
