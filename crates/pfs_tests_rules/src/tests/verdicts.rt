//! Which rule decides on a packet, by each parameter of a rule.

use super::asking::Rules;
use super::bounds::visit_bound;
use super::packets::packet;
use pfs_addr_values::{Addr, Dir, Packet, Proto};
use pfs_conf::RuleNo;
use pfs_tests_cases::{A1, ANCHORED, S6, UNSCALED, configured, same};
use std::alloc::Global;
use std::test::Fail;

/// Two tables, for the rules after them.
const TABLES: &str =
    "table <t> { 10.0.0.0/8, !10.1.0.0/16, 10.1.2.3 }\ntable <bad> { 203.0.113.9 }\n";

/// The rule of a text, after the two tables, that decides on a packet, and the number of visits.
fn decided(alloc: Global, rules: &str, packet: &Packet) -> Result<(Option<RuleNo>, u64), Fail> {
    let rules = Rules::of(alloc, &configured(alloc, TABLES, rules)?)?;
    Ok(rules.ask(packet))
}

const PARAMETERS: &[(&str, bool, bool)] = &[
    ("pass", true, true),
    ("pass in", true, true),
    ("pass out", false, false),
    ("pass inet", true, true),
    ("pass proto udp", false, true),
    ("pass proto tcp", true, false),
    ("pass proto esp", false, false),
    ("pass on em0", true, true),
    ("pass on !em0", false, false),
    ("pass on em1", false, false),
    ("pass on !em1", true, true),
    ("pass from 10.1.9.9/16", true, true),
    ("pass from !10.1.9.9/16", false, false),
    ("pass to 10.1.9.9/16", false, false),
    ("pass to !10.1.9.9/16", true, true),
    ("pass from <t>", false, false),
    ("pass from !<t>", true, true),
    ("pass proto tcp to any port 80", true, false),
    ("pass proto tcp to any port 22:80", true, false),
    ("pass proto tcp to any port 81:90", false, false),
    ("pass proto tcp to any port 22:79", false, false),
    ("pass proto udp from any port 1000", false, true),
];

#[test]
fn each_parameter_is_asked(rt: HostRuntime) -> Result<(), Fail> {
    let source = Addr::V4([10, 1, 0, 1]);
    let tcp = packet(Dir::In, Proto::Tcp, source, 80)?;
    let udp = packet(Dir::In, Proto::Udp, source, 80)?;
    for &(rule, of_tcp, of_udp) in PARAMETERS {
        for (packet, is_decided) in [(&tcp, of_tcp), (&udp, of_udp)] {
            let decided = decided(rt.alloc(), rule, packet)?;
            let wanted = if is_decided { Some(RuleNo(0)) } else { None };
            same!(rt; decided, (wanted, 1), rule);
        }
    }
    Ok(())
}

/// A rule, and whether it holds of a packet from 198.51.100.1 to 192.0.2.1, and of one from 2001:db8::1 to 2001:db8::53
const FAMILIES: &[(&str, bool, bool)] = &[
    ("pass", true, true),
    ("pass inet", true, false),
    ("pass inet6", false, true),
    ("pass from any to any", true, true),
    ("pass from 198.51.100.0/24", true, false),
    ("pass from !198.51.100.0/24", false, false),
    ("pass from !198.51.101.0/24", true, false),
    ("pass from 2001:db8::/32", false, true),
    ("pass from !2001:db8::/32", false, false),
    ("pass from !2001:db9::/32", false, true),
    ("pass to 192.0.2.1", true, false),
    ("pass to 2001:DB8:0:0:0:0:0:53", false, true),
    ("pass to !2001:db8::54", false, true),
    ("pass from 0.0.0.0/0", true, false),
    ("pass from ::/0", false, true),
    ("pass from !::/0", false, false),
    ("pass inet from 2001:db8::/32", false, false),
    ("pass inet6 from !198.51.100.0/24", false, false),
    ("pass from <six>", false, true),
    ("pass from !<six>", true, false),
    ("pass from !<four>", false, true),
    ("pass inet6 from !<four>", false, true),
];

const TABLES_OF_BOTH: &str = "table <six> { 2001:db8::/32 }\ntable <four> { 0.0.0.0/0 }\n";

#[test]
fn families_are_asked_apart(rt: HostRuntime) -> Result<(), Fail> {
    let four = packet(Dir::In, Proto::Tcp, A1, 80)?;
    let six = packet(Dir::In, Proto::Tcp, S6, 80)?;
    for &(rule, of_four, of_six) in FAMILIES {
        let rules = Rules::of(rt.alloc(), &configured(rt.alloc(), TABLES_OF_BOTH, rule)?)?;
        for (packet, is_decided) in [(&four, of_four), (&six, of_six)] {
            let (decided, _) = rules.ask(packet);
            same!(rt; decided.is_some(), is_decided, rule);
        }
    }
    Ok(())
}

const FLAGS: &[(&str, bool)] = &[
    ("block flags S/SA", true),
    ("block flags A/SA", false),
    ("block flags SA/SA", false),
    ("block flags /A", true),
    ("block flags /SA", false),
    ("block flags S/A", false),
    ("block flags any", true),
];

#[test]
fn flags_are_asked_of_tcp_alone(rt: HostRuntime) -> Result<(), Fail> {
    let tcp = packet(Dir::In, Proto::Tcp, A1, 80)?;
    let udp = packet(Dir::In, Proto::Udp, A1, 80)?;
    for &(rule, holds) in FLAGS {
        let (decided_tcp, _) = decided(rt.alloc(), rule, &tcp)?;
        same!(rt; decided_tcp.is_some(), holds, rule);
        let (decided_udp, _) = decided(rt.alloc(), rule, &udp)?;
        same!(rt; decided_udp.is_some(), true, rule);
    }
    Ok(())
}

/// The packet, the rule that decides on it, the number of visits, and the most that it may be
const QUICK: &[(Dir, bool, u16, u32, u64, u64)] = &[
    (Dir::In, false, 53, 2, 3, 7),
    (Dir::In, true, 22, 7, 7, 8),
    (Dir::In, true, 80, 5, 8, 8),
    (Dir::In, false, 99, 8, 7, 7),
    (Dir::Out, false, 53, 0, 4, 4),
];

#[test]
fn quick_ends_the_whole_evaluation(rt: HostRuntime) -> Result<(), Fail> {
    let config = configured(rt.alloc(), UNSCALED, ANCHORED)?;
    let rules = Rules::of(rt.alloc(), &config)?;
    for &(dir, is_tcp, port, rule, visits, bound) in QUICK {
        let packet = if is_tcp {
            packet(dir, Proto::Tcp, A1, port)?
        } else {
            packet(dir, Proto::Udp, A1, port)?
        };
        same!(rt; rules.ask(&packet), (Some(RuleNo(rule)), visits), rule);
        same!(rt; visit_bound(&config, &packet), bound, rule);
    }
    Ok(())
}
