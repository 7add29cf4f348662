//! How long states live, by how many there are.

use pfs_addr_values::Proto;
use pfs_conf::RuleNo;
use pfs_tests_cases::{SYN_ACK, configured, same};
use pfs_track::{StatePhase, is_expired, lifetime};
use std::test::Fail;

const EXPIRED: &[(u64, u64, u64, bool)] = &[
    (120, 10, 130, true),
    (120, 10, 129, false),
    (0, 10, 10, true),
    (u64::MAX, 1, u64::MAX, false),
];

#[test]
fn what_stays_long_enough_is_expired(rt: HostRuntime) {
    for &(lifetime, last, now, wanted) in EXPIRED {
        same!(rt; is_expired(lifetime, last, now), wanted);
    }
}

const DEFAULT: &[(u64, u64)] = &[
    (0, 120),
    (6, 120),
    (7, 100),
    (8, 80),
    (10, 40),
    (12, 0),
    (13, 0),
    (u64::MAX, 0),
];

/// At most 10 states are held: so lives are shorter
/// from 6 on and end at 12
#[test]
fn lifetimes_shrink_by_the_default_pair(rt: HostRuntime) -> Result<(), Fail> {
    let config = configured(rt.alloc(), "set limit states 10", "")?;
    let first = StatePhase::first(false, Proto::Tcp);
    for &(count, wanted) in DEFAULT {
        let told = lifetime(&config, RuleNo(0), first, 0, count);
        same!(rt; told, wanted, count);
    }
    let (opening, _) = first.step(false, SYN_ACK);
    same!(rt; lifetime(&config, RuleNo(0), opening, 0, 11), 5);
    Ok(())
}

const SET: &[(&str, u64, u64)] = &[
    (
        "set timeout { adaptive.start 0, adaptive.end 0 }",
        1000,
        120,
    ),
    ("set timeout { adaptive.start 0, adaptive.end 4 }", 1, 90),
    (
        "set timeout { tcp.first 2147483647, adaptive.start 0, adaptive.end 4294967295 }",
        1,
        2_147_483_646,
    ),
];

#[test]
fn lifetimes_shrink_by_a_pair_that_is_set(rt: HostRuntime) -> Result<(), Fail> {
    let first = StatePhase::first(false, Proto::Tcp);
    for &(rules, count, wanted) in SET {
        let config = configured(rt.alloc(), "", rules)?;
        same!(rt; lifetime(&config, RuleNo(0), first, 0, count), wanted);
    }
    Ok(())
}

#[test]
fn lifetimes_of_a_rule_shrink_by_its_own_pair(rt: HostRuntime) -> Result<(), Fail> {
    let rules = "pass keep state (tcp.first 60, adaptive.start 1, adaptive.end 4)";
    let config = configured(rt.alloc(), "", rules)?;
    let first = StatePhase::first(false, Proto::Tcp);
    for (count, wanted) in [(0, 60), (1, 60), (2, 40), (3, 20), (4, 0)] {
        let told = lifetime(&config, RuleNo(0), first, count, 1_000_000);
        same!(rt; told, wanted, count);
    }
    let (opening, _) = first.step(false, SYN_ACK);
    same!(rt; lifetime(&config, RuleNo(0), opening, 2, 1_000_000), 20);
    Ok(())
}
