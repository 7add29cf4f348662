//! Addresses that fall together in an index under one rules text are spread under another.

use super::together::TOGETHER;
use pfs_addr_values::Addr;
use pfs_conf::load;
use pfs_conf_values::RulesHasher;
use pfs_tests_cases::{holds, same};
use std::alloc::Global;
use std::hash::BuildHasher;
use std::test::Fail;

const RULES: &[u8] = b"table <bad> { 203.0.113.9 }\npass in proto udp keep state\n";
/// Of one entry another address alone
const OTHER: &[u8] = b"table <bad> { 203.0.113.8 }\npass in proto udp keep state\n";

/// How many places an index has.
const PLACES: u64 = 65_536;

/// An address of 2001:db8::/64 by its number.
fn address(number: u32) -> Addr {
    Addr::V6((0x2001_0db8_0000_0000_0000_0000_0000_0000 | u128::from(number)).to_be_bytes())
}

/// The place of an address: the last 16 bits of its hash, as an index takes them of both halves.
fn place(rules: &RulesHasher, addr: Addr) -> u64 {
    let hash = rules.hash_one(addr);
    (hash ^ (hash >> 32)) % PLACES
}

/// The most of the addresses of `TOGETHER` that have one place under these rules.
fn most_in_a_place(alloc: Global, rules: &RulesHasher) -> Result<usize, Fail> {
    let mut places = Vec::with_capacity(alloc, TOGETHER.len())?;
    for number in TOGETHER {
        places.push(place(rules, address(*number)))?;
    }
    places.sort_unstable();
    let mut most = 0;
    let mut run: usize = 0;
    let mut last = PLACES;
    for place in &places {
        run = if *place == last {
            run.saturating_add(1)
        } else {
            1
        };
        last = *place;
        most = run.max(most);
    }
    Ok(most)
}

#[test]
fn addresses_found_under_one_text_are_spread_under_another(rt: HostRuntime) -> Result<(), Fail> {
    let alloc = rt.alloc();
    same!(rt; most_in_a_place(alloc, &RulesHasher::of_text(RULES))?, 2_000);
    let others = [
        RulesHasher::of_text(OTHER),
        load(alloc, RULES)?.hasher(),
        load(alloc, OTHER)?.hasher(),
    ];
    for other in &others {
        let most = most_in_a_place(alloc, other)?;
        holds!(rt; most <= 4, most);
    }
    Ok(())
}
