//! How many items are visited where neighbours ask the same.

use super::asking::Rules;
use super::bounds::visit_bound;
use super::packets::{packet, packet_on};
use pfs_addr_values::{Dir, Packet, Proto};
use pfs_conf::{RuleNo, load};
use pfs_tests_cases::{A1, SYN, same};
use std::alloc::{AllocError, Global};
use std::test::Fail;

/// A rule for each port from 1 to 50, and one that takes UDP.
fn fifty_ports(alloc: Global) -> Result<Vec<u8>, AllocError> {
    let mut text = Vec::new(alloc);
    for port in 1..51u32 {
        let rule = format!(in alloc; "block in on em1 proto tcp to any port {port}\n")?;
        text.extend_from_slice(rule.as_bytes())?;
    }
    text.extend_from_slice(b"pass in proto udp all\n")?;
    Ok(text)
}

#[test]
fn rules_of_another_interface_are_skipped(rt: HostRuntime) -> Result<(), Fail> {
    let config = load(rt.alloc(), &fifty_ports(rt.alloc())?)?;
    let rules = Rules::of(rt.alloc(), &config)?;
    let udp = packet(Dir::In, Proto::Udp, A1, 53)?;
    same!(rt; rules.ask(&udp), (Some(RuleNo(50)), 2));
    same!(rt; visit_bound(&config, &udp), 51);
    let tcp = packet_on(b"em1", Dir::In, Proto::Tcp, A1, 50, SYN)?;
    same!(rt; rules.ask(&tcp), (Some(RuleNo(49)), 51));
    same!(rt; visit_bound(&config, &tcp), 51);
    Ok(())
}

/// Twenty times this item, and a rule that matches.
fn twenty_times(alloc: Global, item: &[u8]) -> Result<Vec<u8>, AllocError> {
    let mut text = Vec::new(alloc);
    for _ in 0..20 {
        text.extend_from_slice(item)?;
    }
    text.extend_from_slice(b"pass\n")?;
    Ok(text)
}

/// The number of visits of a packet that comes in on em0 from 198.51.100.1 to a port.
fn visits(alloc: Global, item: &[u8], packet: &Packet) -> Result<u64, Fail> {
    let config = load(alloc, &twenty_times(alloc, item)?)?;
    let rules = Rules::of(alloc, &config)?;
    let (_, visits) = rules.ask(packet);
    Ok(visits)
}

#[test]
fn items_that_ask_the_same_are_skipped_together(rt: HostRuntime) -> Result<(), Fail> {
    let tcp = packet(Dir::In, Proto::Tcp, A1, 80)?;
    for (item, wanted) in [
        (b"block on em1\n".as_slice(), 2),
        (b"block on ! em0\n", 2),
        (b"block on em1\nblock on ! em0\n", 41),
        (b"block out\n", 2),
        (b"block inet6\n", 2),
        (b"block inet from 2001:db8::/32\n", 2),
        (b"block proto udp\n", 2),
        (b"block proto udp\nblock proto esp\n", 41),
        (b"block from 10.0.0.0/8\n", 2),
        (b"block from ! 198.51.100.0/24\n", 2),
        (b"block from ! 2001:db8::/32\n", 2),
        (b"block from <t>\n", 2),
        (b"block from <t>\nblock from <u>\n", 41),
        (b"block to 10.0.0.0/8\n", 2),
        (b"block proto tcp from any port 7\n", 2),
        (
            b"block proto tcp from any port 7 to any port 80\nblock proto tcp from any port 7\n",
            2,
        ),
        (b"block proto tcp to any port 7\n", 2),
        (
            b"block proto tcp to any port 7\nblock proto tcp to any port 8\n",
            41,
        ),
        (b"block flags A/A\n", 2),
        (b"block flags A/A\nblock flags A/SA\n", 41),
        (b"anchor out {\npass\nanchor in {\npass\n}\n}\n", 2),
        (b"anchor on em1 {\npass\n}\nblock on em1\n", 2),
    ] {
        same!(rt; visits(rt.alloc(), item, &tcp)?, wanted, item);
    }
    Ok(())
}
