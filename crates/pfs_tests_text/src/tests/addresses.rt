//! IPv4 addresses and prefixes, numbers, protocols, flags and names at the edges of their texts.

use pfs_addr::{
    parse_addr, parse_flags, parse_number, parse_prefix, parse_proto, push_addr, push_flags,
};
use pfs_addr_values::{Addr, Flags, Name, Prefix, Proto, parse_ifname};
use pfs_tests_cases::{NONE, SYN, SYN_ACK, holds, same};
use std::test::Fail;

const ADDRESSES: &[(&[u8], [u8; 4])] = &[
    (b"0.0.0.0", [0, 0, 0, 0]),
    (b"255.255.255.255", [255, 255, 255, 255]),
    (b"198.51.100.1", [198, 51, 100, 1]),
];

#[test]
fn addresses_are_read(rt: HostRuntime) {
    for &(text, wanted) in ADDRESSES {
        holds!(rt; parse_addr(text) == Some(Addr::V4(wanted)), text);
    }
}

#[test]
fn addresses_are_written(rt: HostRuntime) -> Result<(), Fail> {
    let mut text = Vec::new(rt.alloc());
    push_addr(&mut text, Addr::V4([0, 9, 10, 99]))?;
    same!(rt; text.as_slice(), b"0.9.10.99".as_slice());
    text.push(b' ')?;
    push_addr(&mut text, Addr::V4([100, 109, 200, 255]))?;
    same!(rt; text.as_slice(), b"0.9.10.99 100.109.200.255".as_slice());
    same!(rt; Addr::V4([1, 2, 3, 4]).width(), 32);
    Ok(())
}

const PREFIXES: &[(&[u8], [u8; 4], u8)] = &[
    (b"10.1.2.3/8", [10, 0, 0, 0], 8),
    (b"10.1.2.3/32", [10, 1, 2, 3], 32),
    (b"10.1.2.3", [10, 1, 2, 3], 32),
    (b"10.1.2.3/0", [0, 0, 0, 0], 0),
];

#[test]
fn prefixes_are_read(rt: HostRuntime) {
    for &(text, address, bits) in PREFIXES {
        let told = parse_prefix(text).map(|prefix| (prefix.addr(), prefix.bits()));
        holds!(rt; told == Some((Addr::V4(address), bits)), text);
    }
}

#[test]
fn a_prefix_covers_by_first_bits(rt: HostRuntime) {
    let net = Addr::V4([10, 1, 2, 3]).prefix(23);
    same!(rt; (net.addr(), net.bits()), (Addr::V4([10, 1, 2, 0]), 23));
    let all = Addr::V4([10, 1, 2, 3]).prefix(0);
    let host = Prefix::host(Addr::V4([10, 1, 2, 3]));
    for (prefix, addr, wanted) in [
        (net, [10, 1, 3, 255], true),
        (net, [10, 1, 4, 0], false),
        (net, [10, 1, 1, 255], false),
        (all, [255, 255, 255, 255], true),
        (host, [10, 1, 2, 3], true),
        (host, [10, 1, 2, 2], false),
    ] {
        same!(rt; prefix.contains(Addr::V4(addr)), wanted, addr);
    }
}

const NUMBERS: &[(&[u8], Option<u64>)] = &[
    (b"0", Some(0)),
    (b"007", Some(7)),
    (b"9999999999", Some(9999999999)),
    (b"0000000001", Some(1)),
    (b"00000000001", None),
    (b"10000000000", None),
    (b"", None),
    (b"1a", None),
    (b"-1", None),
    (b"+1", None),
    (b"/:", None),
];

#[test]
fn numbers_are_read(rt: HostRuntime) {
    for &(text, wanted) in NUMBERS {
        same!(rt; parse_number(text), wanted, text);
    }
}

const PROTOCOLS: &[(&[u8], Option<u8>)] = &[
    (b"tcp", Some(6)),
    (b"006", Some(6)),
    (b"udp", Some(17)),
    (b"17", Some(17)),
    (b"icmp", Some(1)),
    (b"icmp6", Some(58)),
    (b"esp", Some(50)),
    (b"ah", Some(51)),
    (b"gre", Some(47)),
    (b"0", Some(0)),
    (b"255", Some(255)),
    (b"256", None),
    (b"4294967302", None),
    (b"TCP", None),
    (b"", None),
];

#[test]
fn protocols_are_read(rt: HostRuntime) {
    for &(text, wanted) in PROTOCOLS {
        same!(rt; parse_proto(text).map(|proto| proto.number()), wanted, text);
    }
}

const PORTS: &[(u8, bool, bool)] = &[
    (0, false, false),
    (1, false, true),
    (6, true, false),
    (17, true, false),
    (47, false, false),
    (58, false, true),
    (255, false, false),
];

/// A number, whether its protocol has ports, and whether it is ICMP
#[test]
fn protocols_have_numbers(rt: HostRuntime) {
    holds!(rt; Proto::from_number(6) == Proto::Tcp);
    holds!(rt; Proto::from_number(17) == Proto::Udp);
    for &(number, has_ports, is_icmp) in PORTS {
        same!(rt; Proto::from_number(number).number(), number);
        same!(rt; Proto::from_number(number).has_ports(), has_ports);
        same!(rt; Proto::from_number(number).is_icmp(), is_icmp);
    }
}

const FLAGS: &[(&[u8], Option<Flags>)] = &[
    (b"SA", Some(SYN_ACK)),
    (b"AS", Some(SYN_ACK)),
    (b"SASA", Some(SYN_ACK)),
    (b"SS", Some(SYN)),
    (b"", Some(NONE)),
    (b"X", None),
    (b"s", None),
    (b"S ", None),
];

#[test]
fn flags_are_read(rt: HostRuntime) {
    for &(text, wanted) in FLAGS {
        same!(rt; parse_flags(text), wanted, text);
    }
    holds!(rt; Flags::default() == NONE);
}

#[test]
fn flags_are_written(rt: HostRuntime) -> Result<(), Fail> {
    let mut text = Vec::new(rt.alloc());
    push_flags(&mut text, NONE)?;
    same!(rt; text.as_slice(), b"".as_slice());
    push_flags(&mut text, SYN_ACK)?;
    same!(rt; text.as_slice(), b"SA".as_slice());
    let all = parse_flags(b"WEUAPRSF").ok_or("no flags")?;
    push_flags(&mut text, all)?;
    same!(rt; text.as_slice(), b"SAFSRPAUEW".as_slice());
    Ok(())
}

const NAMES: &[(&[u8], Option<usize>)] = &[
    (b"abc-DEF_019.xyz", Some(15)),
    (b"abc-DEF_019.xyzz", None),
    (b"em 0", None),
    (b"", None),
];

#[test]
fn names_are_read(rt: HostRuntime) {
    for &(text, len) in NAMES {
        same!(rt; parse_ifname(text).map(|n| n.as_bytes().len()), len, text);
    }
    same!(rt; Name::<31>::parse(b"abc-DEF_019.xyzz").map(|n| n.as_bytes().len()), Some(16));
}

#[test]
fn names_are_compared_whole(rt: HostRuntime) {
    for (text, is_same) in [(b"em0".as_slice(), true), (b"em1", false), (b"em", false)] {
        same!(rt; parse_ifname(b"em0") == parse_ifname(text), is_same);
    }
}
