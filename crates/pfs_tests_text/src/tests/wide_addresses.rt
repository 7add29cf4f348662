//! IPv6 addresses and prefixes at the edges of their texts, and texts that are neither, of IPv4 too.

use pfs_addr::{parse_addr, parse_prefix, push_addr};
use pfs_addr_values::{Addr, Prefix};
use pfs_tests_cases::{holds, same};
use std::test::Fail;

/// Eight groups as an address
const fn groups(g: [u16; 8]) -> Addr {
    let [a, b, c, d, e, f, g, h] = g;
    let [a, b, c, d] = [
        a.to_be_bytes(),
        b.to_be_bytes(),
        c.to_be_bytes(),
        d.to_be_bytes(),
    ];
    let [e, f, g, h] = [
        e.to_be_bytes(),
        f.to_be_bytes(),
        g.to_be_bytes(),
        h.to_be_bytes(),
    ];
    Addr::V6([
        a[0], a[1], b[0], b[1], c[0], c[1], d[0], d[1], e[0], e[1], f[0], f[1], g[0], g[1], h[0],
        h[1],
    ])
}

/// A text, the address that it writes, and the text in which that is shown
const TEXTS: &[(&[u8], [u16; 8], &[u8])] = &[
    (
        b"2001:DB8:0:0:1:0:0:1",
        [0x2001, 0xdb8, 0, 0, 1, 0, 0, 1],
        b"2001:db8::1:0:0:1",
    ),
    (b"1:0:0:2:0:0:0:3", [1, 0, 0, 2, 0, 0, 0, 3], b"1:0:0:2::3"),
    (
        b"1:2:3:4:5:6:7::",
        [1, 2, 3, 4, 5, 6, 7, 0],
        b"1:2:3:4:5:6:7:0",
    ),
    (
        b"::2:3:4:5:6:7:8",
        [0, 2, 3, 4, 5, 6, 7, 8],
        b"0:2:3:4:5:6:7:8",
    ),
    (
        b"1:2:3::5:6:7:8",
        [1, 2, 3, 0, 5, 6, 7, 8],
        b"1:2:3:0:5:6:7:8",
    ),
    (b"::", [0, 0, 0, 0, 0, 0, 0, 0], b"::"),
    (b"0:0:0:0:0:0:0:0", [0, 0, 0, 0, 0, 0, 0, 0], b"::"),
    (b"::1", [0, 0, 0, 0, 0, 0, 0, 1], b"::1"),
    (b"1::", [1, 0, 0, 0, 0, 0, 0, 0], b"1::"),
    (
        b"0:0:1:0:0:1:0:0",
        [0, 0, 1, 0, 0, 1, 0, 0],
        b"::1:0:0:1:0:0",
    ),
    (
        b"1:0:0:1:1:0:0:1",
        [1, 0, 0, 1, 1, 0, 0, 1],
        b"1::1:1:0:0:1",
    ),
    (
        b"0000:00a:0fF:FFFF::0001",
        [0, 10, 255, 65535, 0, 0, 0, 1],
        b"0:a:ff:ffff::1",
    ),
    (
        b"fe80::00Ab:c0de",
        [0xfe80, 0, 0, 0, 0, 0, 0xab, 0xc0de],
        b"fe80::ab:c0de",
    ),
    (
        b"::ffff:c000:201",
        [0, 0, 0, 0, 0, 0xffff, 0xc000, 0x201],
        b"::ffff:c000:201",
    ),
    (
        b"9f:a0:10:f:1000:fff:100:ff",
        [0x9f, 0xa0, 0x10, 15, 0x1000, 0xfff, 0x100, 0xff],
        b"9f:a0:10:f:1000:fff:100:ff",
    ),
    (
        b"1111:2222:3333:4444:5555:6666:7777:8888",
        [
            0x1111, 0x2222, 0x3333, 0x4444, 0x5555, 0x6666, 0x7777, 0x8888,
        ],
        b"1111:2222:3333:4444:5555:6666:7777:8888",
    ),
];

#[test]
fn addresses_are_read_and_shown(rt: HostRuntime) -> Result<(), Fail> {
    for &(text, wanted, shown) in TEXTS {
        holds!(rt; parse_addr(text) == Some(groups(wanted)), text);
        holds!(rt; parse_addr(shown) == Some(groups(wanted)), text);
        let mut out = Vec::new(rt.alloc());
        out.push(b'<')?;
        push_addr(&mut out, groups(wanted))?;
        same!(rt; &out.as_slice()[1..], shown, text);
    }
    Ok(())
}

const NONE: &[&[u8]] = &[
    b"256.0.0.1",
    b"01.2.3.4",
    b"1.2.3.00",
    b"1.2.3",
    b"1.2.3.4.",
    b"1.2.3.4.5",
    b"1..2.3",
    b" 1.2.3.4",
    b"+1.2.3.4",
    b"",
    b"10.1.2.3/33",
    b"10.1.2.3/256",
    b"10.1.2.3/08",
    b"10.1.2.3/00",
    b"10.1.2.3/",
    b"10.1.2.3/8/8",
    b"/8",
    b"10/8",
    b"1::2::3",
    b"12345::",
    b"1:2:3:4:5:6:7:8::",
    b"1:2:3:4::5:6:7:8",
    b"::1:2:3:4:5:6:7:8",
    b"::ffff:192.0.2.1",
    b"64:ff9b::192.0.2.33",
    b"1:2:3:4:5:6:192.0.2.1",
    b"::1.2.3.4",
    b"fe80::1%em0",
    b"fe80::1%0",
    b"1:2:3:4:5:6:7",
    b"1:2:3:4:5:6:7:8:9",
    b"1:2:3:4:5:6:7:",
    b":1:2:3:4:5:6:7",
    b":1::2",
    b"1::2:",
    b":::",
    b":",
    b"1:::2",
    b"g::",
    b"1: :2",
    b"::1 ",
    b" ::1",
    b"[::1]",
    b"0x1::",
    b"+1::",
    b"::00001",
    b"1.2.3.4:80",
    b"::1\0",
    b"::/129",
    b"::/256",
    b"::/064",
    b"::/",
    b"::/64/64",
    b"/64",
    b"2001:db8/32",
    b"::1.2.3.4/96",
];

#[test]
fn other_texts_are_no_addresses(rt: HostRuntime) {
    for &text in NONE {
        holds!(rt; parse_addr(text).is_none(), text);
        holds!(rt; parse_prefix(text).is_none(), text);
    }
    for byte in b":01" {
        holds!(rt; parse_addr(&[*byte; 300]).is_none());
    }
}

const PREFIXES: &[(&[u8], [u16; 8], u8)] = &[
    (b"2001:db8::ff/32", [0x2001, 0xdb8, 0, 0, 0, 0, 0, 0], 32),
    (b"2001:db8::/32", [0x2001, 0xdb8, 0, 0, 0, 0, 0, 0], 32),
    (b"2001:db8::ff", [0x2001, 0xdb8, 0, 0, 0, 0, 0, 0xff], 128),
    (
        b"2001:db8::ff/128",
        [0x2001, 0xdb8, 0, 0, 0, 0, 0, 0xff],
        128,
    ),
    (
        b"2001:db8::ff/127",
        [0x2001, 0xdb8, 0, 0, 0, 0, 0, 0xfe],
        127,
    ),
    (
        b"1:2:3:ffff:ffff::/65",
        [1, 2, 3, 0xffff, 0x8000, 0, 0, 0],
        65,
    ),
    (b"1:2:3:ffff:ffff::/64", [1, 2, 3, 0xffff, 0, 0, 0, 0], 64),
    (b"1:2:3:ffff:ffff::/63", [1, 2, 3, 0xfffe, 0, 0, 0, 0], 63),
    (b"FFFF::/0", [0, 0, 0, 0, 0, 0, 0, 0], 0),
    (b"ffff::/1", [0x8000, 0, 0, 0, 0, 0, 0, 0], 1),
];

#[test]
fn prefixes_are_read(rt: HostRuntime) {
    for &(text, address, bits) in PREFIXES {
        let told = parse_prefix(text).map(|prefix| (prefix.addr(), prefix.bits()));
        holds!(rt; told == Some((groups(address), bits)), text);
    }
}

/// A prefix, an address, and whether the one covers the other
const COVERS: &[(&[u8], &[u8], bool)] = &[
    (b"1:2:3:4:5:6:7:8/64", b"1:2:3:4:ffff::", true),
    (b"1:2:3:4:5:6:7:8/64", b"1:2:3:5:5:6:7:8", false),
    (b"1:2:3:4:7000:6:7:8/65", b"1:2:3:4:7fff::", true),
    (b"1:2:3:4:7000:6:7:8/65", b"1:2:3:4:8000::", false),
    (b"1:2:3:4:5:6:7:8/127", b"1:2:3:4:5:6:7:9", true),
    (b"1:2:3:4:5:6:7:8/127", b"1:2:3:4:5:6:7:a", false),
    (b"1:2:3:4:5:6:7:8", b"1:2:3:4:5:6:7:8", true),
    (b"1:2:3:4:5:6:7:8", b"1:2:3:4:5:6:7:9", false),
    (b"1:2:3:4:5:6:7:8/0", b"ffff::", true),
    (b"::/0", b"0.0.0.0", false),
    (b"0.0.0.0/0", b"::", false),
];

fn covers(prefix: &[u8], addr: &[u8]) -> Option<bool> {
    Some(parse_prefix(prefix)?.contains(parse_addr(addr)?))
}

#[test]
fn a_prefix_covers_by_first_bits(rt: HostRuntime) {
    for &(prefix, addr, wanted) in COVERS {
        same!(rt; covers(prefix, addr), Some(wanted), (prefix, addr));
    }
}

#[test]
fn families_stay_apart(rt: HostRuntime) {
    let four = Addr::V4([0, 0, 0, 0]);
    let six = groups([0, 0, 0, 0, 0, 0, 0, 0]);
    holds!(rt; !Prefix::host(six).contains(four) && !Prefix::host(four).contains(six));
    same!(rt; (four.width(), six.width()), (32, 128));
    holds!(rt; !four.is_ipv6() && six.is_ipv6());
    holds!(rt; four.same_family(four) && six.same_family(six));
    holds!(rt; !four.same_family(six) && !six.same_family(four));
    holds!(rt; four < six && four != six);
}
