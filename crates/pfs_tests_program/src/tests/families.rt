//! IPv4 and IPv6 in one trace: each record is of one family.

use super::reports::trace_of;
use super::runs::{tell, tell_joined};
use pfs_cli::ReplayFault;
use pfs_tests_cases::HEADER;
use std::test::Fail;

const RULES: &[u8] = b"set timeout { adaptive.start 0, adaptive.end 0 }\n\
    block in quick inet6 from <bad>\n\
    pass in inet6 proto tcp to any port 80 keep state (max-src-conn 1, overload <bad>)\n\
    pass in inet proto udp all\n";

/// Two handshakes of a source of IPv6, a packet of IPv4, the source once more in another text, and another source.
const RECORDS: &[u8] = b"0,in,em0,tcp,2001:db8::1,1000,2001:db8::53,80,S\n\
    0,out,em0,tcp,2001:db8::53,80,2001:db8::1,1000,SA\n\
    0,in,em0,tcp,2001:db8::1,1000,2001:db8::53,80,A\n\
    0,in,em0,tcp,2001:db8::1,1001,2001:db8::53,80,S\n\
    0,out,em0,tcp,2001:db8::53,80,2001:db8::1,1001,SA\n\
    0,in,em0,tcp,2001:db8::1,1001,2001:db8::53,80,A\n\
    0,in,em0,udp,198.51.100.1,1,192.0.2.1,53,\n\
    0,in,em0,tcp,2001:DB8:0:0:0:0:0:1,1002,2001:db8::53,80,S\n\
    0,in,em0,udp,2001:db8::2,1,2001:db8::53,53,\n";

const LINES: &[u8] = b"1 new @1\n2 state @1\n3 state @1\n4 new @1\n5 state @1\n\
    6 kill:max-src-conn @1 overload=added killed=1\n7 new @2\n8 block @0\n9 pass -\n";

const END: &[u8] = b"end rows=9 states=2 nodes=1 entries=1\n";

/// Records that are refused, and in which column: the families are compared before what follows them is read, also
/// where the record would be skipped.
const REFUSED: &[(&[u8], u8)] = &[
    (b"0,in,em0,udp,198.51.100.1,1,2001:db8::53,53,\n", 7),
    (b"0,in,em0,udp,2001:db8::1,1,192.0.2.1,53,\n", 7),
    (b"0,in,em0,icmp6,198.51.100.1,,2001:db8::53,,\n", 7),
    (b"0,in,em0,icmp6,2001:db8::1,,192.0.2.1,,\n", 7),
    (b"0,in,em0,udp,198.51.100.1,1,2001:db8::53,x,S\n", 7),
    (b"0,in,em0,udp,198.51.100.1,x,2001:db8::53,53,\n", 6),
    (b"0,in,em0,udp,2001:db8::1::2,1,192.0.2.1,53,\n", 5),
    (b"0,in,em0,udp,2001:db8::1,1,fe80::1%em0,53,\n", 7),
    (b"0,in,em0,udp,2001:db8::1,1,::ffff:192.0.2.1,53,\n", 7),
];

#[test]
fn sources_of_both_families_are_held_to_their_rules(rt: HostRuntime) -> Result<(), Fail> {
    let trace = trace_of(rt.alloc(), RECORDS)?;
    let mut report = Vec::from_slice(rt.alloc(), LINES)?;
    report.extend_from_slice(END)?;
    tell(&rt, RULES, &trace, Ok(()), &report);
    let mut joined = Vec::from_slice(rt.alloc(), RULES)?;
    joined.extend_from_slice(b"%%\n")?;
    joined.extend_from_slice(&trace)?;
    tell_joined(&rt, &joined, Ok(()), &report);
    Ok(())
}

#[test]
fn a_record_is_of_one_family(rt: HostRuntime) -> Result<(), Fail> {
    for &(record, column) in REFUSED {
        let mut trace = Vec::from_slice(rt.alloc(), HEADER.as_bytes())?;
        trace.extend_from_slice(record)?;
        tell(&rt, RULES, &trace, Err(ReplayFault::Field(1, column)), b"");
    }
    for record in [
        b"0,in,em0,udp,198.51.100.1,1,2001:db8::53,53,\n".as_slice(),
        b"0,in,em0,udp,2001:db8::1,1,192.0.2.1,53,\n".as_slice(),
    ] {
        let mut trace = trace_of(rt.alloc(), RECORDS)?;
        trace.extend_from_slice(record)?;
        tell(&rt, RULES, &trace, Err(ReplayFault::Field(10, 7)), LINES);
    }
    Ok(())
}
