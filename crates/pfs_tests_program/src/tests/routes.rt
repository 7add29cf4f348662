//! Replays with `set route`: a packet is asked at both interfaces of its way.

use super::profiles::{ProfileRow, tell_each};
use std::test::Fail;

/// A packet that comes in and leaves.
const WAYS: &[ProfileRow] = &[
    // a connection, seen outside
    ProfileRow {
        rules: b"set timeout { adaptive.start 0, adaptive.end 0 }\n\
            set profile openbsd-7.4\n\
            set route { 0.0.0.0/0 em0, 192.0.2.0/24 em1 }\n\
            block in proto udp\n\
            pass in on em0 proto tcp to any port 80\n\
            pass out on em1 keep state (max 2)\n",
        records: b"0,in,em0,tcp,198.51.100.1,1,192.0.2.1,80,S\n\
            0,out,em0,tcp,192.0.2.1,80,198.51.100.1,1,SA\n\
            0,in,em0,tcp,198.51.100.1,1,192.0.2.1,80,A\n\
            0,held,,,,,,,\n",
        report: b"1 new @1 > new @2\n\
            2 state @2 > state @1\n\
            3 state @1 > state @2\n\
            4 held - states=2 nodes=0 entries=0\n\
            end rows=4 states=2 nodes=0 entries=0\n",
    },
    // a connection, seen inside
    ProfileRow {
        rules: b"set timeout { adaptive.start 0, adaptive.end 0 }\n\
            set profile openbsd-7.4\n\
            set route { 0.0.0.0/0 em0, 192.0.2.0/24 em1 }\n\
            block in proto udp\n\
            pass in on em0 proto tcp to any port 80\n\
            pass out on em1 keep state (max 2)\n",
        records: b"0,out,em1,tcp,198.51.100.1,1,192.0.2.1,80,S\n\
            0,in,em1,tcp,192.0.2.1,80,198.51.100.1,1,SA\n\
            0,out,em1,tcp,198.51.100.1,1,192.0.2.1,80,A\n",
        report: b"1 new @1 > new @2\n\
            2 state @2 > state @1\n\
            3 state @1 > state @2\n\
            end rows=3 states=2 nodes=0 entries=0\n",
    },
    // what the second interface refuses leaves the first one's state
    ProfileRow {
        rules: b"set timeout { adaptive.start 0, adaptive.end 0 }\n\
            set profile openbsd-7.4\n\
            set route { 0.0.0.0/0 em0, 192.0.2.0/24 em1 }\n\
            block in proto udp\n\
            pass in on em0 proto tcp to any port 80\n\
            pass out on em1 keep state (max 2)\n",
        records: b"0,in,em0,tcp,198.51.100.1,1,192.0.2.1,80,S\n\
            0,in,em0,tcp,198.51.100.1,2,192.0.2.1,80,S\n\
            0,in,em0,tcp,198.51.100.1,3,192.0.2.1,80,S\n\
            0,in,em0,tcp,198.51.100.1,3,192.0.2.1,80,S\n\
            0,in,em0,udp,198.51.100.1,1,192.0.2.1,53,\n",
        report: b"1 new @1 > new @2\n\
            2 new @1 > new @2\n\
            3 new @1 > drop:max @2\n\
            4 state @1 > drop:max @2\n\
            5 block @0\n\
            end rows=5 states=5 nodes=0 entries=0\n",
    },
    // to the firewall itself
    ProfileRow {
        rules: b"set timeout { adaptive.start 0, adaptive.end 0 }\n\
            set profile openbsd-7.4\n\
            set route { 0.0.0.0/0 em0, 192.0.2.0/24 em1, 192.0.2.1 lo0 }\n\
            pass\n",
        records: b"0,in,em0,tcp,198.51.100.1,1,192.0.2.1,80,S\n\
            0,out,em0,tcp,192.0.2.1,80,198.51.100.1,1,SA\n\
            0,in,em0,icmp,198.51.100.1,,192.0.2.1,,\n",
        report: b"1 new @0\n\
            2 state @0\n\
            3 skip -\n\
            end rows=3 states=1 nodes=0 entries=0\n",
    },
    // synproxy asks the second interface for the SYN of its own
    ProfileRow {
        rules: b"set timeout { adaptive.start 0, adaptive.end 0 }\n\
            set profile openbsd-7.4\n\
            set route { 0.0.0.0/0 em0, 192.0.2.0/24 em1 }\n\
            pass in on em0 proto tcp to any port 80 synproxy state\n\
            pass out on em1\n",
        records: b"0,in,em0,tcp,198.51.100.1,1,192.0.2.1,80,S\n\
            0,held,,,,,,,\n\
            0,in,em0,tcp,198.51.100.1,1,192.0.2.1,80,A\n\
            0,in,em1,tcp,192.0.2.1,80,198.51.100.1,1,SA\n\
            0,in,em0,tcp,198.51.100.1,1,192.0.2.1,80,A\n",
        report: b"1 proxy @0\n\
            2 held - states=1 nodes=0 entries=0\n\
            3 proxy @0 > new @1\n\
            4 state @1 > proxy @0\n\
            5 state @0 > state @1\n\
            end rows=5 states=2 nodes=0 entries=0\n",
    },
];

#[test]
fn both_interfaces(rt: HostRuntime) -> Result<(), Fail> {
    tell_each(&rt, WAYS)
}
