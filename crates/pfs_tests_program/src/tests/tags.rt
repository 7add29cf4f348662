//! Replays with tags, and with rules that ask for the interface by which a packet came in.

use super::profiles::{ProfileRow, tell_each};
use std::test::Fail;

/// A tag goes along to the second interface, and stays, whichever rule decides.
const TAGS: &[ProfileRow] = &[
    // a tag goes to the second interface
    ProfileRow {
        rules: b"set timeout { adaptive.start 0, adaptive.end 0 }\n\
            set profile openbsd-7.4\n\
            set route { 0.0.0.0/0 em0, 192.0.2.0/24 em1 }\n\
            match in on em0 proto tcp tag WEB\n\
            block out\n\
            pass in\n\
            pass out tagged WEB\n",
        records: b"0,in,em0,tcp,198.51.100.1,1,192.0.2.1,80,S\n\
            0,in,em0,udp,198.51.100.1,1,192.0.2.1,53,\n\
            0,out,em0,tcp,192.0.2.1,80,198.51.100.1,1,SA\n",
        report: b"1 new @2 > new @3\n\
            2 new @2 > block @1\n\
            3 state @3 > state @2\n\
            end rows=3 states=3 nodes=0 entries=0\n",
    },
    // a tag stays, whichever rule decides
    ProfileRow {
        rules: b"set timeout { adaptive.start 0, adaptive.end 0 }\n\
            set profile openbsd-7.4\n\
            set route { 0.0.0.0/0 em0, 192.0.2.0/24 em1 }\n\
            pass in tag A\n\
            pass in proto tcp\n\
            block out\n\
            pass out ! tagged A\n",
        records: b"0,in,em0,tcp,198.51.100.1,1,192.0.2.1,80,S\n",
        report: b"1 new @1 > block @2\n\
            end rows=1 states=1 nodes=0 entries=0\n",
    },
];

/// The interface by which a packet came in: that of its way, or none that is known.
const RECEIVED: &[ProfileRow] = &[
    // ! received-on holds where no interface is known
    ProfileRow {
        rules: b"set timeout { adaptive.start 0, adaptive.end 0 }\n\
            set profile openbsd-7.4\n\
            pass out ! received-on em0\n\
            block out received-on em1\n",
        records: b"0,out,em1,udp,192.0.2.99,1,192.0.2.1,53,\n",
        report: b"1 new @0\n\
            end rows=1 states=1 nodes=0 entries=0\n",
    },
    // received-on
    ProfileRow {
        rules: b"set timeout { adaptive.start 0, adaptive.end 0 }\n\
            set profile openbsd-7.4\n\
            set route { 0.0.0.0/0 em0, 192.0.2.0/24 em1 }\n\
            pass in\n\
            block out\n\
            pass out received-on em0\n\
            block out proto udp ! received-on em1\n",
        records: b"0,in,em0,tcp,198.51.100.1,1,192.0.2.1,80,S\n\
            0,in,em0,udp,198.51.100.1,1,192.0.2.1,53,\n\
            0,out,em1,tcp,192.0.2.99,1,192.0.2.1,80,S\n",
        report: b"1 new @0 > new @2\n\
            2 new @0 > block @3\n\
            3 new @0 > block @1\n\
            end rows=3 states=4 nodes=0 entries=0\n",
    },
];

#[test]
fn tags(rt: HostRuntime) -> Result<(), Fail> {
    tell_each(&rt, TAGS)
}

#[test]
fn received_on(rt: HostRuntime) -> Result<(), Fail> {
    tell_each(&rt, RECEIVED)
}
