//! Replays with `nat-to` and `rdr-to`: states with two keys.

use super::profiles::{ProfileRow, tell_each};
use std::test::Fail;

/// The destination is translated: by `match` at once, by `pass` when it has decided.
const DESTINATIONS: &[ProfileRow] = &[
    // rdr-to by match: rules behind it see what it made
    ProfileRow {
        rules: b"set timeout { adaptive.start 0, adaptive.end 0 }\n\
            set profile openbsd-7.4\n\
            match in on em0 proto tcp to 192.0.2.1 port 80 rdr-to 10.0.0.5 port 8080\n\
            block in\n\
            pass in on em0 proto tcp to 10.0.0.5 port 8080\n\
            pass out\n",
        records: b"0,in,em0,tcp,198.51.100.1,1,192.0.2.1,80,S\n\
            0,out,em0,tcp,192.0.2.1,80,198.51.100.1,1,SA\n\
            0,in,em0,tcp,198.51.100.1,1,192.0.2.1,80,A\n",
        report: b"1 new @2\n\
            2 state @2\n\
            3 state @2\n\
            end rows=3 states=1 nodes=0 entries=0\n",
    },
    // rdr-to by pass: no rule sees what it makes
    ProfileRow {
        rules: b"set timeout { adaptive.start 0, adaptive.end 0 }\n\
            set profile openbsd-7.4\n\
            pass in proto tcp to 192.0.2.1 port 80 rdr-to 10.0.0.5\n\
            block in to 10.0.0.5\n",
        records: b"0,in,em0,tcp,198.51.100.1,1,192.0.2.1,80,S\n\
            0,out,em0,tcp,192.0.2.1,80,198.51.100.1,1,SA\n\
            0,in,em0,tcp,198.51.100.1,1,192.0.2.1,80,A\n",
        report: b"1 new @0\n\
            2 state @0\n\
            3 state @0\n\
            end rows=3 states=1 nodes=0 entries=0\n",
    },
    // rdr-to on its way through
    ProfileRow {
        rules: b"set timeout { adaptive.start 0, adaptive.end 0 }\n\
            set profile openbsd-7.4\n\
            set route { 0.0.0.0/0 em0, 10.0.0.0/8 em1, 192.0.2.1 lo0 }\n\
            match in on em0 proto tcp to 192.0.2.1 port 80 rdr-to 10.0.0.5 port 8080\n\
            block in\n\
            pass in on em0 proto tcp to 10.0.0.5 port 8080\n\
            pass out\n",
        records: b"0,in,em0,tcp,198.51.100.1,1,192.0.2.1,80,S\n\
            0,out,em0,tcp,192.0.2.1,80,198.51.100.1,1,SA\n\
            0,in,em0,tcp,198.51.100.1,1,192.0.2.1,80,A\n",
        report: b"1 new @2 > new @3\n\
            2 state @3 > state @2\n\
            3 state @2 > state @3\n\
            end rows=3 states=2 nodes=0 entries=0\n",
    },
    // two public addresses of one server, one port of a client
    ProfileRow {
        rules: b"set timeout { adaptive.start 0, adaptive.end 0 }\n\
            set profile openbsd-7.4\n\
            pass in proto tcp to 192.0.2.0/24 port 80 rdr-to 10.0.0.5\n",
        records: b"0,in,em0,tcp,198.51.100.1,1,192.0.2.1,80,S\n\
            0,in,em0,tcp,198.51.100.1,1,192.0.2.2,80,S\n\
            0,in,em0,tcp,198.51.100.1,2,192.0.2.2,80,S\n",
        report: b"1 new @0\n\
            2 drop:state-insert @0\n\
            3 new @0\n\
            end rows=3 states=2 nodes=0 entries=0\n",
    },
];

/// The source is translated: to a port that is free.
const SOURCES: &[ProfileRow] = &[
    // nat-to: ports, until none is left for a remote end
    ProfileRow {
        rules: b"set timeout { adaptive.start 0, adaptive.end 0 }\n\
            set profile openbsd-7.4\n\
            set route { 0.0.0.0/0 em0, 10.0.0.0/8 em1, 192.0.2.1 lo0 }\n\
            pass in on em1\n\
            match out on em0 from 10.0.0.0/8 nat-to 192.0.2.1 port 50001:50002\n\
            pass out on em0 from 192.0.2.1\n\
            pass out on em1\n",
        records: b"0,in,em1,udp,10.0.0.9,1000,203.0.113.5,53,\n\
            0,in,em1,udp,10.0.0.8,1000,203.0.113.5,53,\n\
            0,in,em1,udp,10.0.0.7,1000,203.0.113.5,53,\n\
            0,in,em1,udp,10.0.0.7,1000,203.0.113.6,53,\n\
            0,in,em0,udp,203.0.113.5,53,192.0.2.1,50002,\n\
            0,in,em0,udp,203.0.113.5,53,192.0.2.1,50003,\n",
        report: b"1 new @0 > new @2\n\
            2 new @0 > new @2\n\
            3 new @0 > drop:translate @1\n\
            4 new @0 > new @2\n\
            5 state @2 > state @0\n\
            6 pass -\n\
            end rows=6 states=7 nodes=0 entries=0\n",
    },
    // nat-to: a port is free again when its state is gone
    ProfileRow {
        rules: b"set timeout { adaptive.start 0, adaptive.end 0 }\n\
            set profile openbsd-7.4\n\
            set route { 0.0.0.0/0 em0, 10.0.0.0/8 em1, 192.0.2.1 lo0 }\n\
            set timeout { interval 1, udp.first 5, udp.single 5 }\n\
            pass in on em1\n\
            match out on em0 from 10.0.0.0/8 nat-to 192.0.2.1 port 50001:50002\n\
            pass out on em0 from 192.0.2.1\n\
            pass out on em1\n",
        records: b"0,in,em1,udp,10.0.0.9,1000,203.0.113.5,53,\n\
            0,in,em1,udp,10.0.0.8,1000,203.0.113.5,53,\n\
            7,in,em1,udp,10.0.0.7,1000,203.0.113.5,53,\n",
        report: b"1 new @0 > new @2\n\
            2 new @0 > new @2\n\
            3 new @0 > new @2\n\
            end rows=3 states=2 nodes=0 entries=0\n",
    },
    // nat-to static-port: the same port twice
    ProfileRow {
        rules: b"set timeout { adaptive.start 0, adaptive.end 0 }\n\
            set profile openbsd-7.4\n\
            set route { 0.0.0.0/0 em0, 10.0.0.0/8 em1, 192.0.2.1 lo0 }\n\
            pass in on em1\n\
            pass out on em0 nat-to 192.0.2.1 static-port\n",
        records: b"0,in,em1,udp,10.0.0.9,1000,203.0.113.5,53,\n\
            0,in,em1,udp,10.0.0.8,1000,203.0.113.5,53,\n\
            0,in,em1,udp,10.0.0.8,1001,203.0.113.5,53,\n",
        report: b"1 new @0 > new @1\n\
            2 new @0 > drop:state-insert @1\n\
            3 new @0 > new @1\n\
            end rows=3 states=5 nodes=0 entries=0\n",
    },
    // nat-to: a packet that a capture shows behind it
    ProfileRow {
        rules: b"set timeout { adaptive.start 0, adaptive.end 0 }\n\
            set profile openbsd-7.4\n\
            pass out nat-to 192.0.2.1\n",
        records: b"0,out,em0,udp,192.0.2.1,61000,203.0.113.5,53,\n\
            0,in,em0,udp,203.0.113.5,53,192.0.2.1,61000,\n",
        report: b"1 new @0\n\
            2 state @0\n\
            end rows=2 states=1 nodes=0 entries=0\n",
    },
    // nat-to: a limit on a source sees it before the translation
    ProfileRow {
        rules: b"set timeout { adaptive.start 0, adaptive.end 0 }\n\
            set profile openbsd-7.4\n\
            set route { 0.0.0.0/0 em0, 10.0.0.0/8 em1, 192.0.2.1 lo0 }\n\
            pass in on em1 no state\n\
            pass out on em0 nat-to 192.0.2.1 keep state (max-src-states 1)\n",
        records: b"0,in,em1,udp,10.0.0.9,1000,203.0.113.5,53,\n\
            0,in,em1,udp,10.0.0.9,1001,203.0.113.5,53,\n\
            0,in,em1,udp,10.0.0.8,1000,203.0.113.5,53,\n",
        report: b"1 pass @0 > new @1\n\
            2 pass @0 > drop:max-src-states @1\n\
            3 pass @0 > new @1\n\
            end rows=3 states=2 nodes=2 entries=0\n",
    },
    // a translation gives its rule the family
    ProfileRow {
        rules: b"set timeout { adaptive.start 0, adaptive.end 0 }\n\
            set profile openbsd-7.4\n\
            pass out nat-to 192.0.2.1\n",
        records: b"0,out,em0,udp,2001:db8::1,1,2001:db8::2,53,\n",
        report: b"1 pass -\n\
            end rows=1 states=0 nodes=0 entries=0\n",
    },
];

#[test]
fn destinations(rt: HostRuntime) -> Result<(), Fail> {
    tell_each(&rt, DESTINATIONS)
}

#[test]
fn sources(rt: HostRuntime) -> Result<(), Fail> {
    tell_each(&rt, SOURCES)
}
