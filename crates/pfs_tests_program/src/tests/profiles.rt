//! Replays under the profile of OpenBSD 7.4, beside what comes without it.

use super::reports::trace_of;
use super::runs::tell_over_stores;
use std::process::Abort;
use std::test::Fail;

/// Rules, records after the header, and the report.
pub(crate) struct ProfileRow {
    pub(crate) rules: &'static [u8],
    pub(crate) records: &'static [u8],
    pub(crate) report: &'static [u8],
}

pub(crate) fn tell_each(rt: &(impl Abort + AllocGlobal), rows: &[ProfileRow]) -> Result<(), Fail> {
    for row in rows {
        let trace = trace_of(rt.alloc(), row.records)?;
        tell_over_stores(rt, row.rules, &trace, Ok(()), row.report)?;
    }
    Ok(())
}

/// Connections are tracked fully, but those of rules with `sloppy`.
const TCP: &[ProfileRow] = &[
    // a FIN of who made it
    ProfileRow {
        rules: b"set timeout { adaptive.start 0, adaptive.end 0 }\n\
            set profile openbsd-7.4\n\
            set timeout interval 1\n\
            pass in proto tcp to any port 80 keep state\n\
            pass out all\n",
        records: b"0,in,em0,tcp,198.51.100.1,1,192.0.2.1,80,S\n\
            0,out,em0,tcp,192.0.2.1,80,198.51.100.1,1,SA\n\
            0,in,em0,tcp,198.51.100.1,1,192.0.2.1,80,A\n\
            1,in,em0,tcp,198.51.100.1,1,192.0.2.1,80,FA\n\
            1,in,em0,tcp,198.51.100.1,1,192.0.2.1,80,A\n\
            500,held,,,,,,,\n\
            902,held,,,,,,,\n",
        report: b"1 new @0\n\
            2 state @0\n\
            3 state @0\n\
            4 state @0\n\
            5 state @0\n\
            6 held - states=1 nodes=0 entries=0\n\
            7 held - states=0 nodes=0 entries=0\n\
            end rows=7 states=0 nodes=0 entries=0\n",
    },
    // the same, sloppy
    ProfileRow {
        rules: b"set timeout { adaptive.start 0, adaptive.end 0 }\n\
            set profile openbsd-7.4\n\
            set timeout interval 1\n\
            pass in proto tcp to any port 80 keep state (sloppy)\n\
            pass out all\n",
        records: b"0,in,em0,tcp,198.51.100.1,1,192.0.2.1,80,S\n\
            0,out,em0,tcp,192.0.2.1,80,198.51.100.1,1,SA\n\
            0,in,em0,tcp,198.51.100.1,1,192.0.2.1,80,A\n\
            1,in,em0,tcp,198.51.100.1,1,192.0.2.1,80,FA\n\
            45,held,,,,,,,\n\
            47,held,,,,,,,\n",
        report: b"1 new @0\n\
            2 state @0\n\
            3 state @0\n\
            4 state @0\n\
            5 held - states=1 nodes=0 entries=0\n\
            6 held - states=0 nodes=0 entries=0\n\
            end rows=6 states=0 nodes=0 entries=0\n",
    },
    // SYN and ACK, and no answer
    ProfileRow {
        rules: b"set timeout { adaptive.start 0, adaptive.end 0 }\n\
            set profile openbsd-7.4\n\
            set timeout interval 1\n\
            pass in proto tcp to any port 80 keep state\n\
            pass out all\n",
        records: b"0,in,em0,tcp,198.51.100.1,1,192.0.2.1,80,S\n\
            1,in,em0,tcp,198.51.100.1,1,192.0.2.1,80,A\n\
            30,held,,,,,,,\n\
            32,held,,,,,,,\n",
        report: b"1 new @0\n\
            2 state @0\n\
            3 held - states=1 nodes=0 entries=0\n\
            4 held - states=0 nodes=0 entries=0\n\
            end rows=4 states=0 nodes=0 entries=0\n",
    },
    // SYN and ACK is no connection
    ProfileRow {
        rules: b"set timeout { adaptive.start 0, adaptive.end 0 }\n\
            set profile openbsd-7.4\n\
            table <bad>\n\
            pass in proto tcp to any port 80 keep state (max-src-conn 1, overload <bad> flush)\n",
        records: b"0,in,em0,tcp,198.51.100.1,1,192.0.2.1,80,S\n\
            0,in,em0,tcp,198.51.100.1,1,192.0.2.1,80,A\n\
            0,in,em0,tcp,198.51.100.1,2,192.0.2.1,80,S\n\
            0,in,em0,tcp,198.51.100.1,2,192.0.2.1,80,A\n\
            0,out,em0,tcp,192.0.2.1,80,198.51.100.1,2,SA\n\
            0,in,em0,tcp,198.51.100.1,2,192.0.2.1,80,A\n\
            0,out,em0,tcp,192.0.2.1,80,198.51.100.1,1,SA\n\
            0,in,em0,tcp,198.51.100.1,1,192.0.2.1,80,A\n",
        report: b"1 new @0\n\
            2 state @0\n\
            3 new @0\n\
            4 state @0\n\
            5 state @0\n\
            6 state @0\n\
            7 state @0\n\
            8 kill:max-src-conn @0 overload=added killed=2\n\
            end rows=8 states=0 nodes=1 entries=1\n",
    },
    // picked up in the middle
    ProfileRow {
        rules: b"set timeout { adaptive.start 0, adaptive.end 0 }\n\
            set profile openbsd-7.4\n\
            set timeout interval 1\n\
            pass in proto tcp to any port 80 flags any keep state\n",
        records: b"0,in,em0,tcp,198.51.100.1,1,192.0.2.1,80,A\n\
            0,out,em0,tcp,192.0.2.1,80,198.51.100.1,1,A\n\
            0,in,em0,tcp,198.51.100.1,1,192.0.2.1,80,A\n\
            40,held,,,,,,,\n",
        report: b"1 new @0\n\
            2 state @0\n\
            3 state @0\n\
            4 held - states=1 nodes=0 entries=0\n\
            end rows=4 states=1 nodes=0 entries=0\n",
    },
    // RST, then a SYN of the same ports
    ProfileRow {
        rules: b"set timeout { adaptive.start 0, adaptive.end 0 }\n\
            set profile openbsd-7.4\n\
            pass in proto tcp to any port 80 keep state\n\
            pass out all\n",
        records: b"0,in,em0,tcp,198.51.100.1,1,192.0.2.1,80,S\n\
            0,out,em0,tcp,192.0.2.1,80,198.51.100.1,1,SA\n\
            0,in,em0,tcp,198.51.100.1,1,192.0.2.1,80,A\n\
            1,in,em0,tcp,198.51.100.1,1,192.0.2.1,80,R\n\
            2,in,em0,tcp,198.51.100.1,1,192.0.2.1,80,S\n\
            2,held,,,,,,,\n",
        report: b"1 new @0\n\
            2 state @0\n\
            3 state @0\n\
            4 state @0\n\
            5 new @0\n\
            6 held - states=1 nodes=0 entries=0\n\
            end rows=6 states=1 nodes=0 entries=0\n",
    },
    // closed by both, then a SYN that is blocked
    ProfileRow {
        rules: b"set timeout { adaptive.start 0, adaptive.end 0 }\n\
            set profile openbsd-7.4\n\
            table <shut>\n\
            pass in proto tcp to any port 80\n\
            block in quick from <shut>\n",
        records: b"0,in,em0,tcp,198.51.100.1,1,192.0.2.1,80,S\n\
            0,out,em0,tcp,192.0.2.1,80,198.51.100.1,1,SA\n\
            0,in,em0,tcp,198.51.100.1,1,192.0.2.1,80,A\n\
            1,in,em0,tcp,198.51.100.1,1,192.0.2.1,80,FA\n\
            1,out,em0,tcp,192.0.2.1,80,198.51.100.1,1,FA\n\
            1,in,em0,tcp,198.51.100.1,1,192.0.2.1,80,A\n\
            2,add,shut,,198.51.100.1,,,,\n\
            2,in,em0,tcp,198.51.100.1,1,192.0.2.1,80,A\n\
            2,in,em0,tcp,198.51.100.1,1,192.0.2.1,80,S\n\
            2,held,,,,,,,\n",
        report: b"1 new @0\n\
            2 state @0\n\
            3 state @0\n\
            4 state @0\n\
            5 state @0\n\
            6 state @0\n\
            7 add - added\n\
            8 state @0\n\
            9 block @1\n\
            10 held - states=0 nodes=0 entries=1\n\
            end rows=10 states=0 nodes=0 entries=1\n",
    },
];

#[test]
fn connections_are_tracked_fully(rt: HostRuntime) -> Result<(), Fail> {
    tell_each(&rt, TCP)
}

/// The source node comes before `max`.
const NODES: &[ProfileRow] = &[
    // a node that max leaves
    ProfileRow {
        rules: b"set timeout { adaptive.start 0, adaptive.end 0 }\n\
            set profile openbsd-7.4\n\
            set timeout src.track 100\n\
            pass in proto udp to any port 53 keep state (max 1, source-track rule)\n",
        records: b"0,in,em0,udp,198.51.100.1,1,192.0.2.1,53,\n\
            0,in,em0,udp,198.51.100.2,1,192.0.2.1,53,\n\
            0,held,,,,,,,\n\
            1,held,,,,,,,\n",
        report: b"1 new @0\n\
            2 drop:max @0\n\
            3 held - states=1 nodes=2 entries=0\n\
            4 held - states=1 nodes=1 entries=0\n\
            end rows=4 states=1 nodes=1 entries=0\n",
    },
    // without the profile: max leaves no node
    ProfileRow {
        rules: b"set timeout { adaptive.start 0, adaptive.end 0 }\n\
            set timeout src.track 100\n\
            pass in proto udp to any port 53 keep state (max 1, source-track rule)\n",
        records: b"0,in,em0,udp,198.51.100.1,1,192.0.2.1,53,\n\
            0,in,em0,udp,198.51.100.2,1,192.0.2.1,53,\n\
            0,held,,,,,,,\n",
        report: b"1 new @0\n\
            2 drop:max @0\n\
            3 held - states=1 nodes=1 entries=0\n\
            end rows=3 states=1 nodes=1 entries=0\n",
    },
    // nodes of refused sources fill src-nodes
    ProfileRow {
        rules: b"set timeout { adaptive.start 0, adaptive.end 0 }\n\
            set profile openbsd-7.4\n\
            set limit src-nodes 2\n\
            pass in proto udp to any port 53 keep state (max 1, source-track rule)\n\
            pass in proto udp to any port 54 keep state (source-track rule, max-src-nodes 9)\n",
        records: b"0,in,em0,udp,198.51.100.1,1,192.0.2.1,53,\n\
            0,in,em0,udp,198.51.100.2,1,192.0.2.1,53,\n\
            0,in,em0,udp,198.51.100.3,1,192.0.2.1,54,\n\
            2,in,em0,udp,198.51.100.3,1,192.0.2.1,54,\n",
        report: b"1 new @0\n\
            2 drop:max @0\n\
            3 drop:src-nodes @1\n\
            4 new @1\n\
            end rows=4 states=2 nodes=2 entries=0\n",
    },
    // max-src-nodes is asked before max
    ProfileRow {
        rules: b"set timeout { adaptive.start 0, adaptive.end 0 }\n\
            set profile openbsd-7.4\n\
            pass in proto udp to any port 53 keep state (max 1, source-track rule, max-src-nodes 1)\n",
        records: b"0,in,em0,udp,198.51.100.1,1,192.0.2.1,53,\n\
            0,in,em0,udp,198.51.100.2,1,192.0.2.1,53,\n\
            0,in,em0,udp,198.51.100.1,2,192.0.2.1,53,\n",
        report: b"1 new @0\n\
            2 drop:max-src-nodes @0\n\
            3 drop:max @0\n\
            end rows=3 states=1 nodes=1 entries=0\n",
    },
];

#[test]
fn a_node_is_made_before_max_is_asked(rt: HostRuntime) -> Result<(), Fail> {
    tell_each(&rt, NODES)
}

/// A flush goes by the side of the key.
const FLUSHES: &[ProfileRow] = &[
    // flush by the side of the key
    ProfileRow {
        rules: b"set timeout { adaptive.start 0, adaptive.end 0 }\n\
            set profile openbsd-7.4\n\
            table <bad>\n\
            pass in proto tcp to any port 80 keep state (max-src-conn 1, overload <bad> flush global)\n\
            pass in proto udp\n\
            pass out all\n",
        records: b"0,in,em0,udp,198.51.100.1,1,192.0.2.1,53,\n\
            0,out,em1,udp,198.51.100.1,9,192.0.2.7,53,\n\
            0,out,em0,udp,192.0.2.7,99,198.51.100.1,53,\n\
            0,in,em0,tcp,198.51.100.1,1,192.0.2.1,80,S\n\
            0,out,em0,tcp,192.0.2.1,80,198.51.100.1,1,SA\n\
            0,in,em0,tcp,198.51.100.1,1,192.0.2.1,80,A\n\
            0,in,em0,tcp,198.51.100.1,2,192.0.2.1,80,S\n\
            0,out,em0,tcp,192.0.2.1,80,198.51.100.1,2,SA\n\
            0,in,em0,tcp,198.51.100.1,2,192.0.2.1,80,A\n\
            0,held,,,,,,,\n\
            0,out,em1,udp,198.51.100.1,9,192.0.2.7,53,\n\
            0,out,em0,udp,192.0.2.7,99,198.51.100.1,53,\n",
        report: b"1 new @1\n\
            2 new @2\n\
            3 new @2\n\
            4 new @0\n\
            5 state @0\n\
            6 state @0\n\
            7 new @0\n\
            8 state @0\n\
            9 kill:max-src-conn @0 overload=added killed=4\n\
            10 held - states=1 nodes=1 entries=1\n\
            11 state @2\n\
            12 new @2\n\
            end rows=12 states=2 nodes=1 entries=1\n",
    },
    // without the profile: flush by the source
    ProfileRow {
        rules: b"set timeout { adaptive.start 0, adaptive.end 0 }\n\
            table <bad>\n\
            pass in proto tcp to any port 80 keep state (max-src-conn 1, overload <bad> flush global)\n\
            pass in proto udp\n\
            pass out all\n",
        records: b"0,in,em0,udp,198.51.100.1,1,192.0.2.1,53,\n\
            0,out,em1,udp,198.51.100.1,9,192.0.2.7,53,\n\
            0,out,em0,udp,192.0.2.7,99,198.51.100.1,53,\n\
            0,in,em0,tcp,198.51.100.1,1,192.0.2.1,80,S\n\
            0,out,em0,tcp,192.0.2.1,80,198.51.100.1,1,SA\n\
            0,in,em0,tcp,198.51.100.1,1,192.0.2.1,80,A\n\
            0,in,em0,tcp,198.51.100.1,2,192.0.2.1,80,S\n\
            0,out,em0,tcp,192.0.2.1,80,198.51.100.1,2,SA\n\
            0,in,em0,tcp,198.51.100.1,2,192.0.2.1,80,A\n\
            0,held,,,,,,,\n\
            0,out,em1,udp,198.51.100.1,9,192.0.2.7,53,\n\
            0,out,em0,udp,192.0.2.7,99,198.51.100.1,53,\n",
        report: b"1 new @1\n\
            2 new @2\n\
            3 new @2\n\
            4 new @0\n\
            5 state @0\n\
            6 state @0\n\
            7 new @0\n\
            8 state @0\n\
            9 kill:max-src-conn @0 overload=added killed=4\n\
            10 held - states=1 nodes=1 entries=1\n\
            11 new @2\n\
            12 state @2\n\
            end rows=12 states=2 nodes=1 entries=1\n",
    },
    // flush of one rule
    ProfileRow {
        rules: b"set timeout { adaptive.start 0, adaptive.end 0 }\n\
            set profile openbsd-7.4\n\
            table <bad>\n\
            pass in proto tcp to any port 80 keep state (max-src-conn 1, overload <bad> flush)\n\
            pass in proto udp\n\
            pass out all\n",
        records: b"0,in,em0,udp,198.51.100.1,1,192.0.2.1,53,\n\
            0,out,em1,udp,198.51.100.1,9,192.0.2.7,53,\n\
            0,out,em0,udp,192.0.2.7,99,198.51.100.1,53,\n\
            0,in,em0,tcp,198.51.100.1,1,192.0.2.1,80,S\n\
            0,out,em0,tcp,192.0.2.1,80,198.51.100.1,1,SA\n\
            0,in,em0,tcp,198.51.100.1,1,192.0.2.1,80,A\n\
            0,in,em0,tcp,198.51.100.1,2,192.0.2.1,80,S\n\
            0,out,em0,tcp,192.0.2.1,80,198.51.100.1,2,SA\n\
            0,in,em0,tcp,198.51.100.1,2,192.0.2.1,80,A\n\
            0,held,,,,,,,\n",
        report: b"1 new @1\n\
            2 new @2\n\
            3 new @2\n\
            4 new @0\n\
            5 state @0\n\
            6 state @0\n\
            7 new @0\n\
            8 state @0\n\
            9 kill:max-src-conn @0 overload=added killed=2\n\
            10 held - states=3 nodes=1 entries=1\n\
            end rows=10 states=3 nodes=1 entries=1\n",
    },
];

#[test]
fn a_flush_goes_by_the_side_of_the_key(rt: HostRuntime) -> Result<(), Fail> {
    tell_each(&rt, FLUSHES)
}

/// A timeout of 0 of a rule is not given, and `max` scales its rule.
const TIMEOUTS: &[ProfileRow] = &[
    // a timeout of 0 is not given
    ProfileRow {
        rules: b"set timeout { adaptive.start 0, adaptive.end 0 }\n\
            set profile openbsd-7.4\n\
            set timeout { interval 1, udp.first 5 }\n\
            pass in proto udp keep state (udp.first 0)\n",
        records: b"0,in,em0,udp,198.51.100.1,1,192.0.2.1,53,\n\
            4,held,,,,,,,\n\
            6,held,,,,,,,\n",
        report: b"1 new @0\n\
            2 held - states=1 nodes=0 entries=0\n\
            3 held - states=0 nodes=0 entries=0\n\
            end rows=3 states=0 nodes=0 entries=0\n",
    },
    // the seconds of a rate in place of src.track
    ProfileRow {
        rules: b"set timeout { adaptive.start 0, adaptive.end 0 }\n\
            set profile openbsd-7.4\n\
            set timeout { interval 1, src.track 600, tcp.first 1 }\n\
            pass in proto tcp to any port 80 keep state (max-src-conn-rate 3/10)\n",
        records: b"0,in,em0,tcp,198.51.100.1,1,192.0.2.1,80,S\n\
            2,held,,,,,,,\n\
            13,held,,,,,,,\n",
        report: b"1 new @0\n\
            2 held - states=0 nodes=1 entries=0\n\
            3 held - states=0 nodes=0 entries=0\n\
            end rows=3 states=0 nodes=0 entries=0\n",
    },
    // max scales its rule
    ProfileRow {
        rules: b"set profile openbsd-7.4\n\
            set timeout { interval 1, udp.first 60 }\n\
            pass in proto udp to any port 53 keep state (max 10)\n",
        records: b"0,in,em0,udp,198.51.100.1,0,192.0.2.1,53,\n\
            0,in,em0,udp,198.51.100.1,1,192.0.2.1,53,\n\
            0,in,em0,udp,198.51.100.1,2,192.0.2.1,53,\n\
            0,in,em0,udp,198.51.100.1,3,192.0.2.1,53,\n\
            0,in,em0,udp,198.51.100.1,4,192.0.2.1,53,\n\
            0,in,em0,udp,198.51.100.1,5,192.0.2.1,53,\n\
            0,in,em0,udp,198.51.100.1,6,192.0.2.1,53,\n\
            0,in,em0,udp,198.51.100.1,7,192.0.2.1,53,\n\
            0,in,em0,udp,198.51.100.1,8,192.0.2.1,53,\n\
            29,held,,,,,,,\n\
            30,held,,,,,,,\n\
            31,held,,,,,,,\n",
        report: b"1 new @0\n\
            2 new @0\n\
            3 new @0\n\
            4 new @0\n\
            5 new @0\n\
            6 new @0\n\
            7 new @0\n\
            8 new @0\n\
            9 new @0\n\
            10 held - states=9 nodes=0 entries=0\n\
            11 held - states=0 nodes=0 entries=0\n\
            12 held - states=0 nodes=0 entries=0\n\
            end rows=12 states=0 nodes=0 entries=0\n",
    },
];

#[test]
fn timeouts_of_a_rule(rt: HostRuntime) -> Result<(), Fail> {
    tell_each(&rt, TIMEOUTS)
}
