//! Which rule decides, and the records of each protocol.

use super::traces::{Texts, tell_texts};
use pfs_tests_cases::{ANCHORED, UNSCALED};
use std::test::Fail;

const CASES: &[Texts] = &[
    // the last rule on the path decides, and quick anchors end it
    Texts {
        rules: ANCHORED,
        trace: "0,in,em0,udp,198.51.100.1,1,192.0.2.1,53,\n0,in,em0,tcp,198.51.100.1,1,192.0.2.1,22,S\n\
            0,in,em0,tcp,198.51.100.1,1,192.0.2.1,80,S\n0,in,em0,udp,198.51.100.1,1,192.0.2.1,99,\n\
            0,out,em0,udp,198.51.100.1,1,192.0.2.1,53,\n",
        report: "1 pass @2\n2 pass @7\n3 pass @5\n4 pass @8\n5 block @0\nend rows=5 states=0 nodes=0 entries=0\n",
    },
    // the narrowest entry of a table answers
    Texts {
        rules: "table <t> { 10.0.0.0/8, !10.1.0.0/16, 10.1.2.3 }\nblock from <t>",
        trace: "0,in,em0,udp,10.2.0.1,1,192.0.2.1,53,\n0,in,em0,udp,10.1.0.1,1,192.0.2.1,53,\n\
            0,in,em0,udp,10.1.2.3,1,192.0.2.1,53,\n0,in,em0,udp,11.0.0.1,1,192.0.2.1,53,\n",
        report: "1 block @0\n2 pass -\n3 block @0\n4 pass -\nend rows=4 states=0 nodes=0 entries=3\n",
    },
    // an answer belongs to its state on any interface, and the same ends the other way do not
    Texts {
        rules: "block all\npass in on em0 proto tcp from any to any port 80",
        trace: "0,in,em0,tcp,198.51.100.1,1000,192.0.2.1,80,S\n\
            0,out,em1,6,192.0.2.1,80,198.51.100.1,1000,SA\n\
            0,out,em0,tcp,198.51.100.1,1000,192.0.2.1,80,A\n",
        report: "1 new @1\n2 state @1\n3 block @0\nend rows=3 states=1 nodes=0 entries=0\n",
    },
    // a protocol without ports makes a state, and ICMP is skipped
    Texts {
        rules: "pass all",
        trace: "0,in,em0,esp,198.51.100.1,,192.0.2.1,,\n0,out,em0,50,192.0.2.1,,198.51.100.1,,\n\
            0,in,em0,icmp,198.51.100.1,,192.0.2.1,,\n0,in,em0,58,198.51.100.1,,192.0.2.1,,\n\
            0,in,em0,gre,198.51.100.1,,192.0.2.1,,\n",
        report: "1 new @0\n2 state @0\n3 skip -\n4 skip -\n5 new @0\nend rows=5 states=2 nodes=0 entries=0\n",
    },
];

#[test]
fn rules_decide_and_records_are_read(rt: HostRuntime) -> Result<(), Fail> {
    for texts in CASES {
        let rules = format!(in rt.alloc(); "{UNSCALED}{}", texts.rules)?;
        tell_texts(
            &rt,
            &Texts {
                rules: &rules,
                trace: texts.trace,
                report: texts.report,
            },
        )?;
    }
    Ok(())
}
