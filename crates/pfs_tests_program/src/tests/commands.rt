//! Records of an administrator: where they are refused, and entries of IPv6.

use super::runs::{tell, tell_joined, tell_over_stores};
use super::traces::{Texts, tell_texts};
use pfs_cli::ReplayFault;
use pfs_tests_cases::{HEADER, UNSCALED};
use std::alloc::AllocGlobal;
use std::process::Abort;
use std::test::Fail;

/// A last record after ten others, under rules, and how the replay ends.
#[derive(Clone, Copy)]
struct CommandRow {
    rules: &'static str,
    record: &'static str,
    fault: ReplayFault,
}

const OVERLOAD: &str = "table <bad> { 203.0.113.9 }\n\
    pass in proto tcp to any port 80 keep state (max-src-conn 1, overload <bad>)\n";

const CONST: &str = "table <bad> const { 203.0.113.9 }\n\
    pass in proto tcp to any port 80 keep state (max-src-conn 1)\n";

fn refused(rules: &'static str, record: &'static str, fault: ReplayFault) -> CommandRow {
    CommandRow {
        rules,
        record,
        fault,
    }
}

/// The fault of a field in the eleventh row.
fn at(record: &'static str, column: u8) -> CommandRow {
    refused(OVERLOAD, record, ReplayFault::Field(11, column))
}

fn tables() -> [CommandRow; 4] {
    let fault = ReplayFault::Table(11);
    [
        refused(CONST, "108,expire,bad,,,5,,,", fault),
        refused(OVERLOAD, "108,expire,worse,,,5,,,", fault),
        refused(OVERLOAD, "108,expire,BAD,,,5,,,", fault),
        refused(
            OVERLOAD,
            "107,expire,worse,,,5,,,",
            ReplayFault::TimeFell(11),
        ),
    ]
}

fn names() -> [CommandRow; 4] {
    [
        at("108,Expire,bad,,,5,,,", 2),
        at("108,expire,,,,5,,,", 3),
        at("108,expire,<bad>,,,5,,,", 3),
        at("108,expire,abcdefghijklmnopqrstuvwxyz012345,,,5,,,", 3),
    ]
}

fn empties() -> [CommandRow; 5] {
    [
        at("108,expire,bad,udp,,5,,,", 4),
        at("108,expire,bad,,198.51.100.1,5,,,", 5),
        at("108,expire,bad,,,5,192.0.2.1,,", 7),
        at("108,expire,bad,,,5,,0,", 8),
        at("108,expire,bad,,,5,,,S", 9),
    ]
}

fn seconds() -> [CommandRow; 4] {
    [
        at("108,expire,bad,,,,,,", 6),
        at("108,expire,bad,,,4294967296,,,", 6),
        at("108,expire,bad,,,-1,,,", 6),
        at("108,expire,worse,,,x,,,", 6),
    ]
}

/// The records in front, and their lines under either rules but for what became of the source.
fn tell_refused(rt: &(impl Abort + AllocGlobal), rows: &[CommandRow]) -> Result<(), Fail> {
    for row in rows {
        let mut trace = String::new(rt.alloc());
        write!(trace, "{HEADER}")?;
        for time in 99..109 {
            write!(trace, "{time},in,em0,icmp,198.51.100.1,,192.0.2.1,,\n")?;
        }
        write!(trace, "{}\n", row.record)?;
        tell(
            rt,
            row.rules.as_bytes(),
            trace.as_bytes(),
            Err(row.fault),
            SKIPPED,
        );
    }
    Ok(())
}

const SKIPPED: &[u8] = b"1 skip -\n2 skip -\n3 skip -\n4 skip -\n5 skip -\n\
    6 skip -\n7 skip -\n8 skip -\n9 skip -\n10 skip -\n";

/// The ten records in front of two expiries in the row that shows what they do, and their lines but for what became of the source.
const SHAKEN: &[&str] = &[
    "100,in,em0,icmp,198.51.100.1,,192.0.2.1,,",
    "104,in,em0,tcp,198.51.100.1,1000,192.0.2.1,80,S",
    "104,out,em0,tcp,192.0.2.1,80,198.51.100.1,1000,SA",
    "104,in,em0,tcp,198.51.100.1,1000,192.0.2.1,80,A",
    "104,in,em0,tcp,198.51.100.1,1001,192.0.2.1,80,S",
    "104,out,em0,tcp,192.0.2.1,80,198.51.100.1,1001,SA",
    "104,in,em0,tcp,198.51.100.1,1001,192.0.2.1,80,A",
    "106,in,em0,tcp,198.51.100.1,1002,192.0.2.1,80,S",
    "106,out,em0,tcp,192.0.2.1,80,198.51.100.1,1002,SA",
    "106,in,em0,tcp,198.51.100.1,1002,192.0.2.1,80,A",
];

/// The rules, the two expiries, what became of the source at its two last handshakes, and how the replay ends.
type CommandTold = (
    &'static str,
    [&'static str; 2],
    [&'static str; 2],
    ReplayFault,
);

const TOLD: &[CommandTold] = &[
    (
        CONST,
        ["108,expire,bad,,,5,,,", "109,expire,bad,,,5,,,"],
        ["none", "none"],
        ReplayFault::Table(11),
    ),
    (
        OVERLOAD,
        ["108,expire,worse,,,5,,,", "109,expire,bad,,,5,,,"],
        ["added", "held"],
        ReplayFault::Table(11),
    ),
    (
        OVERLOAD,
        ["108,expire,bad,udp,,5,,,", "109,expire,bad,,,5,,,"],
        ["added", "held"],
        ReplayFault::Field(11, 4),
    ),
];

/// One such replay, over each kind of store.
fn tell_shaken(rt: &(impl Abort + AllocGlobal), told: &CommandTold) -> Result<(), Fail> {
    let (rules, [first, second], [added, held], fault) = *told;
    let mut trace = String::new(rt.alloc());
    write!(trace, "{HEADER}")?;
    for record in SHAKEN {
        write!(trace, "{record}\n")?;
    }
    write!(trace, "{first}\n{second}\n")?;
    let mut text = String::new(rt.alloc());
    write!(text, "{UNSCALED}{rules}")?;
    let mut report = String::new(rt.alloc());
    write!(
        report,
        "1 skip -\n2 new @0\n3 state @0\n4 state @0\n5 new @0\n6 state @0\n"
    )?;
    write!(report, "7 kill:max-src-conn @0 overload={added} killed=1\n")?;
    write!(report, "8 new @0\n9 state @0\n")?;
    write!(report, "10 kill:max-src-conn @0 overload={held} killed=1\n")?;
    tell_over_stores(
        rt,
        text.as_bytes(),
        trace.as_bytes(),
        Err(fault),
        report.as_bytes(),
    )
}

#[test]
fn a_table_must_be_there_and_not_const(rt: HostRuntime) -> Result<(), Fail> {
    for told in TOLD {
        tell_shaken(&rt, told)?;
    }
    tell_refused(&rt, &tables())
}

#[test]
fn the_fields_of_an_expiry_are_read(rt: HostRuntime) -> Result<(), Fail> {
    tell_refused(&rt, &names())?;
    tell_refused(&rt, &empties())?;
    tell_refused(&rt, &seconds())
}

const TABLED: &str = "table <bad>\nblock in quick from <bad>\npass in all no state\n";

/// Entries of IPv6, by any text of their prefix.
const WIDE: Texts = Texts {
    rules: "table <bad>\nblock in quick from <bad>\npass in all no state",
    trace: "6,add,bad,,2001:DB8::/32,,,,\n6,in,em0,udp,2001:db8::1,1000,2001:db9::1,53,\n\
        6,delete,bad,,2001:db8:0:1::/32,,,,\n",
    report: "1 add - added\n2 block @0\n3 delete - removed=1\nend rows=3 states=0 nodes=0 entries=0\n",
};

/// A second record after a packet, and how the replay ends.
const SECOND: &[(&str, ReplayFault)] = &[
    ("5,held,bad,,,,,,", ReplayFault::Field(2, 3)),
    ("5,held,,udp,,,,,", ReplayFault::Field(2, 4)),
    ("5,held,,,198.51.100.1,,,,", ReplayFault::Field(2, 5)),
    ("5,held,,,,5,,,", ReplayFault::Field(2, 6)),
    ("5,held,,,,,192.0.2.1,,", ReplayFault::Field(2, 7)),
    ("5,held,,,,,,53,", ReplayFault::Field(2, 8)),
    ("5,held,,,,,,,S", ReplayFault::Field(2, 9)),
    ("4,held,,,,,,,", ReplayFault::TimeFell(2)),
    ("5,held,,,,,,", ReplayFault::Columns(2)),
    ("5,add,bad,udp,198.51.100.1,,,,", ReplayFault::Field(2, 4)),
    ("5,add,bad,,198.51.100.300,,,,", ReplayFault::Field(2, 5)),
    ("5,add,bad,,! 198.51.100.1,,,,", ReplayFault::Field(2, 5)),
    ("5,add,bad,,!!198.51.100.1,,,,", ReplayFault::Field(2, 5)),
    ("5,add,bad,,198.51.100.1/33,,,,", ReplayFault::Field(2, 5)),
    ("5,add,bad,,!,,,,", ReplayFault::Field(2, 5)),
    ("5,add,bad,,,,,,", ReplayFault::Field(2, 5)),
    ("5,delete,bad,,198.51.100.1,1,,,", ReplayFault::Field(2, 6)),
    (
        "5,delete,bad,,198.51.100.1,,192.0.2.1,,",
        ReplayFault::Field(2, 7),
    ),
    ("5,add,bad,,198.51.100.1,,,0,", ReplayFault::Field(2, 8)),
    ("5,add,bad,,198.51.100.1,,,,S", ReplayFault::Field(2, 9)),
    ("5,add,,,198.51.100.1,,,,", ReplayFault::Field(2, 3)),
    ("5,delete,<bad>,,198.51.100.1,,,,", ReplayFault::Field(2, 3)),
    ("5,add,worse,,198.51.100.1,,,,", ReplayFault::Table(2)),
    ("4,add,worse,,198.51.100.1,,,,", ReplayFault::TimeFell(2)),
    ("5,add,worse,,198.51.100.1,,,,S", ReplayFault::Field(2, 9)),
    ("5,add,const,,203.0.113.9,,,,", ReplayFault::Table(2)),
    ("5,delete,const,,203.0.113.9,,,,", ReplayFault::Table(2)),
    ("5,kill,em0,,198.51.100.1,,,,", ReplayFault::Field(2, 3)),
    ("5,kill,,udp,198.51.100.1,,,,", ReplayFault::Field(2, 4)),
    ("5,kill,,,,,,,", ReplayFault::Field(2, 5)),
    ("5,kill,,,!198.51.100.1,,,,", ReplayFault::Field(2, 5)),
    ("5,kill,,,198.51.100.1,1,,,", ReplayFault::Field(2, 6)),
    ("5,kill,,,198.51.100.1,,x,,", ReplayFault::Field(2, 7)),
    ("5,kill,,,198.51.100.1,,,53,", ReplayFault::Field(2, 8)),
    ("5,kill,,,198.51.100.1,,,,S", ReplayFault::Field(2, 9)),
    ("4,kill,,,198.51.100.1,,,,", ReplayFault::TimeFell(2)),
    ("5,Kill,,,198.51.100.1,,,,", ReplayFault::Field(2, 2)),
    ("5,Held,,,,,,,", ReplayFault::Field(2, 2)),
    ("5,Add,bad,,198.51.100.1,,,,", ReplayFault::Field(2, 2)),
];

/// The line of the packet, and the fault of the record after it: from two texts over each kind of store, and from one text.
fn tell_second(
    rt: &(impl Abort + AllocGlobal),
    record: &str,
    fault: ReplayFault,
) -> Result<(), Fail> {
    let rules = format!(in rt.alloc();
        "{UNSCALED}{TABLED}table <const> const {{ 203.0.113.9 }}\n"
    )?;
    let packet = "5,in,em0,udp,198.51.100.1,1000,192.0.2.1,53,";
    let trace = format!(in rt.alloc(); "{HEADER}{packet}\n{record}\n")?;
    let report = b"1 pass @1\n";
    tell_over_stores(rt, rules.as_bytes(), trace.as_bytes(), Err(fault), report)?;
    let joined = format!(in rt.alloc(); "{rules}%%\n{trace}")?;
    tell_joined(rt, joined.as_bytes(), Err(fault), report);
    Ok(())
}

#[test]
fn the_fields_of_a_command_are_read(rt: HostRuntime) -> Result<(), Fail> {
    for (record, fault) in SECOND {
        tell_second(&rt, record, *fault)?;
    }
    Ok(())
}

const BY_SOURCE: Texts = Texts {
    rules: "pass in proto udp\npass out",
    trace: "0,in,em0,udp,198.51.100.1,1,192.0.2.1,53,\n0,in,em0,udp,198.51.100.1,2,192.0.2.1,53,\n\
        0,in,em0,udp,198.51.100.2,1,192.0.2.1,53,\n0,kill,,,198.51.100.1,,,,\n0,kill,,,198.51.100.1,,,,\n\
        0,in,em0,udp,198.51.100.1,1,192.0.2.1,53,\n0,held,,,,,,,\n",
    report: "1 new @0\n2 new @0\n3 new @0\n4 kill - killed=2\n5 kill - killed=0\n6 new @0\n\
        7 held - states=2 nodes=0 entries=0\nend rows=7 states=2 nodes=0 entries=0\n",
};

const IN_AND_OUT: Texts = Texts {
    rules: "pass in proto udp\npass out",
    trace: "0,in,em0,udp,198.51.100.1,1,192.0.2.1,53,\n0,out,em1,udp,198.51.100.1,9,192.0.2.7,53,\n\
        0,kill,,,198.51.100.0/24,,192.0.2.7,,\n0,kill,,,192.0.2.0/24,,,,\n0,kill,,,0.0.0.0/0,,192.0.2.0/24,,\n",
    report: "1 new @0\n2 new @1\n3 kill - killed=1\n4 kill - killed=0\n5 kill - killed=1\n\
        end rows=5 states=0 nodes=0 entries=0\n",
};

const FOR_LIMITS: Texts = Texts {
    rules: "pass in proto udp keep state (max-src-states 1)",
    trace: "0,in,em0,udp,198.51.100.1,1,192.0.2.1,53,\n0,in,em0,udp,198.51.100.1,2,192.0.2.1,53,\n\
        0,kill,,,198.51.100.1,,,,\n0,in,em0,udp,198.51.100.1,2,192.0.2.1,53,\n",
    report: "1 new @0\n2 drop:max-src-states @0\n3 kill - killed=1\n4 new @0\nend rows=4 states=1 nodes=1 entries=0\n",
};

#[test]
fn states_are_killed_by_their_source(rt: HostRuntime) -> Result<(), Fail> {
    tell_texts(&rt, &BY_SOURCE)
}

#[test]
fn states_are_killed_by_source_and_destination(rt: HostRuntime) -> Result<(), Fail> {
    tell_texts(&rt, &IN_AND_OUT)
}

#[test]
fn killed_states_count_for_no_limit(rt: HostRuntime) -> Result<(), Fail> {
    tell_texts(&rt, &FOR_LIMITS)
}

#[test]
fn entries_of_ipv6_are_added_and_taken_out(rt: HostRuntime) -> Result<(), Fail> {
    tell_texts(&rt, &WIDE)
}
