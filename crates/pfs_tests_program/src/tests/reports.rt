//! Reports of rules and records, and what is reported of texts that are refused.

use super::fakes::{Halting, narrow_writer};
use super::runs::{replayed_joined, tell, tell_joined, tell_over_stores};
use pfs_cli::{Kind, LoadFault, ReplayFault, status};
use pfs_tests_cases::{HEADER, same};
use std::alloc::Global;
use std::test::Fail;

const UNSCALED: &[u8] = b"set timeout { adaptive.start 0, adaptive.end 0 }\n";

const ALL_UDP: &[u8] = b"set timeout { adaptive.start 0, adaptive.end 0 }\npass in proto udp all\n";

/// Rules, records after the header, what is written, and how it ends.
#[derive(Clone, Copy)]
struct ReportRow {
    rules: &'static [u8],
    records: &'static [u8],
    report: &'static [u8],
    outcome: Result<(), ReplayFault>,
}

/// Rules and records that end in a report.
fn whole(rules: &'static [u8], records: &'static [u8], report: &'static [u8]) -> ReportRow {
    ReportRow {
        rules,
        records,
        report,
        outcome: Ok(()),
    }
}

/// Records that stop at a fault, under rules that pass all UDP.
fn stopped(records: &'static [u8], report: &'static [u8], fault: ReplayFault) -> ReportRow {
    ReportRow {
        rules: ALL_UDP,
        records,
        report,
        outcome: Err(fault),
    }
}

/// One packet of 198.51.100.1 by no rule, the run with a refused third state, a
/// maximum that is asked before the limit, the last rule that matches, and a faulty trace.
fn rows() -> [ReportRow; 9] {
    [
        whole(UNSCALED, b"", b"end rows=0 states=0 nodes=0 entries=0\n"),
        whole(
            UNSCALED,
            b"5,in,em0,udp,198.51.100.1,1,192.0.2.1,53,\n",
            b"1 pass -\nend rows=1 states=0 nodes=0 entries=0\n",
        ),
        whole(
            b"set timeout { adaptive.start 0, adaptive.end 0 }\nset limit states 2\npass in proto udp all\n",
            b"5,in,em0,udp,198.51.100.1,1000,192.0.2.1,53,\n5,in,em0,udp,198.51.100.2,1000,192.0.2.1,53,\n5,in,em0,udp,198.51.100.3,1000,192.0.2.1,53,\n",
            b"1 new @0\n2 new @0\n3 drop:states @0\nend rows=3 states=2 nodes=0 entries=0\n",
        ),
        whole(
            b"set timeout { adaptive.start 0, adaptive.end 0 }\nset limit states 1\npass in proto udp all keep state (max 1)\n",
            b"5,in,em0,udp,198.51.100.1,1000,192.0.2.1,53,\n5,in,em0,udp,198.51.100.2,1000,192.0.2.1,53,\n",
            b"1 new @0\n2 drop:max @0\nend rows=2 states=1 nodes=0 entries=0\n",
        ),
        whole(
            b"pass in proto udp all\nblock all\n",
            b"5,in,em0,udp,198.51.100.1,1,192.0.2.1,53,\n",
            b"1 block @1\nend rows=1 states=0 nodes=0 entries=0\n",
        ),
        whole(
            b"block all\npass in proto udp all\n",
            b"5,in,em0,udp,198.51.100.1,1,192.0.2.1,53,\n6,out,em1,17,192.0.2.1,53,198.51.100.1,1,\n",
            b"1 new @1\n2 state @1\nend rows=2 states=1 nodes=0 entries=0\n",
        ),
        stopped(
            b"7,in,em0,udp,198.51.100.1,1,192.0.2.1,53,\n7,in,em0,udp,198.51.100.1,2,192.0.2.1,53,\n7,in,em0,udp,198.51.100.1,3,192.0.2.1,53\n",
            b"1 new @0\n2 new @0\n",
            ReplayFault::Columns(3),
        ),
        stopped(
            b"7,in,em0,udp,198.51.100.1,1,192.0.2.1,53,\n6,in,em0,udp,198.51.100.1,2,192.0.2.1,53,\n",
            b"1 new @0\n",
            ReplayFault::TimeFell(2),
        ),
        stopped(
            b"7,in,em0,udp,198.51.100.1,65536,192.0.2.1,53,\n",
            b"",
            ReplayFault::Field(1, 6),
        ),
    ]
}

pub fn trace_of(alloc: Global, records: &[u8]) -> Result<Vec<u8>, Fail> {
    let mut trace = Vec::new(alloc);
    trace.extend_from_slice(HEADER.as_bytes())?;
    trace.extend_from_slice(records)?;
    Ok(trace)
}

#[test]
fn rows_from_two_texts(rt: HostRuntime) -> Result<(), Fail> {
    for row in &rows() {
        let trace = trace_of(rt.alloc(), row.records)?;
        tell_over_stores(&rt, row.rules, &trace, row.outcome, row.report)?;
    }
    let empty = Err(ReplayFault::Columns(0));
    tell_over_stores(&rt, ALL_UDP, b"", empty, b"")
}

#[test]
fn rows_a_byte_at_a_time(rt: HostRuntime) -> Result<(), Fail> {
    let alloc = rt.alloc();
    for row in &rows() {
        let mut text = Vec::new(alloc);
        text.extend_from_slice(row.rules)?;
        text.extend_from_slice(b"\n%%\n")?;
        text.extend_from_slice(&trace_of(alloc, row.records)?)?;
        let reader = Halting {
            text: text.as_slice(),
            good: 9999,
        };
        let (told, _, _, writer) = replayed_joined(
            alloc,
            reader,
            narrow_writer(alloc, 1, 9999),
            9999,
        );
        same!(rt; told, row.outcome);
        same!(rt; writer.taken.as_slice(), row.report);
        same!(rt; writer.flushes, if row.outcome == Ok(()) { 1 } else { 0 });
    }
    Ok(())
}

#[test]
fn split_lines(rt: HostRuntime) -> Result<(), Fail> {
    let header = ReplayFault::Columns(0);
    let syntax = ReplayFault::Rules(LoadFault {
        line: 2,
        kind: Kind::Syntax,
    });
    for (text, outcome) in [
        (b"block all\n".as_slice(), header),
        (b"block all\n%%".as_slice(), header),
        (b"%%\n".as_slice(), header),
        (b"%%\n%%\n".as_slice(), header),
        (b"%%\ntime,dir\n".as_slice(), header),
        (b"block all\n%\n".as_slice(), syntax),
        (b"block all\n%%\r\n".as_slice(), syntax),
        (b"block all\n%%%\n".as_slice(), syntax),
        (b"block all\n %%\n".as_slice(), syntax),
    ] {
        tell_joined(&rt, text, Err(outcome), b"");
    }
    Ok(())
}

#[test]
fn traces_that_are_cut(rt: HostRuntime) -> Result<(), Fail> {
    let good = b"5,in,em0,udp,198.51.100.1,1,192.0.2.1,53,\n".as_slice();
    for (records, report, outcome) in [
        (
            b"5,in,em0,udp,198.51.100.1,1,192.0.2.1,53".as_slice(),
            b"".as_slice(),
            Err(ReplayFault::Columns(1)),
        ),
        (
            b"5,in,em0,udp,198.51.100.1,1,192.0.2.1,53,".as_slice(),
            b"1 pass -\nend rows=1 states=0 nodes=0 entries=0\n".as_slice(),
            Ok(()),
        ),
        (
            good,
            b"1 pass -\nend rows=1 states=0 nodes=0 entries=0\n".as_slice(),
            Ok(()),
        ),
        (
            b"\n\"5\",in,em0,\"udp\",198.51.100.1,0000000001,192.0.2.1,53,\r\n\n".as_slice(),
            b"1 pass -\nend rows=1 states=0 nodes=0 entries=0\n".as_slice(),
            Ok(()),
        ),
    ] {
        let trace = trace_of(rt.alloc(), records)?;
        tell(&rt, b"", &trace, outcome, report);
    }
    Ok(())
}

#[test]
fn fields_that_are_refused(rt: HostRuntime) -> Result<(), Fail> {
    for (record, column) in [
        (
            b"4294967296,in,em0,udp,198.51.100.1,1,192.0.2.1,53,\n".as_slice(),
            1,
        ),
        (
            b"5,inn,em0,udp,198.51.100.1,1,192.0.2.1,53,\n".as_slice(),
            2,
        ),
        (
            b"5,in,em 0,udp,198.51.100.1,1,192.0.2.1,53,\n".as_slice(),
            3,
        ),
        (
            b"5,in,em0,sctp,198.51.100.1,1,192.0.2.1,53,\n".as_slice(),
            4,
        ),
        (
            b"5,in,em0,udp,198.51.100.01,1,192.0.2.1,53,\n".as_slice(),
            5,
        ),
        (b"5,in,em0,udp,198.51.100.1,,192.0.2.1,53,\n".as_slice(), 6),
        (b"5,in,em0,udp,198.51.100.1,1,192.0.2,53,\n".as_slice(), 7),
        (b"5,in,em0,udp,198.51.100.1,1,192.0.2.1,-1,\n".as_slice(), 8),
        (
            b"5,in,em0,udp,198.51.100.1,1,192.0.2.1,53,S\n".as_slice(),
            9,
        ),
    ] {
        let trace = trace_of(rt.alloc(), record)?;
        let fault = ReplayFault::Field(1, column);
        tell(&rt, b"", &trace, Err(fault), b"");
    }
    Ok(())
}

#[test]
fn texts_and_statuses(rt: HostRuntime) -> Result<(), Fail> {
    let rules = LoadFault {
        line: 7,
        kind: Kind::AdaptivePair,
    };
    for (fault, text, code) in [
        (ReplayFault::Rules(rules), "rules: line 7: AdaptivePair", 3),
        (ReplayFault::Columns(3), "trace: row 3: columns", 1),
        (ReplayFault::Field(1, 6), "trace: row 1: field 6", 1),
        (ReplayFault::TimeFell(2), "trace: row 2: time falls", 1),
        (ReplayFault::Table(11), "trace: row 11: table", 1),
        (ReplayFault::TooManyRows, "trace: too many rows", 1),
        (ReplayFault::Read, "read failed", 4),
        (ReplayFault::Write, "write failed", 4),
        (ReplayFault::Memory, "no memory", 4),
        (ReplayFault::Endless, "reader does not end", 4),
    ] {
        let told = fault.to_string(rt.alloc())?;
        same!(rt; told.as_str(), text);
        same!(rt; status(&fault), code);
    }
    Ok(())
}
