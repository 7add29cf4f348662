//! Checks, canonical texts and jobs over readers and writers in memory.

use pfs_cli::{Job, Kind, LoadFault, ReplayFault, Tally, check, perform, print};
use pfs_streams::{Feed, Sink};
use pfs_tests_cases::{EVERYTHING, SHOWN, same};
use std::process::Abort;
use std::test::Fail;

const COUNTS: &[u8] = b"ok items=3 tables=2 entries=2\n";

const TRACE: &[u8] = b"time,dir,if,proto,src,sport,dst,dport,flags\n\
    5,in,em0,udp,198.51.100.1,1,192.0.2.1,53,\n";

/// What a job does over these rules and this trace: its answer, and that this is what it writes.
fn done(
    rt: &(impl Abort + AllocGlobal),
    job: &Job,
    rules: &[u8],
    wanted: &[u8],
) -> Result<Result<(), ReplayFault>, Fail> {
    let mut rules = Feed::new(rules, 9);
    let mut trace = Feed::new(TRACE, 9);
    let mut out = Sink::new(Vec::new(rt.alloc()));
    let outcome = perform(
        rt.alloc(),
        job,
        &mut rules,
        &mut trace,
        &mut Tally::none(),
        &mut out,
    );
    let written = out.into_inner();
    same!(rt; written.as_slice(), wanted);
    Ok(outcome)
}

#[test]
fn counts_are_told(rt: HostRuntime) -> Result<(), Fail> {
    let mut rules = Feed::new(EVERYTHING, 9);
    let mut out = Sink::new(Vec::new(rt.alloc()));
    same!(rt; check(rt.alloc(), &mut rules, &mut out), Ok(()));
    let written = out.into_inner();
    same!(rt; written.as_slice(), COUNTS);
    Ok(())
}

#[test]
fn the_canonical_text_is_printed_and_prints_itself(rt: HostRuntime) -> Result<(), Fail> {
    for text in &[EVERYTHING, SHOWN] {
        let mut rules = Feed::new(*text, 9);
        let mut out = Sink::new(Vec::new(rt.alloc()));
        same!(rt; print(rt.alloc(), &mut rules, &mut out), Ok(()));
        let written = out.into_inner();
        same!(rt; written.as_slice(), SHOWN);
    }
    Ok(())
}

#[test]
fn each_job_is_done(rt: HostRuntime) -> Result<(), Fail> {
    let outcome = done(&rt, &Job::Check("r"), EVERYTHING, COUNTS)?;
    same!(rt; outcome, Ok(()));
    let outcome = done(&rt, &Job::Show("r"), EVERYTHING, SHOWN)?;
    same!(rt; outcome, Ok(()));
    let replay = Job::Replay("r", "r");
    let report = b"1 new @0\nend rows=1 states=1 nodes=0 entries=0\n";
    let outcome = done(&rt, &replay, b"pass in proto udp all\n", report)?;
    same!(rt; outcome, Ok(()));
    let report = b"1 pass -\nend rows=1 states=0 nodes=0 entries=2\n";
    let outcome = done(&rt, &replay, EVERYTHING, report)?;
    same!(rt; outcome, Ok(()));
    let header = b"%%\ntime,dir,if,proto,src,sport,dst,dport,flags\n";
    let report = b"end rows=0 states=0 nodes=0 entries=0\n";
    let outcome = done(&rt, &Job::Joined, header, report)?;
    same!(rt; outcome, Ok(()));
    Ok(())
}

#[test]
fn refused_rules_leave_nothing_written(rt: HostRuntime) -> Result<(), Fail> {
    let fault = ReplayFault::Rules(LoadFault {
        line: 2,
        kind: Kind::Syntax,
    });
    let rules = b"block all\npass foo\n";
    let outcome = done(&rt, &Job::Check("r"), rules, b"")?;
    same!(rt; outcome, Err(fault));
    let outcome = done(&rt, &Job::Show("r"), rules, b"")?;
    same!(rt; outcome, Err(fault));
    let replay = Job::Replay("r", "r");
    let outcome = done(&rt, &replay, rules, b"")?;
    same!(rt; outcome, Err(fault));
    Ok(())
}
