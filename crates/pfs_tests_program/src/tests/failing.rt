//! Each place where a reader or a writer can fail or fail to end.

use super::fakes::{Endless, Halting, narrow_writer};
use super::reports::trace_of;
use super::runs::{replayed, replayed_joined};
use pfs_cli::{Job, Kind, LoadFault, ReplayFault, Tally, perform, replay};
use pfs_streams::{Feed, Sink};
use pfs_tests_cases::{HEADER, same};
use std::alloc::AllocGlobal;
use std::io::Read;
use std::process::Abort;
use std::test::Fail;

pub const RULES: &[u8] = b"set limit states 2\npass in proto udp all\n";

pub const RECORDS: &[u8] =
    b"5,in,em0,udp,198.51.100.1,1,192.0.2.1,53,\n5,in,em0,udp,198.51.100.2,1,192.0.2.1,53,\n5,in,em0,udp,198.51.100.3,1,192.0.2.1,53,\n";

pub const REPORT: &[u8] =
    b"1 new @0\n2 new @0\n3 drop:states @0\nend rows=3 states=2 nodes=0 entries=0\n";

/// How many bytes the first `count` lines of a text have.
pub fn lines_len(text: &[u8], count: usize) -> usize {
    let mut left = count;
    for (i, byte) in text.iter().enumerate() {
        if left == 0 {
            return i;
        }
        if *byte == b'\n' {
            left -= 1;
        }
    }
    text.len()
}

/// How many lines are whole in the first `len` bytes of a text.
fn whole_lines(text: &[u8], len: usize) -> usize {
    text.iter().take(len).filter(|byte| **byte == b'\n').count()
}

/// What a run of the report's records wrote before a read failed: as many lines as it had whole records.
fn cut(rt: &impl Abort, told: &Result<(), ReplayFault>, written: &[u8], rows: usize) {
    same!(rt; *told, Err(ReplayFault::Read));
    let len = lines_len(REPORT, rows);
    assert!(rt; len <= REPORT.len());
    same!(rt; written, &REPORT[..len], rows);
}

#[test]
fn a_read_fails_at_each_turn(rt: HostRuntime) -> Result<(), Fail> {
    let trace = trace_of(rt.alloc(), RECORDS)?;
    for good in 0..=trace.len() {
        let text = trace.as_slice();
        let reader = Halting { text, good };
        let (told, failed, _, written) = replayed(
            rt.alloc(),
            RULES,
            reader,
            Vec::new(rt.alloc()),
            999,
        );
        same!(rt; failed, 1);
        let rows = whole_lines(text, good).saturating_sub(1);
        cut(&rt, &told, &written, rows);
    }
    Ok(())
}

#[test]
fn a_read_of_joined_text_fails_at_each_turn(rt: HostRuntime) -> Result<(), Fail> {
    let mut joined = Vec::new(rt.alloc());
    joined.extend_from_slice(RULES)?;
    joined.extend_from_slice(b"%%\n")?;
    joined.extend_from_slice(&trace_of(rt.alloc(), RECORDS)?)?;
    for good in 0..=joined.len() {
        let text = joined.as_slice();
        let reader = Halting { text, good };
        let (told, _, _, written) = replayed_joined(rt.alloc(), reader, Vec::new(rt.alloc()), 999);
        let rows = whole_lines(text, good).saturating_sub(4);
        cut(&rt, &told, &written, rows);
    }
    Ok(())
}

#[test]
fn a_write_fails_at_each_turn(rt: HostRuntime) -> Result<(), Fail> {
    let trace = trace_of(rt.alloc(), RECORDS)?;
    for room in 0..=REPORT.len() {
        let writer = narrow_writer(rt.alloc(), 1, room);
        let (told, _, failed, writer) = replayed(rt.alloc(), RULES, trace.as_slice(), writer, 99);
        same!(rt; (told, failed), (Err(ReplayFault::Write), 1), room);
        same!(rt; writer.taken.as_slice(), &REPORT[..room]);
    }
    Ok(())
}

#[test]
fn a_write_takes_nothing_at_each_turn(rt: HostRuntime) -> Result<(), Fail> {
    let trace = trace_of(rt.alloc(), RECORDS)?;
    for room in 0..REPORT.len() {
        let mut writer = narrow_writer(rt.alloc(), 1, room);
        writer.stalls = true;
        let (told, _, failed, writer) = replayed(rt.alloc(), RULES, trace.as_slice(), writer, 99);
        same!(rt; (told, failed), (Err(ReplayFault::Write), 1), room);
        same!(rt; writer.taken.as_slice(), &REPORT[..room]);
    }
    Ok(())
}

/// What a job over these rules answers, whose reader gives so many bytes and whose writer takes so many.
fn told_of(
    rt: &impl AllocGlobal,
    job: &Job,
    good: usize,
    room: usize,
) -> (Result<(), ReplayFault>, usize) {
    let mut rules = Feed::new(Halting { text: RULES, good }, 999);
    let mut trace = Feed::new(HEADER.as_bytes(), 99);
    let mut out = Sink::new(narrow_writer(rt.alloc(), 1, room));
    let told = perform(
        rt.alloc(),
        job,
        &mut rules,
        &mut trace,
        &mut Tally::none(),
        &mut out,
    );
    (told, out.into_inner().taken.len())
}

const JOBS: &[Job] = &[Job::Check("r"), Job::Show("r"), Job::Replay("r", "t")];

#[test]
fn a_read_of_rules_fails_at_each_turn(rt: HostRuntime) {
    for job in JOBS {
        for good in 0..=RULES.len() {
            let told = told_of(&rt, job, good, 9999);
            same!(rt; told, (Err(ReplayFault::Read), 0), good);
        }
    }
}

#[test]
fn a_write_of_a_job_fails_at_each_turn(rt: HostRuntime) {
    for job in JOBS {
        let (told, whole) = told_of(&rt, job, 999, 9999);
        same!(rt; told, Ok(()));
        for room in 0..=whole {
            same!(rt; told_of(&rt, job, 999, room), (Err(ReplayFault::Write), room));
        }
    }
}

/// A fault of the rules is told before any of the trace, whatever that is, and the trace is not read.
#[test]
fn rules_are_told_before_the_trace(rt: HostRuntime) -> Result<(), Fail> {
    let fault = ReplayFault::Rules(LoadFault {
        line: 1,
        kind: Kind::Syntax,
    });
    for text in &[b"".as_slice(), b"x", b"time\n"] {
        for good in 0..2 {
            let mut rules = Feed::new(b"pass foo\n".as_slice(), 9);
            let mut trace = Feed::new(Halting { text: *text, good }, 1);
            let mut out = Sink::new(Vec::new(rt.alloc()));
            let told = replay(
                rt.alloc(),
                &mut rules,
                &mut trace,
                &mut Tally::none(),
                &mut out,
            );
            same!(rt; told, Err(fault));
            same!(rt; trace.failures(), 0);
            let mut one = [0];
            same!(rt; trace.read(&mut one).is_ok(), good == 1);
        }
    }
    Ok(())
}

/// A joined text is read on to its split line, in bounded memory.
#[test]
fn traces_without_an_end(rt: HostRuntime) {
    let (told, _, _, written) = replayed(
        rt.alloc(),
        RULES,
        Endless(b'\n'),
        Vec::new(rt.alloc()),
        100,
    );
    same!(rt; told, Err(ReplayFault::Endless));
    same!(rt; written.len(), 0);
    let mut out = Sink::new(Vec::new(rt.alloc()));
    let told = perform(
        rt.alloc(),
        &Job::Replay("r", "t"),
        &mut Feed::new(RULES, 100),
        &mut Feed::new(Endless(b'\n'), 100),
        &mut Tally::none(),
        &mut out,
    );
    same!(rt; told, Err(ReplayFault::Endless));
    same!(rt; out.into_inner().len(), 0);
    let (told, _, _, written) = replayed_joined(
        rt.alloc(),
        Endless(b'x'),
        Vec::new(rt.alloc()),
        2_000_000,
    );
    same!(rt; told, Err(ReplayFault::Endless));
    same!(rt; written.len(), 0);
}
