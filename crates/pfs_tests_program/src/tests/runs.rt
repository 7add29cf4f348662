//! Replays over any readers and writer, and over texts in memory.

use pfs_cli::{RecordsStop, ReplayFault, Tally, replay, replay_joined, write_report_over};
use pfs_conf::load;
use pfs_store::{IndexStore, PlainStore};
use pfs_streams::{Feed, Sink};
use pfs_tests_cases::same;
use pfs_trace::TraceFault;
use std::alloc::{AllocGlobal, Global};
use std::io::{Read, Write};
use std::process::Abort;
use std::test::Fail;

/// How a replay ended, how many reads of its trace and how many writes failed, and its writer.
pub type Ran<W> = (Result<(), ReplayFault>, u64, u64, W);

/// A replay of two readers, each read at most so often.
pub fn replayed<R: Read + Drop, T: Read + Drop, W: Write>(
    alloc: Global,
    rules: R,
    trace: T,
    writer: W,
    reads: u64,
) -> Ran<W> {
    let mut rules = Feed::new(rules, reads);
    let mut trace = Feed::new(trace, reads);
    let mut out = Sink::new(writer);
    let told = replay(alloc, &mut rules, &mut trace, &mut Tally::none(), &mut out);
    (told, trace.failures(), out.failures(), out.into_inner())
}

/// A replay of rules and a trace in one reader.
pub fn replayed_joined<R: Read + Drop, W: Write>(
    alloc: Global,
    input: R,
    writer: W,
    reads: u64,
) -> Ran<W> {
    let mut input = Feed::new(input, reads);
    let mut out = Sink::new(writer);
    let told = replay_joined(alloc, &mut input, &mut Tally::none(), &mut out);
    (told, input.failures(), out.failures(), out.into_inner())
}

/// These rules and this trace have this outcome and this report.
pub fn tell(
    rt: &(impl Abort + AllocGlobal),
    rules: &[u8],
    trace: &[u8],
    outcome: Result<(), ReplayFault>,
    report: &[u8],
) {
    let (told, _, _, written) = replayed(rt.alloc(), rules, trace, Vec::new(rt.alloc()), 99);
    same!(rt; told, outcome);
    same!(rt; written.as_slice(), report);
}

/// Rules and a trace in one text have this outcome and this report.
pub fn tell_joined(
    rt: &(impl Abort + AllocGlobal),
    text: &[u8],
    outcome: Result<(), ReplayFault>,
    report: &[u8],
) {
    let (told, _, _, written) = replayed_joined(rt.alloc(), text, Vec::new(rt.alloc()), 99);
    same!(rt; told, outcome);
    same!(rt; written.as_slice(), report);
}

/// How a replay of a trace ends, by how its report does.
fn ended(told: Result<(), RecordsStop>) -> Result<(), ReplayFault> {
    match told {
        Ok(()) => Ok(()),
        Err(RecordsStop::Fault(TraceFault::Columns(row))) => Err(ReplayFault::Columns(row)),
        Err(RecordsStop::Fault(TraceFault::Field(row, column))) => Err(ReplayFault::Field(
            row, column,
        )),
        Err(RecordsStop::Fault(TraceFault::TimeFell(row))) => Err(ReplayFault::TimeFell(row)),
        Err(RecordsStop::Fault(TraceFault::Table(row))) => Err(ReplayFault::Table(row)),
        Err(RecordsStop::Fault(TraceFault::TooManyRows)) => Err(ReplayFault::TooManyRows),
        Err(RecordsStop::Source) => Err(ReplayFault::Read),
        Err(RecordsStop::Memory) => Err(ReplayFault::Memory),
        Err(RecordsStop::Write) => Err(ReplayFault::Write),
    }
}

/// Over each kind of store, and as a replay: rules that are accepted and this trace have this outcome and this report.
pub fn tell_over_stores(
    rt: &(impl Abort + AllocGlobal),
    rules: &[u8],
    trace: &[u8],
    outcome: Result<(), ReplayFault>,
    report: &[u8],
) -> Result<(), Fail> {
    tell(rt, rules, trace, outcome, report);
    let alloc = rt.alloc();
    let config = load(alloc, rules)?;
    let store = PlainStore::new(alloc, &config)?;
    let mut out = Sink::new(Vec::new(alloc));
    let told = write_report_over(alloc, config, store, trace, &mut Tally::none(), &mut out);
    same!(rt; ended(told), outcome);
    same!(rt; out.into_inner().as_slice(), report);
    let config = load(alloc, rules)?;
    let store = IndexStore::new(alloc, &config)?;
    let mut out = Sink::new(Vec::new(alloc));
    let told = write_report_over(alloc, config, store, trace, &mut Tally::none(), &mut out);
    same!(rt; ended(told), outcome);
    same!(rt; out.into_inner().as_slice(), report);
    Ok(())
}
