//! Each line as it happens: written and flushed before more is read, however the bytes come.

use super::failing::{RECORDS, REPORT, RULES, lines_len};
use super::fakes::{Pieces, Shown, shown_writer};
use super::reports::trace_of;
use pfs_cli::{ReplayFault, Tally, replay, replay_joined};
use pfs_streams::{Feed, Sink};
use pfs_tests_cases::same;
use std::alloc::{AllocGlobal, Global};
use std::process::Abort;
use std::test::Fail;

/// How many bytes a read gives. A trace has some 170.
const WIDTHS: &[usize] = &[1, 2, 3, 4, 5, 7, 64, 8192];

/// How a replay ended, and its writer.
type LinesRan = (Result<(), ReplayFault>, Shown);

/// A replay by lines of a trace whose reader gives so many bytes at each of so many reads, and then fails.
fn by_lines(alloc: Global, trace: Pieces) -> LinesRan {
    let mut rules = Feed::new(RULES, 999);
    let mut trace = Feed::new(trace, 999);
    let mut out = Sink::line_buffered(shown_writer(alloc));
    let told = replay(alloc, &mut rules, &mut trace, &mut Tally::none(), &mut out);
    (told, out.into_inner())
}

/// The same of rules and a trace in one text.
fn joined_by_lines(alloc: Global, input: Pieces) -> LinesRan {
    let mut input = Feed::new(input, 999);
    let mut out = Sink::line_buffered(shown_writer(alloc));
    let told = replay_joined(alloc, &mut input, &mut Tally::none(), &mut out);
    (told, out.into_inner())
}

/// The text with this end for each line.
fn ended_by(alloc: Global, text: &[u8], end: &[u8]) -> Result<Vec<u8>, Fail> {
    let mut ended = Vec::new(alloc);
    for byte in text {
        if *byte == b'\n' {
            ended.extend_from_slice(end)?;
        } else {
            ended.push(*byte)?;
        }
    }
    Ok(ended)
}

/// How many lines are whole in the first bytes of a text, whose lines end as soon as this byte comes.
fn whole(text: &[u8], len: usize, end: u8) -> usize {
    text.iter().take(len).filter(|byte| **byte == end).count()
}

/// Before a read failed, the lines of all records that were read whole had been written and flushed.
fn seen(rt: &impl Abort, ran: &LinesRan, rows: usize, place: (usize, usize)) {
    let (told, out) = ran;
    same!(rt; *told, Err(ReplayFault::Read), place);
    let len = lines_len(REPORT, rows);
    assert!(rt; len <= REPORT.len());
    same!(rt; out.taken.as_slice(), &REPORT[..len], place);
    same!(rt; out.shown, len, place);
}

#[test]
fn lines_are_seen_before_more_is_read(rt: HostRuntime) -> Result<(), Fail> {
    let trace = trace_of(rt.alloc(), RECORDS)?;
    for (end, last) in &[(b"\n".as_slice(), b'\n'), (b"\r\n", b'\r'), (b"\r", b'\r')] {
        let text = ended_by(rt.alloc(), &trace, end)?;
        for width in WIDTHS {
            for good in 0..=text.len().div_ceil(*width) {
                let reader = Pieces {
                    text: text.as_slice(),
                    width: *width,
                    good,
                };
                let ran = by_lines(rt.alloc(), reader);
                let rows = whole(&text, good.saturating_mul(*width), *last).saturating_sub(1);
                seen(&rt, &ran, rows, (*width, good));
            }
        }
    }
    Ok(())
}

#[test]
fn lines_of_joined_input_are_seen_before_more_is_read(rt: HostRuntime) -> Result<(), Fail> {
    let mut text = Vec::new(rt.alloc());
    text.extend_from_slice(RULES)?;
    text.extend_from_slice(b"%%\n")?;
    text.extend_from_slice(&trace_of(rt.alloc(), RECORDS)?)?;
    for width in WIDTHS {
        for good in 0..=text.len().div_ceil(*width) {
            let reader = Pieces {
                text: text.as_slice(),
                width: *width,
                good,
            };
            let ran = joined_by_lines(rt.alloc(), reader);
            let rows = whole(&text, good.saturating_mul(*width), b'\n').saturating_sub(4);
            seen(&rt, &ran, rows, (*width, good));
        }
    }
    Ok(())
}

/// Without lines as they happen there is one flush, at the end, and none at a fault.
#[test]
fn a_report_is_flushed_once(rt: HostRuntime) -> Result<(), Fail> {
    let text = trace_of(rt.alloc(), RECORDS)?;
    for (good, flushes) in &[(999, 1), (9, 0)] {
        let trace = Pieces {
            text: text.as_slice(),
            width: 9,
            good: *good,
        };
        let mut trace = Feed::new(trace, 999);
        let mut out = Sink::new(shown_writer(rt.alloc()));
        let _ = replay(
            rt.alloc(),
            &mut Feed::new(RULES, 999),
            &mut trace,
            &mut Tally::none(),
            &mut out,
        );
        same!(rt; out.into_inner().flushes, *flushes);
    }
    let trace = Pieces {
        text: text.as_slice(),
        width: 9,
        good: 999,
    };
    let (told, out) = by_lines(rt.alloc(), trace);
    same!(rt; told, Ok(()));
    same!(rt; out.taken.as_slice(), REPORT);
    same!(rt; out.flushes, 5);
    Ok(())
}
