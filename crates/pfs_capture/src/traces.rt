//! The trace of captures, row by row, and in another file what pf answered.

ghost use Rattle.std.specs.Prelude.{◌≡◌, ◌⊎◌, ◌<◌, ◌≤◌, ◌^◌, ◌+◌, ◌++◌, ℕ, List, Err, IfErr, IfOk, OnErr, OnOk, length, slice_get, slice_set, vec_len};
ghost use Rattle.std.specs.Vec.{vec_capacity};
ghost use Rattle.std.specs.Io.KnownBytes.{Appends};
ghost use Rattle.pfs_capture_files.specs.declared.faults.FileFault.TheVariants as fault;
ghost use Rattle.pfs_streams.specs.Feeds.{unread};
ghost use Rattle.pfs_streams.specs.Sinks.{NotFlushed, bytes_held, write_failures};
ghost use Rattle.pfs_capture.specs.Accounts.{AddsUp};
ghost use Rattle.pfs_capture.specs.Captures.{frame_bytes, seen_of};
ghost use Rattle.pfs_capture.specs.Merging.{Given};
ghost use Rattle.pfs_capture.specs.Readers.{AreGiven, SomeFailed, failures_of, lefts_of};
ghost use Rattle.pfs_capture.specs.Runs.{judged_at};
ghost use Rattle.pfs_capture.specs.Sorting.{IsFound, found_in_frame};
ghost use Rattle.pfs_capture.specs.Traces.{TellsCaptures, answer_text, frame_text};
ghost use Rattle.pfs_capture.specs.declared.captures.Capture.{Capture};
ghost use Rattle.pfs_capture.specs.FrameTurns.{Overflows, Sends, TakesFrame, frame_taken};

use crate::accounts::Account;
use crate::captures::{Capture, MOST_ITEMS, NextKnown};
use crate::faults::TraceStop;
use crate::instants::is_before;
use crate::merging::{NextFrame, ask_all, begin_all, earliest};
use crate::points::CapturePoint;
use crate::sorting::{DirectedPacket, sort};
use pfs_capture_answers::{ANSWER_HEADER, push_answer};
use pfs_capture_files::Frame;
use pfs_capture_packets::Reason;
use pfs_streams::{Sink, write_whole};
use pfs_trace::{HEADER, Row, push_row};
use std::alloc::Global;
use std::io::{Read, Write};

/// The texts of one frame: its row in the trace, and what pf answered. Each is empty where there is none.
#[derive(Drop)]
pub struct FrameTexts {
    pub row: Vec<u8>,
    pub answer: Vec<u8>,
}

/// Writes the trace of captures: its header, and a row for each frame that holds a packet which comes in or goes out.
/// Of captures of which nothing was read the frames are taken in the order of their moments, those of one moment in the
/// order of the captures. Each row is written before more of its capture is read. `answers` gets what pf answered: a header,
/// and a row for each record that is of a log of pflog(4). `account` counts the frames from 0 on, also where the trace
/// ends before the captures.
///
/// Which way a packet goes is told by the log or the Linux cooked capture itself, by the addresses that the interface has on
/// its link, or by the networks on one side of it (`sort`). A frame that was seen before the one in front of it in its
/// capture has that one's moment, and is counted as late if it is a record of an earlier second. `TraceStop` says why the
/// trace is not whole. Of a faulty capture, all is written that comes before its fault is reached: before the frame is taken
/// that follows the last one in front of the fault. Where a read or a write fails or memory is refused, only the first part is
/// written; `TraceStop::Memory` is told only of a frame that is there, and whose row is longer than each before it, or whose
/// answer is. A failed read or write is reported only where a reader or that writer failed. It takes memory for one block of each
/// capture, and for two rows.
pub fn write_trace<R: Read, W: Write, T: Write>(
    alloc: Global,
    captures: &mut [Capture<R>],
    out: &mut Sink<W>,
    answers: &mut Sink<T>,
    account: &mut Account,
) -> Result<(), TraceStop>
    ensures sum { AddsUp account.new }
    ensures tells { (gs : List Given) → AreGiven (unread R.remaining) captures.old gs →
        ((t : List ℕ) × (u : List ℕ) × Appends (bytes_held W.contents out.old) (bytes_held W.contents out.new) t
        × Appends (bytes_held T.contents answers.old) (bytes_held T.contents answers.new) u
        × TellsCaptures gs (lefts_of (unread R.remaining) captures.new) t u account.new result) }

    // No failure is reported of a reader or a writer that did not have it.
    ensures read { result ≡ Err (TraceStop.File fault.Read) → SomeFailed captures.new }
    ensures write { result ≡ Err TraceStop.Write → 0 < write_failures out.new }
    ensures told { result ≡ Err TraceStop.Answers → 0 < write_failures answers.new }

    // Whatever failed is named, so nothing failed before it.
    ensures first_read { (result ≡ Err (TraceStop.File fault.Read)) ⊎ (failures_of captures.new ≡ failures_of captures.old) }
    ensures first_write { (result ≡ Err TraceStop.Write) ⊎ (write_failures out.new ≡ write_failures out.old) }
    ensures first_told { (result ≡ Err TraceStop.Answers) ⊎ (write_failures answers.new ≡ write_failures answers.old) }

    // Nothing is flushed but by lines.
    ensures rows_at_once { NotFlushed out.old out.new }
    ensures answers_at_once { NotFlushed answers.old answers.new }
{
    *account = Account::new();
    let mut lines = FrameTexts::new(alloc);
    begin_all(captures, alloc)?;
    send(out, answers, HEADER, ANSWER_HEADER)?;
    for _turn in 0..MOST_ITEMS {
        ask_all(captures, alloc)?;
        let place = match earliest(captures) {
            Some(place) => place,
            None => return Ok(()),
        };
        take_next(captures, place, account, &mut lines)?;
        send(out, answers, &lines.row, &lines.answer)?;
    }
    Err(TraceStop::TooMany)
}

impl FrameTexts {
    fn new(alloc: Global) -> FrameTexts {
        FrameTexts {
            row: Vec::new(alloc),
            answer: Vec::new(alloc),
        }
    }
}

/// Writes a row of the trace, and then one of the answers.
fn send<W: Write, T: Write>(
    out: &mut Sink<W>,
    answers: &mut Sink<T>,
    row: &[u8],
    answer: &[u8],
) -> Result<(), TraceStop>
    ensures sends { (t : List ℕ) × (u : List ℕ) × Appends (bytes_held W.contents out.old) (bytes_held W.contents out.new) t
        × Appends (bytes_held T.contents answers.old) (bytes_held T.contents answers.new) u
        × Sends row.now answer.now t u result }
    ensures write { result ≡ Err TraceStop.Write → 0 < write_failures out.new }
    ensures told { result ≡ Err TraceStop.Answers → 0 < write_failures answers.new }
    ensures first_write { (result ≡ Err TraceStop.Write) ⊎ (write_failures out.new ≡ write_failures out.old) }
    ensures first_told { (result ≡ Err TraceStop.Answers) ⊎ (write_failures answers.new ≡ write_failures answers.old) }
    ensures rows_at_once { NotFlushed out.old out.new }
    ensures answers_at_once { NotFlushed answers.old answers.new }
{
    match write_whole(out, row) {
        Ok(()) => {}
        Err(_) => return Err(TraceStop::Write),
    }
    match write_whole(answers, answer) {
        Ok(()) => Ok(()),
        Err(_) => Err(TraceStop::Answers),
    }
}

/// Counts the frame in this place. Its capture is then asked for another, and its texts are in the lines.
fn take_next<R>(
    captures: &mut [Capture<R>],
    place: NextFrame,
    account: &mut Account,
    lines: &mut FrameTexts,
) -> Result<(), TraceStop>
    requires few { account.old.frames < 2 ^ 63 }
    requires sum { AddsUp account.old }
    requires within { place.index < length captures.old }
    ensures takes { (c : Capture R) → slice_get captures.old place.index ≡ Some c →
        TakesFrame (frame_taken account.old (judged_at c.points.items (seen_of place.frame c.held.items) c.last)) result account.new lines.new.row.items lines.new.answer.items }
    ensures refused { (c : Capture R) → slice_get captures.old place.index ≡ Some c →
        OnErr result (Overflows (frame_taken account.old (judged_at c.points.items (seen_of place.frame c.held.items) c.last)) (vec_capacity lines.old.row) (vec_capacity lines.old.answer)) }
    ensures capacity { (vec_capacity lines.old.row ≤ vec_capacity lines.new.row) × (vec_capacity lines.old.answer ≤ vec_capacity lines.new.answer) }
    ensures asks { (c : Capture R) → slice_get captures.old place.index ≡ Some c →
        captures.new ≡ slice_set captures.old place.index (record c { next = NextKnown.Unasked }) }
    ensures same { failures_of captures.new ≡ failures_of captures.old }
    ensures sum { AddsUp account.new }
    ensures one { OnOk result (account.new.frames ≡ account.old.frames + 1) }
    ensures kept { OnErr result (account.new ≡ account.old) }
    ensures fails { IfErr result (λ f. f ≡ TraceStop.Memory) }
{
    let capture = &mut captures[place.index];
    capture.next = NextKnown::Unasked;
    take_frame(capture, place.frame, account, lines)
}

/// Counts one frame more of a capture. Its texts are then in the lines.
fn take_frame<R>(
    capture: &Capture<R>,
    frame: Frame,
    account: &mut Account,
    lines: &mut FrameTexts,
) -> Result<(), TraceStop>
    requires few { account.old.frames < 2 ^ 63 }
    requires sum { AddsUp account.old }
    ensures takes { TakesFrame (frame_taken account.old (judged_at capture.now.points.items (seen_of frame capture.now.held.items) capture.now.last))
        result account.new lines.new.row.items lines.new.answer.items }
    ensures refused { OnErr result (Overflows (frame_taken account.old (judged_at capture.now.points.items (seen_of frame capture.now.held.items) capture.now.last))
        (vec_capacity lines.old.row) (vec_capacity lines.old.answer)) }
    ensures capacity { (vec_capacity lines.old.row ≤ vec_capacity lines.new.row) × (vec_capacity lines.old.answer ≤ vec_capacity lines.new.answer) }
    ensures sum { AddsUp account.new }
    ensures one { OnOk result (account.new.frames ≡ account.old.frames + 1) }
    ensures kept { OnErr result (account.new ≡ account.old) }
    ensures fails { IfErr result (λ f. f ≡ TraceStop.Memory) }
{
    lines.row.clear();
    lines.answer.clear();
    let second = u64::from(capture.last.second);
    let moment = frame.moment;
    let outcome = outcome_of(capture, frame);
    write_row(&outcome, second, &mut lines.row)?;
    write_answer(&outcome, account.records + 1, &mut lines.answer)?;
    account.count(&outcome, is_before(moment, second));
    Ok(())
}

/// Writes the row of a frame's packet into the line, if it has one.
fn write_row(
    outcome: &Result<DirectedPacket, Reason>,
    second: u64,
    line: &mut Vec<u8>,
) -> Result<(), TraceStop>
    requires found { IfOk outcome.now IsFound }
    requires second { second ≤ 4294967295 }
    ensures text { OnOk result (line.new.items ≡ line.old.items ++ frame_text second outcome.now) }
    ensures refused { OnErr result (vec_capacity line.old < vec_len line.old + length (frame_text second outcome.now)) }
    ensures capacity { vec_capacity line.old ≤ vec_capacity line.new }
    ensures fails { IfErr result (λ f. f ≡ TraceStop.Memory) }
{
    let Ok(found) = outcome else {
        return Ok(());
    };
    let way = &found.way;
    let row = Row {
        second,
        packet: found.packet.on_way(way.heading.dir, way.ifname),
    };
    match push_row(line, &row) {
        Ok(()) => Ok(()),
        Err(_) => Err(TraceStop::Memory),
    }
}

/// Writes what pf answered for the record of this number into the line, if it is of a log.
fn write_answer(
    outcome: &Result<DirectedPacket, Reason>,
    number: u64,
    line: &mut Vec<u8>,
) -> Result<(), TraceStop>
    ensures text { OnOk result (line.new.items ≡ line.old.items ++ answer_text number outcome.now) }
    ensures refused { OnErr result (vec_capacity line.old < vec_len line.old + length (answer_text number outcome.now)) }
    ensures capacity { vec_capacity line.old ≤ vec_capacity line.new }
    ensures fails { IfErr result (λ f. f ≡ TraceStop.Memory) }
{
    let Ok(found) = outcome else {
        return Ok(());
    };
    let Some(answer) = &found.answer else {
        return Ok(());
    };
    match push_answer(line, number, answer) {
        Ok(()) => Ok(()),
        Err(_) => Err(TraceStop::Memory),
    }
}

/// The packet of a frame in what was read, with its way, or why it is no record.
fn outcome_of<R>(capture: &Capture<R>, frame: Frame) -> Result<DirectedPacket, Reason>
    ensures is { result ≡ found_in_frame capture.now.points.items frame.name frame.link (frame_bytes frame capture.now.held.items) }
    ensures row { IfOk result IsFound }
{
    outcome_in(&capture.points, frame, &capture.held)
}

fn outcome_in(points: &[CapturePoint], frame: Frame, held: &[u8]) -> Result<DirectedPacket, Reason>
    ensures is { result ≡ found_in_frame points.now frame.name frame.link (frame_bytes frame held.now) }
    ensures row { IfOk result IsFound }
{
    let rest = &held[frame.from.min(held.len())..];
    sort(
        points,
        frame.name,
        frame.link,
        &rest[..frame.count.min(rest.len())],
    )
}
