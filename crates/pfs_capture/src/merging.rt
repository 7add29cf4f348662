//! Captures as one: each frame in the order of moments.

ghost use Rattle.std.specs.Prelude.{◌≡◌, ◌<◌, ◌⊎◌, Err, IfErr, IfSome, List, OnOk, length, true, ℕ, if◌then◌else◌};
ghost use Rattle.pfs_capture_files.specs.declared.faults.FileFault.TheVariants as fault;
ghost use Rattle.pfs_streams.specs.Feeds.{unread};
ghost use Rattle.pfs_capture.specs.Aheads.{Aheads, AllBegin, AreAsked, StayAhead, earliest, is_of_reading, nearer, waiting_at};
ghost use Rattle.pfs_capture.specs.Merging.{Given};
ghost use Rattle.pfs_capture.specs.Readers.{AreGiven, SomeFailed, failures_of};
ghost use Rattle.pfs_capture.specs.Runs.{Run};

use crate::captures::{Capture, NextKnown};
use crate::faults::TraceStop;
use crate::instants::Instant;
use pfs_capture_files::Frame;
use std::alloc::Global;
use std::io::Read;

/// A next frame, which of the captures it is of, and its moment.
#[derive(Clone, Copy)]
pub struct NextFrame {
    pub index: usize,
    pub instant: Instant,
    pub frame: Frame,
}

/// Reads how each capture begins.
pub fn begin_all<R: Read>(captures: &mut [Capture<R>], alloc: Global) -> Result<(), TraceStop>
    ensures begin { (gs : List Given) → AreGiven (unread R.remaining) captures.old gs → AllBegin (unread R.remaining) result captures.new gs }
    ensures reads { IfErr result (λ f. is_of_reading f ≡ true) }
    ensures read { result ≡ Err (TraceStop.File fault.Read) → SomeFailed captures.new }
    ensures sound { (result ≡ Err (TraceStop.File fault.Read)) ⊎ (failures_of captures.new ≡ failures_of captures.old) }
{
    for index in 0..captures.len() {
        captures[index].begin(alloc)?;
    }
    Ok(())
}

/// Asks each capture for its next frame.
pub fn ask_all<R: Read>(captures: &mut [Capture<R>], alloc: Global) -> Result<(), TraceStop>
    ensures ahead { (runs : List Run) → Aheads (unread R.remaining) captures.old runs → StayAhead (unread R.remaining) result captures.new runs }
    ensures asked { OnOk result (AreAsked (length captures.new) captures.new) }
    ensures reads { IfErr result (λ f. is_of_reading f ≡ true) }
    ensures read { result ≡ Err (TraceStop.File fault.Read) → SomeFailed captures.new }
    ensures sound { (result ≡ Err (TraceStop.File fault.Read)) ⊎ (failures_of captures.new ≡ failures_of captures.old) }
{
    for index in 0..captures.len() {
        captures[index].ask(alloc)?;
    }
    Ok(())
}

/// The earliest of the next frames, the first of those of one moment.
pub fn earliest<R>(captures: &[Capture<R>]) -> Option<NextFrame>
    ensures is { result ≡ earliest 0 captures.now }
    ensures within { IfSome result (λ p. p.index < length captures.now) }
{
    earliest_from_last(captures)
}

/// The same, found from the last capture to the first.
fn earliest_from_last<R>(captures: &[Capture<R>]) -> Option<NextFrame>
    ensures { result ≡ earliest 0 captures.now }
{
    let mut place = None;
    for index in (0..captures.len()).rev() {
        place = nearer(waiting_at(&captures[index], index), place);
    }
    place
}

/// The place of the next frame of the capture of this index, if it waits.
fn waiting_at<R>(capture: &Capture<R>, index: usize) -> Option<NextFrame>
    ensures { result ≡ waiting_at index capture.now.last capture.now.next }
{
    match capture.next {
        NextKnown::Waits(frame) => Some(NextFrame {
            index,
            instant: capture.last,
            frame,
        }),
        NextKnown::Ended | NextKnown::Unasked => None,
    }
}

/// The earlier of two, the first of those of one moment.
fn nearer(first: Option<NextFrame>, second: Option<NextFrame>) -> Option<NextFrame>
    ensures { result ≡ nearer first second }
{
    if is_behind(&first, &second) {
        second
    } else {
        first
    }
}

/// Whether the second comes first.
fn is_behind(first: &Option<NextFrame>, second: &Option<NextFrame>) -> bool
    ensures { nearer first.now second.now ≡ (if result then second.now else first.now) }
{
    match (first, second) {
        (None, _) => true,
        (Some(_), None) => false,
        (Some(own), Some(behind)) => behind.instant.is_earlier(own.instant),
    }
}
