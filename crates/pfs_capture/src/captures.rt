//! A capture that is read, frame by frame.

ghost use Rattle.std.specs.Prelude.{◌≡◌, ◌⊎◌, ◌<◌, Err, IfErr, List, OnOk, true, ℕ};
ghost use Rattle.pfs_capture_files.specs.declared.faults.FileFault.TheVariants as fault;
ghost use Rattle.pfs_streams.specs.Feeds.{HasFailed, read_failures, unread};
ghost use Rattle.pfs_capture.specs.Aheads.{Ahead, BeginsAs, StaysAhead, is_asked, is_of_reading, turns_left};
ghost use Rattle.pfs_capture.specs.Merging.{Given};
ghost use Rattle.pfs_capture.specs.Readers.{IsGiven, IsUnread};
ghost use Rattle.pfs_capture.specs.Runs.{Run};

use crate::faults::TraceStop;
use crate::instants::Instant;
use crate::points::CapturePoint;
use pfs_capture_files::{FileItem, Form, Frame, read_item, read_start};
use pfs_streams::Feed;
use std::alloc::Global;
use std::io::Read;

/// The most items that are read of a capture.
pub const MOST_ITEMS: u64 = 1_099_511_627_776;

/// What is known of the next frame of a capture.
#[derive(Clone, Copy)]
pub enum NextKnown {
    /// It was not asked for.
    Unasked,
    /// There is none: the capture has ended.
    Ended,
    /// It is this one, and its bytes are in what was read last.
    Waits(Frame),
}

/// A capture: the interfaces at which it was taken, and its reader.
#[derive(Drop)]
pub struct Capture<R> {
    pub points: Vec<CapturePoint>,
    pub reader: Feed<R>,
    pub held: Vec<u8>,
    pub form: Option<Form>,
    pub next: NextKnown,
    pub last: Instant,
    pub items: u64,
}

impl<R> Capture<R> {
    /// A capture of which nothing was read. Of one interface it has all frames; of several each frame is at that whose name its
    /// block tells.
    pub fn new(alloc: Global, points: Vec<CapturePoint>, reader: Feed<R>) -> Capture<R>
        ensures points { result.points ≡ points }
        ensures reader { result.reader ≡ reader }
        ensures unread { IsUnread result }
    {
        Capture {
            points,
            reader,
            held: Vec::new(alloc),
            form: None,
            next: NextKnown::Unasked,
            last: Instant::start(),
            items: MOST_ITEMS,
        }
    }
}

impl<R: Read> Capture<R> {
    /// Reads how it begins.
    pub fn begin(&mut self, alloc: Global) -> Result<(), TraceStop>
        ensures begins { (g : Given) → IsGiven (unread R.remaining) self.old g → BeginsAs (unread R.remaining) result self.new g }
        ensures ahead { (run : Run) → self.old.next ≡ NextKnown.Unasked → self.old.form ≡ None → Ahead (unread R.remaining) self.old run → StaysAhead (unread R.remaining) result self.new run }
        ensures fewer { self.old.form ≡ None → OnOk result (turns_left self.new.items self.new.form < turns_left self.old.items self.old.form) }
        ensures reads { IfErr result (λ f. is_of_reading f ≡ true) }
        ensures read { result ≡ Err (TraceStop.File fault.Read) → HasFailed self.new.reader }
        ensures sound { (result ≡ Err (TraceStop.File fault.Read)) ⊎ (read_failures self.new.reader ≡ read_failures self.old.reader) }
    {
        match read_start(alloc, &mut self.reader, &mut self.held) {
            Ok(form) => {
                self.form = Some(form);
                Ok(())
            }
            Err(fault) => Err(TraceStop::File(fault)),
        }
    }

    /// Asks for the next frame, if it was not asked for.
    pub fn ask(&mut self, alloc: Global) -> Result<(), TraceStop>
        ensures ahead { (run : Run) → Ahead (unread R.remaining) self.old run → StaysAhead (unread R.remaining) result self.new run }
        ensures asked { OnOk result (is_asked self.new.next ≡ true) }
        ensures reads { IfErr result (λ f. is_of_reading f ≡ true) }
        ensures read { result ≡ Err (TraceStop.File fault.Read) → HasFailed self.new.reader }
        ensures sound { (result ≡ Err (TraceStop.File fault.Read)) ⊎ (read_failures self.new.reader ≡ read_failures self.old.reader) }
    {
        while let NextKnown::Unasked = self.next {
            self.read_on(alloc)?;
        }
        Ok(())
    }

    /// Reads one item, or how the capture begins.
    fn read_on(&mut self, alloc: Global) -> Result<(), TraceStop>
        requires { self.old.next ≡ NextKnown.Unasked }
        ensures ahead { (run : Run) → Ahead (unread R.remaining) self.old run → StaysAhead (unread R.remaining) result self.new run }
        ensures fewer { OnOk result (turns_left self.new.items self.new.form < turns_left self.old.items self.old.form) }
        ensures reads { IfErr result (λ f. is_of_reading f ≡ true) }
        ensures read { result ≡ Err (TraceStop.File fault.Read) → HasFailed self.new.reader }
        ensures sound { (result ≡ Err (TraceStop.File fault.Read)) ⊎ (read_failures self.new.reader ≡ read_failures self.old.reader) }
    {
        let Some(form) = &mut self.form else {
            return self.begin(alloc);
        };
        if self.items == 0 {
            return Err(TraceStop::TooMany);
        }
        self.items -= 1;
        match read_item(&mut self.reader, &mut self.held, form) {
            Ok(FileItem::End) => self.next = NextKnown::Ended,
            Ok(FileItem::Other) => {}
            Ok(FileItem::Frame(frame)) => {
                self.last = self.last.after(frame.moment)?;
                self.next = NextKnown::Waits(frame);
            }
            Err(fault) => return Err(TraceStop::File(fault)),
        }
        Ok(())
    }
}
