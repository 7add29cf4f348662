//! How many frames there were, and what became of them.

ghost use Rattle.std.specs.Prelude.{◌≡◌, ◌<◌, ◌^◌, Some};
ghost use Rattle.pfs_capture.specs.Accounts.{AddsUp, account_text, frame_counted, no_frames, reason_counted, record_counted};

use crate::directions::Directions;
use crate::sorting::{DirectedPacket, Heading};
use pfs_capture_packets::Reason;
use std::fmt;

/// How many frames of a capture were read, and what became of them. Each is a record, or is counted under exactly one reason. A record
/// that was seen before the frame in front of it is counted as late besides, and each by what its direction was found.
#[derive(Clone, Copy)]
pub struct Account {
    /// The frames that were read.
    pub frames: u64,
    /// Those that are rows of the trace.
    pub records: u64,
    /// Those whose link type is not read.
    pub link_types: u64,
    /// Those that hold no IP packet.
    pub not_ip: u64,
    /// Those that hold a fragment that is not the first.
    pub later_fragments: u64,
    /// Those that end before their packet's ports.
    pub cut: u64,
    /// Those whose packet is too short for its headers.
    pub too_short: u64,
    /// Those whose packet neither comes in nor goes out.
    pub neither_way: u64,
    /// The records that were seen before the frame in front of them, and have its second.
    pub late: u64,
    /// By what the directions of the records were found.
    pub directions: Directions,
}

impl Account {
    /// The account of no frame.
    pub fn new() -> Account
        ensures is { result ≡ no_frames }
        ensures sum { AddsUp result }
    {
        Account {
            frames: 0,
            records: 0,
            link_types: 0,
            not_ip: 0,
            later_fragments: 0,
            cut: 0,
            too_short: 0,
            neither_way: 0,
            late: 0,
            directions: Directions::new(),
        }
    }

    /// Counts one frame more, which is a record, or is none for a reason; and whether it was seen before the frame in front.
    pub fn count(&mut self, outcome: &Result<DirectedPacket, Reason>, is_late: bool)
        requires few { self.old.frames < 2 ^ 63 }
        requires sum { AddsUp self.old }
        ensures is { self.new ≡ frame_counted self.old is_late outcome.now }
        ensures sum { AddsUp self.new }
    {
        match outcome {
            Ok(found) => self.count_record(found.way.heading, is_late),
            Err(reason) => self.count_left_out(*reason),
        }
    }

    /// Counts one record more.
    fn count_record(&mut self, heading: Heading, is_late: bool)
        requires few { self.old.frames < 2 ^ 63 }
        requires sum { AddsUp self.old }
        ensures is { self.new ≡ record_counted self.old is_late heading }
        ensures sum { AddsUp self.new }
    {
        self.frames += 1;
        self.records += 1;
        self.late += u64::from(is_late);
        self.directions.count(heading);
    }

    /// Counts one frame more that is no record for this reason.
    fn count_left_out(&mut self, reason: Reason)
        requires few { self.old.frames < 2 ^ 63 }
        requires sum { AddsUp self.old }
        ensures is { self.new ≡ reason_counted self.old reason }
        ensures sum { AddsUp self.new }
    {
        self.frames += 1;
        match reason {
            Reason::LinkType => self.link_types += 1,
            Reason::NotIp => self.not_ip += 1,
            Reason::LaterFragment => self.later_fragments += 1,
            Reason::Cut => self.cut += 1,
            Reason::TooShort => self.too_short += 1,
            Reason::NeitherWay => self.neither_way += 1,
        }
    }
}

impl fmt::Display for Account {
    ghost output = { λ a. Some (account_text a) };

    fn fmt<W: fmt::Write>(&self, f: &mut fmt::Formatter<W>) -> fmt::Result {
        write!(
            f,
            "frames {}: records {}, not IP {}, later fragments {}, cut before their ports {}",
            self.frames, self.records, self.not_ip, self.later_fragments, self.cut
        )?;
        write!(
            f,
            ", neither in nor out {}, of a link type that is not read {}, too short {}; records seen before the frame in front {}",
            self.neither_way, self.link_types, self.too_short, self.late
        )
    }
}
