//! Why a trace ends before its capture does.

ghost use Rattle.std.specs.Prelude.{◌≡◌, Some};
ghost use Rattle.pfs_capture.specs.Faults.{file_text, stop_status, stop_text};

use pfs_capture_files::FileFault;
use std::{error, fmt};

/// Why a trace ends before its capture does.
#[derive(Clone, Copy, Debug)]
pub enum TraceStop {
    /// The file is no capture, or ends or breaks off in the item after the frames that were read.
    File(FileFault),
    /// The frame after those that were read was seen before the second 0 or after the second 4294967295.
    Moment,
    /// The capture has more than 1,099,511,627,776 blocks.
    TooMany,
    /// A write of the trace took nothing or failed.
    Write,
    /// A write of what pf answered took nothing or failed.
    Answers,
    /// Memory was refused.
    Memory,
}

impl fmt::Display for TraceStop {
    ghost output = { λ s. Some (stop_text s) };

    fn fmt<W: fmt::Write>(&self, f: &mut fmt::Formatter<W>) -> fmt::Result {
        match self {
            TraceStop::File(fault) => {
                let text = file_text(*fault);
                write!(f, "{text}")
            }
            TraceStop::Moment => write!(f, "its moment is not from 0 to 4294967295"),
            TraceStop::TooMany => write!(f, "too many blocks"),
            TraceStop::Write => write!(f, "write failed"),
            TraceStop::Answers => write!(f, "--answers: write failed"),
            TraceStop::Memory => write!(f, "no memory"),
        }
    }
}

fn file_text(fault: FileFault) -> &'static str
    ensures { result.now ≡ file_text fault }
{
    match fault {
        FileFault::Empty => "the file is empty",
        FileFault::Gzip => "the file is packed by gzip: unpack it first",
        FileFault::NotCapture => "the file is no capture: it begins neither as pcap nor as pcapng",
        FileFault::Version => "its version is none that is read",
        FileFault::Cut => "the file ends within it",
        FileFault::TooLong => "it is longer than any that is read",
        FileFault::Block => "its block is none of pcapng",
        FileFault::Interfaces => "its section has more than 1024 interfaces",
        FileFault::Resolution => "its interface counts finer moments than are read",
        FileFault::Read => "read failed",
        FileFault::Memory => "no memory",
    }
}

impl error::Error for TraceStop {}

/// The exit status of a program that ends with this fault: 1 for the capture, 4 for what is around it. Takes no memory.
pub fn status(stop: &TraceStop) -> u8
    ensures { result ≡ stop_status stop.now }
{
    match stop {
        TraceStop::File(FileFault::Read | FileFault::Memory)
        | TraceStop::Write
        | TraceStop::Answers
        | TraceStop::Memory => 4,
        TraceStop::File(_) | TraceStop::Moment | TraceStop::TooMany => 1,
    }
}
