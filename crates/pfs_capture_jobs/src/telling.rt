//! What is told on standard error, and the status that comes of it.

ghost use Rattle.std.specs.Prelude.{◌≡◌, ◌≢◌};
ghost use Rattle.std.specs.IoError.{error_kind};
ghost use Rattle.pfs_capture.specs.Faults.{stop_status};
ghost use Rattle.pfs_capture_jobs.specs.Mistakes.{kind_status, refusal_status};
ghost use Rattle.clap.specs.Words.{kind_of};

use crate::refusals::{Mistake, WordsRefusal};
use clap::Error;
use clap::error::ErrorKind as ClapKind;
use pfs_capture::{TraceStop, status};
use std::io::{self, ErrorKind};

/// Reports on standard error why the trace is not whole, after so many frames. The result is the status: 1 for a fault of the capture, 4
/// for what is around it. (pfstrace(1), EXIT STATUS)
pub fn tell_stop(rt: &HostRuntime, stop: &TraceStop, frames: u64) -> u8
    ensures { result ≡ stop_status stop.now }
{
    let status = status(stop);
    if status == 1 {
        let _ = eprintln!(rt; "capture: behind frame {frames}: {stop}");
    } else {
        let _ = eprintln!(rt; "{stop}");
    }
    status
}

/// Reports a mistake in the words; the status is 2. (pfstrace(1), EXIT STATUS)
pub fn tell_mistake(rt: &HostRuntime, mistake: Mistake) -> u8
    ensures { result ≡ 2 }
{
    let _ = eprintln!(rt; "error: {mistake}");
    2
}

/// Reports why there are no words to take. The status is 2 where one is not UTF-8, else 4: memory was refused.
/// (pfstrace(1), EXIT STATUS)
pub fn tell_no_words(rt: &HostRuntime, error: &io::Error) -> u8
    ensures text { error_kind error.now ≡ ErrorKind.InvalidData → result ≡ 2 }
    ensures memory { error_kind error.now ≢ ErrorKind.InvalidData → result ≡ 4 }
{
    if error.kind() == ErrorKind::InvalidData {
        return tell_mistake(rt, Mistake::NotText);
    }
    tell_stop(rt, &TraceStop::Memory, 0)
}

/// Reports why the words are refused. The status is 2 for words that are not understood, 4 where memory was refused, and 0 where they
/// ask for help or the version, which goes to standard output. (pfstrace(1), EXIT STATUS)
pub fn tell_refused(rt: &HostRuntime, refusal: &WordsRefusal) -> u8
    ensures { result ≡ refusal_status refusal.now }
{
    match refusal {
        WordsRefusal::Clap(error) => tell_error(rt, error),
        WordsRefusal::Mistake(mistake) => tell_mistake(rt, *mistake),
        WordsRefusal::Memory => tell_stop(rt, &TraceStop::Memory, 0),
    }
}

/// Reports what `clap` says of the words.
fn tell_error(rt: &HostRuntime, error: &Error) -> u8
    ensures { result ≡ kind_status (kind_of error.now) }
{
    let kind = error.kind();
    if let ClapKind::OutOfMemory = kind {
        return tell_stop(rt, &TraceStop::Memory, 0);
    }
    let _ = error.print(rt);
    match kind {
        ClapKind::DisplayHelp | ClapKind::DisplayVersion => 0,
        _ => 2,
    }
}
