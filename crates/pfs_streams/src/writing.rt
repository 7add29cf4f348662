//! Whole texts through a writer that may take a part at a time.

ghost use Rattle.std.specs.Prelude.{◌≡◌, ◌≤◌, ◌<◌, Some, true, false, OnOk, OnErr, take, length, codes, ℕ};
ghost use Rattle.std.specs.Io.KnownBytes.{Appends};
ghost use Rattle.pfs_streams.specs.Sinks.{write_failures, bytes_held, one_more, is_by_lines, is_unflushed, NotFlushed, OwesNoFlush};

use crate::sinks::Sink;
use std::io::Write;
use std::{error, fmt};

/// A text was not written whole: a write failed, or took nothing.
#[derive(Clone, Copy, Debug, PartialEq, Eq)]
pub struct WriteFailed;

impl fmt::Display for WriteFailed {
    ghost output = { λ _. Some (codes "write failed") };

    fn fmt<W: fmt::Write>(&self, f: &mut fmt::Formatter<W>) -> fmt::Result {
        write!(f, "write failed")
    }
}

impl error::Error for WriteFailed {}

/// Writes all of `bytes`, by as many writes as it takes, and stops at the first that fails or takes 0 bytes. Then `out`
/// holds what it held, and a front of `bytes` after it. Takes no memory of its own. A sink by lines is flushed then, and a
/// flush that fails is a failure; of another there is no flush.
pub fn write_whole<W: Write>(out: &mut Sink<W>, bytes: &[u8]) -> Result<(), WriteFailed>
    ensures ok { OnOk result (Appends (bytes_held W.contents out.old) (bytes_held W.contents out.new) bytes.now) }
    ensures still { OnOk result (write_failures out.new ≡ write_failures out.old) }
    ensures err { OnErr result ((k : ℕ) × (k ≤ length bytes.now) × Appends (bytes_held W.contents out.old) (bytes_held W.contents out.new) (take k bytes.now)) }
    ensures fails { OnErr result (write_failures out.new ≡ one_more (write_failures out.old)) }
    ensures by_lines { is_by_lines out.new ≡ is_by_lines out.old }
    ensures flushes { NotFlushed out.old out.new }
    ensures owes { OnOk result (OwesNoFlush out.new) }
    ensures kept_back { OnOk result (is_by_lines out.old ≡ false → 0 < length bytes.now → is_unflushed out.new ≡ true) }
{
    let mut at = 0;
    while at < bytes.len() {
        match out.write(&bytes[at..]) {
            Ok(0) | Err(_) => return Err(WriteFailed),
            Ok(n) => at += n,
        }
    }
    match out.pass_on() {
        Ok(()) => Ok(()),
        Err(_) => Err(WriteFailed),
    }
}
