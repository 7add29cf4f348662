//! A writer whose failures are counted.

ghost use Rattle.std.specs.Prelude.{◌≡◌, ◌⊎◌, ◌<◌, true, false, length, IfOk, OnOk, OnErr};
ghost use Rattle.std.specs.Io.{WritesAtMost};
ghost use Rattle.std.specs.Io.KnownBytes.{WriteAppends, Keeps};
ghost use Rattle.pfs_streams.specs.Sinks.{SinkView, writer_of, write_failures, bytes_held, flushes_of, one_more, is_by_lines, is_unflushed, OwesNoFlush};

use std::io;
use std::io::{Error, Write};
use std::marker::Model;

/// A writer, how often it failed and was asked to flush, and whether it owes a flush. Nothing is kept back: each write goes to the writer.
///
/// A sink by lines is flushed after each text that `write_whole` writes, so that a reader sees each line as it comes.
/// No contract of a writer can say that it was flushed. So "nothing is unflushed" is said here as far as it can be: a
/// write that takes a byte ends it, and a flush that works brings it back.
#[derive(Debug, Drop)]
pub struct Sink<W> {
    writer: W,
    failures: u64,
    flushes: u64,
    by_lines: bool,
    unflushed: bool,
}

impl<W> Model for Sink<W> {
    ghost Value = { SinkView W };

    ghost view = { λ s. record { writer = s.writer; failures = s.failures; flushes = s.flushes; by_lines = s.by_lines; unflushed = s.unflushed } };
}

/// A sink of `writer` that has written nothing: by lines if that is asked for.
pub fn sink_of<W>(by_lines: bool, writer: W) -> Sink<W>
    ensures { result ≡ record { writer = writer; failures = 0; flushes = 0; by_lines = by_lines; unflushed = false } }
{
    Sink {
        writer,
        failures: 0,
        flushes: 0,
        by_lines,
        unflushed: false,
    }
}

impl<W> Sink<W> {
    /// A sink of `writer` that has written nothing and has not failed. It is flushed only where `flush` is called.
    pub fn new(writer: W) -> Sink<W>
        ensures writer { writer_of result ≡ writer }
        ensures fresh { (write_failures result ≡ 0) × (flushes_of result ≡ 0) }
        ensures by_lines { is_by_lines result ≡ false }
        ensures flushed { is_unflushed result ≡ false }
    {
        sink_of(false, writer)
    }

    /// The same, but each text that `write_whole` writes is flushed at once.
    pub fn line_buffered(writer: W) -> Sink<W>
        ensures writer { writer_of result ≡ writer }
        ensures fresh { (write_failures result ≡ 0) × (flushes_of result ≡ 0) }
        ensures by_lines { is_by_lines result ≡ true }
        ensures flushed { is_unflushed result ≡ false }
    {
        sink_of(true, writer)
    }

    /// How many writes failed or took 0 bytes of a slice that is not empty, and how many
    /// flushes failed. The count stays at the greatest `u64`.
    pub fn failures(&self) -> u64
        ensures { result ≡ write_failures self.now }
    {
        self.failures
    }

    /// Counts a failure, up to the greatest `u64`.
    fn count_failure(&mut self)
        ensures { self.new ≡ record self.old { failures = one_more self.old.failures } }
    {
        self.failures = self.failures.saturating_add(1);
    }

    /// Counts a failure, and gives it back.
    fn failed(&mut self, error: Error) -> Error
        ensures counted { self.new ≡ record self.old { failures = one_more self.old.failures } }
        ensures same { result ≡ error }
    {
        self.count_failure();
        error
    }

    /// The writer, with what was written.
    pub fn into_inner(self) -> W
        ensures { result ≡ writer_of self }
    {
        self.writer
    }
}

impl<W: Write> Sink<W> {
    /// One write of the writer, which may take a part of `bytes` alone. Its answer is passed
    /// on; at an error nothing is written. Takes no memory of its own.
    pub fn write(&mut self, bytes: &[u8]) -> io::Result<usize>
        ensures bound { WritesAtMost result bytes.now }
        ensures bytes { WriteAppends (bytes_held W.contents self.old) (bytes_held W.contents self.new) result bytes.now }
        ensures takes { IfOk result (λ n. (0 < n) ⊎ (length bytes.now ≡ 0) → write_failures self.new ≡ write_failures self.old) }
        ensures takes_none { result ≡ Ok 0 → 0 < length bytes.now → write_failures self.new ≡ one_more (write_failures self.old) }
        ensures fails { OnErr result (write_failures self.new ≡ one_more (write_failures self.old)) }
        ensures by_lines { is_by_lines self.new ≡ is_by_lines self.old }
        ensures flushes { flushes_of self.new ≡ flushes_of self.old }
        ensures unflushed { IfOk result (λ n. (0 < n → is_unflushed self.new ≡ true) × (n ≡ 0 → is_unflushed self.new ≡ is_unflushed self.old)) }
        ensures unwritten { OnErr result (is_unflushed self.new ≡ is_unflushed self.old) }
    {
        match self.writer.write(bytes) {
            Ok(n) => {
                if n > 0 {
                    self.unflushed = true;
                } else if !bytes.is_empty() {
                    self.count_failure();
                }
                Ok(n)
            }
            Err(error) => Err(self.failed(error)),
        }
    }

    /// One flush of the writer, which is counted, up to the greatest `u64`. Its answer is passed on. What was written
    /// stays. Takes no memory of its own.
    pub fn flush(&mut self) -> io::Result<()>
        ensures bytes { Keeps (bytes_held W.contents self.old) (bytes_held W.contents self.new) }
        ensures still { OnOk result (write_failures self.new ≡ write_failures self.old) }
        ensures fails { OnErr result (write_failures self.new ≡ one_more (write_failures self.old)) }
        ensures by_lines { is_by_lines self.new ≡ is_by_lines self.old }
        ensures flushes { flushes_of self.new ≡ one_more (flushes_of self.old) }
        ensures flushed { OnOk result (is_unflushed self.new ≡ false) }
        ensures unflushed { OnErr result (is_unflushed self.new ≡ is_unflushed self.old) }
    {
        self.flushes = self.flushes.saturating_add(1);
        match self.writer.flush() {
            Ok(()) => {
                self.unflushed = false;
                Ok(())
            }
            Err(error) => Err(self.failed(error)),
        }
    }

    /// Flushes a sink by lines to which a byte was written after the last flush that worked; else it does nothing.
    /// What was written stays. Takes no memory of its own.
    pub fn pass_on(&mut self) -> io::Result<()>
        ensures bytes { Keeps (bytes_held W.contents self.old) (bytes_held W.contents self.new) }
        ensures passes { OnOk result (write_failures self.new ≡ write_failures self.old) }
        ensures fails { OnErr result (write_failures self.new ≡ one_more (write_failures self.old)) }
        ensures by_lines { is_by_lines self.new ≡ is_by_lines self.old }
        ensures owes { OnOk result (OwesNoFlush self.new) }
        ensures asks { is_by_lines self.old ≡ true → is_unflushed self.old ≡ true → flushes_of self.new ≡ one_more (flushes_of self.old) }
        ensures untouched { is_by_lines self.old ≡ false → self.new ≡ self.old }
    {
        if self.by_lines && self.unflushed {
            return self.flush();
        }
        Ok(())
    }
}
