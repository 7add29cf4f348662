//! Readers and writers in memory that end, fail or stall at a given turn.

use std::alloc::Global;
use std::io;
use std::io::{Error, ErrorKind, Read, Write};

/// A reader that gives one byte at each read, and fails at each read after the first `good`.
#[derive(Drop)]
pub struct Halting<'a> {
    pub text: &'a [u8],
    pub good: usize,
}

impl Read for Halting<'_> {
    fn read(&mut self, buf: &mut [u8]) -> io::Result<usize> {
        if self.good == 0 {
            return Err(Error::new(ErrorKind::Interrupted, "halted"));
        }
        self.good -= 1;
        if buf.is_empty() {
            return Ok(0);
        }
        let Some((first, rest)) = self.text.split_first() else {
            return Ok(0);
        };
        buf[0] = *first;
        self.text = rest;
        Ok(1)
    }
}

/// A reader that gives at most `width` bytes at each read, and fails at each read after the first `good`.
#[derive(Drop)]
pub struct Pieces<'a> {
    pub text: &'a [u8],
    pub width: usize,
    pub good: usize,
}

impl Read for Pieces<'_> {
    fn read(&mut self, buf: &mut [u8]) -> io::Result<usize> {
        if self.good == 0 {
            return Err(Error::new(ErrorKind::Other, "halted"));
        }
        self.good -= 1;
        let n = self.width.min(buf.len()).min(self.text.len());
        let (front, rest) = self.text.split_at(n);
        buf[..n].copy_from_slice(front);
        self.text = rest;
        Ok(n)
    }
}

/// A reader that gives this byte at each read, for ever.
#[derive(Drop)]
pub struct Endless(pub u8);

impl Read for Endless {
    fn read(&mut self, buf: &mut [u8]) -> io::Result<usize> {
        if buf.is_empty() {
            return Ok(0);
        }
        buf[0] = self.0;
        Ok(1)
    }
}

/// A writer that counts its flushes, and how many of its bytes are flushed.
#[derive(Drop)]
pub struct Shown {
    pub taken: Vec<u8>,
    pub shown: usize,
    pub flushes: u64,
}

impl Write for Shown {
    fn write(&mut self, buf: &[u8]) -> io::Result<usize> {
        self.taken.extend_from_slice(buf)?;
        Ok(buf.len())
    }

    fn flush(&mut self) -> io::Result<()> {
        self.shown = self.taken.len();
        self.flushes = self.flushes.saturating_add(1);
        Ok(())
    }
}

/// Such a writer, to which nothing was written yet.
pub fn shown_writer(alloc: Global) -> Shown {
    Shown {
        taken: Vec::new(alloc),
        shown: 0,
        flushes: 0,
    }
}

/// A writer that takes at most `width` bytes at each write, fails after `room` writes, or takes nothing more if it stalls, and counts
/// its flushes.
#[derive(Drop)]
pub struct Narrow {
    pub taken: Vec<u8>,
    pub width: usize,
    pub room: usize,
    pub stalls: bool,
    pub flushes: u64,
}

impl Write for Narrow {
    fn write(&mut self, buf: &[u8]) -> io::Result<usize> {
        if self.room == 0 && self.stalls {
            return Ok(0);
        }
        if self.room == 0 {
            return Err(Error::new(ErrorKind::Other, "full"));
        }
        self.room -= 1;
        let n = buf.len().min(self.width);
        self.taken.extend_from_slice(&buf[..n])?;
        Ok(n)
    }

    fn flush(&mut self) -> io::Result<()> {
        if self.room == 0 {
            return Err(Error::new(ErrorKind::Other, "full"));
        }
        self.flushes = self.flushes.saturating_add(1);
        Ok(())
    }
}

/// Such a writer, to which nothing was written yet.
pub fn narrow_writer(alloc: Global, width: usize, room: usize) -> Narrow {
    Narrow {
        taken: Vec::new(alloc),
        width,
        room,
        stalls: false,
        flushes: 0,
    }
}
