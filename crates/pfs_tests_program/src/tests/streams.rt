//! Bounded readers, and writers whose failures are counted.

use super::fakes::{Halting, Narrow, narrow_writer};
use pfs_streams::{Feed, Sink, write_whole};
use pfs_tests_cases::{holds, same};
use std::alloc::Global;
use std::io::{ErrorKind, Read, Write};
use std::test::Fail;

/// A reader of a text that fails after so many reads, read at most so often.
fn feed_of(text: &'static [u8], good: usize, reads: u64) -> Feed<Halting<'static>> {
    Feed::new(Halting { text, good }, reads)
}

fn sink_of(alloc: Global, width: usize, room: usize) -> Sink<Narrow> {
    Sink::new(narrow_writer(alloc, width, room))
}

#[test]
fn a_feed_gives_its_bytes_and_ends(rt: HostRuntime) -> Result<(), Fail> {
    let mut feed = feed_of(b"ab", 3, 3);
    let mut buf = [0; 4];
    same!(rt; feed.read(&mut [])?, 0);
    same!(rt; feed.read(&mut buf)?, 1);
    same!(rt; buf[0], b'a');
    same!(rt; feed.read(&mut buf)?, 1);
    same!(rt; buf[0], b'b');
    holds!(rt; !feed.spent());
    // The third read finds the end. A fourth of the reader would fail.
    same!(rt; feed.read(&mut buf)?, 0);
    same!(rt; feed.read(&mut buf)?, 0);
    holds!(rt; !feed.spent());
    same!(rt; feed.failures(), 0);
    Ok(())
}

#[test]
fn a_feed_stops_at_its_bound(rt: HostRuntime) -> Result<(), Fail> {
    let mut feed = feed_of(b"abc", 9, 2);
    let mut buf = [0; 4];
    same!(rt; feed.read(&mut buf)?, 1);
    holds!(rt; !feed.spent());
    same!(rt; feed.read(&mut buf)?, 1);
    holds!(rt; feed.spent());
    same!(rt; feed.read(&mut [])?, 0);
    holds!(rt; feed.read(&mut buf).is_err());
    holds!(rt; feed.spent());
    same!(rt; feed.failures(), 0);
    Ok(())
}

#[test]
fn a_feed_fails_once_with_its_reader(rt: HostRuntime) -> Result<(), Fail> {
    let mut feed = feed_of(b"abc", 1, 9);
    let mut buf = [0; 4];
    same!(rt; feed.read(&mut buf)?, 1);
    for _ in 0..3 {
        match feed.read(&mut buf) {
            Ok(_) => holds!(rt; false),
            Err(e) => holds!(rt; e.kind() == ErrorKind::Other),
        }
        same!(rt; feed.failures(), 1);
    }
    holds!(rt; !feed.spent());
    Ok(())
}

#[test]
fn a_lent_feed_comes_back_with_what_was_read(rt: HostRuntime) -> Result<(), Fail> {
    let mut feed = feed_of(b"abc", 2, 9);
    let mut buf = [0; 4];
    same!(rt; feed.read(&mut buf)?, 1);
    let begun = feed.reads();
    let mut lent = feed.lend();
    same!(rt; lent.read(&mut buf)?, 1);
    holds!(rt; lent.read(&mut buf).is_err());
    let back = lent.give_back(begun);
    feed.resume(back);
    same!(rt; feed.failures(), 1);
    Ok(())
}

#[test]
fn a_text_is_written_a_byte_at_a_time(rt: HostRuntime) -> Result<(), Fail> {
    let mut out = sink_of(rt.alloc(), 1, 9);
    write_whole(&mut out, b"abc")?;
    write_whole(&mut out, b"")?;
    out.flush()?;
    same!(rt; out.failures(), 0);
    let writer = out.into_inner();
    same!(rt; writer.taken.as_slice(), b"abc".as_slice());
    same!(rt; writer.room, 6);
    same!(rt; writer.flushes, 1);
    Ok(())
}

#[test]
fn a_text_is_cut_where_a_write_fails(rt: HostRuntime) -> Result<(), Fail> {
    let mut out = sink_of(rt.alloc(), 1, 2);
    holds!(rt; write_whole(&mut out, b"abc").is_err());
    same!(rt; out.failures(), 1);
    holds!(rt; out.flush().is_err());
    same!(rt; out.failures(), 2);
    holds!(rt; out.write(b"").is_err());
    same!(rt; out.failures(), 3);
    let writer = out.into_inner();
    same!(rt; writer.taken.as_slice(), b"ab".as_slice());
    Ok(())
}

#[test]
fn a_write_that_takes_nothing_is_a_failure(rt: HostRuntime) -> Result<(), Fail> {
    let mut out = sink_of(rt.alloc(), 0, 9);
    same!(rt; out.write(b"")?, 0);
    same!(rt; out.failures(), 0);
    match write_whole(&mut out, b"abc") {
        Ok(()) => holds!(rt; false),
        Err(e) => same!(rt; e.to_string(rt.alloc())?.as_str(), "write failed"),
    }
    same!(rt; out.failures(), 1);
    let writer = out.into_inner();
    same!(rt; writer.taken.as_slice(), b"".as_slice());
    Ok(())
}
