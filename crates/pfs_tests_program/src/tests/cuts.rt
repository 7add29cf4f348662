//! Inputs that are cut, too long, or without an end, each on the call that reads it.

use super::fakes::Endless;
use super::reports::trace_of;
use super::runs::{replayed, tell, tell_joined};
use pfs_cli::{Kind, LoadFault, ReplayFault, check};
use pfs_conf::load;
use pfs_streams::{Feed, Sink};
use pfs_tests_cases::{HEADER, same};
use std::alloc::AllocGlobal;
use std::process::Abort;
use std::test::Fail;

const RULES: &[u8] = b"set timeout { adaptive.start 0, adaptive.end 0 }\n\
    set limit states 2\npass in proto udp all\n";

const RECORDS: &[u8] = b"5,in,em0,udp,198.51.100.1,1000,192.0.2.1,53,\n\
    5,in,em0,udp,198.51.100.2,1000,192.0.2.1,53,\n\
    5,in,em0,udp,198.51.100.3,1000,192.0.2.1,53,\n";

/// The line of each record, and the last line after so many of them.
const LINES: [&str; 3] = ["1 new @0\n", "2 new @0\n", "3 drop:states @0\n"];

const ENDS: [&str; 4] = [
    "end rows=0 states=0 nodes=0 entries=0\n",
    "end rows=1 states=1 nodes=0 entries=0\n",
    "end rows=2 states=2 nodes=0 entries=0\n",
    "end rows=3 states=2 nodes=0 entries=0\n",
];

const RULES_ARE_TOO_LONG: ReplayFault = ReplayFault::Rules(LoadFault {
    line: 0,
    kind: Kind::TooLong,
});

/// How many of these bytes are this one.
fn count_of(bytes: &[u8], wanted: u8) -> usize {
    bytes.iter().filter(|byte| **byte == wanted).count()
}

/// What is left of the records after a whole header: those that are whole, and whether another is begun. The last field
/// of each is empty, so a record is whole from its eighth comma on.
fn records_left(records: &[u8]) -> (usize, bool) {
    let commas = count_of(records, b',');
    let is_begun = commas % 8 != 0
        || !(records.is_empty() || records.ends_with(b",") || records.ends_with(b"\n"));
    (commas / 8, is_begun)
}

/// The first so many bytes, or all.
fn front(bytes: &[u8], count: usize) -> &[u8] {
    &bytes[..count.min(bytes.len())]
}

/// The replay of a trace that is cut after so many bytes. A header without its line feed is whole.
fn tell_cut(rt: &(impl Abort + AllocGlobal), trace: &[u8], cut: usize) -> Result<(), Fail> {
    let left = front(trace, cut);
    if cut < 43 {
        tell(rt, RULES, left, Err(ReplayFault::Columns(0)), b"");
        return Ok(());
    }
    let (whole, is_begun) = records_left(&left[HEADER.len().min(left.len())..]);
    let mut report = String::new(rt.alloc());
    for line in LINES.iter().take(whole) {
        report.push_str(line)?;
    }
    if is_begun {
        let fault = ReplayFault::Columns((whole as u64).wrapping_add(1));
        tell(rt, RULES, left, Err(fault), report.as_bytes());
        return Ok(());
    }
    if let Some(end) = ENDS.get(whole) {
        report.push_str(end)?;
    }
    tell(rt, RULES, left, Ok(()), report.as_bytes());
    Ok(())
}

#[test]
fn a_trace_is_cut_behind_each_byte(rt: HostRuntime) -> Result<(), Fail> {
    let trace = trace_of(rt.alloc(), RECORDS)?;
    for cut in 0..180 {
        tell_cut(&rt, &trace, cut)?;
    }
    Ok(())
}

const TEXT: &[u8] = b"set limit states 2\npass in proto udp all\n";

fn refused(line: u64, kind: Kind) -> Result<u32, LoadFault> {
    Err(LoadFault { line, kind })
}

/// What the text is read as when it is cut after so many bytes: how many rules there are, or the fault.
fn read_as(cut: usize) -> Result<u32, LoadFault> {
    match cut {
        0 | 18 | 19 => Ok(0),
        1..=4 | 9..=17 => refused(1, Kind::Syntax),
        5..=8 => refused(1, Kind::Unsupported),
        20..=22 | 25 | 28..=33 | 38 | 39 => refused(2, Kind::Syntax),
        34 | 35 => refused(2, Kind::Unsupported),
        _ => Ok(1),
    }
}

#[test]
fn rules_are_cut_behind_each_byte(rt: HostRuntime) {
    for cut in 0..42 {
        let told = load(rt.alloc(), front(TEXT, cut));
        same!(rt; told.map(|config| config.item_count()), read_as(cut), cut);
    }
    same!(rt; TEXT.len(), 41);
}

/// Such spaces, checked: what is written, and how it ends.
fn checked(
    rt: &(impl Abort + AllocGlobal),
    spaces: usize,
    outcome: Result<(), ReplayFault>,
    written: &[u8],
) -> Result<(), Fail> {
    let text = vec![in rt.alloc(); b' '; spaces]?;
    let mut rules = Feed::new(text.as_slice(), 999);
    let mut out = Sink::new(Vec::new(rt.alloc()));
    same!(rt; check(rt.alloc(), &mut rules, &mut out), outcome);
    same!(rt; out.into_inner().as_slice(), written);
    Ok(())
}

#[test]
fn inputs_are_malformed(rt: HostRuntime) -> Result<(), Fail> {
    let trace = trace_of(rt.alloc(), RECORDS)?;
    let two = b"1 new @0\n2 new @0\n".as_slice();
    let short = front(&trace, 177);
    tell(&rt, RULES, short, Err(ReplayFault::Columns(3)), two);
    let whole = b"1 new @0\n2 new @0\n3 drop:states @0\nend rows=3 states=2 nodes=0 entries=0\n";
    tell(&rt, RULES, front(&trace, 178), Ok(()), whole);
    let two_and_end = b"1 new @0\n2 new @0\nend rows=2 states=2 nodes=0 entries=0\n";
    tell(&rt, RULES, front(&trace, 134), Ok(()), two_and_end);
    tell(&rt, RULES, b"time,dir", Err(ReplayFault::Columns(0)), b"");
    tell_joined(
        &rt,
        b"pass in proto udp all\n",
        Err(ReplayFault::Columns(0)),
        b"",
    );
    checked(&rt, 1_048_576, Ok(()), b"ok items=0 tables=0 entries=0\n")?;
    checked(&rt, 1_048_577, Err(RULES_ARE_TOO_LONG), b"")?;
    for (bound, fault) in [(100, ReplayFault::Endless), (2_000_000, RULES_ARE_TOO_LONG)] {
        let writer = Vec::new(rt.alloc());
        let (told, _, _, written) = replayed(
            rt.alloc(),
            Endless(b' '),
            HEADER.as_bytes(),
            writer,
            bound,
        );
        same!(rt; told, Err(fault));
        same!(rt; written.len(), 0);
    }
    Ok(())
}
