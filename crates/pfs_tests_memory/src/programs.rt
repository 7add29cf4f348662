//! The calls of the program: replays, what is reported of rules, and the words of the command line.

ghost use Rattle.std.specs.Prelude.{IfOk};
ghost use Rattle.pfs_streams.specs.Sinks.{OwesNoFlush};

use crate::rules_texts::{FULL, NODES, OVERLOAD};
use crate::telling::{Teller, TellingStop, begin, begin_free, end, plain, refused, wrong};
use clap::error::ErrorKind;
use pfs_cli::{
    Feed, Job, ReplayFault, Sink, Tally, check, job, perform, print, replay, replay_joined, status,
};
use pfs_tests_cases::{EVERYTHING, SHOWN};

/// Rules, a trace, and its report.
type ProgramRow = (&'static [u8], &'static [u8], &'static [u8]);

const TRACES: &[ProgramRow] = &[
    (
        NODES,
        b"time,dir,if,proto,src,sport,dst,dport,flags\n\
        0,in,em0,udp,198.51.100.1,1,192.0.2.1,53,\n10,in,em0,udp,198.51.100.2,1,192.0.2.1,53,\n\
        30,in,em0,udp,198.51.100.2,1,192.0.2.1,53,\n",
        b"1 new @0\n2 drop:max-src-nodes @0\n3 new @0\nend rows=3 states=1 nodes=1 entries=0\n",
    ),
    (
        OVERLOAD,
        b"time,dir,if,proto,src,sport,dst,dport,flags\n\
        0,in,em0,udp,198.51.100.1,53000,192.0.2.1,53,\n\
        0,in,em0,tcp,198.51.100.1,1000,192.0.2.1,80,S\n0,out,em0,tcp,192.0.2.1,80,198.51.100.1,1000,SA\n\
        0,in,em0,tcp,198.51.100.1,1000,192.0.2.1,80,A\n\
        0,in,em0,tcp,198.51.100.1,1001,192.0.2.1,80,S\n0,out,em0,tcp,192.0.2.1,80,198.51.100.1,1001,SA\n\
        0,in,em0,tcp,198.51.100.1,1001,192.0.2.1,80,A\n0,in,em0,tcp,198.51.100.1,1002,192.0.2.1,80,S\n",
        b"1 new @1\n2 new @2\n3 state @2\n4 state @2\n5 new @2\n6 state @2\n\
        7 kill:max-src-conn @2 overload=added killed=2\n8 block @0\nend rows=8 states=1 nodes=1 entries=1\n",
    ),
    (
        FULL,
        b"time,dir,if,proto,src,sport,dst,dport,flags\n\
        0,in,em0,tcp,198.51.100.1,1000,192.0.2.1,80,S\n0,out,em0,tcp,192.0.2.1,80,198.51.100.1,1000,SA\n\
        0,in,em0,tcp,198.51.100.1,1000,192.0.2.1,80,A\n\
        0,in,em0,tcp,198.51.100.1,1001,192.0.2.1,80,S\n0,out,em0,tcp,192.0.2.1,80,198.51.100.1,1001,SA\n\
        0,in,em0,tcp,198.51.100.1,1001,192.0.2.1,80,A\n",
        b"1 new @0\n2 state @0\n3 state @0\n4 new @0\n5 state @0\n\
        6 kill:max-src-conn @0 overload=full killed=1\nend rows=6 states=1 nodes=1 entries=1\n",
    ),
    (
        OVERLOAD,
        b"time,dir,if,proto,src,sport,dst,dport,flags\n\
        0,held,,,,,,,\n0,add,bad,,198.51.100.0/24,,,,\n0,in,em0,udp,198.51.100.1,1,192.0.2.1,53,\n\
        1,add,bad,,!198.51.100.1,,,,\n1,in,em0,udp,198.51.100.1,1,192.0.2.1,53,\n\
        2,add,bad,,198.51.100.1,,,,\n2,delete,bad,,198.51.100.0/24,,,,\n2,held,,,,,,,\n",
        b"1 held - states=0 nodes=0 entries=0\n2 add - added\n3 block @0\n4 add - added\n5 new @1\n\
        6 add - conflict\n7 delete - removed=1\n8 held - states=1 nodes=0 entries=1\n\
        end rows=8 states=1 nodes=0 entries=1\n",
    ),
];

const COUNTS: &[u8] = b"ok items=3 tables=2 entries=2\n";

/// Words of a command line, and what they ask for; nothing where they are refused.
type Words = (&'static [&'static str], Option<Job<'static>>);

const WORDS: &[Words] = &[
    (&["pfsrc"], Some(Job::Joined)),
    (&["pfsrc", "check", "r"], Some(Job::Check("r"))),
    (&["pfsrc", "show", "r"], Some(Job::Show("r"))),
    (&["pfsrc", "replay", "r", "t"], Some(Job::Replay("r", "t"))),
    (&["pfsrc", "replay", "r"], None),
    (&["pfsrc", "run"], None),
];

/// Replays of rules and traces, apart and in one text.
pub fn tell_replays(teller: &Teller) -> Result<(), TellingStop> {
    for row in TRACES {
        if !replay_one(teller, row)? {
            replay_one(teller, row)?;
        }
        if !perform_replay(teller, row)? {
            perform_replay(teller, row)?;
        }
        tell_joined(teller, row)?;
    }
    Ok(())
}

fn tell_joined(teller: &Teller, row: &ProgramRow) -> Result<(), TellingStop> {
    let mut text = Vec::from_slice(teller.alloc(), row.0)?;
    text.extend_from_slice(b"%%\n")?;
    text.extend_from_slice(row.1)?;
    if !joined_one(teller, &text, row.2)? {
        joined_one(teller, &text, row.2)?;
    }
    if !perform_joined(teller, &text, row.2)? {
        perform_joined(teller, &text, row.2)?;
    }
    Ok(())
}

/// Room for all that is written: so no write needs more.
fn sink(teller: &Teller) -> Result<Sink<Vec<u8>>, TellingStop>
    ensures { IfOk result OwesNoFlush }
{
    Ok(Sink::new(Vec::with_capacity(teller.alloc(), 4096)?))
}

fn replay_one(teller: &Teller, row: &ProgramRow) -> Result<bool, TellingStop> {
    let mut out = sink(teller)?;
    let mut rules = Feed::new(row.0, 99);
    let mut trace = Feed::new(row.1, 99);
    begin(teller, "replay")?;
    let answer = replay(
        teller.alloc(),
        &mut rules,
        &mut trace,
        &mut Tally::none(),
        &mut out,
    );
    end(teller)?;
    tell_report(teller, answer, &out.into_inner(), row.2)
}

fn perform_replay(teller: &Teller, row: &ProgramRow) -> Result<bool, TellingStop> {
    let (answer, written) = performed(
        teller,
        "perform replay",
        &Job::Replay("r", "t"),
        row.0,
        row.1,
    )?;
    tell_report(teller, answer, &written, row.2)
}

/// The answer to a job over two texts, and what it wrote.
fn performed(
    teller: &Teller,
    name: &'static str,
    task: &Job,
    rules: &[u8],
    trace: &[u8],
) -> Result<(Result<(), ReplayFault>, Vec<u8>), TellingStop> {
    let mut out = sink(teller)?;
    let mut rules = Feed::new(rules, 99);
    let mut trace = Feed::new(trace, 99);
    begin(teller, name)?;
    let answer = perform(
        teller.alloc(),
        task,
        &mut rules,
        &mut trace,
        &mut Tally::none(),
        &mut out,
    );
    end(teller)?;
    Ok((answer, out.into_inner()))
}

fn joined_one(teller: &Teller, text: &[u8], report: &[u8]) -> Result<bool, TellingStop> {
    let mut out = sink(teller)?;
    let mut input = Feed::new(text, 99);
    begin(teller, "replay_joined")?;
    let answer = replay_joined(teller.alloc(), &mut input, &mut Tally::none(), &mut out);
    end(teller)?;
    tell_report(teller, answer, &out.into_inner(), report)
}

fn perform_joined(teller: &Teller, text: &[u8], report: &[u8]) -> Result<bool, TellingStop> {
    let (answer, written) = performed(teller, "perform joined", &Job::Joined, text, b"")?;
    tell_report(teller, answer, &written, report)
}

/// The report; or, out of memory, whole lines of it, without the last.
fn tell_report(
    teller: &Teller,
    answer: Result<(), ReplayFault>,
    written: &[u8],
    report: &[u8],
) -> Result<bool, TellingStop> {
    judge(
        teller,
        answer,
        written == report,
        are_first_lines(written, report),
    )
}

/// Whether all was written; or, out of memory, whether what was written may be.
fn judge(
    teller: &Teller,
    answer: Result<(), ReplayFault>,
    is_whole: bool,
    is_front: bool,
) -> Result<bool, TellingStop> {
    match answer {
        Ok(()) => plain(teller, is_whole),
        Err(ReplayFault::Memory) => refused(teller, is_front),
        Err(_) => wrong(teller),
    }
}

fn are_first_lines(written: &[u8], report: &[u8]) -> bool {
    written.len() < report.len()
        && report.starts_with(written)
        && (written.is_empty() || written.ends_with(b"\n"))
}

/// What is reported of rules, and the words of the command line.
pub fn tell_jobs(teller: &Teller) -> Result<(), TellingStop> {
    for (name, text) in &[("check", COUNTS), ("print", SHOWN)] {
        if !tell_one(teller, name, text)? {
            tell_one(teller, name, text)?;
        }
    }
    for (task, text) in &[(Job::Check("r"), COUNTS), (Job::Show("r"), SHOWN)] {
        if !perform_one(teller, task, text)? {
            perform_one(teller, task, text)?;
        }
    }
    for row in WORDS {
        if !job_one(teller, row)? {
            job_one(teller, row)?;
        }
    }
    status_one(teller)
}

/// The call of this name, `check` or `print`.
fn tell_one(teller: &Teller, name: &'static str, text: &[u8]) -> Result<bool, TellingStop> {
    let mut out = sink(teller)?;
    let mut rules = Feed::new(EVERYTHING, 99);
    begin(teller, name)?;
    let answer = match name {
        "print" => print(teller.alloc(), &mut rules, &mut out),
        _ => check(teller.alloc(), &mut rules, &mut out),
    };
    end(teller)?;
    let written = out.into_inner();
    judge(
        teller,
        answer,
        written.as_slice() == text,
        text.starts_with(&written),
    )
}

fn perform_one(teller: &Teller, task: &Job, text: &[u8]) -> Result<bool, TellingStop> {
    let (answer, written) = performed(teller, "perform check or show", task, EVERYTHING, b"")?;
    judge(
        teller,
        answer,
        written.as_slice() == text,
        text.starts_with(&written),
    )
}

fn job_one(teller: &Teller, row: &Words) -> Result<bool, TellingStop> {
    let (words, wanted) = *row;
    begin(teller, "job")?;
    let answer = job(teller.alloc(), words);
    end(teller)?;
    match answer {
        Ok(task) => plain(teller, wanted == Some(task)),
        Err(error) => match error.kind() {
            ErrorKind::OutOfMemory => refused(teller, true),
            ErrorKind::InvalidSubcommand | ErrorKind::MissingRequiredArgument => {
                plain(teller, wanted.is_none())
            }
            _ => wrong(teller),
        },
    }
}

fn status_one(teller: &Teller) -> Result<(), TellingStop> {
    begin_free(teller, "status")?;
    let code = status(&ReplayFault::Memory);
    end(teller)?;
    plain(teller, code == 4)?;
    Ok(())
}
