//! The program: it opens the captures that its words name, writes their trace, and to another file what pf answered.
//! It reports the account of its frames on standard error, and ends with the status of what stopped it.

#![tactic(auto)]

use pfs_capture::{Account, Capture, Feed, FileFault, TraceStop, sink_of, write_trace};
use pfs_capture_jobs::{
    CaptureSource, Mistake, Output, TraceRequest, create_anew, groups_of, is_capture, request,
    tell_mistake, tell_no_words, tell_refused, tell_stop,
};
use pfs_words::{Input, texts_of, words};
use std::fs::File;
use std::io::{self, BufReader, BufWriter, Write};
use std::process::ExitCode;

fn main(rt: HostRuntime) -> ExitCode {
    ExitCode::from(run(&rt))
}

fn run(rt: &HostRuntime) -> u8 {
    let words = match words(rt) {
        Ok(words) => words,
        Err(error) => return tell_no_words(rt, &error),
    };
    let Ok(texts) = texts_of(rt, &words) else {
        return tell_stop(rt, &TraceStop::Memory, 0);
    };
    match groups_of(rt.alloc(), texts.as_slice()) {
        Ok(groups) => trace_groups(rt, groups.as_slice()),
        Err(_) => tell_stop(rt, &TraceStop::Memory, 0),
    }
}

/// Writes the trace that groups of words ask for; the status.
fn trace_groups(rt: &HostRuntime, groups: &[Vec<&str>]) -> u8 {
    match request(rt.alloc(), groups) {
        Ok(request) => trace_request(rt, request),
        Err(refusal) => tell_refused(rt, &refusal),
    }
}

/// Writes the trace that is asked for; the status.
fn trace_request(rt: &HostRuntime, request: TraceRequest<'_>) -> u8 {
    let output = request.output;
    for source in &request.sources {
        if is_capture(rt, output.answers, source.name.unwrap_or("/dev/stdin")) {
            return tell_mistake(rt, Mistake::AnswersAreCapture);
        }
    }
    match open_all(rt, request.sources) {
        Ok(mut captures) => trace_captures(rt, &mut captures, output),
        Err(stop) => tell_stop(rt, &stop, 0),
    }
}

/// What is read of a capture.
type Reader = Input<BufReader<File>>;

/// Opens the file of each capture, before one is read.
fn open_all(
    rt: &HostRuntime,
    sources: Vec<CaptureSource<'_>>,
) -> Result<Vec<Capture<Reader>>, TraceStop> {
    let mut captures = Vec::new(rt.alloc());
    for source in sources {
        let reader = Feed::of_capture(open(rt, source.name)?);
        let capture = Capture::new(rt.alloc(), source.points, reader);
        if captures.push(capture).is_err() {
            return Err(TraceStop::Memory);
        }
    }
    Ok(captures)
}

/// The file of this name, or standard input where no file is named.
fn open(rt: &HostRuntime, name: Option<&str>) -> Result<Reader, TraceStop> {
    let Some(name) = name else {
        return Ok(Input::Standard(rt.reader()));
    };
    let Ok(file) = File::open(rt, name) else {
        return Err(TraceStop::File(FileFault::Read));
    };
    match BufReader::new(rt.alloc(), file) {
        Ok(file) => Ok(Input::File(file)),
        Err(_) => Err(TraceStop::Memory),
    }
}

/// Writes the trace of captures, and what pf answered to the file of this name, if one is given; the status.
fn trace_captures(rt: &HostRuntime, captures: &mut [Capture<Reader>], output: Output<'_>) -> u8 {
    let by_lines = output.by_lines;
    let Some(name) = output.answers else {
        return trace_into(rt, captures, by_lines, io::sink());
    };
    let Ok(file) = create_anew(rt, name) else {
        let _ = eprintln!(rt; "--answers: the file can't be written");
        return 4;
    };
    match BufWriter::new(rt.alloc(), file) {
        Ok(file) => trace_into(rt, captures, by_lines, file),
        Err(_) => tell_stop(rt, &TraceStop::Memory, 0),
    }
}

/// Writes the trace to standard output, and what pf answered to a writer, and reports the account; the status.
fn trace_into<T: Write + Drop>(
    rt: &HostRuntime,
    captures: &mut [Capture<Reader>],
    by_lines: bool,
    answers: T,
) -> u8 {
    let Ok(out) = BufWriter::new(rt.alloc(), io::writer(rt)) else {
        return tell_stop(rt, &TraceStop::Memory, 0);
    };
    let mut out = sink_of(by_lines, out);
    let mut answers = sink_of(by_lines, answers);
    let mut account = Account::new();
    let ended = write_trace(rt.alloc(), captures, &mut out, &mut answers, &mut account);
    // At a fault the rows before it are to be seen all the same.
    let flushed = out.into_inner().flush();
    let answers_flushed = answers.into_inner().flush();
    // Where a reader of the trace has gone away, nobody asks for the account.
    if let Err(TraceStop::Write) = ended {
        return tell_stop(rt, &TraceStop::Write, 0);
    }
    let directions = account.directions;
    let _ = eprintln!(rt; "{account}\n{directions}");
    match ended {
        Err(stop) => tell_stop(rt, &stop, account.frames),
        Ok(()) if flushed.is_err() => tell_stop(rt, &TraceStop::Write, 0),
        Ok(()) if answers_flushed.is_err() => tell_stop(rt, &TraceStop::Answers, 0),
        Ok(()) => 0,
    }
}
