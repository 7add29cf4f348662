//! The program: it opens the files that its words name, performs the job, reports a fault on standard error, and ends with the
//! fault's status.
#![tactic(auto)]

use clap::Error;
use clap::error::ErrorKind;
use pfs_cli::{Feed, ReplayFault, Request, Tally, perform, request, sink_of, status};
use pfs_words::{Input, texts_of, words};
use std::fs::File;
use std::io::{self, BufWriter, Write};
use std::process::ExitCode;

fn main(rt: HostRuntime) -> ExitCode {
    ExitCode::from(run(&rt))
}

fn run(rt: &HostRuntime) -> u8 {
    let words = match words(rt) {
        Ok(words) => words,
        Err(error) => return report_unreadable_words(rt, &error),
    };
    let Ok(words) = texts_of(rt, &words) else {
        return report_fault(rt, &ReplayFault::Memory);
    };
    match request(rt.alloc(), words.as_slice()) {
        Ok(request) => match perform_request(rt, &request) {
            Ok(()) => 0,
            Err(fault) => report_fault(rt, &fault),
        },
        Err(refusal) => report_refused_words(rt, &refusal),
    }
}

/// Performs the job over the files that it names, and over standard input where it names none. All files are opened before one
/// is read.
fn perform_request(rt: &HostRuntime, request: &Request) -> Result<(), ReplayFault> {
    let Ok(out) = BufWriter::new(rt.alloc(), io::writer(rt)) else {
        return Err(ReplayFault::Memory);
    };
    let mut out = sink_of(request.by_lines, out);
    let (rules, trace) = request.job.files();
    let rules = open(rt, rules)?;
    let trace = open(rt, trace)?;
    let answer = perform(
        rt.alloc(),
        &request.job,
        &mut Feed::of_input(rules),
        &mut Feed::of_input(trace),
        &mut Tally::none(),
        &mut out,
    );
    // At a fault nothing was flushed, and the lines before it are to be seen all the same.
    let _ = out.into_inner().flush();
    answer
}

/// The file of this name, or standard input where no file is named.
fn open(rt: &HostRuntime, name: Option<&str>) -> Result<Input<File>, ReplayFault> {
    match name {
        Some(name) => match File::open(rt, name) {
            Ok(file) => Ok(Input::File(file)),
            Err(_) => Err(ReplayFault::Read),
        },
        None => Ok(Input::Standard(rt.reader())),
    }
}

/// Reports a fault on standard error; its status.
fn report_fault(rt: &HostRuntime, fault: &ReplayFault) -> u8 {
    let _ = eprintln!(rt; "{fault}");
    status(fault)
}

/// Reports that the words could not be read: one is not UTF-8, which is a mistake in the words, or memory was refused.
fn report_unreadable_words(rt: &HostRuntime, error: &io::Error) -> u8 {
    if error.kind() == io::ErrorKind::InvalidData {
        let _ = eprintln!(rt; "error: a word is not UTF-8");
        return 2;
    }
    report_fault(rt, &ReplayFault::Memory)
}

/// Reports what `clap` says of the words: help or the version on standard output with status 0, a mistake on standard error
/// with status 2.
fn report_refused_words(rt: &HostRuntime, refusal: &Error) -> u8 {
    if refusal.kind() == ErrorKind::OutOfMemory {
        return report_fault(rt, &ReplayFault::Memory);
    }
    let printed = refusal.print(rt);
    if refusal.use_stderr() {
        return 2;
    }
    match printed {
        Ok(()) => 0,
        Err(_) => report_fault(rt, &ReplayFault::Write),
    }
}
