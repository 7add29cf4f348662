//! How the words of the command line are read, with `clap`.

ghost use Rattle.std.specs.Prelude.{◌≡◌, IfOk, map, false, codes, [], Some};
ghost use Rattle.clap.specs.Words.{app_of, matches_of, subcommand_of, rule_of, with_subcommand, first_of, found_of, kind_of, rows_of};
ghost use Rattle.clap.specs.declared.builder.command.Command.TheViews.{out-Command};
ghost use Rattle.pfs_words.specs.Words.{flag_rule, lines_flag};
ghost use Rattle.pfs_cli_jobs.specs.Jobs.{JobIs, RequestIs, check_app, show_app, replay_app, program_app, pfsrc_app, file_rule};

use crate::tasks::{Job, Request};
use clap::error::ErrorKind;
use clap::{Arg, ArgMatches, Command, Error};
use pfs_words::{is_by_lines, is_standard, line_buffered};
use std::alloc::{AllocError, Global};

/// What `--version` prints after the program's name.
const VERSION: &str = "0.1.0, the limits of pf as in OpenBSD 7.4";

/// What the words of a command line ask for: the program's name, and then nothing, `check RULES`, `show RULES` or
/// `replay RULES TRACE`, with `--line-buffered` after `replay`, or in place of a subcommand.
///
/// The error is clap's, with its message: for a word that is none of these, for a file that is missing or too many, for
/// standard input as rules and trace at once, for `--help`, `help` and `--version`, which are no mistakes, and where
/// memory is refused. It takes memory.
pub fn request<'a>(alloc: Global, words: &'a [&'a str]) -> Result<Request<'a>, Error>
    ensures { IfOk result (RequestIs (matches_of pfsrc_app (map (λ w. w.now) words.entry.now)) (subcommand_of pfsrc_app (map (λ w. w.now) words.entry.now))) }
{
    let matches = pfsrc(alloc)?.try_get_matches_from(words)?;
    let by_lines = is_by_lines(&matches);
    match matches.subcommand() {
        Some(_) if by_lines => Err(mistake(
            alloc,
            ErrorKind::ArgumentConflict,
            "--line-buffered stands behind replay",
        )?),
        Some((name, found)) => request_of(alloc, name, found),
        None => Ok(Request {
            job: Job::Joined,
            by_lines,
        }),
    }
}

/// The job that the words of a command line ask for, as `request` reads them.
pub fn job<'a>(alloc: Global, words: &'a [&'a str]) -> Result<Job<'a>, Error>
    ensures { IfOk result (λ j. JobIs (subcommand_of pfsrc_app (map (λ w. w.now) words.entry.now)) j) }
{
    Ok(request(alloc, words)?.job)
}

/// The command line of the program.
fn pfsrc<'a>(alloc: Global) -> Result<Command<'a>, AllocError>
    ensures { IfOk result (λ c. app_of c ≡ pfsrc_app) }
{
    let replay = replay(alloc)?;
    with_show(alloc)?.subcommand(replay)
}

/// (each holds at most one command across a `?`: each further one makes the proof costly)
fn with_show<'a>(alloc: Global) -> Result<Command<'a>, AllocError>
    ensures { IfOk result (λ c. app_of c ≡ with_subcommand (with_subcommand program_app check_app.top) show_app.top) }
{
    let show = show(alloc)?;
    with_check(alloc)?.subcommand(show)
}

fn with_check<'a>(alloc: Global) -> Result<Command<'a>, AllocError>
    ensures { IfOk result (λ c. app_of c ≡ with_subcommand program_app check_app.top) }
{
    let check = check(alloc)?;
    program(alloc)?.subcommand(check)
}

fn program<'a>(alloc: Global) -> Result<Command<'a>, AllocError>
    ensures app { IfOk result (λ c. app_of c ≡ program_app) }
    ensures local { IfOk result (λ c. (out-Command c).has_globals ≡ false) }
{
    Command::new(alloc, "pfsrc")
        .version(VERSION)
        .about(
            "Tells beforehand what pf's limits do to a packet trace: which packets make states, which limit drops them, and whose states are killed.",
        )
        .after_help(
            "Without a command it reads rules and trace from standard input, with a line %% between them, and writes the report:\n  cat rules separator trace | pfsrc\nStatus: 0 done, 1 a fault in the trace, 2 words that are not understood, 3 a fault in the rules, 4 reading, writing or memory failed.",
        )
        .arg(by_lines(alloc))
}

fn check<'a>(alloc: Global) -> Result<Command<'a>, AllocError>
    ensures app { IfOk result (λ c. app_of c ≡ check_app) }
    ensures local { IfOk result (λ c. (out-Command c).has_globals ≡ false) }
{
    Command::new(alloc, "check")
        .about(
            "Reads a rules file and tells how many items, tables and entries it has, or the first fault and its line.",
        )
        .after_help("Example: pfsrc check /etc/pf.conf")
        .arg(rules_file(alloc))
}

fn show<'a>(alloc: Global) -> Result<Command<'a>, AllocError>
    ensures app { IfOk result (λ c. app_of c ≡ show_app) }
    ensures local { IfOk result (λ c. (out-Command c).has_globals ≡ false) }
{
    Command::new(alloc, "show")
        .about("Writes the rules of a file as one canonical text, with every default filled in.")
        .after_help("Example: pfsrc show /etc/pf.conf")
        .arg(rules_file(alloc))
}

fn replay<'a>(alloc: Global) -> Result<Command<'a>, AllocError>
    ensures app { IfOk result (λ c. app_of c ≡ replay_app) }
    ensures local { IfOk result (λ c. (out-Command c).has_globals ≡ false) }
{
    let command = Command::new(alloc, "replay")
        .about(
            "Runs the packets of a trace file through the rules of a rules file and writes a line for each, and at last what is held.",
        )
        .after_help(
            "Example: pfsrc replay pf.conf flood.csv\nOf a trace that comes as it happens: tcpdump .. | pfstrace --line-buffered .. - | pfsrc replay --line-buffered pf.conf -",
        )
        .arg(by_lines(alloc))?;
    let command = command.arg(rules_file(alloc))?;
    command.arg(trace_file(alloc))
}

fn by_lines<'a>(alloc: Global) -> Arg<'a>
    ensures rule { rule_of result ≡ flag_rule lines_flag }
    ensures local { result.global ≡ false }
{
    line_buffered(
        alloc,
        "Writes each line of the report before it reads more of the trace.",
    )
}

fn rules_file<'a>(alloc: Global) -> Arg<'a>
    ensures rule { rule_of result ≡ file_rule (codes "RULES") }
    ensures local { result.global ≡ false }
{
    Arg::new(alloc, "RULES").required(true).help(
        "A file with rules in pf.conf's grammar; - is standard input.",
    )
}

fn trace_file<'a>(alloc: Global) -> Arg<'a>
    ensures rule { rule_of result ≡ file_rule (codes "TRACE") }
    ensures local { result.global ≡ false }
{
    Arg::new(alloc, "TRACE").required(true).help(
        "A CSV file with a packet in each record, headed time,dir,if,proto,src,sport,dst,dport,flags; - is standard input.",
    )
}

/// What a subcommand asks for.
fn request_of<'a>(alloc: Global, name: &str, found: &ArgMatches<'a>) -> Result<Request<'a>, Error>
    ensures { IfOk result (RequestIs [] (Some (name.now, rows_of (found_of found.now)))) }
{
    match name {
        "check" => Ok(at_once(Job::Check(named(alloc, found, "RULES")?))),
        "show" => Ok(at_once(Job::Show(named(alloc, found, "RULES")?))),
        "replay" => Ok(Request {
            job: replay_job(alloc, found)?,
            by_lines: is_by_lines(found),
        }),
        _ => Err(mistake(alloc, ErrorKind::InvalidSubcommand, "the words name no job")?),
    }
}

/// A job whose text is written at once.
fn at_once<'a>(job: Job<'a>) -> Request<'a>
    ensures job { result.job ≡ job.entry }
    ensures at_once { result.by_lines ≡ false }
{
    Request {
        job,
        by_lines: false,
    }
}

/// A replay of the two files that were given.
fn replay_job<'a>(alloc: Global, found: &ArgMatches<'a>) -> Result<Job<'a>, Error>
    ensures { IfOk result (JobIs (Some (codes "replay", rows_of (found_of found.now)))) }
{
    let rules = named(alloc, found, "RULES")?;
    let trace = named(alloc, found, "TRACE")?;
    if is_standard(rules) && is_standard(trace) {
        return Err(mistake(
            alloc,
            ErrorKind::ArgumentConflict,
            "- stands for standard input once: for RULES or for TRACE",
        )?);
    }
    Ok(Job::Replay(rules, trace))
}

/// The file that was given under this name; a mistake in the words where there is none, for which `clap` asks before.
fn named<'a>(alloc: Global, found: &ArgMatches<'a>, id: &str) -> Result<&'a str, Error>
    ensures { IfOk result (λ r. first_of id.now (rows_of (found_of found.now)) ≡ Some r.now) }
{
    match found.get_str(id) {
        Some(file) => Ok(file),
        None => Err(mistake(
            alloc,
            ErrorKind::MissingRequiredArgument,
            "the words name no job",
        )?),
    }
}

/// The error for a mistake in the words. Out of memory is reported only where memory was refused.
fn mistake(alloc: Global, kind: ErrorKind, what: &str) -> Result<Error, AllocError>
    ensures { IfOk result (λ e. kind_of e ≡ kind) }
{
    let mut program = pfsrc(alloc)?;
    program.error(kind, what)
}
