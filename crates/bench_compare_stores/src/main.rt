//! Replays a trace over both kinds of store side by side: the words name the rules and the trace, what came of each record and the counts of
//! what is held are compared after each record, and the report is written as far as they are one.

#![tactic(auto)]

ghost use Rattle.std.specs.Prelude.{◌≡◌, ◌<◌, ◌≤◌, ◌^◌, true};
ghost use Rattle.std.specs.Option.{ForSome};
ghost use Rattle.pfs_engine_machine.specs.Runs.{MayCome, MayChange};

use csv::{ByteRecord, Reader, ReaderBuilder};
use pfs_addr_values::{ROW_LIMIT, RUN_LIMIT};
use pfs_cli_formats::{EndLine, push_end, push_way};
use pfs_conf::{Config, LoadFault, TableNo, load};
use pfs_engine::{Arrival, Engine, Event, Way};
use pfs_store::{IndexStore, PlainStore, Store};
use pfs_trace::{TraceFault, has_columns, read_event};
use std::alloc::Global;
use std::env;
use std::fs::File;
use std::io::{self, BufWriter, Read, Write};
use std::process::ExitCode;

type IndexedEngine = IndexStore;

/// Why a comparison stops.
#[derive(Clone, Copy, Debug)]
enum CompareStop {
    /// A file could not be read, or the report could not be written.
    File,
    /// Memory was refused.
    Memory,
    /// The rules are not accepted.
    Rules(LoadFault),
    /// A record is faulty.
    Trace(TraceFault),
    /// An event that an engine does not take.
    Event,
    /// At this row what came of the record differs: that over lists, and that over indexes.
    Ways(u64, Way, Way),
    /// At this row what is held differs: states, source nodes, entries and packets over lists, and those over indexes.
    Amounts(u64, (u64, u64, u64, u64), (u64, u64, u64, u64)),
}

fn main(rt: HostRuntime) -> ExitCode {
    match run(&rt) {
        Ok(()) => ExitCode::from(0),
        Err(stop) => {
            let _ = eprintln!(rt; "{stop:?}");
            ExitCode::from(1)
        }
    }
}

fn run(rt: &HostRuntime) -> Result<(), CompareStop> {
    let Ok(words) = words(rt) else {
        return Err(CompareStop::Memory);
    };
    match (words.get(1), words.get(2)) {
        (Some(rules), Some(trace)) => replay(rt, rules.as_str(), trace.as_str()),
        _ => Err(CompareStop::File),
    }
}

fn words(rt: &HostRuntime) -> io::Result<Vec<String>> {
    let words = env::args(rt)?;
    Ok(words.collect(rt.alloc())?)
}

/// The trace of one file under the rules of another.
fn replay(rt: &HostRuntime, rules: &str, trace: &str) -> Result<(), CompareStop> {
    let text = read_file(rt, rules)?;
    let mut plain = plain_engine(rt.alloc(), &text)?;
    replay_beside(rt, &text, trace, &mut plain)
}

fn replay_beside<S: Store>(
    rt: &HostRuntime,
    text: &[u8],
    trace: &str,
    plain: &mut Engine<S>,
) -> Result<(), CompareStop> {
    let mut indexed = indexed_engine(rt.alloc(), text)?;
    replay_both(rt, trace, plain, &mut indexed)
}

fn replay_both<S: Store, T: Store>(
    rt: &HostRuntime,
    trace: &str,
    plain: &mut Engine<S>,
    indexed: &mut Engine<T>,
) -> Result<(), CompareStop> {
    let trace = open(rt, trace)?;
    let Ok(mut out) = BufWriter::new(rt.alloc(), io::writer(rt)) else {
        return Err(CompareStop::Memory);
    };
    let answer = compare(rt.alloc(), trace, plain, indexed, &mut out);
    match out.flush() {
        Ok(()) => answer,
        Err(_) => Err(CompareStop::File),
    }
}

fn open(rt: &HostRuntime, name: &str) -> Result<File, CompareStop> {
    File::open(rt, name).map_err(|_| CompareStop::File)
}

fn read_file(rt: &HostRuntime, name: &str) -> Result<Vec<u8>, CompareStop> {
    let mut file = open(rt, name)?;
    let mut text = Vec::new(rt.alloc());
    file.read_to_end(&mut text).map_err(|_| CompareStop::File)?;
    Ok(text)
}

fn plain_engine(alloc: Global, text: &[u8]) -> Result<Engine<PlainStore>, CompareStop> {
    let config = read_rules(alloc, text)?;
    let Ok(store) = PlainStore::new(alloc, &config) else {
        return Err(CompareStop::Memory);
    };
    Engine::new(alloc, config, store).map_err(|_| CompareStop::Memory)
}

fn indexed_engine(alloc: Global, text: &[u8]) -> Result<Engine<IndexedEngine>, CompareStop> {
    let config = read_rules(alloc, text)?;
    let Ok(store) = IndexStore::new(alloc, &config) else {
        return Err(CompareStop::Memory);
    };
    Engine::new(alloc, config, store).map_err(|_| CompareStop::Memory)
}

fn read_rules(alloc: Global, text: &[u8]) -> Result<Config, CompareStop> {
    load(alloc, text).map_err(|fault| CompareStop::Rules(fault))
}

/// Both engines go through the trace.
fn compare<R: Read + Drop, S: Store, T: Store, W: Write>(
    alloc: Global,
    trace: R,
    plain: &mut Engine<S>,
    indexed: &mut Engine<T>,
    out: &mut W,
) -> Result<(), CompareStop> {
    let mut reader = ReaderBuilder::new()
        .has_headers(false)
        .flexible(true)
        .from_reader(alloc, trace);
    go_through(alloc, &mut reader, plain, indexed, out)
}

/// The header, and then record after record.
fn go_through<R: Read, S: Store, T: Store, W: Write>(
    alloc: Global,
    reader: &mut Reader<R>,
    plain: &mut Engine<S>,
    indexed: &mut Engine<T>,
    out: &mut W,
) -> Result<(), CompareStop> {
    let mut fields = ByteRecord::new(alloc);
    let mut line = Vec::new(alloc);
    if !next(reader, &mut fields)? || !has_columns(&fields) {
        return Err(CompareStop::Trace(TraceFault::Columns(0)));
    }
    for rows in 0..ROW_LIMIT {
        line.clear();
        if !next(reader, &mut fields)? {
            push_end(&mut line, &end_line(rows, plain)).map_err(|_| CompareStop::Memory)?;
            return out.write_all(&line).map_err(|_| CompareStop::File);
        }
        let event = read_event(rows + 1, plain.last(), plain.config(), &fields).map_err(
            |fault| CompareStop::Trace(fault),
        )?;
        let way = take_both(rows + 1, &event, plain, indexed)?;
        push_way(&mut line, rows + 1, &way).map_err(|_| CompareStop::Memory)?;
        out.write_all(&line).map_err(|_| CompareStop::File)?;
    }
    Err(CompareStop::Trace(TraceFault::TooManyRows))
}

fn next<R: Read>(reader: &mut Reader<R>, fields: &mut ByteRecord) -> Result<bool, CompareStop> {
    reader
        .read_byte_record(fields)
        .map_err(|_| CompareStop::File)
}

/// Both engines take the record, and answer and hold the same.
fn take_both<S: Store, T: Store>(
    row: u64,
    event: &Event,
    plain: &mut Engine<S>,
    indexed: &mut Engine<T>,
) -> Result<Way, CompareStop> {
    let listed = take(plain, event)?;
    let found = take(indexed, event)?;
    if found != listed {
        return Err(CompareStop::Ways(row, listed, found));
    }
    if held(indexed) != held(plain) {
        return Err(CompareStop::Amounts(row, held(plain), held(indexed)));
    }
    Ok(listed)
}

fn take<S: Store>(engine: &mut Engine<S>, event: &Event) -> Result<Way, CompareStop> {
    if !is_in_time(engine.last(), event.time) || engine.taken() >= RUN_LIMIT - 1 {
        return Err(CompareStop::Event);
    }
    if !may_come(engine.config(), &event.what) {
        return Err(CompareStop::Event);
    }
    engine.way(event).map_err(|_| CompareStop::Memory)
}

/// How many states, source nodes and entries are held, and how many packets were taken.
fn held<S: Store>(engine: &Engine<S>) -> (u64, u64, u64, u64) {
    (
        engine.states(),
        engine.nodes(),
        engine.entries(),
        engine.taken(),
    )
}

fn end_line<S: Store>(rows: u64, engine: &Engine<S>) -> EndLine {
    EndLine {
        rows,
        held: engine.amounts(),
    }
}

fn is_in_time(last: Option<u64>, time: u64) -> bool
    ensures order { result ≡ true → ForSome last (λ moment. moment ≤ time) }
    ensures moment { result ≡ true → time < 2 ^ 32 }
{
    match last {
        Some(last) => last <= time && time <= 4294967295,
        None => time <= 4294967295,
    }
}

fn may_come(config: &Config, what: &Arrival) -> bool
    ensures { result ≡ true → MayCome config.now what.now }
{
    match what {
        Arrival::Table { table, .. } => may_change(config, *table),
        _ => true,
    }
}

fn may_change(config: &Config, table: TableNo) -> bool
    ensures { result ≡ true → MayChange config.now table.0 }
{
    table.0 < config.table_count() && !config.is_const(table)
}
