//! The records of a trace, and a line for each, written before the next record is read, and flushed before it where the sink is by lines.

ghost use Rattle.std.specs.Prelude.{◌≡◌, ◌≢◌, Some, None, IfErr, IfOk, OnOk, Ok, Err, ◌<◌, ◌≤◌, ◌+◌, ◌^◌, ℕ, List, [], true, false};
ghost use Rattle.std.specs.Io.KnownBytes.{Appends};
ghost use Rattle.csv.specs.Reading.{Ready, ReadRecord, source_of, reader_trim, reader_config, reader_state, default_config, is_flexible, has_failed};
ghost use Rattle.csv.specs.declared.reader.Trim.TheVariants as trim;
ghost use Rattle.csv.specs.Records.{fields_of};
ghost use Rattle.pfs_addr_values.specs.Packets.{row_limit, run_limit};
ghost use Rattle.pfs_streams.specs.Sinks.{NotFlushed, OwesNoFlush, bytes_held, write_failures as failures_of};
ghost use Rattle.pfs_cli_formats.specs.Lines.{row_text, end_text};
ghost use Rattle.std.specs.Option.{ForSome};
ghost use Rattle.pfs_engine_machine.specs.Machine.{start};
ghost use Rattle.pfs_engine_machine.specs.Runs.{MayCome};
ghost use Rattle.pfs_cli_formats.specs.Reports.{end_line_of};
ghost use Rattle.pfs_cli.specs.Headers.{ReadsHeader};
ghost use Rattle.pfs_cli.specs.Tallies.{IsTallyOf, LeavesOfRun, tally_of};
ghost use Rattle.pfs_cli.specs.Tallying.{TalliesEvent, TalliesRecord};
ghost use Rattle.pfs_cli.specs.RecordTurns.{PassedOn, Tells, TellsRows, WritesLine, TakesEvent, TakesRecord};
ghost use Rattle.pfs_trace.specs.Reading.{records_of, records_left};
ghost use Rattle.pfs_trace.specs.Traces.{events_of, events_from};

use crate::tallies::Tally;
use csv::{ByteRecord, Reader, ReaderBuilder};
use pfs_addr_values::ROW_LIMIT;
use pfs_cli_formats::{EndLine, push_end, push_way};
use pfs_engine::{Engine, Event, Way};
use pfs_store_contract::Store;
use pfs_streams::{Sink, write_whole};
use pfs_trace::{TraceFault, has_columns, read_event};
use std::alloc::Global;
use std::io::{Read, Write};

/// Why the records stop before their end.
#[derive(Clone, Copy, Debug, PartialEq, Eq)]
pub enum RecordsStop {
    /// A record is faulty.
    Fault(TraceFault),
    /// The source gave no record: a read failed, or memory was refused.
    Source,
    /// Memory was refused.
    Memory,
    /// The sink failed.
    Write,
}

/// Writes a line.
fn send<W: Write>(line: &[u8], out: &mut Sink<W>) -> Result<(), RecordsStop>
    ensures writes { (t : List ℕ) × Appends (bytes_held W.contents out.old) (bytes_held W.contents out.new) t × WritesLine line.now t result }
    ensures fails { result ≡ Err (RecordsStop.Write) → 0 < failures_of out.new }
    ensures passed_on { PassedOn out.new result }
    ensures flushes { NotFlushed out.old out.new }
{
    match write_whole(out, line) {
        Ok(()) => Ok(()),
        Err(_) => Err(RecordsStop::Write),
    }
}

/// Writes the line of one record. `line` is room that is used again.
fn write_row<W: Write>(
    row: u64,
    way: &Way,
    line: &mut Vec<u8>,
    out: &mut Sink<W>,
) -> Result<(), RecordsStop>
    requires passed_on { OwesNoFlush out.old }
    ensures writes { (t : List ℕ) × Appends (bytes_held W.contents out.old) (bytes_held W.contents out.new) t × WritesLine (row_text row way.now) t result }
    ensures fails { result ≡ Err (RecordsStop.Write) → 0 < failures_of out.new }
    ensures passed_on { PassedOn out.new result }
    ensures flushes { NotFlushed out.old out.new }
{
    line.clear();
    match push_way(line, row, way) {
        Ok(()) => send(line.as_slice(), out),
        Err(_) => Err(RecordsStop::Memory),
    }
}

/// The last line, with what is held.
fn end_line<H: Store>(rows: u64, engine: &Engine<H>) -> EndLine
    ensures { end_text result.rows result.held.states result.held.nodes result.held.entries ≡ end_line_of rows engine.now.machine }
{
    EndLine {
        rows,
        held: engine.amounts(),
    }
}

/// Writes the last line.
fn write_end<W: Write>(
    end: EndLine,
    room: &mut Vec<u8>,
    out: &mut Sink<W>,
) -> Result<(), RecordsStop>
    requires passed_on { OwesNoFlush out.old }
    ensures writes { (t : List ℕ) × Appends (bytes_held W.contents out.old) (bytes_held W.contents out.new) t
        × WritesLine (end_text end.rows end.held.states end.held.nodes end.held.entries) t result }
    ensures fails { result ≡ Err (RecordsStop.Write) → 0 < failures_of out.new }
    ensures passed_on { PassedOn out.new result }
    ensures flushes { NotFlushed out.old out.new }
{
    room.clear();
    match push_end(room, &end) {
        Ok(()) => send(room.as_slice(), out),
        Err(_) => Err(RecordsStop::Memory),
    }
}

/// Lets the engine take one record, tallies its work, and writes its line.
fn take_event<H: Store, W: Write>(
    row: u64,
    event: &Event,
    engine: &mut Engine<H>,
    tally: &mut Tally,
    line: &mut Vec<u8>,
    out: &mut Sink<W>,
) -> Result<(), RecordsStop>
    requires passed_on { OwesNoFlush out.old }
    requires order { ForSome engine.old.machine.last (λ m. m ≤ event.now.time) }
    requires moment { event.now.time < 2 ^ 32 }
    requires room { engine.old.taken + 1 < run_limit }
    requires table { MayCome engine.old.config event.now.what }
    ensures config { engine.new.config ≡ engine.old.config }
    ensures taken { engine.new.taken ≤ engine.old.taken + 2 }
    ensures takes { (t : List ℕ) × Appends (bytes_held W.contents out.old) (bytes_held W.contents out.new) t
        × TakesEvent engine.old.config row engine.old.machine event.now t result engine.new.machine }
    ensures tallies { TalliesEvent H.counts engine.old.config engine.old.machine event.now result tally.old tally.new }
    ensures fails { result ≡ Err (RecordsStop.Write) → 0 < failures_of out.new }
    ensures passed_on { PassedOn out.new result }
    ensures flushes { NotFlushed out.old out.new }
{
    let answer = engine.way(event);
    tally.add(&engine.work());
    match answer {
        Ok(way) => write_row(row, &way, line, out),
        Err(_) => Err(RecordsStop::Memory),
    }
}

/// The turn of one record.
fn take_record<H: Store, W: Write>(
    row: u64,
    fields: &ByteRecord,
    engine: &mut Engine<H>,
    tally: &mut Tally,
    line: &mut Vec<u8>,
    out: &mut Sink<W>,
) -> Result<(), RecordsStop>
    requires passed_on { OwesNoFlush out.old }
    requires room { engine.old.taken + 1 < run_limit }
    ensures config { engine.new.config ≡ engine.old.config }
    ensures taken { engine.new.taken ≤ engine.old.taken + 2 }
    ensures takes { (t : List ℕ) × Appends (bytes_held W.contents out.old) (bytes_held W.contents out.new) t
        × TakesRecord engine.old.config row engine.old.machine (fields_of fields.now) t result engine.new.machine }
    ensures tallies { TalliesRecord H.counts engine.old.config row engine.old.machine (fields_of fields.now) result tally.old tally.new }
    ensures fails { result ≡ Err (RecordsStop.Write) → 0 < failures_of out.new }
    ensures passed_on { PassedOn out.new result }
    ensures flushes { NotFlushed out.old out.new }
{
    match &read_event(row, engine.last(), engine.config(), fields) {
        Ok(event) => take_event(row, event, engine, tally, line, out),
        Err(fault) => Err(RecordsStop::Fault(*fault)),
    }
}

/// Asks for the next record, and says whether there is one. This may read the trace. So by lines each line of the
/// records before is flushed.
fn next_record<S: Read, W>(
    reader: &mut Reader<S>,
    fields: &mut ByteRecord,
    _out: &Sink<W>,
) -> Result<bool, RecordsStop>
    requires passed_on { OwesNoFlush _out.now }
    requires plain { reader_trim reader.old ≡ trim.None }
    requires ready { Ready reader.old }
    requires flexible { is_flexible reader.old ≡ true }
    ensures reads { IfOk result (λ found. ReadRecord S.remaining reader.old reader.new found (fields_of fields.new)) }
    ensures ready { OnOk result (Ready reader.new) }
    ensures flexible { OnOk result (is_flexible reader.new ≡ true) }
    ensures source { IfErr result (λ stop. (stop ≡ RecordsStop.Source) × (has_failed reader.new ≡ true)) }
{
    let found = match reader.read_byte_record(fields) {
        Ok(found) => found,
        Err(_) => return Err(RecordsStop::Source),
    };
    Ok(found)
}

/// Reads the header.
fn read_header<S: Read, W>(
    reader: &mut Reader<S>,
    fields: &mut ByteRecord,
    out: &Sink<W>,
) -> Result<(), RecordsStop>
    requires passed_on { OwesNoFlush out.now }
    requires plain { reader_trim reader.old ≡ trim.None }
    requires ready { Ready reader.old }
    requires config { reader_config reader.old ≡ default_config }
    requires flexible { is_flexible reader.old ≡ true }
    ensures plain { OnOk result (reader_trim reader.new ≡ trim.None) }
    ensures ready { OnOk result (Ready reader.new) }
    ensures config { OnOk result (reader_config reader.new ≡ default_config) }
    ensures flexible { OnOk result (is_flexible reader.new ≡ true) }
    ensures header { (xs : List ℕ) → source_of S.remaining reader.old ≡ Some xs →
        ReadsHeader S.remaining (records_left default_config (reader_state reader.old) xs) reader.new result }
    ensures source { result ≡ Err (RecordsStop.Source) → has_failed reader.new ≡ true }
    ensures writes_none { result ≢ Err (RecordsStop.Write) }
{
    match next_record(reader, fields, out) {
        Ok(true) => {}
        Ok(false) => return Err(RecordsStop::Fault(TraceFault::Columns(0))),
        Err(stop) => return Err(stop),
    }
    if has_columns(fields) {
        Ok(())
    } else {
        Err(RecordsStop::Fault(TraceFault::Columns(0)))
    }
}

/// Reads the records after the header, tallies the work of each, and writes its line before it reads the next.
fn tell_rows<H: Store, S: Read, W: Write>(
    reader: &mut Reader<S>,
    fields: &mut ByteRecord,
    engine: &mut Engine<H>,
    tally: &mut Tally,
    line: &mut Vec<u8>,
    out: &mut Sink<W>,
) -> Result<(), RecordsStop>
    requires plain { reader_trim reader.old ≡ trim.None }
    requires ready { Ready reader.old }
    requires config { reader_config reader.old ≡ default_config }
    requires flexible { is_flexible reader.old ≡ true }
    requires passed_on { OwesNoFlush out.old }
    requires first { engine.old.machine ≡ start engine.old.config }
    requires taken { engine.old.taken ≡ 0 }
    requires none { tally.old ≡ tally_of [] }
    ensures tells { (xs : List ℕ) → source_of S.remaining reader.old ≡ Some xs →
        ((t : List ℕ) × Appends (bytes_held W.contents out.old) (bytes_held W.contents out.new) t
        × TellsRows engine.old.config (events_from engine.old.config 0 None (records_left default_config (reader_state reader.old) xs)) t result) }
    ensures tallies { (xs : List ℕ) → source_of S.remaining reader.old ≡ Some xs →
        ((t : List ℕ) × Appends (bytes_held W.contents out.old) (bytes_held W.contents out.new) t
        × IsTallyOf H.counts engine.old.config (events_from engine.old.config 0 None (records_left default_config (reader_state reader.old) xs)) t (LeavesOfRun result) tally.new) }
    ensures fails { result ≡ Err (RecordsStop.Write) → 0 < failures_of out.new }
    ensures passed_on { PassedOn out.new result }
    ensures flushes { NotFlushed out.old out.new }
    ensures source { result ≡ Err (RecordsStop.Source) → has_failed reader.new ≡ true }
{
    for rows in 0..=ROW_LIMIT {
        match next_record(reader, fields, out) {
            Ok(true) => {}
            Ok(false) => return write_end(end_line(rows, engine), line, out),
            Err(stop) => return Err(stop),
        }
        if rows == ROW_LIMIT {
            return Err(RecordsStop::Fault(TraceFault::TooManyRows));
        }
        match take_record(rows + 1, fields, engine, tally, line, out) {
            Ok(()) => {}
            Err(stop) => return Err(stop),
        }
    }
    unreachable!()
}

/// Reads the trace of `source`, tallies the work of each record, and writes its line before it reads the next, and
/// the last line. A sink by lines is flushed after each, another not at all.
pub(crate) fn tell_records<H: Store, S: Read + Drop, W: Write>(
    alloc: Global,
    source: S,
    engine: &mut Engine<H>,
    tally: &mut Tally,
    out: &mut Sink<W>,
) -> Result<(), RecordsStop>
    requires passed_on { OwesNoFlush out.old }
    requires first { engine.old.machine ≡ start engine.old.config }
    requires taken { engine.old.taken ≡ 0 }
    requires none { tally.old ≡ tally_of [] }
    ensures tells { (xs : List ℕ) → S.remaining source ≡ Some xs →
        ((t : List ℕ) × Appends (bytes_held W.contents out.old) (bytes_held W.contents out.new) t
        × Tells engine.old.config (events_of engine.old.config (records_of xs)) t result) }
    ensures tallies { (xs : List ℕ) → S.remaining source ≡ Some xs →
        ((t : List ℕ) × Appends (bytes_held W.contents out.old) (bytes_held W.contents out.new) t
        × IsTallyOf H.counts engine.old.config (events_of engine.old.config (records_of xs)) t (LeavesOfRun result) tally.new) }
    ensures fails { result ≡ Err (RecordsStop.Write) → 0 < failures_of out.new }
    ensures passed_on { PassedOn out.new result }
    ensures flushes { NotFlushed out.old out.new }
{
    let mut reader = ReaderBuilder::new()
        .flexible(true)
        .from_reader(alloc, source);
    // With a header row given, which is empty, the reader keeps no copy of the first record.
    if reader.set_byte_headers(ByteRecord::new(alloc)).is_err() {
        return Err(RecordsStop::Memory);
    }
    let mut fields = ByteRecord::new(alloc);
    let mut line = Vec::new(alloc);
    match read_header(&mut reader, &mut fields, out) {
        Ok(()) => tell_rows(&mut reader, &mut fields, engine, tally, &mut line, out),
        Err(stop) => Err(stop),
    }
}
