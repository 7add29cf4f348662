//! The report of a trace under a configuration: over any store, and over the kind of store that a replay has.

ghost use Rattle.std.specs.Prelude.{◌≡◌, Some, Err, ◌<◌, ℕ, List, [], true};
ghost use Rattle.std.specs.Io.KnownBytes.{Appends};
ghost use Rattle.pfs_streams.specs.Sinks.{NotFlushed, OwesNoFlush, bytes_held, write_failures};
ghost use Rattle.pfs_trace.specs.Reading.{records_of};
ghost use Rattle.pfs_trace.specs.Traces.{events_of};
ghost use Rattle.pfs_store_contract.specs.Worlds.{empty_world};
ghost use Rattle.pfs_cli.specs.Tallies.{IsTallyOf, LeavesOfRun, tally_of};
ghost use Rattle.pfs_cli.specs.RecordTurns.{PassedOn, Tells};

use crate::records::{RecordsStop, tell_records};
use crate::tallies::Tally;
use pfs_conf_values::Config;
use pfs_engine::Engine;
use pfs_store_contract::Store;
use pfs_store_index::IndexStore;
use pfs_streams::Sink;
use std::alloc::Global;
use std::io::{Read, Write};

/// The store of a replay; only this line names its kind.
type TraceStore = IndexStore;

/// Reads the trace of `source`, and writes its report under a configuration: the line of each record
/// before the next is read, and the last line, with what is held. A sink by lines is flushed after each line, another not at
/// all. What is held is kept in an empty store that was made for the configuration, and is given up at the end.
///
/// What is written at a stop:
///
/// - `Fault`: the lines of the records before the first faulty one, whose fault it is; of a faulty header
///   none.
/// - `Source`, `Memory`: the lines of the first records.
/// - `Write`: a front of the report. It is reported only where `out` has counted a failure.
///
/// What `tally` held is given up. It gets the tally of the work of each record that was taken, however the run ends: of those a
/// line was written of, and of one more at most.
///
/// Memory is taken for the states, the source nodes and the table entries that are held, and for one
/// record and one line, however long the trace is.
pub fn write_report_over<H: Store + Drop, S: Read + Drop, W: Write>(
    alloc: Global,
    config: Config,
    store: H,
    source: S,
    tally: &mut Tally,
    out: &mut Sink<W>,
) -> Result<(), RecordsStop>
    requires empty { H.world store ≡ empty_world }
    requires made_for { H.config store ≡ config }
    requires passed_on { OwesNoFlush out.old }
    ensures tells { (xs : List ℕ) → S.remaining source ≡ Some xs →
        ((t : List ℕ) × Appends (bytes_held W.contents out.old) (bytes_held W.contents out.new) t
        × Tells config (events_of config (records_of xs)) t result) }
    ensures tallies { (xs : List ℕ) → S.remaining source ≡ Some xs →
        ((t : List ℕ) × Appends (bytes_held W.contents out.old) (bytes_held W.contents out.new) t
        × IsTallyOf H.counts config (events_of config (records_of xs)) t (LeavesOfRun result) tally.new) }
    ensures fails { result ≡ Err (RecordsStop.Write) → 0 < write_failures out.new }
    ensures passed_on { PassedOn out.new result }
    ensures flushes { NotFlushed out.old out.new }
{
    *tally = Tally::none();
    match Engine::new(alloc, config, store) {
        Ok(mut engine) => tell_records(alloc, source, &mut engine, tally, out),
        Err(_) => Err(RecordsStop::Memory),
    }
}

/// Writes the report of the trace that `source` gives, over a new store, and tallies its work. The store counts looks.
pub(crate) fn write_report<S: Read + Drop, W: Write>(
    alloc: Global,
    config: Config,
    source: S,
    tally: &mut Tally,
    out: &mut Sink<W>,
) -> Result<(), RecordsStop>
    requires passed_on { OwesNoFlush out.old }
    requires none { tally.old ≡ tally_of [] }
    ensures tells { (xs : List ℕ) → S.remaining source ≡ Some xs →
        ((t : List ℕ) × Appends (bytes_held W.contents out.old) (bytes_held W.contents out.new) t
        × Tells config (events_of config (records_of xs)) t result) }
    ensures tallies { (xs : List ℕ) → S.remaining source ≡ Some xs →
        ((t : List ℕ) × Appends (bytes_held W.contents out.old) (bytes_held W.contents out.new) t
        × IsTallyOf true config (events_of config (records_of xs)) t (LeavesOfRun result) tally.new) }
    ensures fails { result ≡ Err (RecordsStop.Write) → 0 < write_failures out.new }
    ensures passed_on { PassedOn out.new result }
    ensures flushes { NotFlushed out.old out.new }
{
    match TraceStore::new(alloc, &config) {
        Ok(store) => write_report_over(alloc, config, store, source, tally, out),
        Err(_) => Err(RecordsStop::Memory),
    }
}
