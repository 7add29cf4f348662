//! A replay of a trace under rules, each from a reader of its own.

ghost use Rattle.std.specs.Prelude.{◌≡◌, ◌⊎◌, Some, Err, ◌<◌, ◌≤◌, ◌+◌, ℕ, List, true, drop};
ghost use Rattle.std.specs.Io.KnownBytes.{Appends};
ghost use Rattle.pfs_streams.specs.Feeds.{bound_of, unread, has_ended, IsFresh, IsSound, IsSpent, reads_of, read_failures};
ghost use Rattle.pfs_streams.specs.Sinks.{FlushedOnce, OwesNoFlush, bytes_held, write_failures};
ghost use Rattle.pfs_conf.specs.declared.faults.LoadFault.{LoadFault};
ghost use Rattle.pfs_streams.specs.RulesKept.{rules_limit};
ghost use Rattle.pfs_cli.specs.Rules.{AreRefused};
ghost use Rattle.pfs_cli.specs.Refusing.{HasNoRules, TellsRulesAlone};
ghost use Rattle.pfs_cli.specs.Replays.{Replays, ShowsLines, WaitsForRead};
ghost use Rattle.pfs_cli.specs.Tallies.{IsTallyOfReplay};

use crate::endings::{feed_fault, finish};
use crate::faults::ReplayFault;
use crate::reports::write_report;
use crate::rules::read_config;
use crate::tallies::Tally;
use pfs_streams::{Feed, Sink};
use std::alloc::Global;
use std::io::{Read, Write};

/// The most bytes of the first read of a trace, which is made before anything is written.
pub(crate) const FIRST_READ: usize = 8192;

/// Replays the trace under the rules, and writes its report: a line for each record, and a last line with what is held.
/// Every accepted rules text runs, and a record of every protocol is taken; those of ICMP are skipped. A record `expire`,
/// `add` or `delete` changes the entries of a table, and its line says how. Each line is written before
/// the next record is read. The whole is flushed once, at its end; where `out` is by lines, each line is flushed before the
/// next record is read. `rules` and `out` are as `new` gives them, or `out` as `line_buffered` gives it.
///
/// A fault of the rules is reported before any of the trace, which is not read then. Nothing is written before the rules
/// are read to their end and the trace has been read at least once. Of rules that are too long no more than 1,048,577 bytes are read.
///
/// At a fault the lines that are written are flushed by lines alone. What is written then:
///
/// - `Rules`: nothing.
/// - `Columns`, `Field`, `TimeFell`, `Table`, `TooManyRows`: the lines of the records before, which is the report of such a
///   trace. Each record is checked for these in this order, but for the last, which is checked first.
/// - `Read`, `Endless`, `Memory`: in the rules nothing, in the trace the lines of the first records.
/// - `Write`: a front of the report.
///
/// What `tally` held is given up. It gets the tally of the work of each record that was taken, however the replay ends: of those a
/// line was written of, and of one more at most. Looks are counted.
///
/// `Read` is reported only where a reader failed, `Endless` only where a feed is spent, and `Write` only where the
/// writer failed. Memory is taken for the rules, for the states, the source nodes and the table entries that are held,
/// and for one record and one line, however long the trace is.
pub fn replay<R: Read, T: Read, W: Write>(
    alloc: Global,
    rules: &mut Feed<R>,
    trace: &mut Feed<T>,
    tally: &mut Tally,
    out: &mut Sink<W>,
) -> Result<(), ReplayFault>
    requires fresh { IsFresh rules.old }
    requires passed_on { OwesNoFlush out.old }

    // The report of the bytes that the two readers hold, as far as the result says.
    ensures reports { (rs : List ℕ) (ts : List ℕ) → unread R.remaining rules.old ≡ Some rs → unread T.remaining trace.old ≡ Some ts →
        ((t : List ℕ) × Appends (bytes_held W.contents out.old) (bytes_held W.contents out.new) t × Replays rs ts t result) }

    // The work of each record is what the machine allows: the rules that its packet visits, the states and nodes that a purge before it
    // examines, and the records of states that are looked at. Looks are counted.
    ensures work { (rs : List ℕ) (ts : List ℕ) → unread R.remaining rules.old ≡ Some rs → unread T.remaining trace.old ≡ Some ts →
        ((t : List ℕ) × Appends (bytes_held W.contents out.old) (bytes_held W.contents out.new) t × IsTallyOfReplay rs ts t result tally.new) }

    // A fault of the rules is one that this text may have: its kind, its line, and the token at which reading stops.
    ensures refused { (rs : List ℕ) (f : LoadFault) → unread R.remaining rules.old ≡ Some rs → result ≡ Err (ReplayFault.Rules f) → AreRefused rs f }

    // The rules come first, and no more of them than is needed. Where they are refused the trace is not read, whatever it is.
    ensures rules_alone { (rs : List ℕ) → unread R.remaining rules.old ≡ Some rs → HasNoRules rs → TellsRulesAlone rs result × (trace.new ≡ trace.old) }
    ensures unwritten { (f : LoadFault) → result ≡ Err (ReplayFault.Rules f) → out.new ≡ out.old }
    ensures rules_first { (out.new ≡ out.old) ⊎ ((has_ended rules.new ≡ true) × (read_failures rules.new ≡ 0)) }
    ensures trace_first { (out.new ≡ out.old) ⊎ (0 < reads_of trace.new) }
    ensures waits { WaitsForRead trace.old trace.new out.old out.new }
    ensures few { (rs : List ℕ) → unread R.remaining rules.old ≡ Some rs → (k : ℕ) × (k ≤ rules_limit + 1) × (unread R.remaining rules.new ≡ Some (drop k rs)) }

    // No fault is reported of a reader or a writer that did not have it.
    ensures read { result ≡ Err ReplayFault.Read → (0 < read_failures rules.new) ⊎ (0 < read_failures trace.new) }
    ensures endless { result ≡ Err ReplayFault.Endless → IsSpent rules.new ⊎ IsSpent trace.new }
    ensures write { result ≡ Err ReplayFault.Write → 0 < write_failures out.new }
    ensures memory { result ≡ Err ReplayFault.Memory → IsSound rules.new × ((trace.new ≡ trace.old) ⊎ IsSound trace.new) }

    // The feeds keep their bounds; by lines all that was written is flushed, else there is at most one flush.
    ensures bounds { (bound_of rules.new ≡ bound_of rules.old) × (bound_of trace.new ≡ bound_of trace.old) }
    ensures flushes { FlushedOnce out.old out.new }
    ensures shows { ShowsLines out.new result }
{
    *tally = Tally::none();
    let config = match read_config(alloc, rules) {
        Ok(config) => config,
        Err(fault) => return Err(fault),
    };
    let mut first = [0; FIRST_READ];
    let n = match trace.read(&mut first) {
        Ok(n) => n,
        Err(_) => return Err(feed_fault(trace)),
    };
    let begun = trace.reads();
    let mut lent = first[..n].chain(trace.lend());
    let outcome = write_report(alloc, config, &mut lent, tally, out);
    let back = lent.into_inner().1.give_back(begun);
    trace.resume(back);
    finish(outcome, trace, out)
}
