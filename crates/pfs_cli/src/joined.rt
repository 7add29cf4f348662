//! A replay of rules and a trace that are in one text.

ghost use Rattle.std.specs.Prelude.{◌≡◌, ◌⊎◌, Some, Ok, Err, ◌<◌, ℕ, List, [], IfOk, IfErr, OnErr};
ghost use Rattle.std.specs.Io.KnownBytes.{Appends};
ghost use Rattle.pfs_streams.specs.Feeds.{IsSound, IsSpent, bound_of, unread, reads_of, read_failures};
ghost use Rattle.pfs_streams.specs.Sinks.{FlushedOnce, NotFlushed, OwesNoFlush, bytes_held, write_failures};
ghost use Rattle.pfs_conf.specs.declared.faults.LoadFault.{LoadFault};
ghost use Rattle.pfs_cli.specs.Rules.{AreRefused};
ghost use Rattle.pfs_cli.specs.Replays.{Replays, ShowsLines, WaitsForRead};
ghost use Rattle.pfs_cli.specs.Refusing.{RefusesRules};
ghost use Rattle.pfs_cli.specs.RecordTurns.{PassedOn};
ghost use Rattle.pfs_cli.specs.JoinedEnds.{IsHalt, RefusesWithin, TalliesWithin, TellsWithin};
ghost use Rattle.pfs_cli.specs.Tallies.{IsTallyOfReplay, tally_of};
ghost use Rattle.pfs_streams.specs.Joined.{split_joined};

use crate::endings::{feed_fault, finish, rules_fault};
use crate::faults::ReplayFault;
use crate::records::RecordsStop;
use crate::replays::FIRST_READ;
use crate::reports::write_report;
use crate::rules::load_config;
use crate::tallies::Tally;
use pfs_streams::{Feed, RulesStop, Sink, read_joined};
use std::alloc::Global;
use std::io::{BufReader, Read, Write};

/// How a joined text ends before its trace.
enum Halt {
    /// Its source gave no more.
    Source,
    /// Its rules are refused, or memory was.
    Fault(ReplayFault),
}

/// Reads the rules of `source`, and then replays the trace after them, and tallies its work.
fn tell_joined<S: Read + Drop, W: Write>(
    alloc: Global,
    source: S,
    tally: &mut Tally,
    out: &mut Sink<W>,
) -> Result<Result<(), RecordsStop>, Halt>
    requires passed_on { OwesNoFlush out.old }
    requires none { tally.old ≡ tally_of [] }
    ensures tells { IfOk result (λ outcome. (xs : List ℕ) → S.remaining source ≡ Some xs →
        ((t : List ℕ) × Appends (bytes_held W.contents out.old) (bytes_held W.contents out.new) t × TellsWithin (split_joined xs) t outcome)) }
    ensures tallies { IfOk result (λ outcome. (xs : List ℕ) → S.remaining source ≡ Some xs →
        ((t : List ℕ) × Appends (bytes_held W.contents out.old) (bytes_held W.contents out.new) t × TalliesWithin (split_joined xs) t outcome tally.new)) }
    ensures untallied { OnErr result (tally.new ≡ tally.old) }
    ensures refuses { IfErr result (λ h. (xs : List ℕ) → S.remaining source ≡ Some xs → RefusesWithin (split_joined xs) h) }
    ensures kinds { IfErr result IsHalt }
    ensures unwritten { OnErr result (out.new ≡ out.old) }
    ensures fails { result ≡ Ok (Err RecordsStop.Write) → 0 < write_failures out.new }
    ensures passed_on { IfOk result (PassedOn out.new) }
    ensures flushes { NotFlushed out.old out.new }
{
    let Ok(mut reader) = BufReader::new(alloc, source) else {
        return Err(Halt::Fault(ReplayFault::Memory));
    };
    let text = match read_joined(alloc, &mut reader) {
        Ok(text) => text,
        Err(RulesStop::Memory) => return Err(Halt::Fault(ReplayFault::Memory)),
        Err(RulesStop::Source) => return Err(Halt::Source),
    };
    match load_config(alloc, text) {
        Ok(config) => Ok(write_report(alloc, config, reader, tally, out)),
        Err(fault) => Err(Halt::Fault(fault)),
    }
}

/// Replays the trace that follows the rules in one text, and writes its report.
///
/// The rules are the bytes before the first line that is exactly `%%`, and the trace is what follows that line. Without
/// such a line the rules are all, and the trace is empty. `%%` as the last bytes is such a line. Rules that are too
/// long are read on to the split line or the end before that is reported, in bounded memory.
///
/// Nothing is written before the text has been read.
///
/// What is written, the tally, each fault, and the memory are as `replay` says of the two parts.
pub fn replay_joined<R: Read, W: Write>(
    alloc: Global,
    input: &mut Feed<R>,
    tally: &mut Tally,
    out: &mut Sink<W>,
) -> Result<(), ReplayFault>
    requires { OwesNoFlush out.old }
    ensures reports { (xs : List ℕ) → unread R.remaining input.old ≡ Some xs →
        ((t : List ℕ) × Appends (bytes_held W.contents out.old) (bytes_held W.contents out.new) t × Replays (split_joined xs).0 (split_joined xs).1 t result) }
    ensures work { (xs : List ℕ) → unread R.remaining input.old ≡ Some xs →
        ((t : List ℕ) × Appends (bytes_held W.contents out.old) (bytes_held W.contents out.new) t × IsTallyOfReplay (split_joined xs).0 (split_joined xs).1 t result tally.new) }
    ensures refused { (xs : List ℕ) (f : LoadFault) → unread R.remaining input.old ≡ Some xs → result ≡ Err (ReplayFault.Rules f) → AreRefused (split_joined xs).0 f }
    ensures unwritten { (f : LoadFault) → result ≡ Err (ReplayFault.Rules f) → out.new ≡ out.old }
    ensures input_first { (out.new ≡ out.old) ⊎ (0 < reads_of input.new) }
    ensures read { result ≡ Err ReplayFault.Read → 0 < read_failures input.new }
    ensures endless { result ≡ Err ReplayFault.Endless → IsSpent input.new }
    ensures write { result ≡ Err ReplayFault.Write → 0 < write_failures out.new }
    ensures memory { result ≡ Err ReplayFault.Memory → IsSound input.new }
    ensures waits { WaitsForRead input.old input.new out.old out.new }
    ensures flushes { FlushedOnce out.old out.new }
    ensures bound { bound_of input.new ≡ bound_of input.old }
    ensures shows { ShowsLines out.new result }
{
    *tally = Tally::none();
    let mut first = [0; FIRST_READ];
    let n = match input.read(&mut first) {
        Ok(n) => n,
        Err(_) => return Err(feed_fault(input)),
    };
    let begun = input.reads();
    let mut lent = first[..n].chain(input.lend());
    let told = tell_joined(alloc, &mut lent, tally, out);
    let back = lent.into_inner().1.give_back(begun);
    input.resume(back);
    match told {
        Ok(outcome) => finish(outcome, input, out),
        Err(Halt::Source) => Err(feed_fault(input)),
        Err(Halt::Fault(fault)) => Err(rules_fault(fault, input)),
    }
}
