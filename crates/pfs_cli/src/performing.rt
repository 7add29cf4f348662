//! One job of the command line.

ghost use Rattle.std.specs.Prelude.{◌≡◌, ◌⊎◌, Some, Err, ◌<◌, ◌≤◌, ◌+◌, ℕ, List, drop, true};
ghost use Rattle.std.specs.Io.KnownBytes.{Appends};
ghost use Rattle.pfs_streams.specs.Feeds.{bound_of, unread, has_ended, IsFresh, IsSound, IsSpent, reads_of, read_failures};
ghost use Rattle.pfs_streams.specs.Sinks.{FlushedOnce, OwesNoFlush, bytes_held, write_failures};
ghost use Rattle.pfs_conf.specs.declared.faults.LoadFault.{LoadFault};
ghost use Rattle.pfs_streams.specs.RulesKept.{rules_limit};
ghost use Rattle.pfs_cli.specs.Rules.{AreRefused};
ghost use Rattle.pfs_cli.specs.Refusing.{HasNoRules, TellsRulesAlone};
ghost use Rattle.pfs_cli.specs.Replays.{ShowsLines, WaitsForRead};
ghost use Rattle.pfs_cli.specs.Performing.{OfJoined, OfReplay, OfRulesFile, Performs, ReadsRulesAlone, Tallies, rules_within};

use crate::checks::{check, print};
use crate::faults::ReplayFault;
use crate::joined::replay_joined;
use crate::replays::replay;
use crate::tallies::Tally;
use pfs_cli_jobs::Job;
use pfs_streams::{Feed, Sink};
use std::alloc::Global;
use std::io::{Read, Write};

/// Does a job over the feeds that it needs: `replay_joined` of the rules' feed for `Joined`, and `check`, `print` or
/// `replay` for the others. A feed that the job does not need is not read. What is written and answered is what that call
/// writes and answers: of a rules file no more than 1,048,577 bytes are read, and nothing of a replay is written before
/// its rules are read to their end and its trace has been read. The tally is that of the replay, and of no event for the others.
pub fn perform<R: Read, T: Read, W: Write>(
    alloc: Global,
    job: &Job,
    rules: &mut Feed<R>,
    trace: &mut Feed<T>,
    tally: &mut Tally,
    out: &mut Sink<W>,
) -> Result<(), ReplayFault>
    requires fresh { IsFresh rules.old }
    requires passed_on { OwesNoFlush out.old }
    ensures performs { (rs : List ℕ) (ts : List ℕ) → unread R.remaining rules.old ≡ Some rs → OfReplay job.now (unread T.remaining trace.old ≡ Some ts) →
        ((t : List ℕ) × Appends (bytes_held W.contents out.old) (bytes_held W.contents out.new) t × Performs job.now rs ts t result) }
    ensures work { (rs : List ℕ) (ts : List ℕ) → unread R.remaining rules.old ≡ Some rs → OfReplay job.now (unread T.remaining trace.old ≡ Some ts) →
        ((t : List ℕ) × Appends (bytes_held W.contents out.old) (bytes_held W.contents out.new) t × Tallies job.now rs ts t result tally.new) }
    ensures refused { (rs : List ℕ) (f : LoadFault) → unread R.remaining rules.old ≡ Some rs → result ≡ Err (ReplayFault.Rules f) → AreRefused (rules_within job.now rs) f }
    ensures untouched { ReadsRulesAlone job.now (trace.new ≡ trace.old) }
    ensures rules_first { OfReplay job.now ((out.new ≡ out.old) ⊎ ((has_ended rules.new ≡ true) × (read_failures rules.new ≡ 0))) }
    ensures trace_first { OfReplay job.now ((out.new ≡ out.old) ⊎ (0 < reads_of trace.new)) }
    ensures input_first { OfJoined job.now ((out.new ≡ out.old) ⊎ (0 < reads_of rules.new)) }
    ensures few { OfRulesFile job.now ((rs : List ℕ) → unread R.remaining rules.old ≡ Some rs →
        (k : ℕ) × (k ≤ rules_limit + 1) × (unread R.remaining rules.new ≡ Some (drop k rs))) }
    ensures read { result ≡ Err ReplayFault.Read → (0 < read_failures rules.new) ⊎ (0 < read_failures trace.new) }
    ensures endless { result ≡ Err ReplayFault.Endless → IsSpent rules.new ⊎ IsSpent trace.new }
    ensures write { result ≡ Err ReplayFault.Write → 0 < write_failures out.new }
    ensures memory { result ≡ Err ReplayFault.Memory → IsSound rules.new × ((trace.new ≡ trace.old) ⊎ IsSound trace.new) }
    ensures rules_alone { OfReplay job.now ((rs : List ℕ) → unread R.remaining rules.old ≡ Some rs → HasNoRules rs → TellsRulesAlone rs result × (trace.new ≡ trace.old)) }
    ensures unwritten { (f : LoadFault) → result ≡ Err (ReplayFault.Rules f) → out.new ≡ out.old }
    ensures trace_waits { OfReplay job.now (WaitsForRead trace.old trace.new out.old out.new) }
    ensures input_waits { OfJoined job.now (WaitsForRead rules.old rules.new out.old out.new) }
    ensures bounds { (bound_of rules.new ≡ bound_of rules.old) × (bound_of trace.new ≡ bound_of trace.old) }
    ensures flushes { FlushedOnce out.old out.new }
    ensures shows { ShowsLines out.new result }
{
    *tally = Tally::none();
    match job {
        Job::Joined => replay_joined(alloc, rules, tally, out),
        Job::Check(_) => check(alloc, rules, out),
        Job::Show(_) => print(alloc, rules, out),
        Job::Replay(_, _) => replay(alloc, rules, trace, tally, out),
    }
}
