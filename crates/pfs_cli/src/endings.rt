//! How a call over a feed ends: the fault that is reported, and the flush of what was written whole.

ghost use Rattle.std.specs.Prelude.{◌≡◌, ◌≢◌, Err, ◌<◌, ℕ, List};
ghost use Rattle.std.specs.Io.KnownBytes.{Keeps};
ghost use Rattle.pfs_streams.specs.Feeds.{IsSound, IsSpent, read_failures};
ghost use Rattle.pfs_streams.specs.Sinks.{FlushedOnce, bytes_held, write_failures};
ghost use Rattle.pfs_conf_values.specs.Configs.{Conf};
ghost use Rattle.pfs_conf.specs.declared.faults.LoadFault.{LoadFault};
ghost use Rattle.pfs_conf.specs.Reads.{Reads};
ghost use Rattle.pfs_cli.specs.RecordTurns.{PassedOn, Tells};
ghost use Rattle.pfs_cli.specs.Refusing.{AnswersRun, AnswersStop, IsFeedFault, RefusesRules, RefusesText};
ghost use Rattle.pfs_trace.specs.Traces.{trace_of};
ghost use Rattle.pfs_cli.specs.Replays.{Replays, ShowsLines};

use crate::faults::{ReplayFault, of_trace};
use crate::records::RecordsStop;
use pfs_streams::{Feed, Sink};
use std::io::Write;

/// Why a call over this feed failed, where it has no fault of its own: what failed of the feed, or else memory was refused.
pub(crate) fn feed_fault<R>(feed: &Feed<R>) -> ReplayFault
    ensures kinds { IsFeedFault result }
    ensures read { result ≡ ReplayFault.Read → 0 < read_failures feed.now }
    ensures endless { result ≡ ReplayFault.Endless → IsSpent feed.now }
    ensures memory { result ≡ ReplayFault.Memory → IsSound feed.now }
{
    if feed.failures() > 0 {
        ReplayFault::Read
    } else if feed.spent() {
        ReplayFault::Endless
    } else {
        ReplayFault::Memory
    }
}

/// The fault of rules that are refused, or where memory was. What failed of their feed is never told as that.
pub(crate) fn rules_fault<R>(fault: ReplayFault, feed: &Feed<R>) -> ReplayFault
    ensures told { (rs : List ℕ) → RefusesRules rs fault → RefusesText rs result }
    ensures read { result ≡ ReplayFault.Read → 0 < read_failures feed.now }
    ensures endless { result ≡ ReplayFault.Endless → IsSpent feed.now }
    ensures memory { result ≡ ReplayFault.Memory → IsSound feed.now }
    ensures no_write { result ≢ ReplayFault.Write }
{
    match fault {
        ReplayFault::Rules(_) => fault,
        _ => feed_fault(feed),
    }
}

/// The fault of a run over this feed that stopped.
pub(crate) fn fault_at<R>(stop: RecordsStop, feed: &Feed<R>) -> ReplayFault
    ensures told { (conf : Conf) (rs : List ℕ) (ts : List ℕ) (t : List ℕ) → Reads rs conf → Tells conf (trace_of conf ts) t (Err stop) → Replays rs ts t (Err result) }
    ensures no_rules { (f : LoadFault) → result ≢ ReplayFault.Rules f }
    ensures read { result ≡ ReplayFault.Read → 0 < read_failures feed.now }
    ensures endless { result ≡ ReplayFault.Endless → IsSpent feed.now }
    ensures memory { result ≡ ReplayFault.Memory → IsSound feed.now }
    ensures answers { AnswersStop stop result }
{
    match stop {
        RecordsStop::Fault(fault) => of_trace(fault),
        RecordsStop::Source => feed_fault(feed),
        RecordsStop::Memory => feed_fault(feed),
        RecordsStop::Write => ReplayFault::Write,
    }
}

/// Flushes a report that is written whole, or returns why it is not.
pub(crate) fn finish<R, W: Write>(
    outcome: Result<(), RecordsStop>,
    feed: &Feed<R>,
    out: &mut Sink<W>,
) -> Result<(), ReplayFault>
    requires failed { outcome ≡ Err (RecordsStop.Write) → 0 < write_failures out.old }
    requires passed_on { PassedOn out.old outcome }
    ensures kept { Keeps (bytes_held W.contents out.old) (bytes_held W.contents out.new) }
    ensures told { (conf : Conf) (rs : List ℕ) (ts : List ℕ) (t : List ℕ) → Reads rs conf → Tells conf (trace_of conf ts) t outcome → Replays rs ts t result }
    ensures no_rules { (f : LoadFault) → result ≢ Err (ReplayFault.Rules f) }
    ensures read { result ≡ Err ReplayFault.Read → 0 < read_failures feed.now }
    ensures endless { result ≡ Err ReplayFault.Endless → IsSpent feed.now }
    ensures write { result ≡ Err ReplayFault.Write → 0 < write_failures out.new }
    ensures memory { result ≡ Err ReplayFault.Memory → IsSound feed.now }
    ensures flushes { FlushedOnce out.old out.new }
    ensures answers { AnswersRun outcome result }
    ensures shows { ShowsLines out.new result }
{
    match outcome {
        Ok(()) => {
            if out.flush().is_err() {
                return Err(ReplayFault::Write);
            }
            Ok(())
        }
        Err(stop) => Err(fault_at(stop, feed)),
    }
}
