//! Time that passes: the purges that are due, and behind them the turns of the guard's secret.

ghost use Rattle.std.specs.Prelude.{◌≡◌, ◌<◌, ◌≤◌, ◌^◌};
ghost use Rattle.std.specs.Option.{ForSome};
ghost use Rattle.pfs_engine_machine.specs.Guards.{guard_after_seconds};
ghost use Rattle.pfs_engine_machine.specs.Machine.{due, held_of};
ghost use Rattle.pfs_store_contract.specs.Seconds.{purged_of, seconds, world_after_purges};
ghost use Rattle.pfs_engine.specs.Calls.{IsWorkOfSeconds};
ghost use Rattle.pfs_engine.specs.Contents.{IsHeldAfter};

use crate::contents::EngineContents;
use crate::guard::EngineGuard;
use crate::works::Work;
use pfs_store_contract::{Purged, Store};

/// All seconds due between the last moment and this one; none before the first event. It takes no memory. Inlined: each record asks it,
/// and mostly nothing is due.
#[inline(always)]
#[tactic(auto, using(crate::proofs::Due::none_due))]
pub(crate) fn pass_due<S: Store>(
    guard: &mut EngineGuard,
    held: &mut EngineContents<S>,
    last: Option<u64>,
    now: u64,
) -> Work
    requires order { ForSome last (λ m. m ≤ now) }
    requires moment { now < 2 ^ 32 }
    ensures held { IsHeldAfter held.old held.new
        (held_of (world_after_purges held.old.config held.old.held.world (due last now)) held.old.held.tables) }
    ensures guard { guard.new ≡ guard_after_seconds held.old.config held.old.held.world guard.old (due last now) }
    ensures work { IsWorkOfSeconds S.counts held.old.config held.old.held.world (due last now) result }
{
    match last {
        // Most records come in the second of the one before.
        Some(last) if last == now => Work::none(),
        Some(last) => {
            let purged = pass(guard, held, last, now);
            Work {
                looks: purged.looks,
                slices: 2 * (now - last),
                most_states: purged.most_states,
                most_nodes: purged.most_nodes,
                ..Work::none()
            }
        }
        None => Work::none(),
    }
}

/// The seconds after one moment up to another, parted at those at which the secret turns; and how much they
/// examined.
fn pass<S: Store>(
    guard: &mut EngineGuard,
    held: &mut EngineContents<S>,
    from: u64,
    to: u64,
) -> Purged
    requires order { from ≤ to }
    requires moment { to < 2 ^ 32 }
    ensures held { IsHeldAfter held.old held.new
        (held_of (world_after_purges held.old.config held.old.held.world (seconds from to)) held.old.held.tables) }
    ensures guard { guard.new ≡ guard_after_seconds held.old.config held.old.held.world guard.old (seconds from to) }
    ensures answer { result ≡ purged_of S.counts held.old.config held.old.held.world (seconds from to) }
{
    let mut at = from;
    let mut purged = Purged::none();
    while let Some(turn) = guard.next_turn(at, to) {
        purged = purged.greatest(held.purge(at, turn));
        guard.turn(held);
        at = turn;
    }
    purged.greatest(held.purge(at, to))
}
