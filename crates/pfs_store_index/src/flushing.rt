//! The states of a source are flushed: a walk over its own states alone.

ghost use Rattle.std.specs.Prelude.{◌≡◌, ◌+◌, ◌-◌, ◌<◌, ◌≤◌, ◌^◌, filter, length, map, true};
ghost use Rattle.pfs_addr_values.specs.Packets.{run_limit};
ghost use Rattle.pfs_store_contract.specs.Calls.{source_states, stays_unflushed};
ghost use Rattle.pfs_store_contract.specs.Leaving.{is_beside, is_flushed, node_after_leaving};
ghost use Rattle.pfs_store_contract.specs.Purging.{state_numbers};
ghost use Rattle.pfs_store_contract.specs.Worlds.{holds_number};
ghost use Rattle.pfs_store_records.specs.Records.{IsRising};
ghost use Rattle.pfs_store_index.specs.Rounds.{state_survives};
ghost use Rattle.pfs_store_index.specs.Stored.{IsNumbered};

use crate::indexes::Indexes;
use pfs_addr_values::{Addr, Dir, Meter};
use pfs_conf_values::{Profile, RuleNo};
use pfs_store_contract::State;
use std::hash::BuildHasher;

/// Which states are flushed: those of a source, all of them or those of one rule, at a limit that a state met which was made in a
/// direction.
#[derive(Clone, Copy)]
pub(crate) struct Flushed {
    pub(crate) dir: Dir,
    pub(crate) source: Addr,
    pub(crate) rule: Option<RuleNo>,
}

/// Takes out the states that are flushed, from a store that has used so many numbers. It looks at each state that it takes for one
/// of the source, of whatever rule, and at no other.
pub(crate) fn flush<S: BuildHasher>(
    indexes: &mut Indexes<S>,
    what: Flushed,
    made: u64,
    now: u64,
    meter: &mut Meter,
)
    requires moment { now ≤ 2 ^ 63 }
    requires numbered { IsNumbered made (state_numbers indexes.old.states) }
    requires small { made < 2 ^ 32 }
    requires few { length indexes.old.states ≤ run_limit }
    requires room { meter.old ≤ 2 ^ 63 }
    ensures config { indexes.new.config ≡ indexes.old.config }
    ensures states { indexes.new.states ≡ filter (stays_unflushed indexes.old.config.profile what.dir what.source what.rule) indexes.old.states }
    ensures nodes { indexes.new.nodes ≡ map (node_after_leaving indexes.old.config indexes.old.states indexes.new.states now) indexes.old.nodes }
    ensures looks { meter.new ≡ meter.old + source_states indexes.old.config.profile what.dir what.source indexes.old.states }
{
    let mut cursor = 0;
    let mut examined = 0u64;
    while let Some(number) = indexes.next_beside(what.dir, what.source, cursor, made) {
        strike(indexes, number, what, now, meter);
        cursor = number;
        examined += 1;
    }
}

/// The state of a number leaves where it is one of those that are flushed.
fn strike<S: BuildHasher>(
    indexes: &mut Indexes<S>,
    number: u64,
    what: Flushed,
    now: u64,
    meter: &mut Meter,
)
    requires moment { now ≤ 2 ^ 63 }
    requires held { holds_number indexes.old.states number ≡ true }
    requires room { meter.old < 2 ^ 64 - 1 }
    ensures config { indexes.new.config ≡ indexes.old.config }
    ensures states { indexes.new.states ≡ filter (state_survives (is_flushed indexes.old.config.profile what.dir what.source what.rule) number) indexes.old.states }
    ensures nodes { indexes.new.nodes ≡ map (node_after_leaving indexes.old.config indexes.old.states indexes.new.states now) indexes.old.nodes }
    ensures looks { meter.new ≡ meter.old + 1 }
    ensures rising { IsRising (state_numbers indexes.old.states) }
{
    indexes.state_numbers_rise();
    let profile = indexes.profile();
    let state = indexes.read(number, meter);
    if is_flushed(profile, &what, &state) {
        indexes.take_out(&state, now);
    }
}

fn is_flushed(profile: Profile, what: &Flushed, state: &State) -> bool
    ensures { result ≡ is_flushed profile what.now.dir what.now.source what.now.rule state.now }
{
    match what.rule {
        Some(rule) => state.rule == rule && is_beside(profile, what.dir, what.source, state),
        None => is_beside(profile, what.dir, what.source, state),
    }
}

fn is_beside(profile: Profile, dir: Dir, source: Addr, state: &State) -> bool
    ensures { result ≡ is_beside profile dir source state.now }
{
    match (profile, dir) {
        (Profile::Own, _) => state.source == source,
        (Profile::OpenBsd74, Dir::In) => state.key.a.addr == source,
        (Profile::OpenBsd74, Dir::Out) => state.key.b.addr == source,
    }
}
