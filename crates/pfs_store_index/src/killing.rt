//! An administrator takes states out: a walk over all of them.

ghost use Rattle.std.specs.Prelude.{◌≡◌, ◌+◌, ◌-◌, ◌<◌, ◌≤◌, ◌^◌, filter, length, map, true};
ghost use Rattle.pfs_addr_values.specs.Packets.{run_limit};
ghost use Rattle.pfs_store_contract.specs.Calls.{stays_elsewhere};
ghost use Rattle.pfs_store_contract.specs.Leaving.{is_from_to, node_after_leaving};
ghost use Rattle.pfs_store_contract.specs.Purging.{state_numbers};
ghost use Rattle.pfs_store_contract.specs.Worlds.{holds_number};
ghost use Rattle.pfs_store_records.specs.Records.{IsRising};
ghost use Rattle.pfs_store_index.specs.Rounds.{state_survives};
ghost use Rattle.pfs_store_index.specs.Stored.{IsNumbered};

use crate::indexes::Indexes;
use pfs_addr_values::Meter;
use pfs_store_contract::FromTo;
use std::hash::BuildHasher;

/// Takes out the states that go from hosts to hosts, from a store that has used so many numbers. It looks at each state once.
pub(crate) fn kill_from_to<S: BuildHasher>(
    indexes: &mut Indexes<S>,
    hosts: &FromTo,
    made: u64,
    now: u64,
    meter: &mut Meter,
)
    requires moment { now ≤ 2 ^ 63 }
    requires numbered { IsNumbered made (state_numbers indexes.old.states) }
    requires few { length indexes.old.states ≤ run_limit }
    requires room { meter.old ≤ 2 ^ 63 }
    ensures config { indexes.new.config ≡ indexes.old.config }
    ensures states { indexes.new.states ≡ filter (stays_elsewhere hosts.now) indexes.old.states }
    ensures nodes { indexes.new.nodes ≡ map (node_after_leaving indexes.old.config indexes.old.states indexes.new.states now) indexes.old.nodes }
    ensures looks { meter.new ≡ meter.old + length indexes.old.states }
{
    let mut cursor = 0;
    let mut examined = 0u64;
    while let Some(number) = indexes.next_state(cursor, made) {
        strike(indexes, number, hosts, now, meter);
        cursor = number;
        examined += 1;
    }
}

/// The state of a number leaves where it goes from hosts to hosts.
fn strike<S: BuildHasher>(
    indexes: &mut Indexes<S>,
    number: u64,
    hosts: &FromTo,
    now: u64,
    meter: &mut Meter,
)
    requires moment { now ≤ 2 ^ 63 }
    requires held { holds_number indexes.old.states number ≡ true }
    requires room { meter.old < 2 ^ 64 - 1 }
    ensures config { indexes.new.config ≡ indexes.old.config }
    ensures states { indexes.new.states ≡ filter (state_survives (is_from_to hosts.now) number) indexes.old.states }
    ensures nodes { indexes.new.nodes ≡ map (node_after_leaving indexes.old.config indexes.old.states indexes.new.states now) indexes.old.nodes }
    ensures looks { meter.new ≡ meter.old + 1 }
    ensures rising { IsRising (state_numbers indexes.old.states) }
{
    indexes.state_numbers_rise();
    let state = indexes.read(number, meter);
    if hosts.is_of(&state) {
        indexes.take_out(&state, now);
    }
}
