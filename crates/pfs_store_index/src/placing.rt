//! A new state takes its place in the records, in the index by source and in its node, or in none of them.

ghost use Rattle.std.specs.Prelude.{◌≡◌, ◌<◌, ◌^◌, ◌++◌, ◌∷◌, [], IfOk, OnErr, OnOk, false, Some};
ghost use Rattle.std.specs.BTreeSet.{contains};
ghost use Rattle.pfs_addr_values.specs.declared.packets.Dir.{Dir};
ghost use Rattle.std.specs.List.{AllByRecursion};
ghost use Rattle.pfs_addr_values.specs.Addresses.{IsAddr};
ghost use Rattle.pfs_store_contract.specs.Purging.{node_numbers, state_numbers};
ghost use Rattle.pfs_store_records.specs.Records.{IsAbove, placed_at, states_of};
ghost use Rattle.pfs_store_records.specs.Sourced.{IsSourced};
ghost use Rattle.pfs_store_records.specs.Tallies.{nodes_of};
ghost use Rattle.pfs_store_index.specs.Filed.{HasFiled, SameFiled, filed_under, ordered_source, pair_cmp, pairs_on};
ghost use Rattle.pfs_store_records.specs.Changes.{IsFew, tallies_with_state};

use crate::flush_index::FlushIndex;
use pfs_addr_values::NoMemory;
use pfs_conf_values::Profile;
use pfs_store_contract::{NodeScope, State};
use pfs_store_records::{Nodes, Records, join};
use std::hash::BuildHasher;

/// Places a state whose number is above all others, and returns the place of its record. Where memory is refused,
/// nothing is placed.
pub(crate) fn place<S: BuildHasher>(
    records: &mut Records,
    filing: &mut FlushIndex,
    nodes: &mut Nodes<S>,
    state: &State,
    scope: Option<NodeScope>,
    profile: Profile,
) -> Result<u32, NoMemory>
    requires few { AllByRecursion IsFew nodes.old }
    requires above { IsAbove state.now.number (state_numbers (states_of records.old)) }
    requires nodes_above { IsAbove state.now.number (node_numbers (nodes_of nodes.old)) }
    requires sourced { IsSourced state.now }
    requires small { state.now.number < 2 ^ 32 }
    requires absent { (dir : Dir) → IsAddr (filed_under profile dir state.now) →
        contains pair_cmp (pairs_on profile dir filing.old) (ordered_source (filed_under profile dir state.now), state.now.number) ≡ false }
    ensures records { IfOk result (λ place. records.new ≡ records.old ++ placed_at place state.now ∷ []) }
    ensures filed { OnOk result (HasFiled profile state.now filing.old filing.new) }
    ensures nodes { OnOk result (nodes.new ≡ tallies_with_state scope state.now nodes.old) }
    ensures addr { (dir : Dir) → IsAddr (filed_under profile dir state.now) }
    ensures same_records { OnErr result (records.new ≡ records.old) }
    ensures same_filed { OnErr result (SameFiled profile filing.old filing.new) }
    ensures same_nodes { OnErr result (nodes.new ≡ nodes.old) }
{
    match filing.insert(profile, state) {
        Err(_) => Err(NoMemory),
        Ok(_) => match records.push(state) {
            Err(_) => {
                filing.remove(profile, state);
                Err(NoMemory)
            }
            Ok(place) => match join(nodes, scope, state) {
                Err(_) => {
                    records.remove(state.number);
                    filing.remove(profile, state);
                    Err(NoMemory)
                }
                Ok(_) => Ok(place),
            },
        },
    }
}
