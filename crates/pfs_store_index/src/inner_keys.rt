//! The states by their keys inside: those alone whose keys are apart.

ghost use Rattle.std.specs.Prelude.{◌≡◌, ◌<◌, IsSome, None, OnOk, Some, cond};
ghost use Rattle.indexmap.specs.IndexMap.{get, spare};
ghost use Rattle.pfs_addr_values.specs.Sameness.{same_key};
ghost use Rattle.pfs_addr_values.specs.declared.packets.FlowKey.{FlowKey};
ghost use Rattle.pfs_store_index.specs.IndexInvariants.{is_inner};

use crate::indexes::IndexEntry;
use indexmap::IndexMap;
use pfs_addr_values::NoMemory;
use pfs_store_contract::State;
use pfs_store_records::StateKey;
use std::hash::BuildHasher;

/// Makes room for the inner key of a state, where its keys are apart.
pub(crate) fn make_room<S: BuildHasher>(
    insides: &mut IndexMap<StateKey, IndexEntry, S>,
    state: &State,
) -> Result<(), NoMemory>
    ensures same { (key : FlowKey) → get same_key insides.new key ≡ get same_key insides.old key }
    ensures room { OnOk result (IsSome state.now.inner → 0 < spare insides.new) }
{
    match state.inner {
        None => Ok(()),
        Some(_) => {
            if insides.reserve(1).is_err() {
                return Err(NoMemory);
            }
            Ok(())
        }
    }
}

/// A state comes, for whose inner key there is room where its keys are apart.
pub(crate) fn insert<S: BuildHasher>(
    insides: &mut IndexMap<StateKey, IndexEntry, S>,
    state: &State,
    entry: IndexEntry,
)
    requires room { IsSome state.now.inner → 0 < spare insides.old }
    ensures { (key : FlowKey) → get same_key insides.new key ≡ cond (is_inner key state.now.inner) (Some entry) (get same_key insides.old key) }
{
    if let Some(inner) = state.inner {
        match insides.insert(StateKey { key: inner }, entry) {
            Ok(_) => {}
            Err(_) => unreachable!(),
        }
    }
}

/// A state leaves.
pub(crate) fn remove<S: BuildHasher>(insides: &mut IndexMap<StateKey, IndexEntry, S>, state: &State)
    ensures { (key : FlowKey) → get same_key insides.new key ≡ cond (is_inner key state.now.inner) None (get same_key insides.old key) }
{
    if let Some(inner) = state.inner {
        insides.swap_remove(&StateKey { key: inner });
    }
}
