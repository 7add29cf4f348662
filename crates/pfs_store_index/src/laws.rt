//! A law of the store by indexes; it computes nothing.

ghost use Rattle.std.specs.Prelude.{◌≡◌, true};

use crate::store::IndexStore;
use pfs_store_contract::Store;
use std::hash::BuildHasher;

/// The store by indexes counts looks: so what `Store` and the engine promise of a kind of store that counts looks holds of it.
pub fn looks_are_counted<S: BuildHasher>(_store: &IndexStore<S>)
    ensures { ⟦<IndexStore<S> as Store>⟧.counts ≡ true }
{}
