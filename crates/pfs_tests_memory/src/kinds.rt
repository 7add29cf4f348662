//! Both kinds of store, by the calls that make an empty one.

ghost use Rattle.std.specs.Prelude.{◌≡◌, IfOk};
ghost use Rattle.pfs_store_contract.specs.Worlds.{empty_world};

use pfs_addr_values::NoMemory;
use pfs_conf::Config;
use pfs_store::{IndexStore, PlainStore, Store};
use std::alloc::Global;

/// A kind of store.
pub trait StoreKind: Store {
    /// The name of the call.
    fn call() -> &'static str;

    /// An empty store that is made for a configuration; `NoMemory` where memory for it is refused.
    fn empty(alloc: Global, config: &Config) -> Result<Self, NoMemory>
        ensures made_for { IfOk result (λ s. Self.config s ≡ config.now) }
        ensures empty { IfOk result (λ s. Self.world s ≡ empty_world) };
}

impl StoreKind for PlainStore {
    fn call() -> &'static str {
        "PlainStore::new"
    }

    fn empty(alloc: Global, config: &Config) -> Result<PlainStore, NoMemory> {
        PlainStore::new(alloc, config)
    }
}

impl StoreKind for IndexStore {
    fn call() -> &'static str {
        "IndexStore::new"
    }

    fn empty(alloc: Global, config: &Config) -> Result<IndexStore, NoMemory> {
        IndexStore::new(alloc, config)
    }
}
