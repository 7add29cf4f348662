//! A set of keys, found by their hash.

ghost use Rattle.std.specs.Prelude.{◌≡◌, ◌<◌, ◌^◌, IsOk, OnErr, OnOk, true};
ghost use Rattle.std.specs.FinSet.{contains, empty, insert, len, remove};

use indexmap::IndexSet;
use pfs_addr_values::{FlowKey, NoMemory};
use pfs_conf_values::RulesHasher;
use std::alloc::Global;
use std::marker::Model;

/// A key, as the table of a set has it. Clauses see the key.
#[derive(Debug, Clone, Copy, PartialEq, Eq, Hash)]
pub(crate) struct KeyEntry {
    key: FlowKey,
}

impl Model for KeyEntry {
    ghost use Rattle.pfs_addr_values.specs.declared.packets.FlowKey.{FlowKey};

    ghost Value = { FlowKey };

    ghost view = { λ e. e.key };

    ghost inverse = { λ k. record { key = k } };
}

/// A set of keys. Clauses see it as a finite set.
#[derive(Drop)]
pub(crate) struct KeySet {
    table: IndexSet<KeyEntry, RulesHasher>,
}

impl Model for KeySet {
    ghost use Rattle.std.specs.FinSet as set;
    ghost use Rattle.pfs_cookies.specs.KeyOrders.{key_cmp, key_code};
    ghost use Rattle.pfs_cookies.specs.Cookies.{keys_in};

    ghost Value = { set.FinSet key_cmp };

    ghost coded = { set.code key_code };

    ghost view = { λ s. keys_in s.table.keys };
}

impl KeySet {
    /// No keys, which will be found by this hasher. It takes no memory.
    pub(crate) fn new(alloc: Global, hasher: RulesHasher) -> KeySet
        ensures { result ≡ empty }
    {
        KeySet {
            table: IndexSet::with_hasher(alloc, hasher),
        }
    }

    /// No keys, which will be found as those of this set are. It takes no memory.
    pub(crate) fn none_beside(&self) -> KeySet
        ensures { result ≡ empty }
    {
        KeySet::new(*self.table.allocator(), *self.table.hasher())
    }

    /// How many keys there are.
    pub(crate) fn len(&self) -> u64
        ensures count { result ≡ len self.now }
        ensures small { result < 2 ^ 63 }
    {
        self.table.len() as u64
    }

    /// Whether the key is there.
    pub(crate) fn has(&self, key: &FlowKey) -> bool
        ensures { result ≡ contains self.now key.now }
    {
        self.table.contains(&KeyEntry { key: *key })
    }

    /// The key comes, if it is not there. `NoMemory` where memory for it is refused; nothing changes then.
    pub(crate) fn add(&mut self, key: &FlowKey) -> Result<(), NoMemory>
        ensures ok { OnOk result (self.new ≡ insert self.old key.now) }
        ensures err { OnErr result (self.new ≡ self.old) }
        ensures no_memory { contains self.old key.now ≡ true → IsOk result }
    {
        self.table.insert(KeyEntry { key: *key })?;
        Ok(())
    }

    /// The key leaves. Whether it was there is returned. It takes no memory.
    pub(crate) fn remove(&mut self, key: &FlowKey) -> bool
        ensures was { result ≡ contains self.old key.now }
        ensures after { self.new ≡ remove self.old key.now }
    {
        self.table.swap_remove(&KeyEntry { key: *key })
    }
}
