//! The keys of states whose keys are apart: they lie aside from the records, which so stay as small as they are.

ghost use Rattle.std.specs.Prelude.{◌≡◌, [], None, OnErr, OnOk};
ghost use Rattle.pfs_store_records.specs.ApartKeys.{HasKeys, keys_apart, lying, with_keys};

use pfs_addr_values::{FlowKey, NoMemory};
use pfs_store_contract::State;
use std::alloc::Global;
use std::collections::BTreeMap;
use std::marker::Model;

/// The two keys of a state. (pf.conf(5), TRANSLATION)
#[derive(Clone, Copy)]
pub struct Keys {
    /// That on the wire.
    pub wire: FlowKey,
    /// That inside.
    pub inner: FlowKey,
}

/// The keys of states whose keys are apart, each by the number of its state. Clauses see them as a list.
#[derive(Drop)]
pub(crate) struct ApartKeys {
    by_number: BTreeMap<u64, Keys>,
}

impl Model for ApartKeys {
    ghost use Rattle.std.specs.Prelude.{ℕ, List};
    ghost use Rattle.pfs_store_records.specs.declared.apart_keys.Keys.{Keys};

    ghost Value = { List (ℕ × Keys) };

    ghost view = { λ a. a.by_number.entries };
}

impl ApartKeys {
    /// No keys. It takes no memory.
    pub(crate) fn new(alloc: Global) -> ApartKeys
        ensures { result ≡ [] }
    {
        ApartKeys {
            by_number: BTreeMap::new(alloc),
        }
    }

    /// The keys of the state of a number, where they are apart. It takes no memory.
    pub(crate) fn get(&self, number: u64) -> Option<Keys>
        ensures { result ≡ lying self.now number }
    {
        if self.by_number.is_empty() {
            return None;
        }
        self.by_number.get(&number).copied()
    }

    /// A state comes, of which nothing lies aside: its keys do now, if they are apart. `NoMemory` where memory for them is refused;
    /// nothing changes then.
    pub(crate) fn insert(&mut self, state: &State) -> Result<(), NoMemory>
        requires absent { lying self.old state.now.number ≡ None }
        ensures ok { OnOk result (HasKeys state.now.number (keys_apart state.now) self.old self.new) }
        ensures err { OnErr result (self.new ≡ self.old) }
    {
        match state.inner {
            None => Ok(()),
            Some(inner) => {
                let wire = state.key;
                // The proof needs the type of a key's protocol named here.
                let _proto = &wire.proto;
                match self.by_number.insert(state.number, Keys { wire, inner }) {
                    Ok(_) => Ok(()),
                    Err(_) => Err(NoMemory),
                }
            }
        }
    }

    /// The state of a number leaves: nothing of it lies aside any more. It takes no memory.
    pub(crate) fn remove(&mut self, number: u64)
        ensures { HasKeys number None self.old self.new }
    {
        if !self.by_number.is_empty() {
            self.by_number.remove(&number);
        }
    }

    /// A state as its record keeps it gets its keys. It takes no memory.
    pub(crate) fn join(&self, state: &mut State)
        requires bare { state.old.inner ≡ None }
        ensures { state.new ≡ with_keys (lying self.now state.old.number) state.old }
    {
        if let Some(keys) = self.get(state.number) {
            state.key = keys.wire;
            state.inner = Some(keys.inner);
        }
    }
}
