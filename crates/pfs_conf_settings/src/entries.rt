//! The entries of a table that is being read, found by their prefixes.

ghost use Rattle.std.specs.Prelude.{◌≡◌, ◌++◌, [], ◌∷◌, IfOk, None, OnErr, OnOk, slice_get};
ghost use Rattle.pfs_conf_values.specs.Entries.{sign_of};

use indexmap::IndexMap;
use pfs_addr_values::{NoMemory, Prefix};
use pfs_conf_values::{Entries, RulesHasher};
use std::alloc::Global;
use std::marker::Model;

/// The entries of a table that is being read, in the order in which they first occur: prefixes, no two the same, each
/// with whether a `!` is before it.
///
/// Clauses see a list of pairs. (pf.conf(5), TABLES)
#[derive(Drop)]
pub struct EntryDraft {
    map: IndexMap<Prefix, bool, RulesHasher>,
}

impl Model for EntryDraft {
    ghost use Rattle.std.specs.Prelude.{Bool, List, All};
    ghost use Rattle.pfs_addr_values.specs.Prefixes.{Network, IsNetwork};

    ghost Value = { List (Network × Bool) };

    ghost view = { λ e. e.map.entries };

    ghost invariant = { λ e. All (λ (x : Network × Bool). IsNetwork x.0) e.map.entries };
}

impl EntryDraft {
    /// No entries, which will be found by this hasher. It takes no memory.
    pub fn new(alloc: Global, hasher: RulesHasher) -> EntryDraft
        ensures { result ≡ [] }
    {
        EntryDraft {
            map: IndexMap::with_hasher(alloc, hasher),
        }
    }

    /// Whether the entry with this prefix is negated, if there is one.
    pub fn get(&self, prefix: Prefix) -> Option<bool>
        ensures { result ≡ sign_of self.now prefix }
    {
        self.map.get(&prefix).copied()
    }

    /// Appends an entry whose prefix none of the others has. It returns `NoMemory` where memory for it is refused; the
    /// entries are then as before.
    pub fn add(&mut self, prefix: Prefix, negated: bool) -> Result<(), NoMemory>
        requires { sign_of self.old prefix ≡ None }
        ensures ok { OnOk result (self.new ≡ self.old ++ (prefix, negated) ∷ []) }
        ensures err { OnErr result (self.new ≡ self.old) }
    {
        // This call states to the proof that the bits past its length are zero.
        let _bits = prefix.bits();
        self.map.insert(prefix, negated)?;
        Ok(())
    }

    /// The entries, all read. It returns `NoMemory` where memory for them is refused.
    pub fn finish(&self, alloc: Global) -> Result<Entries, NoMemory>
        ensures { IfOk result (λ e. e ≡ self.now) }
    {
        let count = self.map.len();
        let mut list = Vec::with_capacity(alloc, count)?;
        for place in 0..count {
            list.push(self.at(place).unwrap())?;
        }
        Ok(Entries::of(list))
    }
    /// The entry at this place.
    fn at(&self, place: usize) -> Option<(Prefix, bool)>
        ensures { result ≡ slice_get self.now place }
    {
        let (prefix, negated) = self.map.get_index(place)?;
        Some((*prefix, *negated))
    }
}
