//! How many source nodes each scope has.

ghost use Rattle.std.specs.Prelude.{◌≡◌, ◌+◌, ◌-◌, ◌<◌, ◌^◌, ℕ, OnErr, OnOk};
ghost use Rattle.pfs_store_contract.specs.Counts.{same_scope};
ghost use Rattle.pfs_store_contract.specs.declared.records.NodeScope.{NodeScope};
ghost use Rattle.pfs_store_records.specs.RecordPlaces.{HasRoom, SameCounts, one_if};
ghost use Rattle.pfs_store_records.specs.Tallies.{count_of};

use pfs_addr_values::NoMemory;
use pfs_store_contract::NodeScope;
use std::alloc::Global;

/// A count for each scope: those of rules by their numbers, where the last are 0, and that of all.
#[derive(Drop)]
pub(crate) struct ScopeCounts {
    pub(crate) rules: Vec<u64>,
    pub(crate) global: u64,
}

impl ScopeCounts {
    /// All 0. It takes no memory.
    pub(crate) fn new(alloc: Global) -> ScopeCounts
        ensures { (scope : NodeScope) → count_of result.rules.items result.global scope ≡ 0 }
    {
        ScopeCounts {
            rules: Vec::new(alloc),
            global: 0,
        }
    }

    /// The count of a scope.
    pub(crate) fn get(&self, scope: NodeScope) -> u64
        ensures { result ≡ count_of self.now.rules.items self.now.global scope }
    {
        match scope {
            NodeScope::Rule(rule) => match self.rules.get(rule.0 as usize) {
                Some(count) => *count,
                None => 0,
            },
            NodeScope::Global => self.global,
        }
    }

    /// Makes room for the count of a scope. It returns `NoMemory` where memory for it is refused. No count changes.
    pub(crate) fn make_room(&mut self, scope: NodeScope) -> Result<(), NoMemory>
        ensures counts { SameCounts (count_of self.old.rules.items self.old.global) (count_of self.new.rules.items self.new.global) }
        ensures room { OnOk result (HasRoom self.new.rules.items scope) }
    {
        if let NodeScope::Rule(rule) = scope {
            let places = rule.0 as usize + 1;
            if self.rules.len() < places {
                self.rules.resize(places, 0)?;
            }
        }
        Ok(())
    }

    /// One more of a scope for whose count there is room.
    pub(crate) fn add(&mut self, scope: NodeScope)
        requires room { HasRoom self.old.rules.items scope }
        requires few { count_of self.old.rules.items self.old.global scope < 2 ^ 64 - 1 }
        ensures { (s : NodeScope) → count_of self.new.rules.items self.new.global s
            ≡ count_of self.old.rules.items self.old.global s + one_if (same_scope scope s) }
    {
        match scope {
            NodeScope::Rule(rule) => self.rules[rule.0 as usize] += 1,
            NodeScope::Global => self.global += 1,
        }
    }

    /// One less of a scope that has one.
    pub(crate) fn take(&mut self, scope: NodeScope)
        requires { 0 < count_of self.old.rules.items self.old.global scope }
        ensures { (s : NodeScope) → count_of self.old.rules.items self.old.global s
            ≡ count_of self.new.rules.items self.new.global s + one_if (same_scope scope s) }
    {
        match scope {
            NodeScope::Rule(rule) => self.rules[rule.0 as usize] -= 1,
            NodeScope::Global => self.global -= 1,
        }
    }
}
