//! The index by source: by which address the states are found that a flush takes.

ghost use Rattle.std.specs.Prelude.{◌≡◌, ◌<◌, ◌^◌, OnErr, OnOk, false};
ghost use Rattle.std.specs.BTreeSet.{contains};
ghost use Rattle.pfs_addr_values.specs.Addresses.{IsAddr};
ghost use Rattle.pfs_addr_values.specs.declared.packets.Dir.{Dir};
ghost use Rattle.pfs_store_index.specs.Filed.{AreEmpty, HasFiled, HasPair, LosesFiled, LosesPair, SameFiled, SamePairs, filed_under, ordered_source, pair_cmp, pairs_on};

use crate::sources::Source;
use pfs_addr_values::{Dir, NoMemory};
use pfs_conf_values::Profile;
use pfs_store_contract::State;
use std::alloc::Global;
use std::collections::BTreeSet;

/// The states by what a flush asks for, each with its number: by its source, in the first set alone; under the profile of
/// OpenBSD 7.4 by both ends of its key, in a set each.
#[derive(Drop)]
pub(crate) struct FlushIndex {
    first: BTreeSet<(Source, u32)>,
    second: BTreeSet<(Source, u32)>,
}

impl FlushIndex {
    /// No states. It takes no memory.
    pub(crate) fn new(alloc: Global) -> FlushIndex
        ensures { AreEmpty result }
    {
        FlushIndex {
            first: BTreeSet::new(alloc),
            second: BTreeSet::new(alloc),
        }
    }

    /// The states by what a flush asks for whose state was made in a direction.
    pub(crate) fn pairs_on(&self, profile: Profile, dir: Dir) -> &BTreeSet<(Source, u32)>
        ensures { result.now ≡ pairs_on profile dir self.now }
    {
        match (profile, dir) {
            (Profile::Own, _) | (Profile::OpenBsd74, Dir::In) => &self.first,
            (Profile::OpenBsd74, Dir::Out) => &self.second,
        }
    }

    /// A state comes. `NoMemory` where memory for it is refused; nothing changes then.
    pub(crate) fn insert(&mut self, profile: Profile, state: &State) -> Result<(), NoMemory>
        requires small { state.now.number < 2 ^ 32 }
        requires absent { (dir : Dir) → IsAddr (filed_under profile dir state.now) →
            contains pair_cmp (pairs_on profile dir self.old) (ordered_source (filed_under profile dir state.now), state.now.number) ≡ false }
        ensures ok { OnOk result (HasFiled profile state.now self.old self.new) }
        ensures err { OnErr result (SameFiled profile self.old self.new) }
        ensures addr { (dir : Dir) → IsAddr (filed_under profile dir state.now) }
    {
        let number = state.number as u32;
        match profile {
            Profile::Own => {
                let pair = (Source::of(state.source), number);
                insert_one(&mut self.first, pair)
            }
            Profile::OpenBsd74 => {
                let a = (Source::of(state.key.a.addr), number);
                let b = (Source::of(state.key.b.addr), number);
                insert_both(&mut self.first, &mut self.second, a, b)
            }
        }
    }

    /// A state leaves. It takes no memory.
    pub(crate) fn remove(&mut self, profile: Profile, state: &State)
        requires small { state.now.number < 2 ^ 32 }
        ensures filed { LosesFiled profile state.now self.old self.new }
        ensures addr { (dir : Dir) → IsAddr (filed_under profile dir state.now) }
    {
        let number = state.number as u32;
        match profile {
            Profile::Own => {
                self.first.remove(&(Source::of(state.source), number));
            }
            Profile::OpenBsd74 => {
                self.first.remove(&(Source::of(state.key.a.addr), number));
                self.second.remove(&(Source::of(state.key.b.addr), number));
            }
        }
    }
}

/// A pair is added to a set. Where memory is refused, it stays as it was.
fn insert_one(pairs: &mut BTreeSet<(Source, u32)>, pair: (Source, u32)) -> Result<(), NoMemory>
    ensures ok { OnOk result (HasPair pair pairs.old pairs.new) }
    ensures err { OnErr result (SamePairs pairs.old pairs.new) }
{
    match pairs.insert(pair) {
        Ok(_) => Ok(()),
        Err(_) => Err(NoMemory),
    }
}

/// A pair is added to each of two sets, or to none where memory is refused.
fn insert_both(
    first: &mut BTreeSet<(Source, u32)>,
    second: &mut BTreeSet<(Source, u32)>,
    a: (Source, u32),
    b: (Source, u32),
) -> Result<(), NoMemory>
    requires absent { contains pair_cmp first.old a ≡ false }
    ensures ok { OnOk result (HasPair a first.old first.new × HasPair b second.old second.new) }
    ensures err { OnErr result (SamePairs first.old first.new × SamePairs second.old second.new) }
{
    match first.insert(a) {
        Err(_) => Err(NoMemory),
        Ok(_) => match second.insert(b) {
            Ok(_) => Ok(()),
            Err(_) => {
                first.remove(&a);
                Err(NoMemory)
            }
        },
    }
}
