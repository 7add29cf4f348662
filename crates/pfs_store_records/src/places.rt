//! The places of records by their numbers.

ghost use Rattle.std.specs.Prelude.{◌≡◌, ◌<◌, ◌≤◌, ◌^◌, ◌++◌, ◌∷◌, [], None, OnErr, OnOk, Some, length};
ghost use Rattle.std.proofs.Common.{rules};
ghost use Rattle.std.specs.BTreeMap.{is_at};
ghost use Rattle.std.specs.BTreeMap.Range.{entries_between};
ghost use Rattle.std.specs.Cmp.Rules.{comparing};
ghost use Rattle.std.specs.Map.{keys_of, lookup, remove_entry};
ghost use Rattle.std.specs.Ordering.{as_partial_cmp, flip_args, nat_cmp};
ghost use Rattle.std.specs.declared.ops.Bound.TheVariants.{Excluded, Included};
ghost use Rattle.pfs_store_records.specs.Numbered.{HasPlace, IsFirstLeft};
ghost use Rattle.pfs_store_records.specs.Records.{IsAbove, IsRising};

use pfs_addr_values::NoMemory;
use std::alloc::Global;
use std::cmp::Ordering;
use std::collections::BTreeMap;
use std::collections::btree_map::Range;
use std::marker::Model;
use std::ops::Bound;

/// A number, in falling order.
#[derive(Clone, Copy, PartialEq, Eq)]
struct Reverse(u64);

impl Model for Reverse {
    ghost use Rattle.std.specs.Prelude.{ℕ};

    ghost Value = { ℕ };

    ghost view = { λ n. n.0 };

    ghost inverse = { λ n. record { 0 = n } };
}

impl PartialOrd for Reverse {
    ghost partial_cmp = { as_partial_cmp (flip_args nat_cmp) };

    ghost laws = { Prim.search (comparing, rules) };

    fn partial_cmp(&self, other: &Reverse) -> Option<Ordering> {
        Some(self.cmp(other))
    }
}

impl Ord for Reverse {
    ghost cmp = { flip_args nat_cmp };

    ghost total = { Prim.search (comparing, rules) };

    ghost matches_partial_cmp = { Prim.search (comparing, rules) };

    ghost matches_eq = { Prim.search (comparing, rules) };

    fn cmp(&self, other: &Reverse) -> Ordering {
        other.0.cmp(&self.0)
    }
}

/// The places of records, each by its number. Callers see them by rising number. The map has the greatest number first, where the
/// search of each node of its tree begins: a record that comes has a number above all others, so one comparison a node finds
/// where it goes.
#[derive(Drop)]
pub struct Places {
    falling: BTreeMap<Reverse, u32>,
}

impl Model for Places {
    ghost use Rattle.std.specs.Prelude.{reverse};
    ghost use Rattle.std.specs.List.Sorted.{IsStrictlySortedBy};
    ghost use Rattle.std.specs.Map.{keys_of};
    ghost use Rattle.std.specs.Ordering.{flip_args, nat_cmp};
    ghost use Rattle.pfs_store_records.specs.Numbered.{NumberedPlaces};

    ghost Value = { NumberedPlaces };

    ghost view = { λ p. record { entries = reverse p.falling.entries } };

    ghost invariant = { λ p. IsStrictlySortedBy (flip_args nat_cmp) (keys_of p.falling.entries) };
}

impl Places {
    /// No places. It takes no memory.
    pub(crate) fn new(alloc: Global) -> Places
        ensures empty { result.entries ≡ [] }
        ensures ordered { IsRising (keys_of result.entries) }
    {
        Places {
            falling: BTreeMap::new(alloc),
        }
    }

    /// How many places there are. It takes no memory.
    pub fn len(&self) -> usize
        ensures len { result ≡ length self.now.entries }
        ensures small { result < 2 ^ 63 }
        ensures ordered { IsRising (keys_of self.now.entries) }
    {
        self.falling.len()
    }

    /// The place of a number. It takes no memory.
    pub(crate) fn get(&self, number: u64) -> Option<u32>
        ensures value { result ≡ lookup (is_at (nat_cmp number)) self.now.entries }
        ensures ordered { IsRising (keys_of self.now.entries) }
    {
        self.falling.get(&Reverse(number)).copied()
    }

    /// Adds a number above all others, with its place. It returns `NoMemory` where memory for it is refused; nothing changes then.
    pub(crate) fn push(&mut self, number: u64, place: u32) -> Result<(), NoMemory>
        requires above { IsAbove number (keys_of self.old.entries) }
        ensures entries { OnOk result (self.new.entries ≡ self.old.entries ++ (number, place) ∷ []) }
        ensures updates { OnOk result (HasPlace number (Some place) self.old.entries self.new.entries) }
        ensures err { OnErr result (self.new.entries ≡ self.old.entries) }
        ensures ordered { IsRising (keys_of self.new.entries) }
    {
        match self.falling.insert(Reverse(number), place) {
            Ok(_) => Ok(()),
            Err(_) => Err(NoMemory),
        }
    }

    /// Removes a number, and returns its place, if it had one. It takes no memory.
    pub(crate) fn remove(&mut self, number: u64) -> Option<u32>
        ensures value { result ≡ lookup (is_at (nat_cmp number)) self.old.entries }
        ensures entries { self.new.entries ≡ remove_entry (is_at (nat_cmp number)) self.old.entries }
        ensures updates { HasPlace number None self.old.entries self.new.entries }
        ensures ordered { IsRising (keys_of self.new.entries) }
    {
        self.falling.remove(&Reverse(number))
    }

    /// The places of the numbers above one, and up to another, by rising number: one search. It takes no memory.
    pub fn between(&self, above: u64, most: u64) -> PlacesBetween<'_>
        requires { above ≤ most }
        ensures between { result ≡ entries_between nat_cmp (Excluded above) (Included most) self.now.entries }
        ensures ordered { IsRising (keys_of self.now.entries) }
    {
        PlacesBetween {
            falling: self.falling.range((
                Bound::Included(Reverse(most)),
                Bound::Excluded(Reverse(above)),
            )),
        }
    }
}

/// What is left of the places of a range of numbers. Callers see them by rising number.
#[derive(Drop)]
pub struct PlacesBetween<'a> {
    falling: Range<'a, Reverse, u32>,
}

impl<'a> Model for PlacesBetween<'a> {
    ghost use Rattle.std.specs.Prelude.{ℕ, List, reverse};

    ghost Value = { List (ℕ × ℕ) };

    ghost view = { λ p. reverse p.falling };
}

impl<'a> PlacesBetween<'a> {
    /// The next number, and its place. It takes no memory.
    pub fn next(&mut self) -> Option<(u64, u32)>
        ensures steps { IsFirstLeft self.old result self.new }
    {
        match self.falling.next_back() {
            Some((number, place)) => Some((number.0, *place)),
            None => None,
        }
    }
}
