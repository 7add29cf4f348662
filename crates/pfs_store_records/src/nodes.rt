//! The source nodes with the counts of their states, found by scope and source, and walked by number: a walk ticks the meter for each
//! that it reads.

ghost use Rattle.std.specs.Prelude.{◌≡◌, ◌+◌, ◌-◌, ◌^◌, ◌==◌, ◌<◌, ◌≤◌, ◌++◌, ◌∷◌, [], None, OnErr, OnOk, Some, filter, length, map, option_map, true};
ghost use Rattle.std.specs.List.{AllByRecursion, find, list_any};
ghost use Rattle.std.specs.Map.{keys_of};
ghost use Rattle.slab.specs.Slab.{ContainsKey};
ghost use Rattle.pfs_store_contract.specs.Counts.{scope_nodes};
ghost use Rattle.pfs_store_contract.specs.Purging.{node_numbers};
ghost use Rattle.pfs_store_records.specs.Changes.{CanChange, at_node, changed_by};
ghost use Rattle.pfs_store_records.specs.RecordPlaces.{Anywhere, AreInPlace, number_of_node, tally_in, values_at};
ghost use Rattle.pfs_store_records.specs.Records.{IsAbove, IsRising, between};
ghost use Rattle.pfs_store_records.specs.Retaining.{IsKeptUntil, is_past};
ghost use Rattle.pfs_store_records.specs.Tallies.{IsOrderly, has_node_number, is_tally, nodes_of, other_node};
ghost use Rattle.pfs_store_records.specs.declared.nodes.NodeTally.{NodeTally};
ghost use Rattle.pfs_store_records.specs.Walks.{IsPassing, StopsWalkAt, looks_of};

use crate::changes::{Change, changed};
use crate::index_keys::NodeKey;
use crate::places::Places;
use crate::retaining::{is_over, kept_until};
use crate::scope_counts::ScopeCounts;
use crate::state_records::short;
use crate::walks::Round;
use indexmap::IndexMap;
use pfs_addr_values::{Addr, Meter, NoMemory};
use pfs_store_contract::{Node, NodeScope};
use slab::Slab;
use std::alloc::Global;
use std::hash::BuildHasher;
use std::marker::Model;

/// A source node, and what is counted of it.
#[derive(Debug, Clone, Copy, PartialEq, Eq)]
pub struct NodeTally {
    /// The node.
    pub node: Node,
    /// How many states it has.
    pub states: u64,
    /// How many of them are connections: their handshake has completed.
    pub connections: u64,
}

/// How far a walk over nodes came.
#[derive(Debug, Clone, Copy, PartialEq, Eq)]
pub struct Passed {
    /// How many it passed by, none of which leaves.
    pub stayed: u64,
    /// The number of the last of them, or that above which the walk began.
    pub last: u64,
    /// A moment, in seconds, up to which none of them leaves that gets no state and loses none, or an earlier one.
    pub until: u64,
    /// The node at which it stopped, which leaves.
    pub leaver: Option<NodeTally>,
}

/// The source nodes by rising number, each with its counts. They are found by a hash of scope and source, of the hasher
/// that is given. To read one in a walk by number is a look, and ticks the meter.
#[derive(Drop)]
pub struct Nodes<S: BuildHasher> {
    slab: Slab<NodeTally>,
    order: Places,
    table: IndexMap<NodeKey, u32, S>,
    counts: ScopeCounts,
}

impl<S: BuildHasher> Model for Nodes<S> {
    ghost use Rattle.std.specs.Prelude.{List};
    ghost use Rattle.indexmap.specs.IndexMap.{get};
    ghost use Rattle.pfs_store_records.specs.declared.nodes.NodeTally.{NodeTally};
    ghost use Rattle.pfs_store_records.specs.RecordPlaces.{IsNoted, same_source, tally_in, values_at};

    ghost Value = { List NodeTally };

    ghost view = { λ n. values_at (tally_in n.slab) n.order.entries };

    ghost invariant = { λ n. IsNoted (get same_source n.table) (tally_in n.slab) n.order.entries n.counts.rules.items n.counts.global };
}

impl<S: BuildHasher> Nodes<S> {
    /// No nodes. They will be found by hashes of this hasher. It takes no memory.
    pub fn new(alloc: Global, hasher: S) -> Nodes<S>
        ensures nodes { result ≡ [] }
        ensures orderly { IsOrderly result }
    {
        Nodes {
            slab: Slab::new(alloc),
            order: Places::new(alloc),
            table: IndexMap::with_hasher(alloc, hasher),
            counts: ScopeCounts::new(alloc),
        }
    }

    /// How many nodes there are. It takes no memory.
    pub fn len(&self) -> u64
        ensures { result ≡ length self.now }
    {
        self.order.len() as u64
    }

    /// The numbers of the nodes rise, and no two are of one scope and source: a fact for proofs, which computes nothing.
    pub fn are_orderly(&self)
        ensures { IsOrderly self.now }
    {
        let _ = &self.order;
    }

    /// The places of the nodes, in the order of their numbers. It takes no memory.
    pub fn order(&self) -> &Places
        ensures numbers { keys_of result.now.entries ≡ node_numbers (nodes_of self.now) }
        ensures rising { IsRising (keys_of result.now.entries) }
    {
        &self.order
    }

    /// How many nodes of a scope there are. It takes no memory.
    pub fn count(&self, scope: NodeScope) -> u64
        ensures { result ≡ scope_nodes scope (nodes_of self.now) }
    {
        self.counts.get(scope)
    }

    /// The tally of the node of a scope and source, where there is one. It takes no memory.
    pub fn get(&self, scope: NodeScope, source: Addr) -> Option<NodeTally>
        ensures { result ≡ find (is_tally scope source) self.now }
    {
        match self.table.get(&NodeKey { scope, source }) {
            Some(place) => self.slab.get(*place as usize).copied(),
            None => None,
        }
    }

    /// Walks over the nodes that are still to be examined in a round, from the least number on: over at most `share` of them, and
    /// up to the first that leaves at the second `now`. Each is one look, and all are found by one search. It takes no memory.
    pub fn walk(&self, round: Round, share: u64, now: u64, meter: &mut Meter) -> Passed
        requires range { round.cursor ≤ round.mark }
        requires room { meter.old + share < 2 ^ 64 }
        ensures passing { IsPassing number_of_node (is_past now) self.now round.cursor round.mark share result.stayed result.last }
        ensures until { AllByRecursion (λ t. between round.cursor result.last (number_of_node t) ≡ true → IsKeptUntil result.until t) self.now }
        ensures leaver { StopsWalkAt number_of_node (is_past now) self.now result.last round.mark result.stayed share result.leaver }
        ensures looks { meter.new ≡ meter.old + looks_of result.stayed result.leaver }
    {
        walk_range(&self.slab, &self.order, round, share, now, meter)
    }

    /// Adds a node, whose number is above all others and whose scope and source no other has, with its counts. It
    /// returns `NoMemory` where memory for it is refused; nothing changes then.
    pub fn push(&mut self, tally: NodeTally) -> Result<(), NoMemory>
        requires absent { find (is_tally tally.node.scope tally.node.source) self.old ≡ None }
        requires above { IsAbove tally.node.number (node_numbers (nodes_of self.old)) }
        ensures ok { OnOk result (self.new ≡ self.old ++ tally ∷ []) }
        ensures err { OnErr result (self.new ≡ self.old) }
        ensures orderly { IsOrderly self.new }
    {
        // This call states to the proof that no count is near the greatest number, which follows from the order.
        let _count = self.order.len();
        let source = NodeKey {
            scope: tally.node.scope,
            source: tally.node.source,
        };
        self.counts.make_room(tally.node.scope)?;
        self.table.reserve(1)?;
        self.slab.reserve(1)?;
        let place = short(self.slab.vacant_key())?;
        self.order.push(tally.node.number, place)?;
        match self.table.insert(source, place) {
            Ok(_) => {
                self.slab.insert_reserved(tally);
                self.counts.add(tally.node.scope);
                Ok(())
            }
            Err(_) => unreachable!(),
        }
    }

    /// Changes the tally of the node of a scope and source, where there is one, and returns it: one search. It takes no
    /// memory.
    pub(crate) fn change(
        &mut self,
        scope: NodeScope,
        source: Addr,
        change: Change,
    ) -> Option<NodeTally>
        requires can { (t : NodeTally) → find (is_tally scope source) self.old ≡ Some t → CanChange change t }
        ensures nodes { self.new ≡ map (at_node (Some scope) source (changed_by change)) self.old }
        ensures tally { result ≡ option_map (changed_by change) (find (is_tally scope source) self.old) }
        ensures absent { result ≡ None → (self.new ≡ self.old) × (find (is_tally scope source) self.old ≡ None) }
    {
        match self.table.get(&NodeKey { scope, source }) {
            Some(place) => {
                let place = *place as usize;
                let before = self.slab[place];
                let tally = changed(before, change);
                self.slab[place] = tally;
                Some(tally)
            }
            None => None,
        }
    }

    /// Removes the node of this number, of which there is one. It takes no memory.
    pub fn remove(&mut self, number: u64)
        requires { list_any (has_node_number number) self.old ≡ true }
        ensures nodes { self.new ≡ filter (other_node number) self.old }
        ensures orderly { IsOrderly self.new }
    {
        match self.order.remove(number) {
            Some(place) => {
                let tally = self.slab.remove(place as usize);
                self.table.swap_remove(&NodeKey {
                    scope: tally.node.scope,
                    source: tally.node.source,
                });
                self.counts.take(tally.node.scope);
            }
            None => unreachable!(),
        }
    }
}

/// Reads the node at a place for a walk, and ticks the meter. No other function reads one there.
fn look<'a>(slab: &'a Slab<NodeTally>, place: usize, meter: &mut Meter) -> &'a NodeTally
    requires held { ContainsKey slab.now place }
    requires room { meter.old < 2 ^ 64 - 1 }
    ensures value { tally_in slab.now place ≡ Some result.now }
    ensures looks { meter.new ≡ meter.old + 1 }
{
    meter.tick();
    &slab[place]
}

#[inline(never)]
fn walk_range(
    slab: &Slab<NodeTally>,
    order: &Places,
    round: Round,
    share: u64,
    now: u64,
    meter: &mut Meter,
) -> Passed
    requires kept { AreInPlace number_of_node Anywhere (tally_in slab.now) order.now.entries }
    requires range { round.cursor ≤ round.mark }
    requires room { meter.old + share < 2 ^ 64 }
    ensures passing { IsPassing number_of_node (is_past now) (values_at (tally_in slab.now) order.now.entries) round.cursor round.mark share result.stayed result.last }
    ensures until { AllByRecursion (λ t. between round.cursor result.last (number_of_node t) ≡ true → IsKeptUntil result.until t) (values_at (tally_in slab.now) order.now.entries) }
    ensures leaver { StopsWalkAt number_of_node (is_past now) (values_at (tally_in slab.now) order.now.entries) result.last round.mark result.stayed share result.leaver }
    ensures looks { meter.new ≡ meter.old + looks_of result.stayed result.leaver }
{
    let mut rest = order.between(round.cursor, round.mark);
    let mut stayed = 0;
    let mut last = round.cursor;
    let mut until = u64::MAX;
    let leaver = loop {
        if stayed == share {
            break None;
        }
        let Some((number, place)) = rest.next() else {
            break None;
        };
        let tally = look(slab, place as usize, meter);
        if is_over(tally, now) {
            break Some(*tally);
        }
        until = until.min(kept_until(tally));
        stayed += 1;
        last = number;
    };
    Passed {
        stayed,
        last,
        until,
        leaver,
    }
}
