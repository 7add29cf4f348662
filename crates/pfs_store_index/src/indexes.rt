//! What is held, and what finds it: each index and each count is tied to the records.

ghost use Rattle.std.specs.Prelude.{◌≡◌, ◌+◌, ◌-◌, ◌<◌, ◌≤◌, ◌^◌, ◌==◌, ◌||◌, ◌++◌, ◌∷◌, [], IfOk, IfSome, IsSome, None, OnErr, OnOk, Some, false, filter, is_some, length, map, not, option_map, slice_get, true, ℕ};
ghost use Rattle.std.specs.List.{AllByRecursion, find};
ghost use Rattle.std.specs.Option.{option_and_then};
ghost use Rattle.indexmap.specs.IndexMap.{get};
ghost use Rattle.pfs_addr_values.specs.Packets.{run_limit};
ghost use Rattle.pfs_addr_values.specs.Sameness.{same_key};
ghost use Rattle.pfs_conf_values.specs.Configs.{options_at};
ghost use Rattle.pfs_store_contract.specs.Admission.{new_node, nodes_with};
ghost use Rattle.pfs_store_contract.specs.Counts.{half_open, has_node, node_scope_of, node_states, rule_states, scope_nodes};
ghost use Rattle.pfs_store_contract.specs.Leaving.{is_beside, node_after_leaving};
ghost use Rattle.pfs_store_contract.specs.Calls.{onward_key, other_than, told_at, touch_of, state_number, state_rule};
ghost use Rattle.pfs_store_contract.specs.Plain.{AreCounts};
ghost use Rattle.pfs_store_contract.specs.Purging.{is_over, node_numbers, state_numbers};
ghost use Rattle.pfs_store_index.specs.QuietPurges.{NodeStays};
ghost use Rattle.pfs_store_contract.specs.Touching.{completes_at, nodes_touched, numbered_state_after};
ghost use Rattle.pfs_store_contract.specs.Worlds.{IsUpToNow, holds_number, inner_key, lists, state_inside, state_with};
ghost use Rattle.pfs_store_records.specs.ApartKeys.{rekeyed};
ghost use Rattle.pfs_store_records.specs.Changes.{IsScope};
ghost use Rattle.pfs_store_records.specs.Records.{IsAbove, IsRising, between, placed_at, states_of};
ghost use Rattle.pfs_store_records.specs.Sourced.{IsSourced};
ghost use Rattle.pfs_store_records.specs.Tallies.{nodes_of};
ghost use Rattle.pfs_store_records.specs.Walks.{IsPassing, StopsWalkAt, looks_of};
ghost use Rattle.pfs_store_index.specs.Holdings.{IsUncompleted, is_reached};
ghost use Rattle.pfs_store_index.specs.Rounds.{waiting_of, waiting};
ghost use Rattle.pfs_store_index.specs.IndexInvariants.{HasRule, entry_of, found_of, has_inside};

use crate::flush_index::FlushIndex;
use crate::inner_keys;
use crate::placing::place;
use crate::rounds::next_between;
use crate::sources::Source;
use crate::stepping::stepped;
use indexmap::IndexMap;
use pfs_addr_values::{Addr, Dir, FlowKey, Meter, NoMemory, Packet};
use pfs_conf_values::{Config, Profile, RuleNo};
use pfs_store_contract::{Node, NodeScope, State, StateHandle, StateNo, Touched};
use pfs_store_records::{
    NodeTally, Nodes, PackedState, Passed, Records, Round, StateKey, leave, meet,
};
use pfs_store_rules::node_scope;
use pfs_track::Score;
use std::alloc::{AllocError, Global};
use std::hash::BuildHasher;
use std::marker::Model;
use std::ops::Bound;

/// What the indexes by key have of a state: its number, its rule, and the place of its record. It takes 12 bytes.
#[derive(Clone, Copy)]
pub(crate) struct IndexEntry {
    pub(crate) number: u32,
    pub(crate) rule: RuleNo,
    pub(crate) place: u32,
}

/// The states and the source nodes that are held for a configuration, with what finds and counts them. Callers see them as
/// two lists by rising number, and the records of the states with their places.
#[derive(Drop)]
pub(crate) struct Indexes<S: BuildHasher> {
    config: Config,
    records: Records,
    keys: IndexMap<StateKey, IndexEntry, S>,
    insides: IndexMap<StateKey, IndexEntry, S>,
    counts: Vec<u64>,
    nodes: Nodes<S>,
    filing: FlushIndex,
}

impl<S: BuildHasher> Model for Indexes<S> {
    ghost use Rattle.pfs_store_records.specs.Records.{states_of};
    ghost use Rattle.pfs_store_records.specs.Tallies.{nodes_of};
    ghost use Rattle.pfs_store_index.specs.Holdings.{Holding};
    ghost use Rattle.pfs_store_index.specs.IndexInvariants.{IsTied};

    ghost Value = { Holding };

    ghost view = { λ x. record { config = x.config; states = states_of x.records; nodes = nodes_of x.nodes; records = x.records } };

    ghost invariant = { λ x. IsTied x.config x.records x.keys x.insides x.counts.items x.nodes x.filing };
}

impl<S: BuildHasher> Indexes<S> {
    /// Nothing is held. The indexes by key hash with the first hasher, and that of the nodes with the second.
    pub(crate) fn new(
        alloc: Global,
        config: Config,
        by_key: S,
        by_inner: S,
        by_source: S,
    ) -> Result<Indexes<S>, AllocError>
    where
        S: Drop,
        ensures { IfOk result (λ x. x ≡ record { config = config; states = []; nodes = []; records = [] }) }
    {
        let counts = vec![in alloc; 0; config.item_count() as usize]?;
        Ok(Indexes {
            config,
            records: Records::new(alloc),
            keys: IndexMap::with_hasher(alloc, by_key),
            insides: IndexMap::with_hasher(alloc, by_inner),
            counts,
            nodes: Nodes::new(alloc, by_source),
            filing: FlushIndex::new(alloc),
        })
    }

    /// The configuration.
    pub(crate) fn config(&self) -> &Config
        ensures { result.now ≡ self.now.config }
    {
        &self.config
    }

    /// Whose machine the configuration asks for.
    pub(crate) fn profile(&self) -> Profile
        ensures { result ≡ self.now.config.profile }
    {
        self.config.profile()
    }

    /// How many states are held.
    pub(crate) fn state_count(&self) -> u64
        ensures { result ≡ length self.now.states }
    {
        self.records.len()
    }

    /// How many states are half open.
    pub(crate) fn half_open_count(&self) -> u64
        ensures { result ≡ half_open self.now.states }
    {
        self.records.half_open_count()
    }

    /// The numbers of the states rise: a fact for proofs, which computes nothing.
    pub(crate) fn state_numbers_rise(&self)
        ensures { IsRising (state_numbers self.now.states) }
    {
        self.records.numbers_rise();
    }

    /// How many source nodes are held.
    pub(crate) fn node_count(&self) -> u64
        ensures { result ≡ length self.now.nodes }
    {
        self.nodes.len()
    }

    /// The numbers of the source nodes rise: a fact for proofs, which computes nothing.
    pub(crate) fn node_numbers_rise(&self)
        ensures { IsRising (node_numbers self.now.nodes) }
    {
        self.nodes.are_orderly();
    }

    /// The records of the states.
    pub(crate) fn records(&self) -> &Records
        ensures { states_of result.now ≡ self.now.states }
    {
        &self.records
    }

    /// The source nodes, with their tallies.
    pub(crate) fn nodes(&self) -> &Nodes<S>
        ensures { nodes_of result.now ≡ self.now.nodes }
    {
        &self.nodes
    }

    /// The state that has a key on the wire: one search.
    pub(crate) fn find(&self, key: &FlowKey) -> Option<StateHandle>
        ensures number { option_map (λ f. f.number) result ≡ option_map state_number (state_with key.now (lists self.now.states [] [] [] 0)) }
        ensures rule { option_map (λ f. f.rule) result ≡ option_map state_rule (state_with key.now (lists self.now.states [] [] [] 0)) }
        ensures reached { IfSome result (λ f. is_reached self.now.records f ≡ true) }
    {
        match entry_at(&self.keys, key) {
            Some(entry) => Some(found_of(entry)),
            None => None,
        }
    }

    /// The state that has a key inside: one search where no state's keys are apart.
    pub(crate) fn find_inside(&self, key: &FlowKey) -> Option<StateHandle>
        ensures number { option_map (λ f. f.number) result ≡ option_map state_number (state_inside key.now (lists self.now.states [] [] [] 0)) }
        ensures rule { option_map (λ f. f.rule) result ≡ option_map state_rule (state_inside key.now (lists self.now.states [] [] [] 0)) }
        ensures reached { IfSome result (λ f. is_reached self.now.records f ≡ true) }
    {
        // This call shows the records to the proof.
        self.records.numbers_rise();
        match self.entry_inside(key) {
            Some(entry) => Some(found_of(entry)),
            None => None,
        }
    }

    /// What the indexes by key have of the state that has a key inside: of one whose keys are apart, or else of one that has the key
    /// on the wire too.
    fn entry_inside(&self, key: &FlowKey) -> Option<IndexEntry>
        ensures { result ≡ option_map entry_of (find (has_inside key.now) self.now.records) }
    {
        self.records.numbers_rise();
        if self.insides.is_empty() {
            return entry_at(&self.keys, key);
        }
        if let Some(entry) = entry_at(&self.insides, key) {
            return Some(entry);
        }
        match entry_at(&self.keys, key) {
            Some(entry) => match self.records.onward_key(u64::from(entry.number), Dir::In) {
                Some(_) => None,
                None => Some(entry),
            },
            None => None,
        }
    }

    /// The key with which packets of a direction go on of the state of a number, where it is another than that with which they come.
    pub(crate) fn onward_key(&self, number: u64, dir: Dir) -> Option<FlowKey>
        ensures { result ≡ option_and_then (onward_key dir) (find (λ s. s.number == number) self.now.states) }
    {
        self.records.onward_key(number, dir)
    }

    /// How many states a rule has that keeps state.
    pub(crate) fn rule_count(&self, rule: RuleNo) -> u64
        requires { IsSome (options_at self.now.config rule.0) }
        ensures { result ≡ rule_states rule.0 self.now.states }
    {
        self.counts[rule.0 as usize]
    }

    /// How many states each rule has.
    pub(crate) fn rule_counts(&self) -> &[u64]
        ensures counts { AreCounts result.now self.now.states }
        ensures size { length result.now ≡ length self.now.config.items }
        ensures ruled { AllByRecursion (HasRule (length self.now.config.items)) self.now.states }
    {
        &self.counts
    }

    /// How many source nodes a scope has.
    pub(crate) fn scope_count(&self, scope: NodeScope) -> u64
        ensures { result ≡ scope_nodes scope self.now.nodes }
    {
        self.nodes.count(scope)
    }

    /// How many states the node of a scope and a source has, if there is one.
    pub(crate) fn source_count(&self, scope: NodeScope, source: Addr) -> Option<u64>
        ensures some { is_some result ≡ has_node scope source self.now.nodes }
        ensures value { IfSome result (λ count. count ≡ node_states self.now.config scope source self.now.states) }
    {
        match self.nodes.get(scope, source) {
            Some(tally) => Some(tally.states),
            None => None,
        }
    }

    /// The least number above one, and up to another, of the states that a flush takes for those of a source, at a limit that a
    /// state met which was made in a direction.
    pub(crate) fn next_beside(&self, dir: Dir, source: Addr, above: u64, most: u64) -> Option<u64>
        requires range { above ≤ most }
        requires small { most < 2 ^ 32 }
        ensures { result ≡ slice_get (waiting_of (is_beside self.now.config.profile dir source) above most self.now.states) 0 }
    {
        self.records.numbers_rise();
        let source = Source::of(source);
        match self
            .filing
            .pairs_on(self.config.profile(), dir)
            .range((
                Bound::Excluded((source, above as u32)),
                Bound::Included((source, most as u32)),
            ))
            .next()
        {
            Some((_, number)) => Some(u64::from(*number)),
            None => None,
        }
    }

    /// The least number of a state that is more than `above`, and at most `most`; none where there is no such state.
    pub(crate) fn next_state(&self, above: u64, most: u64) -> Option<u64>
        requires { above ≤ most }
        ensures { result ≡ slice_get (waiting above most (state_numbers self.now.states)) 0 }
    {
        next_between(self.records.order(), above, most)
    }

    /// Walks over the nodes that are still to be examined in a round, from the least number on: over so many at most, and up to
    /// the first that leaves at a second. Each is one look.
    pub(crate) fn pass_nodes(&self, round: Round, share: u64, now: u64, meter: &mut Meter) -> Passed
        requires range { round.cursor ≤ round.mark }
        requires room { meter.old + share < 2 ^ 64 }
        ensures passing { IsPassing (λ n. n.number) (is_over self.now.config self.now.states now) self.now.nodes round.cursor round.mark share result.stayed result.last }
        ensures until { AllByRecursion (λ n. between round.cursor result.last n.number ≡ true →
            NodeStays self.now.config self.now.states result.until n) self.now.nodes }
        ensures leaver { StopsWalkAt (λ n. n.number) (is_over self.now.config self.now.states now) self.now.nodes result.last round.mark result.stayed share
            (option_map (λ t. t.node) result.leaver) }
        ensures looks { meter.new ≡ meter.old + looks_of result.stayed result.leaver }
    {
        self.nodes.walk(round, share, now, meter)
    }

    /// The record of a number: one look.
    pub(crate) fn read(&self, number: u64, meter: &mut Meter) -> State
        requires held { holds_number self.now.states number ≡ true }
        requires room { meter.old < 2 ^ 64 - 1 }
        ensures value { find (λ s. s.number == number) self.now.states ≡ Some result }
        ensures small { result.number < 2 ^ 32 }
        ensures looks { meter.new ≡ meter.old + 1 }
    {
        self.records.read(number, meter)
    }

    /// The record of the state that was found, which has all of it but its keys: one look, and no search.
    pub(crate) fn record(&self, found: StateHandle, meter: &mut Meter) -> &PackedState
        requires reached { is_reached self.now.records found ≡ true }
        requires room { meter.old < 2 ^ 64 - 1 }
        ensures value { option_map (rekeyed result.now) (find (λ s. s.number == found.number.0) self.now.states) ≡ Some result.now }
        ensures looks { meter.new ≡ meter.old + 1 }
    {
        self.records.numbers_rise();
        self.records.record_at(found.place, meter)
    }

    /// The record of the state that was found: one look, and no search.
    pub(crate) fn read_found(&self, found: StateHandle, meter: &mut Meter) -> State
        requires reached { is_reached self.now.records found ≡ true }
        requires room { meter.old < 2 ^ 64 - 1 }
        ensures value { find (λ s. s.number == found.number.0) self.now.states ≡ Some result }
        ensures small { result.number < 2 ^ 32 }
        ensures looks { meter.new ≡ meter.old + 1 }
    {
        self.records.numbers_rise();
        self.records.read_at(found.place, meter)
    }

    /// A state comes, and with it the node of its source where its rule tracks sources and the source has none.
    /// `NoMemory` where memory for them is refused; nothing changes then.
    pub(crate) fn put(&mut self, state: &State) -> Result<(), NoMemory>
        requires above { IsAbove state.now.number (state_numbers self.old.states) }
        requires nodes_above { IsAbove state.now.number (node_numbers self.old.nodes) }
        requires fresh { state_with state.now.key (lists self.old.states [] [] [] 0) ≡ None }
        requires fresh_inside { state_inside (inner_key state.now) (lists self.old.states [] [] [] 0) ≡ None }
        requires rule { IsSome (options_at self.old.config state.now.rule.0) }
        requires phase { IsUncompleted state.now }
        requires sourced { IsSourced state.now }
        requires small { state.now.number < 2 ^ 32 }
        requires few { length self.old.states ≤ run_limit }
        ensures config { self.new.config ≡ self.old.config }
        ensures states { OnOk result (self.new.states ≡ self.old.states ++ state.now ∷ []) }
        ensures nodes { OnOk result (self.new.nodes
            ≡ nodes_with self.old.nodes state.now.number state.now.source state.now.last (node_scope_of self.old.config state.now.rule.0)) }
        ensures err { OnErr result (self.new ≡ self.old) }
    {
        let rule = state.rule.0 as usize;
        let scope = node_scope(&self.config, state.rule);
        let profile = self.config.profile();
        if self.keys.reserve(1).is_err() {
            return Err(NoMemory);
        }
        inner_keys::make_room(&mut self.insides, state)?;
        let spot = place(
            &mut self.records,
            &mut self.filing,
            &mut self.nodes,
            state,
            scope,
            profile,
        )?;
        self.counts[rule] += 1;
        let key = StateKey { key: state.key };
        let entry = entry_of(state, spot);
        inner_keys::insert(&mut self.insides, state, entry);
        match self.keys.insert(key, entry) {
            Ok(_) => Ok(()),
            Err(_) => unreachable!(),
        }
    }

    /// A node of a source comes in a scope in which it has none, without a state; it may leave from `now` on. `NoMemory` where memory
    /// for it is refused; nothing changes then.
    pub(crate) fn put_node(
        &mut self,
        number: u64,
        scope: NodeScope,
        source: Addr,
        now: u64,
    ) -> Result<(), NoMemory>
        requires above { IsAbove number (node_numbers self.old.nodes) }
        requires scoped { IsScope self.old.config scope }
        requires absent { has_node scope source self.old.nodes ≡ false }
        ensures config { self.new.config ≡ self.old.config }
        ensures states { self.new.states ≡ self.old.states }
        ensures nodes { OnOk result (self.new.nodes ≡ self.old.nodes ++ new_node number scope source now ∷ []) }
        ensures err { OnErr result (self.new ≡ self.old) }
    {
        self.nodes.push(NodeTally {
            node: Node {
                number,
                scope,
                source,
                score: Score::default(),
                expires: now,
            },
            states: 0,
            connections: 0,
        })
    }

    /// Takes a packet of the state that was found: one look, and no search. What the source's node has is told where the handshake
    /// completes, and where it is asked for.
    pub(crate) fn renew(
        &mut self,
        found: StateHandle,
        packet: &Packet,
        asked: bool,
        now: u64,
        meter: &mut Meter,
    ) -> Touched
        requires reached { is_reached self.old.records found ≡ true }
        requires order { IsUpToNow now (lists [] self.old.nodes [] [] 0) }
        requires few { length self.old.states ≤ run_limit }
        requires room { meter.old < 2 ^ 64 - 1 }
        ensures states { self.new.states ≡ map (numbered_state_after found.number.0 packet.now now) self.old.states }
        ensures nodes { Some self.new.nodes
            ≡ option_map (λ s. nodes_touched self.old.config self.old.nodes s now (completes_at packet.now s)) (find (λ s. s.number == found.number.0) self.old.states) }
        ensures told { Some result ≡ option_map (λ s. told_at (asked || completes_at packet.now s)
            (touch_of self.old.config (lists self.old.states self.old.nodes [] [] 0) packet.now now s)) (find (λ s. s.number == found.number.0) self.old.states) }
        ensures reached { is_reached self.new.records found ≡ true }
        ensures config { self.new.config ≡ self.old.config }
        ensures looks { meter.new ≡ meter.old + 1 }
    {
        self.records.numbers_rise();
        let kept = self.records.record_at(found.place, meter);
        let (rule, source, dir, tag) = (kept.rule(), kept.source(), kept.dir(), kept.tag());
        let step = stepped(kept, packet, now);
        self.records.renew_at(found.place, step.phase, step.last);
        let met = meet(
            &self.config,
            &mut self.nodes,
            rule,
            source,
            step.completed,
            asked,
            now,
        );
        Touched {
            rule,
            source,
            dir,
            completed: step.completed,
            taken: step.taken,
            asks: step.asks,
            tag,
            connections: met.connections,
            score: met.score,
        }
    }

    /// A state leaves. Its node, where it was the last, is kept for its retention from now on.
    pub(crate) fn take_out(&mut self, state: &State, now: u64)
        requires moment { now ≤ 2 ^ 63 }
        requires held { find (λ s. s.number == state.now.number) self.old.states ≡ Some state.now }
        requires small { state.now.number < 2 ^ 32 }
        ensures config { self.new.config ≡ self.old.config }
        ensures states { self.new.states ≡ filter (other_than state.now.number) self.old.states }
        ensures nodes { self.new.nodes
            ≡ map (node_after_leaving self.old.config self.old.states (filter (other_than state.now.number) self.old.states) now) self.old.nodes }
    {
        self.records.numbers_rise();
        let rule = state.rule.0 as usize;
        let scope = node_scope(&self.config, state.rule);
        self.keys.swap_remove(&StateKey { key: state.key });
        inner_keys::remove(&mut self.insides, state);
        self.filing.remove(self.config.profile(), state);
        self.counts[rule] -= 1;
        leave(&self.config, &mut self.nodes, scope, state, now);
        self.records.remove(state.number);
    }

    /// The node of a number goes, which has no states.
    pub(crate) fn drop_node(&mut self, node: Node)
        requires held { find (λ n. n.number == node.number) self.old.nodes ≡ Some node }
        requires stateless { node_states self.old.config node.scope node.source self.old.states ≡ 0 }
        ensures config { self.new.config ≡ self.old.config }
        ensures states { self.new.states ≡ self.old.states }
        ensures nodes { self.new.nodes ≡ filter (λ n. not (n.number == node.number)) self.old.nodes }
    {
        self.nodes.are_orderly();
        self.nodes.remove(node.number);
    }
}

/// What was found, by what an index by key has of it.
fn found_of(entry: IndexEntry) -> StateHandle
    ensures { result ≡ found_of entry }
{
    StateHandle {
        number: StateNo(u64::from(entry.number)),
        rule: entry.rule,
        place: entry.place,
    }
}

/// What an index by key has of a key.
#[inline(always)]
fn entry_at<S: BuildHasher>(
    keys: &IndexMap<StateKey, IndexEntry, S>,
    key: &FlowKey,
) -> Option<IndexEntry>
    ensures { result ≡ get same_key keys.now key.now }
{
    keys.get(&StateKey { key: *key }).copied()
}

/// What the indexes by key have of a state whose record is at this place.
fn entry_of(state: &State, place: u32) -> IndexEntry
    requires { state.now.number < 2 ^ 32 }
    ensures { result ≡ entry_of (placed_at place state.now) }
{
    IndexEntry {
        number: state.number as u32,
        rule: state.rule,
        place,
    }
}
