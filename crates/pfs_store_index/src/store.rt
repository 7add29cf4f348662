//! A store by indexes.

ghost use Rattle.std.specs.Prelude.{◌≡◌, ◌+◌, ◌<◌, ◌≤◌, ◌^◌, ◌||◌, ℕ, [], IfOk, IsOk, IsSome, None, Some, OnErr, OnOk, false, length, option_map, true};
ghost use Rattle.pfs_addr_values.specs.Packets.{run_limit};
ghost use Rattle.pfs_store_contract.specs.Admission.{leaves_node, world_after_refusal};
ghost use Rattle.pfs_store_contract.specs.Calls.{node_slice_of, state_slice_of, told_at, touch_of, world_touched};
ghost use Rattle.pfs_store_contract.specs.Passages.{done_after, done_of, purged_both, purged_in};
ghost use Rattle.pfs_store_contract.specs.Purging.{node_slice, purge, state_slice};
ghost use Rattle.pfs_store_contract.specs.Seconds.{seconds};
ghost use Rattle.pfs_store_contract.specs.Touching.{completes_at};
ghost use Rattle.pfs_store_contract.specs.Worlds.{IsUpToNow, empty_world, holds_number, state_numbered};
ghost use Rattle.pfs_store_index.specs.Holdings.{is_reached};
ghost use Rattle.pfs_store_index.specs.QuietPurges.{AreNodesKnown, AreStatesKnown, IsPassage, NodeSliceStays, SliceStays, world_after_quiet};

use crate::expiring::counted_rules;
use crate::flushing::{Flushed, flush};
use crate::indexes::Indexes;
use crate::killing::kill_from_to;
use crate::limits::{limit_met, scope_left};
use crate::passages::{KnownStay, Passage, SliceTold};
use crate::purging::{share_of, walk_nodes, walk_states};
use crate::rounds::{is_over, next_between, turned, under_way};
use crate::stepping::new_phase;
use pfs_addr_values::{Addr, Dir, FlowKey, Meter, NoMemory, Packet};
use pfs_conf_values::{Config, LimitName, RuleNo, RulesHasher};
use pfs_store_contract::{
    FromTo, Limit, Purged, Slice, State, StateHandle, StateNo, Store, Touched, apart, inner_key,
    wire_key,
};
use pfs_store_records::Round;
use std::alloc::Global;
use std::hash::BuildHasher;
use std::marker::Model;

/// A store that finds states by their keys, by their numbers and by their sources, and source nodes by scope and
/// source. The cost of a call grows with the logarithm of what is held, except for the states of a source that are
/// flushed, for the slices of the purge, where an administrator takes states out, and for `purge_seconds`. Of the seconds after a
/// whole round that told when the next state or node can leave, it passes over those before that moment: then it walks over the numbers
/// of a round of states and of one of nodes, twice at most. It counts looks.
///
/// Clauses see an `Indexed`: the configuration that it was made for, its world, and the records of the states.
#[derive(Drop)]
pub struct IndexStore<S: BuildHasher = RulesHasher> {
    indexes: Indexes<S>,
    made: u64,
    states_round: Round,
    nodes_round: Round,
    counts: Vec<u64>,
}

impl<S: BuildHasher> Model for IndexStore<S> {
    ghost use Rattle.std.specs.Prelude.{length};
    ghost use Rattle.pfs_store_index.specs.Holdings.{Indexed};
    ghost use Rattle.pfs_store_index.specs.Stored.{IsStored, world_of};

    ghost Value = { Indexed };

    ghost view = { λ s. record {
      config = s.indexes.config;
      world = world_of s.indexes s.states_round.cursor s.states_round.mark s.nodes_round.cursor s.nodes_round.mark s.made;
      records = s.indexes.records;
    } };

    ghost invariant = { λ s.
        IsStored s.indexes s.states_round.cursor s.states_round.mark s.nodes_round.cursor s.nodes_round.mark s.made (length s.counts.items) };
}

impl IndexStore {
    /// An empty store, made for this configuration, of which it keeps a copy. Its hashes, of keys and of source
    /// nodes, begin with all that the configuration says (`RulesHasher`). `NoMemory` where memory for the copy is
    /// refused.
    pub fn new(alloc: Global, config: &Config) -> Result<IndexStore, NoMemory>
        ensures { IfOk result (λ s. s ≡ record { config = config.now; world = empty_world; records = [] }) }
    {
        let hasher = config.hasher();
        IndexStore::with_hashers(alloc, config, hasher, hasher, hasher)
    }
}

impl<S: BuildHasher> IndexStore<S> {
    /// An empty store as `new` makes it, but with other hashers: the index by the key on the wire has the first of these, that by the
    /// key inside the second, and that of the source nodes the third.
    pub fn with_hashers(
        alloc: Global,
        config: &Config,
        by_key: S,
        by_inner: S,
        by_source: S,
    ) -> Result<IndexStore<S>, NoMemory>
    where
        S: Drop,
        ensures { IfOk result (λ s. s ≡ record { config = config.now; world = empty_world; records = [] }) }
    {
        let counts = vec![in alloc; 0; counted_rules(config)]?;
        Ok(IndexStore {
            indexes: Indexes::new(alloc, config.copy()?, by_key, by_inner, by_source)?,
            made: 0,
            states_round: Round { cursor: 0, mark: 0 },
            nodes_round: Round { cursor: 0, mark: 0 },
            counts,
        })
    }
}

impl<S: BuildHasher> IndexStore<S> {
    /// Refuses a state of a source at a rule, by this limit: under the profile of OpenBSD 7.4 it may leave a node of the source.
    fn refuse(&mut self, limit: Limit, source: Addr, rule: RuleNo, now: u64) -> Result<(), NoMemory>
        requires room { self.old.world.made < run_limit }
        ensures ok { OnOk result (self.new.world ≡ world_after_refusal self.old.config self.old.world source rule.0 now limit) }
        ensures err { OnErr result (self.new.world ≡ self.old.world) }
        ensures free { leaves_node self.old.config self.old.world source rule.0 limit ≡ false → IsOk result }
        ensures config { self.new.config ≡ self.old.config }
    {
        let Some(scope) = scope_left(&self.indexes, limit, rule, source) else {
            return Ok(());
        };
        let left = self.made + 1;
        match self.indexes.put_node(left, scope, source, now) {
            Ok(()) => {
                self.made = left;
                Ok(())
            }
            Err(_) => Err(NoMemory),
        }
    }
}

impl<S: BuildHasher> IndexStore<S> {
    /// Takes a packet of the state that was found. What the source's node has is told where the handshake completes, and where it is
    /// asked for.
    fn take(
        &mut self,
        found: StateHandle,
        packet: &Packet,
        asked: bool,
        now: u64,
        meter: &mut Meter,
    ) -> Touched
        requires held { holds_number self.old.world.states found.number.0 ≡ true }
        requires reached { is_reached self.old.records found ≡ true }
        requires order { IsUpToNow now self.old.world }
        requires meter { meter.old ≤ 2 ^ 63 }
        ensures answer { Some result
            ≡ option_map (λ s. told_at (asked || completes_at packet.now s) (touch_of self.old.config self.old.world packet.now now s)) (state_numbered found.number.0 self.old.world) }
        ensures world { self.new.world
            ≡ world_touched self.old.config self.old.world packet.now now (state_numbered found.number.0 self.old.world) }
        ensures reached { is_reached self.new.records found ≡ true }
        ensures looks { meter.new ≡ meter.old + 1 }
        ensures config { self.new.config ≡ self.old.config }
    {
        self.indexes.state_numbers_rise();
        self.indexes.renew(found, packet, asked, now, meter)
    }
}

impl<S: BuildHasher> Store for IndexStore<S> {
    ghost world = { λ s. s.world };

    ghost config = { λ s. s.config };

    ghost counts = { true };

    ghost reaches = { λ s found. is_reached s.records found };

    fn find(&self, key: &FlowKey) -> Option<StateHandle> {
        self.indexes.find(key)
    }

    fn find_inside(&self, key: &FlowKey) -> Option<StateHandle> {
        self.indexes.find_inside(key)
    }

    fn onward_key(&self, found: StateHandle, dir: Dir) -> Option<FlowKey> {
        self.indexes.onward_key(found.number.0, dir)
    }

    fn holds(&self, number: StateNo) -> bool {
        if number.0 == 0 {
            false
        } else {
            next_between(self.indexes.records().order(), number.0 - 1, number.0).is_some()
        }
    }

    fn state_count(&self) -> u64 {
        self.indexes.state_count()
    }

    fn half_open_count(&self) -> u64 {
        self.indexes.half_open_count()
    }

    fn node_count(&self) -> u64 {
        self.indexes.node_count()
    }

    fn made(&self) -> u64 {
        self.made
    }

    fn meet_limit(
        &mut self,
        source: Addr,
        rule: RuleNo,
        now: u64,
    ) -> Result<Option<Limit>, NoMemory> {
        match limit_met(&self.indexes, rule, source) {
            Some(limit) => match self.refuse(limit, source, rule, now) {
                Ok(()) => Ok(Some(limit)),
                Err(refused) => Err(refused),
            },
            None => Ok(None),
        }
    }

    fn make(
        &mut self,
        packet: &Packet,
        going: &Packet,
        rule: RuleNo,
        cookie: bool,
        now: u64,
    ) -> Result<StateNo, NoMemory> {
        self.indexes.state_numbers_rise();
        let number = self.made + 1;
        let key = wire_key(packet, going);
        let state = State {
            number,
            key,
            inner: apart(&key, &inner_key(packet, going)),
            dir: packet.dir(),
            source: packet.src(),
            rule,
            phase: new_phase(self.indexes.config(), rule, packet, cookie),
            last: now,
            tag: going.tag(),
        };
        match self.indexes.put(&state) {
            Ok(()) => {
                self.made = number;
                Ok(StateNo(number))
            }
            Err(_) => Err(NoMemory),
        }
    }

    fn touch(
        &mut self,
        found: StateHandle,
        packet: &Packet,
        now: u64,
        meter: &mut Meter,
    ) -> Touched {
        self.take(found, packet, true, now, meter)
    }

    fn renew(
        &mut self,
        found: StateHandle,
        packet: &Packet,
        now: u64,
        meter: &mut Meter,
    ) -> Touched {
        self.take(found, packet, false, now, meter)
    }

    fn has_closed(&self, found: StateHandle, meter: &mut Meter) -> bool {
        self.indexes.state_numbers_rise();
        self.indexes.record(found, meter).phase().has_closed()
    }

    fn kill(&mut self, found: StateHandle, now: u64, meter: &mut Meter) {
        self.indexes.state_numbers_rise();
        let state = self.indexes.read_found(found, meter);
        self.indexes.take_out(&state, now);
    }

    fn flush(
        &mut self,
        dir: Dir,
        source: Addr,
        rule: Option<RuleNo>,
        now: u64,
        meter: &mut Meter,
    ) -> u64 {
        self.indexes.state_numbers_rise();
        let held = self.indexes.state_count();
        let what = Flushed { dir, source, rule };
        flush(&mut self.indexes, what, self.made, now, meter);
        held.saturating_sub(self.indexes.state_count())
    }

    fn kill_from_to(&mut self, hosts: &FromTo, now: u64, meter: &mut Meter) -> u64 {
        self.indexes.state_numbers_rise();
        let held = self.indexes.state_count();
        kill_from_to(&mut self.indexes, hosts, self.made, now, meter);
        held.saturating_sub(self.indexes.state_count())
    }

    fn purge_states(&mut self, now: u64, meter: &mut Meter) -> Slice {
        self.slice_states(now, meter).slice
    }

    fn purge_nodes(&mut self, now: u64, meter: &mut Meter) -> Slice {
        self.slice_nodes(now, meter).slice
    }

    fn purge_seconds(&mut self, from: u64, to: u64) -> Purged {
        let mut at = Passage {
            second: from,
            purged: Purged::none(),
            states: self.states_known(),
            nodes: self.nodes_known(),
        };
        while at.second < to {
            at = self.go_on(at, to);
        }
        at.purged
    }
}

// ---- seconds pass

impl<S: BuildHasher> IndexStore<S> {
    /// The next slice of the states, up to when those stay that it examined, and whether the round is over with it.
    fn slice_states(&mut self, now: u64, meter: &mut Meter) -> SliceTold
        requires moment { now ≤ 2 ^ 63 }
        requires meter { meter.old ≤ 2 ^ 63 }
        ensures answer { result.slice ≡ state_slice_of self.old.config self.old.world now }
        ensures world { self.new.world ≡ state_slice self.old.config self.old.world now }
        ensures until { SliceStays self.old.config self.old.world result.until self.new.world.states }
        ensures over { result.over ≡ true → self.new.world.pending_states ≡ [] }
        ensures looks { meter.new ≡ meter.old + result.slice.examined }
        ensures most { meter.new ≤ meter.old + run_limit }
        ensures config { self.new.config ≡ self.old.config }
    {
        self.indexes.state_numbers_rise();
        let read = self.counts.len();
        let counts = self.indexes.rule_counts();
        self.counts.copy_from_slice(&counts[..read]);
        let config = self.indexes.config();
        let share = share_of(config, config.limit(LimitName::States));
        let round = under_way(self.indexes.records().order(), self.states_round, self.made);
        let steps = walk_states(&mut self.indexes, &self.counts, round, share, now, meter);
        self.states_round = steps.round;
        steps.told(is_over(self.indexes.records().order(), steps.round))
    }

    /// The next slice of the source nodes, as `slice_states` does it of the states.
    fn slice_nodes(&mut self, now: u64, meter: &mut Meter) -> SliceTold
        requires meter { meter.old ≤ 2 ^ 63 }
        ensures answer { result.slice ≡ node_slice_of self.old.config self.old.world now }
        ensures world { self.new.world ≡ node_slice self.old.config self.old.world now }
        ensures until { NodeSliceStays self.old.config self.old.world result.until self.new.world.nodes }
        ensures over { result.over ≡ true → self.new.world.pending_nodes ≡ [] }
        ensures looks { meter.new ≡ meter.old + result.slice.examined }
        ensures most { meter.new ≤ meter.old + run_limit }
        ensures config { self.new.config ≡ self.old.config }
    {
        self.indexes.node_numbers_rise();
        let config = self.indexes.config();
        let share = share_of(config, config.limit(LimitName::SrcNodes));
        let round = under_way(self.indexes.nodes().order(), self.nodes_round, self.made);
        let steps = walk_nodes(&mut self.indexes, round, share, now, meter);
        self.nodes_round = steps.round;
        steps.told(is_over(self.indexes.nodes().order(), steps.round))
    }

    /// What is known of the states where no slice has told anything.
    fn states_known(&self) -> KnownStay
        ensures { (most : ℕ) → AreStatesKnown self.now.config self.now.world most result }
    {
        KnownStay::before(is_over(self.indexes.records().order(), self.states_round))
    }

    /// What is known of the source nodes where no slice has told anything.
    fn nodes_known(&self) -> KnownStay
        ensures { (most : ℕ) → AreNodesKnown self.now.config self.now.world most result }
    {
        KnownStay::before(is_over(self.indexes.nodes().order(), self.nodes_round))
    }

    /// What is known of the source nodes behind a slice with which so many states left: one that lost its last may leave at once.
    fn nodes_behind(&self, known: KnownStay, left: u64) -> KnownStay
        ensures same { left ≡ 0 → result ≡ known }
        ensures anew { 0 < left → (most : ℕ) → AreNodesKnown self.now.config self.now.world most result }
    {
        if left == 0 { known } else { self.nodes_known() }
    }

    /// Does the purge of the next second; or passes over all that are known to be quiet.
    fn go_on(&mut self, at: Passage, to: u64) -> Passage
        requires order { at.second < to }
        requires moment { to < 2 ^ 32 }
        requires passage { IsPassage self.old.config self.old.world at }
        ensures order { (at.second < result.second) × (result.second ≤ to) }
        ensures left { done_after true self.old.config (done_of self.new.world result.purged) (seconds result.second to)
            ≡ done_after true self.old.config (done_of self.old.world at.purged) (seconds at.second to) }
        ensures passage { IsPassage self.old.config self.new.world result }
        ensures config { self.new.config ≡ self.old.config }
    {
        let quiet = at.quiet_seconds(to);
        if quiet == 0 {
            self.purge_second(at)
        } else {
            self.pass_over(at, quiet)
        }
    }

    /// The purge of the next second.
    fn purge_second(&mut self, at: Passage) -> Passage
        requires moment { at.second < 2 ^ 32 }
        requires passage { IsPassage self.old.config self.old.world at }
        ensures second { result.second ≡ at.second + 1 }
        ensures world { self.new.world ≡ purge self.old.config self.old.world (at.second + 1) }
        ensures purged { result.purged ≡ purged_both at.purged (purged_in true self.old.config self.old.world (at.second + 1)) }
        ensures passage { IsPassage self.old.config self.new.world result }
        ensures config { self.new.config ≡ self.old.config }
    {
        let second = at.second + 1;
        let mut looks = Meter::new();
        let states = self.slice_states(second, &mut looks);
        let known = self.nodes_behind(at.nodes, states.slice.removed);
        let mut node_looks = Meter::new();
        let nodes = self.slice_nodes(second, &mut node_looks);
        let done = Purged::of_slices(states.slice, looks.count(), nodes.slice, node_looks.count());
        Passage {
            second,
            purged: at.purged.greatest(done),
            states: at.states.after(&states),
            nodes: known.after(&nodes),
        }
    }

    /// Passes over so many seconds in which nothing leaves: both rounds go on by so many slices. It looks at no record.
    fn pass_over(&mut self, at: Passage, quiet: u64) -> Passage
        requires moment { at.second + quiet < 2 ^ 32 }
        ensures second { result.second ≡ at.second + quiet }
        ensures world { self.new.world ≡ world_after_quiet self.old.config quiet self.old.world }
        ensures purged { result.purged ≡ at.purged }
        ensures fits { (length self.old.world.pending_states ≤ length self.old.world.states) × (length self.old.world.pending_nodes ≤ length self.old.world.nodes) }
        ensures states { (most : ℕ) → AreStatesKnown self.old.config self.new.world most result.states }
        ensures nodes { (most : ℕ) → AreNodesKnown self.old.config self.new.world most result.nodes }
        ensures config { self.new.config ≡ self.old.config }
    {
        self.turn(quiet);
        Passage {
            second: at.second + quiet,
            purged: at.purged,
            states: self.states_known(),
            nodes: self.nodes_known(),
        }
    }

    /// Both rounds go on by so many slices, as if each had been done and nothing had left.
    fn turn(&mut self, slices: u64)
        ensures world { self.new.world ≡ world_after_quiet self.old.config slices self.old.world }
        ensures fits { (length self.old.world.pending_states ≤ length self.old.world.states) × (length self.old.world.pending_nodes ≤ length self.old.world.nodes) }
        ensures config { self.new.config ≡ self.old.config }
    {
        let config = self.indexes.config();
        let share = share_of(config, config.limit(LimitName::States));
        let node_share = share_of(config, config.limit(LimitName::SrcNodes));
        self.states_round = turned(
            self.indexes.records().order(),
            self.states_round,
            share,
            self.made,
            slices,
        );
        self.nodes_round = turned(
            self.indexes.nodes().order(),
            self.nodes_round,
            node_share,
            self.made,
            slices,
        );
    }
}
