//! States leave, in lists of states and nodes.

ghost use Rattle.std.specs.Prelude.{◌≡◌, ◌+◌, ◌≤◌, ◌^◌, ℕ, List, filter, length, map, vec_capacity};
ghost use Rattle.pfs_store_contract.specs.Counts.{node_states};
ghost use Rattle.pfs_store_contract.specs.Leaving.{end_on, is_beside, is_flushed, is_from_to, node_after_leaving, node_retention, world_without};
ghost use Rattle.pfs_store_contract.specs.Calls.{other_than, stays_elsewhere, stays_unflushed};
ghost use Rattle.pfs_store_plain.specs.PlainRoom.{AreScores};
ghost use Rattle.pfs_store_contract.specs.Worlds.{holds_number, lists};

use crate::counts::{OfNode, Test, count};
use pfs_addr_values::{Addr, Dir, Endpoint, FlowKey};
use pfs_conf_values::{Config, Profile, RuleNo};
use pfs_store_contract::{FromTo, Node, NodeScope, State};
use pfs_store_rules::node_retention;

/// All states but that of a number.
#[derive(Clone, Copy)]
pub(crate) struct OtherThan(pub u64);

impl Test for OtherThan {
    ghost passes = { λ t s. other_than t.0 s };

    fn passes(&self, state: &State) -> bool {
        state.number != self.0
    }
}

/// The states that a flush takes for those of a source, all of them or those of one rule.
#[derive(Clone, Copy)]
pub(crate) struct FlushTest {
    pub profile: Profile,
    pub dir: Dir,
    pub source: Addr,
    pub rule: Option<RuleNo>,
}

impl Test for FlushTest {
    ghost passes = { λ t s. is_flushed t.profile t.dir t.source t.rule s };

    fn passes(&self, state: &State) -> bool {
        match self.rule {
            Some(rule) => state.rule == rule && self.is_beside(state),
            None => self.is_beside(state),
        }
    }
}

impl FlushTest {
    /// Whether a state, of whatever rule, is one of those of the source: it made it, or under the profile of OpenBSD 7.4 it is at
    /// the end of its key from which packets of the direction come.
    fn is_beside(&self, state: &State) -> bool
        ensures { result ≡ is_beside self.now.profile self.now.dir self.now.source state.now }
    {
        match self.profile {
            Profile::Own => state.source == self.source,
            Profile::OpenBsd74 => end_on(self.dir, &state.key).addr == self.source,
        }
    }
}

/// The end of a key from which packets of a direction come.
fn end_on(dir: Dir, key: &FlowKey) -> Endpoint
    ensures { result ≡ end_on dir key.now }
{
    match dir {
        Dir::In => key.a,
        Dir::Out => key.b,
    }
}

/// The states that stay at a flush.
#[derive(Clone, Copy)]
pub(crate) struct Unflushed(pub FlushTest);

impl Test for Unflushed {
    ghost passes = { λ t s. stays_unflushed t.0.profile t.0.dir t.0.source t.0.rule s };

    fn passes(&self, state: &State) -> bool {
        !self.0.passes(state)
    }
}

/// The states that go from hosts to hosts.
#[derive(Clone, Copy)]
pub(crate) struct Going<'a>(pub &'a FromTo);

impl Test for Going<'_> {
    ghost passes = { λ t s. is_from_to t.0.now s };

    fn passes(&self, state: &State) -> bool {
        self.0.is_of(state)
    }
}

/// The states that do not go from hosts to hosts.
#[derive(Clone, Copy)]
pub(crate) struct Elsewhere<'a>(pub &'a FromTo);

impl Test for Elsewhere<'_> {
    ghost passes = { λ t s. stays_elsewhere t.0.now s };

    fn passes(&self, state: &State) -> bool {
        !self.0.is_of(state)
    }
}

/// The states stay that pass a test, and of the pending numbers those of states that stay.
pub(crate) fn leave<T: Test>(
    config: &Config,
    states: &mut Vec<State>,
    nodes: &mut [Node],
    pending: &mut Vec<u64>,
    test: &T,
    now: u64,
)
    requires moment { now ≤ 2 ^ 63 }
    requires scores { AreScores nodes.old }
    ensures world { (node_numbers : List ℕ) (made : ℕ) → lists states.new.items nodes.new pending.new.items node_numbers made
        ≡ world_without config.now (lists states.old.items nodes.old pending.old.items node_numbers made) (T.passes test.now) now }
    ensures fewer { length states.new.items ≤ length states.old.items }
    ensures room { vec_capacity pending.new ≡ vec_capacity pending.old }
    ensures scores { AreScores nodes.new }
{
    release(config, nodes, states, test, now);
    keep(states, test);
    strike(pending, states);
}

/// The nodes that lose their last state when those states stay that pass a test are kept for their retention from now on.
pub(crate) fn release<T: Test>(
    config: &Config,
    nodes: &mut [Node],
    before: &[State],
    test: &T,
    now: u64,
)
    requires moment { now ≤ 2 ^ 63 }
    requires scores { AreScores nodes.old }
    ensures nodes { nodes.new ≡ map (node_after_leaving config.now before.now (filter (T.passes test.now) before.now) now) nodes.old }
    ensures scores { AreScores nodes.new }
{
    // most slices let no state leave, and then no node is looked at
    if count(before, test) < before.len() as u64 {
        settle(config, nodes, before, test, now);
    }
}

fn settle<T: Test>(config: &Config, nodes: &mut [Node], before: &[State], test: &T, now: u64)
    requires moment { now ≤ 2 ^ 63 }
    requires scores { AreScores nodes.old }
    ensures nodes { nodes.new ≡ map (node_after_leaving config.now before.now (filter (T.passes test.now) before.now) now) nodes.old }
    ensures scores { AreScores nodes.new }
{
    for node in nodes.iter_mut() {
        *node = released(config, *node, before, test, now);
    }
}

fn released<T: Test>(config: &Config, node: Node, before: &[State], test: &T, now: u64) -> Node
    requires moment { now ≤ 2 ^ 63 }
    ensures node { result ≡ node_after_leaving config.now before.now (filter (T.passes test.now) before.now) now node }
    ensures score { result.score ≡ node.score }
{
    let of_node = OfNode {
        config,
        scope: node.scope,
        source: node.source,
    };
    if count(before, &of_node) > 0 && count_passing(before, test, &of_node) == 0 {
        Node {
            expires: end_of_retention(config, node.scope, now),
            ..node
        }
    } else {
        node
    }
}

/// The moment from which on a node may leave whose last state leaves now.
fn end_of_retention(config: &Config, scope: NodeScope, now: u64) -> u64
    requires { now ≤ 2 ^ 63 }
    ensures { result ≡ now + node_retention config.now scope }
{
    config.keeps_load_rules();
    now + node_retention(config, scope)
}

/// How many of the states that pass a test pass another one too.
fn count_passing<T: Test, U: Test>(states: &[State], test: &T, other: &U) -> u64
    ensures { result ≡ length (filter (U.passes other.now) (filter (T.passes test.now) states.now)) }
{
    let mut count = 0u64;
    for state in states {
        if test.passes(state) && other.passes(state) {
            count += 1;
        }
    }
    count
}

/// The states stay that pass a test.
pub(crate) fn keep<T: Test>(states: &mut Vec<State>, test: &T)
    ensures items { states.new.items ≡ filter (T.passes test.now) states.old.items }
    ensures fewer { length states.new.items ≤ length states.old.items }
{
    states.retain(|state| test.passes(state));
}

/// The numbers stay that states have.
fn strike(pending: &mut Vec<u64>, states: &[State])
    ensures items { pending.new.items ≡ filter (holds_number states.now) pending.old.items }
    ensures room { vec_capacity pending.new ≡ vec_capacity pending.old }
{
    pending.retain(|number| holds_number(states, *number));
}

/// Whether a state has this number.
pub(crate) fn holds_number(states: &[State], number: u64) -> bool
    ensures { result ≡ holds_number states.now number }
{
    states.iter().any(|state| state.number == number)
}
