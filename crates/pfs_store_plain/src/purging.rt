//! The slices of the purge, in lists of states and nodes.

ghost use Rattle.std.specs.Prelude.{◌≡◌, ◌+◌, ◌-◌, ◌<◌, ◌≤◌, ◌==◌, ◌&&◌, ℕ, [], List, ◌^◌, not, drop, filter, length, map, min, replicate, slice_index, take, vec_capacity};
ghost use Rattle.pfs_conf_values.specs.Configs.{timeout_of};
ghost use Rattle.pfs_conf_values.specs.declared.timeouts.TimeoutName.TheVariants as timeout;
ghost use Rattle.pfs_track.specs.Lifetimes.{is_expired, scaled_lifetime};
ghost use Rattle.pfs_store_contract.specs.Counts.{rule_states};
ghost use Rattle.pfs_store_contract.specs.Plain.{AreCounts};
ghost use Rattle.pfs_store_contract.specs.Purging.{is_among, is_over, node_share, node_slice, node_stays, round, share, state_share, state_slice};
ghost use Rattle.pfs_store_contract.specs.Calls.{node_slice_of, state_slice_of};
ghost use Rattle.pfs_store_plain.specs.PlainRoom.{AreScores};
ghost use Rattle.pfs_store_contract.specs.Worlds.{lists};

use crate::counts::{OfNode, Test, count};
use crate::leaving::{keep, release};
use pfs_conf_values::{Config, LimitName, TimeoutName};
use pfs_store_contract::{Node, Slice, State};
use pfs_store_rules::count_at;
use pfs_track::{is_expired, lifetime};

/// What a round goes over: states, or source nodes.
pub(crate) trait Numbered {
    ghost number: { Self → ℕ };

    fn number(&self) -> u64
        ensures { result ≡ number self.now };
}

impl Numbered for State {
    ghost number = { λ s. s.number };

    fn number(&self) -> u64 {
        self.number
    }
}

impl Numbered for Node {
    ghost number = { λ n. n.number };

    fn number(&self) -> u64 {
        self.number
    }
}

/// Begins a round where the last one is over: the numbers of all that is held are pending then.
fn begin_round<T: Numbered>(pending: &mut Vec<u64>, held: &[T])
    requires { length held.now ≤ vec_capacity pending.old }
    ensures items { pending.new.items ≡ round (map T.number held.now) pending.old.items }
    ensures room { vec_capacity pending.new ≡ vec_capacity pending.old }
{
    if pending.is_empty() {
        refill(pending, held);
    }
}

fn refill<T: Numbered>(pending: &mut Vec<u64>, held: &[T])
    requires empty { length pending.old.items ≡ 0 }
    requires room { length held.now ≤ vec_capacity pending.old }
    ensures items { pending.new.items ≡ map T.number held.now }
    ensures room { vec_capacity pending.new ≡ vec_capacity pending.old }
{
    for one in held {
        pending.push_reserved(one.number());
    }
}

/// How many of so many pending numbers a slice examines, where at most so many are held.
fn share_of(config: &Config, limit: u64, left: usize) -> usize
    requires { limit < 2 ^ 32 }
    ensures { result ≡ min (share limit (timeout_of config.now timeout.Interval)) left }
{
    let share = 1 + limit / config.timeout(TimeoutName::Interval);
    if share < left as u64 {
        share as usize
    } else {
        left
    }
}

/// Takes off the first ones.
fn take_off(pending: &mut Vec<u64>, count: usize)
    requires { count ≤ length pending.old.items }
    ensures items { pending.new.items ≡ drop count pending.old.items }
    ensures room { vec_capacity pending.new ≡ vec_capacity pending.old }
{
    let rest = pending.len() - count;
    pending.rotate_left(count);
    pending.truncate(rest);
}

/// Counts the states of each rule for which there is a place.
fn count_rules(counts: &mut [u64], states: &[State])
    ensures { AreCounts counts.new states.now }
{
    counts.fill(0);
    for state in states {
        let rule = state.rule.0 as usize;
        if rule < counts.len() {
            counts[rule] += 1;
        }
    }
}

/// The states that stay at a slice: those that it does not examine, and those that have not expired.
#[derive(Clone, Copy)]
struct StayTest<'a> {
    config: &'a Config,
    rule_counts: &'a [u64],
    held: u64,
    now: u64,
    examined: &'a [u64],
}

impl Test for StayTest<'_> {
    ghost passes = { λ t s. not (is_among t.examined.now s.number
        && is_expired (scaled_lifetime t.config.now s.rule.0 s.phase (slice_index t.rule_counts.now s.rule.0) t.held) s.last t.now) };

    fn passes(&self, state: &State) -> bool {
        !(self.examined.contains(&state.number)
            && has_expired(self.config, self.rule_counts, self.held, state, self.now))
    }
}

fn has_expired(config: &Config, rule_counts: &[u64], held: u64, state: &State, now: u64) -> bool
    ensures { result ≡ is_expired
        (scaled_lifetime config.now state.now.rule.0 state.now.phase (slice_index rule_counts.now state.now.rule.0) held)
        state.now.last now }
{
    let count = count_at(rule_counts, state.rule.0 as usize);
    let seconds = lifetime(config, state.rule, state.phase, count, held);
    is_expired(seconds, state.last, now)
}

/// One slice of the round of the states.
pub(crate) fn slice_states(
    config: &Config,
    rule_counts: &mut [u64],
    states: &mut Vec<State>,
    nodes: &mut [Node],
    pending: &mut Vec<u64>,
    now: u64,
) -> Slice
    requires moment { now ≤ 2 ^ 63 }
    requires room { length states.old.items ≤ vec_capacity pending.old }
    requires rules { length rule_counts.old ≡ length config.now.items }
    requires scores { AreScores nodes.old }
    ensures world { (node_numbers : List ℕ) (made : ℕ) → lists states.new.items nodes.new pending.new.items node_numbers made
        ≡ state_slice config.now (lists states.old.items nodes.old pending.old.items node_numbers made) now }
    ensures answer { result ≡ state_slice_of config.now (lists states.old.items nodes.old pending.old.items [] 0) now }
    ensures fewer { length states.new.items ≤ length states.old.items }
    ensures room { vec_capacity pending.new ≡ vec_capacity pending.old }
    ensures scores { AreScores nodes.new }
{
    begin_round(pending, states);
    count_rules(rule_counts, states);
    let held = states.len();
    let examined = share_of(config, config.limit(LimitName::States), pending.len());
    let test = StayTest {
        config,
        rule_counts,
        held: held as u64,
        now,
        examined: &pending[..examined],
    };
    release(config, nodes, states, &test, now);
    keep(states, &test);
    take_off(pending, examined);
    Slice {
        examined: examined as u64,
        removed: (held - states.len()) as u64,
    }
}

/// One slice of the round of the nodes.
pub(crate) fn slice_nodes(
    config: &Config,
    states: &[State],
    nodes: &mut Vec<Node>,
    pending: &mut Vec<u64>,
    now: u64,
) -> Slice
    requires room { length nodes.old.items ≤ vec_capacity pending.old }
    requires scores { AreScores nodes.old.items }
    ensures world { (state_numbers : List ℕ) (made : ℕ) → lists states.now nodes.new.items state_numbers pending.new.items made
        ≡ node_slice config.now (lists states.now nodes.old.items state_numbers pending.old.items made) now }
    ensures answer { result ≡ node_slice_of config.now (lists states.now nodes.old.items [] pending.old.items 0) now }
    ensures fewer { length nodes.new.items ≤ length nodes.old.items }
    ensures room { vec_capacity pending.new ≡ vec_capacity pending.old }
    ensures scores { AreScores nodes.new.items }
{
    begin_round(pending, nodes);
    let held = nodes.len();
    let examined = share_of(config, config.limit(LimitName::SrcNodes), pending.len());
    keep_nodes(config, states, nodes, &pending[..examined], now);
    take_off(pending, examined);
    Slice {
        examined: examined as u64,
        removed: (held - nodes.len()) as u64,
    }
}

/// The nodes stay that are not among those examined, or may not leave yet.
fn keep_nodes(config: &Config, states: &[State], nodes: &mut Vec<Node>, examined: &[u64], now: u64)
    requires scores { AreScores nodes.old.items }
    ensures items { nodes.new.items ≡ filter (node_stays config.now states.now now examined.now) nodes.old.items }
    ensures fewer { length nodes.new.items ≤ length nodes.old.items }
    ensures scores { AreScores nodes.new.items }
{
    nodes.retain(|node| node_stays(config, states, node, examined, now));
}

fn node_stays(config: &Config, states: &[State], node: &Node, examined: &[u64], now: u64) -> bool
    ensures { result ≡ node_stays config.now states.now now examined.now node.now }
{
    !(examined.contains(&node.number) && is_over(config, states, node, now))
}

/// Whether a node has no state, and the moment has come from which it may leave.
fn is_over(config: &Config, states: &[State], node: &Node, now: u64) -> bool
    ensures { result ≡ is_over config.now states.now now node.now }
{
    let of_node = OfNode {
        config,
        scope: node.scope,
        source: node.source,
    };
    count(states, &of_node) == 0 && node.expires <= now
}
