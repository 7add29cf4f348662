//! The walks of the purge: a slice of the round of the states, and a slice of that of the nodes.

ghost use Rattle.std.specs.Prelude.{◌≡◌, ◌+◌, ◌-◌, ◌<◌, ◌≤◌, ◌^◌, IfSome, drop, filter, length, map, min, take, true};
ghost use Rattle.std.specs.List.{AllByRecursion};
ghost use Rattle.pfs_conf_values.specs.Configs.{timeout_of};
ghost use Rattle.pfs_conf_values.specs.declared.timeouts.TimeoutName.TheVariants as timeout;
ghost use Rattle.pfs_store_contract.specs.Leaving.{node_after_leaving};
ghost use Rattle.pfs_store_contract.specs.Plain.{AreCounts};
ghost use Rattle.pfs_store_contract.specs.Purging.{is_among, is_over, node_numbers, node_stays, share, state_numbers, stays};
ghost use Rattle.pfs_store_index.specs.QuietPurges.{StateStays};
ghost use Rattle.pfs_store_records.specs.Walks.{IsWalk, StayUntil, looks_of};
ghost use Rattle.pfs_store_index.specs.Staying.{NodesHold, StatesHold};
ghost use Rattle.pfs_store_index.specs.Stored.{AreUnread, due_at, is_due};
ghost use Rattle.pfs_store_index.specs.Rounds.{IsExamined, nodes_survive, states_survive, waiting};

use crate::expiring::Scaled;
use crate::indexes::Indexes;
use crate::passages::SliceTold;
use pfs_addr_values::Meter;
use pfs_conf_values::{Config, TimeoutName};
use pfs_store_contract::Slice;
use pfs_store_records::{Round, RoundWalk};
use std::hash::BuildHasher;

/// What a walk did: the round after it, how many it examined, how many of them left, and up to when the others stay.
#[derive(Clone, Copy)]
pub(crate) struct Steps {
    pub(crate) round: Round,
    pub(crate) slice: Slice,
    pub(crate) until: u64,
}

impl Steps {
    /// What is told of it.
    pub(crate) fn told(&self, over: bool) -> SliceTold
        ensures { result ≡ record { slice = self.now.slice; until = self.now.until; over = over } }
    {
        SliceTold {
            slice: self.slice,
            until: self.until,
            over,
        }
    }
}

/// A part of a walk: up to where it went, how many it examined, how many more the walk may examine, and up to when those stay that
/// did not leave.
#[derive(Clone, Copy)]
struct Stretch {
    cursor: u64,
    examined: u64,
    left: u64,
    until: u64,
}

impl Stretch {
    /// None is examined yet above a number, and so many may be.
    fn none(cursor: u64, share: u64) -> Stretch
        ensures { result ≡ record { cursor = cursor; examined = 0; left = share; until = 2 ^ 64 - 1 } }
    {
        Stretch {
            cursor,
            examined: 0,
            left: share,
            until: u64::MAX,
        }
    }

    /// This part, and then the next one.
    fn then(&self, next: &Stretch) -> Stretch
        requires { self.now.examined + next.now.examined < 2 ^ 64 }
        ensures { result ≡ record {
          cursor = next.now.cursor;
          examined = self.now.examined + next.now.examined;
          left = next.now.left;
          until = min self.now.until next.now.until;
        } }
    {
        Stretch {
            cursor: next.cursor,
            examined: self.examined + next.examined,
            left: next.left,
            until: self.until.min(next.until),
        }
    }

    /// The walk that this was, of a round up to a mark, where so many were held before it, and so many are after it.
    fn steps(&self, mark: u64, held: u64, kept: u64) -> Steps
        ensures { result ≡ record {
          round = record { cursor = self.now.cursor; mark = mark };
          slice = record { examined = self.now.examined; removed = held - kept };
          until = self.now.until;
        } }
    {
        Steps {
            round: Round {
                cursor: self.cursor,
                mark,
            },
            slice: Slice {
                examined: self.examined,
                removed: held.saturating_sub(kept),
            },
            until: self.until,
        }
    }
}

/// How many a slice examines, where at most so many are held.
pub(crate) fn share_of(config: &Config, limit: u64) -> u64
    requires { limit < 2 ^ 32 }
    ensures value { result ≡ share limit (timeout_of config.now timeout.Interval) }
    ensures some { 1 ≤ result }
    ensures most { result ≤ 2 ^ 32 }
{
    1 + limit / config.timeout(TimeoutName::Interval)
}

// ---- states

/// Examines the next states of a round, so many at most. The counts are those of the first rules before the walk, and of all
/// that scale by their own.
pub(crate) fn walk_states<S: BuildHasher>(
    indexes: &mut Indexes<S>,
    counts: &[u64],
    round: Round,
    share: u64,
    now: u64,
    meter: &mut Meter,
) -> Steps
    requires moment { now ≤ 2 ^ 63 }
    requires order { round.cursor ≤ round.mark }
    requires share { share ≤ 2 ^ 32 }
    requires room { meter.old ≤ 2 ^ 63 }
    requires counts { AreCounts counts.now indexes.old.states }
    requires unread { AreUnread indexes.old.config (length counts.now) }
    ensures config { indexes.new.config ≡ indexes.old.config }
    ensures examined { result.slice.examined ≡ length (take share (waiting round.cursor round.mark (state_numbers indexes.old.states))) }
    ensures states { indexes.new.states
        ≡ filter (stays indexes.old.config indexes.old.states now (take share (waiting round.cursor round.mark (state_numbers indexes.old.states)))) indexes.old.states }
    ensures nodes { indexes.new.nodes ≡ map (node_after_leaving indexes.old.config indexes.old.states indexes.new.states now) indexes.old.nodes }
    ensures waiting { waiting result.round.cursor result.round.mark (state_numbers indexes.new.states)
        ≡ drop share (waiting round.cursor round.mark (state_numbers indexes.old.states)) }
    ensures order { result.round.cursor ≤ result.round.mark }
    ensures mark { result.round.mark ≡ round.mark }
    ensures removed { result.slice.removed ≡ length indexes.old.states - length indexes.new.states }
    ensures until { AllByRecursion (λ s. is_among (take share (waiting round.cursor round.mark (state_numbers indexes.old.states))) s.number ≡ true →
        StateStays indexes.old.config indexes.old.states result.until s) indexes.new.states }
    ensures looks { meter.new ≡ meter.old + result.slice.examined }
{
    let held = indexes.state_count();
    let mut done = Stretch::none(round.cursor, share);
    while done.left > 0 {
        let rest = Round {
            cursor: done.cursor,
            mark: round.mark,
        };
        let next = examine(indexes, counts, rest, done.left, held, now, meter);
        done = done.then(&next);
    }
    done.steps(round.mark, held, indexes.state_count())
}

/// Examines the next states of a round, so many at most, in one walk up to the first that has expired, which leaves.
fn examine<S: BuildHasher>(
    indexes: &mut Indexes<S>,
    counts: &[u64],
    round: Round,
    share: u64,
    held: u64,
    now: u64,
    meter: &mut Meter,
) -> Stretch
    requires moment { now ≤ 2 ^ 63 }
    requires order { round.cursor ≤ round.mark }
    requires some { 0 < share }
    requires room { meter.old + share < 2 ^ 64 }
    ensures config { indexes.new.config ≡ indexes.old.config }
    ensures states { indexes.new.states
        ≡ filter (states_survive (is_due indexes.old.config counts.now held now) (take result.examined (waiting round.cursor round.mark (state_numbers indexes.old.states)))) indexes.old.states }
    ensures nodes { indexes.new.nodes ≡ map (node_after_leaving indexes.old.config indexes.old.states indexes.new.states now) indexes.old.nodes }
    ensures examined { IsExamined share result.examined result.left (waiting round.cursor round.mark (state_numbers indexes.old.states))
        (waiting result.cursor round.mark (state_numbers indexes.new.states)) }
    ensures order { result.cursor ≤ round.mark }
    ensures less { result.left < share }
    ensures until { StatesHold (due_at indexes.old.config counts.now held)
        (take result.examined (waiting round.cursor round.mark (state_numbers indexes.old.states))) result.until indexes.new.states }
    ensures looks { meter.new ≡ meter.old + result.examined }
{
    indexes.state_numbers_rise();
    let walk = walk_to_due(indexes, counts, round, share, held, now, meter);
    let stayed = walk.stayed;
    let until = walk.until;
    match walk.leaver {
        Some(state) => {
            let cursor = state.number;
            indexes.take_out(&state, now);
            Stretch {
                cursor,
                examined: stayed + 1,
                left: share - stayed - 1,
                until,
            }
        }
        None => Stretch {
            cursor: walk.last,
            examined: stayed,
            left: 0,
            until,
        },
    }
}

/// Walks over the next states of a round, so many at most, up to the first that has expired.
fn walk_to_due<S: BuildHasher>(
    indexes: &Indexes<S>,
    counts: &[u64],
    round: Round,
    share: u64,
    held: u64,
    now: u64,
    meter: &mut Meter,
) -> RoundWalk
    requires order { round.cursor ≤ round.mark }
    requires room { meter.old + share < 2 ^ 64 }
    ensures walk { IsWalk (is_due indexes.now.config counts.now held now) indexes.now.states round.cursor round.mark share result.stayed result.last result.leaver }
    ensures until { StayUntil (due_at indexes.now.config counts.now held) indexes.now.states round.cursor result.last result.until }
    ensures small { IfSome result.leaver (λ s. s.number < 2 ^ 32) }
    ensures looks { meter.new ≡ meter.old + looks_of result.stayed result.leaver }
{
    let lifetimes = Scaled {
        config: indexes.config(),
        counts,
        held,
    };
    indexes.records().walk(round, share, now, &lifetimes, meter)
}

// ---- nodes

/// Examines the next nodes of a round, so many at most.
pub(crate) fn walk_nodes<S: BuildHasher>(
    indexes: &mut Indexes<S>,
    round: Round,
    share: u64,
    now: u64,
    meter: &mut Meter,
) -> Steps
    requires order { round.cursor ≤ round.mark }
    requires share { share ≤ 2 ^ 32 }
    requires room { meter.old ≤ 2 ^ 63 }
    ensures config { indexes.new.config ≡ indexes.old.config }
    ensures states { indexes.new.states ≡ indexes.old.states }
    ensures examined { result.slice.examined ≡ length (take share (waiting round.cursor round.mark (node_numbers indexes.old.nodes))) }
    ensures nodes { indexes.new.nodes
        ≡ filter (node_stays indexes.old.config indexes.old.states now (take share (waiting round.cursor round.mark (node_numbers indexes.old.nodes)))) indexes.old.nodes }
    ensures waiting { waiting result.round.cursor result.round.mark (node_numbers indexes.new.nodes)
        ≡ drop share (waiting round.cursor round.mark (node_numbers indexes.old.nodes)) }
    ensures order { result.round.cursor ≤ result.round.mark }
    ensures mark { result.round.mark ≡ round.mark }
    ensures removed { result.slice.removed ≡ length indexes.old.nodes - length indexes.new.nodes }
    ensures until { NodesHold indexes.old.config indexes.old.states
        (take share (waiting round.cursor round.mark (node_numbers indexes.old.nodes))) result.until indexes.new.nodes }
    ensures looks { meter.new ≡ meter.old + result.slice.examined }
{
    let held = indexes.node_count();
    let mut done = Stretch::none(round.cursor, share);
    while done.left > 0 {
        let rest = Round {
            cursor: done.cursor,
            mark: round.mark,
        };
        let next = examine_nodes(indexes, rest, done.left, now, meter);
        done = done.then(&next);
    }
    done.steps(round.mark, held, indexes.node_count())
}

/// Examines the next nodes of a round, so many at most, in one walk up to the first that leaves: it has no state, and the moment
/// has come from which it may.
fn examine_nodes<S: BuildHasher>(
    indexes: &mut Indexes<S>,
    round: Round,
    share: u64,
    now: u64,
    meter: &mut Meter,
) -> Stretch
    requires order { round.cursor ≤ round.mark }
    requires some { 0 < share }
    requires room { meter.old + share < 2 ^ 64 }
    ensures config { indexes.new.config ≡ indexes.old.config }
    ensures states { indexes.new.states ≡ indexes.old.states }
    ensures nodes { indexes.new.nodes
        ≡ filter (nodes_survive (is_over indexes.old.config indexes.old.states now) (take result.examined (waiting round.cursor round.mark (node_numbers indexes.old.nodes)))) indexes.old.nodes }
    ensures examined { IsExamined share result.examined result.left (waiting round.cursor round.mark (node_numbers indexes.old.nodes))
        (waiting result.cursor round.mark (node_numbers indexes.new.nodes)) }
    ensures order { result.cursor ≤ round.mark }
    ensures less { result.left < share }
    ensures until { NodesHold indexes.old.config indexes.old.states
        (take result.examined (waiting round.cursor round.mark (node_numbers indexes.old.nodes))) result.until indexes.new.nodes }
    ensures looks { meter.new ≡ meter.old + result.examined }
{
    indexes.node_numbers_rise();
    let passed = indexes.pass_nodes(round, share, now, meter);
    match passed.leaver {
        Some(tally) => {
            indexes.drop_node(tally.node);
            Stretch {
                cursor: tally.node.number,
                examined: passed.stayed + 1,
                left: share - passed.stayed - 1,
                until: passed.until,
            }
        }
        None => Stretch {
            cursor: passed.last,
            examined: passed.stayed,
            left: 0,
            until: passed.until,
        },
    }
}
