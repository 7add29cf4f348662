//! What a state does to the tally of its node: when it comes, when a packet of it comes, and when it leaves.

ghost use Rattle.std.specs.Prelude.{◌≡◌, ◌≤◌, ◌^◌, ◌||◌, [], IfSome, OnErr, OnOk, Some, if◌then◌else◌, map, true};
ghost use Rattle.std.specs.List.{AllByRecursion, find, list_any};
ghost use Rattle.pfs_conf_values.specs.Configs.{options_of};
ghost use Rattle.pfs_conf_values.specs.Bounds.{IsRate};
ghost use Rattle.pfs_track.specs.Scores.{zero_score};
ghost use Rattle.pfs_store_contract.specs.Counts.{node_scope_of};
ghost use Rattle.pfs_store_contract.specs.Purging.{node_numbers};
ghost use Rattle.pfs_store_contract.specs.Worlds.{IsUpToNow, lists};
ghost use Rattle.pfs_store_records.specs.Records.{IsAbove};
ghost use Rattle.pfs_store_records.specs.Tallies.{is_tally, nodes_of};
ghost use Rattle.pfs_store_records.specs.Changes.{HasTallyFor, IsFew, IsScored, at_node, connections_at, tallies_with_state, left_of, met_by, score_at};

use crate::changes::Change;
use crate::nodes::{NodeTally, Nodes};
use crate::retaining::end_of_retention;
use pfs_addr_values::{Addr, NoMemory};
use pfs_conf_values::{Config, Rate, RuleNo};
use pfs_store_contract::{Node, NodeScope, State};
use pfs_store_rules::node_scope;
use pfs_track::Score;
use std::hash::BuildHasher;

/// What is told of a node after a packet of one of its states; 0 where there is none, and where nothing is asked.
#[derive(Clone, Copy)]
pub struct Met {
    pub connections: u64,
    pub score: Score,
}

impl Met {
    fn none() -> Met
        ensures { result ≡ record { connections = 0; score = zero_score } }
    {
        Met {
            connections: 0,
            score: Score::default(),
        }
    }
}

/// A state comes: its node has one more, or is made with it. Where memory for a new node is refused, nothing changes.
pub fn join<S: BuildHasher>(
    nodes: &mut Nodes<S>,
    scope: Option<NodeScope>,
    state: &State,
) -> Result<(), NoMemory>
    requires few { AllByRecursion IsFew nodes.old }
    requires above { IsAbove state.now.number (node_numbers (nodes_of nodes.old)) }
    ensures ok { OnOk result (nodes.new ≡ tallies_with_state scope state.now nodes.old) }
    ensures err { OnErr result (nodes.new ≡ nodes.old) }
{
    match scope {
        None => Ok(()),
        Some(scope) => match nodes.change(scope, state.source, Change::Joined) {
            Some(_) => Ok(()),
            None => nodes.push(NodeTally {
                node: Node {
                    number: state.number,
                    scope,
                    source: state.source,
                    score: Score::default(),
                    expires: state.last,
                },
                states: 1,
                connections: 0,
            }),
        },
    }
}

/// A state leaves: its node has one less, and where that was the last, it is kept for its retention from now on.
pub fn leave<S: BuildHasher>(
    config: &Config,
    nodes: &mut Nodes<S>,
    scope: Option<NodeScope>,
    state: &State,
    now: u64,
)
    requires { now ≤ 2 ^ 63 }
    ensures { nodes.new ≡ map (at_node scope state.now.source (left_of config.now state.now now)) nodes.old }
{
    match scope {
        None => {}
        Some(scope) => {
            let connection = state.phase.done();
            let expires = end_of_retention(config, scope, now);
            nodes.change(
                scope,
                state.source,
                Change::Left {
                    connection,
                    expires,
                },
            );
        }
    }
}

/// A packet comes of a state of a rule and a source, which completes its handshake or does not: a connection more of its node, and the
/// score where the rule has a rate. Where it completes none, the node is looked up only if what it has is asked for.
pub fn meet<S: BuildHasher>(
    config: &Config,
    nodes: &mut Nodes<S>,
    rule: RuleNo,
    source: Addr,
    completed: bool,
    asked: bool,
    now: u64,
) -> Met
    requires has { HasTallyFor config.now nodes.old rule source }
    requires few { AllByRecursion IsFew nodes.old }
    requires scored { AllByRecursion IsScored nodes.old }
    requires order { IsUpToNow now (lists [] (nodes_of nodes.old) [] [] 0) }
    ensures nodes { nodes.new
        ≡ map (at_node (node_scope_of config.now rule.0) source (met_by (options_of config.now rule.0).max_src_conn_rate now completed)) nodes.old }
    ensures connections { result.connections
        ≡ (if asked || completed then connections_at (node_scope_of config.now rule.0) source nodes.new else 0) }
    ensures score { result.score
        ≡ (if asked || completed then score_at (node_scope_of config.now rule.0) source nodes.new else zero_score) }
{
    if !(asked || completed) {
        return Met::none();
    }
    match node_scope(config, rule) {
        None => Met::none(),
        Some(scope) => {
            let rate = rate_of(config, rule);
            let tally = meet_at(nodes, scope, source, rate, completed, now);
            Met {
                connections: tally.connections,
                score: tally.node.score,
            }
        }
    }
}

/// The tally of the node of a scope and a source, after a packet of one of its states.
fn meet_at<S: BuildHasher>(
    nodes: &mut Nodes<S>,
    scope: NodeScope,
    source: Addr,
    rate: Option<Rate>,
    completed: bool,
    now: u64,
) -> NodeTally
    requires has { list_any (is_tally scope source) nodes.old ≡ true }
    requires few { AllByRecursion IsFew nodes.old }
    requires scored { AllByRecursion IsScored nodes.old }
    requires order { IsUpToNow now (lists [] (nodes_of nodes.old) [] [] 0) }
    requires rate { IfSome rate IsRate }
    ensures nodes { nodes.new ≡ map (at_node (Some scope) source (met_by rate now completed)) nodes.old }
    ensures tally { find (is_tally scope source) nodes.new ≡ Some result }
{
    let tally = if completed {
        nodes.change(scope, source, Change::Completed { rate, now })
    } else {
        nodes.get(scope, source)
    };
    match tally {
        Some(tally) => tally,
        None => unreachable!(),
    }
}

/// The rate of a rule, if it has one.
fn rate_of(config: &Config, rule: RuleNo) -> Option<Rate>
    ensures value { result ≡ (options_of config.now rule.0).max_src_conn_rate }
    ensures sound { IfSome result IsRate }
{
    config.keeps_load_rules();
    match config.options(rule) {
        Some(options) => options.max_src_conn_rate,
        None => None,
    }
}
