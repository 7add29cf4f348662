//! A packet of a state that is held, in lists of states and nodes.

ghost use Rattle.std.specs.Prelude.{◌≡◌, ◌≤◌, ℕ, [], IfSome, IsSome, List, Some, map, option_map};
ghost use Rattle.pfs_conf_values.specs.Configs.{options_of};
ghost use Rattle.pfs_conf_values.specs.Bounds.{IsRate};
ghost use Rattle.pfs_track.specs.StatePhases.{has_closed};
ghost use Rattle.pfs_store_contract.specs.Counts.{node_scope_of};
ghost use Rattle.pfs_store_plain.specs.PlainRoom.{AreScores};
ghost use Rattle.pfs_store_contract.specs.Touching.{completes_at, connections_in, goes_forward, is_asking, is_taken, node_score, nodes_scored, nodes_touched, numbered_state_after, node_after_handshake, score_in, state_after_packet};
ghost use Rattle.pfs_store_contract.specs.Calls.{touch_of, world_touched};
ghost use Rattle.pfs_store_contract.specs.Worlds.{IsUpToNow, lists, state_inside, state_numbered, state_with};
ghost use Rattle.pfs_store_contract.specs.declared.records.State.{State};

use crate::counts::{Connections, OfNode, count};
use pfs_addr_values::{Addr, FlowKey, Packet};
use pfs_conf_values::{Config, Rate, RuleNo};
use pfs_store_contract::{Node, NodeScope, State, Touched};
use pfs_store_rules::node_scope;
use pfs_track::Score;

/// Takes a packet of the state of a number.
pub(crate) fn touch(
    config: &Config,
    states: &mut [State],
    nodes: &mut [Node],
    number: u64,
    packet: &Packet,
    now: u64,
) -> Touched
    requires held { IsSome (state_numbered number (lists states.old [] [] [] 0)) }
    requires order { IsUpToNow now (lists [] nodes.old [] [] 0) }
    requires scores { AreScores nodes.old }
    ensures world { (state_numbers node_numbers : List ℕ) (made : ℕ) → lists states.new nodes.new state_numbers node_numbers made
        ≡ world_touched config.now (lists states.old nodes.old state_numbers node_numbers made) packet.now now
        (state_numbered number (lists states.old [] [] [] 0)) }
    ensures answer { Some result
        ≡ option_map (touch_of config.now (lists states.old nodes.old [] [] 0) packet.now now) (state_numbered number (lists states.old [] [] [] 0)) }
    ensures scores { AreScores nodes.new }
{
    match state_numbered(states, number) {
        Some(state) => touch_state(config, states, nodes, state, packet, now),
        None => unreachable!(),
    }
}

/// The state that has a key on the wire.
pub(crate) fn state_with(states: &[State], key: &FlowKey) -> Option<State>
    ensures { result ≡ state_with key.now (lists states.now [] [] [] 0) }
{
    for state in states {
        if state.key == *key {
            return Some(*state);
        }
    }
    None
}

/// The state that has a key inside.
pub(crate) fn state_inside(states: &[State], key: &FlowKey) -> Option<State>
    ensures { result ≡ state_inside key.now (lists states.now [] [] [] 0) }
{
    for state in states {
        if state.inner_key() == *key {
            return Some(*state);
        }
    }
    None
}

/// The state of a number.
pub(crate) fn state_numbered(states: &[State], number: u64) -> Option<State>
    ensures { result ≡ state_numbered number (lists states.now [] [] [] 0) }
{
    for state in states {
        if state.number == number {
            return Some(*state);
        }
    }
    None
}

/// Whether both peers of the state of a number have closed their connection, or it was reset.
pub(crate) fn has_closed(states: &[State], number: u64) -> bool
    requires held { IsSome (state_numbered number (lists states.now [] [] [] 0)) }
    ensures { Some result ≡ option_map (λ (s : State). has_closed s.phase) (state_numbered number (lists states.now [] [] [] 0)) }
{
    match state_numbered(states, number) {
        Some(state) => state.phase.has_closed(),
        None => unreachable!(),
    }
}

/// Takes a packet of this state.
fn touch_state(
    config: &Config,
    states: &mut [State],
    nodes: &mut [Node],
    state: State,
    packet: &Packet,
    now: u64,
) -> Touched
    requires order { IsUpToNow now (lists [] nodes.old [] [] 0) }
    requires scores { AreScores nodes.old }
    ensures states { states.new ≡ map (numbered_state_after state.number packet.now now) states.old }
    ensures nodes { nodes.new ≡ nodes_touched config.now nodes.old state now (completes_at packet.now state) }
    ensures answer { result ≡ touch_of config.now (lists states.old nodes.old [] [] 0) packet.now now state }
    ensures scores { AreScores nodes.new }
{
    let completed = completes_at(packet, &state);
    let taken = is_taken(packet, &state);
    let asks = is_asking(packet, &state);
    renew(states, state.number, packet, now);
    if completed {
        score_handshake(config, nodes, &state, now);
    }
    let scope = node_scope(config, state.rule);
    Touched {
        rule: state.rule,
        source: state.source,
        dir: state.dir,
        completed,
        taken,
        asks,
        tag: state.tag,
        connections: connections_in(config, states, scope, state.source),
        score: score_in(nodes, scope, state.source),
    }
}

/// Whether a packet completes the handshake of a state.
fn completes_at(packet: &Packet, state: &State) -> bool
    ensures { result ≡ completes_at packet.now state.now }
{
    state
        .phase
        .step(goes_forward(packet, state), packet.flags())
        .1
}

/// Whether pf takes a packet of a state itself.
fn is_taken(packet: &Packet, state: &State) -> bool
    ensures { result ≡ is_taken packet.now state.now }
{
    state
        .phase
        .takes(goes_forward(packet, state), packet.flags())
}

/// Whether pf asks the other peer for a connection at a packet of a state.
fn is_asking(packet: &Packet, state: &State) -> bool
    ensures { result ≡ is_asking packet.now state.now }
{
    state
        .phase
        .asks_peer(goes_forward(packet, state), packet.flags())
}

fn goes_forward(packet: &Packet, state: &State) -> bool
    ensures { result ≡ goes_forward packet.now state.now }
{
    packet.dir() == state.dir
}

/// The state of this number takes a packet.
fn renew(states: &mut [State], number: u64, packet: &Packet, now: u64)
    ensures { states.new ≡ map (numbered_state_after number packet.now now) states.old }
{
    for state in states.iter_mut() {
        *state = renewed(*state, number, packet, now);
    }
}

fn renewed(state: State, number: u64, packet: &Packet, now: u64) -> State
    ensures { result ≡ numbered_state_after number packet.now now state }
{
    if state.number == number {
        after_packet(&state, packet, now)
    } else {
        state
    }
}

/// A state after its packet.
fn after_packet(state: &State, packet: &Packet, now: u64) -> State
    ensures { result ≡ state_after_packet packet.now now state.now }
{
    let (phase, _) = state
        .phase
        .step(goes_forward(packet, state), packet.flags());
    State {
        phase,
        last: if is_taken(packet, state) {
            state.last
        } else {
            now
        },
        ..*state
    }
}

/// Counts a handshake of this state in the score of its source's node, if its rule tracks sources and has a rate.
fn score_handshake(config: &Config, nodes: &mut [Node], state: &State, now: u64)
    requires order { IsUpToNow now (lists [] nodes.old [] [] 0) }
    requires scores { AreScores nodes.old }
    ensures nodes { nodes.new
        ≡ nodes_scored nodes.old state.now.source now (node_scope_of config.now state.now.rule.0) (options_of config.now state.now.rule.0).max_src_conn_rate }
    ensures scores { AreScores nodes.new }
{
    if let Some(scope) = node_scope(config, state.rule)
        && let Some(rate) = rate_of(config, state.rule)
    {
        rescore(nodes, scope, state.source, rate, now);
    }
}

/// The rate of a rule, if it has one.
fn rate_of(config: &Config, rule: RuleNo) -> Option<Rate>
    ensures value { result ≡ (options_of config.now rule.0).max_src_conn_rate }
    ensures sound { IfSome result IsRate }
{
    match config.options(rule) {
        Some(options) => options.max_src_conn_rate,
        None => None,
    }
}

/// Counts a handshake in the score of the node of a scope and a source.
fn rescore(nodes: &mut [Node], scope: NodeScope, source: Addr, rate: Rate, now: u64)
    requires rate { IsRate rate }
    requires order { IsUpToNow now (lists [] nodes.old [] [] 0) }
    requires scores { AreScores nodes.old }
    ensures nodes { nodes.new ≡ map (node_after_handshake scope source rate.seconds now) nodes.old }
    ensures scores { AreScores nodes.new }
{
    for node in nodes.iter_mut() {
        *node = rescored(*node, scope, source, rate, now);
    }
}

fn rescored(node: Node, scope: NodeScope, source: Addr, rate: Rate, now: u64) -> Node
    requires rate { IsRate rate }
    requires order { node.score.last ≤ now }
    requires score { node.score.value ≤ 4294968000 }
    ensures value { result ≡ node_after_handshake scope source rate.seconds now node }
    ensures bounded { result.score.value ≤ 4294968000 }
{
    if node.scope == scope && node.source == source {
        Node {
            score: node.score.add(now, u64::from(rate.seconds)),
            ..node
        }
    } else {
        node
    }
}

/// The connections of a source in a scope, if there is one.
fn connections_in(config: &Config, states: &[State], scope: Option<NodeScope>, source: Addr) -> u64
    ensures { result ≡ connections_in config.now source states.now scope }
{
    match scope {
        Some(scope) => {
            let of_node = OfNode {
                config,
                scope,
                source,
            };
            count(states, &Connections(of_node))
        }
        None => 0,
    }
}

/// The score of a source in a scope, if there is one.
fn score_in(nodes: &[Node], scope: Option<NodeScope>, source: Addr) -> Score
    ensures { result ≡ score_in source nodes.now scope }
{
    match scope {
        Some(scope) => node_score(nodes, scope, source),
        None => Score::default(),
    }
}

fn node_score(nodes: &[Node], scope: NodeScope, source: Addr) -> Score
    ensures { result ≡ node_score scope source nodes.now }
{
    for node in nodes {
        if node.scope == scope && node.source == source {
            return node.score;
        }
    }
    Score::default()
}
