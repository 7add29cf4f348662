//! A store over plain lists.

ghost use Rattle.std.specs.Prelude.{◌≡◌, ◌+◌, ◌<◌, ◌≤◌, ◌^◌, [], ◌∷◌, ◌++◌, false, true, IfOk, IsOk, IsSome, None, OnErr, OnOk, length, option_map, vec_capacity};
ghost use Rattle.pfs_addr_values.specs.Packets.{run_limit};
ghost use Rattle.pfs_store_contract.specs.Admission.{leaves_node, new_phase, nodes_with, world_after_admission, world_after_refusal};
ghost use Rattle.pfs_store_contract.specs.Calls.{state_number, state_rule};
ghost use Rattle.pfs_store_plain.specs.PlainRoom.{AreScores};
ghost use Rattle.pfs_store_contract.specs.Worlds.{empty_world};

use crate::counts::{HalfOpen, count, has_node};
use crate::leaving::{Elsewhere, FlushTest, Going, OtherThan, Unflushed, holds_number, leave};
use crate::limits::limit_met;
use crate::purging::{slice_nodes, slice_states};
use crate::touching::{self, state_inside, state_numbered, state_with};
use pfs_addr_values::{Addr, Dir, FlowKey, Meter, NoMemory, Packet};
use pfs_conf_values::{Config, RuleNo};
use pfs_store_contract::{
    FromTo, Limit, Node, NodeScope, Slice, State, StateHandle, StateNo, Store, Touched, apart,
    inner_key, is_answered, wire_key,
};
use pfs_store_rules::node_scope;
use pfs_track::{Score, StatePhase};
use std::alloc::{AllocError, Global};
use std::marker::Model;

/// A store that keeps its states and source nodes as two lists, and walks them at each call. It does not count looks.
///
/// Clauses see a `Plain`: the configuration that it was made for, and its world.
#[derive(Drop)]
pub struct PlainStore {
    config: Config,
    states: Vec<State>,
    nodes: Vec<Node>,
    pending_states: Vec<u64>,
    pending_nodes: Vec<u64>,
    rule_counts: Vec<u64>,
    made: u64,
}

impl Model for PlainStore {
    ghost use Rattle.std.specs.Prelude.{vec_capacity};
    ghost use Rattle.pfs_store_contract.specs.Plain.{Plain};
    ghost use Rattle.pfs_store_plain.specs.PlainRoom.{IsRoomy};
    ghost use Rattle.pfs_store_contract.specs.Worlds.{lists};

    ghost Value = { Plain };

    ghost view = { λ s. record { config = s.config; world = lists s.states.items s.nodes.items s.pending_states.items s.pending_nodes.items s.made } };

    ghost invariant = { λ s. IsRoomy s.config s.states.items s.nodes.items s.rule_counts.items (vec_capacity s.pending_states) (vec_capacity s.pending_nodes) };
}

impl PlainStore {
    /// An empty store, made for this configuration, of which it keeps a copy. `NoMemory` where memory for the copy is refused.
    pub fn new(alloc: Global, config: &Config) -> Result<PlainStore, NoMemory>
        ensures { IfOk result (λ s. s ≡ record { config = config.now; world = empty_world }) }
    {
        let rule_counts = vec![in alloc; 0; config.item_count() as usize]?;
        Ok(PlainStore {
            config: config.copy()?,
            states: Vec::new(alloc),
            nodes: Vec::new(alloc),
            pending_states: Vec::new(alloc),
            pending_nodes: Vec::new(alloc),
            rule_counts,
            made: 0,
        })
    }

    /// The state of a packet that meets no limit and goes on as another, and its source's node.
    fn place(
        &mut self,
        packet: &Packet,
        going: &Packet,
        rule: RuleNo,
        cookie: bool,
        now: u64,
    ) -> Result<StateNo, AllocError>
        requires room { self.old.world.made < run_limit }
        ensures answer { IfOk result (λ number. number.0 ≡ self.old.world.made + 1) }
        ensures ok { OnOk result (self.new.world ≡ world_after_admission self.old.config self.old.world packet.now going.now rule.0 cookie now) }
        ensures err { OnErr result (self.new.world ≡ self.old.world) }
        ensures config { self.new.config ≡ self.old.config }
    {
        // The proof needs the type of a packet's protocol named here.
        let _proto = packet.proto();
        let phase = new_phase(&self.config, rule, packet, cookie);
        make_room(&mut self.states, &mut self.pending_states)?;
        let scope = node_scope(&self.config, rule);
        make_node_room(&mut self.nodes, &mut self.pending_nodes, scope)?;
        let number = self.made + 1;
        let source = packet.src();
        add_node(&mut self.nodes, number, source, now, scope);
        let key = wire_key(packet, going);
        self.states.push_reserved(State {
            number,
            key,
            inner: apart(&key, &inner_key(packet, going)),
            dir: packet.dir(),
            source,
            rule,
            phase,
            last: now,
            tag: going.tag(),
        });
        self.made = number;
        Ok(StateNo(number))
    }

    /// What a refusal by this limit leaves: maybe a node of the source.
    fn refuse(
        &mut self,
        source: Addr,
        rule: RuleNo,
        now: u64,
        limit: Limit,
    ) -> Result<(), AllocError>
        requires room { self.old.world.made < run_limit }
        ensures ok { OnOk result (self.new.world ≡ world_after_refusal self.old.config self.old.world source rule.0 now limit) }
        ensures err { OnErr result (self.new.world ≡ self.old.world) }
        ensures free { leaves_node self.old.config self.old.world source rule.0 limit ≡ false → IsOk result }
        ensures config { self.new.config ≡ self.old.config }
    {
        if self.leaves_node(source, rule, limit) {
            let scope = node_scope(&self.config, rule);
            make_node_room(&mut self.nodes, &mut self.pending_nodes, scope)?;
            self.made += 1;
            add_node(&mut self.nodes, self.made, source, now, scope);
        }
        Ok(())
    }

    /// Whether a refusal by this limit leaves a node: under the profile of OpenBSD 7.4, where `max` refuses a source that has none in
    /// the scope in which the rule tracks it.
    fn leaves_node(&self, source: Addr, rule: RuleNo, limit: Limit) -> bool
        ensures { result ≡ leaves_node self.now.config self.now.world source rule.0 limit }
    {
        match (limit, node_scope(&self.config, rule)) {
            (Limit::Max, Some(scope)) => {
                self.config.profile().is_openbsd() && !has_node(&self.nodes, scope, source)
            }
            _ => false,
        }
    }
}

impl Store for PlainStore {
    ghost world = { λ s. s.world };

    ghost config = { λ s. s.config };

    ghost counts = { false };

    // it walks its lists at each call, and needs nothing that it said
    ghost reaches = { λ s found. true };

    fn find(&self, key: &FlowKey) -> Option<StateHandle> {
        found(state_with(&self.states, key))
    }

    fn find_inside(&self, key: &FlowKey) -> Option<StateHandle> {
        found(state_inside(&self.states, key))
    }

    fn onward_key(&self, found: StateHandle, dir: Dir) -> Option<FlowKey> {
        match state_numbered(&self.states, found.number.0) {
            Some(state) => state.onward_key(dir),
            None => None,
        }
    }

    fn holds(&self, number: StateNo) -> bool {
        holds_number(&self.states, number.0)
    }

    fn state_count(&self) -> u64 {
        self.states.len() as u64
    }

    fn half_open_count(&self) -> u64 {
        count(&self.states, &HalfOpen)
    }

    fn node_count(&self) -> u64 {
        self.nodes.len() as u64
    }

    fn made(&self) -> u64 {
        self.made
    }

    fn meet_limit(
        &mut self,
        source: Addr,
        rule: RuleNo,
        now: u64,
    ) -> Result<Option<Limit>, NoMemory> {
        match limit_met(&self.config, &self.states, &self.nodes, rule, source) {
            Some(limit) => match self.refuse(source, rule, now, limit) {
                Ok(()) => Ok(Some(limit)),
                Err(_) => Err(NoMemory),
            },
            None => Ok(None),
        }
    }

    fn make(
        &mut self,
        packet: &Packet,
        going: &Packet,
        rule: RuleNo,
        cookie: bool,
        now: u64,
    ) -> Result<StateNo, NoMemory> {
        match self.place(packet, going, rule, cookie, now) {
            Ok(number) => Ok(number),
            Err(_) => Err(NoMemory),
        }
    }

    fn touch(
        &mut self,
        found: StateHandle,
        packet: &Packet,
        now: u64,
        _meter: &mut Meter,
    ) -> Touched {
        touching::touch(
            &self.config,
            self.states.as_mut_slice(),
            self.nodes.as_mut_slice(),
            found.number.0,
            packet,
            now,
        )
    }

    fn has_closed(&self, found: StateHandle, _meter: &mut Meter) -> bool {
        touching::has_closed(&self.states, found.number.0)
    }

    fn kill(&mut self, found: StateHandle, now: u64, _meter: &mut Meter) {
        leave(
            &self.config,
            &mut self.states,
            self.nodes.as_mut_slice(),
            &mut self.pending_states,
            &OtherThan(found.number.0),
            now,
        );
    }

    fn flush(
        &mut self,
        dir: Dir,
        source: Addr,
        rule: Option<RuleNo>,
        now: u64,
        _meter: &mut Meter,
    ) -> u64 {
        let flushed = FlushTest {
            profile: self.config.profile(),
            dir,
            source,
            rule,
        };
        let killed = count(&self.states, &flushed);
        leave(
            &self.config,
            &mut self.states,
            self.nodes.as_mut_slice(),
            &mut self.pending_states,
            &Unflushed(flushed),
            now,
        );
        killed
    }

    fn kill_from_to(&mut self, hosts: &FromTo, now: u64, _meter: &mut Meter) -> u64 {
        let killed = count(&self.states, &Going(hosts));
        leave(
            &self.config,
            &mut self.states,
            self.nodes.as_mut_slice(),
            &mut self.pending_states,
            &Elsewhere(hosts),
            now,
        );
        killed
    }

    fn purge_states(&mut self, now: u64, _meter: &mut Meter) -> Slice {
        slice_states(
            &self.config,
            self.rule_counts.as_mut_slice(),
            &mut self.states,
            self.nodes.as_mut_slice(),
            &mut self.pending_states,
            now,
        )
    }

    fn purge_nodes(&mut self, now: u64, _meter: &mut Meter) -> Slice {
        slice_nodes(
            &self.config,
            &self.states,
            &mut self.nodes,
            &mut self.pending_nodes,
            now,
        )
    }
}

/// What was found, where it is this state.
fn found(state: Option<State>) -> Option<StateHandle>
    ensures number { option_map (λ f. f.number) result ≡ option_map state_number state }
    ensures rule { option_map (λ f. f.rule) result ≡ option_map state_rule state }
{
    match state {
        Some(state) => Some(StateHandle {
            number: StateNo(state.number),
            rule: state.rule,
            place: 0,
        }),
        None => None,
    }
}

/// The phase of the state that a packet makes at a rule. `cookie`: it brings a SYN cookie.
fn new_phase(config: &Config, rule: RuleNo, packet: &Packet, cookie: bool) -> StatePhase
    ensures { result ≡ new_phase config.now rule.0 packet.now cookie }
{
    let full = config.tracks_fully(rule);
    if cookie {
        StatePhase::of_cookie(full)
    } else if is_answered(config, rule, packet) {
        StatePhase::proxied(full)
    } else {
        StatePhase::first(full, packet.proto())
    }
}

/// Room for one more of what is held, and for the numbers of all of it.
fn make_room<T>(held: &mut Vec<T>, pending: &mut Vec<u64>) -> Result<(), AllocError>
    ensures held { held.new.items ≡ held.old.items }
    ensures pending { pending.new.items ≡ pending.old.items }
    ensures kept { vec_capacity pending.old ≤ vec_capacity pending.new }
    ensures room { OnOk result (length held.new.items < vec_capacity held.new) }
    ensures numbers { OnOk result (length held.new.items + 1 ≤ vec_capacity pending.new) }
{
    held.reserve(1)?;
    let wanted = held.len().saturating_add(1);
    pending.reserve(wanted.saturating_sub(pending.len()))
}

/// Room for one more node and its number, if there is a scope.
fn make_node_room(
    nodes: &mut Vec<Node>,
    pending: &mut Vec<u64>,
    scope: Option<NodeScope>,
) -> Result<(), AllocError>
    ensures held { nodes.new.items ≡ nodes.old.items }
    ensures pending { pending.new.items ≡ pending.old.items }
    ensures kept { vec_capacity pending.old ≤ vec_capacity pending.new }
    ensures room { IsSome scope → OnOk result (length nodes.new.items < vec_capacity nodes.new) }
    ensures numbers { IsSome scope → OnOk result (length nodes.new.items + 1 ≤ vec_capacity pending.new) }
    ensures free { scope ≡ None → IsOk result }
{
    match scope {
        Some(_) => make_room(nodes, pending),
        None => Ok(()),
    }
}

/// Adds the node of a source in a scope, if there is a scope and it has none. It may leave from now on.
fn add_node(nodes: &mut Vec<Node>, number: u64, source: Addr, now: u64, scope: Option<NodeScope>)
    requires room { IsSome scope → length nodes.old.items < vec_capacity nodes.old }
    requires scores { AreScores nodes.old.items }
    ensures nodes { nodes.new.items ≡ nodes_with nodes.old.items number source now scope }
    ensures fewer { IsSome scope → length nodes.new.items ≤ length nodes.old.items + 1 }
    ensures none { scope ≡ None → nodes.new.items ≡ nodes.old.items }
    ensures scores { AreScores nodes.new.items }
{
    if let Some(scope) = scope
        && !has_node(nodes, scope, source)
    {
        nodes.push_reserved(Node {
            number,
            scope,
            source,
            score: Score::default(),
            expires: now,
        });
    }
}
