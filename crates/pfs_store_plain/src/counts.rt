//! Counts of states, and the nodes that a scope has.

ghost use Rattle.std.specs.Prelude.{◌≡◌, Bool, filter, length};
ghost use Rattle.pfs_track.specs.StatePhases.{is_half_open};
ghost use Rattle.pfs_store_contract.specs.Counts.{has_node, in_scope, is_connection, is_of_node, is_of_rule, scope_nodes};
ghost use Rattle.pfs_store_contract.specs.declared.records.State.{State};

use pfs_addr_values::Addr;
use pfs_conf_values::{Config, RuleNo, Scope};
use pfs_store_contract::{Node, NodeScope, State};

/// A test of states.
pub(crate) trait Test {
    // which states pass
    ghost passes: { Self → State → Bool };

    fn passes(&self, state: &State) -> bool
        ensures { result ≡ passes self.now state.now };
}

/// How many of these states pass a test.
pub(crate) fn count<T: Test>(states: &[State], test: &T) -> u64
    ensures { result ≡ length (filter (T.passes test.now) states.now) }
{
    states.iter().filter(|state| test.passes(state)).count() as u64
}

/// The states of a rule.
#[derive(Clone, Copy)]
pub(crate) struct OfRule(pub RuleNo);

impl Test for OfRule {
    ghost passes = { λ t s. is_of_rule t.0.0 s };

    fn passes(&self, state: &State) -> bool {
        state.rule == self.0
    }
}

/// The half open states.
#[derive(Clone, Copy)]
pub(crate) struct HalfOpen;

impl Test for HalfOpen {
    ghost passes = { λ t s. is_half_open s.phase };

    fn passes(&self, state: &State) -> bool {
        state.phase.is_half_open()
    }
}

/// The states of the node of a scope and a source.
#[derive(Clone, Copy)]
pub(crate) struct OfNode<'a> {
    pub config: &'a Config,
    pub scope: NodeScope,
    pub source: Addr,
}

impl Test for OfNode<'_> {
    ghost passes = { λ t s. is_of_node t.config.now t.scope t.source s };

    fn passes(&self, state: &State) -> bool {
        in_scope(self.config, self.scope, state.rule) && state.source == self.source
    }
}

/// The states of a node whose handshake has completed.
#[derive(Clone, Copy)]
pub(crate) struct Connections<'a>(pub OfNode<'a>);

impl Test for Connections<'_> {
    ghost passes = { λ t s. is_connection t.0.config.now t.0.scope t.0.source s };

    fn passes(&self, state: &State) -> bool {
        state.phase.done() && self.0.passes(state)
    }
}

/// Whether a rule counts in a scope.
fn in_scope(config: &Config, scope: NodeScope, rule: RuleNo) -> bool
    ensures { result ≡ in_scope config.now scope rule.0 }
{
    match scope {
        NodeScope::Rule(own) => rule == own,
        NodeScope::Global => matches!(config.scope(rule), Some(Scope::Global)),
    }
}

/// Whether a source has a node in a scope.
pub(crate) fn has_node(nodes: &[Node], scope: NodeScope, source: Addr) -> bool
    ensures { result ≡ has_node scope source nodes.now }
{
    nodes
        .iter()
        .any(|node| node.scope == scope && node.source == source)
}

/// How many nodes a scope has.
pub(crate) fn scope_nodes(nodes: &[Node], scope: NodeScope) -> u64
    ensures { result ≡ scope_nodes scope nodes.now }
{
    nodes.iter().filter(|node| node.scope == scope).count() as u64
}
