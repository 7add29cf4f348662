//! The limits that a new state meets.

ghost use Rattle.std.specs.Prelude.{◌≡◌, [], IsSome};
ghost use Rattle.pfs_conf_values.specs.Configs.{options_at};
ghost use Rattle.pfs_store_contract.specs.Admission.{limit_met};
ghost use Rattle.pfs_store_contract.specs.Counts.{node_scope_of};
ghost use Rattle.pfs_store_contract.specs.SourceLimits.{held_node_limit, maximum_limit, new_node_limit, rule_limit, source_limit};
ghost use Rattle.pfs_store_contract.specs.Worlds.{lists};

use crate::counts::{OfNode, OfRule, count, has_node, scope_nodes};
use pfs_addr_values::Addr;
use pfs_conf_values::{Config, LimitName, Profile, RuleNo, StateOptions};
use pfs_store_contract::{Limit, Node, NodeScope, State};
use pfs_store_rules::{is_reached, node_scope, options_for};

/// The first limit that a state of this rule and source would meet.
#[tactic(auto, using(pfs_store_contract::proofs::LimitLaws::met_in_turn))]
pub(crate) fn limit_met(
    config: &Config,
    states: &[State],
    nodes: &[Node],
    rule: RuleNo,
    source: Addr,
) -> Option<Limit>
    requires { IsSome (options_at config.now rule.0) }
    ensures { result ≡ limit_met config.now (lists states.now nodes.now [] [] 0) rule.0 source }
{
    let options = options_for(config, rule);
    if let Some(limit) = rule_limit(config, states, nodes, options, rule, source) {
        return Some(limit);
    }
    if config.limit(LimitName::States) <= states.len() as u64 {
        return Some(Limit::States);
    }
    None
}

/// The limit of the rule's states and that of the source, in the order of the profile.
fn rule_limit(
    config: &Config,
    states: &[State],
    nodes: &[Node],
    options: &StateOptions,
    rule: RuleNo,
    source: Addr,
) -> Option<Limit>
    ensures { result ≡ rule_limit config.now.profile (maximum_limit (lists states.now nodes.now [] [] 0) rule.0 options.now)
        (source_limit config.now (lists states.now nodes.now [] [] 0) options.now source (node_scope_of config.now rule.0)) }
{
    let scope = node_scope(config, rule);
    match config.profile() {
        Profile::Own => match maximum_limit(states, options, rule) {
            Some(limit) => Some(limit),
            None => source_limit(config, states, nodes, options, scope, source),
        },
        Profile::OpenBsd74 => match source_limit(config, states, nodes, options, scope, source) {
            Some(limit) => Some(limit),
            None => maximum_limit(states, options, rule),
        },
    }
}

/// The limit of a rule's states.
fn maximum_limit(states: &[State], options: &StateOptions, rule: RuleNo) -> Option<Limit>
    ensures { result ≡ maximum_limit (lists states.now [] [] [] 0) rule.0 options.now }
{
    if is_reached(options.max, count(states, &OfRule(rule))) {
        Some(Limit::Max)
    } else {
        None
    }
}

/// The limit that a source meets in the scope of a rule with these options, if there is one.
fn source_limit(
    config: &Config,
    states: &[State],
    nodes: &[Node],
    options: &StateOptions,
    scope: Option<NodeScope>,
    source: Addr,
) -> Option<Limit>
    ensures { result ≡ source_limit config.now (lists states.now nodes.now [] [] 0) options.now source scope }
{
    let scope = scope?;
    if has_node(nodes, scope, source) {
        held_node_limit(config, states, options, scope, source)
    } else {
        new_node_limit(config, nodes, options, scope)
    }
}

fn held_node_limit(
    config: &Config,
    states: &[State],
    options: &StateOptions,
    scope: NodeScope,
    source: Addr,
) -> Option<Limit>
    ensures { result ≡ held_node_limit config.now (lists states.now [] [] [] 0) options.now scope source }
{
    let of_node = OfNode {
        config,
        scope,
        source,
    };
    if is_reached(options.max_src_states, count(states, &of_node)) {
        Some(Limit::MaxSrcStates)
    } else {
        None
    }
}

fn new_node_limit(
    config: &Config,
    nodes: &[Node],
    options: &StateOptions,
    scope: NodeScope,
) -> Option<Limit>
    ensures { result ≡ new_node_limit config.now (lists [] nodes.now [] [] 0) options.now scope }
{
    if is_reached(options.max_src_nodes, scope_nodes(nodes, scope)) {
        Some(Limit::MaxSrcNodes)
    } else if config.limit(LimitName::SrcNodes) <= nodes.len() as u64 {
        Some(Limit::SrcNodes)
    } else {
        None
    }
}
