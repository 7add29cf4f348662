//! The limits that a new state meets, by the counts that are kept, and what a refusal leaves.

ghost use Rattle.std.specs.Prelude.{◌≡◌, [], IfSome, IsSome, Some, false, is_some, not};
ghost use Rattle.pfs_conf_values.specs.Configs.{options_at};
ghost use Rattle.pfs_store_contract.specs.Admission.{leaves_node, limit_met, tracks};
ghost use Rattle.pfs_store_contract.specs.Counts.{has_node, node_scope_of};
ghost use Rattle.pfs_store_contract.specs.SourceLimits.{maximum_limit, new_node_limit, rule_limit, source_limit};
ghost use Rattle.pfs_store_contract.specs.Worlds.{lists};

use crate::indexes::Indexes;
use pfs_addr_values::Addr;
use pfs_conf_values::{LimitName, Profile, RuleNo, StateOptions};
use pfs_store_contract::{Limit, NodeScope};
use pfs_store_rules::{is_reached, node_scope, options_for};
use std::hash::BuildHasher;

/// The first limit that a state of this rule and source would meet.
#[tactic(auto, using(pfs_store_contract::proofs::LimitLaws::met_in_turn))]
pub(crate) fn limit_met<S: BuildHasher>(
    indexes: &Indexes<S>,
    rule: RuleNo,
    source: Addr,
) -> Option<Limit>
    requires { IsSome (options_at indexes.now.config rule.0) }
    ensures { result ≡ limit_met indexes.now.config (lists indexes.now.states indexes.now.nodes [] [] 0) rule.0 source }
{
    let options = options_for(indexes.config(), rule);
    if let Some(limit) = rule_limit(indexes, options, rule, source) {
        return Some(limit);
    }
    if indexes.config().limit(LimitName::States) <= indexes.state_count() {
        return Some(Limit::States);
    }
    None
}

/// The limit of the rule's states and that of the source, in the order of the profile.
fn rule_limit<S: BuildHasher>(
    indexes: &Indexes<S>,
    options: &StateOptions,
    rule: RuleNo,
    source: Addr,
) -> Option<Limit>
    requires { IsSome (options_at indexes.now.config rule.0) }
    ensures { result ≡ rule_limit indexes.now.config.profile (maximum_limit (lists indexes.now.states indexes.now.nodes [] [] 0) rule.0 options.now)
        (source_limit indexes.now.config (lists indexes.now.states indexes.now.nodes [] [] 0) options.now source (node_scope_of indexes.now.config rule.0)) }
{
    match indexes.profile() {
        Profile::Own => match maximum_limit(indexes, options, rule) {
            Some(limit) => Some(limit),
            None => tracked_limit(indexes, options, rule, source),
        },
        Profile::OpenBsd74 => match tracked_limit(indexes, options, rule, source) {
            Some(limit) => Some(limit),
            None => maximum_limit(indexes, options, rule),
        },
    }
}

/// The limit of a rule's states.
fn maximum_limit<S: BuildHasher>(
    indexes: &Indexes<S>,
    options: &StateOptions,
    rule: RuleNo,
) -> Option<Limit>
    requires { IsSome (options_at indexes.now.config rule.0) }
    ensures { result ≡ maximum_limit (lists indexes.now.states indexes.now.nodes [] [] 0) rule.0 options.now }
{
    if is_reached(options.max, indexes.rule_count(rule)) {
        Some(Limit::Max)
    } else {
        None
    }
}

/// The limit that a source meets where the rule tracks sources.
fn tracked_limit<S: BuildHasher>(
    indexes: &Indexes<S>,
    options: &StateOptions,
    rule: RuleNo,
    source: Addr,
) -> Option<Limit>
    ensures { result ≡ source_limit indexes.now.config (lists indexes.now.states indexes.now.nodes [] [] 0) options.now source (node_scope_of indexes.now.config rule.0) }
{
    match node_scope(indexes.config(), rule) {
        Some(scope) => source_limit(indexes, options, scope, source),
        None => None,
    }
}

/// The limit that a source meets in the scope of a rule with these options.
fn source_limit<S: BuildHasher>(
    indexes: &Indexes<S>,
    options: &StateOptions,
    scope: NodeScope,
    source: Addr,
) -> Option<Limit>
    ensures { result
        ≡ source_limit indexes.now.config (lists indexes.now.states indexes.now.nodes [] [] 0) options.now source (Some scope) }
{
    match indexes.source_count(scope, source) {
        Some(count) => {
            if is_reached(options.max_src_states, count) {
                Some(Limit::MaxSrcStates)
            } else {
                None
            }
        }
        None => new_node_limit(indexes, options, scope),
    }
}

fn new_node_limit<S: BuildHasher>(
    indexes: &Indexes<S>,
    options: &StateOptions,
    scope: NodeScope,
) -> Option<Limit>
    ensures { result
        ≡ new_node_limit indexes.now.config (lists indexes.now.states indexes.now.nodes [] [] 0) options.now scope }
{
    if is_reached(options.max_src_nodes, indexes.scope_count(scope)) {
        Some(Limit::MaxSrcNodes)
    } else if indexes.config().limit(LimitName::SrcNodes) <= indexes.node_count() {
        Some(Limit::SrcNodes)
    } else {
        None
    }
}

/// The scope in which a refusal by a limit leaves a node of the source, if it leaves one.
pub(crate) fn scope_left<S: BuildHasher>(
    indexes: &Indexes<S>,
    limit: Limit,
    rule: RuleNo,
    source: Addr,
) -> Option<NodeScope>
    ensures leaves { is_some result ≡ leaves_node indexes.now.config (lists indexes.now.states indexes.now.nodes [] [] 0) source rule.0 limit }
    ensures scope { IfSome result (λ scope. node_scope_of indexes.now.config rule.0 ≡ Some scope) }
    ensures absent { IfSome result (λ scope. has_node scope source indexes.now.nodes ≡ false) }
{
    match (limit, indexes.profile()) {
        (Limit::Max, Profile::OpenBsd74) => untracked_scope(indexes, rule, source),
        _ => None,
    }
}

/// The scope in which a rule tracks sources, where this one has no node in it.
fn untracked_scope<S: BuildHasher>(
    indexes: &Indexes<S>,
    rule: RuleNo,
    source: Addr,
) -> Option<NodeScope>
    ensures some { is_some result ≡ tracks (node_scope_of indexes.now.config rule.0) (λ s. not (has_node s source indexes.now.nodes)) }
    ensures scope { IfSome result (λ scope. node_scope_of indexes.now.config rule.0 ≡ Some scope) }
    ensures absent { IfSome result (λ scope. has_node scope source indexes.now.nodes ≡ false) }
{
    match node_scope(indexes.config(), rule) {
        Some(scope) => match indexes.source_count(scope, source) {
            Some(_) => None,
            None => Some(scope),
        },
        None => None,
    }
}
