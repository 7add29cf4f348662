//! What a rule asks of a store: its options, the scope of its source nodes and how long they stay, and its maximums.

ghost use Rattle.std.specs.Prelude.{◌≡◌, IsSome, slice_index};
ghost use Rattle.pfs_conf_values.specs.Configs.{options_at, options_of};
ghost use Rattle.pfs_store_contract.specs.Counts.{node_scope_of, reaches_maximum};
ghost use Rattle.pfs_store_contract.specs.Leaving.{node_retention};

use pfs_conf_values::{Config, RuleNo, Scope, StateOptions, TimeoutName, rule_retention};
use pfs_store_contract::NodeScope;

/// The options of a rule that keeps state. It takes no memory.
pub fn options_for(config: &Config, rule: RuleNo) -> &StateOptions
    requires { IsSome (options_at config.now rule.0) }
    ensures { result.now ≡ options_of config.now rule.0 }
{
    match config.options(rule) {
        Some(options) => options,
        None => unreachable!(),
    }
}

/// The scope of a rule's nodes, if it tracks sources. It takes no memory.
pub fn node_scope(config: &Config, rule: RuleNo) -> Option<NodeScope>
    ensures { result ≡ node_scope_of config.now rule.0 }
{
    match config.scope(rule) {
        None => None,
        Some(Scope::Rule) => Some(NodeScope::Rule(rule)),
        Some(Scope::Global) => Some(NodeScope::Global),
    }
}

/// How long a node without states is kept, in seconds. It takes no memory.
pub fn node_retention(config: &Config, scope: NodeScope) -> u64
    ensures { result ≡ node_retention config.now scope }
{
    let global = config.timeout(TimeoutName::SrcTrack);
    match scope {
        NodeScope::Rule(rule) => match config.options(rule) {
            Some(options) => rule_retention(config.profile(), options, global),
            None => global,
        },
        NodeScope::Global => global,
    }
}

/// Whether a maximum, if there is one, is reached. It takes no memory.
pub fn is_reached(most: Option<u32>, count: u64) -> bool
    ensures { result ≡ reaches_maximum most count }
{
    match most {
        Some(most) => u64::from(most) <= count,
        None => false,
    }
}

/// The count of a rule, by its number; 0 where none is kept. It takes no memory.
pub fn count_at(counts: &[u64], place: usize) -> u64
    ensures { result ≡ slice_index counts.now place }
{
    if place < counts.len() {
        counts[place]
    } else {
        0
    }
}
