//! How long source nodes are kept.

ghost use Rattle.std.specs.Prelude.{◌≡◌, ◌+◌, ◌≤◌, ◌^◌};
ghost use Rattle.pfs_store_contract.specs.Leaving.{node_retention};
ghost use Rattle.pfs_store_records.specs.Retaining.{IsKeptUntil, is_past};

use crate::nodes::NodeTally;
use pfs_conf_values::Config;
use pfs_store_contract::NodeScope;
use pfs_store_rules::node_retention;

/// Up to when a node stays, as long as it gets no state and loses none.
pub fn kept_until(tally: &NodeTally) -> u64
    ensures { IsKeptUntil result tally.now }
{
    if tally.states == 0 {
        tally.node.expires
    } else {
        u64::MAX
    }
}

/// Whether a node has no state, and the moment has come from which it may leave.
pub fn is_over(tally: &NodeTally, now: u64) -> bool
    ensures { result ≡ is_past now tally.now }
{
    tally.states == 0 && tally.node.expires <= now
}

/// The moment from which on a node of a scope may leave that loses its last state at `now`.
pub(crate) fn end_of_retention(config: &Config, scope: NodeScope, now: u64) -> u64
    requires { now ≤ 2 ^ 63 }
    ensures { result ≡ now + node_retention config.now scope }
{
    config.keeps_load_rules();
    now + node_retention(config, scope)
}
