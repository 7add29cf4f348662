//! How the tally of a source node changes with its states.

ghost use Rattle.std.specs.Prelude.{◌≡◌, ◌≤◌, IfSome};
ghost use Rattle.pfs_conf_values.specs.Bounds.{IsRate};
ghost use Rattle.pfs_store_records.specs.Changes.{CanChange, changed_by, left_by, scored_by};

use crate::nodes::NodeTally;
use pfs_conf_values::Rate;
use pfs_store_contract::Node;

/// What happens to the tally of a source node.
#[derive(Clone, Copy)]
pub(crate) enum Change {
    /// A state comes.
    Joined,
    /// A state leaves: a connection, or one whose handshake has not completed. If it was the last, the node may leave from a
    /// moment on.
    Left { connection: bool, expires: u64 },
    /// The handshake of a state completes, whose rule may have a rate.
    Completed { rate: Option<Rate>, now: u64 },
}

/// The tally after a change.
pub(crate) fn changed(tally: NodeTally, change: Change) -> NodeTally
    requires { CanChange change tally }
    ensures { result ≡ changed_by change tally }
{
    match change {
        Change::Joined => NodeTally {
            states: tally.states + 1,
            ..tally
        },
        Change::Left {
            connection,
            expires,
        } => left(tally, connection, expires),
        Change::Completed { rate, now } => NodeTally {
            node: scored(tally.node, rate, now),
            states: tally.states,
            connections: tally.connections + 1,
        },
    }
}

fn left(tally: NodeTally, connection: bool, expires: u64) -> NodeTally
    ensures { result ≡ left_by connection expires tally }
{
    let states = tally.states.saturating_sub(1);
    NodeTally {
        node: if states == 0 {
            Node {
                expires,
                ..tally.node
            }
        } else {
            tally.node
        },
        states,
        connections: tally
            .connections
            .saturating_sub(if connection { 1 } else { 0 }),
    }
}

fn scored(node: Node, rate: Option<Rate>, now: u64) -> Node
    requires scored { node.score.value ≤ 4294968000 }
    requires order { node.score.last ≤ now }
    requires rate { IfSome rate IsRate }
    ensures { result ≡ scored_by rate now node }
{
    match rate {
        Some(rate) => Node {
            score: node.score.add(now, u64::from(rate.seconds)),
            ..node
        },
        None => node,
    }
}
