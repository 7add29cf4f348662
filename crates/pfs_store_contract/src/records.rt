//! What is held: states and source nodes, and what calls report of them.

ghost use Rattle.std.specs.Prelude.{◌≡◌, ◌==◌, ◌&&◌, if◌then◌else◌, max};
ghost use Rattle.pfs_store_contract.specs.Calls.{told_at};
ghost use Rattle.pfs_store_contract.specs.Passages.{purged_both, purged_of_none};

use pfs_addr_values::{Addr, Dir, FlowKey, TagNo};
use pfs_conf_values::RuleNo;
use pfs_track::{Score, StatePhase};

/// The number of a state: they rise from 1 in the order of making, and none is used again.
#[derive(Debug, Clone, Copy, PartialEq, Eq)]
pub struct StateNo(pub u64);

/// A state that is held. (pf.conf(5), STATEFUL FILTERING)
#[derive(Debug, Clone, Copy, PartialEq, Eq)]
pub struct State {
    /// Its number.
    pub number: u64,
    /// The key of its packets on the wire.
    pub key: FlowKey,
    /// Their key on the other side, inside, where it is another one. (pf.conf(5), TRANSLATION)
    pub inner: Option<FlowKey>,
    /// The direction of the packet that made it.
    pub dir: Dir,
    /// The source address of the packet that made it.
    pub source: Addr,
    /// The rule that made it.
    pub rule: RuleNo,
    /// How far its connection has come.
    pub phase: StatePhase,
    /// The moment of its last packet, in seconds.
    pub last: u64,
    /// The tag with which the packet that made it went on: each of its packets has it. (pf.conf(5), PARAMETERS, "tag")
    pub tag: Option<TagNo>,
}

/// For which rules a source node counts.
#[derive(Debug, Clone, Copy, PartialEq, Eq, Hash)]
pub enum NodeScope {
    /// One rule: `source-track rule`.
    Rule(RuleNo),
    /// All rules that track sources globally: `source-track global`.
    Global,
}

/// A source node: what is known of one source address in one scope.
/// (pf.conf(5), STATEFUL TRACKING OPTIONS)
#[derive(Debug, Clone, Copy, PartialEq, Eq)]
pub struct Node {
    /// Its number: that of the state with which it was made; of a node that a refusal leaves, one of its own.
    pub number: u64,
    /// Its scope.
    pub scope: NodeScope,
    /// Its source address.
    pub source: Addr,
    /// The score of its handshakes.
    pub score: Score,
    /// The moment from which on it may leave where it has no state, in seconds: when its retention is over, that began when its
    /// last state left; until then the moment at which it was made.
    pub expires: u64,
}

/// The limit that refuses a state. (pf.conf(5), OPTIONS, "set limit", and STATEFUL TRACKING OPTIONS)
#[derive(Debug, Clone, Copy, PartialEq, Eq)]
pub enum Limit {
    /// `max`: the rule holds as many states.
    Max,
    /// `max-src-nodes`: the scope has as many source nodes, and the source has none of them.
    MaxSrcNodes,
    /// `set limit src-nodes`: so many source nodes are held, and the source has none in the scope.
    SrcNodes,
    /// `max-src-states`: the source's node has as many states.
    MaxSrcStates,
    /// `set limit states`: so many states are held.
    States,
}

/// A state that a store found, and by what that store reaches it again, as long as the state is held.
#[derive(Clone, Copy)]
pub struct StateHandle {
    /// The number of the state.
    pub number: StateNo,
    /// The rule that made it.
    pub rule: RuleNo,
    /// Its place, which means something to that store alone.
    pub place: u32,
}

/// What a packet of a held state did.
#[derive(Debug, Clone, Copy, PartialEq, Eq)]
pub struct Touched {
    /// The rule of the state.
    pub rule: RuleNo,
    /// The source of the state.
    pub source: Addr,
    /// The direction of the packet that made it.
    pub dir: Dir,
    /// Whether the handshake completed with it.
    pub completed: bool,
    /// Whether pf takes the packet itself, so that it goes no further.
    pub taken: bool,
    /// Whether pf asks the other peer for a connection then, by a SYN of its own. ("synproxy state")
    pub asks: bool,
    /// The tag of the state.
    pub tag: Option<TagNo>,
    /// The connections of the source's node after it; 0 for a rule that tracks no sources.
    pub connections: u64,
    /// The score of the source's node after it; 0 at moment 0 for a rule that tracks no sources.
    pub score: Score,
}

impl Touched {
    /// What is told where the connections and the score are told at a completed handshake alone. It takes no memory.
    pub(crate) fn told_where_completed(self) -> Touched
        ensures { result ≡ told_at self.completed self }
    {
        if self.completed {
            self
        } else {
            Touched {
                connections: 0,
                score: Score::default(),
                ..self
            }
        }
    }
}

/// What one slice of a round did.
#[derive(Debug, Clone, Copy, PartialEq, Eq)]
pub struct Slice {
    /// How many were examined, those that stay too.
    pub examined: u64,
    /// How many left.
    pub removed: u64,
}

/// How much the purges of some seconds examined.
#[derive(Debug, Clone, Copy, PartialEq, Eq)]
pub struct Purged {
    /// The most looks of one slice of the states, if the store counts looks.
    pub looks: u64,
    /// The most states that one slice examined.
    pub most_states: u64,
    /// The most source nodes that one slice examined, and at no more it looked, if the store counts looks.
    pub most_nodes: u64,
}

impl Purged {
    /// That of no second.
    pub fn none() -> Purged
        ensures { result ≡ purged_of_none }
    {
        Purged {
            looks: 0,
            most_states: 0,
            most_nodes: 0,
        }
    }

    /// That of one second, of which these are the slices and their looks.
    pub fn of_slices(states: Slice, looks: u64, nodes: Slice, node_looks: u64) -> Purged
        ensures { result ≡ record { looks = looks; most_states = states.examined; most_nodes = max nodes.examined node_looks } }
    {
        Purged {
            looks,
            most_states: states.examined,
            most_nodes: nodes.examined.max(node_looks),
        }
    }

    /// Up to which moment the seconds are done with a second of which this is told. Where it had nothing to examine, nothing is held, and
    /// those after it change nothing.
    pub(crate) fn second_after(self, second: u64, to: u64) -> u64
        ensures { result ≡ (if (self.most_states == 0) && (self.most_nodes == 0) then to else second) }
    {
        if self.most_states == 0 && self.most_nodes == 0 {
            to
        } else {
            second
        }
    }

    /// That of some seconds with that of further ones: of each count the greater one.
    pub fn greatest(self, further: Purged) -> Purged
        ensures { result ≡ purged_both self further }
    {
        Purged {
            looks: self.looks.max(further.looks),
            most_states: self.most_states.max(further.most_states),
            most_nodes: self.most_nodes.max(further.most_nodes),
        }
    }
}
