//! What a rule does with a packet, and how it keeps and limits states.

use crate::filters::TableNo;
use crate::timeouts::RuleTimeouts;

/// For whom a rule counts sources, or of whom it flushes states.
/// (pf.conf(5), STATEFUL TRACKING OPTIONS, "source-track" and "flush")
#[derive(Debug, Clone, Copy, PartialEq, Eq, Hash)]
pub enum Scope {
    /// The rule's own states.
    Rule,
    /// The states of all rules that count globally; of a flush, those of all rules.
    Global,
}

/// `max-src-conn-rate N/S`: at most N handshakes in S seconds.
#[derive(Debug, Clone, Copy, PartialEq, Eq, Hash)]
pub struct Rate {
    /// Handshakes: 1 to 4294967.
    pub limit: u32,
    /// Seconds: 1 to 2147483647.
    pub seconds: u32,
}

/// `overload <t>`, with what is flushed.
#[derive(Debug, Clone, Copy, PartialEq, Eq, Hash)]
pub struct Overload {
    /// The table to which the source is added.
    pub table: TableNo,
    /// Of whom the source's states are killed; none but the state itself where it is not given.
    pub flush: Option<Scope>,
}

/// The options of `keep state` or `synproxy state`. Each maximum is 1 to 4294967295.
/// (pf.conf(5), STATEFUL TRACKING OPTIONS)
#[derive(Debug, Clone, Copy, PartialEq, Eq, Hash)]
pub struct StateOptions {
    /// `max`: the states of the rule.
    pub max: Option<u32>,
    /// The scope of the rule's source nodes, given or not; none where the rule does not track sources.
    pub scope: Option<Scope>,
    /// `max-src-nodes`: the source nodes of the scope.
    pub max_src_nodes: Option<u32>,
    /// `max-src-states`: the states of a source node.
    pub max_src_states: Option<u32>,
    /// `max-src-conn`: the connections of a source node.
    pub max_src_conn: Option<u32>,
    /// `max-src-conn-rate`: the rate of new connections of a source node.
    pub max_src_conn_rate: Option<Rate>,
    /// `overload`: what happens to a source that goes past the last two.
    pub overload: Option<Overload>,
    /// `sloppy`: its states of TCP are tracked by the table of sloppy states, under every profile.
    pub sloppy: bool,
    /// `synproxy state` in place of `keep state`: pf answers a SYN of TCP that comes in, in place of the server.
    pub synproxy: bool,
    /// The rule's own timeouts.
    pub timeouts: RuleTimeouts,
}

/// What a rule does with a packet that it decides. (pf.conf(5), PACKET FILTERING)
#[derive(Debug, Clone, Copy, PartialEq, Eq, Hash)]
pub enum Action {
    /// Nothing is decided: `match`.
    Match,
    /// The packet is blocked.
    Block,
    /// The packet passes, and no state is made: `pass .. no state`.
    Pass,
    /// The packet passes and makes a state, if no limit refuses it: `pass .. keep state`,
    /// `pass .. synproxy state`.
    Keep(StateOptions),
}
