//! What a state clause says, as it is written: tables by their names, and no scope but the one that is stated.

use pfs_conf_values::{Rate, RuleTimeouts, Scope, TableName};

/// What follows `source-track`. (pf.conf(5), STATEFUL TRACKING OPTIONS, "source-track")
#[derive(Debug, Clone, Copy, PartialEq, Eq)]
pub enum Track {
    /// Nothing: `source-track` alone.
    Bare,
    /// `rule`
    Rule,
    /// `global`
    Global,
}

/// `overload <t>`, with what is flushed. (pf.conf(5), STATEFUL TRACKING OPTIONS, "overload")
#[derive(Debug, Clone, Copy, PartialEq, Eq)]
pub struct OverloadText {
    /// The table's name.
    pub table: TableName,
    /// `flush` or `flush global`, where it is written.
    pub flush: Option<Scope>,
}

/// The options of `keep state` or of `synproxy state`, as they are written; each occurs at most once. Each maximum is 1 to
/// 4294967295. (pf.conf(5), STATEFUL TRACKING OPTIONS)
#[derive(Debug, Clone, Copy, PartialEq, Eq)]
pub struct Options {
    /// `max`: the states of the rule.
    pub max: Option<u32>,
    /// `source-track`: for whom sources are counted.
    pub track: Option<Track>,
    /// `max-src-nodes`: the source nodes of the scope.
    pub max_src_nodes: Option<u32>,
    /// `max-src-states`: the states of a source node.
    pub max_src_states: Option<u32>,
    /// `max-src-conn`: the connections of a source node.
    pub max_src_conn: Option<u32>,
    /// `max-src-conn-rate`: the rate of new connections of a source node.
    pub max_src_conn_rate: Option<Rate>,
    /// `overload`: what happens to a source that goes past the last two.
    pub overload: Option<OverloadText>,
    /// `sloppy`: states of TCP are tracked as pf tracks sloppy ones; of effect under the profile of OpenBSD 7.4 alone.
    pub sloppy: bool,
    /// `floating`, which has no effect here.
    pub floating: bool,
    /// `no-sync`, which has no effect here.
    pub no_sync: bool,
    /// Whether they are those of `synproxy state`.
    pub synproxy: bool,
    /// The rule's own timeouts: those of a state and `src.track` up to 2147483647 seconds, the adaptive ones up to
    /// 4294967295 states. A rule has no `interval`.
    pub timeouts: RuleTimeouts,
}

impl Options {
    ghost use Rattle.std.specs.Prelude.{◌≡◌};
    ghost use Rattle.pfs_conf_options.specs.Options.{none_given, options_given};

    /// No option is given.
    pub fn new() -> Options
        ensures { result ≡ none_given }
    {
        Options {
            max: None,
            track: None,
            max_src_nodes: None,
            max_src_states: None,
            max_src_conn: None,
            max_src_conn_rate: None,
            overload: None,
            sloppy: false,
            floating: false,
            no_sync: false,
            synproxy: false,
            timeouts: RuleTimeouts::new(),
        }
    }
}

/// The state clause of a rule. (pf.conf(5), STATEFUL FILTERING)
#[derive(Debug, Clone, Copy, PartialEq, Eq)]
pub enum StateClause {
    /// `no state`
    No,
    /// `keep state`, with its options, or `synproxy state`, with its own.
    Keep(Options),
}
