//! What options mean together: the scope of the rule's source nodes, the load rules that they break, and the options of a
//! configuration.

ghost use Rattle.std.specs.Prelude.{◌≡◌};
ghost use Rattle.pfs_conf_options.specs.Options.{options_given, scope_of_options, has_overload_alone, has_global_connections, has_global_retention, has_broken_rule_pair, has_connection_limit, overload_to, resolved_options};

use crate::clauses::{Options, OverloadText, StateClause, Track};
use pfs_conf_values::{Overload, Scope, StateOptions, TableNo, TimeoutName};

impl StateClause {
    /// The options of the clause; `no state` has none.
    pub fn options(&self) -> Options
        ensures { result ≡ options_given self.now }
    {
        match self {
            StateClause::No => Options::new(),
            StateClause::Keep(options) => *options,
        }
    }
}

impl Options {
    /// The scope of the rule's source nodes: the one that is stated; else the rule, if `max-src-nodes`, `max-src-conn` or
    /// `max-src-conn-rate` is given; else global, if `max-src-states` or a bare `source-track` is; else sources are not
    /// tracked. (pf.conf(5), STATEFUL TRACKING OPTIONS, "source-track"; which scope is meant unstated is own to this
    /// profile)
    pub fn scope(&self) -> Option<Scope>
        ensures { result ≡ scope_of_options self.now }
    {
        match self.track {
            Some(Track::Rule) => Some(Scope::Rule),
            Some(Track::Global) => Some(Scope::Global),
            _ if self.max_src_nodes.is_some() || self.has_connection_limit() => Some(Scope::Rule),
            Some(Track::Bare) => Some(Scope::Global),
            None if self.max_src_states.is_some() => Some(Scope::Global),
            None => None,
        }
    }

    /// Whether `overload` is given without `max-src-conn` and without `max-src-conn-rate`: the load rule `OverloadAlone`.
    /// (own to this profile)
    pub fn has_overload_alone(&self) -> bool
        ensures { result ≡ has_overload_alone self.now }
    {
        self.overload.is_some() && !self.has_connection_limit()
    }

    /// Whether `source-track global` is given with `max-src-conn` or `max-src-conn-rate`: the load rule `GlobalConn`.
    /// (pf.conf(5), STATEFUL TRACKING OPTIONS: both need the scope of a rule)
    pub fn has_global_connections(&self) -> bool
        ensures { result ≡ has_global_connections self.now }
    {
        match self.track {
            Some(Track::Global) => self.has_connection_limit(),
            _ => false,
        }
    }

    /// Whether `src.track` is given where the scope is global, stated or not: the load rule `GlobalRetention`.
    /// (own to this profile)
    pub fn has_global_retention(&self) -> bool
        ensures { result ≡ has_global_retention self.now }
    {
        match self.scope() {
            Some(Scope::Global) => self.timeouts.get(TimeoutName::SrcTrack).is_some(),
            _ => false,
        }
    }

    /// Whether one adaptive value is given without the other, or not 1 <= start < end: the load rule `AdaptivePair`.
    /// (pf.conf(5), OPTIONS, "adaptive.start")
    pub fn has_broken_pair(&self) -> bool
        ensures { result ≡ has_broken_rule_pair self.now }
    {
        let start = self.timeouts.get(TimeoutName::AdaptiveStart);
        let end = self.timeouts.get(TimeoutName::AdaptiveEnd);
        match (start, end) {
            (None, None) => false,
            (Some(start), Some(end)) => !(1 <= start && start < end),
            _ => true,
        }
    }

    /// The options of a configuration: with the scope that they mean, and the table of `overload` by its number, which
    /// the caller has looked up. Without a number `overload` is left out.
    pub fn resolved(&self, table: Option<TableNo>) -> StateOptions
        ensures { result ≡ resolved_options self.now table }
    {
        StateOptions {
            max: self.max,
            scope: self.scope(),
            max_src_nodes: self.max_src_nodes,
            max_src_states: self.max_src_states,
            max_src_conn: self.max_src_conn,
            max_src_conn_rate: self.max_src_conn_rate,
            overload: overload_to(self.overload, table),
            sloppy: self.sloppy,
            synproxy: self.synproxy,
            timeouts: self.timeouts,
        }
    }

    fn has_connection_limit(&self) -> bool
        ensures { result ≡ has_connection_limit self.now }
    {
        self.max_src_conn.is_some() || self.max_src_conn_rate.is_some()
    }
}

fn overload_to(overload: Option<OverloadText>, table: Option<TableNo>) -> Option<Overload>
    ensures { result ≡ overload_to overload table }
{
    match (overload, table) {
        (Some(overload), Some(table)) => Some(Overload {
            table,
            flush: overload.flush,
        }),
        _ => None,
    }
}
