//! Statements as they are written: tables by their names, and each part with whether it is given.

use pfs_conf_filters::{Extras, Parameters, Verb};
use pfs_conf_options::StateClause;
use pfs_conf_values::{AnchorName, FlagTest, Translation};

/// What follows the parameters of a rule, in any order. (pf.conf(5), GRAMMAR)
#[derive(Debug, Clone, Copy, PartialEq, Eq)]
pub struct Clauses {
    /// `flags`
    pub flags: Option<FlagTest>,
    /// `tag`, `tagged` and `received-on`
    pub extras: Extras,
    /// `nat-to` and `rdr-to`
    pub translation: Translation,
    /// `keep state` or `no state`
    pub state: Option<StateClause>,
}

/// A rule, as it is written. (pf.conf(5), PACKET FILTERING)
#[derive(Debug, Clone, Copy, PartialEq, Eq)]
pub struct RuleText {
    /// What it begins with.
    pub verb: Verb,
    /// Which packets it is asked about.
    pub parameters: Parameters,
    /// What follows that.
    pub clauses: Clauses,
}

/// The head of an anchor, as it is written. (pf.conf(5), ANCHORS)
#[derive(Debug, Clone, Copy, PartialEq, Eq)]
pub struct AnchorText {
    /// Its name, if it has one.
    pub name: Option<AnchorName>,
    /// Which packets its rules are asked about.
    pub parameters: Parameters,
    /// `flags`
    pub flags: Option<FlagTest>,
}
