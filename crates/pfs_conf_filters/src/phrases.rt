//! What is read of a statement, as it is written: tables by their names, and each part with whether it is given.

use pfs_addr_values::{Dir, Proto};
use pfs_conf_values::{Family, Interface, Side, TableName, TagName, Tagged};

/// What a rule begins with. (pf.conf(5), PACKET FILTERING)
#[derive(Debug, Clone, Copy, PartialEq, Eq)]
pub enum Verb {
    /// `pass`
    Pass,
    /// `block`
    Block {
        /// Whether `drop`, `return`, `return-rst`, `return-icmp` or `return-icmp6` follows.
        has_policy: bool,
    },
    /// `match`
    Match,
}

/// What the parameters belong to.
#[derive(Debug, Clone, Copy, PartialEq, Eq)]
pub enum Statement {
    /// A `pass` or `block` rule.
    Rule,
    /// A `match` rule, which has no `quick`.
    Match,
    /// The head of an anchor, which has no `log`.
    Anchor,
}

/// `log` and `quick`, in either order. (pf.conf(5), PARAMETERS)
#[derive(Debug, Clone, Copy, PartialEq, Eq)]
pub struct Marks {
    /// Whether `log` is given, with or without a list. Nothing is logged: it is kept to find a second one.
    pub log: bool,
    /// Whether `quick` is given.
    pub quick: bool,
}

/// The parameters before the hosts. (pf.conf(5), PARAMETERS)
#[derive(Debug, Clone, Copy, PartialEq, Eq)]
pub struct Head {
    /// `in` or `out`.
    pub dir: Option<Dir>,
    /// `log` and `quick`.
    pub marks: Marks,
    /// `on IF` or `on ! IF`.
    pub on: Option<Interface>,
    /// `inet`.
    pub family: Option<Family>,
    /// `proto PROTO`.
    pub proto: Option<Proto>,
}

/// The hosts, as they are written. (pf.conf(5), PARAMETERS, "from .. to")
#[derive(Debug, Clone, Copy, PartialEq, Eq)]
pub struct Hosts {
    /// Whether `all` is given. Then neither of the others is.
    pub all: bool,
    /// `from` and what follows it.
    pub from: Option<Side<TableName>>,
    /// `to` and what follows it.
    pub to: Option<Side<TableName>>,
}

/// The parameters of a rule, or of an anchor, up to its hosts. (pf.conf(5), PARAMETERS)
#[derive(Debug, Clone, Copy, PartialEq, Eq)]
pub struct Parameters {
    /// Those before the hosts.
    pub head: Head,
    /// The hosts.
    pub hosts: Hosts,
}

/// What a rule has behind its parameters, in any order, beside `flags` and its state. An anchor has none of it.
/// (pf.conf(5), PARAMETERS)
#[derive(Debug, Clone, Copy, PartialEq, Eq)]
pub struct Extras {
    /// `tag NAME`
    pub tag: Option<TagName>,
    /// `tagged NAME` or `! tagged NAME`
    pub tagged: Option<Tagged>,
    /// `received-on IF` or `! received-on IF`
    pub received_on: Option<Interface>,
}
