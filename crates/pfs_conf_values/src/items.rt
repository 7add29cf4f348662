//! Rules and anchors, in the order of the text.

use crate::actions::Action;
use crate::filters::{Came, Filter, TagName};
use crate::translations::Translation;
use pfs_addr_values::Name;

/// The number of a rule: its place among the items, anchors counted too, from 0.
#[derive(Debug, Clone, Copy, PartialEq, Eq, Hash)]
pub struct RuleNo(pub u32);

/// The name of an anchor: 1 to 63 bytes. (pf.conf(5), ANCHORS)
pub type AnchorName = Name<63>;

/// A `pass`, `block` or `match` rule. (pf.conf(5), PACKET FILTERING)
#[derive(Debug, Clone, Copy, PartialEq, Eq, Hash)]
pub struct Rule {
    /// Whether the rule ends the evaluation where it matches; a `match` rule never does.
    pub quick: bool,
    /// Which packets it matches.
    pub filter: Filter,
    /// How they must have come.
    pub came: Came,
    /// The tag that it gives them, whatever decides in the end.
    pub tag: Option<TagName>,
    /// What it puts in place of their addresses and ports: a `match` rule at once, a `pass` rule where it decides.
    pub translation: Translation,
    /// What it does with them.
    pub action: Action,
}

/// The head of an anchor. Its body is the following items of greater depth. (pf.conf(5), ANCHORS)
#[derive(Debug, Clone, Copy, PartialEq, Eq, Hash)]
pub struct Anchor {
    /// Its name, if it has one. No two anchors of one body have the same.
    pub name: Option<AnchorName>,
    /// Whether the evaluation ends when the anchor is left, if a rule in it matched.
    pub quick: bool,
    /// Which packets its rules are asked about.
    pub filter: Filter,
}

/// A rule or an anchor.
#[derive(Debug, Clone, Copy, PartialEq, Eq, Hash)]
pub enum ItemKind {
    /// A rule.
    Rule(Rule),
    /// An anchor.
    Anchor(Anchor),
}

/// A rule or an anchor, and how many anchors are around it.
#[derive(Debug, Clone, Copy, PartialEq, Eq, Hash)]
pub struct Item {
    /// The number of anchors around it, 0 to 16.
    pub depth: u8,
    /// What it is.
    pub what: ItemKind,
}
