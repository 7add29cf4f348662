//! The configuration that a rules text says: limits, timeouts, tables, and the tree of rules and anchors.
#![tactic(auto)]

mod actions;
mod configs;
mod filters;
mod hashing;
mod items;
mod limits;
mod profiles;
mod routes;
mod settling;
mod syncookies;
mod tables;
mod timeouts;
mod translations;

pub use actions::{Action, Overload, Rate, Scope, StateOptions};
pub use configs::{Config, count_entries, rule_retention};
pub use filters::{
    Came, Family, Filter, FlagTest, Host, Interface, Ports, Side, TableName, TableNo, TagName,
    Tagged,
};
pub use hashing::RulesHasher;
pub use items::{Anchor, AnchorName, Item, ItemKind, Rule, RuleNo};
pub use limits::{LimitName, Limits};
pub use profiles::Profile;
pub use routes::Route;
pub use settling::settle_items;
pub use syncookies::Syncookies;
pub use tables::{Entries, TableDef};
pub use timeouts::{RuleTimeouts, TimeoutName, Timeouts};
pub use translations::{NatPorts, NatTo, RdrTo, Translation};
