//! The configuration that a rules text says: `load` reads the text, statement by statement.
#![tactic(auto)]

mod anchors;
mod breaking;
mod definitions;
mod faults;
mod kinds;
mod loading;
mod numbering;
mod phrases;
mod progress;
mod rules;
mod statements;
mod stopping;

pub use faults::LoadFault;
pub use kinds::Kind;
pub use loading::load;
pub use pfs_conf_show::show;
pub use pfs_conf_values::{
    Action, Anchor, AnchorName, Came, Config, Entries, Family, Filter, FlagTest, Host, Interface,
    Item, ItemKind, LimitName, NatPorts, NatTo, Overload, Ports, Profile, Rate, RdrTo, Route, Rule,
    RuleNo, RuleTimeouts, Scope, Side, StateOptions, Syncookies, TableDef, TableName, TableNo,
    TagName, Tagged, TimeoutName, Translation,
};
