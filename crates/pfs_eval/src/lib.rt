//! The tables of a configuration, what its rules make of a packet, and where packets leave.
#![tactic(auto)]

mod blooms;
mod comparing;
mod entries;
mod glances;
mod lengths;
mod lines;
mod routing;
mod rulesets;
mod signs;
mod skips;
mod tables;
mod translating;
mod walks;

pub use entries::{Mark, TableEntry};
pub use routing::interface_to;
pub use rulesets::{CompiledRuleset, Decision};
pub use tables::{Added, Entered, Tables};
pub use translating::{NoSides, Sides};
