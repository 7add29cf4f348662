//! The records of a store by indexes: states by number and place, source nodes with the counts of their states, and how both
//! are found.
#![tactic(auto)]

mod apart_keys;
mod changes;
mod index_keys;
mod nodes;
mod packed_state;
mod places;
mod records;
mod retaining;
mod scope_counts;
mod state_records;
mod stays;
mod tallying;
mod walks;

pub use index_keys::{NodeKey, StateKey};
pub use nodes::{NodeTally, Nodes, Passed};
pub use packed_state::PackedState;
pub use places::{Places, PlacesBetween};
pub use records::Records;
pub use retaining::{is_over, kept_until};
pub use tallying::{Met, join, leave, meet};
pub use walks::{Lifetimes, Round, RoundWalk};
