//! The state clause of a rule: `no state`, or `keep state` with its options; and which load rules its options break.
#![tactic(auto)]

mod clauses;
mod reading;
mod rules;

pub use clauses::{Options, OverloadText, StateClause, Track};
pub use reading::state_clause;
