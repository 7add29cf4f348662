//! What the rules of a configuration ask of a store, whatever its kind.
#![tactic(auto)]

mod rules;

pub use rules::{count_at, is_reached, node_retention, node_scope, options_for};
