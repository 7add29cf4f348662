//! The contract of a store of states and source nodes: what every kind of store is to its callers, and what each call does.
#![tactic(auto)]

mod kills;
mod proxies;
mod records;
mod store;
mod two_keys;

pub use kills::FromTo;
pub use proxies::{asks_in, is_answered};
pub use records::{Limit, Node, NodeScope, Purged, Slice, State, StateHandle, StateNo, Touched};
pub use store::Store;
pub use two_keys::{apart, inner_key, wire_key};
