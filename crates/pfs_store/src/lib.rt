//! The stores of states and source nodes: what each kind does, and the kinds.
#![tactic(auto)]

pub use pfs_store_contract::{
    Limit, Node, NodeScope, Purged, Slice, State, StateHandle, StateNo, Store, Touched,
};
pub use pfs_store_index::{IndexStore, looks_are_counted};
pub use pfs_store_plain::PlainStore;
