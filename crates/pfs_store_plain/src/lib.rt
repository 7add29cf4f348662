//! The store over plain lists: how states and source nodes are counted, admitted, renewed, killed and purged in them.
#![tactic(auto)]

mod counts;
mod leaving;
mod limits;
mod plain;
mod purging;
mod touching;

pub use plain::PlainStore;
