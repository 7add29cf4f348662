//! The store that finds what it holds by indexes: a packet's cost grows with the logarithm of what is held, that of a slice with its
//! share, and that of seconds that are passed over with what is held.
#![tactic(auto)]

mod expiring;
mod flush_index;
mod flushing;
mod indexes;
mod inner_keys;
mod killing;
mod laws;
mod limits;
mod passages;
mod placing;
mod purging;
mod rounds;
mod sources;
mod stepping;
mod store;

pub use laws::looks_are_counted;
pub use store::IndexStore;
