//! The machine over any store: what one event does, and a run of events.
#![tactic(auto)]

mod contents;
mod engine;
mod guard;
mod handshakes;
pub mod laws;
mod packets;
mod passing;
mod ways;
mod works;

pub use engine::Engine;
pub use pfs_engine_machine::{Arrival, Event, Exceeded, Outcome, Way};
pub use pfs_eval::Added;
pub use pfs_store_contract::Limit;
pub use works::Work;
