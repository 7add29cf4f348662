//! The machine over plain lists: what comes, what one event does, and a run of events, as definitions with their lemmas; and
//! the laws of every run, which compute nothing.
#![tactic(auto)]

mod cookies;
mod events;
mod rates;
mod staying;
mod translating;
mod ways;

pub use cookies::cookie_life;
pub use events::{Amounts, Arrival, Command, Event, Exceeded, Outcome, Way};
pub use pfs_eval::{Added, Entered, TableEntry};
pub use pfs_store_contract::FromTo;
pub use rates::rate_memory;
pub use staying::{staleness, within_limits};
pub use translating::two_keys;
pub use ways::ways_are_runs;
