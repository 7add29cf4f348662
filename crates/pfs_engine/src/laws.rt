//! The laws of the machine over every run of events: they compute nothing.

pub use pfs_engine_machine::{cookie_life, rate_memory, staleness, ways_are_runs, within_limits};
