//! That a canonical text reads as the configuration that it shows: a law, which computes nothing.
#![tactic(auto)]

mod reading_again;

pub use reading_again::reads_again;
