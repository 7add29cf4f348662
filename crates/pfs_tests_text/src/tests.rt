//! The tests, with what they alone use.

mod addresses;
mod clauses;
mod configurations;
mod faults;
mod hashing;
mod packets;
mod parameters;
mod profiles;
mod round_trips;
mod settings;
mod tags;
mod together;
mod tokens;
mod translations;
mod wide_addresses;
