//! The SYN cookies that are out: keys of connections whose SYN pf answered without a state, under two secrets.
#![tactic(auto)]

mod cookies;
mod key_sets;
#[cfg(test)]
mod tests;

pub use cookies::Cookies;
