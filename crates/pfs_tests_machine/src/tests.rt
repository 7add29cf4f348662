//! The tests, with what they alone use.

mod comparing;
mod engines;
mod profiled;
mod proxies;
mod scenarios;
mod stores;
mod tallied;
mod tried;
mod works;
