//! The words of the command line, and the job that they ask for.
#![tactic(auto)]

mod tasks;
mod words;

pub use tasks::{Job, Request};
pub use words::{job, request};
