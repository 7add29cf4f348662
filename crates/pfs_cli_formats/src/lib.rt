//! The lines of a report, and the report of a trace.
#![tactic(auto)]

mod lines;

pub use lines::{EndLine, push_end, push_way};
