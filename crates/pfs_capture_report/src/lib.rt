//! From the bytes of captures to the report of its trace: laws that compute nothing.
#![tactic(auto)]

mod laws;

pub use laws::{capture_report, trace_again};
