//! The row of what pf answered for a packet of a log.
#![tactic(auto)]

mod answers;

pub use answers::{ANSWER_HEADER, push_answer};
