//! The words of pfstrace's command line, the captures and files that they ask for, and what is told of them.
#![tactic(auto)]

mod asking;
mod files;
mod grouping;
mod options;
mod refusals;
mod requests;
mod telling;
mod wanted;

pub use files::{create_anew, is_capture};
pub use grouping::groups_of;
pub use refusals::{Mistake, WordsRefusal};
pub use requests::request;
pub use telling::{tell_mistake, tell_no_words, tell_refused, tell_stop};
pub use wanted::{CaptureSource, Output, TraceRequest};
