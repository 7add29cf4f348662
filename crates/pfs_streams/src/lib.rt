//! Readers under a bound of reads, writers that count their failures, and the bytes of a rules text, alone or before a trace.
#![tactic(auto)]

mod feeds;
mod rules;
mod sinks;
mod splitting;
mod writing;

pub use feeds::{Begun, Feed, GivenBack, ReadCount};
pub use rules::{RulesStop, read_rules};
pub use sinks::{Sink, sink_of};
pub use splitting::read_joined;
pub use writing::{WriteFailed, write_whole};
