//! The trace of captures, what pf answered for the packets of a log, and an account of the frames: each is one row of the trace, or is
//! counted under one reason.
#![tactic(auto)]

mod accounts;
mod captures;
mod directions;
mod faults;
mod instants;
mod merging;
mod points;
mod sorting;
mod traces;

pub use accounts::Account;
pub use captures::Capture;
pub use directions::Directions;
pub use faults::{TraceStop, status};
pub use pfs_capture_files::FileFault;
pub use pfs_capture_packets::{Mac, parse_mac};
pub use pfs_streams::{Feed, sink_of};
pub use points::{CapturePoint, InterfaceSide};
pub use traces::write_trace;
