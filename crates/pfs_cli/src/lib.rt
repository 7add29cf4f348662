//! A replay of a packet trace under rules, and the report that it writes: what the machine does with
//! each record, and what is held at the end.
#![tactic(auto)]

mod checks;
mod endings;
mod faults;
mod joined;
mod performing;
mod records;
mod replays;
mod reports;
mod rules;
mod tallies;

pub use checks::{check, print};
pub use faults::{ReplayFault, status};
pub use joined::replay_joined;
pub use performing::perform;
pub use pfs_cli_jobs::{Job, Request, job, request};
pub use pfs_conf::{Kind, LoadFault};
pub use pfs_streams::{Feed, Sink, sink_of};
pub use records::RecordsStop;
pub use replays::replay;
pub use reports::write_report_over;
pub use tallies::Tally;
