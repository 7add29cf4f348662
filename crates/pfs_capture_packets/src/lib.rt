//! From a frame of a capture to the outermost IP packet in it. Nothing after that packet's own header, its options and
//! its ports is looked at. None of these calls takes memory.
#![tactic(auto)]

mod bytes;
mod headers;
mod labels;
mod links;
mod logs;
mod packets;
mod walks;
mod ways;

pub use links::Link;
pub use logs::{Logged, LoggedAnswer, is_log, name_at, read_answer, read_log};
pub use packets::{Carried, IpPacket, Reason, read_packet};
pub use ways::{Mac, parse_mac, read_cooked_dir, read_ethernet_dir};
