//! Addresses, prefixes, protocols, ports, flags, names, packets and the keys of states: the small values that every
//! other crate compares, and the meter that counts work. None of these calls takes memory.
#![tactic(auto)]

mod addresses;
mod flag_sets;
mod memory;
mod meters;
mod names;
mod packets;
mod prefixes;
mod protocols;

pub use addresses::Addr;
pub use flag_sets::Flags;
pub use memory::NoMemory;
pub use meters::Meter;
pub use names::{IfName, Name, parse_ifname};
pub use packets::{Dir, Endpoint, FlowKey, Packet, ROW_LIMIT, RUN_LIMIT, TagNo};
pub use prefixes::Prefix;
pub use protocols::{OtherProto, Proto};
