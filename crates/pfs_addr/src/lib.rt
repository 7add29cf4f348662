//! Addresses, prefixes, protocols, ports, flags, names, packets and the keys of states, with the texts of those that
//! have one: how each is read, and how addresses and flags are written. The values are those of `pfs_addr_values`,
//! re-exported. Only `push_addr` and `push_flags` take memory.
#![tactic(auto)]

mod addresses;
mod flag_sets;
mod numbers;
mod prefixes;
mod protocols;

pub use addresses::{parse_addr, push_addr};
pub use flag_sets::{parse_flags, push_flags};
pub use numbers::parse_number;
pub use pfs_addr_values::{
    Addr, Dir, Endpoint, Flags, FlowKey, IfName, Meter, Name, NoMemory, OtherProto, Packet, Prefix,
    Proto, parse_ifname,
};
pub use prefixes::parse_prefix;
pub use protocols::parse_proto;
