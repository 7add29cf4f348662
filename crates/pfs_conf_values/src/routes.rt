//! Where packets leave: the routes that a text says.

use pfs_addr_values::{IfName, Prefix};

/// `set route PREFIX IF`: packets to these addresses leave by this interface, unless a longer prefix covers theirs. By `lo0` they
/// are for the firewall itself. (own; as route(8) prints it)
#[derive(Debug, Clone, Copy, PartialEq, Eq, Hash)]
pub struct Route {
    /// The addresses.
    pub prefix: Prefix,
    /// The interface.
    pub interface: IfName,
}
