//! Packets between a source and the server of its family.

ghost use Rattle.std.specs.Prelude.{◌≡◌, true};
ghost use Rattle.pfs_addr_values.specs.Protocols.{has_ports};

use pfs_addr_values::{Addr, Dir, Endpoint, Flags, Packet, Proto};
use pfs_tests_cases::{CaseError, SERVER, SERVER6, SYN, between};

/// A packet on em0 from port 1000 of a source to a port of the server of its family; one of TCP opens a connection.
pub fn packet(dir: Dir, proto: Proto, source: Addr, port: u16) -> Result<Packet, CaseError>
    requires { has_ports proto ≡ true }
{
    packet_on(b"em0", dir, proto, source, port, SYN)
}

/// One on an interface, with flags.
pub fn packet_on(
    ifname: &[u8],
    dir: Dir,
    proto: Proto,
    source: Addr,
    port: u16,
    flags: Flags,
) -> Result<Packet, CaseError>
    requires { has_ports proto ≡ true }
{
    let from = Endpoint {
        addr: source,
        port: 1000,
    };
    let server = if source.is_ipv6() { SERVER6 } else { SERVER };
    between(
        ifname,
        dir,
        proto,
        from,
        Endpoint { addr: server, port },
        flags,
    )
}
