//! Packets on em0 between sources and a server.

ghost use Rattle.std.specs.Prelude.{◌≡◌, true};
ghost use Rattle.pfs_addr_values.specs.Protocols.{has_ports};

use crate::errors::CaseError;
use pfs_addr_values::{Addr, Dir, Endpoint, Flags, Packet, Proto, parse_ifname};

/// Two sources.
pub const A1: Addr = Addr::V4([198, 51, 100, 1]);

pub const A2: Addr = Addr::V4([198, 51, 100, 2]);

pub const SERVER: Addr = Addr::V4([192, 0, 2, 1]);

/// A source and a server of IPv6: 2001:db8::1 and 2001:db8::53.
pub const S6: Addr = Addr::V6([0x20, 1, 0xd, 0xb8, 0, 0, 0, 0, 0, 0, 0, 0, 0, 0, 0, 1]);

pub const SERVER6: Addr = Addr::V6([0x20, 1, 0xd, 0xb8, 0, 0, 0, 0, 0, 0, 0, 0, 0, 0, 0, 0x53]);

/// No flag, and those of a connection.
pub const NONE: Flags = Flags {
    fin: false,
    syn: false,
    rst: false,
    psh: false,
    ack: false,
    urg: false,
    ece: false,
    cwr: false,
};

pub const SYN: Flags = Flags { syn: true, ..NONE };

pub const SYN_ACK: Flags = Flags { ack: true, ..SYN };

pub const ACK: Flags = Flags { ack: true, ..NONE };

pub const FIN_ACK: Flags = Flags { fin: true, ..ACK };

pub const RST: Flags = Flags { rst: true, ..NONE };

/// What passes between a port of a source and the server.
#[derive(Debug, Clone, Copy)]
pub enum Sent {
    /// A UDP packet to this port of the server.
    Udp(u16),
    /// A TCP packet to this port, with these flags.
    Tcp(u16, Flags),
    /// A TCP packet of the server's port 80, with these flags.
    Answer(Flags),
    /// A UDP packet that goes out to this port of the server.
    Out(u16),
}

/// A packet of the source, or to it.
pub fn packet(sent: &Sent, source: Addr, port: u16) -> Result<Packet, CaseError> {
    let client = Endpoint { addr: source, port };
    match *sent {
        Sent::Udp(to) => between(b"em0", Dir::In, Proto::Udp, client, server(to), NONE),
        Sent::Tcp(to, flags) => between(b"em0", Dir::In, Proto::Tcp, client, server(to), flags),
        Sent::Answer(flags) => between(b"em0", Dir::Out, Proto::Tcp, server(80), client, flags),
        Sent::Out(to) => between(b"em0", Dir::Out, Proto::Udp, client, server(to), NONE),
    }
}

/// A port of the server.
fn server(port: u16) -> Endpoint {
    Endpoint { addr: SERVER, port }
}

/// A packet on an interface.
pub fn between(
    ifname: &[u8],
    dir: Dir,
    proto: Proto,
    from: Endpoint,
    to: Endpoint,
    flags: Flags,
) -> Result<Packet, CaseError>
    requires { has_ports proto ≡ true }
{
    let Some(ifname) = parse_ifname(ifname) else {
        return Err(CaseError::Unreadable);
    };
    Ok(Packet::new(dir, ifname, proto, from, to, flags))
}
