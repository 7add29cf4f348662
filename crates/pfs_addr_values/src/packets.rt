//! Packets, as the rules and the states look at them, and the keys by which states are found.

ghost use Rattle.std.specs.Prelude.{◌≡◌, None, Some, false};
ghost use Rattle.std.specs.Str.{bytes_eq};
ghost use Rattle.pfs_addr_values.specs.Keys.{end_put, key_of, under};
ghost use Rattle.pfs_addr_values.specs.Packets.{came_in_on, is_from_inside, through, with_destination, with_source, with_tag};
ghost use Rattle.pfs_addr_values.specs.Protocols.{has_ports};
ghost use Rattle.pfs_addr_values.specs.declared.packets.Dir.TheVariants.{In, Out};

use crate::addresses::Addr;
use crate::flag_sets::Flags;
use crate::names::IfName;
use crate::protocols::Proto;
use std::marker::Model;

/// The most records of a trace. (own to this profile)
pub const ROW_LIMIT: u64 = 1_000_000_000;

/// The most packets of a run: two for each record, since a packet that is forwarded is asked at two interfaces. So a run makes at
/// most that many states. (own to this profile)
pub const RUN_LIMIT: u64 = 2_000_000_000;

/// The way of a packet through an interface. (pf.conf(5), PARAMETERS, "in" and "out")
#[derive(Debug, Clone, Copy, PartialEq, Eq, Hash)]
pub enum Dir {
    /// It comes in.
    In,
    /// It goes out.
    Out,
}

/// An address with a port, 0 where the protocol has no ports.
#[derive(Debug, Clone, Copy, PartialEq, Eq, Hash)]
pub struct Endpoint {
    /// The address.
    pub addr: Addr,
    /// The port, 0 for protocols other than TCP and UDP.
    pub port: u16,
}

/// A tag, by the number of the first rule of the text that gives it. (pf.conf(5), PARAMETERS, "tag"; the number is own)
#[derive(Debug, Clone, Copy, PartialEq, Eq, Hash)]
pub struct TagNo(pub u16);

/// A packet on an interface.
///
/// Clauses see it as a `PacketView`: direction, interface name, protocol, the source and the destination with their ports,
/// flags, its tag, and the interface by which it came before. Its ports are 0 for protocols other than TCP and UDP.
#[derive(Debug, Clone, Copy, PartialEq, Eq)]
pub struct Packet {
    dir: Dir,
    ifname: IfName,
    proto: Proto,
    source: Endpoint,
    destination: Endpoint,
    flags: Flags,
    tag: Option<TagNo>,
    came_by: Option<IfName>,
}

impl Model for Packet {
    ghost use Rattle.std.specs.Prelude.{◌≡◌, false};
    ghost use Rattle.pfs_addr_values.specs.Packets.{PacketView, IsPortless};

    ghost Value = { PacketView };

    ghost view = { λ p. record { dir = p.dir; ifname = p.ifname; proto = p.proto; source = p.source; destination = p.destination; flags = p.flags; tag = p.tag; came_by = p.came_by } };

    ghost invariant = { λ p. IsPortless p.proto p.source p.destination };

    ghost inverse = { λ p. record { dir = p.dir; ifname = p.ifname; proto = p.proto; source = p.source; destination = p.destination; flags = p.flags; tag = p.tag; came_by = p.came_by } };
}

/// What a packet and its answers have in common, by which a state is found: the protocol, and two ends. For an `in`
/// packet the first end is the source and the second the destination; for an `out` packet it is the other way round.
/// (own to this profile; pf(4) calls it a state key)
#[derive(Debug, Clone, Copy, PartialEq, Eq, Hash)]
pub struct FlowKey {
    /// The protocol.
    pub proto: Proto,
    /// The end from which `in` packets come.
    pub a: Endpoint,
    /// The end from which `out` packets come.
    pub b: Endpoint,
}

impl FlowKey {
    /// The key of a packet: the same for a packet and for its answers on the way back.
    pub fn of(packet: &Packet) -> FlowKey
        ensures { result ≡ key_of packet.now }
    {
        let (a, b) = match packet.dir {
            Dir::In => (packet.source, packet.destination),
            Dir::Out => (packet.destination, packet.source),
        };
        FlowKey {
            proto: packet.proto,
            a,
            b,
        }
    }
}

impl Packet {
    /// A packet between two ends, without a tag, and which came by no other interface. The ports are 0 unless the protocol is TCP or
    /// UDP.
    pub fn new(
        dir: Dir,
        ifname: IfName,
        proto: Proto,
        source: Endpoint,
        destination: Endpoint,
        flags: Flags,
    ) -> Packet
        requires source_port { has_ports proto ≡ false → source.port ≡ 0 }
        requires destination_port { has_ports proto ≡ false → destination.port ≡ 0 }
        ensures { result ≡ record { dir = dir; ifname = ifname; proto = proto; source = source; destination = destination; flags = flags; tag = None; came_by = None } }
    {
        Packet {
            dir,
            ifname,
            proto,
            source,
            destination,
            flags,
            tag: None,
            came_by: None,
        }
    }

    /// Whether the packet comes in or goes out.
    pub fn dir(&self) -> Dir
        ensures { result ≡ self.now.dir }
    {
        self.dir
    }

    /// The name of the interface on which the packet is.
    pub fn ifname(&self) -> IfName
        ensures { result ≡ self.now.ifname }
    {
        self.ifname
    }

    /// Whether the packet is on the interface of this name. (pf.conf(5), PARAMETERS, "on")
    pub fn is_on(&self, name: &IfName) -> bool
        ensures { result ≡ bytes_eq name.now self.now.ifname }
    {
        name.is(&self.ifname)
    }

    /// The protocol.
    pub fn proto(&self) -> Proto
        ensures { result ≡ self.now.proto }
    {
        self.proto
    }

    /// The end that sends the packet.
    pub fn source(&self) -> Endpoint
        ensures { result ≡ self.now.source }
    {
        self.source
    }

    /// The end to which the packet goes.
    pub fn destination(&self) -> Endpoint
        ensures { result ≡ self.now.destination }
    {
        self.destination
    }

    /// The tag that a rule gave it, or the state that it is of. (pf.conf(5), PARAMETERS, "tag")
    pub fn tag(&self) -> Option<TagNo>
        ensures { result ≡ self.now.tag }
    {
        self.tag
    }

    /// The interface on which the packet came in: its own, if it is on its way in; else the one by which it came before, if that is
    /// known. (pf.conf(5), PARAMETERS, "received-on")
    pub fn came_in_on(&self) -> Option<IfName>
        ensures { result ≡ came_in_on self.now }
    {
        match self.dir {
            Dir::In => Some(self.ifname),
            Dir::Out => self.came_by,
        }
    }

    /// The TCP flags; none for other protocols.
    pub fn flags(&self) -> Flags
        ensures { result ≡ self.now.flags }
    {
        self.flags
    }

    /// The packet as it comes in at another interface. It takes no memory.
    pub fn in_by(&self, ifname: IfName) -> Packet
        ensures { result ≡ record self.now { dir = In; ifname = ifname; came_by = None } }
    {
        Packet {
            dir: Dir::In,
            ifname,
            came_by: None,
            ..*self
        }
    }

    /// The packet as it goes out at another interface: it came by the one where it is. It takes no memory.
    pub fn through(&self, ifname: IfName) -> Packet
        ensures { result ≡ through self.now ifname }
    {
        Packet {
            dir: Dir::Out,
            ifname,
            came_by: Some(self.ifname),
            ..*self
        }
    }

    /// Whether it is known that the packet came in elsewhere, so that it goes out from inside. It takes no memory.
    pub fn is_from_inside(&self) -> bool
        ensures { result ≡ is_from_inside self.now }
    {
        match self.dir {
            Dir::In => false,
            Dir::Out => self.came_by.is_some(),
        }
    }

    /// The packet as it is under a key: with the addresses of the key, and with its ports where the protocol has ports. It takes no
    /// memory. (pf.conf(5), TRANSLATION)
    pub fn under(&self, key: &FlowKey) -> Packet
        ensures { result ≡ under self.now key.now }
    {
        let (source, destination) = match self.dir {
            Dir::In => (key.a, key.b),
            Dir::Out => (key.b, key.a),
        };
        let ported = self.proto.has_ports();
        Packet {
            source: end_put(ported, self.source, source),
            destination: end_put(ported, self.destination, destination),
            ..*self
        }
    }

    /// The packet with a tag, or with none. It takes no memory.
    pub fn with_tag(&self, tag: Option<TagNo>) -> Packet
        ensures { result ≡ with_tag self.now tag }
    {
        Packet { tag, ..*self }
    }

    /// The packet with this end in place of its source. It takes no memory.
    pub fn with_source(&self, source: Endpoint) -> Packet
        requires { has_ports self.now.proto ≡ false → source.port ≡ 0 }
        ensures { result ≡ with_source self.now source }
    {
        Packet { source, ..*self }
    }

    /// The packet with this end in place of its destination. It takes no memory.
    pub fn with_destination(&self, destination: Endpoint) -> Packet
        requires { has_ports self.now.proto ≡ false → destination.port ≡ 0 }
        ensures { result ≡ with_destination self.now destination }
    {
        Packet {
            destination,
            ..*self
        }
    }

    /// The packet with these flags in place of its own. It takes no memory.
    pub fn with_flags(&self, flags: Flags) -> Packet
        ensures { result ≡ record self.now { flags = flags } }
    {
        Packet { flags, ..*self }
    }

    /// The address that sends the packet.
    pub fn src(&self) -> Addr
        ensures { result ≡ self.now.source.addr }
    {
        self.source.addr
    }

    /// The port that sends the packet, 0 where the protocol has no ports.
    pub fn sport(&self) -> u16
        ensures value { result ≡ self.now.source.port }
        ensures portless { has_ports self.now.proto ≡ false → result ≡ 0 }
    {
        self.source.port
    }

    /// The address to which the packet goes.
    pub fn dst(&self) -> Addr
        ensures { result ≡ self.now.destination.addr }
    {
        self.destination.addr
    }

    /// The port to which the packet goes, 0 where the protocol has no ports.
    pub fn dport(&self) -> u16
        ensures value { result ≡ self.now.destination.port }
        ensures portless { has_ports self.now.proto ≡ false → result ≡ 0 }
    {
        self.destination.port
    }
}

/// An end in place of another: its port goes along only where the protocol has ports.
fn end_put(ported: bool, old: Endpoint, new: Endpoint) -> Endpoint
    ensures { result ≡ end_put ported old new }
{
    if ported {
        new
    } else {
        Endpoint {
            addr: new.addr,
            port: old.port,
        }
    }
}
