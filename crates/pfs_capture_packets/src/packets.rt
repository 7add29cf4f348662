//! The packet that a frame holds, or why it is none that a trace has.

ghost use Rattle.std.specs.Prelude.{◌≡◌, ◌+◌, ◌≤◌, IfOk, length, false, true};
ghost use Rattle.pfs_addr_values.specs.Addresses.{same_family};
ghost use Rattle.pfs_addr_values.specs.Protocols.{has_ports};
ghost use Rattle.pfs_capture_packets.specs.Sent.{flags_of_carried, from_port, on_way, proto_of_carried, to_port};
ghost use Rattle.pfs_capture_packets.specs.Packets.{IsCarried, carried_at, ends_past, flags_in, found_at, ipv4_in, ipv6_in, kept_length, own_end, packet_of, tcp_at, udp_at, v4_at, v6_at};

use crate::bytes::{holds, read_u16};
use crate::links::{Link, first_place};
use crate::walks::{HeaderPlace, Layer, walk};
use pfs_addr_values::{Addr, Dir, Endpoint, Flags, IfName, OtherProto, Packet, Proto};

/// Why a frame is no record of a trace. Each frame that is none has exactly one reason.
#[derive(Clone, Copy)]
pub enum Reason {
    /// The type of its link is not read.
    LinkType,
    /// By its headers it holds neither an IPv4 nor an IPv6 packet.
    NotIp,
    /// It holds a fragment that is not the first.
    LaterFragment,
    /// It ends before the ports of its packet, or before its headers do.
    Cut,
    /// Its packet is too short for its own headers, so that pf drops it.
    TooShort,
    /// Its packet neither comes in nor goes out.
    NeitherWay,
}

/// What an IP packet carries.
#[derive(Clone, Copy)]
pub enum Carried {
    /// TCP, with the ports of its source and its destination, and its flags.
    Tcp(u16, u16, Flags),
    /// UDP, with the ports of its source and its destination.
    Udp(u16, u16),
    /// Another protocol, by its number.
    Other(OtherProto),
}

/// The outermost IP packet of a frame.
#[derive(Clone, Copy)]
pub struct IpPacket {
    /// The address from which it comes.
    pub source: Addr,
    /// The address to which it goes, of the source's family.
    pub destination: Addr,
    /// What it carries.
    pub carried: Carried,
}

impl IpPacket {
    /// The packet on its way through the interface of this name, as rules and states look at it. Its ports are 0 where it carries
    /// neither TCP nor UDP, and it has flags only where it carries TCP.
    pub fn on_way(&self, dir: Dir, ifname: IfName) -> Packet
        ensures { result ≡ on_way dir ifname self.now }
    {
        let (from, to) = ports_of(&self.carried);
        let source = Endpoint {
            addr: self.source,
            port: from,
        };
        let destination = Endpoint {
            addr: self.destination,
            port: to,
        };
        let proto = proto_of(&self.carried);
        Packet::new(
            dir,
            ifname,
            proto,
            source,
            destination,
            flags_of(&self.carried),
        )
    }
}

fn proto_of(carried: &Carried) -> Proto
    ensures { result ≡ proto_of_carried carried.now }
{
    match *carried {
        Carried::Tcp(_, _, _) => Proto::Tcp,
        Carried::Udp(_, _) => Proto::Udp,
        Carried::Other(other) => Proto::Other(other),
    }
}

/// The ports that it comes from and goes to; 0 without ports.
fn ports_of(carried: &Carried) -> (u16, u16)
    ensures from { result.0 ≡ from_port carried.now }
    ensures to { result.1 ≡ to_port carried.now }
    ensures none { has_ports (proto_of_carried carried.now) ≡ false → (result.0 ≡ 0) × (result.1 ≡ 0) }
{
    match *carried {
        Carried::Tcp(from, to, _) | Carried::Udp(from, to) => (from, to),
        Carried::Other(_) => (0, 0),
    }
}

fn flags_of(carried: &Carried) -> Flags
    ensures { result ≡ flags_of_carried carried.now }
{
    match *carried {
        Carried::Tcp(_, _, flags) => flags,
        Carried::Udp(_, _) | Carried::Other(_) => Flags::default(),
    }
}

/// The outermost IP packet of a frame of this link, or the reason for which the frame is no record.
///
/// Nothing in a payload, a tunnel or an error of ICMP is looked at. It returns each reason but `Reason::LinkType` and
/// `Reason::NeitherWay` where the definition gives it; an IP header whose length is too small to be one is `Reason::NotIp`. (RFC 791, section
/// 3.1; RFC 8200, sections 3 and 4; RFC 9293, section 3.1; RFC 768)
pub fn read_packet(link: Link, frame: &[u8]) -> Result<IpPacket, Reason>
    ensures is { result ≡ packet_of link frame.now }
    ensures family { IfOk result (λ p. same_family p.source p.destination ≡ true) }
    ensures carried { IfOk result (λ p. IsCarried p.carried) }
{
    let first = first_place(link, frame)?;
    let place = walk(Layer::Link, frame, first)?;
    if !holds(frame, place.at, 0) {
        return Err(Reason::Cut);
    }
    match place.kind {
        0x0800 => ipv4_in(&frame[place.at..]),
        0x86dd => ipv6_in(&frame[place.at..]),
        _ => Err(Reason::NotIp),
    }
}

/// The packet that begins with an IPv4 header.
fn ipv4_in(packet: &[u8]) -> Result<IpPacket, Reason>
    ensures is { result ≡ ipv4_in packet.now }
    ensures family { IfOk result (λ p. same_family p.source p.destination ≡ true) }
    ensures carried { IfOk result (λ p. IsCarried p.carried) }
{
    if packet.len() < 20 {
        return Err(Reason::Cut);
    }
    let header = usize::from(packet[0] % 16) * 4;
    if packet[0] / 16 != 4 || header < 20 {
        return Err(Reason::NotIp);
    }
    let own = own_end(0, read_u16(packet, 2));
    if is_past(own, 0, header) {
        return Err(Reason::TooShort);
    }
    if read_u16(packet, 6) % 8192 != 0 {
        return Err(Reason::LaterFragment);
    }
    let first = HeaderPlace {
        kind: u16::from(packet[9]),
        at: header,
    };
    let carried = found_at(Layer::Ip4, &packet[..kept_length(packet, own)], own, first)?;
    Ok(IpPacket {
        source: v4_at(packet, 12),
        destination: v4_at(packet, 16),
        carried,
    })
}

/// The packet that begins with an IPv6 header.
fn ipv6_in(packet: &[u8]) -> Result<IpPacket, Reason>
    ensures is { result ≡ ipv6_in packet.now }
    ensures family { IfOk result (λ p. same_family p.source p.destination ≡ true) }
    ensures carried { IfOk result (λ p. IsCarried p.carried) }
{
    if packet.len() < 40 {
        return Err(Reason::Cut);
    }
    if packet[0] / 16 != 6 {
        return Err(Reason::NotIp);
    }
    let first = HeaderPlace {
        kind: u16::from(packet[6]),
        at: 40,
    };
    let own = own_end(40, read_u16(packet, 4));
    let carried = found_at(Layer::Ip6, &packet[..kept_length(packet, own)], own, first)?;
    Ok(IpPacket {
        source: v6_at(packet, 8),
        destination: v6_at(packet, 24),
        carried,
    })
}

/// Where a packet ends that says that it has so many bytes after its first ones; `None` where it says no length.
fn own_end(before: usize, told: u16) -> Option<usize>
    requires { before ≤ 40 }
    ensures { result ≡ own_end before told }
{
    if told == 0 {
        return None;
    }
    Some(before + usize::from(told))
}

/// Whether a header of so many bytes from a place on ends past its packet's own end.
fn is_past(own: Option<usize>, at: usize, size: usize) -> bool
    ensures { result ≡ ends_past own (at + size) }
{
    match own {
        Some(end) => end < size || end - size < at,
        None => false,
    }
}

/// How many bytes of a packet were captured, of those up to its own end.
fn kept_length(packet: &[u8], own: Option<usize>) -> usize
    ensures is { result ≡ kept_length (length packet.now) own }
    ensures within { result ≤ length packet.now }
{
    match own {
        Some(end) => packet.len().min(end),
        None => packet.len(),
    }
}

/// What is carried after the headers that follow the packet's own.
fn found_at(
    layer: Layer,
    packet: &[u8],
    own: Option<usize>,
    first: HeaderPlace,
) -> Result<Carried, Reason>
    ensures is { result ≡ found_at layer packet.now own first }
    ensures carried { IfOk result IsCarried }
{
    let place = walk(layer, packet, first)?;
    carried_at(packet, own, place)
}

/// What is carried by the protocol of this place from there on.
fn carried_at(packet: &[u8], own: Option<usize>, place: HeaderPlace) -> Result<Carried, Reason>
    ensures is { result ≡ carried_at packet.now own place }
    ensures carried { IfOk result IsCarried }
{
    match Proto::from_number((place.kind % 256) as u8) {
        Proto::Tcp => tcp_at(packet, own, place.at),
        Proto::Udp => udp_at(packet, own, place.at),
        Proto::Other(other) if holds(packet, place.at, 0) => Ok(Carried::Other(other)),
        Proto::Other(_) => Err(Reason::Cut),
    }
}

/// The TCP header at this place.
fn tcp_at(packet: &[u8], own: Option<usize>, at: usize) -> Result<Carried, Reason>
    ensures is { result ≡ tcp_at packet.now own at }
    ensures carried { IfOk result IsCarried }
{
    if is_past(own, at, 20) {
        return Err(Reason::TooShort);
    }
    if !holds(packet, at, 14) {
        return Err(Reason::Cut);
    }
    if packet[at + 12] / 16 < 5 {
        return Err(Reason::TooShort);
    }
    Ok(Carried::Tcp(
        read_u16(packet, at),
        read_u16(packet, at + 2),
        flags_in(packet[at + 13]),
    ))
}

/// The UDP header at this place.
fn udp_at(packet: &[u8], own: Option<usize>, at: usize) -> Result<Carried, Reason>
    ensures is { result ≡ udp_at packet.now own at }
    ensures carried { IfOk result IsCarried }
{
    if is_past(own, at, 8) {
        return Err(Reason::TooShort);
    }
    if !holds(packet, at, 4) {
        return Err(Reason::Cut);
    }
    Ok(Carried::Udp(read_u16(packet, at), read_u16(packet, at + 2)))
}

/// The flags of a TCP header, from the byte that holds them.
fn flags_in(byte: u8) -> Flags
    ensures { result ≡ flags_in byte }
{
    Flags {
        fin: byte % 2 == 1,
        syn: byte / 2 % 2 == 1,
        rst: byte / 4 % 2 == 1,
        psh: byte / 8 % 2 == 1,
        ack: byte / 16 % 2 == 1,
        urg: byte / 32 % 2 == 1,
        ece: byte / 64 % 2 == 1,
        cwr: byte / 128 == 1,
    }
}

fn v4_at(packet: &[u8], at: usize) -> Addr
    requires { at + 4 ≤ length packet.now }
    ensures { result ≡ v4_at packet.now at }
{
    let mut bytes = [0; 4];
    bytes.copy_from_slice(&packet[at..at + 4]);
    Addr::V4(bytes)
}

fn v6_at(packet: &[u8], at: usize) -> Addr
    requires { at + 16 ≤ length packet.now }
    ensures { result ≡ v6_at packet.now at }
{
    let mut bytes = [0; 16];
    bytes.copy_from_slice(&packet[at..at + 16]);
    Addr::V6(bytes)
}
