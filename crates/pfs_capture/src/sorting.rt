//! Which way a frame's packet goes.

ghost use Rattle.std.specs.Prelude.{◌≡◌, IfOk, IfSome, true};
ghost use Rattle.pfs_addr_values.specs.Names.{is_name};
ghost use Rattle.pfs_capture.specs.Sorting.{IsFound, by_link, by_mac, by_own_macs, contradicts, found_in_frame, found_on_link, heading_from, logged_way, networks_dir, way_at, way_between, way_of};

use crate::points::{CapturePoint, point_of};
use pfs_addr_values::{Dir, IfName};
use pfs_capture_packets::{
    IpPacket, Link, LoggedAnswer, Mac, Reason, is_log, read_answer, read_cooked_dir,
    read_ethernet_dir, read_log, read_packet,
};

/// By what a packet's direction was found.
#[derive(Clone, Copy)]
pub enum Evidence {
    /// The header of pflog(4).
    Log,
    /// The header of a Linux cooked capture.
    Cooked,
    /// The addresses of its Ethernet frame.
    Mac,
    /// The networks of its own addresses.
    Networks,
}

/// A direction, by what it was found, and whether the networks of the packet's addresses say the other one.
#[derive(Clone, Copy)]
pub struct Heading {
    /// Whether the packet comes in or goes out.
    pub dir: Dir,
    /// By what this was found.
    pub by: Evidence,
    /// Whether the networks say the other way.
    pub is_contradicted: bool,
}

/// What the header of a link says of a direction.
#[derive(Clone, Copy)]
pub enum LinkWay {
    /// This direction, in this header.
    Says(Dir, Evidence),
    /// That the frame is none of the interface's.
    Neither,
    /// Nothing.
    Silent,
}

/// The way of a packet: its direction, and the name of its interface.
#[derive(Clone, Copy)]
pub struct PacketWay {
    /// Its direction.
    pub heading: Heading,
    /// The name of its interface.
    pub ifname: IfName,
}

/// The packet of a frame, which way it goes, and on which interface.
#[derive(Clone, Copy)]
pub struct DirectedPacket {
    /// Whether it comes in or goes out, and the name of its interface.
    pub way: PacketWay,
    /// The packet.
    pub packet: IpPacket,
    /// What pf answered, where the frame is of a log.
    pub answer: Option<LoggedAnswer>,
}

/// The packet of a frame of this link type with its way, or the one reason for which it is no record. A log of packets has the
/// way itself, and a Linux cooked capture the direction. Of an Ethernet frame the interface's own addresses tell it, where
/// they are given. Else what goes from the front of the interface to behind it comes in, and what goes the other way goes out.
/// `name` is the interface that the frame's block tells: of several interfaces the frame is at that of this name, or else goes
/// neither way.
pub fn sort(
    points: &[CapturePoint],
    name: Option<IfName>,
    link_type: u16,
    frame: &[u8],
) -> Result<DirectedPacket, Reason>
    ensures is { result ≡ found_in_frame points.now name link_type frame.now }
    ensures row { IfOk result IsFound }
{
    match Link::from_type(link_type) {
        Some(link) => sort_on_link(points, name, link, frame),
        None => Err(Reason::LinkType),
    }
}

fn sort_on_link(
    points: &[CapturePoint],
    name: Option<IfName>,
    link: Link,
    frame: &[u8],
) -> Result<DirectedPacket, Reason>
    ensures is { result ≡ found_on_link points.now name link frame.now }
    ensures row { IfOk result IsFound }
{
    let packet = read_packet(link, frame)?;
    let way = way_of(points, name, link, frame, &packet).ok_or(Reason::NeitherWay)?;
    Ok(DirectedPacket {
        way,
        packet,
        answer: read_answer(link, frame),
    })
}

fn way_of(
    points: &[CapturePoint],
    name: Option<IfName>,
    link: Link,
    frame: &[u8],
    packet: &IpPacket,
) -> Option<PacketWay>
    ensures is { result ≡ way_of points.now name link frame.now packet.now }
    ensures name { IfSome result (λ w. is_name 15 w.ifname ≡ true) }
{
    if is_log(link) {
        return logged_way(frame);
    }
    way_at(point_of(points, name)?, link, frame, packet)
}

/// The way of a packet at an interface.
fn way_at(point: &CapturePoint, link: Link, frame: &[u8], packet: &IpPacket) -> Option<PacketWay>
    ensures is { result ≡ way_at point.now link frame.now packet.now }
    ensures name { IfSome result (λ w. is_name 15 w.ifname ≡ true) }
{
    let heading = heading_from(by_link(point, link, frame), networks_dir(point, packet))?;
    Some(PacketWay {
        heading,
        ifname: point.ifname(),
    })
}

/// The way that a log of packets has itself.
fn logged_way(frame: &[u8]) -> Option<PacketWay>
    ensures is { result ≡ logged_way frame.now }
    ensures name { IfSome result (λ w. is_name 15 w.ifname ≡ true) }
{
    let logged = read_log(frame)?;
    Some(PacketWay {
        heading: Heading {
            dir: logged.dir,
            by: Evidence::Log,
            is_contradicted: false,
        },
        ifname: logged.ifname,
    })
}

/// What the header of a frame's link says.
fn by_link(point: &CapturePoint, link: Link, frame: &[u8]) -> LinkWay
    ensures { result ≡ by_link point.now link frame.now }
{
    match read_cooked_dir(link, frame) {
        Some(dir) => LinkWay::Says(dir, Evidence::Cooked),
        None => by_mac(point, link, frame),
    }
}

/// What the addresses of an Ethernet frame say, where those of the interface are given.
fn by_mac(point: &CapturePoint, link: Link, frame: &[u8]) -> LinkWay
    ensures { result ≡ by_mac point.now link frame.now }
{
    match link {
        Link::Ethernet => by_own_macs(point.macs(), frame),
        _ => LinkWay::Silent,
    }
}

fn by_own_macs(own: &[Mac], frame: &[u8]) -> LinkWay
    ensures { result ≡ by_own_macs own.now frame.now }
{
    if own.is_empty() {
        return LinkWay::Silent;
    }
    match read_ethernet_dir(own, frame) {
        Some(dir) => LinkWay::Says(dir, Evidence::Mac),
        None => LinkWay::Neither,
    }
}

/// The direction by the networks of a packet's addresses.
fn networks_dir(point: &CapturePoint, packet: &IpPacket) -> Option<Dir>
    ensures { result ≡ networks_dir point.now packet.now }
{
    way_between(
        point.is_behind(packet.source),
        point.is_behind(packet.destination),
    )
}

fn way_between(from_behind: bool, to_behind: bool) -> Option<Dir>
    ensures { result ≡ way_between from_behind to_behind }
{
    match (from_behind, to_behind) {
        (false, true) => Some(Dir::In),
        (true, false) => Some(Dir::Out),
        _ => None,
    }
}

/// The direction that a link's header says, or else that of the networks.
fn heading_from(by_link: LinkWay, by_networks: Option<Dir>) -> Option<Heading>
    ensures { result ≡ heading_from by_link by_networks }
{
    match by_link {
        LinkWay::Says(dir, by) => Some(Heading {
            dir,
            by,
            is_contradicted: contradicts(dir, by_networks),
        }),
        LinkWay::Neither => None,
        LinkWay::Silent => {
            let dir = by_networks?;
            Some(Heading {
                dir,
                by: Evidence::Networks,
                is_contradicted: false,
            })
        }
    }
}

/// Whether the other direction is said.
fn contradicts(dir: Dir, said: Option<Dir>) -> bool
    ensures { result ≡ contradicts dir said }
{
    match (dir, said) {
        (Dir::In, Some(Dir::Out)) | (Dir::Out, Some(Dir::In)) => true,
        _ => false,
    }
}
