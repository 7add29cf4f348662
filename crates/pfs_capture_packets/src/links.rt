//! The headers of links.

ghost use Rattle.std.specs.Prelude.{◌≡◌, ◌+◌, ◌≤◌, length};
ghost use Rattle.pfs_capture_packets.specs.Links.{either_order, encapsulated_place, first_place, place_behind_header, kind_of_family, link_of, loopback_place, log_place, ppp_behind, ppp_place, raw_or_loopback_place, raw_place};

use crate::bytes::{holds, read_u16};
use crate::labels::{kind_of_ppp, kind_of_version};
use crate::logs::LOG_HEADER;
use crate::packets::Reason;
use crate::walks::HeaderPlace;

/// How the frames of a capture begin.
#[derive(Clone, Copy)]
pub enum Link {
    /// An Ethernet header.
    Ethernet,
    /// An address family in four bytes, of either byte order: BSD's loopback.
    Loopback,
    /// Nothing: the packet is the frame.
    Raw,
    /// Nothing, or as OpenBSD writes it an address family as BSD's loopback has it.
    RawOrLoopback,
    /// The header of enc(4), which begins with an address family.
    Encapsulated,
    /// The header of PPP, with or without the two bytes of HDLC.
    Ppp,
    /// The header of a session of PPP over Ethernet.
    PppOverEthernet,
    /// The header of a Linux cooked capture.
    LinuxSll,
    /// The header of a Linux cooked capture, version 2.
    LinuxSll2,
    /// The header of pflog(4).
    Log,
}

impl Link {
    /// The link of this type, or `None` where the type is not read.
    pub fn from_type(number: u16) -> Option<Link>
        ensures { result ≡ link_of number }
    {
        match number {
            1 => Some(Link::Ethernet),
            0 | 108 => Some(Link::Loopback),
            14 | 101 | 228 | 229 => Some(Link::Raw),
            12 => Some(Link::RawOrLoopback),
            13 | 109 => Some(Link::Encapsulated),
            9 | 50 => Some(Link::Ppp),
            51 => Some(Link::PppOverEthernet),
            113 => Some(Link::LinuxSll),
            276 => Some(Link::LinuxSll2),
            117 => Some(Link::Log),
            _ => None,
        }
    }
}

/// What follows a link's header, and where.
pub fn first_place(link: Link, frame: &[u8]) -> Result<HeaderPlace, Reason>
    ensures { result ≡ first_place link frame.now }
{
    match link {
        Link::Ethernet => framed(frame, 14, 12),
        Link::LinuxSll => framed(frame, 16, 14),
        Link::LinuxSll2 => framed(frame, 20, 0),
        Link::Loopback => loopback_place(frame),
        Link::Raw => raw_place(frame),
        Link::RawOrLoopback => raw_or_loopback_place(frame),
        Link::Encapsulated => encapsulated_place(frame),
        Link::Ppp => ppp_place(frame),
        Link::PppOverEthernet => Ok(HeaderPlace {
            kind: 0x8864,
            at: 0,
        }),
        Link::Log => log_place(frame),
    }
}

/// After a header of so many bytes, which has an EtherType at this place.
fn framed(frame: &[u8], size: usize, at: usize) -> Result<HeaderPlace, Reason>
    requires { at + 2 ≤ size }
    ensures { result ≡ place_behind_header frame.now size at }
{
    if !holds(frame, 0, size) {
        return Err(Reason::Cut);
    }
    Ok(HeaderPlace {
        kind: read_u16(frame, at),
        at: size,
    })
}

fn loopback_place(frame: &[u8]) -> Result<HeaderPlace, Reason>
    ensures { result ≡ loopback_place frame.now }
{
    if !holds(frame, 0, 4) {
        return Err(Reason::Cut);
    }
    Ok(HeaderPlace {
        kind: kind_of_family(either_order(frame)),
        at: 4,
    })
}

/// The address family in the first four bytes, in either byte order; 0 where it is past 255.
fn either_order(frame: &[u8]) -> u8
    requires { 4 ≤ length frame.now }
    ensures { result ≡ either_order frame.now }
{
    if frame[0] == 0 && frame[1] == 0 && frame[2] == 0 {
        frame[3]
    } else if frame[1] == 0 && frame[2] == 0 && frame[3] == 0 {
        frame[0]
    } else {
        0
    }
}

/// A packet begins with its version; an address family of OpenBSD's loopback with a zero.
fn raw_or_loopback_place(frame: &[u8]) -> Result<HeaderPlace, Reason>
    ensures { result ≡ raw_or_loopback_place frame.now }
{
    let raw = raw_place(frame)?;
    if raw.kind != 0 {
        return Ok(raw);
    }
    loopback_place(frame)
}

fn encapsulated_place(frame: &[u8]) -> Result<HeaderPlace, Reason>
    ensures { result ≡ encapsulated_place frame.now }
{
    if !holds(frame, 0, 12) {
        return Err(Reason::Cut);
    }
    Ok(HeaderPlace {
        kind: kind_of_family(either_order(frame)),
        at: 12,
    })
}

fn ppp_place(frame: &[u8]) -> Result<HeaderPlace, Reason>
    ensures { result ≡ ppp_place frame.now }
{
    if holds(frame, 0, 2) && frame[0] == 0xff && frame[1] == 0x03 {
        return ppp_behind(frame, 2);
    }
    ppp_behind(frame, 0)
}

/// After the protocol of PPP at this place: two bytes, or one that is odd.
fn ppp_behind(frame: &[u8], at: usize) -> Result<HeaderPlace, Reason>
    requires { at ≤ 2 }
    ensures { result ≡ ppp_behind frame.now at }
{
    if !holds(frame, at, 2) {
        return Err(Reason::Cut);
    }
    if frame[at] % 2 == 1 {
        return Ok(HeaderPlace {
            kind: kind_of_ppp(u16::from(frame[at])),
            at: at + 1,
        });
    }
    Ok(HeaderPlace {
        kind: kind_of_ppp(read_u16(frame, at)),
        at: at + 2,
    })
}

fn raw_place(frame: &[u8]) -> Result<HeaderPlace, Reason>
    ensures { result ≡ raw_place frame.now }
{
    if frame.is_empty() {
        return Err(Reason::Cut);
    }
    Ok(HeaderPlace {
        kind: kind_of_version(frame[0]),
        at: 0,
    })
}

fn log_place(frame: &[u8]) -> Result<HeaderPlace, Reason>
    ensures { result ≡ log_place frame.now }
{
    if !holds(frame, 0, LOG_HEADER) {
        return Err(Reason::Cut);
    }
    if usize::from(frame[0]) < LOG_HEADER {
        return Err(Reason::NotIp);
    }
    Ok(HeaderPlace {
        kind: kind_of_family(frame[1]),
        at: (usize::from(frame[0]) + 3) / 4 * 4,
    })
}

/// The EtherType of packets of an address family, 0 where it has none.
fn kind_of_family(family: u8) -> u16
    ensures { result ≡ kind_of_family family }
{
    match family {
        2 => 0x0800,
        24 | 28 | 30 => 0x86dd,
        _ => 0,
    }
}
