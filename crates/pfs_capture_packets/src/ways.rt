//! Which way a frame goes, by its link's header.

ghost use Rattle.std.specs.Prelude.{◌≡◌, ◌+◌, ◌<◌, ◌≤◌, IfSome, length};
ghost use Rattle.std.specs.Str.{bytes_eq};
ghost use Rattle.pfs_capture_packets.specs.Ways.{cooked_dir, cooked_type, dir_of_type, ethernet_dir, hex_pair, hex_value, is_colon, is_own, mac_of, way_across};

use crate::bytes::{holds, read_u16};
use crate::links::Link;
use pfs_addr_values::Dir;

/// The address of an interface on its link, of six bytes as Ethernet has it. (IEEE 802, clause 8.2)
#[derive(Clone, Copy)]
pub struct Mac {
    /// Its bytes, in the order in which a frame has them.
    pub octets: [u8; 6],
}

/// The address that a text is: six numbers of two digits in base 16, with colons between them. `None` for every other text.
/// (ifconfig(8), lladdr)
pub fn parse_mac(text: &[u8]) -> Option<Mac>
    ensures { result ≡ mac_of text.now }
{
    if text.len() != 17 {
        return None;
    }
    if !is_colon(text, 2)
        || !is_colon(text, 5)
        || !is_colon(text, 8)
        || !is_colon(text, 11)
        || !is_colon(text, 14)
    {
        return None;
    }
    let octets = [
        hex_pair(text, 0)?,
        hex_pair(text, 3)?,
        hex_pair(text, 6)?,
        hex_pair(text, 9)?,
        hex_pair(text, 12)?,
        hex_pair(text, 15)?,
    ];
    Some(Mac { octets })
}

fn is_colon(text: &[u8], at: usize) -> bool
    requires { at < length text.now }
    ensures { result ≡ is_colon text.now at }
{
    text[at] == b':'
}

/// The number of two digits in base 16.
fn hex_pair(text: &[u8], at: usize) -> Option<u8>
    requires { at + 2 ≤ length text.now }
    ensures { result ≡ hex_pair text.now at }
{
    let high = hex_value(text[at])?;
    let low = hex_value(text[at + 1])?;
    Some(high * 16 + low)
}

fn hex_value(digit: u8) -> Option<u8>
    ensures is { result ≡ hex_value digit }
    ensures few { IfSome result (λ n. n < 16) }
{
    match digit {
        b'0'..=b'9' => Some(digit - b'0'),
        b'a'..=b'f' => Some(digit - b'a' + 10),
        b'A'..=b'F' => Some(digit - b'A' + 10),
        _ => None,
    }
}

/// Which way the header of a Linux cooked capture says that its frame goes. `None` for frames of other links, and where it
/// says neither way: what is sent to another host is neither in nor out. (packet(7), sll_pkttype)
pub fn read_cooked_dir(link: Link, frame: &[u8]) -> Option<Dir>
    ensures { result ≡ cooked_dir link frame.now }
{
    dir_of_type(cooked_type(link, frame)?)
}

fn cooked_type(link: Link, frame: &[u8]) -> Option<u16>
    ensures { result ≡ cooked_type link frame.now }
{
    match link {
        Link::LinuxSll if holds(frame, 0, 16) => Some(read_u16(frame, 0)),
        Link::LinuxSll2 if holds(frame, 0, 20) => Some(u16::from(frame[10])),
        _ => None,
    }
}

fn dir_of_type(number: u16) -> Option<Dir>
    ensures { result ≡ dir_of_type number }
{
    match number {
        0..=2 => Some(Dir::In),
        4 => Some(Dir::Out),
        _ => None,
    }
}

/// Which way an Ethernet frame goes on an interface that has these addresses: out where it is from one of them, in where it
/// is to one of them or to a group. `None` where it is neither from nor to the interface, and where it is both.
pub fn read_ethernet_dir(own: &[Mac], frame: &[u8]) -> Option<Dir>
    ensures { result ≡ ethernet_dir own.now frame.now }
{
    if !holds(frame, 0, 14) {
        return None;
    }
    let to_own = is_own(own, &frame[..6]);
    let to_group = frame[0] % 2 == 1;
    way_across(is_own(own, &frame[6..12]), to_own, to_group)
}

fn way_across(from_own: bool, to_own: bool, to_group: bool) -> Option<Dir>
    ensures { result ≡ way_across from_own to_own to_group }
{
    match (from_own, to_own) {
        (true, true) => None,
        (true, false) => Some(Dir::Out),
        (false, true) => Some(Dir::In),
        (false, false) if to_group => Some(Dir::In),
        (false, false) => None,
    }
}

fn is_own(own: &[Mac], field: &[u8]) -> bool
    ensures { result ≡ is_own own.now field.now }
{
    own.iter().any(|mac| is_mac(mac, field))
}

fn is_mac(mac: &Mac, field: &[u8]) -> bool
    ensures { result ≡ bytes_eq mac.now.octets field.now }
{
    &mac.octets[..] == field
}
