//! Protocols in texts.

ghost use Rattle.std.specs.Prelude.{◌≡◌, ◌<◌};
ghost use Rattle.pfs_addr_values.specs.Protocols.{proto_in, proto_numbered};

use crate::numbers::parse_number;
use pfs_addr_values::Proto;

/// The protocol that this text is, if it is one: `tcp` (6), `udp` (17), `icmp` (1), `icmp6` (58), `esp` (50), `ah` (51),
/// `gre` (47), or a number of 0 to 255 as `parse_number` reads it, so `6` and `006` are TCP. It takes no memory.
/// (pf.conf(5), PARAMETERS, "proto"; protocols(5))
#[tactic(auto, unfolding(pfs_addr_values::specs::Protocols::proto_in))]
pub fn parse_proto(text: &[u8]) -> Option<Proto>
    ensures { result ≡ proto_in text.now }
{
    if text == b"tcp".as_slice() {
        Some(Proto::Tcp)
    } else if text == b"udp".as_slice() {
        Some(Proto::Udp)
    } else if text == b"icmp".as_slice() {
        Some(Proto::from_number(1))
    } else if text == b"icmp6".as_slice() {
        Some(Proto::from_number(58))
    } else if text == b"esp".as_slice() {
        Some(Proto::from_number(50))
    } else if text == b"ah".as_slice() {
        Some(Proto::from_number(51))
    } else if text == b"gre".as_slice() {
        Some(Proto::from_number(47))
    } else {
        numbered(parse_number(text))
    }
}

fn numbered(number: Option<u64>) -> Option<Proto>
    ensures { result ≡ proto_numbered number }
{
    match number {
        Some(n) if n < 256 => Some(Proto::from_number(n as u8)),
        _ => None,
    }
}
