//! The walk from header to header.

ghost use Rattle.std.specs.Prelude.{◌≡◌, length};
ghost use Rattle.pfs_capture_packets.specs.Walks.{walk_from};
ghost use Rattle.pfs_capture_packets.specs.Headers.{header_behind};

use crate::headers::behind;
use crate::packets::Reason;

/// Which headers a walk passes over.
#[derive(Clone, Copy)]
pub enum Layer {
    /// Tags and labels between a link's header and a packet.
    Link,
    /// Authentication headers after an IPv4 header.
    Ip4,
    /// Extension headers after an IPv6 header.
    Ip6,
}

/// A header: what the one before it says that it is, and where it begins.
#[derive(Clone, Copy)]
pub struct HeaderPlace {
    /// An EtherType, or the number of a protocol.
    pub kind: u16,
    /// Where it begins, in bytes from the front.
    pub at: usize,
}

/// Where a walk goes from a header.
#[derive(Clone, Copy)]
pub enum Next {
    /// On to the next header.
    On(HeaderPlace),
    /// Nowhere: this is what is looked for.
    Here,
    /// Nowhere: there is nothing to be found.
    Stop(Reason),
}

/// The header at which a walk ends.
pub fn walk(layer: Layer, bytes: &[u8], first: HeaderPlace) -> Result<HeaderPlace, Reason>
    ensures { result ≡ walk_from (length bytes.now) layer bytes.now first }
{
    let mut place = first;
    for _turn in 0..bytes.len() {
        match behind(layer, bytes, place) {
            Next::On(next) => place = next,
            Next::Here => return Ok(place),
            Next::Stop(reason) => return Err(reason),
        }
    }
    Err(Reason::NotIp)
}
