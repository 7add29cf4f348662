//! What follows a header of each layer.

ghost use Rattle.std.specs.Prelude.{◌≡◌};
ghost use Rattle.pfs_capture_packets.specs.Headers.{header_behind, behind_authentication, behind_extension};
ghost use Rattle.pfs_capture_packets.specs.Labels.{behind_label};

use crate::bytes::{holds, read_u16};
use crate::labels::behind_label;
use crate::packets::Reason;
use crate::walks::{HeaderPlace, Layer, Next};

/// Where the walk of a layer goes from a header.
pub fn behind(layer: Layer, bytes: &[u8], place: HeaderPlace) -> Next
    ensures { result ≡ header_behind layer bytes.now place }
{
    match layer {
        Layer::Link => behind_label(bytes, place),
        Layer::Ip4 => behind_authentication(bytes, place),
        Layer::Ip6 => behind_extension(bytes, place),
    }
}

/// After an authentication header, whose length counts words of four bytes less two.
fn behind_authentication(bytes: &[u8], place: HeaderPlace) -> Next
    ensures { result ≡ behind_authentication bytes.now place }
{
    if place.kind != 51 {
        return Next::Here;
    }
    if !holds(bytes, place.at, 8) {
        return Next::Stop(Reason::Cut);
    }
    let kind = u16::from(bytes[place.at]);
    let size = (usize::from(bytes[place.at + 1]) + 2) * 4;
    Next::On(HeaderPlace {
        kind,
        at: place.at + size,
    })
}

/// After an extension header, whose length counts words of eight bytes less one. After a fragment's header the rest
/// follows in the first fragment alone.
fn behind_extension(bytes: &[u8], place: HeaderPlace) -> Next
    ensures { result ≡ behind_extension bytes.now place }
{
    if !matches!(place.kind, 0 | 43 | 44 | 60) {
        return behind_authentication(bytes, place);
    }
    if !holds(bytes, place.at, 8) {
        return Next::Stop(Reason::Cut);
    }
    let kind = u16::from(bytes[place.at]);
    if place.kind == 44 {
        if read_u16(bytes, place.at + 2) / 8 != 0 {
            return Next::Stop(Reason::LaterFragment);
        }
        return Next::On(HeaderPlace {
            kind,
            at: place.at + 8,
        });
    }
    let size = (usize::from(bytes[place.at + 1]) + 1) * 8;
    Next::On(HeaderPlace {
        kind,
        at: place.at + size,
    })
}
