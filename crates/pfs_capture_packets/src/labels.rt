//! Tags and labels between a link's header and a packet.

ghost use Rattle.std.specs.Prelude.{◌≡◌};
ghost use Rattle.pfs_capture_packets.specs.Labels.{behind_label, behind_tag, behind_session, behind_switched, kind_of_ppp, kind_of_version};

use crate::bytes::{holds, read_u16};
use crate::packets::Reason;
use crate::walks::{HeaderPlace, Next};

/// After a tag or a label of any kind.
pub fn behind_label(frame: &[u8], place: HeaderPlace) -> Next
    ensures { result ≡ behind_label frame.now place }
{
    match place.kind {
        0x8100 | 0x88a8 => behind_tag(frame, place),
        0x8864 => behind_session(frame, place),
        0x8847 | 0x8848 => behind_switched(frame, place),
        _ => Next::Here,
    }
}

/// After a tag of a virtual network.
fn behind_tag(frame: &[u8], place: HeaderPlace) -> Next
    ensures { result ≡ behind_tag frame.now place }
{
    if !holds(frame, place.at, 4) {
        return Next::Stop(Reason::Cut);
    }
    Next::On(HeaderPlace {
        kind: read_u16(frame, place.at + 2),
        at: place.at + 4,
    })
}

/// After the header of a PPPoE session, and PPP's protocol.
fn behind_session(frame: &[u8], place: HeaderPlace) -> Next
    ensures { result ≡ behind_session frame.now place }
{
    if !holds(frame, place.at, 8) {
        return Next::Stop(Reason::Cut);
    }
    Next::On(HeaderPlace {
        kind: kind_of_ppp(read_u16(frame, place.at + 6)),
        at: place.at + 8,
    })
}

/// After an entry of a stack of MPLS labels. What follows the last entry has its version in its first bits.
fn behind_switched(frame: &[u8], place: HeaderPlace) -> Next
    ensures { result ≡ behind_switched frame.now place }
{
    if !holds(frame, place.at, 5) {
        return Next::Stop(Reason::Cut);
    }
    let at = place.at + 4;
    if frame[place.at + 2] % 2 == 0 {
        return Next::On(HeaderPlace {
            kind: place.kind,
            at,
        });
    }
    let kind = kind_of_version(frame[at]);
    Next::On(HeaderPlace { kind, at })
}

/// The EtherType of what PPP carries, 0 where that can be no packet.
pub fn kind_of_ppp(protocol: u16) -> u16
    ensures { result ≡ kind_of_ppp protocol }
{
    match protocol {
        0x0021 => 0x0800,
        0x0057 => 0x86dd,
        0x0281 => 0x8847,
        0x0283 => 0x8848,
        _ => 0,
    }
}

/// The EtherType of a packet that begins with this byte, 0 where none does.
pub fn kind_of_version(first: u8) -> u16
    ensures { result ≡ kind_of_version first }
{
    match first / 16 {
        4 => 0x0800,
        6 => 0x86dd,
        _ => 0,
    }
}
