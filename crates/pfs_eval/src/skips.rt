//! Skip steps: for each parameter, where a walk goes on from an item that fails on it.

ghost use Rattle.std.specs.Prelude.{◌≡◌};
ghost use Rattle.pfs_eval.specs.Matching.{filter_of};
ghost use Rattle.pfs_eval.specs.Skips.{IsJoined};
ghost use Rattle.pfs_eval.specs.declared.comparing.Parameter.{Parameter};

use crate::comparing::{Parameter, ask_same};
use pfs_conf_values::ItemKind;

/// For each parameter, the place of the next item of the same body that asks another thing there, or the end of the body:
/// where a walk goes on from an item that fails on it. (pf's skip steps)
#[derive(Clone, Copy)]
pub struct Skips {
    /// Over items on the same interface.
    pub interface: u16,
    /// Over items of the same direction.
    pub direction: u16,
    /// Over items of the same address family.
    pub family: u16,
    /// Over items of the same protocol.
    pub protocol: u16,
    /// Over items from the same host.
    pub source_host: u16,
    /// Over items to the same host.
    pub destination_host: u16,
    /// Over items from the same ports.
    pub source_port: u16,
    /// Over items to the same ports.
    pub destination_port: u16,
    /// Over items with the same test of flags.
    pub flags: u16,
}

impl Skips {
    ghost use Rattle.pfs_eval.specs.Skips.{skip_of};

    /// Where a walk goes on from an item that fails on this parameter.
    pub fn to(&self, parameter: Parameter) -> u16
        ensures { result ≡ skip_of self.now parameter }
    {
        match parameter {
            Parameter::Interface => self.interface,
            Parameter::Direction => self.direction,
            Parameter::Family => self.family,
            Parameter::Protocol => self.protocol,
            Parameter::SourceHost => self.source_host,
            Parameter::DestinationHost => self.destination_host,
            Parameter::SourcePort => self.source_port,
            Parameter::DestinationPort => self.destination_port,
            Parameter::Flags => self.flags,
        }
    }

    /// The skips of an item that no other follows in its body, or none that asks the same: all to this place.
    pub fn all_to(place: u16) -> Skips
        ensures { (k : Parameter) → skip_of result k ≡ place }
    {
        Skips {
            interface: place,
            direction: place,
            family: place,
            protocol: place,
            source_host: place,
            destination_host: place,
            source_port: place,
            destination_port: place,
            flags: place,
        }
    }

    /// The skips of an item, from those of the next item of its body, which is at `place`: as far as these where both
    /// ask the same, and to that place where they do not.
    pub fn joined(item: &ItemKind, next: &ItemKind, place: u16, further: &Skips) -> Skips
        ensures { (k : Parameter) → IsJoined k (filter_of item.now) (filter_of next.now) place (skip_of further.now k) (skip_of result k) }
    {
        Skips {
            interface: further.past(item, next, place, Parameter::Interface),
            direction: further.past(item, next, place, Parameter::Direction),
            family: further.past(item, next, place, Parameter::Family),
            protocol: further.past(item, next, place, Parameter::Protocol),
            source_host: further.past(item, next, place, Parameter::SourceHost),
            destination_host: further.past(item, next, place, Parameter::DestinationHost),
            source_port: further.past(item, next, place, Parameter::SourcePort),
            destination_port: further.past(item, next, place, Parameter::DestinationPort),
            flags: further.past(item, next, place, Parameter::Flags),
        }
    }

    /// The skip at one parameter of an item, where these are the skips of the next one, which stands at `place`.
    fn past(&self, item: &ItemKind, next: &ItemKind, place: u16, parameter: Parameter) -> u16
        ensures { IsJoined parameter (filter_of item.now) (filter_of next.now) place (skip_of self.now parameter) result }
    {
        if ask_same(item, next, parameter) {
            self.to(parameter)
        } else {
            place
        }
    }
}
