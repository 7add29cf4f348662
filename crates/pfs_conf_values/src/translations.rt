//! What a rule puts in place of the addresses and ports of a packet.

ghost use Rattle.std.specs.Prelude.{◌≡◌};
ghost use Rattle.pfs_conf_values.specs.Translations.{no_translation, family_of_nat, family_of_rdr, family_of_translation, given_family, is_mixed, lacks_way, mixes_families, translates_by};

use crate::filters::{Family, Ports};
use pfs_addr_values::{Addr, Dir};

/// The port that `nat-to` gives a source, of TCP and UDP. (pf.conf(5), TRANSLATION, "nat-to" and "static-port")
#[derive(Debug, Clone, Copy, PartialEq, Eq, Hash)]
pub enum NatPorts {
    /// One of 50001 to 65535, since none is given.
    Usual,
    /// `port P:Q`: one of these.
    Given(Ports),
    /// `static-port`: the source keeps its port.
    Static,
}

/// `nat-to ADDR`: what is put in place of a packet's source. (pf.conf(5), TRANSLATION, "nat-to")
#[derive(Debug, Clone, Copy, PartialEq, Eq, Hash)]
pub struct NatTo {
    /// The address.
    pub addr: Addr,
    /// The ports.
    pub ports: NatPorts,
}

/// `rdr-to ADDR [port P]`: what is put in place of a packet's destination. (pf.conf(5), TRANSLATION, "rdr-to")
#[derive(Debug, Clone, Copy, PartialEq, Eq, Hash)]
pub struct RdrTo {
    /// The address.
    pub addr: Addr,
    /// The port, of TCP and UDP. Where none is given, the destination keeps its port.
    pub port: Option<u16>,
}

/// What a rule translates. One that translates is `in` or `out`, is no `block` rule, and asks for the family of its addresses.
/// (pf.conf(5), TRANSLATION)
#[derive(Debug, Clone, Copy, PartialEq, Eq, Hash)]
pub struct Translation {
    /// The source, which comes first.
    pub nat_to: Option<NatTo>,
    /// The destination.
    pub rdr_to: Option<RdrTo>,
}

impl Translation {
    /// Nothing is translated.
    pub fn new() -> Translation
        ensures { result ≡ no_translation }
    {
        Translation {
            nat_to: None,
            rdr_to: None,
        }
    }

    /// Whether anything is translated.
    pub fn translates(&self) -> bool
        ensures { result ≡ translates_by self.now }
    {
        self.nat_to.is_some() || self.rdr_to.is_some()
    }

    /// The family of a rule with this translation, of which `inet`, `inet6` or neither is written: that of the addresses that it
    /// puts in place of others. (pf.conf(5), PARAMETERS, "inet" and "inet6"; own to this profile)
    pub fn given_family(&self, written: Option<Family>) -> Option<Family>
        ensures { result ≡ given_family written self.now }
    {
        match self.family() {
            Some(family) => Some(family),
            None => written,
        }
    }

    /// Whether a rule translates, and has neither `in` nor `out`. (own to this profile)
    pub fn lacks_way(&self, dir: Option<Dir>) -> bool
        ensures { result ≡ lacks_way dir self.now }
    {
        self.translates() && dir.is_none()
    }

    /// Whether a rule puts an address in place of one of another family: another than is written of the rule, than that of the host
    /// after `from`, of the host after `to`, or of its other translation. (own to this profile)
    pub fn mixes_families(
        &self,
        written: Option<Family>,
        source: Option<Family>,
        destination: Option<Family>,
    ) -> bool
        ensures { result ≡ mixes_families written source destination self.now }
    {
        is_mixed(
            self.family(),
            written,
            source,
            destination,
            family_of_rdr(self.rdr_to),
        )
    }

    /// The family of the addresses that are put in place of others. None where nothing is translated.
    fn family(&self) -> Option<Family>
        ensures { result ≡ family_of_translation self.now }
    {
        match family_of_nat(self.nat_to) {
            Some(family) => Some(family),
            None => family_of_rdr(self.rdr_to),
        }
    }
}

fn is_mixed(
    family: Option<Family>,
    written: Option<Family>,
    source: Option<Family>,
    destination: Option<Family>,
    rdr: Option<Family>,
) -> bool
    ensures { result ≡ is_mixed family written source destination rdr }
{
    match family {
        None => false,
        Some(family) => {
            family.is_other(written)
                || family.is_other(source)
                || family.is_other(destination)
                || family.is_other(rdr)
        }
    }
}

fn family_of_nat(nat_to: Option<NatTo>) -> Option<Family>
    ensures { result ≡ family_of_nat nat_to }
{
    match nat_to {
        Some(nat_to) => Some(Family::of(nat_to.addr)),
        None => None,
    }
}

fn family_of_rdr(rdr_to: Option<RdrTo>) -> Option<Family>
    ensures { result ≡ family_of_rdr rdr_to }
{
    match rdr_to {
        Some(rdr_to) => Some(Family::of(rdr_to.addr)),
        None => None,
    }
}
