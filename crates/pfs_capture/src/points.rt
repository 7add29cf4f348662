//! Where a capture was taken, and what is given of it.

ghost use Rattle.std.specs.Prelude.{◌≡◌, Some, true, option_map};
ghost use Rattle.pfs_addr_values.specs.Names.{is_name};
ghost use Rattle.pfs_capture.specs.Points.{is_behind, is_in_networks, point_named, point_of};

use pfs_addr_values::{Addr, IfName, Prefix};
use pfs_capture_packets::Mac;
use std::marker::Model;

/// On which side of an interface networks are.
#[derive(Clone, Copy)]
pub enum InterfaceSide {
    /// Behind it: the firewall's own addresses, and what is behind the firewall.
    Behind,
    /// In front of it, as a local network is of an inner interface.
    InFront,
}

/// The interface at which a capture was taken, and what is given to tell the directions of its packets. Clauses see its name, its
/// addresses and the networks as lists.
#[derive(Drop)]
pub struct CapturePoint {
    ifname: IfName,
    macs: Vec<Mac>,
    networks: Vec<Prefix>,
    side: InterfaceSide,
}

impl Model for CapturePoint {
    ghost use Rattle.std.specs.Prelude.{◌≡◌, true};
    ghost use Rattle.pfs_addr_values.specs.Names.{is_name};
    ghost use Rattle.pfs_capture.specs.Points.{Point};

    ghost Value = { Point };

    ghost view = { λ p. record { ifname = p.ifname; macs = p.macs.items; networks = p.networks.items; side = p.side } };

    ghost invariant = { λ p. is_name 15 p.ifname ≡ true };
}

impl CapturePoint {
    /// The interface of this name, with its addresses on its link, and the networks on one side of it. Without addresses and
    /// networks only logs of pflog(4) and Linux cooked captures tell their directions.
    pub fn new(
        ifname: IfName,
        macs: Vec<Mac>,
        networks: Vec<Prefix>,
        side: InterfaceSide,
    ) -> CapturePoint
        requires { is_name 15 ifname ≡ true }
        ensures { result ≡ record { ifname = ifname; macs = macs.items; networks = networks.items; side = side } }
    {
        CapturePoint {
            ifname,
            macs,
            networks,
            side,
        }
    }

    /// Its name.
    pub fn ifname(&self) -> IfName
        ensures is { result ≡ self.now.ifname }
        ensures name { is_name 15 result ≡ true }
    {
        self.ifname
    }

    /// Its addresses on its link.
    pub fn macs(&self) -> &[Mac]
        ensures { result.now ≡ self.now.macs }
    {
        &self.macs
    }

    /// Whether an address is behind it.
    pub fn is_behind(&self, addr: Addr) -> bool
        ensures { result ≡ is_behind self.now addr }
    {
        let is_in = is_in_networks(&self.networks, addr);
        match self.side {
            InterfaceSide::Behind => is_in,
            InterfaceSide::InFront => !is_in,
        }
    }
}

/// The interface of a frame, among those of its capture: the only one, or the first of the name that the frame's block tells.
pub fn point_of(points: &[CapturePoint], name: Option<IfName>) -> Option<&CapturePoint>
    ensures { option_map (λ p. p.now) result ≡ point_of points.now name }
{
    match points {
        [only] => Some(only),
        _ => point_named(points, name?),
    }
}

/// The first interface of this name.
#[tactic(auto, using(crate::proofs::Naming::named_step))]
fn point_named(points: &[CapturePoint], name: IfName) -> Option<&CapturePoint>
    ensures { option_map (λ p. p.now) result ≡ point_named name points.now }
{
    for point in points {
        if point.ifname() == name {
            return Some(point);
        }
    }
    None
}

fn is_in_networks(networks: &[Prefix], addr: Addr) -> bool
    ensures { result ≡ is_in_networks networks.now addr }
{
    networks.iter().any(|prefix| prefix.contains(addr))
}
