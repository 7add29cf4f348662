//! What the translation of a rule makes of a packet.

ghost use Rattle.std.specs.Prelude.{◌≡◌, ◌<◌, ◌^◌, Bool, IfSome, false, true, is_some, not, unwrap_or};
ghost use Rattle.std.specs.List.{find};
ghost use Rattle.pfs_addr_values.specs.Protocols.{has_ports};
ghost use Rattle.pfs_addr_values.specs.declared.packets.Dir.{Dir};
ghost use Rattle.pfs_addr_values.specs.declared.packets.FlowKey.{FlowKey};
ghost use Rattle.pfs_eval.specs.Translating.{free_port, is_behind_nat, is_taken_at, nat_by, nat_port, nat_range, ports_in, rdr_by, rdr_port, sent_from, sent_to, translated};

use pfs_addr_values::{Addr, Dir, Endpoint, FlowKey, Packet};
use pfs_conf_values::{NatPorts, NatTo, Ports, RdrTo, Translation};

/// The keys of the states, by which `nat-to` finds a port that none of them has. (pf.conf(5), TRANSLATION, "nat-to")
pub trait Sides {
    // whether a state has this key, on the side that is made of a packet of this direction
    ghost taken: { Self → Dir → FlowKey → Bool };

    /// Whether a state has this key, on the side that is made of a packet of this direction: inside of one that comes in, on the wire
    /// of one that goes out. It takes no memory.
    fn is_taken(&self, dir: Dir, key: &FlowKey) -> bool
        ensures { result ≡ taken self.now dir key.now };
}

/// No state has any key.
#[derive(Debug, Clone, Copy)]
pub struct NoSides;

impl Sides for NoSides {
    ghost taken = { λ sides dir key. false };

    fn is_taken(&self, _dir: Dir, _key: &FlowKey) -> bool {
        false
    }
}

/// Translates a packet. The answer is whether it goes on: where `nat-to` finds no port it is lost, and stays as it was. It takes no
/// memory.
#[inline(always)]
#[tactic(auto, using(crate::proofs::Translations::untranslated))]
pub fn translate<S: Sides>(translation: &Translation, sides: &S, packet: &mut Packet) -> bool
    ensures goes_on { result ≡ is_some (translated (S.taken sides.now) translation.now packet.old) }
    ensures packet { packet.new ≡ unwrap_or (translated (S.taken sides.now) translation.now packet.old) packet.old }
{
    !translation.translates() || become_translated(translation, sides, packet)
}

/// Makes a packet the one behind a translation. The answer is whether it goes on.
// Not where each packet is decided on: few rules translate.
#[cold]
#[inline(never)]
fn become_translated<S: Sides>(translation: &Translation, sides: &S, packet: &mut Packet) -> bool
    ensures goes_on { result ≡ is_some (translated (S.taken sides.now) translation.now packet.old) }
    ensures packet { packet.new ≡ unwrap_or (translated (S.taken sides.now) translation.now packet.old) packet.old }
{
    match translated(translation, sides, packet) {
        Some(made) => {
            *packet = made;
            true
        }
        None => false,
    }
}

/// The packet behind a translation: its source first. None where it is lost.
#[tactic(auto, unfolding(crate::specs::Translating::translated))]
fn translated<S: Sides>(translation: &Translation, sides: &S, packet: &Packet) -> Option<Packet>
    ensures { result ≡ translated (S.taken sides.now) translation.now packet.now }
{
    match nat(&translation.nat_to, sides, packet) {
        Some(sent) => Some(rdr(&translation.rdr_to, &sent)),
        None => None,
    }
}

/// The packet behind `nat-to`.
#[tactic(auto, unfolding(crate::specs::Translating::nat_by))]
fn nat<S: Sides>(nat_to: &Option<NatTo>, sides: &S, packet: &Packet) -> Option<Packet>
    ensures { result ≡ nat_by (S.taken sides.now) nat_to.now packet.now }
{
    let Some(nat_to) = nat_to else {
        return Some(*packet);
    };
    if is_behind_nat(nat_to, packet) {
        return Some(*packet);
    }
    match nat_port(nat_to, sides, packet) {
        Some(port) => Some(sent_from(packet, nat_to.addr, port)),
        None => None,
    }
}

/// Whether a packet is seen behind the translation, as a capture shows it.
fn is_behind_nat(nat_to: &NatTo, packet: &Packet) -> bool
    ensures { result ≡ is_behind_nat nat_to.now packet.now }
{
    packet.came_in_on().is_none() && packet.src() == nat_to.addr
}

/// The port of the source behind `nat-to`.
fn nat_port<S: Sides>(nat_to: &NatTo, sides: &S, packet: &Packet) -> Option<u16>
    ensures port { result ≡ nat_port (S.taken sides.now) nat_to.now packet.now }
    ensures portless { has_ports packet.now.proto ≡ false → IfSome result (λ p. p ≡ 0) }
{
    if !packet.proto().has_ports() {
        return Some(packet.sport());
    }
    match nat_range(nat_to.ports) {
        Some(ports) => free_port(sides, packet, nat_to.addr, ports),
        None => Some(packet.sport()),
    }
}

fn nat_range(ports: NatPorts) -> Option<Ports>
    ensures { result ≡ nat_range ports }
{
    match ports {
        NatPorts::Usual => Some(Ports {
            low: 50_001,
            high: 65_535,
        }),
        NatPorts::Given(ports) => Some(ports),
        NatPorts::Static => None,
    }
}

/// The least of these ports that is not taken.
fn free_port<S: Sides>(sides: &S, packet: &Packet, addr: Addr, ports: Ports) -> Option<u16>
    requires { has_ports packet.now.proto ≡ true }
    ensures { result ≡ find (λ port. not (is_taken_at (S.taken sides.now) packet.now addr port)) (ports_in ports) }
{
    for port in u32::from(ports.low)..u32::from(ports.high) + 1 {
        if !is_taken_at(sides, packet, addr, port as u16) {
            return Some(port as u16);
        }
    }
    None
}

fn is_taken_at<S: Sides>(sides: &S, packet: &Packet, addr: Addr, port: u16) -> bool
    requires { has_ports packet.now.proto ≡ true }
    ensures { result ≡ is_taken_at (S.taken sides.now) packet.now addr port }
{
    let key = FlowKey::of(&sent_from(packet, addr, port));
    sides.is_taken(packet.dir(), &key)
}

/// The packet behind `rdr-to`.
#[tactic(auto, unfolding(crate::specs::Translating::rdr_by))]
fn rdr(rdr_to: &Option<RdrTo>, packet: &Packet) -> Packet
    ensures { result ≡ rdr_by rdr_to.now packet.now }
{
    match rdr_to {
        Some(rdr_to) => sent_to(packet, rdr_to.addr, rdr_port(rdr_to, packet)),
        None => *packet,
    }
}

/// The port of the destination behind `rdr-to`.
fn rdr_port(rdr_to: &RdrTo, packet: &Packet) -> u16
    ensures port { result ≡ rdr_port rdr_to.now packet.now }
    ensures portless { has_ports packet.now.proto ≡ false → result ≡ 0 }
{
    if packet.proto().has_ports() {
        rdr_to.port.unwrap_or(packet.dport())
    } else {
        packet.dport()
    }
}

fn sent_from(packet: &Packet, addr: Addr, port: u16) -> Packet
    requires { has_ports packet.now.proto ≡ false → port ≡ 0 }
    ensures { result ≡ sent_from packet.now addr port }
{
    packet.with_source(Endpoint { addr, port })
}

fn sent_to(packet: &Packet, addr: Addr, port: u16) -> Packet
    requires { has_ports packet.now.proto ≡ false → port ≡ 0 }
    ensures { result ≡ sent_to packet.now addr port }
{
    packet.with_destination(Endpoint { addr, port })
}
