//! The events of a record: where its packet is asked first, and where it leaves.

ghost use Rattle.std.specs.Prelude.{◌≡◌, ◌↔◌, All, IsTrue, true};
ghost use Rattle.pfs_engine_machine.specs.Guards.{asked};
ghost use Rattle.pfs_engine_machine.specs.MachineInvariants.{IsPlain, Rise};
ghost use Rattle.pfs_engine_machine.specs.Ways.{first_packet, onward, leaving, leaves_by, second_packet};
ghost use Rattle.pfs_engine.specs.Ways.{HasRoutes};

use crate::contents::EngineContents;
use pfs_addr_values::{Addr, Dir, Flags, IfName, Packet};
use pfs_conf_values::Config;
use pfs_engine_machine::{Arrival, Outcome};
use pfs_eval::interface_to;
use pfs_store_contract::Store;

/// Whether a packet may be asked at a second interface: where there are routes.
pub(crate) fn may_go_on(config: &Config) -> bool
    ensures { IsTrue result ↔ HasRoutes config.now }
{
    !config.routes().is_empty()
}

/// The packet of a record, where it is asked first, by what is held at its moment.
pub(crate) fn first_packet<S: Store>(held: &EngineContents<S>, packet: &Packet) -> Packet
    requires numbers { Rise 0 held.now.held.world.states held.now.held.world.made }
    requires plain { All (IsPlain held.now.config) held.now.held.world.states }
    ensures { result ≡ first_packet held.now.config held.now.held.world packet.now }
{
    match packet.dir() {
        Dir::In => *packet,
        Dir::Out => {
            let inside = held.inside(packet);
            match leaves_by(&held.config, inside.src()) {
                Some(interface) => inside.in_by(interface),
                None => *packet,
            }
        }
    }
}

/// The packet of a record where it leaves, or pf's own SYN in its place, by what came of the first event, and as it goes on from there; none
/// where that was the end of its way, or where it is for the firewall itself.
pub(crate) fn second_packet(
    config: &Config,
    packet: &Packet,
    first: &Packet,
    outcome: &Outcome,
    going: &Option<Packet>,
) -> Option<Packet>
    ensures { result ≡ second_packet config.now outcome.now going.now (Arrival.Packet packet.now) (Arrival.Packet first.now) }
{
    let leaving = leaving(config, packet, first, going.as_ref()?)?;
    onward(outcome, &leaving)
}

/// The packet of a record as it leaves, which was asked first as another, and goes on so from there.
fn leaving(config: &Config, packet: &Packet, first: &Packet, going: &Packet) -> Option<Packet>
    ensures { result ≡ leaving config.now packet.now first.now going.now }
{
    match (packet.dir(), first.dir()) {
        (Dir::In, _) => {
            let interface = leaves_by(config, going.dst())?;
            Some(going.through(interface))
        }
        (Dir::Out, Dir::In) => Some(going.through(packet.ifname())),
        (Dir::Out, Dir::Out) => None,
    }
}

/// The interface by which packets to an address leave.
fn leaves_by(config: &Config, addr: Addr) -> Option<IfName>
    ensures { result ≡ leaves_by config.now addr }
{
    interface_to(config.routes(), addr)
}

/// What goes on of a packet that leaves, by what came of it first: itself, pf's own SYN, or nothing.
fn onward(first: &Outcome, packet: &Packet) -> Option<Packet>
    ensures { result ≡ onward first.now packet.now }
{
    match first {
        Outcome::New(_) | Outcome::State(_) | Outcome::Pass(_) => Some(*packet),
        Outcome::Asking(_) => Some(own_syn(packet)),
        Outcome::Answered(_) if packet.flags().ack => Some(own_syn(packet)),
        _ => None,
    }
}

/// A SYN of pf's own in the place of a packet.
fn own_syn(packet: &Packet) -> Packet
    ensures { result ≡ asked packet.now true }
{
    packet.with_flags(Flags {
        syn: true,
        ..Flags::default()
    })
}
