//! What a packet makes of a state, and the phase of the state that it makes.

ghost use Rattle.std.specs.Prelude.{◌≡◌};
ghost use Rattle.pfs_store_contract.specs.Admission.{new_phase};
ghost use Rattle.pfs_store_contract.specs.Touching.{completes_at, goes_forward, is_asking, is_taken, state_after_packet};
ghost use Rattle.pfs_store_records.specs.Records.{renewed};

use pfs_addr_values::Packet;
use pfs_conf_values::{Config, RuleNo};
use pfs_store_contract::is_answered;
use pfs_store_records::PackedState;
use pfs_track::StatePhase;

/// The phase of the state that a packet makes at a rule: where pf answers the packet itself, one in which pf leads the handshakes.
/// `cookie`: the packet brings a SYN cookie, so that pf's handshake with its maker is complete.
pub(crate) fn new_phase(config: &Config, rule: RuleNo, packet: &Packet, cookie: bool) -> StatePhase
    ensures { result ≡ new_phase config.now rule.0 packet.now cookie }
{
    let full = config.tracks_fully(rule);
    if cookie {
        StatePhase::of_cookie(full)
    } else if is_answered(config, rule, packet) {
        StatePhase::proxied(full)
    } else {
        StatePhase::first(full, packet.proto())
    }
}

/// What a packet of a state makes of it: its phase and the moment of its last packet, whether its handshake completes, whether pf takes
/// the packet itself, and whether it asks the other peer then.
#[derive(Clone, Copy)]
pub(crate) struct StateStep {
    pub(crate) phase: StatePhase,
    pub(crate) last: u64,
    pub(crate) completed: bool,
    pub(crate) taken: bool,
    pub(crate) asks: bool,
}

/// What a packet of a state does, as the record of the state has it.
pub(crate) fn stepped(kept: &PackedState, packet: &Packet, now: u64) -> StateStep
    ensures state { renewed result.phase result.last kept.now ≡ state_after_packet packet.now now kept.now }
    ensures completes { result.completed ≡ completes_at packet.now kept.now }
    ensures taken { result.taken ≡ is_taken packet.now kept.now }
    ensures asks { result.asks ≡ is_asking packet.now kept.now }
{
    let before = kept.phase();
    let forward = goes_forward(packet, kept);
    let taken = before.takes(forward, packet.flags());
    let asks = before.asks_peer(forward, packet.flags());
    let (phase, completed) = before.step(forward, packet.flags());
    StateStep {
        phase,
        last: if taken { kept.last() } else { now },
        completed,
        taken,
        asks,
    }
}

fn goes_forward(packet: &Packet, kept: &PackedState) -> bool
    ensures { result ≡ goes_forward packet.now kept.now }
{
    packet.dir() == kept.dir()
}
