//! What the three kinds of protocols have in common: phases, and the packets that lead from one to the next.

ghost use Rattle.std.specs.Prelude.{◌≡◌, ℕ, Bool, false};
ghost use Rattle.pfs_addr_values.specs.declared.flag_sets.Flags.{Flags};
ghost use Rattle.pfs_conf_values.specs.declared.timeouts.TimeoutName.{TimeoutName};
ghost use Rattle.pfs_track.specs.Phases.{NeverFalls, CompletesOnce, StaysComplete};
ghost use Rattle.pfs_track.specs.declared.datagrams.Stage.{Stage};

use crate::datagrams::{DatagramPhase, Stage};
use crate::tcp_phases::TcpPhase;
use pfs_addr_values::Flags;
use pfs_conf_values::TimeoutName;

/// A protocol whose connections go through phases.
///
/// A packet goes `forward` where its direction, in or out, is that of the packet that made the state; its sender is then
/// the maker, else the other peer. Two laws are kept: no packet lowers a rank of a peer, and a handshake completes at
/// most once.
pub trait Phases {
    /// What is kept of a connection: how far its two peers have come, its current timeout, and whether its handshake
    /// has completed.
    type Phase: Copy;

    // the phase of a new connection
    ghost first: { Self.Phase };

    // the phase after a packet, and whether the handshake completes at it
    ghost after: { Self.Phase → Bool → Flags → Self.Phase };

    ghost completes: { Self.Phase → Bool → Flags → Bool };

    // the current timeout
    ghost timeout: { Self.Phase → TimeoutName };

    // the ranks of the two peers, as numbers in their order
    ghost maker_rank: { Self.Phase → ℕ };

    ghost other_rank: { Self.Phase → ℕ };

    // whether the handshake has completed
    ghost is_complete: { Self.Phase → Bool };

    /// The phase of a new connection. It takes no memory.
    fn first() -> Self::Phase
        ensures { result ≡ first };

    /// The phase after a later packet, and whether the handshake completes at it. It takes no memory.
    fn step(phase: Self::Phase, forward: bool, flags: Flags) -> (Self::Phase, bool)
        ensures phase { result.0 ≡ after phase forward flags }
        ensures completes { result.1 ≡ completes phase forward flags };

    /// The timeout whose value is the connection's lifetime. It takes no memory.
    fn slot(phase: Self::Phase) -> TimeoutName
        ensures { result ≡ timeout phase };

    // laws: no rank falls
    ghost maker_never_falls: { NeverFalls maker_rank after };

    ghost other_never_falls: { NeverFalls other_rank after };

    // and a handshake that has not completed at first completes once at most
    ghost begins_incomplete: { is_complete first ≡ false };

    ghost completes_once: { CompletesOnce is_complete after completes };

    ghost stays_complete: { StaysComplete is_complete after };
}

/// TCP, whose connections begin with a handshake, by the table of sloppy states.
#[derive(Debug, Clone, Copy, PartialEq, Eq)]
pub struct Tcp;

/// TCP by OpenBSD's table of states that are tracked fully: every packet counts as within the windows.
#[derive(Debug, Clone, Copy, PartialEq, Eq)]
pub struct FullTcp;

/// UDP.
#[derive(Debug, Clone, Copy, PartialEq, Eq)]
pub struct Udp;

/// Protocols other than TCP and UDP.
#[derive(Debug, Clone, Copy, PartialEq, Eq)]
pub struct Other;

impl Phases for Tcp {
    type Phase = TcpPhase;

    ghost use Rattle.std.specs.Prelude.{false, refl};
    ghost use Rattle.pfs_track.specs.TcpPhases.{first_tcp, tcp_step, tcp_completes};
    ghost use Rattle.pfs_track.specs.PhaseLaws.{tcp_step-maker, tcp_step-other, tcp_completes-once, tcp_step-complete};
    ghost use Rattle.pfs_track.specs.TcpRanks.{rank_number};

    ghost first = { first_tcp };

    ghost after = { tcp_step false };

    ghost completes = { tcp_completes false };

    ghost timeout = { λ p. p.timeout };

    ghost maker_rank = { λ p. rank_number p.maker };

    ghost other_rank = { λ p. rank_number p.other };

    ghost is_complete = { λ p. p.complete };

    fn first() -> TcpPhase {
        TcpPhase::new()
    }

    fn step(phase: TcpPhase, forward: bool, flags: Flags) -> (TcpPhase, bool) {
        phase.step(false, forward, flags)
    }

    fn slot(phase: TcpPhase) -> TimeoutName {
        phase.timeout()
    }

    ghost maker_never_falls = { tcp_step-maker false };

    ghost other_never_falls = { tcp_step-other false };

    ghost begins_incomplete = { refl };

    ghost completes_once = { tcp_completes-once false };

    ghost stays_complete = { tcp_step-complete false };
}

impl Phases for FullTcp {
    type Phase = TcpPhase;

    ghost use Rattle.std.specs.Prelude.{true, refl};
    ghost use Rattle.pfs_track.specs.TcpPhases.{first_tcp, tcp_step, tcp_completes};
    ghost use Rattle.pfs_track.specs.PhaseLaws.{tcp_step-maker, tcp_step-other, tcp_completes-once, tcp_step-complete};
    ghost use Rattle.pfs_track.specs.TcpRanks.{rank_number};

    ghost first = { first_tcp };

    ghost after = { tcp_step true };

    ghost completes = { tcp_completes true };

    ghost timeout = { λ p. p.timeout };

    ghost maker_rank = { λ p. rank_number p.maker };

    ghost other_rank = { λ p. rank_number p.other };

    ghost is_complete = { λ p. p.complete };

    fn first() -> TcpPhase {
        TcpPhase::new()
    }

    fn step(phase: TcpPhase, forward: bool, flags: Flags) -> (TcpPhase, bool) {
        phase.step(true, forward, flags)
    }

    fn slot(phase: TcpPhase) -> TimeoutName {
        phase.timeout()
    }

    ghost maker_never_falls = { tcp_step-maker true };

    ghost other_never_falls = { tcp_step-other true };

    ghost begins_incomplete = { refl };

    ghost completes_once = { tcp_completes-once true };

    ghost stays_complete = { tcp_step-complete true };
}

/// A protocol without a handshake: its phases are those of datagrams, and its timeouts its own.
pub(crate) trait Datagrams {
    // the timeout of each stage
    ghost timeout_at: { Stage → TimeoutName };

    /// The timeout that holds at a stage.
    fn timeout_at(stage: Stage) -> TimeoutName
        ensures { result ≡ timeout_at stage };
}

impl Datagrams for Udp {
    ghost use Rattle.pfs_track.specs.Datagrams.{udp_slot};

    ghost timeout_at = { udp_slot };

    fn timeout_at(stage: Stage) -> TimeoutName {
        match stage {
            Stage::First => TimeoutName::UdpFirst,
            Stage::Single => TimeoutName::UdpSingle,
            Stage::Multiple => TimeoutName::UdpMultiple,
        }
    }
}

impl Datagrams for Other {
    ghost use Rattle.pfs_track.specs.Datagrams.{other_slot};

    ghost timeout_at = { other_slot };

    fn timeout_at(stage: Stage) -> TimeoutName {
        match stage {
            Stage::First => TimeoutName::OtherFirst,
            Stage::Single => TimeoutName::OtherSingle,
            Stage::Multiple => TimeoutName::OtherMultiple,
        }
    }
}

impl<P: Datagrams> Phases for P {
    type Phase = DatagramPhase;

    ghost use Rattle.std.specs.Prelude.{false, refl};
    ghost use Rattle.std.proofs.lemmas.Bool.{false≢true};
    ghost use Rattle.pfs_track.specs.Datagrams.{first_datagram, udp_step};
    ghost use Rattle.pfs_track.specs.PhaseLaws.{traffic_number, udp_step-maker, udp_step-other};

    ghost first = { first_datagram };

    ghost after = { λ p forward flags. udp_step p forward };

    ghost completes = { λ p forward flags. false };

    ghost timeout = { λ p. P.timeout_at p.stage };

    ghost maker_rank = { λ p. traffic_number p.maker };

    ghost other_rank = { λ p. traffic_number p.other };

    ghost is_complete = { λ p. false };

    fn first() -> DatagramPhase {
        DatagramPhase::new()
    }

    fn step(phase: DatagramPhase, forward: bool, _flags: Flags) -> (DatagramPhase, bool) {
        (phase.step(forward), false)
    }

    fn slot(phase: DatagramPhase) -> TimeoutName {
        P::timeout_at(phase.stage())
    }

    ghost maker_never_falls = { λ p forward flags. udp_step-maker p forward };

    ghost other_never_falls = { λ p forward flags. udp_step-other p forward };

    ghost begins_incomplete = { refl };

    ghost completes_once = { λ p forward flags h. absurd (false≢true h) };

    ghost stays_complete = { λ p forward flags h. h };
}
