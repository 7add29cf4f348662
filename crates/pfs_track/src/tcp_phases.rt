//! The phase of a TCP connection.

ghost use Rattle.std.specs.Prelude.{◌≡◌, true};
ghost use Rattle.pfs_track.specs.TcpRanks.{IsEstablished};

use crate::tcp_ranks::{TcpRank, meet, timeout_of};
use pfs_addr_values::Flags;
use pfs_conf_values::TimeoutName;

/// How far a TCP connection has come: the ranks of its two peers, its current timeout, and whether its handshake has
/// completed; never where a SYN cookie completed it, since that one does not count. Where it has, both ranks are at least
/// `ESTABLISHED`.
#[derive(Debug, Clone, Copy, PartialEq, Eq)]
pub struct TcpPhase {
    maker: TcpRank,
    other: TcpRank,
    timeout: TimeoutName,
    complete: bool,
    ghost established: { complete ≡ true → IsEstablished maker × IsEstablished other },
}

impl TcpPhase {
    ghost use Rattle.pfs_track.specs.TcpPhases.{first_tcp, joined_tcp, tcp_completes, tcp_has_closed, tcp_is_half_open, tcp_step};

    /// The phase of a new connection, whatever the flags of its packet.
    pub(crate) fn new() -> TcpPhase
        ensures { result ≡ first_tcp }
    {
        TcpPhase {
            maker: TcpRank::SynSent,
            other: TcpRank::Closed,
            timeout: TimeoutName::TcpFirst,
            complete: false,
        }
    }

    /// The phase of a connection both of whose handshakes pf has led. `counts`: the maker's counts for limits on connections.
    pub(crate) fn joined(counts: bool) -> TcpPhase
        ensures { result ≡ joined_tcp counts }
    {
        TcpPhase {
            maker: TcpRank::Established,
            other: TcpRank::Established,
            timeout: TimeoutName::TcpFirst,
            complete: counts,
        }
    }

    /// The phase after a later packet, and whether the handshake completes at it. `full`: the state is tracked fully.
    /// `forward`: the packet goes in the direction of the one that made the state.
    pub(crate) fn step(self, full: bool, forward: bool, flags: Flags) -> (TcpPhase, bool)
        ensures phase { result.0 ≡ tcp_step full self forward flags }
        ensures completes { result.1 ≡ tcp_completes full self forward flags }
    {
        let after = meet(full, forward, flags, self.maker, self.other);
        let phase = TcpPhase {
            maker: after.maker,
            other: after.other,
            timeout: timeout_of(after.maker, after.other),
            complete: self.complete | after.completes,
        };
        (phase, after.completes)
    }

    /// The current timeout.
    pub(crate) fn timeout(self) -> TimeoutName
        ensures { result ≡ self.timeout }
    {
        self.timeout
    }

    /// Whether the maker is above `CLOSED` and below `ESTABLISHED`.
    pub(crate) fn is_half_open(self) -> bool
        ensures { result ≡ tcp_is_half_open self }
    {
        TcpRank::Closed.is_below(self.maker) && self.maker.is_below(TcpRank::Established)
    }

    /// Whether both peers have closed the connection, or it was reset.
    pub(crate) fn has_closed(self) -> bool
        ensures { result ≡ tcp_has_closed self }
    {
        !self.maker.is_below(TcpRank::FinWait2) && !self.other.is_below(TcpRank::FinWait2)
    }

    /// Whether the handshake has completed.
    pub(crate) fn is_complete(self) -> bool
        ensures { result ≡ self.complete }
    {
        self.complete
    }
}
