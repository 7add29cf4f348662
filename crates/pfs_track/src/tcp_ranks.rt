//! The ranks of the two peers of a TCP connection, and what the flags of one packet make of them.

ghost use Rattle.std.specs.Prelude.{◌≡◌};
ghost use Rattle.pfs_track.specs.TcpRanks.{is_below, raised_rank, ends_after_ack, ends_after_packet, peers_after, tcp_timeout};

use pfs_addr_values::Flags;
use pfs_conf_values::TimeoutName;

/// How far a peer of a TCP connection has come: the states of RFC 9293, section 3.3.2, from the least rank to the
/// greatest. (the order is own to this profile)
#[derive(Debug, Clone, Copy, PartialEq, Eq, PartialOrd, Ord)]
pub(crate) enum TcpRank {
    /// `CLOSED`: no packet of this peer was seen.
    Closed,
    /// `LISTEN`.
    Listen,
    /// `SYN_SENT`: it has sent a SYN.
    SynSent,
    /// `SYN_RECEIVED`.
    SynReceived,
    /// `ESTABLISHED`: the other peer has acknowledged its SYN.
    Established,
    /// `CLOSE_WAIT`.
    CloseWait,
    /// `FIN_WAIT_1`.
    FinWait1,
    /// `CLOSING`: it has sent a FIN.
    Closing,
    /// `LAST_ACK`.
    LastAck,
    /// `FIN_WAIT_2`: the other peer has acknowledged its FIN.
    FinWait2,
    /// `TIME_WAIT`: the connection was reset.
    TimeWait,
}

/// The ranks of the two ends of a packet after it, and whether the handshake completes at it.
#[derive(Clone, Copy)]
pub(crate) struct RanksAfter {
    /// The rank of the peer that has sent the packet.
    pub sender: TcpRank,
    /// The rank of the peer to which it goes.
    pub receiver: TcpRank,
    /// Whether the handshake completes.
    pub completes: bool,
}

/// The ranks of the maker of a state and of the other peer after a packet, and whether the handshake completes at it.
#[derive(Clone, Copy)]
pub(crate) struct Peers {
    /// The rank of the peer that sent the packet that made the state.
    pub maker: TcpRank,
    /// The rank of the other peer.
    pub other: TcpRank,
    /// Whether the handshake completes.
    pub completes: bool,
}

/// What a packet makes of the ranks of the maker and the other peer. `full`: the state is tracked fully. `forward`: the
/// packet goes in the direction of the one that made the state, so its sender is the maker.
pub(crate) fn meet(full: bool, forward: bool, flags: Flags, maker: TcpRank, other: TcpRank) -> Peers
    ensures { result ≡ peers_after full forward flags maker other }
{
    if forward {
        let ends = act(full, forward, flags, maker, other);
        Peers {
            maker: ends.sender,
            other: ends.receiver,
            completes: ends.completes,
        }
    } else {
        let ends = act(full, forward, flags, other, maker);
        Peers {
            maker: ends.receiver,
            other: ends.sender,
            completes: ends.completes,
        }
    }
}

/// What a packet makes of the ranks of its sender and its receiver: SYN, or of a state that is tracked fully any packet,
/// acts first, then FIN, ACK and RST. `forward`: the packet goes in the direction of the one that made the state.
fn act(full: bool, forward: bool, flags: Flags, sender: TcpRank, receiver: TcpRank) -> RanksAfter
    ensures { result ≡ ends_after_packet full forward flags sender receiver }
{
    let sender = if full || flags.syn {
        sender.raised(TcpRank::SynSent)
    } else {
        sender
    };
    let sender = if flags.fin {
        sender.raised(TcpRank::Closing)
    } else {
        sender
    };
    let ends = if flags.ack {
        acknowledge(full, forward, sender, receiver)
    } else {
        RanksAfter {
            sender,
            receiver,
            completes: false,
        }
    };
    if flags.rst {
        RanksAfter {
            sender: TcpRank::TimeWait,
            receiver: TcpRank::TimeWait,
            completes: ends.completes,
        }
    } else {
        ends
    }
}

/// What an ACK does: the first line that applies.
fn acknowledge(full: bool, forward: bool, sender: TcpRank, receiver: TcpRank) -> RanksAfter
    ensures { result ≡ ends_after_ack full forward sender receiver }
{
    if receiver == TcpRank::SynSent {
        RanksAfter {
            sender,
            receiver: TcpRank::Established,
            completes: sender == TcpRank::Established,
        }
    } else if receiver == TcpRank::Closing {
        RanksAfter {
            sender,
            receiver: TcpRank::FinWait2,
            completes: false,
        }
    } else if full {
        RanksAfter {
            sender,
            receiver,
            completes: false,
        }
    } else if sender == TcpRank::SynSent && receiver.is_below(TcpRank::SynSent) {
        RanksAfter {
            sender: TcpRank::Established,
            receiver: TcpRank::Established,
            completes: true,
        }
    } else if sender == TcpRank::Closing && receiver == TcpRank::Established && forward {
        RanksAfter {
            sender,
            receiver: TcpRank::Closing,
            completes: false,
        }
    } else {
        RanksAfter {
            sender,
            receiver,
            completes: false,
        }
    }
}

/// The timeout of a connection whose peers have these ranks after its second packet or a later one.
pub(crate) fn timeout_of(maker: TcpRank, other: TcpRank) -> TimeoutName
    ensures { result ≡ tcp_timeout maker other }
{
    let (low, high) = if maker.is_below(other) {
        (maker, other)
    } else {
        (other, maker)
    };
    if !low.is_below(TcpRank::FinWait2) {
        TimeoutName::TcpClosed
    } else if !low.is_below(TcpRank::Closing) {
        TimeoutName::TcpFinwait
    } else if low.is_below(TcpRank::Established) {
        TimeoutName::TcpOpening
    } else if !high.is_below(TcpRank::Closing) {
        TimeoutName::TcpClosing
    } else {
        TimeoutName::TcpEstablished
    }
}

impl TcpRank {
    /// Whether the rank is below another.
    pub(crate) fn is_below(self, limit: TcpRank) -> bool
        ensures { result ≡ is_below self limit }
    {
        self < limit
    }

    /// The greater of the rank and another.
    fn raised(self, least: TcpRank) -> TcpRank
        ensures { result ≡ raised_rank self least }
    {
        if self.is_below(least) { least } else { self }
    }
}
