//! The phase of traffic without a handshake: UDP, and protocols other than TCP and UDP.

ghost use Rattle.std.specs.Prelude.{◌≡◌};
ghost use Rattle.pfs_track.specs.Datagrams.{once_sent, once_answered, stage_of, first_datagram, udp_step};

/// What was seen of a peer's traffic. (pf.conf(5), OPTIONS, "udp.single" and "udp.multiple")
#[derive(Debug, Clone, Copy, PartialEq, Eq)]
pub(crate) enum Traffic {
    /// `NONE`: it has sent nothing.
    Silent,
    /// `SINGLE`: it has sent a packet.
    Single,
    /// `MULTIPLE`: it has sent a packet, and after that the other peer has.
    Multiple,
}

/// Which of a protocol's timeouts holds. (pf.conf(5), OPTIONS, "udp.first", "udp.single" and "udp.multiple")
#[derive(Debug, Clone, Copy, PartialEq, Eq)]
pub(crate) enum Stage {
    /// `first`: after the first packet.
    First,
    /// `single`: after a later one, until both peers are at `MULTIPLE`.
    Single,
    /// `multiple`: from then on.
    Multiple,
}

/// How far traffic without a handshake has come: what was seen of its two peers, and which timeout holds.
#[derive(Debug, Clone, Copy, PartialEq, Eq)]
pub struct DatagramPhase {
    maker: Traffic,
    other: Traffic,
    stage: Stage,
}

impl DatagramPhase {
    /// The phase of the packet that makes a state.
    pub(crate) fn new() -> DatagramPhase
        ensures { result ≡ first_datagram }
    {
        DatagramPhase {
            maker: Traffic::Single,
            other: Traffic::Silent,
            stage: Stage::First,
        }
    }

    /// The phase after a later packet. `forward`: the packet goes in the direction of the one that made the state.
    pub(crate) fn step(self, forward: bool) -> DatagramPhase
        ensures { result ≡ udp_step self forward }
    {
        let (maker, other) = if forward {
            (self.maker.sent(), self.other.answered())
        } else {
            (self.maker.answered(), self.other.sent())
        };
        DatagramPhase {
            maker,
            other,
            stage: Stage::of(maker, other),
        }
    }

    /// Which of the protocol's timeouts holds.
    pub(crate) fn stage(self) -> Stage
        ensures { result ≡ self.stage }
    {
        self.stage
    }
}

impl Stage {
    /// After a later packet that leaves the peers so.
    fn of(maker: Traffic, other: Traffic) -> Stage
        ensures { result ≡ stage_of maker other }
    {
        match (maker, other) {
            (Traffic::Multiple, Traffic::Multiple) => Stage::Multiple,
            _ => Stage::Single,
        }
    }
}

impl Traffic {
    /// After a packet of this peer.
    fn sent(self) -> Traffic
        ensures { result ≡ once_sent self }
    {
        match self {
            Traffic::Silent => Traffic::Single,
            seen => seen,
        }
    }

    /// After a packet of the other peer.
    fn answered(self) -> Traffic
        ensures { result ≡ once_answered self }
    {
        match self {
            Traffic::Single => Traffic::Multiple,
            seen => seen,
        }
    }
}
