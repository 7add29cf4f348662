//! The phase of a TCP connection whose handshakes pf leads itself: first with the maker, then with the other peer.

ghost use Rattle.std.specs.Prelude.{◌≡◌, true};
ghost use Rattle.pfs_track.specs.Proxies.{cookie_proxy, first_proxy, proxy_asks, proxy_completes, proxy_takes};

use pfs_addr_values::Flags;

/// How far a connection has come whose handshakes pf leads. Until pf's handshake with the maker is complete, the maker is at
/// `PROXY_SRC`; then it is at `PROXY_DST`, until the other peer answers. (pf.conf(5), STATEFUL FILTERING, "synproxy state")
/// Its handshake counts for limits on connections, but for one that a SYN cookie completed.
#[derive(Debug, Clone, Copy, PartialEq, Eq)]
pub struct ProxyPhase {
    complete: bool,
    counts: bool,
    full: bool,
}

impl ProxyPhase {
    /// The phase of a new connection, whose SYN pf answers. `full`: its rule tracks TCP fully.
    pub(crate) fn new(full: bool) -> ProxyPhase
        ensures { result ≡ first_proxy full }
    {
        ProxyPhase {
            complete: false,
            counts: true,
            full,
        }
    }

    /// The phase of a new connection whose maker has brought a SYN cookie: at `PROXY_DST`. `full`: its rule tracks TCP fully.
    pub(crate) fn of_cookie(full: bool) -> ProxyPhase
        ensures { result ≡ cookie_proxy full }
    {
        ProxyPhase {
            complete: true,
            counts: false,
            full,
        }
    }

    /// Whether pf takes a packet itself, so that it goes no further: any until its handshake with the maker is complete; then the
    /// maker's, and the other peer's SYN with ACK. `forward`: the packet goes in the direction of the one that made the state.
    pub(crate) fn takes(self, forward: bool, flags: Flags) -> bool
        ensures { result ≡ proxy_takes self forward flags }
    {
        !self.complete || forward || (flags.syn && flags.ack)
    }

    /// Whether pf asks the other peer for a connection at a packet, by a SYN of its own: at the maker's packets, from the one on that
    /// completes its handshake with pf.
    pub(crate) fn asks(self, forward: bool, flags: Flags) -> bool
        ensures { result ≡ proxy_asks self forward flags }
    {
        forward && (self.complete || self.completes(forward, flags))
    }

    /// Whether pf's handshake with the maker completes at a packet: the maker's ACK, with none of SYN, FIN and RST.
    pub(crate) fn completes(self, forward: bool, flags: Flags) -> bool
        ensures { result ≡ proxy_completes self forward flags }
    {
        !self.complete && forward && flags.ack && !(flags.syn || flags.fin || flags.rst)
    }

    /// The phase at `PROXY_DST` by the maker's ACK.
    pub(crate) fn completed(self) -> ProxyPhase
        ensures { result ≡ record self { complete = true; counts = true } }
    {
        ProxyPhase {
            complete: true,
            counts: true,
            full: self.full,
        }
    }

    /// Whether pf's handshake with the maker is complete.
    pub(crate) fn is_complete(self) -> bool
        ensures { result ≡ self.complete }
    {
        self.complete
    }

    /// Whether its handshake counts for limits on connections.
    pub(crate) fn counts(self) -> bool
        ensures { result ≡ self.counts }
    {
        self.counts
    }

    /// Whether the connection is tracked fully once the other peer has answered.
    pub(crate) fn is_full(self) -> bool
        ensures { result ≡ self.full }
    {
        self.full
    }
}
