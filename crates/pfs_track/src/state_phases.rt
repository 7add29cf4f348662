//! The phase of a state, whatever its protocol.

ghost use Rattle.std.specs.Prelude.{◌≡◌, false};
ghost use Rattle.pfs_track.specs.TcpPhases.{joined_tcp, tcp_step};
ghost use Rattle.pfs_track.specs.declared.state_phases.StatePhase.TheVariants.{Proxied};
ghost use Rattle.pfs_track.specs.StatePhases.{NeverCounts, asks_peer, completes, cookie_phase, first_phase, has_closed, is_done, is_half_open, joined_phase, phase_after, proxied_phase, slot, takes, tracked};

use crate::datagrams::DatagramPhase;
use crate::protocols::{FullTcp, Other, Phases, Tcp, Udp};
use crate::proxies::ProxyPhase;
use crate::tcp_phases::TcpPhase;
use pfs_addr_values::{Flags, Proto};
use pfs_conf_values::TimeoutName;

/// The phase of a state: how far its connection has come, its current timeout, and whether its handshake has completed.
#[derive(Debug, Clone, Copy, PartialEq, Eq)]
pub enum StatePhase {
    /// Of TCP, by the table of sloppy states.
    Tcp(TcpPhase),
    /// Of TCP, tracked fully.
    FullTcp(TcpPhase),
    /// Of UDP.
    Udp(DatagramPhase),
    /// Of any other protocol.
    Other(DatagramPhase),
    /// Of TCP, while pf leads the handshakes itself.
    Proxied(ProxyPhase),
}

impl StatePhase {
    /// The phase of a new state, whatever the flags of its packet. `full`: its rule tracks TCP fully. It takes no memory.
    pub fn first(full: bool, proto: Proto) -> StatePhase
        ensures { result ≡ first_phase full proto }
    {
        match proto {
            Proto::Tcp if full => StatePhase::FullTcp(FullTcp::first()),
            Proto::Tcp => StatePhase::Tcp(Tcp::first()),
            Proto::Udp => StatePhase::Udp(Udp::first()),
            Proto::Other(_) => StatePhase::Other(Other::first()),
        }
    }

    /// The phase of a new state whose SYN pf answers itself. `full`: its rule tracks TCP fully. It takes no memory.
    /// (pf.conf(5), STATEFUL FILTERING, "synproxy state")
    pub fn proxied(full: bool) -> StatePhase
        ensures { result ≡ proxied_phase full }
    {
        StatePhase::Proxied(ProxyPhase::new(full))
    }

    /// The phase of a new state for the ACK that brings a SYN cookie: pf's handshake with the maker is complete, and its connection
    /// never counts for a limit on connections. `full`: its rule tracks TCP fully. It takes no memory.
    /// (pf.conf(5), OPTIONS, "set syncookies")
    pub fn of_cookie(full: bool) -> StatePhase
        ensures phase { result ≡ cookie_phase full }
        ensures never { NeverCounts result }
    {
        StatePhase::Proxied(ProxyPhase::of_cookie(full))
    }

    /// Whether pf takes a later packet itself, so that it goes no further: only where pf leads the handshakes. `forward`: the packet
    /// goes in the direction, in or out, of the one that made the state. It takes no memory.
    pub fn takes(self, forward: bool, flags: Flags) -> bool
        ensures { result ≡ takes self forward flags }
    {
        match self {
            StatePhase::Proxied(phase) => phase.takes(forward, flags),
            StatePhase::Tcp(_) | StatePhase::FullTcp(_) => false,
            StatePhase::Udp(_) | StatePhase::Other(_) => false,
        }
    }

    /// Whether pf asks the other peer for a connection at a later packet, by a SYN of its own: only where pf leads the handshakes, at
    /// the maker's packets, from the one on that completes pf's handshake with the maker. `forward`: the packet goes in the direction,
    /// in or out, of the one that made the state. It takes no memory. (pf.conf(5), STATEFUL FILTERING, "synproxy state")
    pub fn asks_peer(self, forward: bool, flags: Flags) -> bool
        ensures { result ≡ asks_peer self forward flags }
    {
        match self {
            StatePhase::Proxied(phase) => phase.asks(forward, flags),
            StatePhase::Tcp(_) | StatePhase::FullTcp(_) => false,
            StatePhase::Udp(_) | StatePhase::Other(_) => false,
        }
    }

    /// The phase after a later packet, and whether the handshake completes at it. `forward`: the packet goes in the
    /// direction, in or out, of the one that made the state. It takes no memory.
    pub fn step(self, forward: bool, flags: Flags) -> (StatePhase, bool)
        ensures phase { result.0 ≡ phase_after self forward flags }
        ensures completes { result.1 ≡ completes self forward flags }
    {
        match self {
            StatePhase::Tcp(phase) => {
                let (after, completes) = Tcp::step(phase, forward, flags);
                (StatePhase::Tcp(after), completes)
            }
            StatePhase::FullTcp(phase) => {
                let (after, completes) = FullTcp::step(phase, forward, flags);
                (StatePhase::FullTcp(after), completes)
            }
            StatePhase::Udp(phase) => {
                let (after, completes) = Udp::step(phase, forward, flags);
                (StatePhase::Udp(after), completes)
            }
            StatePhase::Other(phase) => {
                let (after, completes) = Other::step(phase, forward, flags);
                (StatePhase::Other(after), completes)
            }
            StatePhase::Proxied(phase) => {
                let completes = phase.completes(forward, flags);
                (after_proxied(phase, forward, flags), completes)
            }
        }
    }

    /// The timeout whose value is the lifetime of the state. It takes no memory.
    pub fn slot(self) -> TimeoutName
        ensures { result ≡ slot self }
    {
        match self {
            StatePhase::Tcp(phase) => Tcp::slot(phase),
            StatePhase::FullTcp(phase) => FullTcp::slot(phase),
            StatePhase::Udp(phase) => Udp::slot(phase),
            StatePhase::Other(phase) => Other::slot(phase),
            StatePhase::Proxied(_) => TimeoutName::TcpFirst,
        }
    }

    /// Whether the handshake has completed, and counts for limits on connections; only TCP has one. It takes no memory.
    pub fn done(self) -> bool
        ensures { result ≡ is_done self }
    {
        match self {
            StatePhase::Tcp(phase) | StatePhase::FullTcp(phase) => phase.is_complete(),
            StatePhase::Proxied(phase) => phase.is_complete() && phase.counts(),
            StatePhase::Udp(_) | StatePhase::Other(_) => false,
        }
    }

    /// Whether the connection is half open: of TCP, its maker above `CLOSED` and below `ESTABLISHED`; never while pf leads the
    /// handshakes. It takes no memory. (pf.conf(5), OPTIONS, "set syncookies"; the ranks are own)
    pub fn is_half_open(self) -> bool
        ensures { result ≡ is_half_open self }
    {
        match self {
            StatePhase::Tcp(phase) | StatePhase::FullTcp(phase) => phase.is_half_open(),
            StatePhase::Udp(_) | StatePhase::Other(_) | StatePhase::Proxied(_) => false,
        }
    }

    /// Whether both peers have closed the connection, or it was reset; only TCP tells. It takes no memory.
    /// (RFC 9293, section 3.6)
    pub fn has_closed(self) -> bool
        ensures { result ≡ has_closed self }
    {
        match self {
            StatePhase::Tcp(phase) | StatePhase::FullTcp(phase) => phase.has_closed(),
            StatePhase::Udp(_) | StatePhase::Other(_) | StatePhase::Proxied(_) => false,
        }
    }
}

/// The phase after a later packet of a connection whose handshakes pf leads: one of the other peer, once the maker's is complete,
/// joins both.
fn after_proxied(phase: ProxyPhase, forward: bool, flags: Flags) -> StatePhase
    ensures { result ≡ phase_after (Proxied phase) forward flags }
{
    if phase.is_complete() && !forward {
        joined(phase.is_full(), phase.counts(), flags)
    } else if phase.completes(forward, flags) {
        StatePhase::Proxied(phase.completed())
    } else {
        StatePhase::Proxied(phase)
    }
}

/// The phase of a connection that a packet of the other peer has joined. `full`: it is tracked fully. `counts`: its handshake counts.
fn joined(full: bool, counts: bool, flags: Flags) -> StatePhase
    ensures { result ≡ joined_phase full counts flags }
{
    if flags.syn && flags.ack {
        tracked(full, TcpPhase::joined(counts))
    } else {
        tracked(full, replied(full, counts, flags))
    }
}

/// The phase after a packet of the other peer, where both peers were at `ESTABLISHED`. `full`: it is tracked fully. `counts`: its
/// handshake counts.
fn replied(full: bool, counts: bool, flags: Flags) -> TcpPhase
    ensures { result ≡ tcp_step full (joined_tcp counts) false flags }
{
    let (phase, _) = TcpPhase::joined(counts).step(full, false, flags);
    phase
}

/// The phase of a connection of TCP. `full`: it is tracked fully.
fn tracked(full: bool, phase: TcpPhase) -> StatePhase
    ensures { result ≡ tracked full phase }
{
    if full {
        StatePhase::FullTcp(phase)
    } else {
        StatePhase::Tcp(phase)
    }
}
