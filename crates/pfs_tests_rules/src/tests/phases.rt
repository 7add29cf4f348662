//! Phases of connections by worked examples.

use pfs_addr_values::{Flags, Proto};
use pfs_conf::TimeoutName;
use pfs_tests_cases::{ACK, FIN_ACK, NONE, SYN, SYN_ACK, same};
use pfs_track::{Other, Phases, StatePhase, Tcp, Udp};

const RST_ACK: Flags = Flags { rst: true, ..ACK };

/// The timeout after some packets that follow the first, and whether the handshake completes at the last of them.
fn after_all<P: Phases>(packets: &[(bool, Flags)]) -> (TimeoutName, bool) {
    let mut phase = P::first();
    let mut completes = false;
    for (forward, flags) in packets {
        (phase, completes) = P::step(phase, *forward, *flags);
    }
    (P::slot(phase), completes)
}

const CONNECTION: &[(bool, Flags, TimeoutName, bool)] = &[
    (false, SYN_ACK, TimeoutName::TcpOpening, false),
    (true, ACK, TimeoutName::TcpEstablished, true),
    (true, FIN_ACK, TimeoutName::TcpFinwait, false),
    (false, FIN_ACK, TimeoutName::TcpFinwait, false),
    (true, ACK, TimeoutName::TcpClosed, false),
];

#[test]
fn a_tcp_connection_opens_and_closes(rt: HostRuntime) {
    let mut phase = StatePhase::first(false, Proto::Tcp);
    same!(rt; phase.slot(), TimeoutName::TcpFirst);
    let mut done = false;
    for &(forward, flags, slot, completes) in CONNECTION {
        let (after, now) = phase.step(forward, flags);
        done = done || now;
        same!(rt; (after.slot(), now), (slot, completes));
        same!(rt; after.done(), done);
        phase = after;
    }
}

const TCP: &[(&[(bool, Flags)], TimeoutName, bool)] = &[
    (
        &[(false, SYN_ACK), (true, FIN_ACK)],
        TimeoutName::TcpClosing,
        false,
    ),
    (
        &[(false, SYN_ACK), (true, RST_ACK)],
        TimeoutName::TcpClosed,
        true,
    ),
    (&[(true, ACK)], TimeoutName::TcpEstablished, true),
    (
        &[(true, ACK), (true, FIN_ACK)],
        TimeoutName::TcpFinwait,
        false,
    ),
    (&[(true, SYN)], TimeoutName::TcpOpening, false),
];

/// The third packet may reset and not close; one half of a connection that is seen alone opens it and closes it
#[test]
fn tcp_goes_through_its_timeouts(rt: HostRuntime) {
    for &(packets, slot, completes) in TCP {
        same!(rt; after_all::<Tcp>(packets), (slot, completes));
    }
}

const OTHERS: &[(&[(bool, Flags)], TimeoutName, TimeoutName)] = &[
    (&[], TimeoutName::UdpFirst, TimeoutName::OtherFirst),
    (
        &[(true, NONE)],
        TimeoutName::UdpSingle,
        TimeoutName::OtherSingle,
    ),
    (
        &[(false, NONE)],
        TimeoutName::UdpSingle,
        TimeoutName::OtherSingle,
    ),
    (
        &[(false, NONE), (true, NONE)],
        TimeoutName::UdpMultiple,
        TimeoutName::OtherMultiple,
    ),
];

#[test]
fn other_protocols_go_through_three_timeouts(rt: HostRuntime) {
    for &(packets, udp, other) in OTHERS {
        same!(rt; after_all::<Udp>(packets), (udp, false));
        same!(rt; after_all::<Other>(packets), (other, false));
    }
}

#[test]
fn a_phase_goes_by_its_protocol(rt: HostRuntime) {
    for (proto, first, last) in [
        (Proto::Udp, TimeoutName::UdpFirst, TimeoutName::UdpMultiple),
        (
            Proto::from_number(50),
            TimeoutName::OtherFirst,
            TimeoutName::OtherMultiple,
        ),
    ] {
        let phase = StatePhase::first(false, proto);
        same!(rt; phase.slot(), first);
        let (phase, _) = phase.step(false, ACK);
        let (phase, completes) = phase.step(true, ACK);
        same!(rt; (phase.slot(), completes, phase.done()), (last, false, false));
    }
}
