//! Walks every phase that a TCP connection can reach beside ranks that step by a table which is written anew here, and
//! compares what is seen of each.

use pfs_addr_values::{Flags, Proto};
use pfs_conf::TimeoutName;
use pfs_tests_cases::same;
use pfs_track::StatePhase;
use std::test::Fail;

/// A phase with its ranks as numbers: CLOSED 0, SYN_SENT 2, ESTABLISHED 4, CLOSING 7, FIN_WAIT_2 9, TIME_WAIT 10.
#[derive(Clone, Copy, PartialEq, Eq)]
struct Seen {
    maker: u8,
    other: u8,
    timeout: TimeoutName,
    complete: bool,
}

/// The ranges of the ranks of an ACK's sender and of its receiver in which it does something.
type Ranks = ((u8, u8), (u8, u8));

/// What an ACK does: in which ranks, whether backward too, the ranks that it gives its sender and its receiver, where a rank that
/// is not given stays, and whether it completes a handshake.
type TcpRow = (Ranks, bool, (Option<u8>, Option<u8>), bool);

const ACK: [TcpRow; 5] = [
    (((4, 4), (2, 2)), true, (None, Some(4)), true),
    (((0, 10), (2, 2)), true, (None, Some(4)), false),
    (((0, 10), (7, 7)), true, (None, Some(9)), false),
    (((2, 2), (0, 1)), true, (Some(4), Some(4)), true),
    (((7, 7), (4, 4)), false, (None, Some(7)), false),
];

/// The timeout by the ranges of the lower and of the higher rank; the first that fits.
const TIMEOUTS: [((u8, u8), (u8, u8), TimeoutName); 5] = [
    ((9, 10), (9, 10), TimeoutName::TcpClosed),
    ((7, 10), (7, 10), TimeoutName::TcpFinwait),
    ((0, 3), (0, 10), TimeoutName::TcpOpening),
    ((4, 10), (7, 10), TimeoutName::TcpClosing),
    ((4, 10), (4, 10), TimeoutName::TcpEstablished),
];

fn is_within(range: (u8, u8), rank: u8) -> bool {
    range.0 <= rank && rank <= range.1
}

fn after_ack(forward: bool, sender: u8, receiver: u8) -> (u8, u8, bool) {
    for &(ranks, backward_too, gives, completes) in &ACK {
        if is_within(ranks.0, sender) && is_within(ranks.1, receiver) && (forward || backward_too) {
            return (
                gives.0.unwrap_or(sender),
                gives.1.unwrap_or(receiver),
                completes,
            );
        }
    }
    (sender, receiver, false)
}

fn timeout_of(maker: u8, other: u8) -> Option<TimeoutName> {
    for (low, high, name) in &TIMEOUTS {
        if is_within(*low, maker.min(other)) && is_within(*high, maker.max(other)) {
            return Some(*name);
        }
    }
    None
}

fn expected(seen: Seen, forward: bool, flags: Flags) -> Option<(Seen, bool)> {
    let (mut sender, mut receiver) = if forward {
        (seen.maker, seen.other)
    } else {
        (seen.other, seen.maker)
    };
    if flags.syn {
        sender = sender.max(2);
    }
    if flags.fin {
        sender = sender.max(7);
    }
    let mut completes = false;
    if flags.ack {
        (sender, receiver, completes) = after_ack(forward, sender, receiver);
    }
    if flags.rst {
        sender = 10;
        receiver = 10;
    }
    let (maker, other) = if forward {
        (sender, receiver)
    } else {
        (receiver, sender)
    };
    let timeout = timeout_of(maker, other)?;
    let complete = seen.complete || completes;
    let after = Seen {
        maker,
        other,
        timeout,
        complete,
    };
    Some((after, completes))
}

/// Sixteen sets of SYN, FIN, ACK and RST; the flags that do not matter are set in half of them.
fn flags_of(number: u8) -> Flags {
    Flags {
        syn: number & 1 != 0,
        fin: number & 2 != 0,
        ack: number & 4 != 0,
        rst: number & 8 != 0,
        psh: number & 5 != 0,
        urg: number & 6 != 0,
        ece: number & 9 != 0,
        cwr: number & 3 != 0,
    }
}

/// A phase, and the ranks that it has.
type PhasePair = (StatePhase, Seen);

/// Whether each of the phases is this one just where its ranks are
fn is_one_to_one(reached: &[PhasePair], pair: &PhasePair) -> bool {
    for (phase, seen) in reached {
        if (*phase == pair.0) != (*seen == pair.1) {
            return false;
        }
    }
    true
}

#[test]
fn every_reachable_phase_steps_by_the_table(rt: HostRuntime) -> Result<(), Fail> {
    let closed = Seen {
        maker: 2,
        other: 0,
        timeout: TimeoutName::TcpFirst,
        complete: false,
    };
    let first = StatePhase::first(false, Proto::Tcp);
    let mut reached: Vec<PhasePair> = Vec::new(rt.alloc());
    reached.push((first, closed))?;
    same!(rt; (first.slot(), first.done()), (TimeoutName::TcpFirst, false));
    for place in 0..100 {
        let Some(pair) = reached.get(place).copied() else {
            break;
        };
        let (phase, seen) = pair;
        for number in 0..32u8 {
            let forward = number < 16;
            let flags = flags_of(number % 16);
            let (after, completes) = phase.step(forward, flags);
            let (wanted, is_third) = expected(seen, forward, flags).ok_or("no timeout")?;
            same!(rt; (after.slot(), after.done(), completes), (wanted.timeout, wanted.complete, is_third));
            assert!(rt; is_one_to_one(&reached, &(after, wanted)));
            if !reached.contains(&(after, wanted)) {
                reached.push((after, wanted))?;
            }
        }
    }
    same!(rt; reached.len(), 31);
    Ok(())
}
