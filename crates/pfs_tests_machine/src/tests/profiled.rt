//! Stores by themselves under the profile of OpenBSD 7.4, beside what they do without it: the order of the limits, the node that a
//! refusal leaves, how long nodes stay, what a flush takes, phases, the handshakes that pf leads, and SYN cookies.

use super::stores::{StoreRow, StoreStep, tell_under};
use pfs_addr_values::{Addr, Dir};
use pfs_conf::RuleNo;
use pfs_store_contract::Limit;
use pfs_tests_cases::{A1, A2, ACK, FIN_ACK, RST, SYN, SYN_ACK, Sent, UNSCALED};
use std::process::Abort;
use std::test::Fail;

/// The profile, under which no state is given a shorter life under load either.
pub const PROFILED: &str =
    "set profile openbsd-7.4\nset timeout { adaptive.start 0, adaptive.end 0 }\n";

const A3: Addr = Addr::V4([198, 51, 100, 3]);

/// Rules, what is done under them without the profile, and what under it
type Pair = (&'static str, &'static [StoreRow], &'static [StoreRow]);

fn tell_both(rt: &(impl Abort + AllocGlobal), pairs: &[Pair]) -> Result<(), Fail> {
    for &(rules, own, profiled) in pairs {
        tell_under(rt, UNSCALED, rules, own)?;
        tell_under(rt, PROFILED, rules, profiled)?;
    }
    Ok(())
}

/// Without the profile `max` is asked before what is asked of the source, under it behind that; the limit of states is the last one
const ORDERS: &[Pair] = &[
    (
        "pass keep state (max 1, max-src-states 1)",
        &[
            (5, StoreStep::Admit(A1, 1, 0, Ok(1))),
            (5, StoreStep::Admit(A1, 2, 0, Err(Limit::Max))),
            (5, StoreStep::Amounts(1, 1, 1)),
        ],
        &[
            (5, StoreStep::Admit(A1, 1, 0, Ok(1))),
            (5, StoreStep::Admit(A1, 2, 0, Err(Limit::MaxSrcStates))),
            (5, StoreStep::Amounts(1, 1, 1)),
        ],
    ),
    (
        "pass keep state (max 1, max-src-nodes 1)",
        &[
            (5, StoreStep::Admit(A1, 1, 0, Ok(1))),
            (5, StoreStep::Admit(A2, 1, 0, Err(Limit::Max))),
            (5, StoreStep::Amounts(1, 1, 1)),
        ],
        &[
            (5, StoreStep::Admit(A1, 1, 0, Ok(1))),
            (5, StoreStep::Admit(A2, 1, 0, Err(Limit::MaxSrcNodes))),
            (5, StoreStep::Amounts(1, 1, 1)),
        ],
    ),
    (
        "set limit src-nodes 1\npass keep state (max 1, source-track rule)",
        &[
            (5, StoreStep::Admit(A1, 1, 0, Ok(1))),
            (5, StoreStep::Admit(A2, 1, 0, Err(Limit::Max))),
            (5, StoreStep::Amounts(1, 1, 1)),
        ],
        &[
            (5, StoreStep::Admit(A1, 1, 0, Ok(1))),
            (5, StoreStep::Admit(A2, 1, 0, Err(Limit::SrcNodes))),
            (5, StoreStep::Admit(A1, 2, 0, Err(Limit::Max))),
            (5, StoreStep::Amounts(1, 1, 1)),
        ],
    ),
    (
        "set limit states 1\npass keep state (max 1)\npass keep state (source-track rule)",
        &[
            (5, StoreStep::Admit(A1, 1, 0, Ok(1))),
            (5, StoreStep::Admit(A2, 1, 0, Err(Limit::Max))),
            (5, StoreStep::Admit(A2, 1, 1, Err(Limit::States))),
            (5, StoreStep::Amounts(1, 0, 1)),
        ],
        &[
            (5, StoreStep::Admit(A1, 1, 0, Ok(1))),
            (5, StoreStep::Admit(A2, 1, 0, Err(Limit::Max))),
            (5, StoreStep::Admit(A2, 1, 1, Err(Limit::States))),
            (5, StoreStep::Amounts(1, 0, 1)),
        ],
    ),
];

#[test]
fn limits_of_the_source_are_asked_before_max(rt: HostRuntime) -> Result<(), Fail> {
    tell_both(&rt, ORDERS)
}

/// The second source has a node of its own number, which counts for `max-src-nodes` and leaves in the next slice; where a state is
/// made for it before, it stays as any other
const STRAYS: &[Pair] = &[(
    "set timeout { src.track 20, interval 1 }\npass keep state (max 1, max-src-nodes 2)",
    &[
        (5, StoreStep::Admit(A1, 1, 0, Ok(1))),
        (5, StoreStep::Admit(A2, 1, 0, Err(Limit::Max))),
        (5, StoreStep::Amounts(1, 1, 1)),
        (5, StoreStep::Nodes(1, 0)),
    ],
    &[
        (5, StoreStep::Admit(A1, 1, 0, Ok(1))),
        (5, StoreStep::Admit(A2, 1, 0, Err(Limit::Max))),
        (5, StoreStep::Amounts(1, 2, 2)),
        (5, StoreStep::IsHeld(2, false)),
        (5, StoreStep::Admit(A2, 2, 0, Err(Limit::Max))),
        (5, StoreStep::Admit(A3, 1, 0, Err(Limit::MaxSrcNodes))),
        (5, StoreStep::Amounts(1, 2, 2)),
        (5, StoreStep::Nodes(2, 1)),
        (6, StoreStep::Amounts(1, 1, 2)),
        (6, StoreStep::Admit(A2, 3, 0, Err(Limit::Max))),
        (7, StoreStep::Kill(1, A1, 1)),
        (7, StoreStep::Admit(A2, 4, 0, Ok(4))),
        (7, StoreStep::Amounts(1, 2, 4)),
        (8, StoreStep::Nodes(2, 0)),
        (9, StoreStep::Kill(4, A2, 4)),
        (26, StoreStep::Nodes(2, 0)),
        (27, StoreStep::Nodes(2, 1)),
        (28, StoreStep::Nodes(1, 0)),
        (29, StoreStep::Nodes(1, 1)),
        (29, StoreStep::Amounts(0, 0, 4)),
    ],
)];

#[test]
fn max_refuses_a_new_source_and_leaves_its_node(rt: HostRuntime) -> Result<(), Fail> {
    tell_both(&rt, STRAYS)
}

/// The retention of a rule's node: without the profile at least the global one, under it that of its rate alone
const RETENTIONS: &[Pair] = &[(
    "set timeout { src.track 20, interval 1 }\npass keep state (max-src-conn-rate 3/10)",
    &[
        (5, StoreStep::Admit(A1, 1, 0, Ok(1))),
        (6, StoreStep::Kill(1, A1, 1)),
        (25, StoreStep::Nodes(1, 0)),
        (26, StoreStep::Nodes(1, 1)),
    ],
    &[
        (5, StoreStep::Admit(A1, 1, 0, Ok(1))),
        (6, StoreStep::Kill(1, A1, 1)),
        (15, StoreStep::Nodes(1, 0)),
        (16, StoreStep::Nodes(1, 1)),
    ],
)];

#[test]
fn a_node_stays_for_the_retention_of_its_rule(rt: HostRuntime) -> Result<(), Fail> {
    tell_both(&rt, RETENTIONS)
}

/// The first source makes a state in and one out, and a server makes one out to it. Without the profile a flush takes what the source
/// made, whatever the direction; under it the states in which it is on that side, of which the second one is the server's
const FLUSHES: &[Pair] = &[
    (
        "set timeout { src.track 20, interval 1 }\npass keep state (source-track global)",
        &[
            (5, StoreStep::Admit(A1, 1, 0, Ok(1))),
            (5, StoreStep::Send(Sent::Answer(SYN), A1, 2, 0, Ok(2))),
            (5, StoreStep::Send(Sent::Out(53), A1, 3, 0, Ok(3))),
            (5, StoreStep::Admit(A2, 4, 0, Ok(4))),
            (6, StoreStep::Flush(Dir::In, None, 2)),
            (6, StoreStep::IsHeld(2, true)),
            (6, StoreStep::IsHeld(3, false)),
            (7, StoreStep::Flush(Dir::Out, None, 0)),
            (25, StoreStep::Nodes(3, 0)),
            (26, StoreStep::Nodes(3, 1)),
            (26, StoreStep::Amounts(2, 2, 4)),
        ],
        &[
            (5, StoreStep::Admit(A1, 1, 0, Ok(1))),
            (5, StoreStep::Send(Sent::Answer(SYN), A1, 2, 0, Ok(2))),
            (5, StoreStep::Send(Sent::Out(53), A1, 3, 0, Ok(3))),
            (5, StoreStep::Admit(A2, 4, 0, Ok(4))),
            (6, StoreStep::Flush(Dir::In, None, 2)),
            (6, StoreStep::IsHeld(2, false)),
            (6, StoreStep::IsHeld(3, true)),
            (7, StoreStep::Flush(Dir::Out, None, 1)),
            (25, StoreStep::Nodes(3, 0)),
            (26, StoreStep::Nodes(3, 1)),
            (27, StoreStep::Nodes(2, 1)),
            (27, StoreStep::Amounts(1, 1, 4)),
        ],
    ),
    (
        "pass\npass",
        &[
            (5, StoreStep::Admit(A1, 1, 0, Ok(1))),
            (5, StoreStep::Send(Sent::Answer(SYN), A1, 2, 1, Ok(2))),
            (6, StoreStep::Flush(Dir::In, Some(RuleNo(1)), 0)),
            (6, StoreStep::Flush(Dir::Out, Some(RuleNo(0)), 1)),
            (6, StoreStep::IsHeld(2, true)),
        ],
        &[
            (5, StoreStep::Admit(A1, 1, 0, Ok(1))),
            (5, StoreStep::Send(Sent::Answer(SYN), A1, 2, 1, Ok(2))),
            (6, StoreStep::Flush(Dir::Out, Some(RuleNo(0)), 0)),
            (6, StoreStep::Flush(Dir::In, Some(RuleNo(1)), 1)),
            (6, StoreStep::IsHeld(1, true)),
        ],
    ),
];

#[test]
fn a_flush_takes_the_states_on_a_side(rt: HostRuntime) -> Result<(), Fail> {
    tell_both(&rt, FLUSHES)
}

/// A connection that is picked up in the middle, and a SYN and an ACK of one peer: rows of a sloppy state
const SLOPPY: &[StoreRow] = &[
    (5, StoreStep::Send(Sent::Tcp(80, ACK), A1, 1, 0, Ok(1))),
    (5, StoreStep::Comes(Sent::Answer(ACK), 1, Dir::In, false)),
    (5, StoreStep::Comes(Sent::Tcp(80, ACK), 1, Dir::In, false)),
    (5, StoreStep::Send(Sent::Tcp(80, SYN), A1, 2, 0, Ok(2))),
    (5, StoreStep::Comes(Sent::Tcp(80, ACK), 2, Dir::In, true)),
];

/// The same of a full state
const FULL: &[StoreRow] = &[
    (5, StoreStep::Send(Sent::Tcp(80, ACK), A1, 1, 0, Ok(1))),
    (5, StoreStep::Comes(Sent::Answer(ACK), 1, Dir::In, false)),
    (5, StoreStep::Comes(Sent::Tcp(80, ACK), 1, Dir::In, true)),
    (5, StoreStep::Send(Sent::Tcp(80, SYN), A1, 2, 0, Ok(2))),
    (5, StoreStep::Comes(Sent::Tcp(80, ACK), 2, Dir::In, false)),
];

const PHASES: &[Pair] = &[
    ("pass", SLOPPY, FULL),
    ("pass keep state (sloppy)", SLOPPY, SLOPPY),
];

#[test]
fn states_are_tracked_fully_unless_sloppy(rt: HostRuntime) -> Result<(), Fail> {
    tell_both(&rt, PHASES)
}

/// A connection of the first source that both close, one of the server that is reset, and what is no connection
const CLOSED: &[StoreRow] = &[
    (5, StoreStep::Send(Sent::Tcp(80, SYN), A1, 1, 0, Ok(1))),
    (
        5,
        StoreStep::Comes(Sent::Answer(SYN_ACK), 1, Dir::In, false),
    ),
    (5, StoreStep::Comes(Sent::Tcp(80, ACK), 1, Dir::In, true)),
    (5, StoreStep::Closed(Sent::Tcp(80, SYN), 1, false)),
    (
        6,
        StoreStep::Comes(Sent::Tcp(80, FIN_ACK), 1, Dir::In, false),
    ),
    (
        6,
        StoreStep::Comes(Sent::Answer(FIN_ACK), 1, Dir::In, false),
    ),
    (6, StoreStep::Closed(Sent::Tcp(80, SYN), 1, false)),
    (6, StoreStep::Comes(Sent::Tcp(80, ACK), 1, Dir::In, false)),
    (6, StoreStep::Closed(Sent::Tcp(80, SYN), 1, true)),
    (7, StoreStep::Send(Sent::Answer(SYN), A1, 2, 0, Ok(2))),
    (7, StoreStep::Comes(Sent::Tcp(80, RST), 2, Dir::Out, false)),
    (7, StoreStep::Closed(Sent::Answer(SYN), 2, true)),
    (7, StoreStep::Admit(A1, 3, 0, Ok(3))),
    (7, StoreStep::Closed(Sent::Udp(53), 3, false)),
];

#[test]
fn a_connection_has_closed_when_both_peers_have(rt: HostRuntime) -> Result<(), Fail> {
    tell_both(&rt, &[("pass", CLOSED, CLOSED)])
}

/// Connections at a rule with `synproxy state`. What pf takes itself leaves the last moment of the first one alone, which leaves 30
/// seconds after its SYN; the second one goes on as any other. pf asks the server from the maker's ACK on, at the maker's packets. The
/// third is made by a SYN that goes out, the fourth by an ACK: pf leads neither
const PROXIED: &[StoreRow] = &[
    (5, StoreStep::Send(Sent::Tcp(80, SYN), A1, 1, 0, Ok(1))),
    (10, StoreStep::Takes(Sent::Tcp(80, SYN), 1, false, false)),
    (12, StoreStep::Takes(Sent::Answer(SYN_ACK), 1, false, false)),
    (15, StoreStep::Takes(Sent::Tcp(80, ACK), 1, true, true)),
    (15, StoreStep::Takes(Sent::Tcp(80, SYN), 1, false, true)),
    (15, StoreStep::Closed(Sent::Tcp(80, SYN), 1, false)),
    (20, StoreStep::Takes(Sent::Answer(SYN_ACK), 1, false, false)),
    (34, StoreStep::States(1, 0)),
    (35, StoreStep::States(1, 1)),
    (40, StoreStep::Send(Sent::Tcp(80, SYN), A1, 2, 0, Ok(2))),
    (41, StoreStep::Takes(Sent::Tcp(80, ACK), 2, true, true)),
    (42, StoreStep::Takes(Sent::Answer(SYN_ACK), 2, false, false)),
    (43, StoreStep::Comes(Sent::Tcp(80, ACK), 2, Dir::In, false)),
    (44, StoreStep::Send(Sent::Answer(SYN), A1, 3, 0, Ok(3))),
    (
        45,
        StoreStep::Comes(Sent::Tcp(80, SYN_ACK), 3, Dir::Out, false),
    ),
    (46, StoreStep::Comes(Sent::Answer(ACK), 3, Dir::Out, true)),
    (47, StoreStep::Send(Sent::Tcp(80, ACK), A1, 4, 0, Ok(4))),
    (48, StoreStep::Comes(Sent::Answer(ACK), 4, Dir::In, false)),
    (49, StoreStep::Comes(Sent::Tcp(80, ACK), 4, Dir::In, true)),
];

#[test]
fn pf_leads_the_handshakes_of_a_syn_that_comes_in(rt: HostRuntime) -> Result<(), Fail> {
    tell_under(
        &rt,
        PROFILED,
        "set timeout { tcp.first 30, interval 1 }\npass proto tcp all flags any synproxy state",
        PROXIED,
    )
}

/// An ACK that brings a SYN cookie makes a state at a rule without `synproxy state`, too. pf takes what comes until the server has
/// answered, no handshake completes, and the connection counts at no time; that of an ordinary SYN does. Of these states only an
/// ordinary one is half open, until the server has answered
const COOKIES: &[StoreRow] = &[
    (5, StoreStep::Cookie(1, 0, Ok(1))),
    (5, StoreStep::HalfOpen(0)),
    (6, StoreStep::Takes(Sent::Tcp(80, ACK), 1, false, true)),
    (7, StoreStep::Takes(Sent::Answer(SYN_ACK), 1, false, false)),
    (8, StoreStep::Comes(Sent::Tcp(80, ACK), 1, Dir::In, false)),
    (9, StoreStep::Comes(Sent::Answer(ACK), 1, Dir::In, false)),
    (9, StoreStep::HalfOpen(0)),
    (9, StoreStep::Shake(2, 1, 1000)),
    (10, StoreStep::Send(Sent::Tcp(80, SYN), A1, 3, 0, Ok(3))),
    (10, StoreStep::Send(Sent::Tcp(80, SYN), A1, 4, 0, Ok(4))),
    (10, StoreStep::HalfOpen(2)),
    (
        11,
        StoreStep::Comes(Sent::Answer(SYN_ACK), 3, Dir::In, false),
    ),
    (11, StoreStep::HalfOpen(1)),
    (12, StoreStep::Flush(Dir::In, None, 4)),
    (12, StoreStep::HalfOpen(0)),
];

#[test]
fn a_syn_cookie_makes_a_state_that_never_counts(rt: HostRuntime) -> Result<(), Fail> {
    tell_under(
        &rt,
        PROFILED,
        "pass proto tcp all flags any keep state (max-src-conn 5, max-src-conn-rate 3/10)",
        COOKIES,
    )
}
