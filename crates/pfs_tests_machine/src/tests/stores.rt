//! Stores by themselves: the numbers of states, what is reported of handshakes, what leaves, and the slices of a round. What is
//! done with them one by one is for `profiled` too.

use super::tallied::Tallied;
use super::tried::Tried;
use pfs_addr_values::{Addr, Dir, FlowKey, Packet};
use pfs_conf::{Config, RuleNo};
use pfs_store::IndexStore;
use pfs_store_contract::{Limit, StateNo, Store, Touched};
use pfs_store_plain::PlainStore;
use pfs_tests_cases::{A1, A2, ACK, SYN, SYN_ACK, Sent, UNSCALED, configured, hosts, packet, same};
use pfs_track::Score;
use std::process::Abort;
use std::test::Fail;

/// What is done with a store, and what it answers.
#[derive(Clone, Copy)]
pub enum StoreStep {
    /// A UDP packet of this source and port is admitted at a rule.
    Admit(Addr, u16, u32, Result<u64, Limit>),
    /// It comes once more, of a rule that tracks no sources.
    Again(Addr, u16, u32),
    /// This packet of a source and port is admitted at a rule.
    Send(Sent, Addr, u16, u32, Result<u64, Limit>),
    /// The first source shakes hands from this port at rule 0: how many connections it has then, and its score.
    Shake(u16, u64, u64),
    /// This packet of the first source and port comes: the direction in which its state was made, and whether the handshake
    /// completes.
    Comes(Sent, u16, Dir, bool),
    /// pf takes such a packet itself: whether the handshake completes, and whether pf asks the other peer for a connection.
    Takes(Sent, u16, bool, bool),
    /// Whether the connection of such a packet has closed.
    Closed(Sent, u16, bool),
    /// The state of this number, source and port is killed.
    Kill(u64, Addr, u16),
    /// The states leave that are those of the first source, where it made one in this direction, all or those of a rule: how many
    /// they are.
    Flush(Dir, Option<RuleNo>, u64),
    /// The states leave that go from hosts of this prefix, to hosts of that one, or to any where it is empty: how many they are.
    Leave(&'static str, &'static str, u64),
    /// Whether a state of this number is held.
    IsHeld(u64, bool),
    /// A slice of the states examines and removes so many.
    States(u64, u64),
    /// So does one of the source nodes.
    Nodes(u64, u64),
    /// The seconds pass up to this moment: at most so many states, and so many source nodes, are examined in one.
    PassTo(u64, u64, u64),
    /// So many states and source nodes are held, and so many numbers were ever used.
    Amounts(u64, u64, u64),
    /// So many states are half open.
    HalfOpen(u64),
    /// The first source's ACK from this port brings a SYN cookie, and is admitted at a rule.
    Cookie(u16, u32, Result<u64, Limit>),
}

/// When it is done, and what.
pub type StoreRow = (u64, StoreStep);

/// A handshake of the first source from this port: what its third packet did
fn shake<S: Store>(rt: &impl Abort, tried: &mut Tried<S>, port: u16) -> Result<Touched, Fail> {
    let answer = tried.admit(
        rt,
        &packet(&Sent::Tcp(80, SYN), A1, port)?,
        RuleNo(0),
        false,
    )?;
    assert!(rt; answer.is_ok());
    let second = tried.renew(&packet(&Sent::Answer(SYN_ACK), A1, port)?)?;
    same!(rt; (second.completed, second.connections, second.score), (false, 0, Score::default()));
    tried.renew(&packet(&Sent::Tcp(80, ACK), A1, port)?)
}

fn numbered(answer: Result<StateNo, Limit>) -> Result<u64, Limit> {
    match answer {
        Ok(number) => Ok(number.0),
        Err(limit) => Err(limit),
    }
}

/// The number and the rule of a state that was admitted
fn admitted(answer: Result<StateNo, Limit>, rule: u32) -> Option<(StateNo, RuleNo)> {
    match answer {
        Ok(number) => Some((number, RuleNo(rule))),
        Err(_) => None,
    }
}

/// A packet makes a state that is found by its key, or is refused
fn admit<S: Store>(
    rt: &impl Abort,
    tried: &mut Tried<S>,
    packet: &Packet,
    rule: u32,
    want: Result<u64, Limit>,
) -> Result<(), Fail> {
    let answer = tried.admit(rt, packet, RuleNo(rule), false)?;
    same!(rt; numbered(answer), want);
    let found = tried.store().find(&FlowKey::of(packet));
    same!(rt; found.map(|it| (it.number, it.rule)), admitted(answer, rule));
    Ok(())
}

fn come<S: Store>(rt: &impl Abort, tried: &mut Tried<S>, row: &StoreRow) -> Result<(), Fail> {
    match row.1 {
        StoreStep::Admit(source, port, rule, want) => {
            admit(
                rt,
                tried,
                &packet(&Sent::Udp(53), source, port)?,
                rule,
                want,
            )?;
        }
        StoreStep::Send(sent, source, port, rule, want) => {
            admit(rt, tried, &packet(&sent, source, port)?, rule, want)?;
        }
        StoreStep::Cookie(port, rule, want) => {
            let ack = packet(&Sent::Tcp(80, ACK), A1, port)?;
            let answer = tried.admit(rt, &ack, RuleNo(rule), true)?;
            same!(rt; numbered(answer), want);
        }
        StoreStep::Comes(sent, port, dir, completed) => {
            let told = tried.touch(&packet(&sent, A1, port)?)?;
            same!(rt; (told.dir, told.completed), (dir, completed));
            same!(rt; (told.taken, told.asks), (false, false));
        }
        StoreStep::Takes(sent, port, completed, asks) => {
            let told = tried.touch(&packet(&sent, A1, port)?)?;
            same!(rt; (told.completed, told.taken, told.asks), (completed, true, asks));
        }
        StoreStep::Again(source, port, rule) => {
            let told = tried.touch(&packet(&Sent::Udp(53), source, port)?)?;
            same!(rt; (told.rule, told.source, told.completed), (RuleNo(rule), source, false));
            same!(rt; (told.connections, told.score), (0, Score::default()));
        }
        StoreStep::Shake(port, connections, value) => {
            let told = shake(rt, tried, port)?;
            let wanted = Touched {
                rule: RuleNo(0),
                source: A1,
                dir: Dir::In,
                completed: true,
                taken: false,
                asks: false,
                tag: None,
                connections,
                score: Score { value, last: row.0 },
            };
            same!(rt; told, wanted);
        }
        _ => {}
    }
    Ok(())
}

fn leave<S: Store>(rt: &impl Abort, tried: &mut Tried<S>, step: &StoreStep) -> Result<(), Fail> {
    match *step {
        StoreStep::Kill(number, source, port) => {
            let killed = tried.kill(&packet(&Sent::Udp(53), source, port)?);
            same!(rt; killed, Some(StateNo(number)));
        }
        StoreStep::Flush(dir, rule, killed) => same!(rt; tried.flush(dir, A1, rule), killed),
        StoreStep::Leave(from, to, killed) =>
            same!(rt; tried.kill_from_to(&hosts(from, to)?), killed),
        StoreStep::States(examined, removed) => {
            let slice = tried.purge_states();
            same!(rt; (slice.examined, slice.removed), (examined, removed));
        }
        StoreStep::Nodes(examined, removed) => {
            let slice = tried.purge_nodes();
            same!(rt; (slice.examined, slice.removed), (examined, removed));
        }
        _ => {}
    }
    Ok(())
}

fn pass<S: Store>(rt: &impl Abort, tried: &mut Tried<S>, step: &StoreStep) {
    if let StoreStep::PassTo(now, most_states, most_nodes) = *step {
        let purged = tried.pass_to(rt, now);
        same!(rt; (purged.most_states, purged.most_nodes), (most_states, most_nodes));
    }
}

fn look<S: Store>(rt: &impl Abort, tried: &Tried<S>, step: &StoreStep) -> Result<(), Fail> {
    let store = tried.store();
    match *step {
        StoreStep::IsHeld(number, wanted) => same!(rt; store.holds(StateNo(number)), wanted),
        StoreStep::Amounts(states, nodes, made) => {
            same!(rt; (store.state_count(), store.node_count(), store.made()), (states, nodes, made));
        }
        StoreStep::HalfOpen(wanted) => same!(rt; store.half_open_count(), wanted),
        StoreStep::Closed(sent, port, wanted) => {
            same!(rt; tried.has_closed(&packet(&sent, A1, port)?)?, wanted);
        }
        _ => {}
    }
    Ok(())
}

/// The steps one by one
fn follow<S: Store>(rt: &impl Abort, tried: &mut Tried<S>, rows: &[StoreRow]) -> Result<(), Fail> {
    for row in rows {
        tried.go_to(rt, row.0);
        come(rt, tried, row)?;
        leave(rt, tried, &row.1)?;
        pass(rt, tried, &row.1);
        look(rt, tried, &row.1)?;
    }
    Ok(())
}

/// How many calls a step makes that change a store, or might
fn changes(step: &StoreStep) -> u64 {
    match step {
        StoreStep::Shake(..) => 3,
        StoreStep::IsHeld(..)
        | StoreStep::Amounts(..)
        | StoreStep::HalfOpen(..)
        | StoreStep::Closed(..) => 0,
        _ => 1,
    }
}

fn all_changes(rows: &[StoreRow]) -> u64 {
    let mut all: u64 = 0;
    for (_, step) in rows {
        all = all.saturating_add(changes(step));
    }
    all
}

fn tell(rt: &(impl Abort + AllocGlobal), rules: &str, rows: &[StoreRow]) -> Result<(), Fail> {
    tell_under(rt, UNSCALED, rules, rows)
}

/// After a first line of rules, in each kind of store, of which one is held at a time
pub fn tell_under(
    rt: &(impl Abort + AllocGlobal),
    first: &str,
    rules: &str,
    rows: &[StoreRow],
) -> Result<(), Fail> {
    let config = configured(rt.alloc(), first, rules)?;
    tell_plain(rt, &config, rows)?;
    tell_tallied(rt, &config, rows)?;
    tell_indexed(rt, &config, rows)
}

fn tell_plain(
    rt: &(impl Abort + AllocGlobal),
    config: &Config,
    rows: &[StoreRow],
) -> Result<(), Fail> {
    let store = PlainStore::new(rt.alloc(), config)?;
    follow(rt, &mut Tried::new(store, config), rows)
}

fn tell_tallied(
    rt: &(impl Abort + AllocGlobal),
    config: &Config,
    rows: &[StoreRow],
) -> Result<(), Fail> {
    let store = Tallied::new(PlainStore::new(rt.alloc(), config)?);
    let mut tried = Tried::new(store, config);
    follow(rt, &mut tried, rows)?;
    same!(rt; tried.store().calls, all_changes(rows));
    Ok(())
}

fn tell_indexed(
    rt: &(impl Abort + AllocGlobal),
    config: &Config,
    rows: &[StoreRow],
) -> Result<(), Fail> {
    let store = IndexStore::new(rt.alloc(), config)?;
    follow(rt, &mut Tried::new(store, config), rows)
}

const NUMBERED: &[StoreRow] = &[
    (0, StoreStep::Amounts(0, 0, 0)),
    (5, StoreStep::Admit(A1, 1000, 0, Ok(1))),
    (5, StoreStep::IsHeld(1, true)),
    (5, StoreStep::Admit(A2, 1000, 0, Err(Limit::Max))),
    (5, StoreStep::Admit(A2, 1000, 1, Err(Limit::States))),
    (5, StoreStep::IsHeld(2, false)),
    (5, StoreStep::Amounts(1, 0, 1)),
];

#[test]
fn states_are_numbered_and_refused(rt: HostRuntime) -> Result<(), Fail> {
    tell(
        &rt,
        "set limit states 1\npass keep state (max 1)\npass",
        NUMBERED,
    )
}

/// Two rules with the global nodes of their sources, each with its own maximum
const SHARED: &[(&str, &[StoreRow])] = &[
    (
        "pass keep state (source-track global, max-src-states 2)\n\
            pass keep state (source-track global, max-src-states 3)",
        &[
            (5, StoreStep::Admit(A1, 1, 0, Ok(1))),
            (5, StoreStep::Admit(A1, 2, 0, Ok(2))),
            (5, StoreStep::Admit(A1, 3, 0, Err(Limit::MaxSrcStates))),
            (5, StoreStep::Admit(A1, 4, 1, Ok(3))),
            (5, StoreStep::Admit(A1, 5, 1, Err(Limit::MaxSrcStates))),
            (5, StoreStep::Admit(A2, 1, 0, Ok(4))),
            (5, StoreStep::Amounts(4, 2, 4)),
        ],
    ),
    (
        "pass keep state (source-track global, max-src-states 2)\n\
            pass keep state (source-track global, max-src-states 5)",
        &[
            (5, StoreStep::Admit(A1, 1, 1, Ok(1))),
            (5, StoreStep::Admit(A1, 2, 1, Ok(2))),
            (5, StoreStep::Admit(A1, 3, 1, Ok(3))),
            (5, StoreStep::Admit(A1, 4, 1, Ok(4))),
            (5, StoreStep::Admit(A1, 5, 1, Ok(5))),
            (5, StoreStep::Admit(A1, 6, 1, Err(Limit::MaxSrcStates))),
            (5, StoreStep::Admit(A1, 7, 0, Err(Limit::MaxSrcStates))),
            (5, StoreStep::Amounts(5, 1, 5)),
        ],
    ),
];

#[test]
fn rules_share_global_nodes_under_their_own_maxima(rt: HostRuntime) -> Result<(), Fail> {
    for &(rules, rows) in SHARED {
        tell(&rt, rules, rows)?;
    }
    Ok(())
}

const FULL: &[StoreRow] = &[
    (5, StoreStep::Admit(A1, 1, 0, Ok(1))),
    (5, StoreStep::Admit(A2, 1, 0, Err(Limit::States))),
    (5, StoreStep::Amounts(1, 1, 1)),
];

const REFUSALS: &[StoreRow] = &[
    (5, StoreStep::Admit(A1, 1, 0, Ok(1))),
    (5, StoreStep::Admit(A2, 1, 0, Err(Limit::SrcNodes))),
    (5, StoreStep::Admit(A1, 2, 0, Ok(2))),
    (5, StoreStep::Admit(A1, 3, 0, Err(Limit::States))),
    (5, StoreStep::Amounts(2, 1, 2)),
];

#[test]
fn a_refusal_makes_no_node(rt: HostRuntime) -> Result<(), Fail> {
    let rules = "set limit { states 1, src-nodes 5 }\npass keep state (source-track rule)";
    tell(&rt, rules, FULL)?;
    let rules = "set limit { states 2, src-nodes 1 }\npass keep state (source-track rule)\npass";
    tell(&rt, rules, REFUSALS)
}

const AT_ONCE: &[StoreRow] = &[
    (0, StoreStep::Shake(1, 1, 1000)),
    (0, StoreStep::Shake(2, 2, 2000)),
    (0, StoreStep::Shake(3, 3, 3000)),
    (0, StoreStep::Shake(4, 4, 4000)),
    (3, StoreStep::Admit(A2, 1, 1, Ok(5))),
    (3, StoreStep::Again(A2, 1, 1)),
];

const IN_TURN: &[StoreRow] = &[
    (0, StoreStep::Shake(1, 1, 1000)),
    (1, StoreStep::Shake(2, 2, 1900)),
    (2, StoreStep::Shake(3, 3, 2710)),
    (3, StoreStep::Shake(4, 4, 3439)),
];

#[test]
fn handshakes_count_in_the_score_of_their_source(rt: HostRuntime) -> Result<(), Fail> {
    let rules = "pass keep state (max-src-conn 1, max-src-conn-rate 3/10)\npass";
    tell(&rt, rules, AT_ONCE)?;
    tell(&rt, rules, IN_TURN)
}

const LEAVING: &[StoreRow] = &[
    (5, StoreStep::Admit(A1, 1, 0, Ok(1))),
    (5, StoreStep::Admit(A1, 2, 0, Ok(2))),
    (5, StoreStep::Admit(A1, 3, 1, Ok(3))),
    (5, StoreStep::Admit(A2, 4, 1, Ok(4))),
    (5, StoreStep::Admit(A1, 5, 1, Ok(5))),
    (5, StoreStep::IsHeld(2, true)),
    (6, StoreStep::Kill(2, A1, 2)),
    (6, StoreStep::IsHeld(2, false)),
    (6, StoreStep::IsHeld(1, true)),
    (6, StoreStep::Flush(Dir::In, Some(RuleNo(1)), 2)),
    (6, StoreStep::IsHeld(1, true)),
    (6, StoreStep::IsHeld(4, true)),
    (7, StoreStep::Flush(Dir::In, None, 1)),
    (7, StoreStep::Amounts(1, 1, 5)),
    (26, StoreStep::Nodes(1, 0)),
    (27, StoreStep::Nodes(1, 1)),
    (27, StoreStep::Amounts(1, 0, 5)),
];

/// The last state of the node leaves at moment 7, and it is kept for 20 seconds
#[test]
fn states_leave_by_number_and_by_source(rt: HostRuntime) -> Result<(), Fail> {
    let rules =
        "set timeout { src.track 20, interval 1 }\npass keep state (source-track rule)\npass";
    tell(&rt, rules, LEAVING)
}

const LEFT: &[StoreRow] = &[
    (5, StoreStep::Admit(A1, 1, 0, Ok(1))),
    (5, StoreStep::Admit(A2, 2, 0, Ok(2))),
    (5, StoreStep::Admit(A1, 3, 1, Ok(3))),
    (
        5,
        StoreStep::Send(Sent::Answer(SYN_ACK), A1, 1000, 1, Ok(4)),
    ),
    (6, StoreStep::Leave("198.51.100.1", "198.51.100.0/24", 0)),
    (6, StoreStep::Leave("192.0.2.0/24", "192.0.2.0/24", 0)),
    (7, StoreStep::Leave("198.51.100.1", "192.0.2.1", 2)),
    (7, StoreStep::IsHeld(1, false)),
    (7, StoreStep::IsHeld(2, true)),
    (7, StoreStep::IsHeld(3, false)),
    (7, StoreStep::IsHeld(4, true)),
    (8, StoreStep::Leave("192.0.2.1", "198.51.100.1", 1)),
    (8, StoreStep::Amounts(1, 2, 4)),
    (26, StoreStep::Nodes(2, 0)),
    (27, StoreStep::Nodes(2, 1)),
    (27, StoreStep::Leave("0.0.0.0/0", "", 1)),
    (27, StoreStep::Amounts(0, 1, 4)),
];

/// The last state of the first source's node leaves at moment 7, and it is kept for 20 seconds
#[test]
fn states_leave_by_source_and_destination(rt: HostRuntime) -> Result<(), Fail> {
    let rules =
        "set timeout { src.track 20, interval 1 }\npass keep state (source-track rule)\npass";
    tell(&rt, rules, LEFT)
}

/// A slice examines two states and one node
const SLICES: &str = "set limit { states 6, src-nodes 4 }\n\
    set timeout { src.track 20, interval 5, udp.first 5 }\npass keep state (source-track rule)";

const ROUNDS: &[StoreRow] = &[
    (5, StoreStep::Admit(A1, 1, 0, Ok(1))),
    (5, StoreStep::Admit(A1, 2, 0, Ok(2))),
    (5, StoreStep::Admit(A1, 3, 0, Ok(3))),
    (5, StoreStep::Admit(A2, 4, 0, Ok(4))),
    (5, StoreStep::Admit(A1, 5, 0, Ok(5))),
    (9, StoreStep::States(2, 0)),
    (10, StoreStep::States(2, 2)),
    (11, StoreStep::States(1, 1)),
    (12, StoreStep::States(2, 2)),
    (13, StoreStep::States(0, 0)),
    (13, StoreStep::Amounts(0, 2, 5)),
    (29, StoreStep::Nodes(1, 0)),
    (30, StoreStep::Nodes(1, 1)),
    (31, StoreStep::Nodes(1, 0)),
    (32, StoreStep::Nodes(1, 1)),
    (33, StoreStep::Nodes(0, 0)),
];

/// A slice examines two states and one node, and does not go on into the next round. The states expire at moment 10; the
/// source of the fourth has none from then on, the other one from moment 12
#[test]
fn a_slice_examines_its_share_of_a_round(rt: HostRuntime) -> Result<(), Fail> {
    tell(&rt, SLICES, ROUNDS)
}

const RETURNING: &[StoreRow] = &[
    (5, StoreStep::Admit(A1, 1, 0, Ok(1))),
    (5, StoreStep::Admit(A2, 2, 0, Ok(2))),
    (6, StoreStep::Kill(1, A1, 1)),
    (10, StoreStep::Kill(2, A2, 2)),
    (26, StoreStep::Nodes(1, 1)),
    (26, StoreStep::Admit(A1, 3, 0, Ok(3))),
    (26, StoreStep::Amounts(1, 2, 3)),
    (27, StoreStep::Nodes(1, 0)),
    (30, StoreStep::Nodes(1, 1)),
    (31, StoreStep::Nodes(1, 0)),
    (31, StoreStep::Kill(3, A1, 3)),
    (32, StoreStep::Admit(A2, 4, 0, Ok(4))),
    (33, StoreStep::Kill(4, A2, 4)),
    (51, StoreStep::Nodes(1, 1)),
    (53, StoreStep::Nodes(1, 1)),
    (53, StoreStep::Amounts(0, 0, 4)),
];

/// The first source leaves and comes again, where the second one is held: its new number is the greater one, so that the second
/// is examined before it at moment 30
#[test]
fn a_source_that_comes_again_is_examined_by_its_new_number(rt: HostRuntime) -> Result<(), Fail> {
    tell(&rt, SLICES, RETURNING)
}

const PASSED: &[StoreRow] = &[
    (5, StoreStep::Admit(A1, 1, 0, Ok(1))),
    (5, StoreStep::Admit(A1, 2, 0, Ok(2))),
    (5, StoreStep::Admit(A1, 3, 0, Ok(3))),
    (5, StoreStep::Admit(A2, 4, 0, Ok(4))),
    (5, StoreStep::Admit(A1, 5, 0, Ok(5))),
    (5, StoreStep::PassTo(9, 2, 1)),
    (9, StoreStep::Amounts(5, 2, 5)),
    (9, StoreStep::PassTo(12, 2, 1)),
    (12, StoreStep::Amounts(0, 2, 5)),
    (12, StoreStep::PassTo(30, 0, 1)),
    (30, StoreStep::Amounts(0, 2, 5)),
    (30, StoreStep::PassTo(31, 0, 1)),
    (31, StoreStep::Amounts(0, 1, 5)),
    (31, StoreStep::PassTo(32, 0, 1)),
    (32, StoreStep::Amounts(0, 0, 5)),
    (32, StoreStep::PassTo(4294967295, 0, 0)),
    (4294967295, StoreStep::Amounts(0, 0, 5)),
];

/// Three seconds are a whole round of the states, two one of the nodes. The states expire at moment 10, and have left at 12; the source
/// of the fourth may leave from moment 30 on, and is examined at 31; the other one may from 32 on
#[test]
fn seconds_are_passed_over_by_rounds(rt: HostRuntime) -> Result<(), Fail> {
    tell(&rt, SLICES, PASSED)
}

const JOINED: &[StoreRow] = &[
    (5, StoreStep::Admit(A1, 1, 0, Ok(1))),
    (5, StoreStep::Admit(A1, 2, 0, Ok(2))),
    (5, StoreStep::Admit(A1, 3, 0, Ok(3))),
    (5, StoreStep::PassTo(6, 2, 1)),
    (6, StoreStep::Admit(A1, 4, 0, Ok(4))),
    (6, StoreStep::PassTo(9, 2, 1)),
    (9, StoreStep::Amounts(4, 1, 4)),
    (9, StoreStep::PassTo(10, 2, 1)),
    (10, StoreStep::Amounts(2, 1, 4)),
    (10, StoreStep::PassTo(11, 2, 1)),
    (11, StoreStep::Amounts(0, 1, 4)),
];

/// The fourth state comes while a round is under way: the end of that round says nothing of it, the end of the next one does; it leaves at
/// its own moment
#[test]
fn a_slice_says_nothing_of_a_state_that_it_did_not_examine(rt: HostRuntime) -> Result<(), Fail> {
    tell(&rt, SLICES, JOINED)
}
