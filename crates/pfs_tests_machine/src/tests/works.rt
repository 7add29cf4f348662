//! How much work a packet is, and a lapse of time.

use super::engines::{held, indexed, pass_time, plain, take};
use pfs_addr_values::Addr;
use pfs_conf::RuleNo;
use pfs_engine::{Added, Arrival, Engine, Event, Exceeded, Limit, Outcome, Work};
use pfs_store_contract::Store;
use pfs_tests_cases::{
    A1, A2, ACK, ANCHORED, Case, FLOOD, FLUSH, FLUSH_GLOBAL, SECOND_CONNECTION, SYN, SYN_ACK,
    Script, Sent, THIRD_STATE, UNSCALED, packet, same,
};
use std::process::Abort;
use std::test::Fail;

const UDP: Sent = Sent::Udp(53);

const NEW: Outcome = Outcome::New(RuleNo(0));

const STATE: Outcome = Outcome::State(RuleNo(0));

/// What comes to an engine.
#[derive(Clone, Copy)]
enum WorkStep {
    // time passes to this moment
    Until(u64),
    // a packet of this source and port, and what is made of it
    Packet(Sent, Addr, u16, Outcome),
}

/// What comes, and the work of it: visits, looks, slices, the most states and the most nodes of one slice.
type WorkRow = (WorkStep, [u64; 5]);

/// The work of a row, over a store that counts looks or over one that does not
fn work_of(row: &[u64; 5], counts: bool) -> Work {
    Work {
        visits: row[0],
        looks: if counts { row[1] } else { 0 },
        slices: row[2],
        most_states: row[3],
        most_nodes: row[4],
    }
}

/// Rules, what comes, and what is held in the end, over each kind of store
fn works(
    rt: &(impl Abort + AllocGlobal),
    rules: &str,
    rows: &[WorkRow],
    end: (u64, u64, u64),
) -> Result<(), Fail> {
    let alloc = rt.alloc();
    follow(rt, plain(alloc, UNSCALED, rules)?, rows, false, end)?;
    follow(rt, indexed(alloc, UNSCALED, rules)?, rows, true, end)
}

fn follow<S: Store + Drop>(
    rt: &impl Abort,
    engine: Engine<S>,
    rows: &[WorkRow],
    counts: bool,
    end: (u64, u64, u64),
) -> Result<(), Fail> {
    let mut engine = engine;
    same!(rt; engine.work(), work_of(&[0; 5], counts));
    for (step, work) in rows {
        act(rt, &mut engine, step, work_of(work, counts))?;
    }
    same!(rt; held(&engine), end);
    Ok(())
}

fn act<S: Store>(
    rt: &impl Abort,
    engine: &mut Engine<S>,
    step: &WorkStep,
    wanted: Work,
) -> Result<(), Fail> {
    match *step {
        WorkStep::Until(time) => {
            pass_time(rt, engine, time);
            same!(rt; engine.last(), Some(time));
        }
        WorkStep::Packet(sent, source, port, outcome) => {
            let packet = packet(&sent, source, port)?;
            same!(rt; take(rt, engine, &packet)?, outcome);
        }
    }
    same!(rt; engine.work(), wanted);
    Ok(())
}

const PATHS: &[WorkRow] = &[
    (WorkStep::Until(0), [0, 0, 0, 0, 0]),
    (
        WorkStep::Packet(UDP, A1, 1, Outcome::Pass(Some(RuleNo(2)))),
        [3, 0, 0, 0, 0],
    ),
    (
        WorkStep::Packet(Sent::Tcp(22, SYN), A1, 1, Outcome::Pass(Some(RuleNo(7)))),
        [7, 0, 0, 0, 0],
    ),
    (
        WorkStep::Packet(Sent::Tcp(80, SYN), A1, 1, Outcome::Pass(Some(RuleNo(5)))),
        [8, 0, 0, 0, 0],
    ),
    (
        WorkStep::Packet(Sent::Udp(99), A1, 1, Outcome::Pass(Some(RuleNo(8)))),
        [7, 0, 0, 0, 0],
    ),
    (
        WorkStep::Packet(Sent::Out(53), A1, 1, Outcome::Block(RuleNo(0))),
        [4, 0, 0, 0, 0],
    ),
];

#[test]
fn a_packet_visits_the_items_on_its_path(rt: HostRuntime) -> Result<(), Fail> {
    works(&rt, ANCHORED, PATHS, (0, 0, 0))
}

const HELD: &[WorkRow] = &[
    (WorkStep::Until(7), [0, 0, 0, 0, 0]),
    (WorkStep::Packet(UDP, A1, 1, NEW), [1, 0, 0, 0, 0]),
    (WorkStep::Packet(UDP, A1, 1, STATE), [0, 1, 0, 0, 0]),
    (WorkStep::Packet(UDP, A1, 1, STATE), [0, 1, 0, 0, 0]),
];

#[test]
fn a_packet_of_a_held_state_visits_nothing(rt: HostRuntime) -> Result<(), Fail> {
    works(&rt, "pass in proto udp all", HELD, (1, 0, 0))
}

const FIRST: Sent = Sent::Tcp(80, SYN);

const SECOND: Sent = Sent::Answer(SYN_ACK);

const THIRD: Sent = Sent::Tcp(80, ACK);

/// The second connection of the source is killed alone, and a third state is one too many
const KILLED: &[WorkRow] = &[
    (WorkStep::Until(0), [0, 0, 0, 0, 0]),
    (WorkStep::Packet(FIRST, A1, 1, NEW), [1, 0, 0, 0, 0]),
    (WorkStep::Packet(SECOND, A1, 1, STATE), [0, 1, 0, 0, 0]),
    (WorkStep::Packet(THIRD, A1, 1, STATE), [0, 1, 0, 0, 0]),
    (WorkStep::Packet(FIRST, A1, 2, NEW), [1, 0, 0, 0, 0]),
    (WorkStep::Packet(SECOND, A1, 2, STATE), [0, 1, 0, 0, 0]),
    (
        WorkStep::Packet(FIRST, A2, 1, Outcome::Drop(RuleNo(0), Limit::Max)),
        [1, 0, 0, 0, 0],
    ),
    (WorkStep::Packet(THIRD, A1, 2, ALONE), [0, 2, 0, 0, 0]),
];

const ALONE: Outcome = Outcome::Kill {
    rule: RuleNo(0),
    exceeded: Exceeded::Connections,
    overload: None,
    killed: 1,
};

const SHAKEN: Outcome = Outcome::State(RuleNo(2));

/// With it leave the other states of its source, and at no state of another source is looked
const FLUSHED: &[WorkRow] = &[
    (WorkStep::Until(0), [0, 0, 0, 0, 0]),
    (
        WorkStep::Packet(UDP, A1, 9, Outcome::New(RuleNo(1))),
        [3, 0, 0, 0, 0],
    ),
    (
        WorkStep::Packet(UDP, A2, 9, Outcome::New(RuleNo(1))),
        [3, 0, 0, 0, 0],
    ),
    (
        WorkStep::Packet(FIRST, A1, 1, Outcome::New(RuleNo(2))),
        [3, 0, 0, 0, 0],
    ),
    (WorkStep::Packet(SECOND, A1, 1, SHAKEN), [0, 1, 0, 0, 0]),
    (WorkStep::Packet(THIRD, A1, 1, SHAKEN), [0, 1, 0, 0, 0]),
    (
        WorkStep::Packet(FIRST, A1, 2, Outcome::New(RuleNo(2))),
        [3, 0, 0, 0, 0],
    ),
    (WorkStep::Packet(SECOND, A1, 2, SHAKEN), [0, 1, 0, 0, 0]),
    (WorkStep::Packet(THIRD, A1, 2, ALL), [0, 4, 0, 0, 0]),
    (
        WorkStep::Packet(FIRST, A1, 3, Outcome::Block(RuleNo(0))),
        [1, 0, 0, 0, 0],
    ),
];

const ALL: Outcome = Outcome::Kill {
    rule: RuleNo(2),
    exceeded: Exceeded::Connections,
    overload: Some(Added::New),
    killed: 3,
};

#[test]
fn a_packet_looks_at_its_state_and_at_those_it_kills(rt: HostRuntime) -> Result<(), Fail> {
    let rules = "pass in proto tcp to any port 80 keep state (max 2, max-src-conn 1)";
    works(&rt, rules, KILLED, (1, 1, 0))?;
    let rules = "block quick from <bad>\npass in proto udp all\n\
        pass in proto tcp to any port 80 keep state (max-src-conn 1, overload <bad> flush global)";
    works(&rt, rules, FLUSHED, (1, 1, 1))
}

/// Six states and four nodes may be held: a slice examines at most two states and one node. The
/// first moment purges nothing
const SHARES: &[WorkRow] = &[
    (WorkStep::Until(100), [0, 0, 0, 0, 0]),
    (WorkStep::Packet(UDP, A1, 1, NEW), [1, 0, 0, 0, 0]),
    (WorkStep::Packet(UDP, A2, 1, NEW), [1, 0, 0, 0, 0]),
    (WorkStep::Packet(UDP, A1, 2, NEW), [1, 0, 0, 0, 0]),
    (WorkStep::Packet(UDP, A2, 2, NEW), [1, 0, 0, 0, 0]),
    (WorkStep::Packet(UDP, A1, 3, NEW), [1, 0, 0, 0, 0]),
    (WorkStep::Packet(UDP, A2, 3, NEW), [1, 0, 0, 0, 0]),
    (WorkStep::Until(100), [0, 0, 0, 0, 0]),
    (WorkStep::Until(101), [0, 2, 2, 2, 1]),
    (WorkStep::Until(103), [0, 2, 4, 2, 1]),
    (WorkStep::Until(200), [0, 2, 194, 2, 1]),
    (WorkStep::Until(210), [0, 0, 20, 0, 0]),
];

#[test]
fn a_slice_examines_at_most_its_share(rt: HostRuntime) -> Result<(), Fail> {
    let rules = "set limit { states 6, src-nodes 4 }\nset timeout { interval 5, udp.first 9 }\n\
        pass in proto udp all keep state (source-track rule)";
    works(&rt, rules, SHARES, (0, 0, 0))
}

const EMPTY: &[WorkRow] = &[
    (WorkStep::Until(0), [0, 0, 0, 0, 0]),
    (WorkStep::Until(4_294_967_295), [0, 0, 8_589_934_590, 0, 0]),
];

/// A state that lives for 60 seconds leaves
const ONE_STATE: &[WorkRow] = &[
    (WorkStep::Until(0), [0, 0, 0, 0, 0]),
    (WorkStep::Packet(UDP, A1, 1, NEW), [1, 0, 0, 0, 0]),
    (WorkStep::Until(4_294_967_295), [0, 1, 8_589_934_590, 1, 0]),
];

#[test]
fn a_long_jump_is_short_where_nothing_is_held(rt: HostRuntime) -> Result<(), Fail> {
    works(&rt, "pass in proto udp all", EMPTY, (0, 0, 0))?;
    works(&rt, "pass in proto udp all", ONE_STATE, (0, 0, 0))
}

/// A state that lives for 2,147,483,647 seconds, and leaves in the last of them
const STAYING: &[WorkRow] = &[
    (WorkStep::Until(0), [0, 0, 0, 0, 0]),
    (WorkStep::Packet(UDP, A1, 1, NEW), [1, 0, 0, 0, 0]),
    (WorkStep::Until(2_147_483_646), [0, 1, 4_294_967_292, 1, 1]),
    (WorkStep::Packet(UDP, A2, 1, NEW), [1, 0, 0, 0, 0]),
    (WorkStep::Until(2_147_483_647), [0, 2, 2, 2, 2]),
    (WorkStep::Until(4_294_967_292), [0, 1, 4_294_967_290, 1, 1]),
    (WorkStep::Until(4_294_967_295), [0, 1, 6, 1, 1]),
];

#[test]
fn a_long_jump_is_short_where_what_is_held_stays(rt: HostRuntime) -> Result<(), Fail> {
    let rules =
        "set timeout udp.first 2147483647\npass in proto udp all keep state (source-track rule)";
    let alloc = rt.alloc();
    follow(
        &rt,
        indexed(alloc, UNSCALED, rules)?,
        STAYING,
        true,
        (0, 0, 0),
    )
}

/// A case over an indexed store, at how many states each packet looks at most, and each lapse of time.
struct Looked {
    case: Case,
    of_packets: &'static [u64],
    of_time: u64,
}

const AT_MOST: &[Looked] = &[
    Looked {
        case: THIRD_STATE,
        of_packets: &[0, 0, 0],
        of_time: 0,
    },
    Looked {
        case: SECOND_CONNECTION,
        of_packets: &[0, 1, 1, 0, 1, 2],
        of_time: 0,
    },
    Looked {
        case: FLUSH,
        of_packets: &[0, 0, 1, 1, 0, 1, 4, 0],
        of_time: 0,
    },
    Looked {
        case: FLUSH_GLOBAL,
        of_packets: &[0, 0, 1, 1, 0, 1, 4, 0],
        of_time: 0,
    },
    Looked {
        case: FLOOD,
        of_packets: &[0; 14],
        of_time: 2,
    },
];

/// One event, and the looks that it took at most.
fn look<S: Store>(
    rt: &impl Abort,
    engine: &mut Engine<S>,
    event: &Event,
    outcome: Outcome,
    (of_time, of_packet): (u64, u64),
) -> Result<(), Fail> {
    pass_time(rt, engine, event.time);
    same!(rt; engine.work().looks <= of_time, true, event);
    if let Arrival::Packet(packet) = &event.what {
        same!(rt; take(rt, engine, packet)?, outcome, event);
        same!(rt; engine.work().looks <= of_packet, true, event);
    }
    Ok(())
}

#[test]
fn looks_are_at_most_those_of_their_rows(rt: HostRuntime) -> Result<(), Fail> {
    for Looked {
        case,
        of_packets,
        of_time,
    } in AT_MOST {
        let script = Script::of(rt.alloc(), case.rows)?;
        let mut engine = indexed(rt.alloc(), UNSCALED, case.rules)?;
        for ((event, outcome), of_packet) in script
            .events
            .iter()
            .zip(&script.outcomes)
            .zip(*of_packets)
        {
            look(&rt, &mut engine, event, *outcome, (*of_time, *of_packet))?;
        }
        same!(rt; (held(&engine), of_packets.len()), (case.end, script.events.len()), case.shows);
    }
    Ok(())
}
