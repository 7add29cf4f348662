//! The same thousands of calls, drawn from a fixed seed, over plain lists and over indexes, without a profile and under that of
//! OpenBSD 7.4: every answer and every count is the same.

use super::tried::Tried;
use pfs_addr_values::{Addr, Dir, Flags, FlowKey, Packet};
use pfs_conf::{Config, RuleNo};
use pfs_store::IndexStore;
use pfs_store_contract::{Limit, Slice, StateNo, Store, Touched};
use pfs_store_plain::PlainStore;
use pfs_tests_cases::{SERVER, Sent, configured, packet};
use std::alloc::AllocGlobal;
use std::process::Abort;
use std::test::Fail;

/// What a call answered.
#[derive(Debug, Clone, Copy, PartialEq, Eq)]
enum Answer {
    /// Whether the connection had closed before.
    Touched(bool, Touched),
    Admitted(Result<StateNo, Limit>),
    Killed(Option<StateNo>),
    Flushed(u64),
    Purged(Slice, Slice),
}

/// What a call answered, how many states, half open states and source nodes are held after it, and how many numbers were used.
#[derive(Debug, Clone, Copy, PartialEq, Eq)]
struct Told {
    answer: Answer,
    states: u64,
    half_open: u64,
    nodes: u64,
    made: u64,
}

const CALLS: u64 = 20_000;

/// Five rules: sources of its own, or of all rules, a rate, no limit, and sloppy states.
const RULES: &str = "set limit { states 12, src-nodes 5 }
set timeout { interval 3, src.track 2, tcp.first 9, adaptive.start 4, adaptive.end 16 }
pass keep state (max 5, source-track rule, max-src-nodes 3, max-src-states 2)
pass keep state (max 5, source-track global, max-src-nodes 3, max-src-states 2)
pass keep state (source-track rule, max-src-conn 1, max-src-conn-rate 3/10)
pass keep state
pass keep state (max 3, source-track rule, sloppy)
";

const PROFILES: [&str; 2] = ["", "set profile openbsd-7.4\n"];

/// A packet of one of six sources, from one of eight ports or to it, with flags by the draw
fn drawn(draw: u64) -> Result<Packet, Fail> {
    let flags = Flags {
        syn: draw / 1_024 % 2 == 0,
        ack: draw / 2_048 % 3 != 0,
        fin: draw / 8_192 % 16 == 0,
        ..Flags::default()
    };
    let sent = if draw / 512 % 2 == 0 {
        Sent::Tcp(80, flags)
    } else {
        Sent::Answer(flags)
    };
    Ok(packet(&sent, source(draw), (draw / 64 % 8) as u16)?)
}

fn source(draw: u64) -> Addr {
    Addr::V4([198, 51, 100, (draw / 8 % 6) as u8])
}

/// A packet comes: of the state that has its key, or for a new one; a sixteenth of these bring a SYN cookie
fn come<S: Store>(rt: &impl Abort, tried: &mut Tried<S>, draw: u64) -> Result<Answer, Fail> {
    let packet = drawn(draw)?;
    if tried.store().find(&FlowKey::of(&packet)).is_some() {
        let closed = tried.has_closed(&packet)?;
        return Ok(Answer::Touched(closed, tried.touch(&packet)?));
    }
    let rule = RuleNo((draw / 131_072 % 5) as u32);
    let cookie = draw / 1_048_576 % 16 == 0;
    Ok(Answer::Admitted(tried.admit(rt, &packet, rule, cookie)?))
}

/// A source is flushed, of one rule or of all; of an eighth of these it is the server
fn wash<S: Store>(tried: &mut Tried<S>, draw: u64) -> Answer {
    let rule = if draw / 64 % 2 == 0 {
        Some(RuleNo((draw / 128 % 5) as u32))
    } else {
        None
    };
    if draw / 4_096 % 8 == 0 {
        Answer::Flushed(tried.flush(Dir::Out, SERVER, rule))
    } else {
        Answer::Flushed(tried.flush(Dir::In, source(draw), rule))
    }
}

/// A state is killed, where one has the key of the drawn packet
fn end<S: Store>(tried: &mut Tried<S>, draw: u64) -> Result<Answer, Fail> {
    Ok(Answer::Killed(tried.kill(&drawn(draw)?)))
}

/// The slices of a second
fn purge<S: Store>(tried: &mut Tried<S>) -> Answer {
    let states = tried.purge_states();
    Answer::Purged(states, tried.purge_nodes())
}

/// One call, by the draw
fn call<S: Store>(rt: &impl Abort, tried: &mut Tried<S>, draw: u64) -> Result<Answer, Fail> {
    match draw % 8 {
        0 => Ok(wash(tried, draw)),
        1 => end(tried, draw),
        2 => Ok(purge(tried)),
        _ => come(rt, tried, draw),
    }
}

/// The next draw (a linear congruential generator, of Knuth's constants)
fn next(draw: u64) -> u64 {
    draw.wrapping_mul(6_364_136_223_846_793_005)
        .wrapping_add(1_442_695_040_888_963_407)
}

/// What the calls answer, five in a second
fn answers<S: Store>(
    rt: &(impl Abort + AllocGlobal),
    tried: &mut Tried<S>,
) -> Result<Vec<Told>, Fail> {
    let mut told = Vec::new(rt.alloc());
    let mut seed = 1u64;
    for step in 0..CALLS {
        seed = next(seed);
        tried.go_to(rt, step / 5);
        let answer = call(rt, tried, seed / 65_536)?;
        let store = tried.store();
        told.push(Told {
            answer,
            states: store.state_count(),
            half_open: store.half_open_count(),
            nodes: store.node_count(),
            made: store.made(),
        })?;
    }
    Ok(told)
}

/// What the calls answer over plain lists
fn listed(rt: &(impl Abort + AllocGlobal), config: &Config) -> Result<Vec<Told>, Fail> {
    answers(
        rt,
        &mut Tried::new(PlainStore::new(rt.alloc(), config)?, config),
    )
}

/// What they answer over indexes
fn indexed(rt: &(impl Abort + AllocGlobal), config: &Config) -> Result<Vec<Told>, Fail> {
    answers(
        rt,
        &mut Tried::new(IndexStore::new(rt.alloc(), config)?, config),
    )
}

fn compare(rt: &(impl Abort + AllocGlobal), config: &Config) -> Result<(), Fail> {
    let listed = listed(rt, config)?;
    let indexed = indexed(rt, config)?;
    for (step, (told, wanted)) in indexed.iter().zip(&listed).enumerate() {
        assert_eq!(rt; told, wanted, "at step {step}");
    }
    assert_eq!(rt; indexed.len(), listed.len());
    assert!(rt; listed.last().is_some_and(|told| told.made > 100));
    assert!(rt; listed.iter().any(|told| told.half_open > 2));
    Ok(())
}

#[test]
fn both_stores_answer_alike(rt: HostRuntime) -> Result<(), Fail> {
    for profile in PROFILES {
        compare(&rt, &configured(rt.alloc(), profile, RULES)?)?;
    }
    Ok(())
}
