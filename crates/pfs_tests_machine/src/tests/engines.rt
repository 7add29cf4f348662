//! Engines over each kind of store, and what they do with the events of a case.

use super::tallied::Tallied;
use pfs_addr_values::{Packet, RUN_LIMIT};
use pfs_conf::TableNo;
use pfs_engine::{Arrival, Engine, Event, Outcome};
use pfs_engine_machine::{Command, FromTo};
use pfs_store::IndexStore;
use pfs_store_contract::Store;
use pfs_store_plain::PlainStore;
use pfs_tests_cases::{
    Case, Script, are_allowed, configured, is_in_order, is_in_time, may_change, may_come, same,
};
use std::alloc::{AllocGlobal, Global};
use std::process::Abort;
use std::test::Fail;

/// An engine over a plain store.
pub fn plain(alloc: Global, first: &str, rules: &str) -> Result<Engine<PlainStore>, Fail> {
    let config = configured(alloc, first, rules)?;
    let store = PlainStore::new(alloc, &config)?;
    Ok(Engine::new(alloc, config, store)?)
}

/// An engine over a store by indexes.
pub fn indexed(alloc: Global, first: &str, rules: &str) -> Result<Engine<IndexStore>, Fail> {
    let config = configured(alloc, first, rules)?;
    let store = IndexStore::new(alloc, &config)?;
    Ok(Engine::new(alloc, config, store)?)
}

/// An engine over a plain store whose changes are counted.
pub fn tallied(
    alloc: Global,
    first: &str,
    rules: &str,
) -> Result<Engine<Tallied<PlainStore>>, Fail> {
    let config = configured(alloc, first, rules)?;
    let store = Tallied::new(PlainStore::new(alloc, &config)?);
    Ok(Engine::new(alloc, config, store)?)
}

/// Over each kind of store one by one, and as a run: the outcomes, and what is held in the end.
fn tell(rt: &(impl Abort + AllocGlobal), first: &str, case: &Case) -> Result<(), Fail> {
    let alloc = rt.alloc();
    let script = Script::of(alloc, case.rows)?;
    for calls in [Calls::Own, Calls::Steps] {
        ends(rt, plain(alloc, first, case.rules)?, &script, case, calls)?;
    }
    ends(
        rt,
        tallied(alloc, first, case.rules)?,
        &script,
        case,
        Calls::Own,
    )?;
    for calls in [Calls::Own, Calls::Commands, Calls::Steps] {
        ends(rt, indexed(alloc, first, case.rules)?, &script, case, calls)?;
    }
    runs(rt, plain(alloc, first, case.rules)?, &script, case)?;
    runs(rt, indexed(alloc, first, case.rules)?, &script, case)
}

/// Each case, after a first line of rules.
pub fn tell_each(rt: &(impl Abort + AllocGlobal), first: &str, cases: &[Case]) -> Result<(), Fail> {
    for case in cases {
        tell(rt, first, case)?;
    }
    Ok(())
}

/// Lets time pass to a moment that is not before the last one.
pub fn pass_time<S: Store>(rt: &impl Abort, engine: &mut Engine<S>, time: u64) {
    assert!(rt; is_in_time(engine.last(), time));
    engine.advance(time);
}

/// One packet at the last moment.
pub fn take<S: Store>(
    rt: &impl Abort,
    engine: &mut Engine<S>,
    packet: &Packet,
) -> Result<Outcome, Fail> {
    assert!(rt; engine.last().is_some() && engine.taken() < RUN_LIMIT);
    Ok(engine.packet(packet)?)
}

/// A command at the last moment, by a call of its own, which changes neither what was taken nor the work.
fn change<S: Store>(
    rt: &impl Abort,
    engine: &mut Engine<S>,
    table: TableNo,
    command: &Command,
) -> Result<Outcome, Fail> {
    assert!(rt; engine.last().is_some() && may_change(engine.config(), table));
    let before = (engine.first(), engine.taken(), engine.work());
    let told = match command {
        Command::Expire(seconds) => Outcome::Expire(engine.expire(table, *seconds)),
        Command::Add(entry) => Outcome::Add(engine.add(table, entry)?),
        Command::Delete(entry) => Outcome::Delete(engine.delete(table, entry)),
    };
    same!(rt; (engine.first(), engine.taken(), engine.work()), before);
    Ok(told)
}

/// States are taken out at the last moment, by a call of its own, which changes neither what was taken nor the work.
fn kill<S: Store>(
    rt: &impl Abort,
    engine: &mut Engine<S>,
    hosts: &FromTo,
) -> Result<Outcome, Fail> {
    assert!(rt; engine.last().is_some());
    let before = (engine.first(), engine.taken(), engine.work());
    let killed = engine.kill(hosts);
    same!(rt; (engine.first(), engine.taken(), engine.work()), before);
    Ok(Outcome::Killed(killed))
}

/// What comes at the last moment, by the call for it.
fn come<S: Store>(
    rt: &impl Abort,
    engine: &mut Engine<S>,
    what: &Arrival,
) -> Result<Outcome, Fail> {
    match what {
        Arrival::Packet(packet) => take(rt, engine, packet),
        Arrival::Skip => Ok(Outcome::Skip),
        Arrival::Table { table, command } => change(rt, engine, *table, command),
        Arrival::Kill(hosts) => kill(rt, engine, hosts),
        Arrival::HeldQuery => Ok(Outcome::HeldAnswer(engine.amounts())),
    }
}

/// What comes at the last moment, where each command comes by one call for all.
fn command<S: Store>(
    rt: &impl Abort,
    engine: &mut Engine<S>,
    what: &Arrival,
) -> Result<Outcome, Fail> {
    let Arrival::Table { table, command } = what else {
        return come(rt, engine, what);
    };
    assert!(rt; engine.last().is_some() && may_change(engine.config(), *table));
    Ok(engine.command(*table, command)?)
}

/// How many states, source nodes and entries are held.
pub fn held<S: Store>(engine: &Engine<S>) -> (u64, u64, u64) {
    (engine.states(), engine.nodes(), engine.entries())
}

/// By which calls an event reaches an engine.
#[derive(Clone, Copy)]
enum Calls {
    /// One for the time, and one for what comes
    Own,
    /// The same, but one for every command
    Commands,
    /// One for all
    Steps,
}

/// One event by the calls for it: a packet that is refused changes nothing held.
fn by_own_calls<S: Store>(
    rt: &impl Abort,
    engine: &mut Engine<S>,
    event: &Event,
) -> Result<Outcome, Fail> {
    pass_time(rt, engine, event.time);
    let before = held(engine);
    let told = come(rt, engine, &event.what)?;
    assert!(rt; !matches!(told, Outcome::Drop(..)) || held(engine) == before);
    Ok(told)
}

fn by_a_step<S: Store>(
    rt: &impl Abort,
    engine: &mut Engine<S>,
    event: &Event,
) -> Result<Outcome, Fail> {
    assert!(rt; is_in_time(engine.last(), event.time));
    assert!(rt; engine.taken() < RUN_LIMIT);
    assert!(rt; may_come(engine.config(), &event.what));
    Ok(engine.step(event)?)
}

fn take_event<S: Store>(
    rt: &impl Abort,
    engine: &mut Engine<S>,
    event: &Event,
    calls: Calls,
) -> Result<Outcome, Fail> {
    match calls {
        Calls::Own => by_own_calls(rt, engine, event),
        Calls::Commands => {
            pass_time(rt, engine, event.time);
            command(rt, engine, &event.what)
        }
        Calls::Steps => by_a_step(rt, engine, event),
    }
}

/// The events one by one, and what is held after them
fn ends<S: Store + Drop>(
    rt: &impl Abort,
    engine: Engine<S>,
    script: &Script,
    case: &Case,
    calls: Calls,
) -> Result<(), Fail> {
    let mut engine = engine;
    same!(rt; (engine.last(), engine.taken()), (None, 0));
    for (event, outcome) in script.events.iter().zip(&script.outcomes) {
        same!(rt; take_event(rt, &mut engine, event, calls)?, *outcome, (case.shows, event));
    }
    check_end(rt, &engine, script, case);
    Ok(())
}

/// All events by one call, and what is held after them
fn runs<S: Store + Drop>(
    rt: &(impl Abort + AllocGlobal),
    engine: Engine<S>,
    script: &Script,
    case: &Case,
) -> Result<(), Fail> {
    let mut engine = engine;
    let mut outcomes = Vec::new(rt.alloc());
    assert!(rt; is_in_order(engine.last(), &script.events));
    assert!(rt; engine.taken() == 0 && script.events.len() as u64 <= RUN_LIMIT);
    assert!(rt; are_allowed(engine.config(), &script.events));
    engine.run(&script.events, &mut outcomes)?;
    same!(rt; outcomes, script.outcomes, case.shows);
    check_end(rt, &engine, script, case);
    Ok(())
}

/// What is held after the script, how many packets were taken, and the last moment
fn check_end<S: Store>(rt: &impl Abort, engine: &Engine<S>, script: &Script, case: &Case) {
    same!(rt; held(engine), case.end, case.shows);
    same!(rt; engine.taken(), script.packets);
    same!(rt; engine.first(), time_of(script.events.first()));
    same!(rt; engine.last(), time_of(script.events.last()));
}

fn time_of(event: Option<&Event>) -> Option<u64> {
    match event {
        Some(event) => Some(event.time),
        None => None,
    }
}
