//! Engines over both kinds of store: events one by one, and as a run.

ghost use Rattle.std.specs.Prelude.{◌≤◌};

use crate::kinds::StoreKind;
use crate::telling::{Teller, TellingStop, begin, begin_case, begin_free, end, plain, refused};
use pfs_addr_values::{Packet, RUN_LIMIT};
use pfs_conf::{Config, TableNo};
use pfs_engine::{Arrival, Engine, Event, Outcome};
use pfs_engine_machine::{Command, Entered, FromTo};
use pfs_store::Store;
use pfs_tests_cases::{
    A1, A2, Case, FLUSH, NOT_REMOVED, REMOVED, RETENTION, RowEvent, Script, UNSCALED, are_allowed,
    configured, is_in_order, is_in_time, may_change, may_come,
};

const CASES: &[Case] = &[
    RETENTION,
    FLUSH,
    Case {
        shows: "the tables are full, and another packet matches no rule",
        rules: "set limit table-entries 1\ntable <bad> { 203.0.113.9 }\n\
            pass in proto tcp to any port 80 keep state (max-src-conn 1, overload <bad>)",
        rows: &[
            (0, RowEvent::Shake(0), A1, 1000, "state @0"),
            (
                0,
                RowEvent::Shake(0),
                A1,
                1001,
                "kill:max-src-conn @0 overload=full killed=1",
            ),
            (0, RowEvent::Udp(53), A1, 1, "pass -"),
        ],
        end: (1, 1, 1),
    },
    Case {
        shows: "states of both protocols, and a second connection",
        rules: "pass in proto udp all\n\
            pass in proto tcp to any port 80 keep state (max-src-conn 1)",
        rows: &[
            (0, RowEvent::Shake(1), A1, 1000, "state @1"),
            (0, RowEvent::Udp(53), A1, 1, "new @0"),
            (1, RowEvent::Udp(53), A2, 1, "new @0"),
            (1, RowEvent::Udp(53), A2, 2, "new @0"),
            (2, RowEvent::Udp(53), A2, 1, "state @0"),
            (
                3,
                RowEvent::Shake(1),
                A1,
                1001,
                "kill:max-src-conn @1 overload=none killed=1",
            ),
        ],
        end: (4, 1, 0),
    },
    Case {
        shows: "SYN cookies are given, brought back and forgotten",
        rules: "set profile openbsd-7.4\n\
            set syncookies always\n\
            pass in proto tcp to any port 80 keep state (max 1)",
        rows: &[
            (0, RowEvent::Syn, A1, 1000, "cookie -"),
            (0, RowEvent::Syn, A1, 1000, "cookie -"),
            (0, RowEvent::Syn, A2, 1000, "cookie -"),
            (0, RowEvent::Ack, A1, 1000, "proxy:new @0"),
            (0, RowEvent::Ack, A1, 1000, "proxy:asks @0"),
            (15, RowEvent::Syn, A1, 1001, "cookie -"),
            (16, RowEvent::Ack, A2, 1000, "drop:max @0"),
            (45, RowEvent::Ack, A1, 1001, "pass -"),
        ],
        end: (1, 0, 0),
    },
    Case {
        shows: "an administrator adds entries, takes one out and asks",
        rules: "set limit table-entries 3\nblock in quick from <bad>\npass in proto udp all",
        rows: &[
            (0, RowEvent::Ask, A1, 0, "held - states=0 nodes=0 entries=0"),
            (
                0,
                RowEvent::Add("bad", "198.51.100.0/24"),
                A1,
                0,
                "add - added",
            ),
            (1, RowEvent::Udp(53), A1, 1, "block @0"),
            (
                1,
                RowEvent::Add("bad", "!198.51.100.1"),
                A1,
                0,
                "add - added",
            ),
            (
                1,
                RowEvent::Add("bad", "198.51.100.1"),
                A1,
                0,
                "add - conflict",
            ),
            (1, RowEvent::Udp(53), A1, 1, "new @1"),
            (
                2,
                RowEvent::Add("bad", "2001:db8::/32"),
                A1,
                0,
                "add - added",
            ),
            (
                2,
                RowEvent::Add("bad", "2001:db8::/32"),
                A1,
                0,
                "add - held",
            ),
            (2, RowEvent::Add("bad", "10.0.0.0/8"), A1, 0, "add - full"),
            (3, RowEvent::Delete("bad", "2001:db8::/32"), A1, 0, REMOVED),
            (
                3,
                RowEvent::Delete("bad", "2001:db8::/32"),
                A1,
                0,
                NOT_REMOVED,
            ),
            (3, RowEvent::Add("bad", "10.0.0.0/8"), A1, 0, "add - added"),
            (4, RowEvent::Expire(3), A1, 0, "expire - removed=2"),
            (4, RowEvent::Ask, A1, 0, "held - states=1 nodes=0 entries=1"),
            (
                4,
                RowEvent::Kill("198.51.100.1", ""),
                A1,
                0,
                "kill - killed=1",
            ),
        ],
        end: (0, 0, 1),
    },
];

/// Whether the rules have a table for overload.
fn has_overload(case: &Case) -> bool {
    case.rules.contains("overload")
}

fn config_of(teller: &Teller, case: &Case) -> Result<Config, TellingStop> {
    Ok(configured(teller.alloc(), UNSCALED, case.rules)?)
}

/// Engines over a kind of store.
pub fn tell<S: StoreKind + Drop>(teller: &Teller) -> Result<(), TellingStop> {
    for case in CASES {
        if !make::<S>(teller, case)? {
            make::<S>(teller, case)?;
        }
        walk_one::<S>(teller, case)?;
        step_one::<S>(teller, case)?;
        run_one::<S>(teller, case)?;
    }
    Ok(())
}

/// Whether a new engine was made, which is before the first event.
fn make<S: StoreKind + Drop>(teller: &Teller, case: &Case) -> Result<bool, TellingStop> {
    let config = config_of(teller, case)?;
    let store = S::empty(teller.alloc(), &config)?;
    begin(teller, "Engine::new")?;
    let made = Engine::new(teller.alloc(), config, store);
    end(teller)?;
    match made {
        Ok(engine) => plain(teller, engine.last() == None && engine.states() == 0),
        Err(_) => refused(teller, true),
    }
}

fn engine_of<S: StoreKind + Drop>(teller: &Teller, case: &Case) -> Result<Engine<S>, TellingStop> {
    let config = config_of(teller, case)?;
    let store = S::empty(teller.alloc(), &config)?;
    Ok(Engine::new(teller.alloc(), config, store)?)
}

fn walk_one<S: StoreKind + Drop>(teller: &Teller, case: &Case) -> Result<(), TellingStop> {
    let mut engine = engine_of::<S>(teller, case)?;
    walk(teller, &mut engine, case)
}

fn step_one<S: StoreKind + Drop>(teller: &Teller, case: &Case) -> Result<(), TellingStop> {
    let mut engine = engine_of::<S>(teller, case)?;
    step_each(teller, &mut engine, case)
}

fn run_one<S: StoreKind + Drop>(teller: &Teller, case: &Case) -> Result<(), TellingStop> {
    let mut engine = engine_of::<S>(teller, case)?;
    run_all(teller, &mut engine, case)
}

/// How many states, source nodes and entries are held, and how many packets were taken.
fn held<S: Store>(engine: &Engine<S>) -> (u64, u64, u64, u64) {
    (
        engine.states(),
        engine.nodes(),
        engine.entries(),
        engine.taken(),
    )
}

/// The events one by one.
fn walk<S: Store>(teller: &Teller, engine: &mut Engine<S>, case: &Case) -> Result<(), TellingStop> {
    let script = Script::of(teller.alloc(), case.rows)?;
    for (event, outcome) in script.events.iter().zip(&script.outcomes) {
        take_event(teller, engine, case, event, *outcome)?;
    }
    begin_free(teller, "what is held")?;
    let is_right = is_end(engine, case);
    end(teller)?;
    plain(teller, is_right)?;
    if has_overload(case) {
        expire(teller, engine, case)?;
    }
    Ok(())
}

/// All entries of the table leave, those of the text too.
fn expire<S: Store>(
    teller: &Teller,
    engine: &mut Engine<S>,
    case: &Case,
) -> Result<(), TellingStop> {
    if engine.last().is_none() || !may_change(engine.config(), TableNo(0)) {
        return Err(TellingStop::Input);
    }
    let (states, nodes, entries, taken) = held(engine);
    begin_free(teller, "expire")?;
    let left = engine.expire(TableNo(0), 0);
    end(teller)?;
    let stays = held(engine) == (states, nodes, 0, taken);
    plain(teller, stays && left == entries && entries == case.end.2)?;
    Ok(())
}

/// What is held is what the case has in the end.
fn is_end<S: Store>(engine: &Engine<S>, case: &Case) -> bool {
    let (states, nodes, entries, _) = held(engine);
    (states, nodes, entries) == case.end
}

/// An event at its moment, and once more where memory was refused.
fn take_event<S: Store>(
    teller: &Teller,
    engine: &mut Engine<S>,
    case: &Case,
    event: &Event,
    wanted: Outcome,
) -> Result<(), TellingStop> {
    advance(teller, engine, event.time)?;
    match &event.what {
        Arrival::Packet(packet) => {
            if !take(teller, engine, case, packet, wanted)? {
                take(teller, engine, case, packet, wanted)?;
            }
            Ok(())
        }
        Arrival::Table { table, command } => {
            if !change(teller, engine, *table, command, wanted)? {
                change(teller, engine, *table, command, wanted)?;
            }
            Ok(())
        }
        Arrival::Kill(hosts) => kill(teller, engine, hosts, wanted),
        Arrival::HeldQuery => ask(teller, engine, wanted),
        Arrival::Skip => Err(TellingStop::Input),
    }
}

/// A command by a call of its own, which alone of all may take memory where an entry is new.
fn change<S: Store>(
    teller: &Teller,
    engine: &mut Engine<S>,
    table: TableNo,
    command: &Command,
    wanted: Outcome,
) -> Result<bool, TellingStop> {
    if engine.last().is_none() || !may_change(engine.config(), table) {
        return Err(TellingStop::Input);
    }
    let before = (held(engine), engine.last());
    begin_change(teller, wanted, command_name(command))?;
    let answer = match command {
        Command::Expire(seconds) => Ok(Outcome::Expire(engine.expire(table, *seconds))),
        Command::Add(entry) => match engine.add(table, entry) {
            Ok(became) => Ok(Outcome::Add(became)),
            Err(error) => Err(error),
        },
        Command::Delete(entry) => Ok(Outcome::Delete(engine.delete(table, entry))),
    };
    end(teller)?;
    match answer {
        Ok(outcome) => plain(teller, outcome == wanted),
        Err(_) => refused(teller, (held(engine), engine.last()) == before),
    }
}

fn command_name(command: &Command) -> &'static str {
    match command {
        Command::Expire(_) => "expire",
        Command::Add(_) => "add",
        Command::Delete(_) => "delete",
    }
}

/// A call begins that takes memory only for an entry that is new.
fn begin_change(teller: &Teller, wanted: Outcome, call: &'static str) -> Result<(), TellingStop> {
    match wanted {
        Outcome::Add(Entered::New) => begin_case(teller, call, " of an entry that is new"),
        _ => begin_free(teller, call),
    }
}

fn kill<S: Store>(
    teller: &Teller,
    engine: &mut Engine<S>,
    hosts: &FromTo,
    wanted: Outcome,
) -> Result<(), TellingStop> {
    if engine.last().is_none() {
        return Err(TellingStop::Input);
    }
    begin_free(teller, "kill")?;
    let killed = engine.kill(hosts);
    end(teller)?;
    plain(teller, Outcome::Killed(killed) == wanted)?;
    Ok(())
}

fn ask<S: Store>(teller: &Teller, engine: &Engine<S>, wanted: Outcome) -> Result<(), TellingStop> {
    begin_free(teller, "amounts")?;
    let told = engine.amounts();
    end(teller)?;
    plain(teller, Outcome::HeldAnswer(told) == wanted)?;
    Ok(())
}

fn advance<S: Store>(
    teller: &Teller,
    engine: &mut Engine<S>,
    time: u64,
) -> Result<(), TellingStop> {
    if !is_in_time(engine.last(), time) {
        return Err(TellingStop::Input);
    }
    begin_free(teller, "advance")?;
    engine.advance(time);
    end(teller)?;
    plain(teller, engine.last() == Some(time))?;
    Ok(())
}

fn take<S: Store>(
    teller: &Teller,
    engine: &mut Engine<S>,
    case: &Case,
    packet: &Packet,
    wanted: Outcome,
) -> Result<bool, TellingStop> {
    let taken = engine.taken();
    if engine.last().is_none() || taken >= RUN_LIMIT {
        return Err(TellingStop::Input);
    }
    let before = (held(engine), engine.last());
    begin_for(teller, case, wanted, "packet")?;
    let answer = engine.packet(packet);
    end(teller)?;
    match answer {
        Ok(outcome) => plain(teller, outcome == wanted && engine.taken() == taken + 1),
        Err(_) => refused(teller, (held(engine), engine.last()) == before),
    }
}

/// A call begins. Memory is taken where a state is made, for a SYN cookie, and for a TCP packet of a rule with overload.
fn begin_for(
    teller: &Teller,
    case: &Case,
    wanted: Outcome,
    call: &'static str,
) -> Result<(), TellingStop> {
    match wanted {
        Outcome::New(_) | Outcome::Answered(_) => {
            begin_case(teller, call, " that makes a state")
        }
        Outcome::Cookie => begin_case(teller, call, " that gives a cookie"),
        Outcome::Add(Entered::New) => begin_case(teller, call, " of an entry that is new"),
        Outcome::State(_) | Outcome::Taken(_) | Outcome::Asking(_) | Outcome::Kill { .. }
            if has_overload(case) => begin_case(teller, call, " of a rule with overload"),
        _ => begin_free(teller, call),
    }
}

/// The events by one call each, with the time up to them; once more where memory was refused.
fn step_each<S: Store>(
    teller: &Teller,
    engine: &mut Engine<S>,
    case: &Case,
) -> Result<(), TellingStop> {
    let script = Script::of(teller.alloc(), case.rows)?;
    for (event, outcome) in script.events.iter().zip(&script.outcomes) {
        let row = (event, *outcome);
        if !step(teller, engine, case, row)? {
            step(teller, engine, case, row)?;
        }
    }
    begin_free(teller, "what is held")?;
    let is_right = is_end(engine, case);
    end(teller)?;
    plain(teller, is_right)?;
    Ok(())
}

/// An event by one call, which has this outcome.
fn step<S: Store>(
    teller: &Teller,
    engine: &mut Engine<S>,
    case: &Case,
    row: (&Event, Outcome),
) -> Result<bool, TellingStop> {
    let (event, wanted) = row;
    let taken = engine.taken();
    let entries = engine.entries();
    if !is_in_time(engine.last(), event.time) || taken >= RUN_LIMIT {
        return Err(TellingStop::Input);
    }
    if !may_come(engine.config(), &event.what) {
        return Err(TellingStop::Input);
    }
    begin_for(teller, case, wanted, "step")?;
    let answer = engine.step(event);
    end(teller)?;
    let is_there = engine.last() == Some(event.time);
    match answer {
        Ok(outcome) => plain(
            teller,
            is_there && outcome == wanted && engine.taken() == taken + packets_of(event),
        ),
        Err(_) => refused(
            teller,
            is_there && engine.taken() == taken && engine.entries() == entries,
        ),
    }
}

/// An event is one packet, or none.
fn packets_of(event: &Event) -> u64
    ensures { result ≤ 1 }
{
    match event.what {
        Arrival::Packet(_) => 1,
        _ => 0,
    }
}

/// All events by one call; where it is refused, those that are left by another.
fn run_all<S: Store>(
    teller: &Teller,
    engine: &mut Engine<S>,
    case: &Case,
) -> Result<(), TellingStop> {
    let script = Script::of(teller.alloc(), case.rows)?;
    let mut outcomes = Vec::new(teller.alloc());
    if !run_once(teller, engine, &script, &mut outcomes, case)? {
        run_once(teller, engine, &script, &mut outcomes, case)?;
    }
    Ok(())
}

fn run_once<S: Store>(
    teller: &Teller,
    engine: &mut Engine<S>,
    script: &Script,
    outcomes: &mut Vec<Outcome>,
    case: &Case,
) -> Result<bool, TellingStop> {
    let done = outcomes.len().min(script.events.len());
    let events = &script.events[done..];
    if !is_in_order(engine.last(), events) || engine.taken() > 1_000 || events.len() > 1_000 {
        return Err(TellingStop::Input);
    }
    if !are_allowed(engine.config(), events) {
        return Err(TellingStop::Input);
    }
    begin(teller, "run")?;
    let answer = engine.run(events, outcomes);
    end(teller)?;
    let is_front = is_front(outcomes, &script.outcomes)
        && engine.taken() == packets_in(script, outcomes.len());
    let is_whole = outcomes.len() == script.outcomes.len();
    match answer {
        Ok(()) => plain(teller, is_front && is_whole && is_end(engine, case)),
        Err(_) => refused(teller, is_front && !is_whole),
    }
}

/// How many of the first so many events are packets.
fn packets_in(script: &Script, count: usize) -> u64 {
    let mut packets: u64 = 0;
    for event in script.events.iter().take(count) {
        packets = packets.saturating_add(packets_of(event));
    }
    packets
}

/// The outcomes are those of the first events.
fn is_front(outcomes: &[Outcome], wanted: &[Outcome]) -> bool {
    outcomes.len() <= wanted.len()
        && outcomes
            .iter()
            .zip(wanted)
            .all(|(outcome, it)| outcome == it)
}
