//! Both kinds of store: new ones, and states that are admitted, refused and taken away.

ghost use Rattle.std.specs.Prelude.{◌≡◌, None, false};
ghost use Rattle.pfs_store_contract.specs.Admission.{key_inside, wire_key};
ghost use Rattle.pfs_store_contract.specs.Worlds.{IsUpToNow, state_inside, state_with};

use crate::kinds::StoreKind;
use crate::rules_texts::NODES;
use crate::telling::{Teller, TellingStop, begin, begin_free, end, plain, refused, wrong};
use pfs_addr_values::{Addr, Dir, FlowKey, Meter, Packet, RUN_LIMIT};
use pfs_conf::{Config, RuleNo, load};
use pfs_store::{Limit, StateNo, Store};
use pfs_store_contract::{inner_key, wire_key};
use pfs_tests_cases::{A1, A2, EVERYTHING, Sent, packet};

/// The first rule tracks sources, the second does not; both share the states.
const LIMITED: &[u8] = b"set limit states 14\n\
    pass keep state (max 12, max-src-nodes 2, max-src-states 6)\npass\n";

const UNTRACKED: &[u8] = b"pass\n";

/// A refusal by `max` leaves a source node.
const PROFILED: &[u8] = b"set profile openbsd-7.4\npass keep state (max 1, source-track rule)\n";

/// What is asked of a store.
#[derive(Debug, Clone, Copy)]
enum Ask {
    /// The first state, of a rule that tracks sources.
    FirstTracked,
    /// The first one, of a rule that does not: it takes no memory for a source node.
    FirstUntracked,
    /// A later state of a rule that tracks sources.
    SourceTracked,
    /// One of a rule that does not.
    Untracked,
    /// A state where a limit is met: no memory is taken.
    AtLimit,
    /// One where a limit is met, and the refusal leaves a source node.
    Stray,
    /// A state in the room of one that has left: no memory is taken.
    InRoom,
}

/// What is asked, a source and a port, the rule, and the number of the state or the limit that is met.
type StoreCallRow = (Ask, Addr, u16, u32, Result<u64, Limit>);

const A3: Addr = Addr::V4([198, 51, 100, 3]);

const A4: Addr = Addr::V4([198, 51, 100, 4]);

const A5: Addr = Addr::V4([198, 51, 100, 5]);

const A6: Addr = Addr::V4([198, 51, 100, 6]);

const A7: Addr = Addr::V4([198, 51, 100, 7]);

const A8: Addr = Addr::V4([198, 51, 100, 8]);

const A9: Addr = Addr::V4([198, 51, 100, 9]);

const ROWS: &[StoreCallRow] = &[
    (Ask::FirstTracked, A1, 1, 0, Ok(1)),
    (Ask::SourceTracked, A1, 2, 0, Ok(2)),
    (Ask::Untracked, A1, 3, 1, Ok(3)),
    (Ask::SourceTracked, A2, 1, 0, Ok(4)),
    (Ask::AtLimit, A3, 1, 0, Err(Limit::MaxSrcNodes)),
    (Ask::SourceTracked, A1, 4, 0, Ok(5)),
    (Ask::SourceTracked, A1, 5, 0, Ok(6)),
    (Ask::SourceTracked, A1, 6, 0, Ok(7)),
    (Ask::SourceTracked, A1, 7, 0, Ok(8)),
    (Ask::AtLimit, A1, 8, 0, Err(Limit::MaxSrcStates)),
    (Ask::Untracked, A2, 2, 1, Ok(9)),
    (Ask::Untracked, A2, 3, 1, Ok(10)),
    (Ask::Untracked, A2, 4, 1, Ok(11)),
    (Ask::Untracked, A2, 5, 1, Ok(12)),
    (Ask::Untracked, A2, 6, 1, Ok(13)),
    (Ask::Untracked, A2, 7, 1, Ok(14)),
    (Ask::AtLimit, A2, 8, 1, Err(Limit::States)),
    (Ask::AtLimit, A2, 8, 0, Err(Limit::States)),
];

const UNTRACKED_ROWS: &[StoreCallRow] = &[
    (Ask::FirstUntracked, A1, 1, 0, Ok(1)),
    (Ask::Untracked, A1, 2, 0, Ok(2)),
    (Ask::Untracked, A2, 1, 0, Ok(3)),
    (Ask::Untracked, A2, 2, 0, Ok(4)),
];

/// Of many nodes some want more room.
const STRAY_ROWS: &[StoreCallRow] = &[
    (Ask::SourceTracked, A1, 1, 0, Ok(1)),
    (Ask::AtLimit, A1, 2, 0, Err(Limit::Max)),
    (Ask::Stray, A2, 1, 0, Err(Limit::Max)),
    (Ask::AtLimit, A2, 2, 0, Err(Limit::Max)),
    (Ask::Stray, A3, 1, 0, Err(Limit::Max)),
    (Ask::Stray, A4, 1, 0, Err(Limit::Max)),
    (Ask::Stray, A5, 1, 0, Err(Limit::Max)),
    (Ask::Stray, A6, 1, 0, Err(Limit::Max)),
    (Ask::Stray, A7, 1, 0, Err(Limit::Max)),
    (Ask::Stray, A8, 1, 0, Err(Limit::Max)),
    (Ask::Stray, A9, 1, 0, Err(Limit::Max)),
];

/// A kind of store.
pub fn tell<S: StoreKind + Drop>(teller: &Teller) -> Result<(), TellingStop> {
    for text in &[EVERYTHING, NODES, LIMITED] {
        let config = load(teller.alloc(), text)?;
        if !make::<S>(teller, &config)? {
            make::<S>(teller, &config)?;
        }
    }
    fill_first::<S>(teller)?;
    fill_second::<S>(teller)?;
    leave_nodes::<S>(teller)?;
    touch_first::<S>(teller)
}

/// Whether a new store was made, which holds nothing.
fn make<S: StoreKind + Drop>(teller: &Teller, config: &Config) -> Result<bool, TellingStop> {
    begin(teller, S::call())?;
    let made = S::empty(teller.alloc(), config);
    end(teller)?;
    match made {
        Ok(store) => plain(teller, counts(&store) == (0, 0, 0)),
        Err(_) => refused(teller, true),
    }
}

fn fill_first<S: StoreKind + Drop>(teller: &Teller) -> Result<(), TellingStop> {
    let config = load(teller.alloc(), LIMITED)?;
    let mut store = S::empty(teller.alloc(), &config)?;
    fill(teller, &mut store, &config)
}

fn fill_second<S: StoreKind + Drop>(teller: &Teller) -> Result<(), TellingStop> {
    let config = load(teller.alloc(), UNTRACKED)?;
    let mut store = S::empty(teller.alloc(), &config)?;
    fill_again(teller, &mut store, &config)
}

/// Refusals under a profile by which they leave source nodes.
fn leave_nodes<S: StoreKind + Drop>(teller: &Teller) -> Result<(), TellingStop> {
    let config = load(teller.alloc(), PROFILED)?;
    let mut store = S::empty(teller.alloc(), &config)?;
    admit_all(teller, &mut store, &config, STRAY_ROWS)
}

/// The first state of a store, and its second packet, which takes no memory.
fn touch_first<S: StoreKind + Drop>(teller: &Teller) -> Result<(), TellingStop> {
    let config = load(teller.alloc(), LIMITED)?;
    let mut store = S::empty(teller.alloc(), &config)?;
    admit_and_touch(teller, &mut store, &config)
}

/// How many states and source nodes are held, and how many numbers were used.
fn counts<S: Store>(store: &S) -> (u64, u64, u64) {
    (store.state_count(), store.node_count(), store.made())
}

fn fill<S: Store>(teller: &Teller, store: &mut S, config: &Config) -> Result<(), TellingStop>
    requires made_for { S.config store.old ≡ config.now }
{
    admit_all(teller, store, config, ROWS)?;
    take_away(teller, store)
}

/// Where no source is tracked, and a state has left: the next one takes its room, and no room is made for a source node.
fn fill_again<S: Store>(teller: &Teller, store: &mut S, config: &Config) -> Result<(), TellingStop>
    requires made_for { S.config store.old ≡ config.now }
{
    admit_all(teller, store, config, UNTRACKED_ROWS)?;
    let second = packet(&Sent::Udp(53), A1, 2)?;
    if let Some(found) = store.find(&FlowKey::of(&second)) {
        let mut meter = Meter::new();
        store.kill(found, 6, &mut meter);
    }
    admit(teller, store, config, &(Ask::InRoom, A2, 9, 0, Ok(5)))?;
    Ok(())
}

fn admit_and_touch<S: Store>(
    teller: &Teller,
    store: &mut S,
    config: &Config,
) -> Result<(), TellingStop>
    requires made_for { S.config store.old ≡ config.now }
    requires order { IsUpToNow 5 (S.world store.old) }
{
    let packet = packet(&Sent::Udp(53), A1, 1)?;
    if admit_first(store, config, &packet, 5)?.is_err() {
        return Err(TellingStop::Input);
    }
    touch(teller, store, &packet, 5)
}

fn admit_first<S: Store>(
    store: &mut S,
    config: &Config,
    packet: &Packet,
    now: u64,
) -> Result<Result<StateNo, Limit>, TellingStop>
    requires made_for { S.config store.old ≡ config.now }
    requires order { IsUpToNow now (S.world store.old) }
    ensures order { IsUpToNow now (S.world store.new) }
{
    if is_held(store, packet) || config.options(RuleNo(0)).is_none() || store.made() >= RUN_LIMIT {
        return Err(TellingStop::Input);
    }
    Ok(store.admit(packet, packet, RuleNo(0), false, now)?)
}

/// Whether a state has one of the keys of the state that a packet would make.
fn is_held<S: Store>(store: &S, packet: &Packet) -> bool
    ensures outside { result ≡ false → state_with (wire_key packet.now packet.now) (S.world store.now) ≡ None }
    ensures inside { result ≡ false → state_inside (key_inside packet.now packet.now) (S.world store.now) ≡ None }
{
    store.find(&wire_key(packet, packet)).is_some()
        || store.find_inside(&inner_key(packet, packet)).is_some()
}

fn touch<S: Store>(
    teller: &Teller,
    store: &mut S,
    packet: &Packet,
    now: u64,
) -> Result<(), TellingStop>
    requires order { IsUpToNow now (S.world store.old) }
{
    let key = FlowKey::of(packet);
    let Some(found) = store.find(&key) else {
        return Err(TellingStop::Input);
    };
    if !store.holds(found.number) {
        return Err(TellingStop::Input);
    }
    let before = counts(store);
    let mut meter = Meter::new();
    begin_free(teller, "has_closed")?;
    let closed = store.has_closed(found, &mut meter);
    end(teller)?;
    plain(teller, !closed && counts(store) == before)?;
    let mut meter = Meter::new();
    begin_free(teller, "touch")?;
    let touched = store.touch(found, packet, now, &mut meter);
    end(teller)?;
    plain(
        teller,
        touched.source == A1 && !touched.completed && counts(store) == before,
    )?;
    Ok(())
}

fn admit_all<S: Store>(
    teller: &Teller,
    store: &mut S,
    config: &Config,
    rows: &[StoreCallRow],
) -> Result<(), TellingStop>
    requires made_for { S.config store.old ≡ config.now }
    ensures made_for { S.config store.new ≡ config.now }
{
    for row in rows {
        if !admit(teller, store, config, row)? {
            admit(teller, store, config, row)?;
        }
    }
    Ok(())
}

/// A state of a rule, or the limit that is met, at which no memory is taken but for a node that is left.
fn admit<S: Store>(
    teller: &Teller,
    store: &mut S,
    config: &Config,
    row: &StoreCallRow,
) -> Result<bool, TellingStop>
    requires made_for { S.config store.old ≡ config.now }
    ensures made_for { S.config store.new ≡ config.now }
{
    let (ask, source, port, rule, wanted) = *row;
    let packet = packet(&Sent::Udp(53), source, port)?;
    let before = counts(store);
    begin_ask(teller, ask)?;
    let answer = admit_one(store, config, &packet, RuleNo(rule))?;
    end(teller)?;
    let found = store
        .find(&FlowKey::of(&packet))
        .map(|found| found.number.0);
    match answer {
        Some(Ok(number)) => plain(teller, Ok(number) == wanted && found == Some(number)),
        Some(Err(limit)) => plain(
            teller,
            Err(limit) == wanted && found == None && counts(store) == after_refusal(ask, before),
        ),
        None => refused(teller, found == None && counts(store) == before),
    }
}

/// What is held after a refusal: a node more, and a number used for it, or as much as before.
fn after_refusal(ask: Ask, before: (u64, u64, u64)) -> (u64, u64, u64) {
    let (states, nodes, made) = before;
    match ask {
        Ask::Stray => (states, nodes.saturating_add(1), made.saturating_add(1)),
        _ => before,
    }
}

fn begin_ask(teller: &Teller, ask: Ask) -> Result<(), TellingStop> {
    match ask {
        Ask::FirstTracked => begin(teller, "first admit where sources are tracked"),
        Ask::FirstUntracked => begin(teller, "first admit where no sources are tracked"),
        Ask::SourceTracked => begin(teller, "admit where sources are tracked"),
        Ask::Untracked => begin(teller, "admit where no sources are tracked"),
        Ask::AtLimit => begin_free(teller, "admit at a limit"),
        Ask::Stray => begin(teller, "admit where a refusal leaves a node"),
        Ask::InRoom => begin_free(teller, "admit in the room of a state that left"),
    }
}

/// None where memory is refused.
fn admit_one<S: Store>(
    store: &mut S,
    config: &Config,
    packet: &Packet,
    rule: RuleNo,
) -> Result<Option<Result<u64, Limit>>, TellingStop>
    requires made_for { S.config store.old ≡ config.now }
    ensures made_for { S.config store.new ≡ config.now }
{
    if is_held(store, packet) || config.options(rule).is_none() || store.made() >= RUN_LIMIT {
        return Err(TellingStop::Input);
    }
    match store.admit(packet, packet, rule, false, 5) {
        Ok(Ok(number)) => Ok(Some(Ok(number.0))),
        Ok(Err(limit)) => Ok(Some(Err(limit))),
        Err(_) => Ok(None),
    }
}

/// A state is killed, those of a source are flushed, and slices take the others away.
fn take_away<S: Store>(teller: &Teller, store: &mut S) -> Result<(), TellingStop> {
    if !store.holds(StateNo(1)) {
        wrong(teller)?;
        return Ok(());
    }
    kill(teller, store)?;
    flush(teller, store)?;
    purge(teller, store)
}

fn kill<S: Store>(teller: &Teller, store: &mut S) -> Result<(), TellingStop> {
    let first = packet(&Sent::Udp(53), A1, 1)?;
    let Some(found) = store.find(&FlowKey::of(&first)) else {
        return Err(TellingStop::Input);
    };
    let mut meter = Meter::new();
    begin_free(teller, "kill")?;
    store.kill(found, 6, &mut meter);
    end(teller)?;
    plain(teller, counts(store) == (13, 2, 14))?;
    Ok(())
}

fn flush<S: Store>(teller: &Teller, store: &mut S) -> Result<(), TellingStop> {
    let mut meter = Meter::new();
    begin_free(teller, "flush")?;
    let killed = store.flush(Dir::In, A1, Some(RuleNo(0)), 6, &mut meter);
    end(teller)?;
    plain(teller, killed == 5 && counts(store) == (8, 2, 14))?;
    Ok(())
}

fn purge<S: Store>(teller: &Teller, store: &mut S) -> Result<(), TellingStop> {
    begin_free(teller, "slices")?;
    for second in 0..20u64 {
        let mut meter = Meter::new();
        store.purge_states(second + 1_000_000, &mut meter);
        store.purge_nodes(second + 1_000_000, &mut meter);
    }
    end(teller)?;
    plain(teller, counts(store) == (0, 0, 14))?;
    Ok(())
}
