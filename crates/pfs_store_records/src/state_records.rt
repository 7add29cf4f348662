//! The records of states as they are kept: the one module that reads a record, and ticks the meter for it.

ghost use Rattle.std.specs.Prelude.{◌≡◌, ◌+◌, ◌-◌, ◌<◌, ◌≤◌, ◌^◌, ◌==◌, ◌++◌, ◌∷◌, [], IfOk, IfSome, None, OnErr, OnOk, Some, filter, length, map, slice_get, true};
ghost use Rattle.std.specs.List.{find, list_any};
ghost use Rattle.std.specs.Map.{keys_of};
ghost use Rattle.slab.specs.Slab.{ContainsKey, get};
ghost use Rattle.pfs_track.specs.StatePhases.{is_half_open};
ghost use Rattle.pfs_store_contract.specs.Calls.{other_than};
ghost use Rattle.pfs_store_contract.specs.Counts.{half_open};
ghost use Rattle.pfs_store_contract.specs.Purging.{state_numbers};
ghost use Rattle.pfs_store_contract.specs.Worlds.{holds_number};
ghost use Rattle.pfs_store_records.specs.RecordPlaces.{AreInPlace, RecordIsAt, number_in, one_if, record_in, values_at};
ghost use Rattle.pfs_store_records.specs.Sourced.{IsSourced, bare};
ghost use Rattle.pfs_store_records.specs.Walks.{IsWalk, StayUntil, end_of, state_has_expired, looks_of};
ghost use Rattle.pfs_store_records.specs.Records.{IsAbove, IsRecordAt, IsRising, leaves_number, placed_at, renewed_at, stands_at, states_of};

use crate::packed_state::PackedState;
use crate::places::Places;
use crate::stays::{Stay, stays_until};
use crate::walks::{Lifetimes, Round, RoundWalk};
use pfs_addr_values::{Meter, NoMemory};
use pfs_store_contract::State;
use pfs_track::StatePhase;
use slab::Slab;
use std::alloc::Global;
use std::marker::Model;

/// The records of the states that are held, by rising number, as they are kept: of the keys of a state, that of the packet that made
/// it, as it was sent. Callers see each with its place, which it keeps until it is removed. To read a record is a look, and ticks the
/// meter. How many states are half open is counted beside them.
#[derive(Drop)]
pub(crate) struct StateRecords {
    slab: Slab<PackedState>,
    places: Places,
    half_open: u64,
}

impl Model for StateRecords {
    ghost use Rattle.std.specs.Prelude.{List};
    ghost use Rattle.pfs_store_records.specs.Records.{Placed};
    ghost use Rattle.pfs_store_records.specs.RecordPlaces.{AreCounted, record_in, values_at};

    ghost Value = { List Placed };

    ghost view = { λ r. values_at (record_in r.slab) r.places.entries };

    ghost invariant = { λ r. AreCounted r.slab r.places.entries r.half_open };
}

impl StateRecords {
    /// No records. It takes no memory.
    pub(crate) fn new(alloc: Global) -> StateRecords
        ensures { result ≡ [] }
    {
        StateRecords {
            slab: Slab::new(alloc),
            places: Places::new(alloc),
            half_open: 0,
        }
    }

    /// How many records there are. It takes no memory.
    pub(crate) fn len(&self) -> u64
        ensures { result ≡ length self.now }
    {
        self.places.len() as u64
    }

    /// How many of the states are half open. It is no look, and takes no memory.
    pub(crate) fn half_open_count(&self) -> u64
        ensures { result ≡ half_open (states_of self.now) }
    {
        self.half_open
    }

    /// The numbers of the states rise: a fact for proofs, which computes nothing.
    pub(crate) fn numbers_rise(&self)
        ensures { IsRising (state_numbers (states_of self.now)) }
    {
        let _ = &self.places;
    }

    /// The places of the records, in the order of their numbers. It is no look, and takes no memory.
    pub(crate) fn order(&self) -> &Places
        ensures numbers { keys_of result.now.entries ≡ state_numbers (states_of self.now) }
        ensures rising { IsRising (keys_of result.now.entries) }
    {
        &self.places
    }

    /// The state of this number, of which there is a record: one look, and one search by number. It takes no memory.
    pub(crate) fn read(&self, number: u64, meter: &mut Meter) -> State
        requires held { holds_number (states_of self.now) number ≡ true }
        requires room { meter.old < 2 ^ 64 - 1 }
        ensures value { Some result ≡ find (λ s. s.number == number) (states_of self.now) }
        ensures bare { result.inner ≡ None }
        ensures small { result.number < 2 ^ 32 }
        ensures looks { meter.new ≡ meter.old + 1 }
    {
        match self.places.get(number) {
            Some(place) => look(&self.slab, place as usize, meter).state(),
            None => unreachable!(),
        }
    }

    /// The state of the record at this place: one look, and no search. It takes no memory.
    pub(crate) fn read_at(&self, place: u32, meter: &mut Meter) -> State
        requires held { list_any (stands_at place) self.now ≡ true }
        requires room { meter.old < 2 ^ 64 - 1 }
        ensures value { IsRecordAt place result self.now }
        ensures bare { result.inner ≡ None }
        ensures small { result.number < 2 ^ 32 }
        ensures looks { meter.new ≡ meter.old + 1 }
    {
        look(&self.slab, place as usize, meter).state()
    }

    /// Walks over the records that are still to be examined in a round, from the least number on: over at most `share` of
    /// them, and up to the first whose state has expired at the second `now`. Each is one look, and all are found by one
    /// search. It takes no memory.
    pub(crate) fn walk<T: Lifetimes>(
        &self,
        round: Round,
        share: u64,
        now: u64,
        lifetimes: &T,
        meter: &mut Meter,
    ) -> RoundWalk
        requires range { round.cursor ≤ round.mark }
        requires room { meter.old + share < 2 ^ 64 }
        ensures walk { IsWalk (state_has_expired (T.lifetime lifetimes.now) now) (states_of self.now) round.cursor round.mark share
            result.stayed result.last result.leaver }
        ensures until { StayUntil (end_of (T.lifetime lifetimes.now)) (states_of self.now) round.cursor result.last result.until }
        ensures small { IfSome result.leaver (λ s. s.number < 2 ^ 32) }
        ensures bare { IfSome result.leaver (λ s. s.inner ≡ None) }
        ensures looks { meter.new ≡ meter.old + looks_of result.stayed result.leaver }
    {
        walk_range(
            &self.slab,
            &self.places,
            round,
            share,
            now,
            lifetimes,
            meter,
        )
    }

    /// The record at this place: one look, and no search. It takes no memory.
    pub(crate) fn record_at(&self, place: u32, meter: &mut Meter) -> &PackedState
        requires held { list_any (stands_at place) self.now ≡ true }
        requires room { meter.old < 2 ^ 64 - 1 }
        ensures value { IsRecordAt place result.now self.now }
        ensures looks { meter.new ≡ meter.old + 1 }
    {
        look(&self.slab, place as usize, meter)
    }

    /// A packet came of the state whose record is at this place: the state has this phase now, and this moment of its last packet. It
    /// is no look, since who writes a record has looked at it, and takes no memory.
    pub(crate) fn renew_at(&mut self, place: u32, phase: StatePhase, last: u64)
        requires held { list_any (stands_at place) self.old ≡ true }
        ensures records { self.new ≡ map (renewed_at place phase last) self.old }
    {
        // As in `push`: the count is not near the greatest number.
        let _count = self.places.len();
        let kept = &mut self.slab[place as usize];
        let before = kept.phase();
        kept.renew(phase, last);
        self.half_open = with(without(self.half_open, before), phase);
    }

    /// Adds the record of a state whose number is above all others, and returns its place. It returns `NoMemory` where
    /// memory for it is refused, or where the place does not fit into 32 bits; nothing changes then.
    pub(crate) fn push(&mut self, state: &State) -> Result<u32, NoMemory>
        requires above { IsAbove state.now.number (state_numbers (states_of self.old)) }
        requires sourced { IsSourced state.now }
        requires small { state.now.number < 2 ^ 32 }
        ensures records { IfOk result (λ place. self.new ≡ self.old ++ placed_at place (bare state.now) ∷ []) }
        ensures err { OnErr result (self.new ≡ self.old) }
        ensures rising { IsRising (state_numbers (states_of self.new)) }
    {
        // This call states to the proof that the count is not near the greatest number, which follows from the order.
        let _count = self.places.len();
        self.slab.reserve(1)?;
        let place = short(self.slab.vacant_key())?;
        self.places.push(state.number, place)?;
        // The proof needs the types of a key named here.
        let key = &state.key;
        let _proto = &key.proto;
        self.slab.insert_reserved(PackedState::of(state));
        self.half_open = with(self.half_open, state.phase);
        Ok(place)
    }

    /// Removes the record of this number, of which there is one. It is no look, since who removes a record has looked at it, and takes
    /// no memory.
    pub(crate) fn remove(&mut self, number: u64)
        requires { holds_number (states_of self.old) number ≡ true }
        ensures records { self.new ≡ filter (leaves_number number) self.old }
        ensures states { states_of self.new ≡ filter (other_than number) (states_of self.old) }
        ensures rising { IsRising (state_numbers (states_of self.new)) }
    {
        match self.places.remove(number) {
            Some(place) => {
                let kept = self.slab.remove(place as usize);
                self.half_open = without(self.half_open, kept.phase());
            }
            None => unreachable!(),
        }
    }
}

/// How many states are half open, with one of this phase more.
fn with(half_open: u64, phase: StatePhase) -> u64
    requires { half_open < 2 ^ 64 - 1 }
    ensures { result ≡ half_open + one_if (is_half_open phase) }
{
    if phase.is_half_open() {
        half_open + 1
    } else {
        half_open
    }
}

/// How many states are half open, with one of this phase less.
fn without(half_open: u64, phase: StatePhase) -> u64
    requires { one_if (is_half_open phase) ≤ half_open }
    ensures { result + one_if (is_half_open phase) ≡ half_open }
{
    if phase.is_half_open() {
        half_open - 1
    } else {
        half_open
    }
}

/// A place in 32 bits: those of the at most 2,000,000,000 states of a run fit. It returns `NoMemory` where one does not.
pub(crate) fn short(place: usize) -> Result<u32, NoMemory>
    ensures { IfOk result (λ p. p ≡ place) }
{
    match u32::try_from(place) {
        Ok(number) => Ok(number),
        Err(_) => Err(NoMemory),
    }
}

/// Reads the record at a place: the one look.
fn look<'a>(slab: &'a Slab<PackedState>, place: usize, meter: &mut Meter) -> &'a PackedState
    requires held { ContainsKey slab.now place }
    requires room { meter.old < 2 ^ 64 - 1 }
    ensures value { get slab.now place ≡ Some result.now }
    ensures looks { meter.new ≡ meter.old + 1 }
{
    meter.tick();
    &slab[place]
}

#[inline(never)]
fn walk_range<T: Lifetimes>(
    slab: &Slab<PackedState>,
    places: &Places,
    round: Round,
    share: u64,
    now: u64,
    lifetimes: &T,
    meter: &mut Meter,
) -> RoundWalk
    requires kept { AreInPlace number_in RecordIsAt (record_in slab.now) places.now.entries }
    requires range { round.cursor ≤ round.mark }
    requires room { meter.old + share < 2 ^ 64 }
    ensures walk { IsWalk (state_has_expired (T.lifetime lifetimes.now) now) (states_of (values_at (record_in slab.now) places.now.entries)) round.cursor round.mark share
        result.stayed result.last result.leaver }
    ensures until { StayUntil (end_of (T.lifetime lifetimes.now)) (states_of (values_at (record_in slab.now) places.now.entries)) round.cursor result.last result.until }
    ensures small { IfSome result.leaver (λ s. s.number < 2 ^ 32) }
    ensures bare { IfSome result.leaver (λ s. s.inner ≡ None) }
    ensures looks { meter.new ≡ meter.old + looks_of result.stayed result.leaver }
{
    let mut rest = places.between(round.cursor, round.mark);
    let mut stayed = 0;
    let mut last = round.cursor;
    let mut until = u64::MAX;
    let mut known = Stay::unknown();
    let leaver = loop {
        if stayed == share {
            break None;
        }
        let Some((number, place)) = rest.next() else {
            break None;
        };
        let kept = look(slab, place as usize, meter);
        if !known.is_of(kept) {
            known = Stay::of(lifetimes, kept);
        }
        match stays_until(kept, known.seconds, now) {
            Some(moment) => until = until.min(moment),
            None => break Some(kept.state()),
        }
        stayed += 1;
        last = number;
    };
    RoundWalk {
        stayed,
        last,
        until,
        leaver,
    }
}
