//! The records of states, with all their keys.

ghost use Rattle.std.specs.Prelude.{◌≡◌, ◌+◌, ◌-◌, ◌<◌, ◌≤◌, ◌^◌, ◌==◌, ◌++◌, ◌∷◌, [], IfOk, IfSome, OnErr, OnOk, Some, filter, length, map, true};
ghost use Rattle.std.specs.List.{find, list_any};
ghost use Rattle.std.specs.Map.{keys_of};
ghost use Rattle.std.specs.Option.{option_and_then};
ghost use Rattle.pfs_store_contract.specs.Calls.{onward_key, other_than};
ghost use Rattle.pfs_store_contract.specs.Counts.{half_open};
ghost use Rattle.pfs_store_contract.specs.Purging.{state_numbers};
ghost use Rattle.pfs_store_contract.specs.Worlds.{holds_number};
ghost use Rattle.pfs_store_records.specs.ApartKeys.{IsKeptAt};
ghost use Rattle.pfs_store_records.specs.Records.{IsAbove, IsRecordAt, IsRising, leaves_number, placed_at, renewed_at, stands_at, states_of};
ghost use Rattle.pfs_store_records.specs.Sourced.{IsSourced};
ghost use Rattle.pfs_store_records.specs.Walks.{IsWalk, StayUntil, end_of, state_has_expired, looks_of};

use crate::apart_keys::ApartKeys;
use crate::packed_state::PackedState;
use crate::places::Places;
use crate::state_records::StateRecords;
use crate::walks::{Lifetimes, Round, RoundWalk};
use pfs_addr_values::{Dir, FlowKey, Meter, NoMemory};
use pfs_store_contract::State;
use pfs_track::StatePhase;
use std::alloc::Global;
use std::marker::Model;

/// The records of the states that are held, by rising number. Callers see each with its place, which it keeps until it
/// is removed. To read a record is a look, and ticks the meter. Of a state whose keys are apart both keys lie aside.
#[derive(Drop)]
pub struct Records {
    packed: StateRecords,
    aside: ApartKeys,
}

impl Model for Records {
    ghost use Rattle.std.specs.Prelude.{List, map};
    ghost use Rattle.pfs_store_records.specs.ApartKeys.{AreHeld, whole_record};
    ghost use Rattle.pfs_store_records.specs.Records.{Placed, states_of};

    ghost Value = { List Placed };

    ghost view = { λ r. map (whole_record r.aside) r.packed };

    ghost invariant = { λ r. AreHeld r.aside (states_of r.packed) };
}

impl Records {
    /// No records. It takes no memory.
    pub fn new(alloc: Global) -> Records
        ensures { result ≡ [] }
    {
        Records {
            packed: StateRecords::new(alloc),
            aside: ApartKeys::new(alloc),
        }
    }

    /// How many records there are. It takes no memory.
    pub fn len(&self) -> u64
        ensures { result ≡ length self.now }
    {
        self.packed.len()
    }

    /// How many of the states are half open. It is no look, and takes no memory.
    pub fn half_open_count(&self) -> u64
        ensures { result ≡ half_open (states_of self.now) }
    {
        self.packed.half_open_count()
    }

    /// The numbers of the states rise: a fact for proofs, which computes nothing.
    pub fn numbers_rise(&self)
        ensures { IsRising (state_numbers (states_of self.now)) }
    {
        self.packed.numbers_rise();
    }

    /// The places of the records, in the order of their numbers. It is no look, and takes no memory.
    pub fn order(&self) -> &Places
        ensures numbers { keys_of result.now.entries ≡ state_numbers (states_of self.now) }
        ensures rising { IsRising (keys_of result.now.entries) }
    {
        self.packed.order()
    }

    /// The key with which packets of a direction go on of the state of a number, where it is another than that with which they come.
    /// It is no look, and takes no memory.
    pub fn onward_key(&self, number: u64, dir: Dir) -> Option<FlowKey>
        ensures { result ≡ option_and_then (onward_key dir) (find (λ s. s.number == number) (states_of self.now)) }
    {
        match (self.aside.get(number), dir) {
            (None, _) => None,
            (Some(keys), Dir::In) => Some(keys.inner),
            (Some(keys), Dir::Out) => Some(keys.wire),
        }
    }

    /// The state of this number, of which there is a record: one look, and one search by number. It takes no memory.
    pub fn read(&self, number: u64, meter: &mut Meter) -> State
        requires held { holds_number (states_of self.now) number ≡ true }
        requires room { meter.old < 2 ^ 64 - 1 }
        ensures value { Some result ≡ find (λ s. s.number == number) (states_of self.now) }
        ensures small { result.number < 2 ^ 32 }
        ensures looks { meter.new ≡ meter.old + 1 }
    {
        let mut state = self.packed.read(number, meter);
        self.aside.join(&mut state);
        state
    }

    /// The state of the record at this place: one look, and no search but of its keys. It takes no memory.
    pub fn read_at(&self, place: u32, meter: &mut Meter) -> State
        requires held { list_any (stands_at place) self.now ≡ true }
        requires room { meter.old < 2 ^ 64 - 1 }
        ensures value { IsRecordAt place result self.now }
        ensures small { result.number < 2 ^ 32 }
        ensures looks { meter.new ≡ meter.old + 1 }
    {
        let mut state = self.packed.read_at(place, meter);
        self.aside.join(&mut state);
        state
    }

    /// The record at this place, which has all of its state but the keys: one look, and no search. It takes no memory.
    pub fn record_at(&self, place: u32, meter: &mut Meter) -> &PackedState
        requires held { list_any (stands_at place) self.now ≡ true }
        requires room { meter.old < 2 ^ 64 - 1 }
        ensures value { IsKeptAt place result.now self.now }
        ensures looks { meter.new ≡ meter.old + 1 }
    {
        self.packed.record_at(place, meter)
    }

    /// Walks over the records that are still to be examined in a round, from the least number on: over at most `share` of
    /// them, and up to the first whose state has expired at the second `now`. Each is one look, and all are found by one
    /// search. It takes no memory.
    pub fn walk<T: Lifetimes>(
        &self,
        round: Round,
        share: u64,
        now: u64,
        lifetimes: &T,
        meter: &mut Meter,
    ) -> RoundWalk
        requires range { round.cursor ≤ round.mark }
        requires room { meter.old + share < 2 ^ 64 }
        ensures walk { IsWalk (state_has_expired (T.lifetime lifetimes.now) now) (states_of self.now) round.cursor round.mark share
            result.stayed result.last result.leaver }
        ensures until { StayUntil (end_of (T.lifetime lifetimes.now)) (states_of self.now) round.cursor result.last result.until }
        ensures small { IfSome result.leaver (λ s. s.number < 2 ^ 32) }
        ensures looks { meter.new ≡ meter.old + looks_of result.stayed result.leaver }
    {
        let mut walk = self.packed.walk(round, share, now, lifetimes, meter);
        if let Some(leaver) = &mut walk.leaver {
            self.aside.join(leaver);
        }
        walk
    }

    /// A packet came of the state whose record is at this place: the state has this phase now, and this moment of its last packet. It
    /// is no look, since who writes a record has looked at it, and takes no memory.
    pub fn renew_at(&mut self, place: u32, phase: StatePhase, last: u64)
        requires held { list_any (stands_at place) self.old ≡ true }
        ensures records { self.new ≡ map (renewed_at place phase last) self.old }
    {
        self.packed.renew_at(place, phase, last);
    }

    /// Adds the record of a state whose number is above all others, and returns its place. It returns `NoMemory` where
    /// memory for it is refused, or where the place does not fit into 32 bits; nothing changes then.
    pub fn push(&mut self, state: &State) -> Result<u32, NoMemory>
        requires above { IsAbove state.now.number (state_numbers (states_of self.old)) }
        requires sourced { IsSourced state.now }
        requires small { state.now.number < 2 ^ 32 }
        ensures records { IfOk result (λ place. self.new ≡ self.old ++ placed_at place state.now ∷ []) }
        ensures states { OnOk result (states_of self.new ≡ states_of self.old ++ state.now ∷ []) }
        ensures err { OnErr result (self.new ≡ self.old) }
        ensures rising { IsRising (state_numbers (states_of self.new)) }
    {
        self.packed.numbers_rise();
        self.aside.insert(state)?;
        match self.packed.push(state) {
            Ok(place) => Ok(place),
            Err(_) => {
                self.aside.remove(state.number);
                Err(NoMemory)
            }
        }
    }

    /// Removes the record of this number, of which there is one. It is no look, since who removes a record has looked at it, and takes
    /// no memory.
    pub fn remove(&mut self, number: u64)
        requires { holds_number (states_of self.old) number ≡ true }
        ensures records { self.new ≡ filter (leaves_number number) self.old }
        ensures states { states_of self.new ≡ filter (other_than number) (states_of self.old) }
        ensures rising { IsRising (state_numbers (states_of self.new)) }
    {
        self.packed.remove(number);
        self.aside.remove(number);
    }
}
