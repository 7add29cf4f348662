//! A state as its record keeps it: of its keys that of the packet that made it, as it was sent; without its source, which follows from
//! that key and its direction; and with a number of 32 bits: a run makes at most 2,000,000,000 states.

ghost use Rattle.std.specs.Prelude.{◌≡◌, ◌<◌, ◌^◌, None};
ghost use Rattle.pfs_store_records.specs.Records.{renewed};
ghost use Rattle.pfs_store_records.specs.Sides.{dir_of_side, number_of_tag, side_from, tag_at_side};
ghost use Rattle.pfs_store_records.specs.Sourced.{IsSourced, bare, source_at};
ghost use Rattle.pfs_track.specs.StatePhases.{slot};

use pfs_addr_values::{Addr, Dir, Endpoint, FlowKey, Proto, TagNo};
use pfs_conf_values::{RuleNo, TimeoutName};
use pfs_store_contract::State;
use pfs_track::StatePhase;
use std::marker::Model;

/// In which direction a state was made, and whether it has a tag.
#[derive(Clone, Copy)]
pub(crate) enum StateSide {
    /// `in`, without a tag.
    In,
    /// `out`, without a tag.
    Out,
    /// `in`, with a tag.
    TaggedIn,
    /// `out`, with a tag.
    TaggedOut,
}

/// A state, without the other key where its keys are apart. Its source is the end, from which packets of its direction come, of the
/// key of the packet that made it, as it was sent. Clauses see a state that has this key alone.
///
/// The fields are in memory in this order: what a walk reads comes first, and none of the 64 bytes is unused. So the ends of the key
/// are kept in parts. The number of the tag is 0 where the state has none.
#[derive(Clone, Copy)]
pub struct PackedState {
    last: u64,
    number: u32,
    rule: RuleNo,
    phase: StatePhase,
    side: StateSide,
    tag: u16,
    proto: Proto,
    port: u16,
    other_port: u16,
    addr: Addr,
    other_addr: Addr,
}

const _: () = prove!(size_of::<PackedState>() == 64);

impl Model for PackedState {
    ghost use Rattle.pfs_store_contract.specs.declared.records.State.{State};
    ghost use Rattle.pfs_store_records.specs.Sides.{IsTagAt, dir_of_side, number_of_tag, side_back, side_from, tag_at_side};
    ghost use Rattle.pfs_store_records.specs.Sourced.{source_at};
    ghost use Rattle.std.specs.Prelude.{ℕ, None};
    ghost use Rattle.std.proofs.Common.{ap};
    ghost use Rattle.pfs_store_records.specs.declared.packed_state.StateSide.{StateSide};

    ghost Value = { State };

    ghost view = { λ k. record {
      number = k.number;
      key = record { proto = k.proto; a = record { addr = k.addr; port = k.port }; b = record { addr = k.other_addr; port = k.other_port } };
      inner = None;
      dir = dir_of_side k.side;
      source = source_at (dir_of_side k.side) (record { proto = k.proto; a = record { addr = k.addr; port = k.port }; b = record { addr = k.other_addr; port = k.other_port } });
      rule = k.rule;
      phase = k.phase;
      last = k.last;
      tag = tag_at_side k.side k.tag;
    } };

    ghost invariant = { λ k. IsTagAt k.side k.tag };

    ghost inverse = { λ s. record {
      last = s.last;
      number = s.number;
      rule = s.rule;
      phase = s.phase;
      side = side_from s.dir s.tag;
      tag = number_of_tag s.tag;
      proto = s.key.proto;
      port = s.key.a.port;
      other_port = s.key.b.port;
      addr = s.key.a.addr;
      other_addr = s.key.b.addr;
    } };

    ghost inverse_ok = { λ k h. ap (λ (q : StateSide × ℕ). record k { side = q.0; tag = q.1 }) (side_back k.side k.tag h) };
}

impl PackedState {
    /// What is kept of a state. It takes no memory.
    pub(crate) fn of(state: &State) -> PackedState
        requires sourced { IsSourced state.now }
        requires small { state.now.number < 2 ^ 32 }
        ensures { result ≡ bare state.now }
    {
        let key = state.sent_key();
        PackedState {
            last: state.last,
            number: state.number as u32,
            rule: state.rule,
            phase: state.phase,
            side: side_from(state.dir, state.tag),
            tag: number_of_tag(state.tag),
            proto: key.proto,
            port: key.a.port,
            other_port: key.b.port,
            addr: key.a.addr,
            other_addr: key.b.addr,
        }
    }

    /// The rule that made the state. It takes no memory.
    pub fn rule(&self) -> RuleNo
        ensures { result ≡ self.now.rule }
    {
        self.rule
    }

    /// The direction of the packet that made the state. It takes no memory.
    pub fn dir(&self) -> Dir
        ensures { result ≡ self.now.dir }
    {
        dir_of_side(self.side)
    }

    /// The source address of the packet that made the state. It takes no memory.
    pub fn source(&self) -> Addr
        ensures { result ≡ self.now.source }
    {
        match self.dir() {
            Dir::In => self.addr,
            Dir::Out => self.other_addr,
        }
    }

    /// The tag of the state, if it has one. It takes no memory.
    pub fn tag(&self) -> Option<TagNo>
        ensures { result ≡ self.now.tag }
    {
        tag_at_side(self.side, self.tag)
    }

    /// How far the connection of the state has come. It takes no memory.
    pub fn phase(&self) -> StatePhase
        ensures { result ≡ self.now.phase }
    {
        self.phase
    }

    /// The timeout of the phase. It takes no memory.
    pub(crate) fn timeout(&self) -> TimeoutName
        ensures { result ≡ slot self.now.phase }
    {
        self.phase.slot()
    }

    /// The moment of the last packet of the state, in seconds. It takes no memory.
    pub fn last(&self) -> u64
        ensures { result ≡ self.now.last }
    {
        self.last
    }

    /// A packet of the state came: the state has this phase now, and this moment of its last packet, in seconds. It takes no memory.
    pub(crate) fn renew(&mut self, phase: StatePhase, last: u64)
        ensures { self.new ≡ renewed phase last self.old }
    {
        self.phase = phase;
        self.last = last;
    }

    /// The state. It takes no memory.
    pub(crate) fn state(&self) -> State
        ensures value { result ≡ self.now }
        ensures bare { result.inner ≡ None }
        ensures small { result.number < 2 ^ 32 }
    {
        let dir = dir_of_side(self.side);
        let key = self.key();
        State {
            number: u64::from(self.number),
            key,
            inner: None,
            dir,
            source: source_of(dir, &key),
            rule: self.rule,
            phase: self.phase,
            last: self.last,
            tag: tag_at_side(self.side, self.tag),
        }
    }

    fn key(&self) -> FlowKey
        ensures { result ≡ self.now.key }
    {
        FlowKey {
            proto: self.proto,
            a: Endpoint {
                addr: self.addr,
                port: self.port,
            },
            b: Endpoint {
                addr: self.other_addr,
                port: self.other_port,
            },
        }
    }
}

fn source_of(dir: Dir, key: &FlowKey) -> Addr
    ensures { result ≡ source_at dir key.now }
{
    match dir {
        Dir::In => key.a.addr,
        Dir::Out => key.b.addr,
    }
}

fn side_from(dir: Dir, tag: Option<TagNo>) -> StateSide
    ensures { result ≡ side_from dir tag }
{
    match (dir, tag) {
        (Dir::In, None) => StateSide::In,
        (Dir::Out, None) => StateSide::Out,
        (Dir::In, Some(_)) => StateSide::TaggedIn,
        (Dir::Out, Some(_)) => StateSide::TaggedOut,
    }
}

fn number_of_tag(tag: Option<TagNo>) -> u16
    ensures { result ≡ number_of_tag tag }
{
    match tag {
        Some(tag) => tag.0,
        None => 0,
    }
}

fn dir_of_side(side: StateSide) -> Dir
    ensures { result ≡ dir_of_side side }
{
    match side {
        StateSide::In | StateSide::TaggedIn => Dir::In,
        StateSide::Out | StateSide::TaggedOut => Dir::Out,
    }
}

fn tag_at_side(side: StateSide, number: u16) -> Option<TagNo>
    ensures { result ≡ tag_at_side side number }
{
    match side {
        StateSide::In | StateSide::Out => None,
        StateSide::TaggedIn | StateSide::TaggedOut => Some(TagNo(number)),
    }
}
