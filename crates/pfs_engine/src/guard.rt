//! The guard before what is held: the SYN cookies that are out, and when their secret turns.

ghost use Rattle.std.specs.Prelude.{◌≡◌, ◌<◌, ◌^◌, ◌&&◌, IfNone, IfOk, IfSome, OnErr, OnOk};
ghost use Rattle.pfs_addr_values.specs.Keys.{key_of};
ghost use Rattle.pfs_cookies.specs.Cookies.{has_cookie};
ghost use Rattle.pfs_engine_machine.specs.Guards.{answers_in, are_on, brings_cookie, gets_cookie, guard_begun, guard_given, guard_rested, guard_taken, guard_turned, no_guard, share_of_states, stays_on};
ghost use Rattle.pfs_engine.specs.Guarding.{HasNoTurn, IsNextTurn, guard_on};

use crate::contents::EngineContents;
use pfs_addr_values::{Dir, FlowKey, NoMemory, Packet, Proto};
use pfs_conf_values::{Config, LimitName, Syncookies};
use pfs_cookies::Cookies;
use pfs_engine_machine::Outcome;
use pfs_store_contract::{Store, asks_in};
use std::alloc::Global;
use std::marker::Model;

/// The guard: whether `adaptive` is on, the moment in seconds from which the secret turns, and the cookies that are out. Clauses
/// see the machine's `Guard`. (pf.conf(5), OPTIONS, "set syncookies")
#[derive(Drop)]
pub(crate) struct EngineGuard {
    on: bool,
    since: Option<u64>,
    out: Cookies,
}

impl Model for EngineGuard {
    ghost use Rattle.std.specs.Coded.{codes};
    ghost use Rattle.pfs_cookies.specs.Cookies.{cookies_code};
    ghost use Rattle.pfs_engine_machine.specs.Guards.{Guard};

    ghost Value = { Guard };

    ghost coded = { Prim.hlevel (codes, cookies_code) };

    ghost view = { λ g. record { on = g.on; since = g.since; out = g.out } };
}

impl EngineGuard {
    /// The guard before the first event. The keys of cookies come from strangers, and will be found by the configuration's own
    /// hasher. It takes no memory.
    pub(crate) fn new(alloc: Global, config: &Config) -> EngineGuard
        ensures { result ≡ no_guard }
    {
        EngineGuard {
            on: false,
            since: None,
            out: Cookies::new(alloc, config.hasher()),
        }
    }

    /// Whether a packet gets a cookie: it asks for a connection from outside while cookies are on, or where they go on.
    pub(crate) fn gets_cookie<S: Store>(&self, held: &EngineContents<S>, packet: &Packet) -> bool
        ensures { result ≡ gets_cookie held.now.config self.now held.now.held.world packet.now }
    {
        match held.config.syncookies() {
            Syncookies::Never => false,
            Syncookies::Always => asks_in(packet),
            Syncookies::Adaptive { start, .. } => {
                asks_in(packet)
                    && (self.on || share_of_states(&held.config, start) < held.half_open())
            }
        }
    }

    /// Gives a packet a cookie at a moment; where `adaptive` goes on, under a fresh secret. `NoMemory` where memory for it is
    /// refused; then cookies are on, and nothing else has changed.
    pub(crate) fn give(
        &mut self,
        config: &Config,
        packet: &Packet,
        now: u64,
    ) -> Result<Outcome, NoMemory>
        ensures told { IfOk result (λ o. o ≡ Outcome.Cookie) }
        ensures ok { OnOk result (self.new ≡ guard_given (guard_on config.now self.old now) (key_of packet.now) now) }
        ensures err { OnErr result (self.new ≡ guard_on config.now self.old now) }
    {
        if !self.are_on(config) {
            self.begin(now);
        }
        self.out.give(&FlowKey::of(packet))?;
        self.since = Some(self.since.unwrap_or(now));
        Ok(Outcome::Cookie)
    }

    /// `adaptive` goes on at a moment, under a fresh secret.
    fn begin(&mut self, now: u64)
        ensures { self.new ≡ guard_begun self.old now }
    {
        self.on = true;
        self.since = Some(now);
        self.out.turn();
    }

    /// Whether a packet brings a cookie: it answers from outside, no state has its key, and its key has a cookie out.
    pub(crate) fn brings_cookie<S: Store>(&self, held: &EngineContents<S>, packet: &Packet) -> bool
        ensures { result ≡ brings_cookie self.now held.now.held.world packet.now }
    {
        self.answers_one(packet) && held.is_new(packet)
    }

    /// Whether a packet answers from outside, and its key has a cookie out. Where none is out, that is one test.
    fn answers_one(&self, packet: &Packet) -> bool
        ensures { result ≡ (answers_in packet.now.dir packet.now.proto packet.now.flags && has_cookie self.now.out (key_of packet.now)) }
    {
        if self.out.out() == 0 {
            return false;
        }
        answers_in(packet) && self.out.has(&FlowKey::of(packet))
    }

    /// The cookie of a packet's key is taken.
    pub(crate) fn take(&mut self, packet: &Packet)
        ensures { self.new ≡ guard_taken self.old (key_of packet.now) }
    {
        self.out.take(&FlowKey::of(packet));
    }

    /// The next second, after one moment and up to another, at which the secret turns, if there is one. Where no cookie is out it is
    /// the last of those: the turns before it change nothing that it does not change.
    pub(crate) fn next_turn(&self, from: u64, to: u64) -> Option<u64>
        requires { to < 2 ^ 32 }
        ensures turn { IfSome result (IsNextTurn self.now from to) }
        ensures none { IfNone result (HasNoTurn self.now.since from to) }
    {
        let since = self.since?;
        let begin = from.max(since);
        if to <= begin {
            return None;
        }
        let turn = if self.out.out() == 0 {
            to - (to - since) % 15
        } else {
            begin + 15 - (begin - since) % 15
        };
        if begin < turn && turn <= to {
            Some(turn)
        } else {
            None
        }
    }

    /// The secret turns, behind the slices of a second. First `adaptive` goes off, unless it stays on. Where cookies are off and none
    /// is out, turning ends; else the other secret is used from now on, and what was out under it is forgotten.
    pub(crate) fn turn<S: Store>(&mut self, held: &EngineContents<S>)
        ensures { self.new ≡ guard_turned held.now.config (guard_rested held.now.config held.now.held.world self.old) }
    {
        self.on = self.on && self.stays_on(held);
        if !self.are_on(&held.config) && self.out.out() == 0 {
            self.since = None;
        } else {
            self.out.turn();
        }
    }

    /// Whether cookies are on.
    fn are_on(&self, config: &Config) -> bool
        ensures { result ≡ are_on config.now.syncookies self.now.on }
    {
        match config.syncookies() {
            Syncookies::Never => false,
            Syncookies::Always => true,
            Syncookies::Adaptive { .. } => self.on,
        }
    }

    /// Whether `adaptive` stays on: half open states and cookies that are out, together, are not fewer than its end.
    fn stays_on<S: Store>(&self, held: &EngineContents<S>) -> bool
        ensures { result ≡ stays_on held.now.config held.now.held.world self.now.out held.now.config.syncookies }
    {
        match held.config.syncookies() {
            Syncookies::Never | Syncookies::Always => false,
            Syncookies::Adaptive { end, .. } => {
                share_of_states(&held.config, end)
                    <= held.half_open().saturating_add(self.out.out())
            }
        }
    }
}

/// So many percent of the limit on states, rounded down.
fn share_of_states(config: &Config, percent: u32) -> u64
    ensures { result ≡ share_of_states config.now percent }
{
    config.limit(LimitName::States) * u64::from(percent) / 100
}

/// Whether a packet answers from outside: an ACK of TCP, with neither SYN nor RST, that comes in.
fn answers_in(packet: &Packet) -> bool
    ensures { result ≡ answers_in packet.now.dir packet.now.proto packet.now.flags }
{
    let flags = packet.flags();
    match (packet.dir(), packet.proto()) {
        (Dir::In, Proto::Tcp) => flags.ack && !(flags.syn || flags.rst),
        _ => false,
    }
}
