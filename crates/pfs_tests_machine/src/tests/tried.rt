//! A store under test, with its configuration and the moment of its calls.

ghost use Rattle.std.specs.Prelude.{◌≡◌, IfOk, true};
ghost use Rattle.pfs_store_contract.specs.Worlds.{empty_world, holds_number};

use pfs_addr_values::{Addr, Dir, FlowKey, Meter, Packet, RUN_LIMIT};
use pfs_conf::{Config, RuleNo};
use pfs_store_contract::{
    FromTo, Limit, Purged, Slice, StateHandle, StateNo, Store, Touched, inner_key, wire_key,
};
use std::marker::Model;
use std::process::Abort;
use std::test::Fail;

/// The state of a store that has the key of a packet on the wire.
fn found<S: Store>(store: &S, packet: &Packet) -> Result<StateHandle, Fail>
    ensures held { IfOk result (λ f. holds_number (S.world store.now).states f.number.0 ≡ true) }
    ensures reached { IfOk result (λ f. S.reaches store.now f ≡ true) }
{
    match store.find(&FlowKey::of(packet)) {
        Some(found) if store.holds(found.number) => Ok(found),
        _ => Err("its key is not held".into()),
    }
}

/// A store that was made for a configuration, at a moment of a trace that is not before any handshake that it counts.
#[derive(Drop)]
pub struct Tried<'a, S: Store> {
    store: S,
    config: &'a Config,
    now: u64,
}

impl<'a, S: Store> Model for Tried<'a, S> {
    ghost use Rattle.std.specs.Prelude.{◌≡◌, ◌≤◌, ◌^◌, ℕ};
    ghost use Rattle.pfs_store_contract.specs.Worlds.{IsUpToNow};

    ghost Value = { ℕ };

    ghost view = { λ t. t.now };

    ghost invariant = { λ t. (S.config t.store ≡ t.config.now) × IsUpToNow t.now (S.world t.store) × (t.now ≤ 2 ^ 63) };
}

impl<'a, S: Store> Tried<'a, S> {
    /// An empty store, at moment 0.
    pub fn new(store: S, config: &'a Config) -> Tried<'a, S>
        requires empty { S.world store ≡ empty_world }
        requires made_for { S.config store ≡ config.now }
    {
        Tried {
            store,
            config,
            now: 0,
        }
    }

    /// The store.
    pub fn store(&self) -> &S {
        &self.store
    }

    /// Goes on to a moment that is not before the last one.
    pub fn go_to(&mut self, rt: &impl Abort, now: u64) {
        assert!(rt; self.now <= now && now <= 4294967295);
        self.now = now;
    }

    /// A packet of no held state makes one at a rule, or is refused. `cookie`: it brings a SYN cookie.
    pub fn admit(
        &mut self,
        rt: &impl Abort,
        packet: &Packet,
        rule: RuleNo,
        cookie: bool,
    ) -> Result<Result<StateNo, Limit>, Fail> {
        if self.store.find(&wire_key(packet, packet)).is_some()
            || self.store.find_inside(&inner_key(packet, packet)).is_some()
        {
            return Err("its key is held".into());
        }
        assert!(rt; self.config.options(rule).is_some());
        assert!(rt; self.store.made() < RUN_LIMIT);
        Ok(self.store.admit(packet, packet, rule, cookie, self.now)?)
    }

    /// A packet of a held state comes.
    pub fn touch(&mut self, packet: &Packet) -> Result<Touched, Fail> {
        let found = found(&self.store, packet)?;
        let mut meter = Meter::new();
        Ok(self.store.touch(found, packet, self.now, &mut meter))
    }

    /// A packet of a held state comes, of which a node is told at a completed handshake alone.
    pub fn renew(&mut self, packet: &Packet) -> Result<Touched, Fail> {
        let found = found(&self.store, packet)?;
        let mut meter = Meter::new();
        Ok(self.store.renew(found, packet, self.now, &mut meter))
    }

    /// Whether both peers of the state with the key of a packet have closed their connection.
    pub fn has_closed(&self, packet: &Packet) -> Result<bool, Fail> {
        let found = found(&self.store, packet)?;
        let mut meter = Meter::new();
        Ok(self.store.has_closed(found, &mut meter))
    }

    /// The state that has the key of a packet is killed: its number, if there is one.
    pub fn kill(&mut self, packet: &Packet) -> Option<StateNo> {
        let found = self.store.find(&FlowKey::of(packet))?;
        let mut meter = Meter::new();
        self.store.kill(found, self.now, &mut meter);
        Some(found.number)
    }

    /// The states leave that a flush takes for those of the source of a state that was made in this direction, all or those of a
    /// rule: how many they are.
    pub fn flush(&mut self, dir: Dir, source: Addr, rule: Option<RuleNo>) -> u64 {
        let mut meter = Meter::new();
        self.store.flush(dir, source, rule, self.now, &mut meter)
    }

    /// The states leave that go from hosts to hosts; how many they are.
    pub fn kill_from_to(&mut self, hosts: &FromTo) -> u64 {
        let mut meter = Meter::new();
        self.store.kill_from_to(hosts, self.now, &mut meter)
    }

    /// A slice of the states.
    pub fn purge_states(&mut self) -> Slice {
        let mut meter = Meter::new();
        self.store.purge_states(self.now, &mut meter)
    }

    /// A slice of the source nodes.
    pub fn purge_nodes(&mut self) -> Slice {
        let mut meter = Meter::new();
        self.store.purge_nodes(self.now, &mut meter)
    }

    /// Goes on to a moment as `go_to` does, and does the purges of all seconds up to it.
    pub fn pass_to(&mut self, rt: &impl Abort, now: u64) -> Purged {
        let from = self.now;
        self.go_to(rt, now);
        self.purge_since(rt, from)
    }

    /// The purges of all seconds after a moment that is not past.
    fn purge_since(&mut self, rt: &impl Abort, from: u64) -> Purged {
        assert!(rt; from <= self.now && self.now <= 4294967295);
        self.store.purge_seconds(from, self.now)
    }
}
