//! Any store, with a count of the calls that change it.

ghost use Rattle.std.specs.Prelude.{◌≡◌};

use pfs_addr_values::{Addr, Dir, FlowKey, Meter, NoMemory, Packet};
use pfs_conf::RuleNo;
use pfs_store_contract::{FromTo, Limit, Purged, Slice, StateHandle, StateNo, Store, Touched};

/// Any store, with a count of the calls that change it.
#[derive(Drop)]
pub struct Tallied<S: Store> {
    inner: S,
    /// How many calls changed it, or might have. A state that is admitted is one: its limits are asked, and then it is made.
    pub calls: u64,
}

impl<S: Store> Tallied<S> {
    /// A store without calls yet.
    pub fn new(inner: S) -> Tallied<S>
        ensures { result.inner ≡ inner }
    {
        Tallied { inner, calls: 0 }
    }

    fn tick(&mut self)
        ensures { self.new.inner ≡ self.old.inner }
    {
        self.calls = self.calls.saturating_add(1);
    }
}

impl<S: Store> Store for Tallied<S> {
    ghost world = { λ t. S.world t.inner };

    ghost config = { λ t. S.config t.inner };

    ghost counts = { S.counts };

    ghost reaches = { λ t. S.reaches t.inner };

    fn find(&self, key: &FlowKey) -> Option<StateHandle> {
        self.inner.find(key)
    }

    fn find_inside(&self, key: &FlowKey) -> Option<StateHandle> {
        self.inner.find_inside(key)
    }

    fn onward_key(&self, found: StateHandle, dir: Dir) -> Option<FlowKey> {
        self.inner.onward_key(found, dir)
    }

    fn holds(&self, number: StateNo) -> bool {
        self.inner.holds(number)
    }

    fn state_count(&self) -> u64 {
        self.inner.state_count()
    }

    fn half_open_count(&self) -> u64 {
        self.inner.half_open_count()
    }

    fn node_count(&self) -> u64 {
        self.inner.node_count()
    }

    fn made(&self) -> u64 {
        self.inner.made()
    }

    fn meet_limit(
        &mut self,
        source: Addr,
        rule: RuleNo,
        now: u64,
    ) -> Result<Option<Limit>, NoMemory> {
        self.tick();
        self.inner.meet_limit(source, rule, now)
    }

    fn make(
        &mut self,
        packet: &Packet,
        going: &Packet,
        rule: RuleNo,
        cookie: bool,
        now: u64,
    ) -> Result<StateNo, NoMemory> {
        self.inner.make(packet, going, rule, cookie, now)
    }

    fn touch(
        &mut self,
        found: StateHandle,
        packet: &Packet,
        now: u64,
        meter: &mut Meter,
    ) -> Touched {
        self.tick();
        self.inner.touch(found, packet, now, meter)
    }

    fn renew(
        &mut self,
        found: StateHandle,
        packet: &Packet,
        now: u64,
        meter: &mut Meter,
    ) -> Touched {
        self.tick();
        self.inner.renew(found, packet, now, meter)
    }

    fn has_closed(&self, found: StateHandle, meter: &mut Meter) -> bool {
        self.inner.has_closed(found, meter)
    }

    fn kill(&mut self, found: StateHandle, now: u64, meter: &mut Meter) {
        self.tick();
        self.inner.kill(found, now, meter)
    }

    fn flush(
        &mut self,
        dir: Dir,
        source: Addr,
        rule: Option<RuleNo>,
        now: u64,
        meter: &mut Meter,
    ) -> u64 {
        self.tick();
        self.inner.flush(dir, source, rule, now, meter)
    }

    fn kill_from_to(&mut self, hosts: &FromTo, now: u64, meter: &mut Meter) -> u64 {
        self.tick();
        self.inner.kill_from_to(hosts, now, meter)
    }

    fn purge_states(&mut self, now: u64, meter: &mut Meter) -> Slice {
        self.tick();
        self.inner.purge_states(now, meter)
    }

    fn purge_nodes(&mut self, now: u64, meter: &mut Meter) -> Slice {
        self.tick();
        self.inner.purge_nodes(now, meter)
    }

    fn purge_seconds(&mut self, from: u64, to: u64) -> Purged {
        self.tick();
        self.inner.purge_seconds(from, to)
    }
}
