//! What is held under a configuration, as one value.

ghost use Rattle.std.specs.Prelude.{◌≡◌, ◌<◌, ◌≤◌, ◌^◌, false, None, All, is_none, length, true, IfOk, IfSome, OnErr, option_map};
ghost use Rattle.std.specs.Option.{option_and_then};
ghost use Rattle.pfs_addr_values.specs.Keys.{key_of};
ghost use Rattle.pfs_conf_values.specs.Configs.{limit_of};
ghost use Rattle.pfs_conf_values.specs.Invariants.{IsConfig};
ghost use Rattle.pfs_eval.specs.Tables.{entered_to, entry_count};
ghost use Rattle.pfs_eval.specs.Verdict.{IsRuleAt};
ghost use Rattle.pfs_store_contract.specs.Calls.{onward_key, state_number, state_rule};
ghost use Rattle.pfs_store_contract.specs.Counts.{half_open};
ghost use Rattle.pfs_store_contract.specs.Worlds.{empty_world, state_numbered, state_with};
ghost use Rattle.pfs_engine_machine.specs.MachineInvariants.{IsPlain, Rise};
ghost use Rattle.pfs_engine_machine.specs.Machine.{answer_to_command, answer_to_kill, deciding_rule, held_of, losing_rule, packet_ruled, start};
ghost use Rattle.pfs_store_contract.specs.Seconds.{purged_of, seconds, world_after_purges};
ghost use Rattle.pfs_engine_machine.specs.Sides.{are_free, state_for};
ghost use Rattle.pfs_engine_machine.specs.Visits.{AreVisits};
ghost use Rattle.pfs_engine_machine.specs.Ways.{inside};
ghost use Rattle.pfs_engine.specs.Contents.{IsHeldAfter, IsAnsweredAs, IsDone};
ghost use Rattle.pfs_engine.specs.Ways.{HasRoutes};

use crate::ways::may_go_on;
use pfs_addr_values::{Dir, FlowKey, Meter, NoMemory, Packet};
use pfs_conf_values::{Config, LimitName, TableNo};
use pfs_engine_machine::{Command, Entered, FromTo, Outcome, TableEntry};
use pfs_eval::{CompiledRuleset, Decision, Sides, Tables};
use pfs_store_contract::{Purged, StateHandle, Store, inner_key, wire_key};
use std::alloc::Global;
use std::marker::Model;

/// What is held under a configuration: states and source nodes in a store, and entries in tables.
///
/// Clauses see a `ContentsView`: the configuration, what is held, the room of the tables, and the store. The store, the tables and the
/// compiled ruleset are for this configuration at all times, as `IsMadeFor` says. That what is held is within the limits is the
/// engine's to keep: where a handshake completes past `max-src-conn`, it is past the limit until states are killed.
#[derive(Drop)]
pub(crate) struct EngineContents<S: Store> {
    pub(crate) config: Config,
    pub(crate) compiled: CompiledRuleset,
    pub(crate) tables: Tables,
    pub(crate) store: S,
}

impl<S: Store> Model for EngineContents<S> {
    ghost use Rattle.pfs_engine.specs.Contents.{ContentsView, IsMadeFor, view_of};

    ghost Value = { ContentsView S };

    ghost view = { λ h. view_of h.config h.store (S.world h.store) h.tables };

    ghost invariant = { λ h. IsMadeFor h.config (S.config h.store) h.compiled h.tables };
}

impl<S: Store + Drop> EngineContents<S> {
    /// What is held before the first event, over an empty store that was made for the configuration. `NoMemory` where memory
    /// for the rules or the tables was refused; configuration and store are given up then.
    pub(crate) fn new(
        alloc: Global,
        config: Config,
        store: S,
    ) -> Result<EngineContents<S>, NoMemory>
        requires empty { S.world store ≡ empty_world }
        requires made_for { S.config store ≡ config }
        ensures config { IfOk result (λ h. h.config ≡ config) }
        ensures held { IfOk result (λ h. h.held ≡ (start config).held) }
        ensures sound { IsConfig config }
    {
        config.keeps_load_rules();
        let compiled = CompiledRuleset::new(alloc, &config)?;
        let tables = Tables::new(alloc, &config)?;
        Ok(EngineContents {
            config,
            compiled,
            tables,
            store,
        })
    }
}

impl<S: Store> EngineContents<S> {
    /// The configuration.
    pub(crate) fn config(&self) -> &Config
        ensures { result.now ≡ self.now.config }
    {
        &self.config
    }

    /// How many states are held.
    pub(crate) fn states(&self) -> u64
        ensures { result ≡ length self.now.held.world.states }
    {
        self.store.state_count()
    }

    /// How many states are half open.
    pub(crate) fn half_open(&self) -> u64
        ensures { result ≡ half_open self.now.held.world.states }
    {
        self.store.half_open_count()
    }

    /// How many source nodes are held.
    pub(crate) fn nodes(&self) -> u64
        ensures { result ≡ length self.now.held.world.nodes }
    {
        self.store.node_count()
    }

    /// How many entries all tables have.
    pub(crate) fn entries(&self) -> u64
        ensures { result ≡ entry_count self.now.held.tables }
    {
        self.tables.entries()
    }

    /// The state of a packet: of one that goes out from inside, that which has its key there; of others, that which has it on the wire.
    #[inline(always)]
    pub(crate) fn find(&self, packet: &Packet) -> Option<StateHandle>
        ensures number { option_map (λ f. f.number) result ≡ option_map state_number (state_for self.now.held.world packet.now) }
        ensures rule { option_map (λ f. f.rule) result ≡ option_map state_rule (state_for self.now.held.world packet.now) }
        ensures reached { IfSome result (λ f. S.reaches self.now.store f ≡ true) }
    {
        let key = FlowKey::of(packet);
        if packet.is_from_inside() {
            self.store.find_inside(&key)
        } else {
            self.store.find(&key)
        }
    }

    /// Whether no state has the key of a packet on the wire.
    pub(crate) fn is_new(&self, packet: &Packet) -> bool
        ensures { result ≡ is_none (state_with (key_of packet.now) self.now.held.world) }
    {
        self.store.find(&FlowKey::of(packet)).is_none()
    }

    /// Whether no state has a key of the state that a packet would make, which goes on as another.
    pub(crate) fn are_free(&self, packet: &Packet, going: &Packet) -> bool
        ensures { result ≡ are_free self.now.held.world packet.now going.now }
    {
        self.store.find(&wire_key(packet, going)).is_none()
            && self.store.find_inside(&inner_key(packet, going)).is_none()
    }

    /// The key under which a packet of the state that was found goes on, where it has two, and there are routes.
    pub(crate) fn key_beyond(&self, found: StateHandle, packet: &Packet) -> Option<FlowKey>
        requires reached { S.reaches self.now.store found ≡ true }
        ensures { HasRoutes self.now.config
            → result ≡ option_and_then (onward_key packet.now.dir) (state_numbered found.number.0 self.now.held.world) }
    {
        if !may_go_on(&self.config) {
            return None;
        }
        self.store.onward_key(found, packet.dir())
    }

    /// A packet that was seen on its way out, as it is inside.
    pub(crate) fn inside(&self, packet: &Packet) -> Packet
        requires numbers { Rise 0 self.now.held.world.states self.now.held.world.made }
        requires plain { All (IsPlain self.now.config) self.now.held.world.states }
        ensures { result ≡ inside self.now.held.world packet.now }
    {
        if !self.config.translates() {
            return *packet;
        }
        match self.inner_key(packet) {
            Some(key) => packet.under(&key),
            None => *packet,
        }
    }

    /// The inner key of the state that has the key of a packet on the wire, where it is another one.
    fn inner_key(&self, packet: &Packet) -> Option<FlowKey>
        requires numbers { Rise 0 self.now.held.world.states self.now.held.world.made }
        ensures { result ≡ option_and_then (λ s. s.inner) (state_with (key_of packet.now) self.now.held.world) }
    {
        match self.store.find(&FlowKey::of(packet)) {
            Some(found) => self.store.onward_key(found, Dir::In),
            None => None,
        }
    }

    /// The rule that decides on a packet of no state, if one does, and the rule that loses it, if one does. The packet becomes
    /// what the rules leave it. It takes no memory.
    pub(crate) fn decide(&self, packet: &mut Packet, visits: &mut Meter) -> Decision
        requires { visits.old ≡ 0 }
        ensures rule { option_map (λ r. r.0) result.rule ≡ deciding_rule self.now.config self.now.held packet.old }
        ensures lost { option_map (λ r. r.0) result.lost ≡ losing_rule self.now.config self.now.held packet.old }
        ensures packet { packet.new ≡ packet_ruled self.now.config self.now.held packet.old }
        ensures known { IfSome result.rule (λ r. IsRuleAt self.now.config.items r.0) }
        ensures visits { AreVisits self.now.config self.now.held packet.old false None visits.new }
    {
        let sides = KeysHeld { store: &self.store };
        self.compiled.decide(&self.tables, &sides, packet, visits)
    }

    /// The purges of the seconds after one moment up to another, and how much they examined. No memory is taken.
    pub(crate) fn purge(&mut self, from: u64, to: u64) -> Purged
        requires order { from ≤ to }
        requires moment { to < 2 ^ 32 }
        ensures held { IsHeldAfter self.old self.new
            (held_of (world_after_purges self.old.config self.old.held.world (seconds from to)) self.old.held.tables) }
        ensures answer { result ≡ purged_of S.counts self.old.config self.old.held.world (seconds from to) }
    {
        self.store.purge_seconds(from, to)
    }

    /// Takes the entries out of a table that were added `seconds` before `now`, or earlier; those that the rules text says count
    /// as added at the moment `first`. It returns how many left.
    pub(crate) fn expire(&mut self, table: TableNo, first: u64, now: u64, seconds: u64) -> u64
        requires table { table.0 < length self.old.config.tables }
        requires moments { first ≤ now }
        ensures { IsDone (Outcome.Expire result) (answer_to_command self.old.config self.old.held first now table.0 (Command.Expire seconds))
            self.old self.new }
    {
        self.tables.expire(table, first, now, seconds)
    }

    /// Adds an entry to a table at a moment. `NoMemory` where memory was refused for an entry that is new.
    pub(crate) fn add(
        &mut self,
        table: TableNo,
        entry: &TableEntry,
        now: u64,
    ) -> Result<Entered, NoMemory>
        requires table { table.0 < length self.old.config.tables }
        ensures answered { IsAnsweredAs result (λ became. Outcome.Add became)
            (answer_to_command self.old.config self.old.held 0 now table.0 (Command.Add entry.now)) self.old self.new }
        ensures needed { OnErr result (entered_to self.old.held.tables (limit_of self.old.config LimitName.TableEntries) table.0 entry.now ≡ Entered.New) }
    {
        self.tables.add_entry(table, entry, now)
    }

    /// Takes the very entry that is named out of a table, if it is there. It returns how many left: one, or none.
    pub(crate) fn delete(&mut self, table: TableNo, entry: &TableEntry) -> u64
        requires { table.0 < length self.old.config.tables }
        ensures { IsDone (Outcome.Delete result) (answer_to_command self.old.config self.old.held 0 0 table.0 (Command.Delete entry.now))
            self.old self.new }
    {
        self.tables.delete_entry(table, entry)
    }

    /// Takes out the states that go from hosts to hosts at a moment. It returns how many left. It goes through all states, and no
    /// memory is taken.
    pub(crate) fn kill(&mut self, hosts: &FromTo, now: u64) -> u64
        requires { now ≤ 2 ^ 63 }
        ensures { IsDone (Outcome.Killed result) (answer_to_kill self.old.config self.old.held now hosts.now) self.old self.new }
    {
        let mut looks = Meter::new();
        self.store.kill_from_to(hosts, now, &mut looks)
    }
}

/// The keys of the states that a store holds, as rules ask for them that translate.
#[derive(Clone, Copy)]
struct KeysHeld<'a, S: Store> {
    store: &'a S,
}

impl<'a, S: Store> Sides for KeysHeld<'a, S> {
    ghost use Rattle.pfs_engine_machine.specs.Sides.{is_taken_on};

    ghost taken = { λ keys. is_taken_on (S.world keys.store.now) };

    fn is_taken(&self, dir: Dir, key: &FlowKey) -> bool {
        match dir {
            Dir::In => self.store.find_inside(key).is_some(),
            Dir::Out => self.store.find(key).is_some(),
        }
    }
}
