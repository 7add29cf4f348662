//! The engine: a machine over any store, with the rules made ready.

ghost use Rattle.std.specs.Prelude.{◌≡◌, ◌+◌, ◌<◌, ◌≤◌, ◌^◌, ◌++◌, [], length, None, Some, IfOk, IsOk, IsSome, OnErr, OnOk};
ghost use Rattle.std.specs.Option.{ForSome};
ghost use Rattle.pfs_addr_values.specs.Packets.{run_limit};
ghost use Rattle.pfs_store_contract.specs.Worlds.{empty_world};
ghost use Rattle.pfs_conf_values.specs.Configs.{limit_of};
ghost use Rattle.pfs_eval.specs.Tables.{entered_to};
ghost use Rattle.pfs_engine_machine.specs.MachineInvariants.{IsWithinLimits, moment_of};
ghost use Rattle.pfs_engine_machine.specs.Refusals.{IsFree};
ghost use Rattle.pfs_engine_machine.specs.Machine.{machine_at_moment, amounts_of, answer_to_command, answer_to_kill, due, entries_held, going_behind_guard, sent_on, nodes_held, start, states_held, step, machine_after, outcomes_of};
ghost use Rattle.pfs_engine_machine.specs.Runs.{MayChange, MayCome, AreAllowed, IsInOrder, IsPacket, IsRefusedIn, IsStopped, NeedsMemory, packets_in, packets_of};
ghost use Rattle.pfs_engine_machine.specs.Ways.{IsRefusedOnWay, events_of_record, first_event, way, way_on};
ghost use Rattle.pfs_engine.specs.Calls.{CountsEvent, CountsPacket, IsAnsweredBy, IsAt, IsLimited, IsWorkBehind, IsWorkOfEvent, IsWorkOfPacket, IsWorkOfSeconds, StaysAtMoment, StaysWithin, answer_at_last, met_held};
ghost use Rattle.pfs_engine.specs.Ways.{GoesAlone, HasRoutes, IsWorkBehindFirst, IsWorkOfWay, record_of_packet};

use crate::contents::EngineContents;
use crate::guard::EngineGuard;
use crate::packets::{Meters, answer_behind_guard};
use crate::passing::pass_due;
use crate::ways::{first_packet, may_go_on, second_packet};
use crate::works::Work;
use pfs_addr_values::{NoMemory, Packet, RUN_LIMIT};
use pfs_conf_values::{Config, LimitName, TableNo};
use pfs_engine_machine::{
    Amounts, Arrival, Command, Entered, Event, FromTo, Outcome, TableEntry, Way,
};
use pfs_store_contract::Store;
use std::alloc::Global;
use std::marker::Model;

/// A machine that runs events under a configuration, over any store.
///
/// Clauses see a `View`: the configuration, the machine (what the store holds, the entries of the tables, the SYN cookies that are
/// out, and the first and the last moment), how many packets were answered, the packet of the latest event as it goes on, and the work of
/// the latest call. What is held is at all times
/// within the limits, as each call that changes it says.
#[derive(Drop)]
pub struct Engine<S: Store> {
    held: EngineContents<S>,
    guard: EngineGuard,
    first: Option<u64>,
    last: Option<u64>,
    taken: u64,
    going: Option<Packet>,
    work: Work,
}

impl<S: Store> Model for Engine<S> {
    ghost use Rattle.std.specs.Coded.{codes};
    ghost use Rattle.pfs_cookies.specs.Cookies.{cookies_code};
    ghost use Rattle.pfs_engine.specs.Views.{IsWhole, View, machine_at};

    ghost Value = { View };

    ghost coded = { Prim.hlevel (codes, cookies_code) };

    ghost view = { λ e. record {
      config = e.held.config;
      machine = machine_at e.held.held e.guard e.first e.last;
      taken = e.taken;
      going = e.going;
      work = e.work;
    } };

    ghost invariant = { λ e. IsWhole e.held.config (machine_at e.held.held e.guard e.first e.last) e.taken };
}

impl<S: Store + Drop> Engine<S> {
    /// The engine of a configuration over an empty store that was made for it, before the first event. `NoMemory` where
    /// memory for the rules or the tables was refused; configuration and store are given up then.
    pub fn new(alloc: Global, config: Config, store: S) -> Result<Engine<S>, NoMemory>
        requires empty { S.world store ≡ empty_world }
        requires made_for { S.config store ≡ config }
        ensures config { IfOk result (λ e. e.config ≡ config) }
        ensures machine { IfOk result (λ e. e.machine ≡ start config) }
        ensures taken { IfOk result (λ e. e.taken ≡ 0) }
        ensures limits { IfOk result (λ e. IsWithinLimits e.config e.machine.held) }
        ensures work { IfOk result (λ e. e.work ≡ record { visits = 0; looks = 0; slices = 0; most_states = 0; most_nodes = 0 }) }
    {
        let guard = EngineGuard::new(alloc, &config);
        Ok(Engine {
            held: EngineContents::new(alloc, config, store)?,
            guard,
            first: None,
            last: None,
            taken: 0,
            going: None,
            work: Work::none(),
        })
    }
}

impl<S: Store> Engine<S> {
    /// The configuration that it runs.
    pub fn config(&self) -> &Config
        ensures { result.now ≡ self.now.config }
    {
        self.held.config()
    }

    /// The moment of the first event, in seconds; none before it.
    pub fn first(&self) -> Option<u64>
        ensures { result ≡ self.now.machine.first }
    {
        self.first
    }

    /// The moment of the last event, in seconds; none before the first.
    pub fn last(&self) -> Option<u64>
        ensures { result ≡ self.now.machine.last }
    {
        self.last
    }

    /// How many packets were answered, at most 2,000,000,000.
    pub fn taken(&self) -> u64
        ensures { result ≡ self.now.taken }
    {
        self.taken
    }

    /// How many states are held.
    pub fn states(&self) -> u64
        ensures value { result ≡ states_held self.now.machine }
        ensures limits { IsWithinLimits self.now.config self.now.machine.held }
    {
        self.held.states()
    }

    /// How many source nodes are held, those without states too.
    pub fn nodes(&self) -> u64
        ensures { result ≡ nodes_held self.now.machine }
    {
        self.held.nodes()
    }

    /// How many entries all tables have.
    pub fn entries(&self) -> u64
        ensures { result ≡ entries_held self.now.machine }
    {
        self.held.entries()
    }

    /// The work of the latest `advance`, `packet`, `step` or `way`; none before the first.
    pub fn work(&self) -> Work
        ensures { result ≡ self.now.work }
    {
        self.work
    }

    /// The packet of the latest event as it goes on.
    fn going(&self) -> &Option<Packet>
        ensures { result.now ≡ self.now.going }
    {
        &self.going
    }

    /// Lets time pass to a moment: does all purges due, one slice of the states and one of the source nodes for each
    /// whole second after the last moment, and behind them turns the secret of SYN cookies; none before the first event. It takes no
    /// memory. (pf.conf(5), OPTIONS, "interval" and "set syncookies"; the slices are own to this profile)
    #[inline(always)]
    pub fn advance(&mut self, now: u64)
        requires order { ForSome self.old.machine.last (λ last. last ≤ now) }
        requires moment { now < 2 ^ 32 }
        ensures machine { self.new.machine ≡ machine_at_moment self.old.config self.old.machine now }
        ensures work { IsWorkOfSeconds S.counts self.old.config self.old.machine.held.world
            (due self.old.machine.last now) self.new.work }
        ensures limits { IsWithinLimits self.new.config self.new.machine.held }
        ensures config { self.new.config ≡ self.old.config }
        ensures taken { self.new.taken ≡ self.old.taken }
        ensures going { self.new.going ≡ None }
    {
        self.going = None;
        self.work = pass_due(&mut self.guard, &mut self.held, self.last, now);
        self.first = Some(self.first.unwrap_or(now));
        self.last = Some(now);
    }

    /// Takes a packet at the last moment, whatever its protocol: it gets a SYN cookie, or it is one of a held state, or the rules
    /// decide on it, or on the SYN whose cookie it brings. Fewer than 2,000,000,000 packets were taken before. Under the profile of
    /// OpenBSD 7.4 a SYN without ACK for a state of TCP that both peers have closed, or that was reset, takes that state out, and is
    /// one of no held state.
    ///
    /// `NoMemory` where memory was refused for a cookie, a new state, for the node that a refusal leaves under that profile, or for the
    /// entry of an overload table; then nothing that is held has changed, but that such a state has left. A cookie that it brings stays
    /// out; where it was to get one, cookies are on.
    /// (pf.conf(5), STATEFUL FILTERING and STATEFUL TRACKING OPTIONS; OPTIONS, "set syncookies")
    pub fn packet(&mut self, packet: &Packet) -> Result<Outcome, NoMemory>
        requires started { IsSome self.old.machine.last }
        requires room { self.old.taken < run_limit }
        ensures answered { IsAnsweredBy result packet.now self.old self.new }
        ensures limited { IsLimited result packet.now self.old self.new }

        // Memory is asked for only where a cookie is given, a state is made, where a refusal leaves a node, or a TCP packet is one of a rule
        // with `overload`.
        ensures free { IsFree self.old.config (met_held self.old.config self.old.machine packet.now).world packet.now
            (answer_at_last self.old.config self.old.machine packet.now).0 → IsOk result }
        ensures work { IsWorkOfPacket S.counts self.old.config self.old.machine packet.now (moment_of self.old.machine.last) result
            self.new.work }
    {
        self.take(packet, Work::none())
    }

    /// Takes a packet as `packet` does, behind purges of which this was the work.
    #[inline(always)]
    fn take(&mut self, packet: &Packet, purges: Work) -> Result<Outcome, NoMemory>
        requires started { IsSome self.old.machine.last }
        requires room { self.old.taken < run_limit }
        ensures answered { IsAnsweredBy result packet.now self.old self.new }
        ensures limited { IsLimited result packet.now self.old self.new }
        ensures free { IsFree self.old.config (met_held self.old.config self.old.machine packet.now).world packet.now
            (answer_at_last self.old.config self.old.machine packet.now).0 → IsOk result }
        ensures going { OnOk result (HasRoutes self.old.config →
            self.new.going ≡ Some (going_behind_guard self.old.config self.old.machine.guard self.old.machine.held packet.now (moment_of self.old.machine.last))) }
        ensures work { IsWorkBehind purges (IsWorkOfPacket S.counts self.old.config self.old.machine packet.now
            (moment_of self.old.machine.last) result) self.new.work }
    {
        let mut meters = Meters::new();
        let now = self.last.unwrap_or(0);
        let outcome = answer_behind_guard(
            &mut self.guard,
            &mut self.held,
            packet,
            now,
            &mut self.going,
            &mut meters,
        );
        let work = Work::of_packet(meters.visits.count(), meters.looks.count());
        self.work = Work::of_event(purges, work);
        self.taken = taken_after(self.taken, &outcome);
        outcome
    }

    /// Takes out of a table, at the last moment, the entries that were added so many seconds before it or earlier; those
    /// that the rules text says count as added at the first moment. It returns how many left. The table is one of the
    /// configuration's, and not `const`. It goes through the entries of that table, takes no memory, and is no packet: what
    /// was taken, and the work of the latest call, stay. (pfctl(8), "-T expire"; which moments count is own to this profile)
    pub fn expire(&mut self, table: TableNo, seconds: u64) -> u64
        requires started { IsSome self.old.machine.last }
        requires table { MayChange self.old.config table.0 }
        ensures answer { (Outcome.Expire result, self.new.machine.held)
            ≡ answer_to_command self.old.config self.old.machine.held (moment_of self.old.machine.first) (moment_of self.old.machine.last) table.0 (Command.Expire seconds) }
        ensures keeps { StaysAtMoment self.old self.new }
        ensures guard { self.new.machine.guard ≡ self.old.machine.guard }
        ensures taken { self.new.taken ≡ self.old.taken }
        ensures work { self.new.work ≡ self.old.work }
        ensures going { self.new.going ≡ self.old.going }
    {
        let first = self.first.unwrap_or(0);
        let now = self.last.unwrap_or(0);
        self.held.expire(table, first, now, seconds)
    }

    /// Adds an entry to a table at the last moment, unless the table has its prefix, with the same sign or the other, or all
    /// tables together have as many entries as the limit allows. The table is one of the configuration's, and not `const`.
    /// `NoMemory` where memory was refused for an entry that is new; then nothing has changed. It is no packet: what was
    /// taken, and the work of the latest call, stay. (pfctl(8), "-T add")
    pub fn add(&mut self, table: TableNo, entry: &TableEntry) -> Result<Entered, NoMemory>
        requires started { IsSome self.old.machine.last }
        requires table { MayChange self.old.config table.0 }
        ensures ok { IfOk result (λ became. (Outcome.Add became, self.new.machine.held)
            ≡ answer_to_command self.old.config self.old.machine.held (moment_of self.old.machine.first) (moment_of self.old.machine.last) table.0 (Command.Add entry.now)) }
        ensures err { OnErr result (self.new.machine ≡ self.old.machine) }
        ensures needed { OnErr result (entered_to self.old.machine.held.tables (limit_of self.old.config LimitName.TableEntries) table.0 entry.now ≡ Entered.New) }
        ensures keeps { StaysAtMoment self.old self.new }
        ensures guard { self.new.machine.guard ≡ self.old.machine.guard }
        ensures taken { self.new.taken ≡ self.old.taken }
        ensures work { self.new.work ≡ self.old.work }
        ensures going { self.new.going ≡ self.old.going }
    {
        let now = self.last.unwrap_or(0);
        self.held.add(table, entry, now)
    }

    /// Takes the very entry that is named out of a table, if it is there: its prefix, with its sign. It returns how many left:
    /// one, or none. The table is one of the configuration's, and not `const`. It takes no memory, and is no packet: what was
    /// taken, and the work of the latest call, stay. (pfctl(8), "-T delete")
    pub fn delete(&mut self, table: TableNo, entry: &TableEntry) -> u64
        requires started { IsSome self.old.machine.last }
        requires table { MayChange self.old.config table.0 }
        ensures answer { (Outcome.Delete result, self.new.machine.held)
            ≡ answer_to_command self.old.config self.old.machine.held (moment_of self.old.machine.first) (moment_of self.old.machine.last) table.0 (Command.Delete entry.now) }
        ensures keeps { StaysAtMoment self.old self.new }
        ensures guard { self.new.machine.guard ≡ self.old.machine.guard }
        ensures taken { self.new.taken ≡ self.old.taken }
        ensures work { self.new.work ≡ self.old.work }
        ensures going { self.new.going ≡ self.old.going }
    {
        self.held.delete(table, entry)
    }

    /// Does to a table what an administrator asks, at the last moment: as `expire`, `add` and `delete` say. `NoMemory` comes
    /// of `add` alone. (pfctl(8), "-T")
    pub fn command(&mut self, table: TableNo, command: &Command) -> Result<Outcome, NoMemory>
        requires started { IsSome self.old.machine.last }
        requires table { MayChange self.old.config table.0 }
        ensures ok { IfOk result (λ o. (o, self.new.machine.held) ≡ answer_to_command self.old.config self.old.machine.held
            (moment_of self.old.machine.first) (moment_of self.old.machine.last) table.0 command.now) }
        ensures err { OnErr result (self.new.machine ≡ self.old.machine) }
        ensures needed { OnErr result (NeedsMemory self.old.config self.old.machine.guard self.old.machine.held (moment_of self.old.machine.last) (Arrival.Table table command.now)) }
        ensures keeps { StaysAtMoment self.old self.new }
        ensures guard { self.new.machine.guard ≡ self.old.machine.guard }
        ensures taken { self.new.taken ≡ self.old.taken }
        ensures work { self.new.work ≡ self.old.work }
        ensures going { self.new.going ≡ self.old.going }
    {
        match command {
            Command::Expire(seconds) => Ok(Outcome::Expire(self.expire(table, *seconds))),
            Command::Add(entry) => Ok(Outcome::Add(self.add(table, entry)?)),
            Command::Delete(entry) => Ok(Outcome::Delete(self.delete(table, entry))),
        }
    }

    /// Takes out, at the last moment, the states that go from these hosts to those: by the source of the packet that made them, and by
    /// its destination, as it was sent. It returns how many left. A source node that loses its last state is kept for its retention
    /// from then on. It goes through all states, takes no memory, and is no packet: what was taken, and the work of the latest call,
    /// stay. (pfctl(8), "-k")
    pub fn kill(&mut self, hosts: &FromTo) -> u64
        requires started { IsSome self.old.machine.last }
        ensures answer { (Outcome.Killed result, self.new.machine.held)
            ≡ answer_to_kill self.old.config self.old.machine.held (moment_of self.old.machine.last) hosts.now }
        ensures keeps { StaysAtMoment self.old self.new }
        ensures guard { self.new.machine.guard ≡ self.old.machine.guard }
        ensures taken { self.new.taken ≡ self.old.taken }
        ensures work { self.new.work ≡ self.old.work }
        ensures going { self.new.going ≡ self.old.going }
    {
        let now = self.last.unwrap_or(0);
        self.held.kill(hosts, now)
    }

    /// How much is held. (pfctl(8), "-si")
    pub fn amounts(&self) -> Amounts
        ensures { result ≡ amounts_of self.now.machine.held }
    {
        Amounts {
            states: self.states(),
            nodes: self.nodes(),
            entries: self.entries(),
        }
    }

    /// Takes one event: lets time pass to its moment, in seconds, which is not before the last one, and then takes what comes.
    /// Fewer than 2,000,000,000 packets were taken before, and a command is about a table of the configuration's that is
    /// not `const`. The outcome is what `packet` or `command` answers, `Skip`, `Killed` with what `kill` answers, or `EngineContents` with what
    /// `amounts` answers.
    ///
    /// `NoMemory` where memory was refused to what needs it: a packet that gets a SYN cookie, or makes a new state, a source node or an
    /// entry of an overload table, or an entry that is added and new. Then the purges due are done, the engine is at the event's moment,
    /// and nothing else has changed, but that a state has left which the packet does not meet, or that SYN cookies are on. All else
    /// takes no memory. (pf.conf(5), STATEFUL FILTERING and STATEFUL TRACKING OPTIONS;
    /// pfctl(8), "-T", "-k" and "-si")
    #[inline(always)]
    #[tactic(auto, unfolding(pfs_engine_machine::specs::Machine::step))]
    pub fn step(&mut self, event: &Event) -> Result<Outcome, NoMemory>
        requires order { ForSome self.old.machine.last (λ m. m ≤ event.now.time) }
        requires moment { event.now.time < 2 ^ 32 }
        requires room { self.old.taken < run_limit }
        requires table { MayCome self.old.config event.now.what }
        ensures ok { IfOk result (λ o. (o, self.new.machine) ≡ step self.old.config self.old.machine event.now) }
        ensures err { OnErr result (IsRefusedIn self.old.config self.old.machine event.now self.new.machine) }
        ensures keeps { IsAt event.now.time self.old self.new }
        ensures taken { CountsEvent result (packets_of event.now.what) self.old.taken self.new.taken }
        ensures work { IsWorkOfEvent S.counts self.old.config self.old.machine event.now result self.new.work }
        ensures going { OnOk result (HasRoutes self.old.config → self.new.going ≡ sent_on self.old.config self.old.machine event.now) }
    {
        self.advance(event.time);
        let purges = self.work();
        match &event.what {
            Arrival::Packet(packet) => self.take(packet, purges),
            Arrival::Skip => Ok(Outcome::Skip),
            Arrival::Table { table, command } => self.command(*table, command),
            Arrival::Kill(hosts) => Ok(Outcome::Killed(self.kill(hosts))),
            Arrival::HeldQuery => Ok(Outcome::HeldAnswer(self.amounts())),
        }
    }

    /// Takes one record: what `step` does with the packet, where it is asked first; and, where that lets it go on, with the packet as it
    /// leaves, or with pf's own SYN in its place. Without routes each record is one event, as it stands. The moment is not before the
    /// last one. Fewer than 1,999,999,999 packets were taken before, and a command is about a table of the configuration's that is
    /// not `const`.
    ///
    /// `NoMemory` as `step` says, of either event: where it comes of the second, what came of the first stays. (pf.conf(5), STATEFUL
    /// FILTERING; `set route` is own)
    pub fn way(&mut self, row: &Event) -> Result<Way, NoMemory>
        requires order { ForSome self.old.machine.last (λ m. m ≤ row.now.time) }
        requires moment { row.now.time < 2 ^ 32 }
        requires room { self.old.taken + 1 < run_limit }
        requires table { MayCome self.old.config row.now.what }
        ensures ok { IfOk result (λ w. (w, self.new.machine) ≡ way self.old.config self.old.machine row.now) }
        ensures err { OnErr result (IsRefusedOnWay self.old.config self.old.machine row.now self.new.machine) }
        ensures keeps { IsAt row.now.time self.old self.new }
        ensures taken { OnOk result (self.new.taken ≡ self.old.taken + packets_in (events_of_record self.old.config self.old.machine row.now)) }
        ensures few { self.new.taken ≤ self.old.taken + 2 }
        ensures work { IsWorkOfWay S.counts self.old.config self.old.machine row.now result self.new.work }
    {
        match &row.what {
            Arrival::Packet(packet) if may_go_on(self.config()) => {
                self.go_through(row.time, packet)
            }
            _ => self.go_alone(row),
        }
    }

    /// Takes a record that is no packet, or where there are no routes: as it stands.
    #[tactic(auto, unfolding(pfs_engine_machine::specs::Ways::way))]
    fn go_alone(&mut self, row: &Event) -> Result<Way, NoMemory>
        requires alone { GoesAlone self.old.config row.now.what }
        requires order { ForSome self.old.machine.last (λ m. m ≤ row.now.time) }
        requires moment { row.now.time < 2 ^ 32 }
        requires room { self.old.taken + 1 < run_limit }
        requires table { MayCome self.old.config row.now.what }
        ensures ok { IfOk result (λ w. (w, self.new.machine) ≡ way self.old.config self.old.machine row.now) }
        ensures err { OnErr result (IsRefusedOnWay self.old.config self.old.machine row.now self.new.machine) }
        ensures keeps { IsAt row.now.time self.old self.new }
        ensures taken { OnOk result (self.new.taken ≡ self.old.taken + packets_in (events_of_record self.old.config self.old.machine row.now)) }
        ensures few { self.new.taken ≤ self.old.taken + 2 }
        ensures work { IsWorkOfWay S.counts self.old.config self.old.machine row.now result self.new.work }
    {
        let first = self.step(row)?;
        Ok(Way {
            first,
            second: None,
        })
    }

    /// Takes the packet of a record at a moment, where there are routes: where it is asked first, and where it leaves.
    #[inline(never)]
    #[tactic(auto, unfolding(pfs_engine_machine::specs::Ways::way))]
    fn go_through(&mut self, time: u64, packet: &Packet) -> Result<Way, NoMemory>
        requires routes { HasRoutes self.old.config }
        requires order { ForSome self.old.machine.last (λ m. m ≤ time) }
        requires moment { time < 2 ^ 32 }
        requires room { self.old.taken + 1 < run_limit }
        ensures ok { IfOk result (λ w. (w, self.new.machine) ≡ way self.old.config self.old.machine (record_of_packet time packet.now)) }
        ensures err { OnErr result (IsRefusedOnWay self.old.config self.old.machine (record_of_packet time packet.now) self.new.machine) }
        ensures keeps { IsAt time self.old self.new }
        ensures taken { OnOk result (self.new.taken
            ≡ self.old.taken + packets_in (events_of_record self.old.config self.old.machine (record_of_packet time packet.now))) }
        ensures few { self.new.taken ≤ self.old.taken + 2 }
        ensures work { IsWorkOfWay S.counts self.old.config self.old.machine (record_of_packet time packet.now) result self.new.work }
    {
        let mut first = *packet;
        let outcome = self.go_in(time, &mut first)?;
        match second_packet(self.config(), packet, &first, &outcome, self.going()) {
            None => Ok(Way {
                first: outcome,
                second: None,
            }),
            Some(packet) => self.go_on(
                outcome,
                &Event {
                    time,
                    what: Arrival::Packet(packet),
                },
            ),
        }
    }

    /// Takes the packet of a record at a moment, where it is asked first. The packet becomes the one that is asked there.
    #[tactic(auto, unfolding(pfs_engine_machine::specs::Machine::step))]
    fn go_in(&mut self, time: u64, packet: &mut Packet) -> Result<Outcome, NoMemory>
        requires order { ForSome self.old.machine.last (λ m. m ≤ time) }
        requires moment { time < 2 ^ 32 }
        requires room { self.old.taken < run_limit }
        ensures packet { record_of_packet time packet.new ≡ first_event self.old.config self.old.machine (record_of_packet time packet.old) }
        ensures ok { IfOk result (λ o. (o, self.new.machine) ≡ step self.old.config self.old.machine (record_of_packet time packet.new)) }
        ensures err { OnErr result (IsRefusedIn self.old.config self.old.machine (record_of_packet time packet.new) self.new.machine) }
        ensures keeps { IsAt time self.old self.new }
        ensures taken { CountsEvent result 1 self.old.taken self.new.taken }
        ensures work { IsWorkOfEvent S.counts self.old.config self.old.machine (record_of_packet time packet.new) result self.new.work }
        ensures going { OnOk result (HasRoutes self.old.config → self.new.going ≡ sent_on self.old.config self.old.machine (record_of_packet time packet.new)) }
    {
        self.advance(time);
        let purges = self.work();
        *packet = first_packet(&self.held, packet);
        self.take(packet, purges)
    }

    /// Takes the second event of a record, at the last moment, behind what came of the first.
    #[tactic(auto)]
    fn go_on(&mut self, first: Outcome, event: &Event) -> Result<Way, NoMemory>
        requires moment { self.old.machine.last ≡ Some event.now.time }
        requires small { event.now.time < 2 ^ 32 }
        requires room { self.old.taken < run_limit }
        requires packet { IsPacket event.now.what }
        ensures ok { IfOk result (λ w. (w, self.new.machine) ≡ way_on self.old.config (first, self.old.machine) (Some event.now)) }
        ensures err { OnErr result (IsRefusedIn self.old.config self.old.machine event.now self.new.machine) }
        ensures keeps { IsAt event.now.time self.old self.new }
        ensures taken { OnOk result (self.new.taken ≡ self.old.taken + 1) }
        ensures few { self.new.taken ≤ self.old.taken + 1 }
        ensures work { IsWorkBehindFirst S.counts self.old.config self.old.machine event.now result self.old.work self.new.work }
    {
        let earlier = self.work;
        let outcome = self.step(event);
        self.work = Work::of_both(earlier, self.work);
        Ok(Way {
            first,
            second: Some(outcome?),
        })
    }

    /// Takes events in turn, and appends the outcome of each. Moments do not fall, from the last one on; all events
    /// together fit into the 2,000,000,000 packets; and no command is about a table that is `const`. `NoMemory`
    /// where memory was refused at an event: the outcomes are those of the events before it. If it was refused for the
    /// outcome, the engine is where these events leave it. If it was refused in what comes, which needs memory
    /// then, the engine is at the event's moment.
    pub fn run(&mut self, events: &[Event], outcomes: &mut Vec<Outcome>) -> Result<(), NoMemory>
        requires order { IsInOrder self.old.machine.last events.now }
        requires room { self.old.taken + length events.now ≤ run_limit }
        requires tables { AreAllowed self.old.config events.now }
        ensures outcomes { OnOk result (outcomes.new.items ≡ outcomes.old.items ++ outcomes_of self.old.config self.old.machine events.now) }
        ensures machine { OnOk result (self.new.machine ≡ machine_after self.old.config self.old.machine events.now) }
        ensures err { OnErr result (IsStopped self.old.config self.old.machine events.now outcomes.old.items outcomes.new.items self.new.machine self.old.taken self.new.taken) }
        ensures taken { OnOk result (self.new.taken ≡ self.old.taken + packets_in events.now) }
        ensures keeps { StaysWithin self.old self.new }
    {
        // What an engine keeps is known from here, also where there is no event.
        prove!(self.taken <= RUN_LIMIT);
        for event in events {
            if outcomes.reserve(1).is_err() {
                return Err(NoMemory);
            }
            match self.step(event) {
                Ok(outcome) => outcomes.push_reserved(outcome),
                Err(refused) => return Err(refused),
            }
        }
        Ok(())
    }
}

/// How many packets were answered after this one: one more, unless memory was refused.
fn taken_after(taken: u64, outcome: &Result<Outcome, NoMemory>) -> u64
    requires { taken < run_limit }
    ensures { CountsPacket outcome.now taken result }
{
    match outcome {
        Ok(_) => taken + 1,
        Err(_) => taken,
    }
}
