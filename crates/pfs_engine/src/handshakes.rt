//! A packet of a held state: what its handshake hits, the overload table, and the states that are killed.

ghost use Rattle.std.specs.Prelude.{◌≡◌, ◌+◌, ◌≤◌, ◌<◌, ◌^◌, Bool, true, false, None, Some, filter, length, IsOk, OnOk};
ghost use Rattle.std.specs.Option.{ForSome, option_copied};
ghost use Rattle.pfs_addr_values.specs.Keys.{under_key};
ghost use Rattle.pfs_addr_values.specs.Packets.{run_limit, with_tag};
ghost use Rattle.pfs_conf_values.specs.Configs.{Conf, limit_of, options_at, options_of};
ghost use Rattle.pfs_conf_values.specs.LoadRules.{AreOptions};
ghost use Rattle.pfs_conf_values.specs.Bounds.{IsRate};
ghost use Rattle.pfs_store_contract.specs.Counts.{exceeds_maximum};
ghost use Rattle.pfs_store_contract.specs.Calls.{other_than, source_states};
ghost use Rattle.pfs_store_contract.specs.Handshakes.{stays_at_kill, flush_of, goes_with, over_rate};
ghost use Rattle.pfs_store_contract.specs.Leaving.{world_without};
ghost use Rattle.pfs_store_contract.specs.declared.records.State.{State};
ghost use Rattle.pfs_engine_machine.specs.MachineInvariants.{IsKept, Rise};
ghost use Rattle.pfs_engine_machine.specs.Looks.{AreLooks, AreLooksOfKill};
ghost use Rattle.pfs_engine_machine.specs.Machine.{addition_of, answer_of_key, exceeded_of, going_from, outcome_of_held, tables_after_addition};
ghost use Rattle.pfs_engine_machine.specs.Refusals.{IsFreeOf, is_tcp};
ghost use Rattle.pfs_engine_machine.specs.Sides.{state_for};
ghost use Rattle.pfs_engine.specs.Ways.{HasRoutes};
ghost use Rattle.pfs_engine.specs.Contents.{IsHeldAfter, IsAnswered, IsDone, IsReachedBy, tables_held};
ghost use Rattle.pfs_engine.specs.Meters.{AreFurtherLooks, AreLooksOf, AreLooksOfFlush, stays_beside};
ghost use Rattle.pfs_engine.specs.Packets.{answer_of_touch};
ghost use Rattle.pfs_engine.specs.OverloadRoom.{HasRoomFor};

use crate::contents::EngineContents;
use crate::ways::may_go_on;
use pfs_addr_values::{Addr, Dir, FlowKey, Meter, NoMemory, Packet, Proto, TagNo};
use pfs_conf_values::{Config, LimitName, Overload, Rate, RuleNo, Scope, StateOptions};
use pfs_engine_machine::{Exceeded, Outcome};
use pfs_eval::{Added, Tables};
use pfs_store_contract::{StateHandle, Store, Touched};
use pfs_track::Score;

/// What a packet does that has the key of a held state: the state is renewed, and where its handshake
/// completes past a limit of its rule, its source is added to the rule's overload table and states are
/// killed. Where there are routes, `going` becomes the packet with the state's tag, under its other key.
///
/// Memory is taken for the overload table alone, for a TCP packet, before anything changes; `NoMemory`
/// where it is refused, and then nothing has changed. (pf.conf(5), STATEFUL TRACKING OPTIONS,
/// "max-src-conn", "max-src-conn-rate" and "overload")
pub(crate) fn take_packet_of_state<S: Store>(
    held: &mut EngineContents<S>,
    found: StateHandle,
    packet: &Packet,
    now: u64,
    going: &mut Option<Packet>,
    looks: &mut Meter,
) -> Result<Outcome, NoMemory>
    requires kept { IsKept held.old.config held.old.held now }
    requires found { IsReachedBy S.reaches held.old packet.now found }
    requires moment { now ≤ 2 ^ 63 }
    requires looks { looks.old ≤ 2 }
    ensures answered { (cookie : Bool) → IsAnswered result (answer_of_key held.old.config held.old.held packet.now cookie now) held.old held.new }
    ensures going { OnOk result (HasRoutes held.old.config → (cookie : Bool) → going.new ≡ Some (going_from held.old.config held.old.held packet.now cookie)) }
    ensures free { (s : State) → state_for held.old.held.world packet.now ≡ Some s →
        IsFreeOf held.old.config packet.now s.rule → IsOk result }
    ensures looks { AreLooksOf S.counts held.old.config held.old.held.world packet.now result looks.old looks.new }
{
    make_room(held, found.rule, packet)?;
    let key = held.key_beyond(found, packet);
    let touched = held.store.renew(found, packet, now, looks);
    if may_go_on(&held.config) {
        *going = Some(sent_on(packet, touched.tag, &key));
    }
    Ok(complete_handshake(held, found, &touched, now, looks))
}

/// A packet as it goes on with this tag, and under a key, if this is one.
fn sent_on(packet: &Packet, tag: Option<TagNo>, key: &Option<FlowKey>) -> Packet
    ensures { result ≡ under_key key.now (with_tag packet.now tag) }
{
    let tagged = packet.with_tag(tag);
    match key {
        Some(key) => tagged.under(key),
        None => tagged,
    }
}

/// Room for one more entry in the overload table of a rule, where a packet of its state may complete a handshake.
fn make_room<S: Store>(
    held: &mut EngineContents<S>,
    rule: RuleNo,
    packet: &Packet,
) -> Result<(), NoMemory>
    ensures same { IsHeldAfter held.old held.new held.old.held }
    ensures store { held.new.store ≡ held.old.store }
    ensures room { OnOk result (is_tcp packet.now.proto ≡ true → HasRoomFor (tables_held held.new) (options_of held.old.config rule.0).overload) }
    ensures other { is_tcp packet.now.proto ≡ false → IsOk result }
    ensures none { (options_of held.old.config rule.0).overload ≡ None → IsOk result }
{
    if packet.proto() != Proto::Tcp {
        return Ok(());
    }
    match overload(&held.config, rule) {
        Some(overload) => held.tables.make_room(overload.table),
        None => Ok(()),
    }
}

/// The overload of a rule that keeps state, if it has one: of a table that there is.
fn overload(config: &Config, rule: RuleNo) -> Option<Overload>
    ensures value { result ≡ (options_of config.now rule.0).overload }
    ensures known { ForSome result (λ v. v.table.0 < length config.now.tables) }
{
    options(config, rule)?.overload
}

/// The options of a rule that keeps state: they keep the load rules.
fn options(config: &Config, rule: RuleNo) -> Option<&StateOptions>
    ensures value { option_copied result ≡ options_at config.now rule.0 }
    ensures kept { ForSome result (λ o. AreOptions (length config.now.tables) o.now) }
{
    config.options(rule)
}

/// What comes of a packet that touched the state that was found: where its handshake completes past a limit of its rule, the
/// source is added to the overload table and states are killed.
fn complete_handshake<S: Store>(
    held: &mut EngineContents<S>,
    found: StateHandle,
    touched: &Touched,
    now: u64,
    looks: &mut Meter,
) -> Outcome
    requires reached { S.reaches held.old.store found ≡ true }
    requires numbers { Rise 0 held.old.held.world.states held.old.held.world.made }
    requires looks { looks.old ≤ run_limit }
    requires moment { now ≤ 2 ^ 63 }
    requires room { touched.now.completed ≡ true → HasRoomFor (tables_held held.old) (options_of held.old.config touched.now.rule.0).overload }
    ensures told { IsDone result (answer_of_touch held.old.config held.old.held found.number.0 now touched.now) held.old held.new }
    ensures looks { AreFurtherLooks S.counts looks.old looks.new
        (AreLooks held.old.config (1 + source_states held.old.config.profile touched.now.dir touched.now.source
        (filter (other_than found.number.0) held.old.held.world.states)) result) }
{
    let unhindered = passed(touched);
    if !touched.completed {
        return unhindered;
    }
    let Some(options) = options(&held.config, touched.rule) else {
        return unhindered;
    };
    let Some(exceeded) = exceeded_limits(options, touched) else {
        return unhindered;
    };
    let added = add_source(&mut held.tables, options.overload, touched.source, now);
    let which = Killing {
        found,
        dir: touched.dir,
        rule: touched.rule,
        source: touched.source,
        flush: flush_of(options.overload),
    };
    let killed = kill(&mut held.store, which, now, looks);
    Outcome::Kill {
        rule: touched.rule,
        exceeded,
        overload: added,
        killed,
    }
}

/// What comes of a packet of a held state that exceeds no limit: it goes on, or pf takes it itself, and asks the other peer then, or
/// not.
fn passed(touched: &Touched) -> Outcome
    ensures { result ≡ outcome_of_held touched.now.rule touched.now.taken touched.now.asks }
{
    match (touched.taken, touched.asks) {
        (true, true) => Outcome::Asking(touched.rule),
        (true, false) => Outcome::Taken(touched.rule),
        (false, _) => Outcome::State(touched.rule),
    }
}

/// The limits of a rule that a completed handshake exceeds, if it exceeds one.
fn exceeded_limits(options: &StateOptions, touched: &Touched) -> Option<Exceeded>
    requires { ForSome options.now.max_src_conn_rate IsRate }
    ensures { result
        ≡ exceeded_of (exceeds_maximum options.now.max_src_conn touched.now.connections) (over_rate options.now.max_src_conn_rate touched.now.score.value) }
{
    let conn = exceeds(options.max_src_conn, touched.connections);
    let rate = is_over(options.max_src_conn_rate, touched.score);
    match (conn, rate) {
        (true, true) => Some(Exceeded::Both),
        (true, false) => Some(Exceeded::Connections),
        (false, true) => Some(Exceeded::Rate),
        (false, false) => None,
    }
}

fn exceeds(most: Option<u32>, count: u64) -> bool
    ensures { result ≡ exceeds_maximum most count }
{
    match most {
        Some(most) => count > u64::from(most),
        None => false,
    }
}

fn is_over(rate: Option<Rate>, score: Score) -> bool
    requires { ForSome rate IsRate }
    ensures { result ≡ over_rate rate score.value }
{
    match rate {
        Some(rate) => score.over(u64::from(rate.limit)),
        None => false,
    }
}

fn flush_of(overload: Option<Overload>) -> Option<Scope>
    ensures { result ≡ flush_of overload }
{
    overload?.flush
}

/// Adds a source to an overload table, if there is one, where there is room for it.
fn add_source(
    tables: &mut Tables,
    overload: Option<Overload>,
    source: Addr,
    now: u64,
) -> Option<Added>
    requires { HasRoomFor tables.old overload }
    ensures answer { (conf : Conf) → tables.old.limit ≡ limit_of conf LimitName.TableEntries → result ≡ addition_of conf tables.old.entries source overload }
    ensures entries { (conf : Conf) → tables.old.limit ≡ limit_of conf LimitName.TableEntries → tables.new.entries ≡ tables_after_addition conf tables.old.entries source now overload }
    ensures limit { tables.new.limit ≡ tables.old.limit }
    ensures tables { length tables.new.entries ≡ length tables.old.entries }
{
    let overload = overload?;
    match tables.add_host(overload.table, source, now) {
        Ok(added) => Some(added),
        Err(_) => unreachable!(),
    }
}

/// Which states are killed: the one that was found, of this direction, rule and source, and those of its source that are flushed
/// with it.
#[derive(Clone, Copy)]
struct Killing {
    found: StateHandle,
    dir: Dir,
    rule: RuleNo,
    source: Addr,
    flush: Option<Scope>,
}

/// Kills states. It returns how many they are.
fn kill<S: Store>(store: &mut S, which: Killing, now: u64, looks: &mut Meter) -> u64
    requires reached { S.reaches store.old which.found ≡ true }
    requires numbers { Rise 0 (S.world store.old).states (S.world store.old).made }
    requires moment { now ≤ 2 ^ 63 }
    requires looks { looks.old ≤ run_limit + 1 }
    ensures answer { (conf : Conf) → S.config store.old ≡ conf → result
        ≡ length (filter (goes_with conf.profile which.flush which.found.number.0 which.dir which.rule which.source) (S.world store.old).states) }
    ensures world { (conf : Conf) → S.config store.old ≡ conf → S.world store.new
        ≡ world_without conf (S.world store.old) (stays_at_kill conf.profile which.flush which.found.number.0 which.dir which.rule which.source) now }
    ensures config { S.config store.new ≡ S.config store.old }
    ensures looks { AreFurtherLooks S.counts looks.old looks.new
        (AreLooksOfKill which.flush result (1 + source_states (S.config store.old).profile which.dir which.source
        (filter (other_than which.found.number.0) (S.world store.old).states))) }
{
    let before = store.state_count();
    store.kill(which.found, now, looks);
    match which.flush {
        None => before - store.state_count(),
        Some(scope) => {
            flush(store, which, scope, now, looks);
            before - store.state_count()
        }
    }
}

/// Flushes the states of the source, of all rules or of that of the state which was killed.
fn flush<S: Store>(store: &mut S, which: Killing, scope: Scope, now: u64, looks: &mut Meter)
    requires moment { now ≤ 2 ^ 63 }
    requires looks { looks.old ≤ 2 ^ 63 }
    ensures world { (conf : Conf) → S.config store.old ≡ conf → S.world store.new
        ≡ world_without conf (S.world store.old) (stays_beside conf.profile scope which.dir which.rule which.source) now }
    ensures config { S.config store.new ≡ S.config store.old }
    ensures looks { AreLooksOfFlush S.counts looks.old looks.new (length (S.world store.old).states) (length (S.world store.new).states)
        (source_states (S.config store.old).profile which.dir which.source (S.world store.old).states) }
{
    let rule = match scope {
        Scope::Rule => Some(which.rule),
        Scope::Global => None,
    };
    store.flush(which.dir, which.source, rule, now, looks);
}
