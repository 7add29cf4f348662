//! What one packet does.

ghost use Rattle.std.specs.Prelude.{◌≡◌, ◌<◌, ◌≤◌, ◌^◌, ◌||◌, None, Some, true, false, if◌then◌else◌, IfOk, IfSome, IsOk, IsSome, OnErr, OnOk, option_map};
ghost use Rattle.pfs_addr_values.specs.Packets.{run_limit};
ghost use Rattle.pfs_eval.specs.Verdict.{IsRuleAt};
ghost use Rattle.pfs_store_contract.specs.Admission.{is_answered};
ghost use Rattle.pfs_conf_values.specs.Configs.{options_at, translates};
ghost use Rattle.pfs_store_contract.specs.Calls.{packet_limit, state_number, state_rule};
ghost use Rattle.pfs_store_contract.specs.Touching.{may_reopen, reopens};
ghost use Rattle.pfs_engine_machine.specs.Guards.{asked, guard_after_packet, guard_for};
ghost use Rattle.pfs_engine_machine.specs.MachineInvariants.{IsKept};
ghost use Rattle.pfs_engine_machine.specs.Looks.{AreLooks};
ghost use Rattle.pfs_engine_machine.specs.Machine.{answer_of_keys, answer_of_limits, answer_of_rule, answer_of_rules, deciding_rule, going_behind_guard, going_from, going_of_state, held_for, outcome_of_new, outcome_of_pass, packet_ruled};
ghost use Rattle.pfs_engine_machine.specs.Sides.{are_free, state_for};
ghost use Rattle.pfs_engine_machine.specs.Visits.{AreVisits};
ghost use Rattle.pfs_engine.specs.Ways.{HasRoutes};
ghost use Rattle.pfs_engine.specs.Contents.{IsHeldAfter, IsAnswered, IsAnsweredBehindGuard, IsAnsweredTo, IsReachedBy};
ghost use Rattle.pfs_engine.specs.Meters.{AreFirstLooks, AreMetersBehindGuard, AreMetersOf};
ghost use Rattle.pfs_engine.specs.Packets.{IsFreeUnlessTranslated, NeedsNone, NeedsNoneAtLimits, NeedsNoneBehindGuard, NeedsNoneBy, NeedsNoneOf};

use crate::contents::EngineContents;
use crate::guard::EngineGuard;
use crate::handshakes::take_packet_of_state;
use crate::ways::may_go_on;
use pfs_addr_values::{Flags, Meter, NoMemory, Packet};
use pfs_conf_values::{Action, Config, RuleNo};
use pfs_engine_machine::Outcome;
use pfs_store_contract::{StateHandle, Store, is_answered};

/// The meters of one packet.
#[derive(Drop)]
pub(crate) struct Meters {
    /// The items that it is compared with.
    pub(crate) visits: Meter,
    /// The records of states that the store looks at.
    pub(crate) looks: Meter,
}

impl Meters {
    /// Both at 0.
    pub(crate) fn new() -> Meters
        ensures { result ≡ record { visits = 0; looks = 0 } }
    {
        Meters {
            visits: Meter::new(),
            looks: Meter::new(),
        }
    }
}

/// What a packet does: it gets a cookie, or it is one of a held state, or the rules decide on it, or on the SYN whose cookie it
/// brings. `going` becomes the packet as it goes on, where it does, and there are routes. On an error what it meets is held, behind the guard that it meets.
/// (pf.conf(5), STATEFUL FILTERING)
#[inline(always)]
pub(crate) fn answer_behind_guard<S: Store>(
    guard: &mut EngineGuard,
    held: &mut EngineContents<S>,
    packet: &Packet,
    now: u64,
    going: &mut Option<Packet>,
    meters: &mut Meters,
) -> Result<Outcome, NoMemory>
    requires kept { IsKept held.old.config held.old.held now }
    requires room { held.old.held.world.made < run_limit }
    requires moment { now ≤ 2 ^ 63 }
    requires meters { meters.old ≡ record { visits = 0; looks = 0 } }
    ensures answered { IsAnsweredBehindGuard result guard.old packet.now now held.old held.new }
    ensures going { OnOk result (HasRoutes held.old.config → going.new ≡ Some (going_behind_guard held.old.config guard.old held.old.held packet.now now)) }
    ensures guard { OnOk result (guard.new ≡ guard_after_packet held.old.config guard.old held.old.held.world packet.now now) }
    ensures refused { OnErr result (guard.new ≡ guard_for held.old.config guard.old held.old.held.world packet.now now) }
    ensures free { NeedsNoneBehindGuard held.old.config guard.old held.old.held packet.now now → IsOk result }
    ensures meters { AreMetersBehindGuard S.counts held.old.config guard.old held.old.held packet.now now result
        meters.new.visits meters.new.looks }
{
    if guard.gets_cookie(held, packet) {
        if may_go_on(&held.config) {
            *going = Some(*packet);
        }
        return guard.give(&held.config, packet, now);
    }
    let cookie = guard.brings_cookie(held, packet);
    let outcome = answer(held, packet, cookie, now, going, meters)?;
    if cookie {
        guard.take(packet);
    }
    Ok(outcome)
}

/// What a packet does that gets no cookie, by whether it brings one.
fn answer<S: Store>(
    held: &mut EngineContents<S>,
    packet: &Packet,
    cookie: bool,
    now: u64,
    going: &mut Option<Packet>,
    meters: &mut Meters,
) -> Result<Outcome, NoMemory>
    requires kept { IsKept held.old.config held.old.held now }
    requires room { held.old.held.world.made < run_limit }
    requires moment { now ≤ 2 ^ 63 }
    requires meters { meters.old ≡ record { visits = 0; looks = 0 } }
    ensures answered { IsAnsweredTo result packet.now cookie now held.old held.new }
    ensures going { OnOk result (HasRoutes held.old.config →
        going.new ≡ Some (going_from held.old.config (held_for held.old.config held.old.held packet.now now) packet.now cookie)) }
    ensures free { NeedsNoneOf held.old.config (held_for held.old.config held.old.held packet.now now) packet.now cookie → IsOk result }
    ensures meters { AreMetersOf S.counts held.old.config held.old.held (held_for held.old.config held.old.held packet.now now)
        packet.now cookie result meters.new.visits meters.new.looks }
{
    match meet(held, packet, now, &mut meters.looks) {
        Some(found) => take_packet_of_state(held, found, packet, now, going, &mut meters.looks),
        None => by_rules(held, packet, cookie, now, going, &mut meters.visits),
    }
}

/// The state of a packet, once one has left that the packet does not meet: one that has closed, of a SYN, under the
/// profile of OpenBSD 7.4. It takes no memory. (pf of OpenBSD 7.4, as it is remembered)
fn meet<S: Store>(
    held: &mut EngineContents<S>,
    packet: &Packet,
    now: u64,
    looks: &mut Meter,
) -> Option<StateHandle>
    requires kept { IsKept held.old.config held.old.held now }
    requires moment { now ≤ 2 ^ 63 }
    requires looks { looks.old ≡ 0 }
    ensures held { IsHeldAfter held.old held.new (held_for held.old.config held.old.held packet.now now) }
    ensures number { option_map (λ f. f.number) result ≡ option_map state_number (state_for held.new.held.world packet.now) }
    ensures rule { option_map (λ f. f.rule) result ≡ option_map state_rule (state_for held.new.held.world packet.now) }
    ensures reached { IfSome result (λ f. S.reaches held.new.store f ≡ true) }
    ensures looks { AreFirstLooks S.counts held.old.config held.old.held.world packet.now looks.new }
{
    let found = held.find(packet)?;
    if !reopens(held, found, packet, now, looks) {
        return Some(found);
    }
    held.store.kill(found, now, looks);
    held.find(packet)
}

/// Whether a packet begins the connection of the state that was found anew at a moment, since that has closed.
fn reopens<S: Store>(
    held: &EngineContents<S>,
    found: StateHandle,
    packet: &Packet,
    now: u64,
    looks: &mut Meter,
) -> bool
    requires kept { IsKept held.now.config held.now.held now }
    requires found { IsReachedBy S.reaches held.now packet.now found }
    requires looks { looks.old ≡ 0 }
    ensures answer { Some result ≡ option_map (reopens held.now.config packet.now) (state_for held.now.held.world packet.now) }
    ensures looks { S.counts ≡ true → looks.new ≡ (if may_reopen held.now.config packet.now then 1 else 0) }
    ensures uncounted { S.counts ≡ false → looks.new ≡ 0 }
{
    may_reopen(&held.config, packet) && held.store.has_closed(found, looks)
}

/// Whether a packet may begin a connection anew: a SYN without ACK, under the profile of OpenBSD 7.4.
fn may_reopen(config: &Config, packet: &Packet) -> bool
    ensures { result ≡ may_reopen config.now packet.now }
{
    let flags = packet.flags();
    config.profile().is_openbsd() && flags.syn && !flags.ack
}

/// What the rules make of a packet of no held state, or of the SYN whose cookie it brings.
fn by_rules<S: Store>(
    held: &mut EngineContents<S>,
    packet: &Packet,
    cookie: bool,
    now: u64,
    going: &mut Option<Packet>,
    visits: &mut Meter,
) -> Result<Outcome, NoMemory>
    requires free { IsFreeUnlessTranslated held.old.config held.old.held.world packet.now }
    requires room { held.old.held.world.made < run_limit }
    requires visits { visits.old ≡ 0 }
    ensures answered { IsAnswered result (answer_of_rules held.old.config held.old.held packet.now cookie now) held.old held.new }
    ensures going { HasRoutes held.old.config → going.new ≡ Some (going_of_state held.old.config held.old.held packet.now cookie None) }
    ensures visits { AreVisits held.old.config held.old.held packet.now cookie None visits.new }
    ensures free { NeedsNone held.old.config held.old.held packet.now cookie None → IsOk result }
    ensures no_looks { IfOk result (λ o. AreLooks held.old.config 0 o 0) }
{
    let mut ruled = asked(packet, cookie);
    let decision = held.decide(&mut ruled, visits);
    if may_go_on(&held.config) {
        *going = Some(ruled.with_flags(packet.flags()));
    }
    match (decision.lost, decision.rule) {
        (Some(rule), _) => Ok(Outcome::Lost(rule)),
        (None, Some(rule)) => by_action(held, packet, &ruled, rule, cookie, now),
        (None, None) => Ok(passed(None, cookie)),
    }
}

/// The packet that rules are asked for: where it brings a cookie, the SYN that pf answered for them.
fn asked(packet: &Packet, cookie: bool) -> Packet
    ensures { result ≡ asked packet.now cookie }
{
    if !cookie {
        return *packet;
    }
    packet.with_flags(Flags {
        syn: true,
        ..Flags::default()
    })
}

/// What the rule that decides makes of it, which goes on as another packet.
fn by_action<S: Store>(
    held: &mut EngineContents<S>,
    packet: &Packet,
    going: &Packet,
    rule: RuleNo,
    cookie: bool,
    now: u64,
) -> Result<Outcome, NoMemory>
    requires fresh { translates held.old.config ≡ false → are_free held.old.held.world packet.now going.now ≡ true }
    requires known { IsRuleAt held.old.config.items rule.0 }
    requires room { held.old.held.world.made < run_limit }
    ensures answered { IsAnswered result (answer_of_rule held.old.config held.old.held packet.now going.now cookie now (Some rule.0)) held.old held.new }
    ensures free { NeedsNoneBy held.old.config held.old.held packet.now going.now (Some rule.0) → IsOk result }
    ensures no_looks { IfOk result (λ o. AreLooks held.old.config 0 o 0) }
{
    let Some(found) = held.config.rule(rule) else {
        unreachable!();
    };
    match &found.action {
        Action::Match => Ok(passed(None, cookie)),
        Action::Block => Ok(Outcome::Block(rule)),
        Action::Pass => Ok(passed(Some(rule), cookie)),
        Action::Keep(_) => by_limits(held, packet, going, rule, cookie, now),
    }
}

/// What comes of a packet that asks for a state of a rule, where a limit is met, or none.
#[tactic(auto, using(crate::proofs::Admitting::asked_free))]
fn by_limits<S: Store>(
    held: &mut EngineContents<S>,
    packet: &Packet,
    going: &Packet,
    rule: RuleNo,
    cookie: bool,
    now: u64,
) -> Result<Outcome, NoMemory>
    requires fresh { translates held.old.config ≡ false → are_free held.old.held.world packet.now going.now ≡ true }
    requires keeps { IsSome (options_at held.old.config rule.0) }
    requires room { held.old.held.world.made < run_limit }
    ensures answered { IsAnswered result (answer_of_limits held.old.config held.old.held packet.now going.now cookie now rule.0
        (packet_limit held.old.config held.old.held.world packet.now rule.0)) held.old held.new }
    ensures free { NeedsNoneAtLimits held.old.config held.old.held.world packet.now going.now rule.0
        (packet_limit held.old.config held.old.held.world packet.now rule.0) → IsOk result }
    ensures no_looks { IfOk result (λ o. AreLooks held.old.config 0 o 0) }
{
    match held.store.meet_limit(packet.src(), rule, now)? {
        Some(limit) => Ok(Outcome::Drop(rule, limit)),
        None => by_keys(held, packet, going, rule, cookie, now),
    }
}

/// What comes of a packet that meets no limit: it makes a state of a rule, unless another state has one of its keys.
fn by_keys<S: Store>(
    held: &mut EngineContents<S>,
    packet: &Packet,
    going: &Packet,
    rule: RuleNo,
    cookie: bool,
    now: u64,
) -> Result<Outcome, NoMemory>
    requires fresh { translates held.old.config ≡ false → are_free held.old.held.world packet.now going.now ≡ true }
    requires keeps { IsSome (options_at held.old.config rule.0) }
    requires room { held.old.held.world.made < run_limit }
    ensures answered { IsAnswered result (answer_of_keys held.old.config held.old.held packet.now going.now cookie now rule.0
        (are_free held.old.held.world packet.now going.now)) held.old held.new }
    ensures free { are_free held.old.held.world packet.now going.now ≡ false → IsOk result }
    ensures no_looks { IfOk result (λ o. AreLooks held.old.config 0 o 0) }
{
    if held.config.translates() && !held.are_free(packet, going) {
        return Ok(Outcome::Conflict(rule));
    }
    held.store.make(packet, going, rule, cookie, now)?;
    Ok(made(&held.config, rule, packet, cookie))
}

/// What comes of a packet that no state is made for: it passes; with a cookie it has nowhere to go.
fn passed(rule: Option<RuleNo>, cookie: bool) -> Outcome
    ensures { result ≡ outcome_of_pass rule cookie }
{
    if cookie {
        Outcome::Stateless(rule)
    } else {
        Outcome::Pass(rule)
    }
}

/// What came of a packet that made a state of a rule: it goes on, or pf answers it itself, as it does where it brings a cookie.
fn made(config: &Config, rule: RuleNo, packet: &Packet, cookie: bool) -> Outcome
    ensures { result ≡ outcome_of_new rule (cookie || is_answered config.now rule.0 packet.now) }
{
    if cookie || is_answered(config, rule, packet) {
        Outcome::Answered(rule)
    } else {
        Outcome::New(rule)
    }
}
