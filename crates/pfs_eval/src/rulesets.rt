//! The compiled ruleset, and what its rules make of a packet.

ghost use Rattle.std.specs.Prelude.{◌≡◌, ◌+◌, ◌-◌, ◌≤◌, ◌<◌, ◌^◌, All, None, IfOk, IfSome, if◌then◌else◌, is_some, length, option_map, slice_get, unwrap_or};
ghost use Rattle.std.specs.Option.{option_and_then};
ghost use Rattle.pfs_conf_values.specs.Order.{IsPreorder};
ghost use Rattle.pfs_eval.specs.Asking.{asking, decided_by};
ghost use Rattle.pfs_eval.specs.Lines.{passed_at};
ghost use Rattle.pfs_eval.specs.Verdict.{IsRuleAt, cut, lost_by, packet_at_cut, packet_behind, verdict};
ghost use Rattle.pfs_eval.specs.Visits.{visit_bound, visit_floor, visits_of};

use crate::comparing::failing;
use crate::glances::{Glance, glances, name_word};
use crate::lines::{Line, lines};
use crate::tables::Tables;
use crate::translating::{Sides, translate};
use crate::walks::RuleWalk;
use pfs_addr_values::{Meter, NoMemory, Packet};
use pfs_conf_values::{Action, Config, ItemKind, RuleNo};
use std::alloc::Global;
use std::marker::Model;

/// The rules and anchors of a configuration, made ready for evaluation. Clauses see the list of its items.
/// (pf.conf(5), PACKET FILTERING and ANCHORS)
#[derive(Drop)]
pub struct CompiledRuleset {
    /// What a visit reads of each line. A walk goes over these, and reads a line where all that its item asks holds.
    glances: Vec<Glance>,
    lines: Vec<Line>,
}

impl Model for CompiledRuleset {
    ghost use Rattle.std.specs.Prelude.{List};
    ghost use Rattle.pfs_conf_values.specs.declared.items.Item.{Item};
    ghost use Rattle.pfs_eval.specs.Glances.{AreGlances};
    ghost use Rattle.pfs_eval.specs.Lines.{AreLines, items_of};

    ghost Value = { List Item };

    ghost view = { λ b. items_of b.lines.items };

    ghost invariant = { λ b. AreLines (items_of b.lines.items) b.lines.items × AreGlances b.lines.items b.glances.items };
}

/// What the rules make of a packet.
#[derive(Debug, Clone, Copy, PartialEq, Eq)]
pub struct Decision {
    /// The rule that decides, if one does.
    pub rule: Option<RuleNo>,
    /// The rule that loses the packet, if one does: it is the one that decides, and its `nat-to` finds no port.
    pub lost: Option<RuleNo>,
}

impl CompiledRuleset {
    /// That of a configuration. The error says that memory was refused.
    pub fn new(alloc: Global, config: &Config) -> Result<CompiledRuleset, NoMemory>
        ensures { IfOk result (λ b. b ≡ config.now.items) }
    {
        let lines = lines(alloc, config)?;
        let glances = glances(alloc, &lines)?;
        Ok(CompiledRuleset { glances, lines })
    }

    /// What the rules make of a packet, which becomes the packet as they leave it: with the tag of the last rule that matched and gives
    /// one, and translated. The rule that decides, if one does, is the last that matches and is no `match` rule, where such a
    /// rule that is quick ends the evaluation, and a quick anchor ends it where it is left if such a rule inside it matched. The items
    /// of an anchor are compared only with packets that match it. Without a rule, the packet passes without a state.
    ///
    /// A rule matches a packet if its filter holds, and what it asks of how the packet came: `tagged`, of the tag that the packet has by
    /// then, and `received-on`. One that matches and has a `tag` gives it to the packet at once, whether or not it decides.
    ///
    /// A `match` rule that matches translates the packet at once, so that the rules behind it see what it made; a `pass` rule does where
    /// it has decided. Where `nat-to` finds no port whose key is not taken, the packet is lost: its rule decides, and ends the
    /// evaluation.
    ///
    /// An item that fails on a parameter is left behind together with those after it, in the same body, that ask the same
    /// there. With one that `tagged` or `received-on` alone does not hold of, none is left behind.
    ///
    /// The meter rises by one for each item that is compared with the packet, which are all before the end but those left
    /// behind: at most by the number of main items and of the direct items of each anchor that matches before the end, at
    /// least by the number of items before it whose filter holds. It takes no memory. (pf.conf(5), PACKET FILTERING, PARAMETERS,
    /// ANCHORS and TRANSLATION; the visits are own to this profile)
    #[tactic(auto, using(crate::proofs::Bounds::bounds))]
    pub fn decide<S: Sides>(
        &self,
        tables: &Tables,
        sides: &S,
        packet: &mut Packet,
        meter: &mut Meter,
    ) -> Decision
        requires { meter.old ≤ 2 ^ 63 }
        ensures verdict { option_map (λ r. r.0) result.rule ≡ verdict (asking self.now tables.now.entries (S.taken sides.now)) packet.old self.now }
        ensures packet { packet.new ≡ packet_behind (asking self.now tables.now.entries (S.taken sides.now)) packet.old self.now }
        ensures lost { option_map (λ r. r.0) result.lost ≡ lost_by (asking self.now tables.now.entries (S.taken sides.now)) packet.old self.now }
        ensures rule { IfSome result.rule (λ r. IsRuleAt self.now r.0) }
        ensures visits { meter.new ≡ meter.old + visits_of tables.now.entries (S.taken sides.now) packet.old self.now }
        ensures least { meter.old + visit_floor (asking self.now tables.now.entries (S.taken sides.now)) packet.old self.now ≤ meter.new }
        ensures most { meter.new ≤ meter.old + visit_bound (asking self.now tables.now.entries (S.taken sides.now)) packet.old self.now }
    {
        let found = self.walk(tables, sides, packet, meter);
        let passed = self.pass(found, sides, packet);
        Decision {
            rule: rule_no(found),
            lost: rule_lost(found, passed),
        }
    }

    /// Makes of a packet what the rule at this place makes of it, where it decides. The answer is whether it goes on.
    fn pass<S: Sides>(&self, found: Option<u32>, sides: &S, packet: &mut Packet) -> bool
        ensures goes_on { result ≡ is_some (passed_at (S.taken sides.now) packet.old (option_and_then (slice_get self.now) found)) }
        ensures packet { packet.new ≡ unwrap_or (passed_at (S.taken sides.now) packet.old (option_and_then (slice_get self.now) found)) packet.old }
    {
        let Some(place) = found else {
            return true;
        };
        match self.lines.get(place as usize) {
            Some(line) => passes(&line.item.what, sides, packet),
            None => true,
        }
    }

    /// The place of the rule that decides. The packet becomes what the rules before that made of it.
    fn walk<S: Sides>(
        &self,
        tables: &Tables,
        sides: &S,
        packet: &mut Packet,
        meter: &mut Meter,
    ) -> Option<u32>
        requires { meter.old ≤ 2 ^ 63 }
        ensures verdict { result ≡ verdict (asking self.now tables.now.entries (S.taken sides.now)) packet.old self.now }
        ensures packet { packet.new ≡ packet_at_cut (asking self.now tables.now.entries (S.taken sides.now)) packet.old self.now }
        ensures visits { meter.new ≡ meter.old + visits_of tables.now.entries (S.taken sides.now) packet.old self.now }
        ensures least { meter.old + visit_floor (asking self.now tables.now.entries (S.taken sides.now)) packet.old self.now ≤ meter.new }
        ensures most { meter.new ≤ meter.old + length (cut (asking self.now tables.now.entries (S.taken sides.now)) packet.old self.now) }
        ensures preorder { IsPreorder 0 self.now }
    {
        let lines = self.lines.as_slice();
        let glances = self.glances.as_slice();
        // no rule changes it
        let name = name_word(&packet.ifname());
        let mut walk = RuleWalk {
            place: 0,
            stop_depth: 0,
            found: None,
        };
        while (walk.place as usize) < glances.len()
            && walk.stop_depth <= glances[walk.place as usize].depth
        {
            let line = &lines[walk.place as usize];
            let glance = &glances[walk.place as usize];
            let failed = failing(glance, &line.item.what, name, tables, packet, meter);
            walk = walk.on(glance, line, failed, sides, packet);
        }
        walk.found
    }
}

/// Makes of a packet what an item makes of it that decides: a `pass` rule translates it. The answer is whether it goes on: a `match` rule
/// decides only where it lost it.
fn passes<S: Sides>(what: &ItemKind, sides: &S, packet: &mut Packet) -> bool
    ensures goes_on { result ≡ is_some (decided_by (S.taken sides.now) what.now packet.old) }
    ensures packet { packet.new ≡ unwrap_or (decided_by (S.taken sides.now) what.now packet.old) packet.old }
{
    match what {
        ItemKind::Rule(rule) => match &rule.action {
            Action::Match => false,
            Action::Block => true,
            Action::Pass | Action::Keep(_) => translate(&rule.translation, sides, packet),
        },
        ItemKind::Anchor(_) => true,
    }
}

/// The number of the rule that loses a packet, where it does not go on.
fn rule_lost(found: Option<u32>, goes_on: bool) -> Option<RuleNo>
    ensures { option_map (λ r. r.0) result ≡ (if goes_on then None else found) }
{
    if goes_on { None } else { rule_no(found) }
}

fn rule_no(found: Option<u32>) -> Option<RuleNo>
    ensures { option_map (λ r. r.0) result ≡ found }
{
    match found {
        Some(place) => Some(RuleNo(place)),
        None => None,
    }
}
