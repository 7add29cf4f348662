//! A walk over the lines of a compiled ruleset: where it is, where it ends, the last rule that matched, and what a visit makes of a packet.

ghost use Rattle.std.specs.Prelude.{◌≡◌, ◌+◌, ◌-◌, ◌<◌, ◌^◌, ◌||◌, is_none, unwrap_or};
ghost use Rattle.pfs_eval.specs.Asking.{is_lost_at_once, made_by, marked_by, translation_at_once};
ghost use Rattle.pfs_eval.specs.Lines.{is_deciding, is_matched};
ghost use Rattle.pfs_eval.specs.Translating.{translated};
ghost use Rattle.pfs_eval.specs.Verdict.{can_decide};

use crate::comparing::{Parameter, came_to};
use crate::glances::Glance;
use crate::lines::{Line, is_rule};
use crate::translating::{Sides, translate};
use pfs_addr_values::{Packet, TagNo};
use pfs_conf_values::{Action, ItemKind};

/// Where a walk is.
#[derive(Clone, Copy)]
pub struct RuleWalk {
    /// The place of the next line.
    pub place: u32,
    /// The walk ends at the first item of lesser depth than this.
    pub stop_depth: u8,
    /// The place of the last rule that matched and decides, if none behind it does.
    pub found: Option<u32>,
}

impl RuleWalk {
    ghost use Rattle.pfs_eval.specs.Lines.{packet_after, walk_after};

    /// The walk after a visit to this line, where a parameter failed, or none. A rule that matches gives the packet its tag, and if it is
    /// a `match` rule translates it. It is found if it can decide, or lost the packet.
    pub fn on<S: Sides>(
        self,
        glance: &Glance,
        line: &Line,
        failed: Option<Parameter>,
        sides: &S,
        packet: &mut Packet,
    ) -> RuleWalk
        requires place { self.place < 2 ^ 32 - 1 }
        requires skips { glance.now.skips ≡ line.now.skips }
        ensures walk { result ≡ walk_after (S.taken sides.now) self packet.old line.now failed }
        ensures packet { packet.new ≡ packet_after (S.taken sides.now) packet.old line.now failed }
    {
        if let Some(parameter) = failed {
            return RuleWalk {
                place: u32::from(glance.skips.to(parameter)),
                ..self
            };
        }
        if !is_matched(line, packet) {
            return self.past();
        }
        if !decides(line, sides, packet) {
            return self.past();
        }
        RuleWalk {
            place: line.next,
            stop_depth: self.stop_depth.max(line.stop_depth),
            found: Some(self.place),
        }
    }

    /// The walk at the next line, where nothing was found.
    fn past(self) -> RuleWalk
        requires { self.place < 2 ^ 32 - 1 }
        ensures { result ≡ record { place = self.place + 1; stop_depth = self.stop_depth; found = self.found } }
    {
        RuleWalk {
            place: self.place + 1,
            ..self
        }
    }
}

/// Whether the rule of this line matches a packet that its filter holds of.
fn is_matched(line: &Line, packet: &Packet) -> bool
    ensures { result ≡ is_matched line.now packet.now }
{
    is_rule(&line.item.what) && came_to(&line.item.what, line.asked, packet)
}

/// Makes of a packet what the rule of this line, which matches it, makes of it at once: it gives it its tag, and if it is a `match` rule
/// translates it. The answer is whether the rule decides, if none behind it does: it can, or it lost the packet.
fn decides<S: Sides>(line: &Line, sides: &S, packet: &mut Packet) -> bool
    ensures decides { result ≡ is_deciding (S.taken sides.now) line.now packet.old }
    ensures packet { packet.new ≡ made_by (S.taken sides.now) line.now.given line.now.item.what packet.old }
{
    mark(packet, line.given);
    decides_on(&line.item.what, sides, packet)
}

#[tactic(auto, using(crate::proofs::Translations::nothing_translated))]
fn decides_on<S: Sides>(what: &ItemKind, sides: &S, packet: &mut Packet) -> bool
    ensures decides { result ≡ (can_decide what.now || is_none (translated (S.taken sides.now) (translation_at_once what.now) packet.old)) }
    ensures packet { packet.new ≡ unwrap_or (translated (S.taken sides.now) (translation_at_once what.now) packet.old) packet.old }
{
    match what {
        ItemKind::Rule(rule) => {
            if matches!(rule.action, Action::Match) {
                !translate(&rule.translation, sides, packet)
            } else {
                true
            }
        }
        ItemKind::Anchor(_) => false,
    }
}

/// Gives a packet its tag, if this is one. A packet is written only then.
fn mark(packet: &mut Packet, given: Option<TagNo>)
    ensures { packet.new ≡ marked_by given packet.old }
{
    if given.is_some() {
        *packet = packet.with_tag(given);
    }
}
