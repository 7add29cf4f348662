//! What the profile makes of the rules of a text at its end.

ghost use Rattle.std.specs.Prelude.{◌≡◌};
ghost use Rattle.pfs_conf_values.specs.Settled.{gives_adaptive, paired, settled_action, settled_item, settled_items, settled_kind, settled_options, with_pair_of_max};

use crate::actions::{Action, StateOptions};
use crate::items::{Item, ItemKind, Rule};
use crate::profiles::Profile;
use crate::timeouts::{RuleTimeouts, TimeoutName, tenths_of};

/// Makes of the rules of a text what they mean under its profile. Without the line `set profile` no rule is `sloppy`, since all are
/// tracked so. Under the profile of OpenBSD 7.4 a rule with `max N`, N at least 10, that gives no adaptive pair gets one: its start
/// is 6 states and its end 12 for each ten of N, the end at most 4294967295. It takes no memory.
/// (pf.conf(5), STATEFUL TRACKING OPTIONS, "max" and "sloppy")
pub fn settle_items(profile: Profile, items: &mut [Item])
    ensures { items.new ≡ settled_items profile items.old }
{
    for item in items.iter_mut() {
        settle_item(profile, item);
    }
}

fn settle_item(profile: Profile, item: &mut Item)
    ensures { item.new ≡ settled_item profile item.old }
{
    settle_kind(profile, &mut item.what);
}

fn settle_kind(profile: Profile, what: &mut ItemKind)
    ensures { what.new ≡ settled_kind profile what.old }
{
    match what {
        ItemKind::Rule(rule) => settle_action(profile, &mut rule.action),
        ItemKind::Anchor(_) => {}
    }
}

fn settle_action(profile: Profile, action: &mut Action)
    ensures { action.new ≡ settled_action profile action.old }
{
    match action {
        Action::Match | Action::Block | Action::Pass => {}
        Action::Keep(options) => settle_options(profile, options),
    }
}

fn settle_options(profile: Profile, options: &mut StateOptions)
    ensures { options.new ≡ settled_options profile options.old }
{
    match profile {
        Profile::Own => options.sloppy = false,
        Profile::OpenBsd74 => options.timeouts = paired(options.max, options.timeouts),
    }
}

/// The timeouts of a rule under the profile of OpenBSD 7.4.
fn paired(max: Option<u32>, timeouts: RuleTimeouts) -> RuleTimeouts
    ensures { result ≡ paired max timeouts }
{
    match max {
        None => timeouts,
        Some(max) => {
            if max < 10 || gives_adaptive(&timeouts) {
                timeouts
            } else {
                with_pair_of_max(max, timeouts)
            }
        }
    }
}

fn gives_adaptive(timeouts: &RuleTimeouts) -> bool
    ensures { result ≡ gives_adaptive timeouts.now }
{
    timeouts.get(TimeoutName::AdaptiveStart).is_some()
        || timeouts.get(TimeoutName::AdaptiveEnd).is_some()
}

fn with_pair_of_max(max: u32, timeouts: RuleTimeouts) -> RuleTimeouts
    ensures { result ≡ with_pair_of_max max timeouts }
{
    let start = tenths_of(Profile::OpenBsd74, 6, max);
    let end = tenths_of(Profile::OpenBsd74, 12, max).min(u64::from(u32::MAX));
    let mut timeouts = timeouts;
    timeouts.set(TimeoutName::AdaptiveStart.place(), start as u32);
    timeouts.set(TimeoutName::AdaptiveEnd.place(), end as u32);
    timeouts
}
