//! How long a state may stay without a packet.

ghost use Rattle.std.specs.Prelude.{◌≡◌};
ghost use Rattle.pfs_track.specs.Lifetimes.{lifetime_under, scaled_lifetime, is_expired, value_for};

use crate::state_phases::StatePhase;
use pfs_conf_values::{Config, RuleNo, TimeoutName};

/// The seconds for which a state of a rule may stay without a packet, where the rule has `rule_states` states and all
/// rules together have `all_states`: the value of the phase's timeout, the rule's or else the global one. It is scaled
/// by the rule's own adaptive pair and its states, or else by the global pair and all states. It takes no memory.
/// (pf.conf(5), OPTIONS, "adaptive.start")
pub fn lifetime(
    config: &Config,
    rule: RuleNo,
    phase: StatePhase,
    rule_states: u64,
    all_states: u64,
) -> u64
    ensures { result ≡ scaled_lifetime config.now rule.0 phase rule_states all_states }
{
    let own = config.rule_timeout(rule, TimeoutName::AdaptiveStart);
    let count = if own.is_some() {
        rule_states
    } else {
        all_states
    };
    scale(
        value_for(config, rule, phase.slot()),
        value_for(config, rule, TimeoutName::AdaptiveStart),
        value_for(config, rule, TimeoutName::AdaptiveEnd),
        count,
    )
}

/// What a timeout is for the states of a rule: the rule's value, or else the global one.
fn value_for(config: &Config, rule: RuleNo, name: TimeoutName) -> u64
    ensures { result ≡ value_for config.now rule.0 name }
{
    config
        .rule_timeout(rule, name)
        .unwrap_or(config.timeout(name))
}

/// Whether what came last at the moment `last`, and may stay for `lifetime` seconds, is expired at the moment `second`.
/// It takes no memory.
pub fn is_expired(lifetime: u64, last: u64, second: u64) -> bool
    ensures { result ≡ is_expired lifetime last second }
{
    lifetime <= second && last <= second - lifetime
}

/// A lifetime under a count of states: a pair (`start`, `end`) other than (0, 0) shortens it from `start` states on, in
/// proportion, to 0 at `end` states.
fn scale(lifetime: u64, start: u64, end: u64, count: u64) -> u64
    ensures { result ≡ lifetime_under lifetime start end count }
{
    if (start == 0 && end == 0) || count <= start {
        lifetime
    } else if end <= count {
        0
    } else {
        let left = lifetime as u128 * (end - count) as u128 / (end - start) as u128;
        left as u64
    }
}
