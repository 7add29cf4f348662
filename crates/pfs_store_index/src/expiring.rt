//! How long states may stay, under the counts by which their lifetimes are scaled.

ghost use Rattle.std.specs.Prelude.{◌≡◌, ◌+◌, ◌-◌, ◌<◌, ◌≤◌, ◌^◌, if◌then◌else◌, length};
ghost use Rattle.pfs_store_index.specs.Stored.{AreUnread, has_pair, seconds_of};

use pfs_conf_values::{Config, RuleNo, TimeoutName};
use pfs_store_records::Lifetimes;
use pfs_store_rules::count_at;
use pfs_track::{StatePhase, lifetime};

/// The lifetimes of states, where the rules had these counts of states and so many were held.
#[derive(Clone, Copy)]
pub(crate) struct Scaled<'a> {
    pub(crate) config: &'a Config,
    pub(crate) counts: &'a [u64],
    pub(crate) held: u64,
}

impl Lifetimes for Scaled<'_> {
    ghost lifetime = { λ t rule timeout. seconds_of t.config.now t.counts.now t.held rule timeout };

    fn seconds(&self, rule: RuleNo, phase: StatePhase) -> u64 {
        let count = count_at(self.counts, rule.0 as usize);
        lifetime(self.config, rule, phase, count, self.held)
    }
}

/// How many of the first rules are those up to the last that has an adaptive pair of its own: the rules whose counts of states
/// a slice may read.
pub(crate) fn counted_rules(config: &Config) -> usize
    ensures within { result ≤ length config.now.items }
    ensures unread { AreUnread config.now result }
{
    let rules = config.item_count();
    let mut read = 0;
    let mut rule = 0;
    while rule < rules {
        read = counted_after(config, rule, read);
        rule += 1;
    }
    read as usize
}

fn counted_after(config: &Config, rule: u32, read: u32) -> u32
    requires { rule < 2 ^ 32 - 1 }
    ensures { result ≡ (if has_pair config.now rule then rule + 1 else read) }
{
    if config
        .rule_timeout(RuleNo(rule), TimeoutName::AdaptiveStart)
        .is_some()
    {
        rule + 1
    } else {
        read
    }
}
