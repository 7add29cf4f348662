//! A rate counts every handshake of its source.

ghost use Rattle.std.specs.Prelude.{None};
ghost use Rattle.pfs_engine_machine.specs.RateMemory.{RateIsRemembered, ScoreIsRemembered};
ghost use Rattle.pfs_engine_machine.specs.Runs.{IsInOrder};

use crate::events::Event;
use pfs_conf_values::Config;

/// At each handshake of a rule with `max-src-conn-rate`, the score that is compared with the limit is the one of all
/// handshakes of the source in the run up to then, however often its source node was purged and made again; so the rate is
/// hit exactly where that score exceeds 1000 for each handshake of the rate. (pf.conf(5), STATEFUL TRACKING OPTIONS; own)
pub fn rate_memory(config: &Config, events: &[Event])
    requires order { IsInOrder None events.now }
    ensures score { ScoreIsRemembered config.now events.now }
    ensures kill { RateIsRemembered config.now events.now }
{
    config.keeps_load_rules();
}
