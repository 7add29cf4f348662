//! What is held stays within the limits, and what is to go goes in time.

ghost use Rattle.std.specs.Prelude.{◌≡◌, None};
ghost use Rattle.pfs_engine_machine.specs.Acts.{StaysWithinLimits, acts_of, after};
ghost use Rattle.pfs_engine_machine.specs.Staleness.{NodesGo, StatesGo};
ghost use Rattle.pfs_engine_machine.specs.Machine.{start, machine_after};
ghost use Rattle.pfs_engine_machine.specs.Runs.{IsInOrder};

use crate::events::Event;
use pfs_conf_values::Config;

/// Whatever arrives, a state that is expired at each of `2 * interval` purges in a row, and of whose key no packet comes
/// meanwhile, is gone after the last of them; so is a source node that has no state and is past its retention at each.
/// It holds of every list of events, in whatever order their moments come. (pf.conf(5), OPTIONS, "interval"; own)
pub fn staleness(config: &Config, events: &[Event])
    ensures run { (machine_after config.now (start config.now) events.now).held ≡ after config.now (acts_of config.now events.now) }
    ensures states { StatesGo config.now events.now }
    ensures nodes { NodesGo config.now events.now }
{
    config.keeps_load_rules();
}

/// After each purge, each packet, each command and each kill of a run whose moments do not fall, states, source nodes and
/// table entries are within their limits, and each rule and source within its maxima; a packet that gets
/// a SYN cookie changes nothing of it. (pf.conf(5), OPTIONS, "set limit", and STATEFUL TRACKING OPTIONS)
pub fn within_limits(config: &Config, events: &[Event])
    requires order { IsInOrder None events.now }
    ensures { StaysWithinLimits config.now events.now }
{
    config.keeps_load_rules();
}
