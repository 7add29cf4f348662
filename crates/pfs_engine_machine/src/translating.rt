//! States with two keys: no two have one key, and a packet and its answers are of one state.

ghost use Rattle.std.specs.Prelude.{None};
ghost use Rattle.pfs_engine_machine.specs.Runs.{IsInOrder};
ghost use Rattle.pfs_engine_machine.specs.TwoKeys.{AnswersBelong, KeysStayAlone};

use crate::events::Event;
use pfs_conf_values::Config;

/// After each purge, each packet, each command and each kill of a run whose moments do not fall, no two states have the same key on the
/// wire, and no two the same key inside. And where a packet makes a state, the packet that answers it as it goes on, between the
/// translated addresses, is one of that state. (pf.conf(5), TRANSLATION)
pub fn two_keys(config: &Config, events: &[Event])
    requires order { IsInOrder None events.now }
    ensures keys { KeysStayAlone config.now events.now }
    ensures answers { AnswersBelong config.now }
{
    config.keeps_load_rules();
}
