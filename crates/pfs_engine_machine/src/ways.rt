//! A run of records is a run of events.

ghost use Rattle.std.specs.Prelude.{◌≡◌, None};
ghost use Rattle.pfs_engine_machine.specs.Machine.{machine_after, outcomes_of, start};
ghost use Rattle.pfs_engine_machine.specs.Runs.{IsInOrder};
ghost use Rattle.pfs_engine_machine.specs.Ways.{events_of_records, machine_after_ways, outcomes_in, ways_of};

use crate::events::Event;
use pfs_conf_values::Config;

/// What comes of records is what comes of their events, of which each record has one, or two where its packet goes through two
/// interfaces. So what holds of every run of events, as `within_limits` and the other laws say, holds between the two interfaces of
/// a packet too. (own)
pub fn ways_are_runs(config: &Config, records: &[Event])
    requires order { IsInOrder None records.now }
    ensures order { IsInOrder None (events_of_records config.now (start config.now) records.now) }
    ensures machine { machine_after_ways config.now (start config.now) records.now
        ≡ machine_after config.now (start config.now) (events_of_records config.now (start config.now) records.now) }
    ensures outcomes { outcomes_in (ways_of config.now (start config.now) records.now)
        ≡ outcomes_of config.now (start config.now) (events_of_records config.now (start config.now) records.now) }
{
    config.keeps_load_rules();
}
