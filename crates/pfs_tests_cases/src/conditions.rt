//! What the calls of an engine require of events, asked as they come.

ghost use Rattle.std.specs.Prelude.{◌≡◌, ◌<◌, ◌≤◌, ◌^◌, true};
ghost use Rattle.std.specs.Option.{ForSome};
ghost use Rattle.pfs_engine_machine.specs.Runs.{AreAllowed, IsInOrder, MayChange, MayCome};

use pfs_conf_values::{Config, TableNo};
use pfs_engine_machine::{Arrival, Event};

/// Whether a moment is one of a trace, and not before the last one.
pub fn is_in_time(last: Option<u64>, time: u64) -> bool
    ensures order { result ≡ true → ForSome last (λ moment. moment ≤ time) }
    ensures moment { result ≡ true → time < 2 ^ 32 }
{
    match last {
        Some(last) => last <= time && time <= 4294967295,
        None => time <= 4294967295,
    }
}

/// Whether the moments of events do not fall, from the last one on.
pub fn is_in_order(last: Option<u64>, events: &[Event]) -> bool
    ensures { result ≡ true → IsInOrder last events.now }
{
    match events {
        [] => true,
        [event, rest @ ..] => {
            is_in_time(last, event.time) && is_in_order(Some(event.time), rest)
        }
    }
}

/// Whether a table is one of the configuration's, and not `const`.
pub fn may_change(config: &Config, table: TableNo) -> bool
    ensures { result ≡ true → MayChange config.now table.0 }
{
    table.0 < config.table_count() && !config.is_const(table)
}

/// Whether it changes no other table.
pub fn may_come(config: &Config, what: &Arrival) -> bool
    ensures { result ≡ true → MayCome config.now what.now }
{
    match what {
        Arrival::Table { table, .. } => may_change(config, *table),
        _ => true,
    }
}

/// Whether none of the events does.
pub fn are_allowed(config: &Config, events: &[Event]) -> bool
    ensures { result ≡ true → AreAllowed config.now events.now }
{
    match events {
        [] => true,
        [event, rest @ ..] => may_come(config, &event.what) && are_allowed(config, rest),
    }
}
