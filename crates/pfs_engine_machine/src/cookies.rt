//! SYN cookies hold nothing, and are good until the second turn of the secret after them.

ghost use Rattle.std.specs.Prelude.{None};
ghost use Rattle.pfs_engine_machine.specs.CookieLife.{CookiesEnd, CookiesLast, NothingIsHeld};
ghost use Rattle.pfs_engine_machine.specs.Runs.{IsInOrder};

use crate::events::Event;
use pfs_conf_values::Config;

/// A packet that gets a SYN cookie, and one whose cookie no rule with state takes up, change no state, no source node and no
/// table entry. Where nothing comes meanwhile, a cookie is good for 15 seconds; and whatever comes but another SYN of its key, it
/// is forgotten after 30. (pf.conf(5), OPTIONS, "set syncookies")
pub fn cookie_life(config: &Config, events: &[Event])
    requires order { IsInOrder None events.now }
    ensures nothing { NothingIsHeld config.now }
    ensures lasts { CookiesLast config.now events.now }
    ensures ends { CookiesEnd config.now events.now }
{
    config.keeps_load_rules();
}
