//! The law of canonical texts.

ghost use Rattle.std.specs.Prelude.{◌≡◌};
ghost use Rattle.pfs_conf_values.specs.Configs.{Conf};
ghost use Rattle.pfs_conf.specs.Reads.{Reads};
ghost use Rattle.pfs_conf_show.specs.Texts.{text_of};
ghost use Rattle.pfs_conf_round_trip.specs.Again.{CanBeSaid};

use pfs_conf::Config;

/// The text that `show` gives for a configuration reads as that very configuration, and as no other. Excepted are
/// configurations that no text can say as they are shown: where the text is longer than a rules text may be, or its
/// `adaptive.end`, as resolved, is past 4294967295. It computes nothing.
pub fn reads_again(config: &Config)
    ensures same { CanBeSaid config.now → Reads (text_of config.now) config.now }
    ensures only { (other : Conf) → CanBeSaid config.now → Reads (text_of config.now) other → other ≡ config.now }
{
    config.keeps_load_rules();
}
