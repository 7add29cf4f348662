//! The score of a source node, by which the rate of its handshakes is limited.

ghost use Rattle.std.specs.Prelude.{◌≡◌, ◌*◌, ◌≤◌, nat_lt};
ghost use Rattle.pfs_track.specs.Scores.{decayed_score, score_after};

/// The score of a source node: 1000 for each handshake, which decays as time goes by, and the moment of the last one.
/// (pf.conf(5), STATEFUL TRACKING OPTIONS, "max-src-conn-rate"; how it decays is own to this profile)
#[derive(Debug, Clone, Copy, PartialEq, Eq, Default)]
pub struct Score {
    /// Thousandths of handshakes.
    pub value: u64,
    /// The moment of the last handshake, in seconds; 0 before the first.
    pub last: u64,
}

impl Score {
    /// The greatest score.
    pub const GREATEST: u64 = 4_294_968_000;

    /// The score after a handshake at moment `t`, of a rule whose rate is given for this many `seconds`: it is 0 where
    /// the last handshake is `seconds` or more before `t`, else it loses the share of `seconds` that has passed since;
    /// then 1000 is added, up to the greatest score. It takes no memory.
    pub fn add(self, t: u64, seconds: u64) -> Score
        requires order { self.last ≤ t }
        requires seconds { 1 ≤ seconds }
        requires value { self.value ≤ 4294968000 }
        ensures score { result ≡ score_after seconds self t }
        ensures bounded { result.value ≤ 4294968000 }
    {
        let value = decay(self.value, t - self.last, seconds) + 1000;
        Score {
            value: value.min(Score::GREATEST),
            last: t,
        }
    }

    /// Whether the score is past that of `limit` handshakes. It takes no memory.
    pub fn over(self, limit: u64) -> bool
        requires { limit ≤ 4294967 }
        ensures { result ≡ nat_lt (1000 * limit) self.value }
    {
        self.value > 1000 * limit
    }
}

/// What is left of a score after `passed` seconds.
fn decay(value: u64, passed: u64, seconds: u64) -> u64
    requires { value ≤ 4294968000 }
    ensures left { result ≡ decayed_score seconds value passed }
    ensures less { result ≤ value }
{
    if seconds <= passed {
        0
    } else {
        let lost = value as u128 * passed as u128 / seconds as u128;
        value - lost as u64
    }
}
