//! What is known, while seconds pass, of when the next state or source node can leave.

ghost use Rattle.std.specs.Prelude.{◌≡◌, ◌+◌, ◌<◌, ◌≤◌};
ghost use Rattle.pfs_store_index.specs.QuietPurges.{known_after, known_before};

use pfs_store_contract::{Purged, Slice};

/// What a slice did, up to when those stay that it examined and that did not leave, and whether the round is over with it. Moments are
/// in seconds.
#[derive(Clone, Copy)]
pub(crate) struct SliceTold {
    pub(crate) slice: Slice,
    pub(crate) until: u64,
    pub(crate) over: bool,
}

/// Up to when states stay, or source nodes, while nothing comes; source nodes as long as no state leaves.
#[derive(Clone, Copy)]
pub(crate) struct KnownStay {
    /// Those that the round under way has examined; 0 where nothing is known of some.
    pub(crate) part: u64,
    /// All of them; 0 where nothing is known.
    pub(crate) all: u64,
}

impl KnownStay {
    /// What is known before a slice that begins a round, or goes on with one, where no slice has told anything.
    pub(crate) fn before(begins: bool) -> KnownStay
        ensures { result ≡ known_before begins }
    {
        KnownStay {
            part: if begins { u64::MAX } else { 0 },
            all: 0,
        }
    }

    /// What is known after a slice: where it ends a round, all were examined in it.
    pub(crate) fn after(self, told: &SliceTold) -> KnownStay
        ensures { result ≡ known_after self told.now.until told.now.over }
    {
        let part = self.part.min(told.until);
        if told.over {
            KnownStay {
                part: u64::MAX,
                all: part,
            }
        } else {
            KnownStay {
                part,
                all: self.all,
            }
        }
    }
}

/// How far the seconds that are due have been done, how much they examined, and what is known of those to come.
#[derive(Clone, Copy)]
pub(crate) struct Passage {
    pub(crate) second: u64,
    pub(crate) purged: Purged,
    pub(crate) states: KnownStay,
    pub(crate) nodes: KnownStay,
}

impl Passage {
    /// How many of the next seconds, up to a moment, are known to be quiet.
    pub(crate) fn quiet_seconds(&self, to: u64) -> u64
        requires order { self.now.second ≤ to }
        ensures order { self.now.second + result ≤ to }
        ensures states { 0 < result → self.now.second + result < self.now.states.all }
        ensures nodes { 0 < result → self.now.second + result < self.now.nodes.all }
    {
        let until = self.states.all.min(self.nodes.all);
        let last = to.min(until.saturating_sub(1));
        last.saturating_sub(self.second)
    }
}
