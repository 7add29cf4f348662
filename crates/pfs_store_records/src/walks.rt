//! Walks over records in the order of their numbers: how long states may stay, and how far a walk came.

ghost use Rattle.std.specs.Prelude.{◌≡◌, ℕ};
ghost use Rattle.pfs_conf_values.specs.declared.items.RuleNo.{RuleNo};
ghost use Rattle.pfs_conf_values.specs.declared.timeouts.TimeoutName.{TimeoutName};
ghost use Rattle.pfs_track.specs.StatePhases.{slot};

use pfs_conf_values::RuleNo;
use pfs_store_contract::State;
use pfs_track::StatePhase;

/// How long states may stay without a packet, by the rule that made them and the timeout of their phase.
pub trait Lifetimes {
    // for how many seconds a state of a rule may stay in a phase of a timeout
    ghost lifetime: { Self → RuleNo → TimeoutName → ℕ };

    /// For how many seconds a state of this rule may stay in this phase.
    fn seconds(&self, rule: RuleNo, phase: StatePhase) -> u64
        ensures { result ≡ lifetime self.now rule (slot phase) };
}

/// How far a walk came.
#[derive(Debug, Clone, Copy, PartialEq, Eq)]
pub struct RoundWalk {
    /// How many states it passed by, none of which has expired.
    pub stayed: u64,
    /// The number of the last of them, or that above which the walk began.
    pub last: u64,
    /// A moment, in seconds, up to which none of them expires, or an earlier one.
    pub until: u64,
    /// The state at which it stopped, which has expired.
    pub leaver: Option<State>,
}

/// What has a number above the cursor, and up to the mark, is still to be examined.
#[derive(Debug, Clone, Copy, PartialEq, Eq)]
pub struct Round {
    /// The number of the last that was examined, or one below all.
    pub cursor: u64,
    /// The greatest number that the round may have.
    pub mark: u64,
}
