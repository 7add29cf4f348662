//! How long a walk's states stay: what is known of one serves for the next of the same rule and timeout.

ghost use Rattle.std.specs.Prelude.{◌≡◌, ◌+◌, ◌≤◌, false, true, IfSome, None};
ghost use Rattle.pfs_track.specs.Lifetimes.{is_expired};
ghost use Rattle.pfs_track.specs.StatePhases.{slot};
ghost use Rattle.pfs_store_records.specs.StayTimes.{IsStay};

use crate::packed_state::PackedState;
use crate::walks::Lifetimes;
use pfs_conf_values::{RuleNo, TimeoutName};
use pfs_track::is_expired;

/// For how many seconds states of a rule may stay in phases of a timeout, as far as it is known.
#[derive(Clone, Copy)]
pub(crate) struct Stay {
    pub(crate) rule: RuleNo,
    pub(crate) seconds: u64,
    pub(crate) timeout: TimeoutName,
    pub(crate) is_known: bool,
}

impl Stay {
    /// Nothing is known.
    pub(crate) fn unknown() -> Stay
        ensures { result.is_known ≡ false }
    {
        Stay {
            rule: RuleNo(0),
            seconds: 0,
            timeout: TimeoutName::Interval,
            is_known: false,
        }
    }

    /// How long the state of a record may stay. It is not inlined, so that a walk over states of one kind takes few steps.
    #[inline(never)]
    pub(crate) fn of<T: Lifetimes>(lifetimes: &T, kept: &PackedState) -> Stay
        ensures value { result.seconds ≡ T.lifetime lifetimes.now kept.now.rule (slot kept.now.phase) }
        ensures known { IsStay (T.lifetime lifetimes.now) result }
    {
        let rule = kept.rule();
        Stay {
            rule,
            seconds: lifetimes.seconds(rule, kept.phase()),
            timeout: kept.timeout(),
            is_known: true,
        }
    }

    /// It is known of the rule and the timeout of a record.
    pub(crate) fn is_of(&self, kept: &PackedState) -> bool
        ensures { result ≡ true → (self.now.is_known ≡ true) × (self.now.rule ≡ kept.now.rule) × (self.now.timeout ≡ slot kept.now.phase) }
    {
        self.is_known && self.rule == kept.rule() && self.timeout == kept.timeout()
    }
}

/// Up to when the state of a record stays that may stay so many seconds, or an earlier moment; none where it
/// has expired at the second `now`.
pub(crate) fn stays_until(kept: &PackedState, seconds: u64, now: u64) -> Option<u64>
    ensures none { result ≡ None → is_expired seconds kept.now.last now ≡ true }
    ensures some { IfSome result (λ until. is_expired seconds kept.now.last now ≡ false) }
    ensures until { IfSome result (λ until. until ≤ kept.now.last + seconds) }
{
    let last = kept.last();
    let moment = last.saturating_add(seconds);
    if moment <= now && is_expired(seconds, last, now) {
        None
    } else {
        Some(moment)
    }
}
