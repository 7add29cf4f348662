//! Moments to the nanosecond, and the moment of a frame behind another one.

ghost use Rattle.std.specs.Prelude.{◌≡◌, IfErr};
ghost use Rattle.pfs_capture.specs.Instants.{instant_after, is_before, is_earlier, later, start_instant};

use crate::faults::TraceStop;
use pfs_capture_files::Moment;

/// A moment: a second since 1970, and so many nanoseconds after it began.
#[derive(Clone, Copy)]
pub struct Instant {
    pub second: u32,
    pub nanosecond: u32,
}

impl Instant {
    /// The first moment of all.
    pub fn start() -> Instant
        ensures { result ≡ start_instant }
    {
        Instant {
            second: 0,
            nanosecond: 0,
        }
    }

    /// Whether it is before another moment.
    pub fn is_earlier(self, other: Instant) -> bool
        ensures { result ≡ is_earlier self other }
    {
        self.second < other.second
            || (self.second == other.second && self.nanosecond < other.nanosecond)
    }

    /// The later of two moments.
    fn later(self, other: Instant) -> Instant
        ensures { result ≡ later self other }
    {
        if self.is_earlier(other) { other } else { self }
    }

    /// The moment of a frame of this moment that is behind one in this: its own, but none before that.
    /// `TraceStop::Moment` if its own is not from the second 0 to the second 4294967295.
    pub fn after(self, moment: Moment) -> Result<Instant, TraceStop>
        ensures is { result ≡ instant_after self moment }
        ensures fails { IfErr result (λ f. f ≡ TraceStop.Moment) }
    {
        match moment {
            Moment::At { second, .. } if second > 4_294_967_295 => Err(TraceStop::Moment),
            Moment::At { second, nanosecond } => Ok(self.later(Instant {
                second: second as u32,
                nanosecond,
            })),
            Moment::Untold => Ok(self),
            Moment::Outside => Err(TraceStop::Moment),
        }
    }
}

/// Whether a frame was seen before this second.
pub fn is_before(moment: Moment, second: u64) -> bool
    ensures { result ≡ is_before moment second }
{
    match moment {
        Moment::At { second: own, .. } => own < second,
        Moment::Untold | Moment::Outside => false,
    }
}
