//! The timeouts: the global ones, and those that a rule gives for its own states.

ghost use Rattle.std.specs.Prelude.{◌≡◌, ◌<◌, ◌≤◌, ◌^◌, slice_index, slice_index_or, slice_set, None, Some};
ghost use Rattle.pfs_conf_values.specs.Timeouts.{default_timeout, place_of, no_timeouts, resolved_timeout, resolved_timeouts, tenths_of};

use crate::profiles::Profile;
use std::marker::Model;

/// A timeout of `set timeout`, in seconds but for the last two, which count states.
/// (pf.conf(5), OPTIONS, "set timeout")
#[derive(Debug, Clone, Copy, PartialEq, Eq)]
pub enum TimeoutName {
    /// `tcp.first`: after the first packet. 120 unless set.
    TcpFirst,
    /// `tcp.opening`: before both sides are ESTABLISHED. 30 unless set.
    TcpOpening,
    /// `tcp.established`: after the handshake. 86400 unless set.
    TcpEstablished,
    /// `tcp.closing`: after the first FIN. 900 unless set.
    TcpClosing,
    /// `tcp.finwait`: after both FINs. 45 unless set.
    TcpFinwait,
    /// `tcp.closed`: after a reset or the last acknowledgement. 90 unless set.
    TcpClosed,
    /// `udp.first`: after the first packet. 60 unless set.
    UdpFirst,
    /// `udp.single`: while one side alone sends more. 30 unless set.
    UdpSingle,
    /// `udp.multiple`: after both sides have sent. 60 unless set.
    UdpMultiple,
    /// `other.first`: as `udp.first`, for protocols other than TCP and UDP. 60 unless set.
    OtherFirst,
    /// `other.single`: as `udp.single`, for them. 30 unless set.
    OtherSingle,
    /// `other.multiple`: as `udp.multiple`, for them. 60 unless set.
    OtherMultiple,
    /// `src.track`: how long a source node is kept after its last state left. 0 unless set.
    SrcTrack,
    /// `interval`: the seconds in which every held state is examined once. At least 1; 10 unless set.
    Interval,
    /// `adaptive.start`: the number of states from which on lifetimes are shortened.
    AdaptiveStart,
    /// `adaptive.end`: the number of states at which lifetimes are 0.
    AdaptiveEnd,
}

impl TimeoutName {
    /// The place of the timeout in the order in which they are shown, from 0 to 15.
    pub fn place(self) -> usize
        ensures { result ≡ place_of self }
    {
        match self {
            TimeoutName::TcpFirst => 0,
            TimeoutName::TcpOpening => 1,
            TimeoutName::TcpEstablished => 2,
            TimeoutName::TcpClosing => 3,
            TimeoutName::TcpFinwait => 4,
            TimeoutName::TcpClosed => 5,
            TimeoutName::UdpFirst => 6,
            TimeoutName::UdpSingle => 7,
            TimeoutName::UdpMultiple => 8,
            TimeoutName::OtherFirst => 9,
            TimeoutName::OtherSingle => 10,
            TimeoutName::OtherMultiple => 11,
            TimeoutName::SrcTrack => 12,
            TimeoutName::Interval => 13,
            TimeoutName::AdaptiveStart => 14,
            TimeoutName::AdaptiveEnd => 15,
        }
    }

    /// The timeout at a place.
    pub fn at(place: usize) -> TimeoutName
        requires { place < 16 }
        ensures { place_of result ≡ place }
    {
        match place {
            0 => TimeoutName::TcpFirst,
            1 => TimeoutName::TcpOpening,
            2 => TimeoutName::TcpEstablished,
            3 => TimeoutName::TcpClosing,
            4 => TimeoutName::TcpFinwait,
            5 => TimeoutName::TcpClosed,
            6 => TimeoutName::UdpFirst,
            7 => TimeoutName::UdpSingle,
            8 => TimeoutName::UdpMultiple,
            9 => TimeoutName::OtherFirst,
            10 => TimeoutName::OtherSingle,
            11 => TimeoutName::OtherMultiple,
            12 => TimeoutName::SrcTrack,
            13 => TimeoutName::Interval,
            14 => TimeoutName::AdaptiveStart,
            _ => TimeoutName::AdaptiveEnd,
        }
    }

    /// The value where `set timeout` gives none and so many states may be held.
    fn default_value(self, profile: Profile, states: u32) -> u64
        ensures { result ≡ default_timeout profile states self }
    {
        match self {
            TimeoutName::TcpFirst => 120,
            TimeoutName::TcpOpening => 30,
            TimeoutName::TcpEstablished => 86_400,
            TimeoutName::TcpClosing => 900,
            TimeoutName::TcpFinwait => 45,
            TimeoutName::TcpClosed => 90,
            TimeoutName::UdpFirst => 60,
            TimeoutName::UdpSingle => 30,
            TimeoutName::UdpMultiple => 60,
            TimeoutName::OtherFirst => 60,
            TimeoutName::OtherSingle => 30,
            TimeoutName::OtherMultiple => 60,
            TimeoutName::SrcTrack => 0,
            TimeoutName::Interval => 10,
            TimeoutName::AdaptiveStart => tenths_of(profile, 6, states),
            TimeoutName::AdaptiveEnd => tenths_of(profile, 12, states),
        }
    }
}

/// So many tenths of a number of states; to OpenBSD of its whole tens. (pf.conf(5), OPTIONS, "adaptive.start")
pub fn tenths_of(profile: Profile, count: u64, states: u32) -> u64
    requires { count ≤ 12 }
    ensures { result ≡ tenths_of profile count states }
{
    match profile {
        Profile::Own => count * u64::from(states) / 10,
        Profile::OpenBsd74 => u64::from(states) / 10 * count,
    }
}

/// The timeouts that a rule gives for its own states, or those that `set timeout` gives. Clauses see a list of 16, by the
/// places of the names.
#[derive(Debug, Clone, Copy, PartialEq, Eq, Hash)]
pub struct RuleTimeouts {
    given: [Option<u32>; 16],
}

impl Model for RuleTimeouts {
    ghost use Rattle.std.specs.Prelude.{◌≡◌, ℕ, List, Option, length};

    ghost Value = { List (Option ℕ) };

    ghost view = { λ t. t.given };

    ghost invariant = { λ t. length t.given ≡ 16 };

    ghost inverse = { λ given. record { given = given } };
}

impl RuleTimeouts {
    /// None given.
    pub fn new() -> RuleTimeouts
        ensures { result ≡ no_timeouts }
    {
        RuleTimeouts { given: [None; 16] }
    }

    /// The value given for a name, if one is.
    pub fn get(&self, name: TimeoutName) -> Option<u32>
        ensures { result ≡ slice_index_or self.now (place_of name) None }
    {
        self.given[name.place()]
    }

    /// Gives a value for the name at this place.
    pub fn set(&mut self, at: usize, value: u32)
        requires { at < 16 }
        ensures { self.new ≡ slice_set self.old at (Some value) }
    {
        self.given[at] = Some(value);
    }

    /// The value of a name: the given one, else the default where so many states may be held.
    fn resolved(&self, name: TimeoutName, profile: Profile, states: u32) -> u64
        ensures { result ≡ resolved_timeout profile states self.now name }
    {
        match self.get(name) {
            Some(value) => u64::from(value),
            None => name.default_value(profile, states),
        }
    }

    /// The value given for the name at this place, if one is.
    pub fn at(&self, place: usize) -> Option<u32>
        requires { place < 16 }
        ensures { result ≡ slice_index_or self.now place None }
    {
        self.given[place]
    }
}

/// The global timeouts. Clauses see a list of 16, by the places of the names.
#[derive(Debug, Clone, Copy, PartialEq, Eq, Hash)]
pub struct Timeouts {
    values: [u64; 16],
}

impl Model for Timeouts {
    ghost use Rattle.std.specs.Prelude.{◌≡◌, ℕ, List, length};

    ghost Value = { List ℕ };

    ghost view = { λ t. t.values };

    ghost invariant = { λ t. length t.values ≡ 16 };

    ghost inverse = { λ values. record { values = values } };
}

impl Timeouts {
    /// The timeouts of a text of this profile that gives these, and the defaults for the others, where so many states may be held.
    pub fn resolved(given: &RuleTimeouts, profile: Profile, states: u32) -> Timeouts
        ensures { result ≡ resolved_timeouts profile states given.now }
    {
        Timeouts {
            values: [
                given.resolved(TimeoutName::TcpFirst, profile, states),
                given.resolved(TimeoutName::TcpOpening, profile, states),
                given.resolved(TimeoutName::TcpEstablished, profile, states),
                given.resolved(TimeoutName::TcpClosing, profile, states),
                given.resolved(TimeoutName::TcpFinwait, profile, states),
                given.resolved(TimeoutName::TcpClosed, profile, states),
                given.resolved(TimeoutName::UdpFirst, profile, states),
                given.resolved(TimeoutName::UdpSingle, profile, states),
                given.resolved(TimeoutName::UdpMultiple, profile, states),
                given.resolved(TimeoutName::OtherFirst, profile, states),
                given.resolved(TimeoutName::OtherSingle, profile, states),
                given.resolved(TimeoutName::OtherMultiple, profile, states),
                given.resolved(TimeoutName::SrcTrack, profile, states),
                given.resolved(TimeoutName::Interval, profile, states),
                given.resolved(TimeoutName::AdaptiveStart, profile, states),
                given.resolved(TimeoutName::AdaptiveEnd, profile, states),
            ],
        }
    }

    /// The value of a name.
    pub fn get(&self, name: TimeoutName) -> u64
        ensures { result ≡ slice_index self.now (place_of name) }
    {
        self.values[name.place()]
    }
}
