//! How much work a call of the engine was.

ghost use Rattle.std.specs.Prelude.{◌≡◌};
ghost use Rattle.pfs_engine.specs.Calls.{work_of_event};
ghost use Rattle.pfs_engine.specs.Ways.{work_of_both};

/// The work of the latest `advance`, `packet`, `step` or `way` of an engine. That of a step is of the purges due; where a packet comes
/// the slices are those of the purges, and the items and the looks those of the packet. That of a way is of its events together.
#[derive(Clone, Copy, Debug, PartialEq, Eq)]
pub struct Work {
    /// Of a packet: how many items it was compared with.
    pub visits: u64,
    /// Of a packet: at how many records of states the store looked, if it counts looks. Of `advance`: the most of one slice.
    pub looks: u64,
    /// Of `advance`: how many slices were due, one of states and one of nodes for each second.
    pub slices: u64,
    /// Of `advance`: the most states that one slice examined.
    pub most_states: u64,
    /// Of `advance`: the most source nodes that one slice examined, and at no more it looked, if the store counts looks.
    pub most_nodes: u64,
}

impl Work {
    /// No work.
    pub(crate) fn none() -> Work
        ensures { result ≡ record { visits = 0; looks = 0; slices = 0; most_states = 0; most_nodes = 0 } }
    {
        Work {
            visits: 0,
            looks: 0,
            slices: 0,
            most_states: 0,
            most_nodes: 0,
        }
    }

    /// The work of a packet behind that of purges.
    pub(crate) fn of_event(purges: Work, coming: Work) -> Work
        ensures { result ≡ work_of_event purges coming }
    {
        Work {
            visits: coming.visits,
            looks: coming.looks,
            ..purges
        }
    }

    /// The work of two events, one behind the other.
    pub(crate) fn of_both(one: Work, two: Work) -> Work
        ensures { result ≡ work_of_both one two }
    {
        Work {
            visits: one.visits.saturating_add(two.visits),
            looks: one.looks.saturating_add(two.looks),
            slices: one.slices.saturating_add(two.slices),
            most_states: one.most_states.max(two.most_states),
            most_nodes: one.most_nodes.max(two.most_nodes),
        }
    }

    /// The work of a packet.
    pub(crate) fn of_packet(visits: u64, looks: u64) -> Work
        ensures { result ≡ record { visits = visits; looks = looks; slices = 0; most_states = 0; most_nodes = 0 } }
    {
        Work {
            visits,
            looks,
            slices: 0,
            most_states: 0,
            most_nodes: 0,
        }
    }
}
