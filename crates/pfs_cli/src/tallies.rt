//! How much work a run was.

ghost use Rattle.std.specs.Prelude.{◌≡◌, [], max};
ghost use Rattle.pfs_cli.specs.Tallies.{tally_of};
ghost use Rattle.pfs_cli.specs.Tallying.{tally_with};

use pfs_engine::Work;

/// The tally of the work of events: the most that one of them took, and what all took. A sum that is more than 2^64 - 1 is
/// told as that.
#[derive(Clone, Copy, Debug, PartialEq, Eq)]
pub struct Tally {
    /// With how many items all packets together were compared.
    pub visits: u64,
    /// How many slices all purges were, one of states and one of nodes for each second.
    pub slices: u64,
    /// The most items that one packet was compared with.
    pub most_visits: u64,
    /// The most records of states that the store looked at for one event, if it counts looks.
    pub most_looks: u64,
    /// The most states that one slice examined.
    pub most_states: u64,
    /// The most source nodes that one slice examined.
    pub most_nodes: u64,
}

impl Tally {
    /// The tally of no event. Takes no memory.
    pub fn none() -> Tally
        ensures { result ≡ tally_of [] }
    {
        Tally {
            visits: 0,
            slices: 0,
            most_visits: 0,
            most_looks: 0,
            most_states: 0,
            most_nodes: 0,
        }
    }

    /// Adds the work of one event more.
    pub(crate) fn add(&mut self, work: &Work)
        ensures { self.new ≡ tally_with self.old work.now }
    {
        self.visits = self.visits.saturating_add(work.visits);
        self.slices = self.slices.saturating_add(work.slices);
        raise(&mut self.most_visits, work.visits);
        raise(&mut self.most_looks, work.looks);
        raise(&mut self.most_states, work.most_states);
        raise(&mut self.most_nodes, work.most_nodes);
    }
}

/// The greater of both. It is written only where it is another: a test is less work than a choice.
fn raise(most: &mut u64, amount: u64)
    ensures { most.new ≡ max most.old amount }
{
    if *most < amount {
        *most = amount;
    }
}
