//! Which states an administrator takes out. (pfctl(8), "-k")

ghost use Rattle.std.specs.Prelude.{◌≡◌};
ghost use Rattle.pfs_store_contract.specs.Leaving.{end_beyond, is_covered, is_from_to};

use crate::records::State;
use pfs_addr_values::{Addr, Dir, Endpoint, FlowKey, Prefix};

/// The states that go from hosts, and to hosts, as the packets say that made them. (pfctl(8), "-k")
#[derive(Debug, Clone, Copy, PartialEq, Eq)]
pub struct FromTo {
    /// The hosts that made them.
    pub from: Prefix,
    /// The hosts that they were made for; none where they may be any.
    pub to: Option<Prefix>,
}

impl FromTo {
    /// Whether a state is one of them: the source of the packet that made it is one of those hosts, and the destination, as its
    /// maker sent it, one of these. It takes no memory. (pfctl(8), "-k")
    pub fn is_of(&self, state: &State) -> bool
        ensures { result ≡ is_from_to self.now state.now }
    {
        self.from.contains(state.source)
            && is_covered(&self.to, end_beyond(state.dir, &state.sent_key()).addr)
    }
}

/// Whether a prefix, if there is one, covers an address.
fn is_covered(prefix: &Option<Prefix>, addr: Addr) -> bool
    ensures { result ≡ is_covered prefix.now addr }
{
    match prefix {
        Some(prefix) => prefix.contains(addr),
        None => true,
    }
}

/// The end of a key on the side to which packets of a direction go.
fn end_beyond(dir: Dir, key: &FlowKey) -> Endpoint
    ensures { result ≡ end_beyond dir key.now }
{
    match dir {
        Dir::In => key.b,
        Dir::Out => key.a,
    }
}
