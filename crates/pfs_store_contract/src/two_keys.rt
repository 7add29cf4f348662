//! The two keys of a state: that on the wire, and that on the other side, inside. (pf.conf(5), TRANSLATION)

ghost use Rattle.std.specs.Prelude.{◌≡◌};
ghost use Rattle.pfs_store_contract.specs.Admission.{apart, key_inside, wire_key};
ghost use Rattle.pfs_store_contract.specs.Calls.{onward_key};
ghost use Rattle.pfs_store_contract.specs.Leaving.{sent_key};
ghost use Rattle.pfs_store_contract.specs.Worlds.{inner_key};

use crate::records::State;
use pfs_addr_values::{Dir, FlowKey, Packet};

/// The key on the wire of the state that a packet makes, which goes on as another. It takes no memory.
pub fn wire_key(packet: &Packet, going: &Packet) -> FlowKey
    ensures { result ≡ wire_key packet.now going.now }
{
    match packet.dir() {
        Dir::In => FlowKey::of(packet),
        Dir::Out => FlowKey::of(going),
    }
}

/// The inner key of that state. It takes no memory.
pub fn inner_key(packet: &Packet, going: &Packet) -> FlowKey
    ensures { result ≡ key_inside packet.now going.now }
{
    match packet.dir() {
        Dir::In => FlowKey::of(going),
        Dir::Out => FlowKey::of(packet),
    }
}

/// The inner key of a state, where it is another than that on the wire. It takes no memory.
pub fn apart(wire: &FlowKey, inner: &FlowKey) -> Option<FlowKey>
    ensures { result ≡ apart wire.now inner.now }
{
    if wire == inner { None } else { Some(*inner) }
}

impl State {
    /// Its inner key. It takes no memory.
    pub fn inner_key(&self) -> FlowKey
        ensures { result ≡ inner_key self.now }
    {
        match self.inner {
            Some(inner) => inner,
            None => self.key,
        }
    }

    /// The key of the packet that made it, as it was sent. It takes no memory.
    pub fn sent_key(&self) -> FlowKey
        ensures { result ≡ sent_key self.now }
    {
        match self.dir {
            Dir::In => self.key,
            Dir::Out => self.inner_key(),
        }
    }

    /// The key with which its packets of this direction go on, where it is another than that with which they come. It takes no memory.
    pub fn onward_key(&self, dir: Dir) -> Option<FlowKey>
        ensures { result ≡ onward_key dir self.now }
    {
        match (dir, self.inner) {
            (Dir::In, inner) => inner,
            (Dir::Out, Some(_)) => Some(self.key),
            (Dir::Out, None) => None,
        }
    }
}
