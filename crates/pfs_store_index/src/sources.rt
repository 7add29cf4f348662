//! A source as the index by source has it.

ghost use Rattle.std.specs.Prelude.{◌≡◌};
ghost use Rattle.pfs_addr_values.specs.Addresses.{IsAddr};
ghost use Rattle.pfs_store_index.specs.Filed.{ordered_source};

use pfs_addr_values::Addr;

/// An address as the index orders it: its last byte is the highest, and that of IPv4 is one number. So neighbours, of which a
/// flood often comes, do not all stand at one end of the index, where a search is longest, and few bytes tell two apart.
#[derive(Clone, Copy, PartialEq, Eq, PartialOrd, Ord)]
pub(crate) enum Source {
    V4(u32),
    V6([u8; 16]),
}

impl Source {
    /// The source that has an address.
    pub(crate) fn of(addr: Addr) -> Source
        ensures value { result ≡ ordered_source addr }
        ensures addr { IsAddr addr }
    {
        match addr {
            Addr::V4(bytes) => Source::V4(u32::from_le_bytes(bytes)),
            Addr::V6(bytes) => {
                let mut last_first = bytes;
                last_first.reverse();
                Source::V6(last_first)
            }
        }
    }
}
