//! Addresses of both families.

ghost use Rattle.std.specs.Prelude.{◌≡◌, ◌<◌, [], ◌∷◌, true, false};
ghost use Rattle.pfs_addr_values.specs.Addresses.{bytes_of, is_ipv6, same_family, width_of};
ghost use Rattle.std.proofs.Common.{rules};
ghost use Rattle.std.specs.Cmp.Rules.{hashing};

use std::hash::{Hash, Hasher};

/// An address of a packet's end.
#[derive(Debug, Clone, Copy, PartialEq, Eq, PartialOrd, Ord)]
pub enum Addr {
    /// IPv4, its four bytes in the order in which they are written. (RFC 791, section 3.2)
    V4([u8; 4]),
    /// IPv6, its sixteen bytes in the order in which they are written. (RFC 4291, section 2)
    V6([u8; 16]),
}

impl Hash for Addr {
    ghost hash_input = { λ a. bytes_of a ∷ [] };

    ghost respects_eq = { Prim.search (hashing, rules) };

    /// The bytes at once; a derive would feed them one by one.
    fn hash<H: Hasher>(&self, state: &mut H) {
        match self {
            Addr::V4(bytes) => state.write(bytes),
            Addr::V6(bytes) => state.write(bytes),
        }
    }
}

impl Addr {
    /// The number of bits of an address of this family: 32 for IPv4, 128 for IPv6.
    pub fn width(self) -> u8
        ensures { result ≡ width_of self }
    {
        match self {
            Addr::V4(_) => 32,
            Addr::V6(_) => 128,
        }
    }

    /// Whether this is an IPv6 address. (pf.conf(5), PARAMETERS, "inet6")
    pub fn is_ipv6(self) -> bool
        ensures { result ≡ is_ipv6 self }
    {
        matches!(self, Addr::V6(_))
    }

    /// Whether both addresses are IPv4, or both IPv6, as the two ends of a packet are.
    pub fn same_family(self, other: Addr) -> bool
        ensures { result ≡ same_family self other }
    {
        match (self, other) {
            (Addr::V4(_), Addr::V4(_)) | (Addr::V6(_), Addr::V6(_)) => true,
            _ => false,
        }
    }
}
