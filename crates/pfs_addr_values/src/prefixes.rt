//! Prefixes: the first bits of an address, and the addresses that share them.

ghost use Rattle.std.specs.Prelude.{◌≡◌, ◌≤◌, ◌<◌, ◌==◌};
ghost use Rattle.std.proofs.Common.{rules};
ghost use Rattle.std.specs.Cmp.Rules.{hashing};
ghost use Rattle.pfs_addr_values.specs.Addresses.{IsAddr, width_of};
ghost use Rattle.pfs_addr_values.specs.Prefixes.{IsNetwork, Network, cleared_addr, covers, first_bits, network_of, prefix_writes};
ghost use Rattle.pfs_addr_values.specs.declared.addresses.Addr.TheVariants.{V4, V6};

use crate::addresses::Addr;
use std::hash::{Hash, Hasher};
use std::marker::Model;

/// The addresses whose first bits are those of one address: an address and a number of bits, at most its width. The
/// bits of the address past that number are zero, so two prefixes of the same addresses are equal.
///
/// Clauses see it as a `Network`: the address, and the number of bits. (pf.conf(5), TABLES; RFC 4632, section 3.1)
#[derive(Debug, Clone, Copy, PartialEq, Eq)]
pub struct Prefix {
    addr: Addr,
    bits: u8,
}

impl Model for Prefix {
    ghost use Rattle.pfs_addr_values.specs.Prefixes.{Network, IsNetwork};

    ghost Value = { Network };

    ghost view = { λ p. record { addr = p.addr; bits = p.bits } };

    ghost invariant = { λ p. IsNetwork (record { addr = p.addr; bits = p.bits }) };

    ghost inverse = { λ p. record { addr = p.addr; bits = p.bits } };
}

impl Hash for Prefix {
    ghost hash_input = { λ p. prefix_writes p };

    ghost respects_eq = { Prim.search (hashing, rules) };

    /// Of IPv4 one whole word, which takes a hasher fewer steps than its bytes one by one.
    fn hash<H: Hasher>(&self, state: &mut H) {
        match self.addr {
            Addr::V4(a) => state.write(&[a[0], a[1], a[2], a[3], self.bits, 0, 0, 0]),
            Addr::V6(a) => {
                state.write(&a);
                state.write_u8(self.bits);
            }
        }
    }
}

impl Prefix {
    /// The address, its bits past the prefix's length zero.
    pub fn addr(&self) -> Addr
        ensures value { result ≡ self.now.addr }
        ensures network { IsNetwork self.now }
    {
        self.addr
    }

    /// The number of bits that count: 0 to the width of the address.
    pub fn bits(&self) -> u8
        ensures value { result ≡ self.now.bits }
        ensures network { IsNetwork self.now }
    {
        self.bits
    }

    /// The prefix of one address alone: all its bits count.
    pub fn host(addr: Addr) -> Prefix
        ensures { result ≡ network_of addr (width_of addr) }
    {
        addr.prefix(addr.width())
    }

    /// Whether the prefix covers this address: it is of the prefix's family, and the first bits of both agree, as many
    /// as the prefix has. (pf.conf(5), TABLES)
    #[tactic(auto, unfolding(crate::specs::Prefixes::covers))]
    pub fn contains(&self, addr: Addr) -> bool
        ensures { result ≡ covers self.now addr }
    {
        match (self.addr, addr) {
            (Addr::V4(own), Addr::V4(other)) => first_of_4(own, self.bits)
                == first_of_4(other, self.bits),
            (Addr::V6(own), Addr::V6(other)) => first_of_16(own, self.bits)
                == first_of_16(other, self.bits),
            _ => false,
        }
    }
}

impl Addr {
    /// The prefix of this address with so many bits, at most the address's width. The bits past them are cleared.
    /// (RFC 4632, section 3.1)
    pub fn prefix(self, bits: u8) -> Prefix
        requires { bits ≤ width_of self }
        ensures value { result ≡ network_of self bits }
        ensures addr { IsAddr self }
    {
        Prefix {
            addr: self.cleared(bits),
            bits,
        }
    }

    #[tactic(auto, unfolding(crate::specs::Prefixes::cleared_addr))]
    fn cleared(self, bits: u8) -> Addr
        requires { bits ≤ width_of self }
        ensures value { result ≡ cleared_addr bits self }
        ensures addr { IsAddr self }
    {
        match self {
            Addr::V4(bytes) => {
                let hidden = 32 - u32::from(bits);
                let number = u64::from(u32::from_be_bytes(bytes));
                let kept = number >> hidden << hidden;
                Addr::V4((kept as u32).to_be_bytes())
            }
            Addr::V6(bytes) => Addr::V6(cleared_16(bytes, bits)),
        }
    }
}

/// The first bits of four bytes, as a number.
fn first_of_4(bytes: [u8; 4], bits: u8) -> u64
    requires { bits ≤ 32 }
    ensures { result ≡ first_bits bits (V4 bytes) }
{
    u64::from(u32::from_be_bytes(bytes)) >> (32 - u32::from(bits))
}

/// The first bits of sixteen bytes, as a number.
fn first_of_16(bytes: [u8; 16], bits: u8) -> u128
    requires { bits ≤ 128 }
    ensures { result ≡ first_bits bits (V6 bytes) }
{
    if bits == 0 {
        return 0;
    }
    u128::from_be_bytes(bytes) >> (128 - u32::from(bits))
}

/// Sixteen bytes with all bits past the first ones zero.
fn cleared_16(bytes: [u8; 16], bits: u8) -> [u8; 16]
    requires { bits ≤ 128 }
    ensures value { V6 result ≡ cleared_addr bits (V6 bytes) }
    ensures addr { IsAddr (V6 bytes) }
{
    let number = u128::from_be_bytes(bytes);
    if bits == 0 {
        return 0u128.to_be_bytes();
    }
    let hidden = 128 - u32::from(bits);
    let kept = number >> hidden << hidden;
    kept.to_be_bytes()
}
