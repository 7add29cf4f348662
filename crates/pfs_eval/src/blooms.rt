//! A Bloom filter over the prefixes of a table: most that are not there are told without a look-up.

ghost use Rattle.std.specs.Prelude.{◌≡◌, ◌+◌, ◌≤◌, ◌<◌, ◌^◌, ℕ, length, true};
ghost use Rattle.pfs_addr_values.specs.declared.addresses.Addr.{Addr};
ghost use Rattle.pfs_addr_values.specs.declared.addresses.Addr.TheVariants.{V4};
ghost use Rattle.pfs_addr_values.specs.Addresses.{width_of};
ghost use Rattle.pfs_addr_values.specs.Prefixes.{first_bits};
ghost use Rattle.pfs_eval.specs.Blooms.{bit_of, has_bits, may_have, other_half, prefix_hash, word_place};

use pfs_addr_values::Addr;
use std::alloc::{AllocError, Global};
use std::marker::Model;

/// Which IPv4 prefixes a table may have: of each, two bits of one word are set, so that it takes one look at memory. Of every
/// IPv6 prefix it says that the table may have it. Clauses see its words.
/// (Bloom, "Space/Time Trade-offs in Hash Coding with Allowable Errors")
#[derive(Drop)]
pub struct Bloom {
    words: Vec<u64>,
}

impl Model for Bloom {
    ghost use Rattle.std.specs.Prelude.{List, ℕ};

    ghost Value = { List ℕ };

    ghost view = { λ b. b.words.items };
}

impl Bloom {
    /// One that says of every prefix that it may be there. It takes no memory.
    pub fn of_all(alloc: Global) -> Bloom
        ensures { (a : Addr) (n : ℕ) → may_have result a n ≡ true }
    {
        Bloom {
            words: Vec::new(alloc),
        }
    }

    /// One without a prefix, with 16 bits for each of so many entries. The error says that memory was refused.
    pub fn with_capacity(alloc: Global, entries: usize) -> Result<Bloom, AllocError> {
        let words = vec![in alloc; 0u64; entries / 4 + 1]?;
        Ok(Bloom { words })
    }

    /// Whether the prefix of this address with so many bits may be there.
    #[inline(always)]
    pub fn may_have(&self, addr: Addr, bits: u8) -> bool
        requires { bits ≤ width_of addr }
        ensures { result ≡ may_have self.now addr bits }
    {
        match addr {
            Addr::V4(bytes) => has_bits(&self.words, prefix_hash(first_bits(bytes, bits), bits)),
            Addr::V6(_) => true,
        }
    }

    /// Notes that the prefix of this address with so many bits may be there.
    pub fn note(&mut self, addr: Addr, bits: u8)
        requires { bits ≤ width_of addr }
        ensures noted { may_have self.new addr bits ≡ true }
        ensures kept { (a : Addr) (n : ℕ) → may_have self.old a n ≡ true → may_have self.new a n ≡ true }
    {
        if let Addr::V4(bytes) = addr {
            set_bits(&mut self.words, prefix_hash(first_bits(bytes, bits), bits));
        }
    }
}

/// The first bits of an IPv4 address, as a number.
#[inline(always)]
pub fn first_bits(bytes: [u8; 4], bits: u8) -> u64
    requires { bits ≤ 32 }
    ensures value { result ≡ first_bits bits (V4 bytes) }
    ensures most { result < 2 ^ 32 }
{
    u64::from(u32::from_be_bytes(bytes)) >> (32 - u32::from(bits))
}

/// The hash of a prefix, of its first bits and how many they are: both are multiplied by odd constants (Fibonacci hashing).
#[inline(always)]
#[tactic(auto, unfolding(crate::specs::Blooms::prefix_hash))]
pub fn prefix_hash(first: u64, bits: u8) -> u64
    ensures { result ≡ prefix_hash first bits }
{
    let length = u64::from(bits).wrapping_mul(14_029_467_366_897_019_727);
    first
        .wrapping_mul(11_400_714_819_323_198_485)
        .wrapping_add(length)
}

/// The place of the word of a hash among so many: its upper half, scaled.
#[inline(always)]
#[tactic(auto, unfolding(crate::specs::Blooms::word_place))]
pub fn word_place(hash: u64, words: usize) -> usize
    ensures { result ≡ word_place hash words }
{
    ((hash >> 32).wrapping_mul(words as u64) >> 32) as usize
}

/// The number of a hash that gives its second bit.
#[inline(always)]
fn other_half(hash: u64) -> u64
    ensures { result ≡ other_half hash }
{
    hash >> 6
}

/// A word with one bit, that of a number.
#[inline(always)]
fn bit_of(number: u64) -> u64
    ensures { result ≡ bit_of number }
{
    1 << ((number >> 20) % 64)
}

/// Whether both bits of a hash are set. Where there is no word, each bit is.
#[inline(always)]
fn has_bits(words: &[u64], hash: u64) -> bool
    ensures { result ≡ has_bits words.now hash }
{
    match words.get(word_place(hash, words.len())) {
        Some(word) => *word & bit_of(hash) != 0 && *word & bit_of(other_half(hash)) != 0,
        None => true,
    }
}

/// Sets both bits of a hash.
fn set_bits(words: &mut [u64], hash: u64)
    ensures noted { has_bits words.new hash ≡ true }
    ensures kept { (h : ℕ) → has_bits words.old h ≡ true → has_bits words.new h ≡ true }
{
    let place = word_place(hash, words.len());
    if place < words.len() {
        words[place] = words[place] | bit_of(hash) | bit_of(other_half(hash));
    }
}
