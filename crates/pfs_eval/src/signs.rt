//! The signs of most IPv4 prefixes of a table, where a look-up finds them at one place of memory.

ghost use Rattle.std.specs.Prelude.{◌≡◌, ◌≤◌, ◌<◌, ◌^◌, All, IfOk, IfSome, IsTrue, List, Some, if◌then◌else◌};
ghost use Rattle.pfs_addr_values.specs.Addresses.{width_of};
ghost use Rattle.pfs_eval.specs.Entries.{Entry};
ghost use Rattle.pfs_eval.specs.Signs.{AreTrueWords, IsTrueWord, entry_sign, sign_word};

use crate::blooms::{first_bits, prefix_hash, word_place};
use pfs_addr_values::Addr;
use std::alloc::{AllocError, Global};
use std::marker::Model;

/// The signs of most IPv4 prefixes that are entries. Each is told by one of two words side by side, which its hash gives, until others that
/// come there take both: then the map has to be asked. Of IPv6 no sign is told. Clauses see the words.
#[derive(Drop)]
pub struct Signs {
    words: Vec<u64>,
}

impl Model for Signs {
    ghost use Rattle.std.specs.Prelude.{List, ℕ};

    ghost Value = { List ℕ };

    ghost view = { λ s. s.words.items };
}

impl Signs {
    /// None. It takes no memory.
    pub fn none(alloc: Global) -> Signs
        ensures { (es : List Entry) → AreTrueWords result es }
    {
        Signs {
            words: Vec::new(alloc),
        }
    }

    /// None, with two words for each of so many entries. The error says that memory was refused.
    pub fn with_capacity(alloc: Global, entries: usize) -> Result<Signs, AllocError>
        ensures { (es : List Entry) → IfOk result (λ s. AreTrueWords s es) }
    {
        let words = vec![in alloc; 0u64; entries.saturating_mul(2)]?;
        Ok(Signs { words })
    }

    /// The sign of the entry that is the prefix of this address with so many bits, if it is told.
    #[inline(always)]
    pub fn told(&self, addr: Addr, bits: u8) -> Option<bool>
        requires { bits ≤ width_of addr }
        ensures { (es : List Entry) → AreTrueWords self.now es → IfSome result (λ s. entry_sign es addr bits ≡ Some s) }
    {
        match addr {
            Addr::V4(bytes) => told_by(&self.words, first_bits(bytes, bits), bits),
            Addr::V6(_) => None,
        }
    }

    /// Tells the sign of the entry that is the prefix of this address with so many bits, perhaps in place of another's.
    pub fn tell(&mut self, addr: Addr, bits: u8, negated: bool)
        requires { bits ≤ width_of addr }
        ensures { (es : List Entry) → entry_sign es addr bits ≡ Some negated → AreTrueWords self.old es → AreTrueWords self.new es }
    {
        if let Addr::V4(bytes) = addr {
            tell_by(&mut self.words, first_bits(bytes, bits), bits, negated);
        }
    }

    /// Tells none any more.
    pub fn clear(&mut self)
        ensures { (es : List Entry) → AreTrueWords self.new es }
    {
        self.words.fill(0);
    }
}

/// The sign of the prefix of these first bits, if a word tells it.
#[inline(always)]
fn told_by(words: &[u64], first: u64, bits: u8) -> Option<bool>
    requires first { first < 2 ^ 32 }
    requires bits { bits ≤ 32 }
    ensures { (es : List Entry) → AreTrueWords words.now es → IfSome result (λ s. IsTrueWord es (sign_word first bits s)) }
{
    let place = word_place(prefix_hash(first, bits), words.len());
    if is_either(words, place, sign_word(first, bits, false)) {
        return Some(false);
    }
    if is_either(words, place, sign_word(first, bits, true)) {
        return Some(true);
    }
    None
}

/// Puts the word of the prefix of these first bits with its sign at its place, or at the other where that alone is free.
fn tell_by(words: &mut [u64], first: u64, bits: u8, negated: bool)
    requires first { first < 2 ^ 32 }
    requires bits { bits ≤ 32 }
    ensures { (es : List Entry) → IsTrueWord es (sign_word first bits negated) → AreTrueWords words.old es → AreTrueWords words.new es }
{
    let place = word_place(prefix_hash(first, bits), words.len());
    let word = sign_word(first, bits, negated);
    if word_at(words, place) != 0 && word_at(words, place ^ 1) == 0 {
        put(words, place ^ 1, word);
    } else {
        put(words, place, word);
    }
}

/// The word of a prefix and a sign.
#[inline(always)]
fn sign_word(first: u64, bits: u8, negated: bool) -> u64
    requires first { first < 2 ^ 32 }
    requires bits { bits ≤ 32 }
    ensures { result ≡ sign_word first bits negated }
{
    first * 256 + u64::from(bits) * 4 + last_bits(negated)
}

#[inline(always)]
fn last_bits(negated: bool) -> u64
    ensures value { result ≡ (if negated then 2 else 1) }
    ensures most { result ≤ 2 }
{
    if negated { 2 } else { 1 }
}

/// Whether this word is at a place or at the other one beside it.
#[inline(always)]
fn is_either(words: &[u64], place: usize, word: u64) -> bool
    ensures { (es : List Entry) → AreTrueWords words.now es → IsTrue result → IsTrueWord es word }
{
    word_at(words, place) == word || word_at(words, place ^ 1) == word
}

/// The word at a place, or 0, which tells nothing.
#[inline(always)]
fn word_at(words: &[u64], place: usize) -> u64
    ensures { (es : List Entry) → AreTrueWords words.now es → IsTrueWord es result }
{
    match words.get(place) {
        Some(word) => *word,
        None => 0,
    }
}

/// Puts a word at a place, if there is one.
fn put(words: &mut [u64], place: usize, word: u64)
    ensures { (es : List Entry) → IsTrueWord es word → AreTrueWords words.old es → AreTrueWords words.new es }
{
    if place < words.len() {
        words[place] = word;
    }
}
