//! Names of interfaces, tables and anchors, held in place.

ghost use Rattle.std.specs.Prelude.{◌≡◌, drop, take, true};
ghost use Rattle.std.specs.Int.{to_le_bytes, w64};
ghost use Rattle.std.specs.Str.{bytes_eq};
ghost use Rattle.std.specs.List.{list_all};
ghost use Rattle.std.specs.Hash as fed;
ghost use Rattle.std.proofs.Common.{rules};
ghost use Rattle.std.specs.Cmp.Rules.{comparing, hashing};
ghost use Rattle.pfs_addr_values.specs.Names.{is_name, is_name_byte, name_of};

use std::fmt;
use std::hash::{Hash, Hasher};
use std::marker::Model;

/// A name of 1 to `N` bytes, each a letter, a digit, `_`, `-` or `.`. It takes no memory.
///
/// Clauses see the list of its bytes. (pf.conf(5), GRAMMAR; which lengths are allowed is said where a name is used)
#[derive(Clone, Copy)]
pub struct Name<const N: usize> {
    bytes: [u8; N],
    len: usize,
}

/// The name of a network interface: 1 to 15 bytes. (pf.conf(5), PARAMETERS, "on")
pub type IfName = Name<15>;

impl<const N: usize> Model for Name<N> {
    ghost use Rattle.std.specs.Prelude.{List, ℕ, take, replicate, length, ◌++◌, ◌-◌};

    ghost Value = { List ℕ };

    ghost use Rattle.pfs_addr_values.specs.Names.{IsPadded};
    ghost use Rattle.pfs_addr_values.specs.Padding.{padded-back};

    ghost view = { λ n. take n.len n.bytes };

    ghost invariant = { λ n. IsPadded N n.bytes n.len };

    ghost inverse = { λ xs. record { bytes = xs ++ replicate (N - length xs) 0; len = length xs } };

    ghost inverse_ok = { λ a h. padded-back N a h };
}

impl<const N: usize> Name<N> {
    /// The name that this text is, if it is one: 1 to `N` bytes, each a letter, a digit, `_`, `-` or `.`. `None` for
    /// every other text. It takes no memory.
    pub fn parse(text: &[u8]) -> Option<Name<N>>
        ensures { result ≡ name_of N text.now }
    {
        if may_be_name(text, N) {
            Some(Name::padded(text))
        } else {
            None
        }
    }

    fn padded(text: &[u8]) -> Name<N>
        requires { is_name N text.now ≡ true }
        ensures { result ≡ text.now }
    {
        let mut bytes = [0; N];
        bytes[..text.len()].copy_from_slice(text);
        Name {
            bytes,
            len: text.len(),
        }
    }

    /// The bytes of the name.
    pub fn as_bytes(&self) -> &[u8]
        ensures { result.now ≡ self.now }
    {
        &self.bytes[..self.len]
    }
}

impl IfName {
    /// Whether both are the same name, as `==` says. A walk over rules asks it at most of them, and two words take fewer steps than
    /// fifteen bytes.
    pub(crate) fn is(&self, other: &IfName) -> bool
        ensures { result ≡ bytes_eq self.now other.now }
    {
        self.len == other.len && same_bytes(&self.bytes, &other.bytes)
    }
}

/// Whether both are the same bytes: the two words that they make are compared, which share a byte.
#[inline(always)]
fn same_bytes(one: &[u8; 15], two: &[u8; 15]) -> bool
    ensures { result ≡ bytes_eq one.now two.now }
{
    first_word(one) == first_word(two) && last_word(one) == last_word(two)
}

/// The first eight of fifteen bytes.
fn first_word(b: &[u8; 15]) -> u64
    ensures { to_le_bytes w64 result ≡ take 8 b.now }
{
    u64::from_le_bytes([b[0], b[1], b[2], b[3], b[4], b[5], b[6], b[7]])
}

/// The last eight of fifteen bytes.
fn last_word(b: &[u8; 15]) -> u64
    ensures { to_le_bytes w64 result ≡ drop 7 b.now }
{
    u64::from_le_bytes([b[7], b[8], b[9], b[10], b[11], b[12], b[13], b[14]])
}

/// The interface name that this text is, if it is one: 1 to 15 bytes of letters, digits, `_`, `-` and `.`. `None` for
/// every other text. It takes no memory. (pf.conf(5), PARAMETERS, "on"; the length is that of if_nametoindex(3))
pub fn parse_ifname(text: &[u8]) -> Option<IfName>
    ensures { result ≡ name_of 15 text.now }
{
    Name::parse(text)
}

impl<const N: usize> PartialEq for Name<N> {
    ghost eq = { λ a b. bytes_eq a b };

    ghost laws = { Prim.search (comparing, rules) };

    /// What is kept is compared, zeros included: so many bytes take fewer steps than a number of them that is known only then.
    fn eq(&self, other: &Name<N>) -> bool {
        self.len == other.len && self.bytes == other.bytes
    }
}

impl<const N: usize> Eq for Name<N> {
    ghost laws = { Prim.search (comparing, rules) };
}

impl<const N: usize> Hash for Name<N> {
    ghost hash_input = { λ a. fed.slice fed.u8 a };

    ghost respects_eq = { Prim.search (hashing, rules) };

    fn hash<H: Hasher>(&self, state: &mut H) {
        self.as_bytes().hash(state);
    }
}

impl<const N: usize> fmt::Debug for Name<N> {
    fn fmt<W: fmt::Write>(&self, f: &mut fmt::Formatter<W>) -> fmt::Result {
        for b in self.as_bytes() {
            write!(f, "{}", char::from(*b))?;
        }
        Ok(())
    }
}

fn may_be_name(text: &[u8], most: usize) -> bool
    ensures { result ≡ is_name most text.now }
{
    if text.is_empty() || text.len() > most {
        return false;
    }
    are_allowed(text)
}

fn are_allowed(text: &[u8]) -> bool
    ensures { result ≡ list_all is_name_byte text.now }
{
    text.iter().all(|b| is_allowed(*b))
}

fn is_allowed(b: u8) -> bool
    ensures { result ≡ is_name_byte b }
{
    matches!(b, b'a'..=b'z' | b'A'..=b'Z' | b'0'..=b'9' | b'_' | b'-' | b'.')
}
