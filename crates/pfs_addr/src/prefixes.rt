//! Prefixes in texts.

ghost use Rattle.std.specs.Prelude.{◌≡◌, ◌<◌, ◌∷◌, ◌++◌, ◌==◌, true, IfSome, MatchOption, Some, length, position};
ghost use Rattle.std.specs.List.{list_all};
ghost use Rattle.pfs_addr.specs.Texts.{prefix_of};
ghost use Rattle.pfs_addr.specs.PrefixParts.{PartsText, is_no_slash, is_padded, length_of};
ghost use Rattle.pfs_addr_values.specs.Prefixes.{Network, PrefixText};

use crate::addresses::parse_addr;
use crate::numbers::parse_number;
use pfs_addr_values::Prefix;

/// The prefix that this text is, if it is one: an address alone, all of whose bits count, or an address, `/` and a
/// number of bits from 0 to the address's width, in decimal without leading zeros. The bits of the address past them
/// are cleared. `None` for every other text. It takes no memory. (pf.conf(5), TABLES; RFC 4632, section 3.1; that no
/// short form of an address is read is own to this profile)
pub fn parse_prefix(text: &[u8]) -> Option<Prefix>
    ensures value { result ≡ prefix_of text.now }
    ensures reads { IfSome result (λ p. PrefixText text.now p) }
    ensures only { (p : Network) → PrefixText text.now p → result ≡ Some p }
{
    slashed(text)
}

fn slashed(text: &[u8]) -> Option<Prefix>
    ensures reads { IfSome result (λ p. PrefixText text.now p) }
    ensures only { (p : Network) → PrefixText text.now p → result ≡ Some p }
{
    match around_slash(text) {
        Some((address, length)) => parse_parts(address, length),
        None => Some(Prefix::host(parse_addr(text)?)),
    }
}

fn parse_parts(address: &[u8], length: &[u8]) -> Option<Prefix>
    ensures reads { IfSome result (λ p. PartsText address.now length.now p) }
    ensures only { (p : Network) → PartsText address.now length.now p → result ≡ Some p }
{
    let addr = parse_addr(address)?;
    let bits = parse_length(length)?;
    if bits > addr.width() {
        return None;
    }
    Some(addr.prefix(bits))
}

/// What is before and after the first slash.
fn around_slash(text: &[u8]) -> Option<(&[u8], &[u8])>
    ensures { MatchOption result (list_all is_no_slash text.now ≡ true)
        (λ parts. (list_all is_no_slash parts.0.now ≡ true) × (text.now ≡ parts.0.now ++ 47 ∷ parts.1.now)) }
{
    match slash_of(text) {
        Some(place) => {
            let (front, back) = text.split_at(place);
            let (_, behind) = back.split_at(1);
            Some((front, behind))
        }
        None => None,
    }
}

fn slash_of(text: &[u8]) -> Option<usize>
    ensures value { result ≡ position (λ b. b == 47) text.now }
    ensures within { IfSome result (λ place. place < length text.now) }
{
    text.iter().position(|b| *b == b'/')
}

#[tactic(auto, unfolding(crate::specs::PrefixParts::length_of))]
fn parse_length(text: &[u8]) -> Option<u8>
    ensures { result ≡ length_of text.now }
{
    if is_padded(text) {
        return None;
    }
    match parse_number(text) {
        Some(n) if n < 256 => Some(n as u8),
        _ => None,
    }
}

fn is_padded(text: &[u8]) -> bool
    ensures { result ≡ is_padded text.now }
{
    text.len() > 1 && text[0] == b'0'
}
