//! Addresses in texts.

ghost use Rattle.std.specs.Prelude.{◌≡◌, ◌≤◌, ◌<◌, ◌+◌, ◌++◌, [], ◌∷◌, Some, IfSome, MatchOption, OnOk, true, false, OnErr, decimal, flat_map, length, nat_lt, vec_len, ◌*◌};
ghost use Rattle.std.specs.Vec.{vec_capacity};
ghost use Rattle.std.specs.Char.{digit_char};
ghost use Rattle.std.specs.Net.Text.{groups_text, hex, hex_groups_text, longest_zero_run};
ghost use Rattle.std.specs.Net.Reader.{read_byte, read_ipv4, read_octet, read_view};
ghost use Rattle.std.specs.Option.{option_copied};
ghost use Rattle.pfs_addr.specs.Octets.{stops};
ghost use Rattle.pfs_addr.specs.Groups.{around};
ghost use Rattle.pfs_addr.specs.Texts.{addr_of, groups_of, quad_of};
ghost use Rattle.pfs_addr_values.specs.Addresses.{IsAddr, IsAddrText, addr_text, bytes_of, dotted_decimal, is_ipv6};

use pfs_addr_values::{Addr, NoMemory};
use std::net::Ipv6Addr;

/// The address that this text is, if it is one. `None` for every other text. It takes no memory.
///
/// IPv4: four decimal numbers of 0 to 255, joined by dots, without leading zeros. (RFC 791, section 3.2; RFC 6943,
/// section 3.1.1, the strict form) IPv6: eight groups of one to four hexadecimal digits of either case, joined by `:`,
/// where `::` may occur once, for one or more groups of zeros. (RFC 4291, section 2.2, forms 1 and 2; that no tail with
/// dots and no zone is read is own to this profile)
pub fn parse_addr(text: &[u8]) -> Option<Addr>
    ensures value { result ≡ addr_of text.now }
    ensures reads { IfSome result (λ a. IsAddr a × IsAddrText text.now a) }
    ensures only { (a : Addr) → IsAddr a → IsAddrText text.now a → result ≡ Some a }
{
    if let Some(addr) = quad(text) {
        return Some(addr);
    }
    groups(text)
}

/// An IPv6 address, where the text is one.
#[inline(never)]
fn groups(text: &[u8]) -> Option<Addr>
    ensures { result ≡ groups_of text.now }
{
    if text.contains(&b'.') {
        return None;
    }
    match Ipv6Addr::parse_ascii(text) {
        Ok(addr) => Some(Addr::V6(addr.octets())),
        Err(_) => None,
    }
}

/// An IPv4 address, where the text is one.
#[inline(always)]
fn quad(text: &[u8]) -> Option<Addr>
    ensures { result ≡ quad_of text.now }
{
    let Some((addr, rest)) = four(text) else {
        return None;
    };
    if rest.is_empty() { Some(addr) } else { None }
}

/// Four bytes in decimal with dots between them, and what follows them.
#[inline(always)]
#[tactic(auto, unfolding(std::specs::Net::Reader::read_ipv4))]
fn four(text: &[u8]) -> Option<(Addr, &[u8])>
    ensures value { read_view bytes_of result ≡ read_ipv4 text.now }
    ensures family { IfSome result (λ p. is_ipv6 p.0 ≡ false) }
{
    let (a, text) = octet(text)?;
    let (b, text) = octet(behind_dot(text)?)?;
    let (c, text) = octet(behind_dot(text)?)?;
    let (d, text) = octet(behind_dot(text)?)?;
    Some((Addr::V4([a, b, c, d]), text))
}

#[inline(always)]
fn behind_dot(text: &[u8]) -> Option<&[u8]>
    ensures { option_copied result ≡ read_byte 46 text.now }
{
    match text {
        [b'.', rest @ ..] => Some(rest),
        _ => None,
    }
}

/// A number of 0 to 255 without a leading zero, and what follows it, which begins with no digit.
#[inline(always)]
fn octet(text: &[u8]) -> Option<(u8, &[u8])>
    ensures { read_view (λ n. n) result ≡ read_octet text.now }
{
    let Some((a, rest)) = digit(text) else {
        return None;
    };
    let Some((b, rest_of_two)) = digit(rest) else {
        return Some((a, rest));
    };
    if a == 0 {
        return None;
    }
    let Some((c, rest)) = digit(rest_of_two) else {
        return Some((a * 10 + b, rest_of_two));
    };
    let number = u16::from(a) * 100 + u16::from(b) * 10 + u16::from(c);
    match digit(rest) {
        None if number <= 255 => Some((number as u8, rest)),
        _ => None,
    }
}

/// The digit at the front of a text, and what follows it.
#[inline(always)]
fn digit(text: &[u8]) -> Option<(u8, &[u8])>
    ensures { MatchOption result (stops text.now ≡ true) (λ p. (p.0 < 10) × (text.now ≡ (48 + p.0) ∷ p.1.now)) }
{
    match text {
        [first, rest @ ..] if matches!(*first, b'0'..=b'9') => Some((*first - b'0', rest)),
        _ => None,
    }
}

/// Appends the text of an address, which `parse_addr` reads as that address. IPv4: the one text that `parse_addr`
/// reads, at most 15 bytes. IPv6: the text that RFC 5952 gives, at most 39 bytes: small hexadecimal digits without
/// leading zeros in a group, and `::` for the longest run of two or more groups of zeros, of equal runs the first;
/// never with dots. (RFC 5952, section 4)
///
/// `NoMemory` where the vector had no room for the text and more memory was refused; the vector then holds what it held.
pub fn push_addr(out: &mut Vec<u8>, addr: Addr) -> Result<(), NoMemory>
    ensures ok { OnOk result (out.new.items ≡ out.old.items ++ addr_text addr) }
    ensures err { OnErr result (out.new.items ≡ out.old.items) }
    ensures refused { OnErr result (vec_capacity out.old < vec_len out.old + length (addr_text addr)) }
    ensures capacity { vec_capacity out.old ≤ vec_capacity out.new }
    ensures again { addr_of (addr_text addr) ≡ Some addr }
{
    match addr {
        Addr::V4(bytes) => push_quad(out, bytes),
        Addr::V6(bytes) => push_short(out, Ipv6Addr::from_octets(bytes).segments()),
    }
}

fn push_quad(out: &mut Vec<u8>, bytes: [u8; 4]) -> Result<(), NoMemory>
    ensures ok { OnOk result (out.new.items ≡ out.old.items ++ dotted_decimal bytes) }
    ensures err { OnErr result (out.new.items ≡ out.old.items) }
    ensures refused { OnErr result (vec_capacity out.old < vec_len out.old + length (dotted_decimal bytes)) }
    ensures capacity { vec_capacity out.old ≤ vec_capacity out.new }
{
    let [a, b, c, d] = bytes;
    out.reserve(octet_len(a) + octet_len(b) + octet_len(c) + octet_len(d) + 3)?;
    push_octet(out, a);
    out.push_reserved(b'.');
    push_octet(out, b);
    out.push_reserved(b'.');
    push_octet(out, c);
    out.push_reserved(b'.');
    push_octet(out, d);
    Ok(())
}

#[tactic(auto, using(crate::proofs::OctetLaws::octets))]
fn octet_len(octet: u8) -> usize
    ensures value { result ≡ length (decimal octet) }
    ensures small { result ≤ 3 }
{
    match octet {
        0..=9 => 1,
        10..=99 => 2,
        _ => 3,
    }
}

#[tactic(auto, using(crate::proofs::OctetLaws::octets))]
fn push_octet(out: &mut Vec<u8>, octet: u8)
    requires { vec_len out.old + length (decimal octet) ≤ vec_capacity out.old }
    ensures items { out.new.items ≡ out.old.items ++ decimal octet }
    ensures len { vec_len out.new ≡ vec_len out.old + length (decimal octet) }
    ensures capacity { vec_capacity out.new ≡ vec_capacity out.old }
{
    match octet {
        0..=9 => out.push_reserved(b'0' + octet),
        10..=99 => {
            out.push_reserved(b'0' + octet / 10);
            out.push_reserved(b'0' + octet % 10);
        }
        _ => {
            out.push_reserved(b'0' + octet / 100);
            out.push_reserved(b'0' + octet / 10 % 10);
            out.push_reserved(b'0' + octet % 10);
        }
    }
}

/// Groups with `:` between them, and `::` in place of the run of zeros that is left out.
fn push_short(out: &mut Vec<u8>, groups: [u16; 8]) -> Result<(), NoMemory>
    ensures ok { OnOk result (out.new.items ≡ out.old.items ++ hex_groups_text groups) }
    ensures err { OnErr result (out.new.items ≡ out.old.items) }
    ensures refused { OnErr result (vec_capacity out.old < vec_len out.old + length (hex_groups_text groups)) }
    ensures capacity { vec_capacity out.old ≤ vec_capacity out.new }
{
    let (start, len) = longest_zeros(&groups);
    if is_left_out(len) {
        push_around(out, &groups[..start], &groups[start + len..])
    } else {
        push_all(out, &groups)
    }
}

/// Whether a run of so many groups of zeros is left out; one group never is. (RFC 5952, section 4.2.2)
fn is_left_out(len: usize) -> bool
    ensures { result ≡ nat_lt 1 len }
{
    len > 1
}

fn push_all(out: &mut Vec<u8>, groups: &[u16]) -> Result<(), NoMemory>
    requires { length groups.now ≤ 8 }
    ensures ok { OnOk result (out.new.items ≡ out.old.items ++ groups_text groups.now) }
    ensures err { OnErr result (out.new.items ≡ out.old.items) }
    ensures refused { OnErr result (vec_capacity out.old < vec_len out.old + length (groups_text groups.now)) }
    ensures capacity { vec_capacity out.old ≤ vec_capacity out.new }
{
    out.reserve(groups_len(groups))?;
    push_groups(out, groups);
    Ok(())
}

/// Writes the groups before `::`, the `::`, and the groups after it.
fn push_around(out: &mut Vec<u8>, head: &[u16], tail: &[u16]) -> Result<(), NoMemory>
    requires head { length head.now ≤ 8 }
    requires tail { length tail.now ≤ 8 }
    ensures ok { OnOk result (out.new.items ≡ out.old.items ++ around head.now tail.now) }
    ensures err { OnErr result (out.new.items ≡ out.old.items) }
    ensures refused { OnErr result (vec_capacity out.old < vec_len out.old + length (around head.now tail.now)) }
    ensures capacity { vec_capacity out.old ≤ vec_capacity out.new }
{
    out.reserve(groups_len(head) + 2 + groups_len(tail))?;
    push_groups(out, head);
    out.push_reserved(b':');
    out.push_reserved(b':');
    push_groups(out, tail);
    Ok(())
}

/// Where the longest run of zeros begins (the first of that length), and how long it is.
fn longest_zeros(groups: &[u16]) -> (usize, usize)
    ensures value { result ≡ longest_zero_run groups.now }
    ensures within { result.0 + result.1 ≤ length groups.now }
{
    let mut start = groups.len();
    let mut len = 0;
    let mut run = 0;
    for i in (0..groups.len()).rev() {
        run = if groups[i] == 0 { run + 1 } else { 0 };
        if run >= len {
            start = i;
            len = run;
        }
    }
    (start, len)
}

fn groups_len(groups: &[u16]) -> usize
    requires { length groups.now ≤ 8 }
    ensures value { result ≡ length (groups_text groups.now) }
    ensures small { result ≤ 39 }
{
    match groups {
        [] => 0,
        [first, rest @ ..] => group_len(*first) + more_len(rest),
    }
}

fn push_groups(out: &mut Vec<u8>, groups: &[u16])
    requires { vec_len out.old + length (groups_text groups.now) ≤ vec_capacity out.old }
    ensures items { out.new.items ≡ out.old.items ++ groups_text groups.now }
    ensures len { vec_len out.new ≡ vec_len out.old + length (groups_text groups.now) }
    ensures capacity { vec_capacity out.new ≡ vec_capacity out.old }
{
    if let [first, rest @ ..] = groups {
        push_group(out, *first);
        push_more(out, rest);
    }
}

/// The bytes of groups with a colon in front of each.
fn more_len(groups: &[u16]) -> usize
    requires { length groups.now ≤ 8 }
    ensures value { result ≡ length (flat_map (λ g. 58 ∷ hex g) groups.now) }
    ensures small { result ≤ 5 * length groups.now }
{
    let mut len = 0;
    for group in groups {
        len += 1 + group_len(*group);
    }
    len
}

fn push_more(out: &mut Vec<u8>, groups: &[u16])
    requires { vec_len out.old + length (flat_map (λ g. 58 ∷ hex g) groups.now) ≤ vec_capacity out.old }
    ensures items { out.new.items ≡ out.old.items ++ flat_map (λ g. 58 ∷ hex g) groups.now }
    ensures len { vec_len out.new ≡ vec_len out.old + length (flat_map (λ g. 58 ∷ hex g) groups.now) }
    ensures capacity { vec_capacity out.new ≡ vec_capacity out.old }
{
    for group in groups {
        out.push_reserved(b':');
        push_group(out, *group);
    }
}

fn group_len(group: u16) -> usize
    ensures value { result ≡ length (hex group) }
    ensures small { result ≤ 4 }
{
    match group {
        0x1000.. => 4,
        0x100.. => 3,
        0x10.. => 2,
        _ => 1,
    }
}

fn push_group(out: &mut Vec<u8>, group: u16)
    requires { vec_len out.old + length (hex group) ≤ vec_capacity out.old }
    ensures items { out.new.items ≡ out.old.items ++ hex group }
    ensures len { vec_len out.new ≡ vec_len out.old + length (hex group) }
    ensures capacity { vec_capacity out.new ≡ vec_capacity out.old }
{
    match group {
        0x1000.. => {
            out.push_reserved(hex_digit(group / 0x1000));
            out.push_reserved(hex_digit(group / 0x100 % 16));
            out.push_reserved(hex_digit(group / 0x10 % 16));
            out.push_reserved(hex_digit(group % 16));
        }
        0x100.. => {
            out.push_reserved(hex_digit(group / 0x100 % 16));
            out.push_reserved(hex_digit(group / 0x10 % 16));
            out.push_reserved(hex_digit(group % 16));
        }
        0x10.. => {
            out.push_reserved(hex_digit(group / 0x10 % 16));
            out.push_reserved(hex_digit(group % 16));
        }
        _ => out.push_reserved(hex_digit(group % 16)),
    }
}

fn hex_digit(digit: u16) -> u8
    requires { digit < 16 }
    ensures { result ≡ digit_char digit }
{
    if digit < 10 {
        b'0' + digit as u8
    } else {
        b'a' + (digit - 10) as u8
    }
}
