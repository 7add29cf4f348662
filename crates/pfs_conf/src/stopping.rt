//! The fault at the token at which reading stops, and its kind.

ghost use Rattle.std.specs.Prelude.{◌≡◌};
ghost use Rattle.pfs_conf_tokens.specs.Tokens.{head};
ghost use Rattle.pfs_conf_tokens.specs.Reading.{rest};
ghost use Rattle.pfs_conf.specs.Kinds.{has_byte, has_dollar, is_foreign, is_number_key, opens};
ghost use Rattle.pfs_conf.specs.Stopping.{begins_with_letter, fault_told, is_equals, is_left_out, is_named_value, kind_of, wants_number};

use crate::faults::LoadFault;
use crate::kinds::Kind;
use pfs_conf_tokens::{Cursor, Key, ReadError, Refusal, Why};

/// The fault of a refusal, where reading stopped at the cursor.
pub fn fault_of(error: ReadError, cursor: &mut Cursor) -> LoadFault
    ensures { result ≡ fault_told error cursor.old }
{
    match error {
        ReadError::Memory => LoadFault {
            line: 0,
            kind: Kind::Memory,
        },
        ReadError::Refused(Refusal::Broken(rule, line)) => LoadFault {
            line,
            kind: Kind::of_rule(rule),
        },
        ReadError::Refused(Refusal::Stop(why)) => LoadFault {
            line: cursor.line(),
            kind: kind_of(why, cursor),
        },
    }
}

/// The kind of a fault at the token in front, where this was wanted: the first of `Duplicate`, `Number`, `Unsupported` and
/// `Syntax` that applies. (own to this profile)
fn kind_of(why: Why, cursor: &mut Cursor) -> Kind
    ensures { result ≡ kind_of why cursor.old }
{
    if why == Why::Again {
        Kind::Duplicate
    } else if wants_number(why) && is_number(cursor.key()) {
        Kind::Number
    } else if is_foreign(cursor) || is_left_out(why, cursor) {
        Kind::Unsupported
    } else {
        Kind::Syntax
    }
}

fn wants_number(why: Why) -> bool
    ensures { result ≡ wants_number why }
{
    match why {
        Why::Number | Why::Service => true,
        _ => false,
    }
}

fn is_number(key: Key) -> bool
    ensures { result ≡ is_number_key key }
{
    match key {
        Key::Number => true,
        _ => false,
    }
}

/// A token that is reported as `Unsupported` everywhere.
fn is_foreign(cursor: &Cursor) -> bool
    ensures { result ≡ is_foreign (head cursor.now) }
{
    opens(cursor.key()) || has_dollar(cursor) || cursor.key().is_unsupported()
}

fn opens(key: Key) -> bool
    ensures { result ≡ opens key }
{
    match key {
        Key::OpenBrace | Key::OpenParen => true,
        _ => false,
    }
}

fn has_dollar(cursor: &Cursor) -> bool
    ensures { result ≡ has_dollar (head cursor.now) }
{
    cursor.key().is_word() && has_byte(cursor.text(), b'$')
}

/// A token that is reported as `Unsupported` because of what was wanted there.
fn is_left_out(why: Why, cursor: &mut Cursor) -> bool
    ensures { result ≡ is_left_out why (head cursor.old) (head (rest cursor.old)).key }
{
    match why {
        Why::Setting => cursor.key().is_word(),
        Why::Inner => true,
        Why::Service | Why::Host => is_named_value(cursor),
        Why::Statement => {
            cursor.advance();
            is_equals(cursor.key())
        }
        Why::AnchorHead => cursor.is_at_line_end(),
        Why::AnchorName => has_byte(cursor.text(), b'/') || has_byte(cursor.text(), b'*'),
        Why::Plain | Why::Again | Why::Number => false,
    }
}

fn is_equals(key: Key) -> bool
    ensures { result ≡ is_equals key }
{
    match key {
        Key::Equals => true,
        _ => false,
    }
}

/// A word that begins with a letter or has a colon: the name of a host or of a service, or an IPv6 address with a
/// zone or a dotted tail.
fn is_named_value(cursor: &Cursor) -> bool
    ensures { result ≡ is_named_value (head cursor.now) }
{
    cursor.key().is_word() && (begins_with_letter(cursor.text()) || has_byte(cursor.text(), b':'))
}

fn begins_with_letter(text: &[u8]) -> bool
    ensures { result ≡ begins_with_letter text.now }
{
    match text.first() {
        Some(byte) => byte.is_ascii_alphabetic(),
        None => false,
    }
}

fn has_byte(text: &[u8], byte: u8) -> bool
    ensures { result ≡ has_byte byte text.now }
{
    text.iter().any(|other| *other == byte)
}
