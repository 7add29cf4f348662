//! Numbers, and what separates the parts of a statement.

ghost use Rattle.std.specs.Prelude.{◌≡◌, ◌<◌, ◌==◌, length, position, IfSome, MatchOption, Some, None};
ghost use Rattle.pfs_conf_tokens.specs.Numbers.{number_written, split_around};
ghost use Rattle.pfs_conf_tokens.specs.Reading.{number_at};
ghost use Rattle.pfs_conf_tokens.specs.Grammar.{skip_lines};
ghost use Rattle.pfs_conf_tokens.specs.TokenResults.{Gives};

use crate::cursors::Cursor;
use crate::keys::Key;
use crate::refusals::{Refusal, Why};

/// The number that a text of 1 to 10 decimal digits writes; leading zeros are read. None for any other text.
#[tactic(auto, unfolding(crate::specs::Numbers::number_written, crate::specs::Numbers::digits_from))]
pub fn digits(text: &[u8]) -> Option<u64>
    ensures { result ≡ number_written text.now }
{
    if text.is_empty() || text.len() > 10 {
        return None;
    }
    let mut number: u64 = 0;
    for digit in text {
        if *digit < b'0' || *digit > b'9' {
            return None;
        }
        number = number * 10 + u64::from(*digit - b'0');
    }
    Some(number)
}

/// Reads a number from `low` to `high`. At any other token the cursor stays, and the refusal says that a number was wanted.
#[tactic(auto, unfolding(crate::specs::Reading::number_at))]
pub fn number(cursor: &mut Cursor, low: u64, high: u64) -> Result<u64, Refusal>
    ensures { Gives result cursor.new (number_at low high cursor.old) }
{
    if cursor.key() != Key::Number {
        return Err(Refusal::Stop(Why::Number));
    }
    match digits(cursor.text()) {
        Some(number) if low <= number && number <= high => {
            cursor.advance();
            Ok(number)
        }
        _ => Err(Refusal::Stop(Why::Number)),
    }
}

fn place_of(text: &[u8], byte: u8) -> Option<usize>
    ensures value { result ≡ position (λ b. b == byte) text.now }
    ensures within { IfSome result (λ place. place < length text.now) }
{
    text.iter().position(|b| *b == byte)
}

/// The parts of a text before and after the first byte of this value, which is in neither; None where it is absent.
#[tactic(auto, unfolding(crate::specs::Numbers::split_around))]
pub fn split_at_byte(text: &[u8], byte: u8) -> Option<(&[u8], &[u8])>
    ensures { MatchOption result (split_around byte text.now ≡ None)
        (λ parts. split_around byte text.now ≡ Some (parts.0.now, parts.1.now)) }
{
    match place_of(text, byte) {
        Some(place) => {
            let (front, back) = text.split_at(place);
            let (_, behind) = back.split_at(1);
            Some((front, behind))
        }
        None => None,
    }
}

/// Goes over the line ends in front, if any: inside the braces of `set` and `table` they separate nothing.
pub fn skip_lines(cursor: &mut Cursor)
    ensures { cursor.new ≡ skip_lines cursor.old }
{
    while cursor.is_at_line_end() {
        cursor.advance();
    }
}
