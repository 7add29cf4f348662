//! What follows `set syncookies`.

ghost use Rattle.std.specs.Prelude.{◌≡◌, ◌≤◌, IfOk};
ghost use Rattle.pfs_conf_tokens.specs.TokenResults.{Gives};
ghost use Rattle.pfs_conf_settings.specs.Drafts.{has_broken_shares};
ghost use Rattle.pfs_conf_settings.specs.Syncookies.{shares_closed_at, end_share_at, share_at, share_of, share_written, shares_at, start_share_at, start_within, syncookies_at};

use pfs_conf_tokens::{Cursor, Key, Refusal, Why, digits, split_at_byte};
use pfs_conf_values::Syncookies;

/// Reads what follows the words `set syncookies`: `never`, `always`, or `adaptive`, behind which may stand
/// `(start P%, end Q%)`, with or without the comma. Without them the start is 25 percent and the end 12 percent.
///
/// A share is 0 to 100 and its `%`, as one word. What is none is refused with `Why::Number`, anything else with `Why::Plain`,
/// with the cursor at that token. The end may be any share here: see [`has_broken_shares`]. It takes no memory.
/// (pf.conf(5), OPTIONS, "set syncookies")
pub fn read_syncookies(cursor: &mut Cursor) -> Result<Syncookies, Refusal>
    ensures value { Gives result cursor.new (syncookies_at cursor.old) }
    ensures within { IfOk result start_within }
{
    syncookies(cursor)
}

#[tactic(auto, unfolding(crate::specs::Syncookies::syncookies_at))]
fn syncookies(cursor: &mut Cursor) -> Result<Syncookies, Refusal>
    ensures { Gives result cursor.new (syncookies_at cursor.old) }
{
    match cursor.key() {
        Key::Never => {
            cursor.advance();
            Ok(Syncookies::Never)
        }
        Key::Always => {
            cursor.advance();
            Ok(Syncookies::Always)
        }
        Key::Adaptive => {
            cursor.advance();
            shares(cursor)
        }
        _ => Err(Refusal::Stop(Why::Plain)),
    }
}

/// The shares of `adaptive`, in parentheses, or those of the manual.
#[tactic(auto, unfolding(crate::specs::Syncookies::shares_at))]
fn shares(cursor: &mut Cursor) -> Result<Syncookies, Refusal>
    ensures { Gives result cursor.new (shares_at cursor.old) }
{
    match cursor.key() {
        Key::OpenParen => {
            cursor.advance();
            start(cursor)
        }
        _ => Ok(Syncookies::Adaptive { start: 25, end: 12 }),
    }
}

#[tactic(auto, unfolding(crate::specs::Syncookies::start_share_at))]
fn start(cursor: &mut Cursor) -> Result<Syncookies, Refusal>
    ensures { Gives result cursor.new (start_share_at cursor.old) }
{
    match cursor.key() {
        Key::Start => {
            cursor.advance();
            let start = share(cursor)?;
            cursor.take(Key::Comma);
            end(cursor, start)
        }
        _ => Err(Refusal::Stop(Why::Plain)),
    }
}

#[tactic(auto, unfolding(crate::specs::Syncookies::end_share_at))]
fn end(cursor: &mut Cursor, start: u32) -> Result<Syncookies, Refusal>
    ensures { Gives result cursor.new (end_share_at start cursor.old) }
{
    match cursor.key() {
        Key::EndWord => {
            cursor.advance();
            let end = share(cursor)?;
            closed(cursor, Syncookies::Adaptive { start, end })
        }
        _ => Err(Refusal::Stop(Why::Plain)),
    }
}

fn closed(cursor: &mut Cursor, syncookies: Syncookies) -> Result<Syncookies, Refusal>
    ensures { Gives result cursor.new (shares_closed_at syncookies cursor.old) }
{
    match cursor.key() {
        Key::CloseParen => {
            cursor.advance();
            Ok(syncookies)
        }
        _ => Err(Refusal::Stop(Why::Plain)),
    }
}

#[tactic(auto, unfolding(crate::specs::Syncookies::share_at))]
fn share(cursor: &mut Cursor) -> Result<u32, Refusal>
    ensures { Gives result cursor.new (share_at cursor.old) }
{
    match cursor.key() {
        Key::Number => match parse_share(cursor.text()) {
            Some(share) => {
                cursor.advance();
                Ok(share)
            }
            None => Err(Refusal::Stop(Why::Number)),
        },
        _ => Err(Refusal::Stop(Why::Number)),
    }
}

/// The share that a word writes: digits, and one `%` at its end.
#[tactic(auto, unfolding(crate::specs::Syncookies::share_of))]
fn parse_share(text: &[u8]) -> Option<u32>
    ensures { result ≡ share_of text.now }
{
    let (before, behind) = split_at_byte(text, b'%')?;
    if behind.is_empty() {
        parse_percent(before)
    } else {
        None
    }
}

fn parse_percent(text: &[u8]) -> Option<u32>
    ensures { result ≡ share_written text.now }
{
    match digits(text) {
        Some(share) if share <= 100 => Some(share as u32),
        _ => None,
    }
}

/// Whether the end of `adaptive` is not below its start: a text with such a statement is refused.
pub fn has_broken_shares(syncookies: Syncookies) -> bool
    ensures { result ≡ has_broken_shares syncookies }
{
    match syncookies {
        Syncookies::Never | Syncookies::Always => false,
        Syncookies::Adaptive { start, end } => end >= start,
    }
}
