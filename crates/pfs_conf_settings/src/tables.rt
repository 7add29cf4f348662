//! The parts of a table's definition.

ghost use Rattle.std.specs.Prelude.{◌≡◌, [], Some};
ghost use Rattle.pfs_conf_tokens.specs.Keys.{ends_line};
ghost use Rattle.pfs_conf_tokens.specs.Reading.{chain, closes_braces, done, list_all, next_of, until_all, up_to_all};
ghost use Rattle.pfs_conf_tokens.specs.TokenResults.{GivesOrMemory};
ghost use Rattle.pfs_conf_settings.specs.Tables.{entry_at, lined_entry_at, braced_entries_at, is_same_sign, part_at, parts_at};
ghost use Rattle.pfs_conf_settings.specs.AdditionResults.{Extends};

use crate::entries::EntryDraft;
use pfs_addr::parse_prefix;
use pfs_conf_tokens::{Cursor, Key, ReadError, Refusal, Why, skip_lines};
use pfs_conf_values::{Entries, RulesHasher};
use std::alloc::Global;

/// The parts of a table's definition that follow its name. (pf.conf(5), TABLES)
#[derive(Debug, Drop)]
pub struct Parts {
    /// `persist`, which is read without effect.
    pub persist: bool,
    /// `const`.
    pub is_const: bool,
    /// `counters`, which is read without effect.
    pub counters: bool,
    /// The entries in braces, if there are braces.
    pub entries: Option<Entries>,
}

/// Reads the parts of a table's definition, after its name and up to the line end, which stays.
///
/// It refuses, with the cursor at that token, a part that is there already, what is no part, an entry that is no
/// prefix, and an entry that is there already with the other sign. An entry that is there already with the same sign is
/// held once. Line ends in the braces are ignored. It takes memory for the entries. Its hasher was fed with nothing;
/// for a stranger's text use `read_parts_with`. (pf.conf(5), TABLES)
pub fn read_parts(alloc: Global, cursor: &mut Cursor) -> Result<Parts, ReadError>
    ensures { GivesOrMemory result cursor.new (parts_at cursor.old) }
{
    read_parts_with(alloc, RulesHasher::of_text(&[]), cursor)
}

/// Reads the same parts. While it reads entries, it finds them by this hasher.
#[tactic(auto, unfolding(crate::specs::Tables::parts_at))]
pub fn read_parts_with(
    alloc: Global,
    hasher: RulesHasher,
    cursor: &mut Cursor,
) -> Result<Parts, ReadError>
    ensures { GivesOrMemory result cursor.new (parts_at cursor.old) }
{
    let mut parts = Parts {
        persist: false,
        is_const: false,
        counters: false,
        entries: None,
    };
    match more_parts(alloc, hasher, cursor, &mut parts) {
        Ok(()) => Ok(parts),
        Err(error) => Err(error),
    }
}

fn more_parts(
    alloc: Global,
    hasher: RulesHasher,
    cursor: &mut Cursor,
    parts: &mut Parts,
) -> Result<(), ReadError>
    ensures { Extends result cursor.new parts.new (up_to_all ends_line part_at parts.old cursor.old) }
{
    'parts: while !cursor.is_at_line_end() {
        if let Err(error) = part(alloc, hasher, cursor, parts) {
            return Err(error);
        }
    }
    Ok(())
}

#[tactic(auto, unfolding(crate::specs::Tables::part_at))]
fn part(
    alloc: Global,
    hasher: RulesHasher,
    cursor: &mut Cursor,
    parts: &mut Parts,
) -> Result<(), ReadError>
    ensures { Extends result cursor.new parts.new (part_at parts.old cursor.old) }
{
    match cursor.key() {
        Key::Persist if !parts.persist => {
            cursor.advance();
            parts.persist = true;
            Ok(())
        }
        Key::Const if !parts.is_const => {
            cursor.advance();
            parts.is_const = true;
            Ok(())
        }
        Key::Counters if !parts.counters => {
            cursor.advance();
            parts.counters = true;
            Ok(())
        }
        Key::OpenBrace if parts.entries.is_none() => {
            cursor.advance();
            list(alloc, hasher, cursor, parts)
        }
        Key::Persist | Key::Const | Key::Counters | Key::OpenBrace => Err(ReadError::Refused(
            Refusal::Stop(Why::Again),
        )),
        _ => Err(ReadError::Refused(Refusal::Stop(Why::Plain))),
    }
}

fn list(
    alloc: Global,
    hasher: RulesHasher,
    cursor: &mut Cursor,
    parts: &mut Parts,
) -> Result<(), ReadError>
    ensures { Extends result cursor.new parts.new (chain braced_entries_at (λ e. done (record parts.old { entries = Some e })) cursor.old) }
{
    match entries(alloc, hasher, cursor) {
        Ok(entries) => {
            parts.entries = Some(entries);
            Ok(())
        }
        Err(error) => Err(error),
    }
}

fn entries(alloc: Global, hasher: RulesHasher, cursor: &mut Cursor) -> Result<Entries, ReadError>
    ensures { GivesOrMemory result cursor.new (braced_entries_at cursor.old) }
{
    let entries = braced_entries(alloc, hasher, cursor)?;
    match entries.finish(alloc) {
        Ok(entries) => Ok(entries),
        Err(_) => Err(ReadError::Memory),
    }
}

/// The entries in braces, after the opening one.
#[tactic(auto, unfolding(crate::specs::Tables::braced_entries_at))]
fn braced_entries(
    alloc: Global,
    hasher: RulesHasher,
    cursor: &mut Cursor,
) -> Result<EntryDraft, ReadError>
    ensures { GivesOrMemory result cursor.new (braced_entries_at cursor.old) }
{
    skip_lines(cursor);
    let mut entries = EntryDraft::new(alloc, hasher);
    match cursor.key() {
        Key::CloseBrace => cursor.advance(),
        _ => some_entries(cursor, &mut entries)?,
    }
    Ok(entries)
}

fn some_entries(cursor: &mut Cursor, entries: &mut EntryDraft) -> Result<(), ReadError>
    ensures { Extends result cursor.new entries.new (list_all closes_braces lined_entry_at entries.old cursor.old) }
{
    lined_entry(cursor, entries)?;
    more_entries(cursor, entries)
}

fn more_entries(cursor: &mut Cursor, entries: &mut EntryDraft) -> Result<(), ReadError>
    ensures { Extends result cursor.new entries.new (until_all closes_braces (next_of lined_entry_at) entries.old cursor.old) }
{
    while !cursor.is_at_close_brace() {
        if let Err(error) = next_entry(cursor, entries) {
            return Err(error);
        }
    }
    cursor.advance();
    Ok(())
}

fn next_entry(cursor: &mut Cursor, entries: &mut EntryDraft) -> Result<(), ReadError>
    ensures { Extends result cursor.new entries.new (next_of lined_entry_at entries.old cursor.old) }
{
    cursor.take(Key::Comma);
    lined_entry(cursor, entries)
}

/// An entry among line ends.
#[tactic(auto, unfolding(crate::specs::Tables::lined_entry_at, crate::specs::Tables::sign_at))]
fn lined_entry(cursor: &mut Cursor, entries: &mut EntryDraft) -> Result<(), ReadError>
    ensures { Extends result cursor.new entries.new (lined_entry_at entries.old cursor.old) }
{
    skip_lines(cursor);
    let negated = cursor.take(Key::Not);
    skip_lines(cursor);
    entry(cursor, entries, negated)?;
    skip_lines(cursor);
    Ok(())
}

#[tactic(auto, unfolding(crate::specs::Tables::entry_at))]
fn entry(cursor: &mut Cursor, entries: &mut EntryDraft, negated: bool) -> Result<(), ReadError>
    ensures { Extends result cursor.new entries.new (entry_at entries.old negated cursor.old) }
{
    if !cursor.key().is_word() {
        return Err(ReadError::Refused(Refusal::Stop(Why::Host)));
    }
    let Some(prefix) = parse_prefix(cursor.text()) else {
        return Err(ReadError::Refused(Refusal::Stop(Why::Host)));
    };
    match entries.get(prefix) {
        None => {
            if entries.add(prefix, negated).is_err() {
                return Err(ReadError::Memory);
            }
        }
        Some(held) if is_same_sign(held, negated) => {}
        Some(_) => return Err(ReadError::Refused(Refusal::Stop(Why::Again))),
    }
    cursor.advance();
    Ok(())
}

fn is_same_sign(held: bool, negated: bool) -> bool
    ensures { result ≡ is_same_sign held negated }
{
    held == negated
}
