//! Definitions of tables, and the statements that set options, to the end of the line.

ghost use Rattle.std.specs.Prelude.{◌≡◌, IfOk, OnOk, true};
ghost use Rattle.pfs_conf_tokens.specs.TokenResults.{Gives};
ghost use Rattle.pfs_addr_values.specs.Names.{is_name};
ghost use Rattle.pfs_conf.specs.Statements.{with_definition};
ghost use Rattle.pfs_conf.specs.Reading.{cookies_line_at, set_at, setting_line_at, definition_at, new_name_at};
ghost use Rattle.pfs_conf.specs.ReaderResults.{Comes, IsAtDepth};

use crate::breaking::cookies_break;
use crate::progress::Progress;
use pfs_addr_values::{Name, NoMemory};
use pfs_conf_settings::{Draft, Parts, read_parts_with, read_settings, read_syncookies};
use pfs_conf_tokens::{Cursor, Key, ReadError, Refusal, Why};
use pfs_conf_values::{Entries, TableDef, TableName};
use std::alloc::Global;

/// Reads what follows `set` on this line, with the line end. (pf.conf(5), OPTIONS)
#[tactic(auto, unfolding(crate::specs::Reading::set_at))]
pub fn set(cursor: &mut Cursor, progress: &mut Progress, line: u64) -> Result<(), ReadError>
    requires outside { progress.old.depth ≡ 0 }
    ensures order { IsAtDepth progress.new }
    ensures value { Comes result cursor.new progress.new (set_at line progress.old cursor.old) }
{
    match cursor.key() {
        Key::Syncookies => {
            cursor.advance();
            cookies(cursor, progress, line)
        }
        _ => setting(cursor, progress),
    }
}

/// What follows `set syncookies`. Its load rule is checked when its line end has been read.
#[tactic(auto, using(crate::proofs::OrderLaws::outside_in_order), unfolding(crate::specs::Reading::cookies_line_at))]
fn cookies(cursor: &mut Cursor, progress: &mut Progress, line: u64) -> Result<(), ReadError>
    requires outside { progress.old.depth ≡ 0 }
    ensures order { IsAtDepth progress.new }
    ensures value { Comes result cursor.new progress.new (cookies_line_at line progress.old cursor.old) }
{
    let syncookies = match read_syncookies(cursor) {
        Ok(syncookies) => syncookies,
        Err(refusal) => return Err(ReadError::Refused(refusal)),
    };
    cursor.expect(Key::LineEnd)?;
    if let Some(broken) = cookies_break(syncookies) {
        return Err(ReadError::Refused(Refusal::Broken(broken, line)));
    }
    progress.draft.set_syncookies(syncookies);
    Ok(())
}

/// Any other setting.
#[tactic(auto, using(crate::proofs::OrderLaws::outside_in_order), unfolding(crate::specs::Reading::setting_line_at))]
fn setting(cursor: &mut Cursor, progress: &mut Progress) -> Result<(), ReadError>
    requires outside { progress.old.depth ≡ 0 }
    ensures order { IsAtDepth progress.new }
    ensures value { Comes result cursor.new progress.new (setting_line_at progress.old cursor.old) }
{
    read_settings(cursor, &mut progress.draft)?;
    cursor.expect(Key::LineEnd)?;
    Ok(())
}

/// Reads what follows `table`, with the line end. (pf.conf(5), TABLES)
#[tactic(auto, using(crate::proofs::OrderLaws::outside_in_order), unfolding(crate::specs::Reading::definition_at))]
pub fn table(alloc: Global, cursor: &mut Cursor, progress: &mut Progress) -> Result<(), ReadError>
    requires outside { progress.old.depth ≡ 0 }
    ensures order { IsAtDepth progress.new }
    ensures value { Comes result cursor.new progress.new (definition_at progress.old cursor.old) }
{
    let name = new_name(cursor, &progress.draft)?;
    let parts = read_parts_with(alloc, progress.draft.hasher(), cursor)?;
    cursor.expect(Key::LineEnd)?;
    match define(alloc, progress, name, parts) {
        Ok(()) => Ok(()),
        Err(NoMemory) => Err(ReadError::Memory),
    }
}

/// A name in angle brackets, of a table that is not defined yet.
fn new_name(cursor: &mut Cursor, draft: &Draft) -> Result<TableName, Refusal>
    ensures value { Gives result cursor.new (new_name_at draft.now cursor.old) }
    ensures within { IfOk result (λ name. is_name 31 name ≡ true) }
{
    read_name(cursor, draft)
}

#[tactic(auto, unfolding(crate::specs::Reading::new_name_at))]
fn read_name(cursor: &mut Cursor, draft: &Draft) -> Result<TableName, Refusal>
    ensures { Gives result cursor.new (new_name_at draft.now cursor.old) }
{
    cursor.expect(Key::OpenAngle)?;
    if !cursor.key().is_word() {
        return Err(Refusal::Stop(Why::Plain));
    }
    let Some(name) = Name::parse(cursor.text()) else {
        return Err(Refusal::Stop(Why::Plain));
    };
    if draft.is_defined(&name) {
        return Err(Refusal::Stop(Why::Again));
    }
    cursor.advance();
    cursor.expect(Key::CloseAngle)?;
    Ok(name)
}

/// Defines a table. `persist` and `counters` have no effect.
fn define(
    alloc: Global,
    progress: &mut Progress,
    name: TableName,
    parts: Parts,
) -> Result<(), NoMemory>
    requires { is_name 31 name ≡ true }
    ensures ok { OnOk result (progress.new ≡ with_definition name parts progress.old) }
    ensures depth { progress.new.depth ≡ progress.old.depth }
{
    let Parts {
        is_const,
        entries,
        ..
    } = parts;
    let entries = entries.unwrap_or(Entries::new(alloc));
    progress.draft.define(TableDef {
        name,
        is_const,
        entries,
    })
}
