//! The lines of tables.

ghost use Rattle.std.specs.Prelude.{◌≡◌, ◌++◌, IfOk, OnOk, codes, false, map};
ghost use Rattle.std.specs.List.{flat_map};
ghost use Rattle.pfs_conf_show.specs.Pieces.{begun_after, bracketed_list, going_on};
ghost use Rattle.pfs_conf_show.specs.Tables.{angled_name, const_text, entry_text, table_ref, table_text};

use crate::pieces::{push_closing, push_not, push_prefix, push_separator};
use pfs_addr_values::{NoMemory, Prefix};
use pfs_conf_values::{Config, Entries, TableDef, TableName, TableNo};

/// Appends a line for each table, in the order of the text.
pub fn push_tables(out: &mut Vec<u8>, config: &Config) -> Result<(), NoMemory>
    ensures { OnOk result (out.new.items ≡ out.old.items ++ flat_map table_text config.now.tables) }
{
    for number in 0..config.table_count() {
        if let Some(table) = config.table(TableNo(number)) {
            push_table(out, table)?;
        }
    }
    Ok(())
}

fn push_table(out: &mut Vec<u8>, table: &TableDef) -> Result<(), NoMemory>
    ensures { OnOk result (out.new.items ≡ out.old.items ++ table_text table.now) }
{
    out.extend_from_slice(b"table ")?;
    push_name(out, &table.name)?;
    if table.is_const {
        out.extend_from_slice(b" const")?;
    }
    push_entries(out, &table.entries)?;
    out.extend_from_slice(b"\n")?;
    Ok(())
}

/// A table by its name, where its number is known.
pub fn push_table_ref(out: &mut Vec<u8>, config: &Config, table: TableNo) -> Result<(), NoMemory>
    ensures { OnOk result (out.new.items ≡ out.old.items ++ table_ref config.now.tables table) }
{
    match config.table(table) {
        Some(table) => push_name(out, &table.name),
        None => {
            out.extend_from_slice(b"<>")?;
            Ok(())
        }
    }
}

fn push_name(out: &mut Vec<u8>, name: &TableName) -> Result<(), NoMemory>
    ensures { OnOk result (out.new.items ≡ out.old.items ++ angled_name name.now) }
{
    out.extend_from_slice(b"<")?;
    out.extend_from_slice(name.as_bytes())?;
    out.extend_from_slice(b">")?;
    Ok(())
}

fn push_entries(out: &mut Vec<u8>, entries: &Entries) -> Result<(), NoMemory>
    ensures { OnOk result (out.new.items ≡ out.old.items ++ bracketed_list (codes " { ") (codes " }") (map entry_text entries.now)) }
{
    let begun = push_entry_list(out, entries)?;
    push_closing(out, b" }", begun)
}

/// The answer says whether there are any.
fn push_entry_list(out: &mut Vec<u8>, entries: &Entries) -> Result<bool, NoMemory>
    ensures text { OnOk result (out.new.items ≡ out.old.items ++ going_on (codes " { ") false (map entry_text entries.now)) }
    ensures begun { IfOk result (λ b. b ≡ begun_after false (map entry_text entries.now)) }
{
    let mut begun = false;
    for place in 0..entries.len() {
        if let Some(entry) = entries.at(place) {
            push_separator(out, b" { ", begun)?;
            push_entry(out, entry)?;
            begun = true;
        }
    }
    Ok(begun)
}

fn push_entry(out: &mut Vec<u8>, entry: (Prefix, bool)) -> Result<(), NoMemory>
    ensures { OnOk result (out.new.items ≡ out.old.items ++ entry_text entry) }
{
    let (prefix, negated) = entry;
    push_not(out, negated)?;
    push_prefix(out, prefix)
}
