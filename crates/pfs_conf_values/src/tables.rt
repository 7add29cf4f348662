//! The tables of a configuration: their names and entries.

ghost use Rattle.std.specs.Prelude.{◌≡◌, ◌<◌, ◌^◌, [], All, IfOk, length, map, slice_get};
ghost use Rattle.std.specs.List.{IsDistinct};
ghost use Rattle.pfs_addr_values.specs.Prefixes.{IsNetwork};
ghost use Rattle.pfs_conf_values.specs.Entries.{AreEntries, TextEntry, same_network};
ghost use Rattle.pfs_conf_values.specs.Hashing.{after_table, after_tables};

use crate::filters::TableName;
use pfs_addr_values::{NoMemory, Prefix};
use std::alloc::Global;
use std::hash::{DefaultHasher, Hash};
use std::marker::Model;

/// The entries of a table, in the order in which they first occur: prefixes, no two the same, each with whether a `!`
/// is before it.
///
/// Clauses see a list of pairs. (pf.conf(5), TABLES)
#[derive(Debug, Drop)]
pub struct Entries {
    list: Vec<(Prefix, bool)>,
}

impl Model for Entries {
    ghost use Rattle.std.specs.Prelude.{Bool, List};
    ghost use Rattle.pfs_addr_values.specs.Prefixes.{Network};
    ghost use Rattle.pfs_conf_values.specs.Entries.{AreEntries};

    ghost Value = { List (Network × Bool) };

    ghost view = { λ e. e.list.items };

    ghost invariant = { λ e. AreEntries e.list.items };
}

/// A table of a configuration. (pf.conf(5), TABLES)
#[derive(Debug, Drop)]
pub struct TableDef {
    /// Its name.
    pub name: TableName,
    /// Whether it is `const`: no source is added to it.
    pub is_const: bool,
    /// Its entries. A table that is named and not defined has none.
    pub entries: Entries,
}

impl Entries {
    /// No entries. It takes no memory.
    pub fn new(alloc: Global) -> Entries
        ensures { result ≡ [] }
    {
        Entries::of(Vec::new(alloc))
    }

    /// The entries of this list. It takes no memory.
    pub fn of(list: Vec<(Prefix, bool)>) -> Entries
        requires { AreEntries list.items }
        ensures { result ≡ list.items }
    {
        Entries { list }
    }

    /// How many there are. It states that their prefixes are prefixes, no two the same.
    pub fn len(&self) -> usize
        ensures value { result ≡ length self.now }
        ensures small { result < 2 ^ 63 }
        ensures networks { All (λ (e : TextEntry). IsNetwork e.0) self.now }
        ensures distinct { IsDistinct same_network (map (λ (e : TextEntry). e.0) self.now) }
    {
        self.list.len()
    }

    /// The entry at this place, from 0: its prefix, and whether it is negated.
    pub fn at(&self, place: usize) -> Option<(Prefix, bool)>
        ensures { result ≡ slice_get self.now place }
    {
        self.list.get(place).copied()
    }

    /// The same entries in memory of their own. It returns `NoMemory` where that memory is refused.
    pub fn copy(&self) -> Result<Entries, NoMemory>
        ensures { IfOk result (λ e. e ≡ self.now) }
    {
        let list = Vec::from_slice(*self.list.allocator(), &self.list)?;
        Ok(Entries::of(list))
    }
}

impl TableDef {
    /// Feeds a hasher with the name, whether the table is `const`, and the entries.
    fn feed(&self, state: &mut DefaultHasher)
        ensures { state.new ≡ after_table state.old self.now }
    {
        self.name.hash(state);
        self.is_const.hash(state);
        self.entries.list.hash(state);
    }

    /// The same table in memory of its own. It returns `NoMemory` where that memory is refused.
    pub fn copy(&self) -> Result<TableDef, NoMemory>
        ensures { IfOk result (λ t. t ≡ self.now) }
    {
        Ok(TableDef {
            name: self.name,
            is_const: self.is_const,
            entries: self.entries.copy()?,
        })
    }
}

/// The same tables in memory of their own. It returns `NoMemory` where that memory is refused.
pub fn copy_tables(alloc: Global, tables: &[TableDef]) -> Result<Vec<TableDef>, NoMemory>
    ensures { IfOk result (λ v. v.items ≡ tables.now) }
{
    let mut copies = Vec::with_capacity(alloc, tables.len())?;
    for table in tables {
        copies.push(table.copy()?)?;
    }
    Ok(copies)
}

/// Feeds a hasher with how many tables there are, and with each.
pub(crate) fn feed_tables(tables: &[TableDef], state: &mut DefaultHasher)
    ensures { state.new ≡ after_tables state.old tables.now }
{
    tables.len().hash(state);
    for table in tables {
        table.feed(state);
    }
}
