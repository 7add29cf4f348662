//! The tables that a text has named so far, found by their names and by their numbers.

ghost use Rattle.std.specs.Prelude.{◌≡◌, ◌<◌, ◌≤◌, [], All, IfOk, OnOk, OnErr, false, length, true};
ghost use Rattle.std.specs.List.{IsDistinct};
ghost use Rattle.std.specs.Str.{bytes_eq};
ghost use Rattle.pfs_addr_values.specs.Names.{is_name};
ghost use Rattle.pfs_conf_values.specs.Configs.{table_names};
ghost use Rattle.pfs_conf_values.specs.Invariants.{IsTable};
ghost use Rattle.pfs_conf_settings.specs.Namings.{defining, is_defined_in, is_named, naming, place_in, table_number};

use indexmap::IndexSet;
use pfs_addr_values::NoMemory;
use pfs_conf_values::{Entries, RulesHasher, TableDef, TableName, TableNo};
use std::alloc::Global;
use std::marker::Model;

/// The tables of a text that is being read, numbered by the first place that names them, and which of them are defined.
#[derive(Debug, Drop)]
pub struct NamedTables {
    names: IndexSet<TableName, RulesHasher>,
    tables: Vec<TableDef>,
    defined: Vec<bool>,
}

impl Model for NamedTables {
    ghost use Rattle.pfs_conf_settings.specs.Namings.{Named};
    ghost use Rattle.pfs_conf_settings.specs.Invariants.{IsNaming};

    ghost Value = { Named };

    ghost view = { λ n. record { tables = n.tables.items; defined = n.defined.items } };

    ghost invariant = { λ n. IsNaming n.names.keys n.tables.items n.defined.items };
}

impl NamedTables {
    /// No tables, which will be found by this hasher. It takes no memory.
    pub fn new(alloc: Global, hasher: RulesHasher) -> NamedTables
        ensures tables { result.tables ≡ [] }
        ensures defined { result.defined ≡ [] }
    {
        NamedTables {
            names: IndexSet::with_hasher(alloc, hasher),
            tables: Vec::new(alloc),
            defined: Vec::new(alloc),
        }
    }

    /// The tables, by their numbers.
    pub fn tables(&self) -> &[TableDef]
        ensures { result.now ≡ self.now.tables }
    {
        self.tables.as_slice()
    }

    /// Whether the table of this name is defined.
    pub fn is_defined(&self, name: &TableName) -> bool
        ensures { result ≡ is_defined_in name.now self.now }
    {
        match self.names.get_index_of(name) {
            Some(place) => self.defined[place],
            None => false,
        }
    }

    /// The number of the table of this name, which is named from now on; 4294967295 for every table after the first
    /// 4294967295. It returns `NoMemory` where memory for one more table is refused; nothing changes then.
    pub fn number_of(&mut self, name: TableName) -> Result<TableNo, NoMemory>
        requires { is_name 31 name ≡ true }
        ensures answer { IfOk result (λ t. t.0 ≡ table_number (place_in name self.old.tables)) }
        ensures more { length self.old.tables ≤ length self.new.tables }
        ensures ok { OnOk result (self.new ≡ naming name self.old) }
        ensures err { OnErr result (self.new ≡ self.old) }
    {
        let place = self.place_of(name)?;
        Ok(TableNo(place.min(u32::MAX as usize) as u32))
    }

    /// The place of the table of this name, which is named from now on.
    fn place_of(&mut self, name: TableName) -> Result<usize, NoMemory>
        requires { is_name 31 name ≡ true }
        ensures answer { IfOk result (λ n. n ≡ place_in name self.old.tables) }
        ensures more { length self.old.tables ≤ length self.new.tables }
        ensures ok { OnOk result (self.new ≡ naming name self.old) }
        ensures err { OnErr result (self.new ≡ self.old) }
    {
        match self.names.get_index_of(&name) {
            Some(place) => Ok(place),
            None => self.add(name),
        }
    }

    /// Appends a table of a new name, and returns its place.
    fn add(&mut self, name: TableName) -> Result<usize, NoMemory>
        requires fresh { is_named name self.old.tables ≡ false }
        requires name { is_name 31 name ≡ true }
        ensures answer { IfOk result (λ n. n ≡ length self.old.tables) }
        ensures more { length self.old.tables ≤ length self.new.tables }
        ensures ok { OnOk result (self.new ≡ naming name self.old) }
        ensures err { OnErr result (self.new ≡ self.old) }
    {
        let place = self.tables.len();
        self.tables.reserve(1)?;
        self.defined.reserve(1)?;
        self.names.insert(name)?;
        let entries = Entries::new(*self.tables.allocator());
        self.tables.push_reserved(TableDef {
            name,
            is_const: false,
            entries,
        });
        self.defined.push_reserved(false);
        Ok(place)
    }

    /// Defines the table of its name. It returns `NoMemory` as `number_of` does.
    pub fn define(&mut self, table: TableDef) -> Result<(), NoMemory>
        requires { is_name 31 table.name ≡ true }
        ensures more { length self.old.tables ≤ length self.new.tables }
        ensures ok { OnOk result (self.new ≡ defining table self.old) }
        ensures err { OnErr result (self.new ≡ self.old) }
    {
        // This call states to the proof that its entries are prefixes, no two the same.
        let _count = table.entries.len();
        let place = self.place_of(table.name)?;
        self.tables[place] = table;
        self.defined[place] = true;
        Ok(())
    }

    /// The tables alone.
    pub fn into_tables(self) -> Vec<TableDef>
        ensures value { result.items ≡ self.tables }
        ensures each { All IsTable self.tables }
        ensures names { IsDistinct bytes_eq (table_names self.tables) }
    {
        // This call states to the proof that no two names are the same.
        let _count = self.names.len();
        let NamedTables {
            names: _,
            tables,
            defined: _,
        } = self;
        tables
    }
}
