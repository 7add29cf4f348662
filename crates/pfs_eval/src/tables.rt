//! All tables of a configuration, and the limit on their entries.

ghost use Rattle.std.specs.Prelude.{◌≡◌, ◌<◌, ◌≤◌, ◌⊎◌, ℕ, All, IfOk, IsOk, OnErr, OnOk, Some, false, if◌then◌else◌, length, nat_le, option_map, slice_get, slice_index, true};
ghost use Rattle.pfs_addr_values.specs.Addresses.{width_of};
ghost use Rattle.pfs_addr_values.specs.Prefixes.{network_of};
ghost use Rattle.pfs_eval.specs.Entries.{AreDistinct, holds_prefix, same_sign};
ghost use Rattle.pfs_conf_values.specs.Configs.{limit_of};
ghost use Rattle.pfs_eval.specs.Tables.{OthersKept, added_to, config_entries, deleted_count, entered_to, entries_after, entries_at, entries_entered, entries_expired, entries_without, entry_count, expired_count, has_room, put_last, table_answer};

use crate::entries::{Mark, Table, TableEntry};
use pfs_addr_values::{Addr, NoMemory};
use pfs_conf_values::{Config, Entries, LimitName, RulesHasher, TableNo};
use std::alloc::Global;
use std::marker::Model;

/// What became of a host that was to be added to a table. (own to this profile)
#[derive(Debug, Clone, Copy, PartialEq, Eq)]
pub enum Added {
    /// It is now an entry.
    New,
    /// The table has an entry for exactly that host already, negated or not.
    AlreadyThere,
    /// All tables together have as many entries as `set limit table-entries` allows.
    Full,
}

/// What became of an entry that the administrator adds to a table. (pfctl(8), "-T add")
#[derive(Debug, Clone, Copy, PartialEq, Eq)]
pub enum Entered {
    /// It is now an entry.
    New,
    /// The table has that very entry already.
    AlreadyThere,
    /// The table has its prefix with the other sign.
    Conflict,
    /// All tables together have as many entries as `set limit table-entries` allows.
    Full,
}

/// The entries of all tables of a configuration, as they are now. (pf.conf(5), TABLES)
///
/// Clauses see `Holdings`: of each table its entries in order and how many more fit without memory, and the limit on all
/// entries together.
#[derive(Drop)]
pub struct Tables {
    tables: Vec<Table>,
    limit: u64,
    count: u64,
}

impl Model for Tables {
    ghost use Rattle.std.specs.Prelude.{◌≡◌, ◌<◌, ◌^◌, All};
    ghost use Rattle.pfs_eval.specs.Entries.{AreDistinct};
    ghost use Rattle.pfs_eval.specs.Holdings.{Holdings, holdings};
    ghost use Rattle.pfs_eval.specs.Tables.{entry_count};

    ghost Value = { Holdings };

    ghost view = { λ t. holdings t.tables.items t.limit };

    ghost invariant = { λ t. (t.count ≡ entry_count (holdings t.tables.items t.limit).entries) × (t.limit < 2 ^ 32) × All AreDistinct (holdings t.tables.items t.limit).entries };
}

#[tactic(auto, unfolding(crate::specs::Tables::table_answer))]
impl Tables {
    /// The tables of a configuration, with the entries that its text says. They are found by a hasher that is begun
    /// with the configuration. `NoMemory` where memory was refused.
    pub fn new(alloc: Global, config: &Config) -> Result<Tables, NoMemory>
        ensures entries { IfOk result (λ t. t.entries ≡ config_entries config.now) }
        ensures limit { IfOk result (λ t. t.limit ≡ limit_of config.now LimitName.TableEntries) }
    {
        let hasher = config.hasher();
        let count = config.table_count();
        let mut tables = Vec::with_capacity(alloc, count as usize)?;
        for number in 0..count {
            tables.push(Table::of(alloc, hasher, entries_of(config, number))?)?;
        }
        Ok(Tables {
            tables,
            limit: config.limit(LimitName::TableEntries),
            count: config.entry_count(),
        })
    }

    /// The answer of a table for an address: of its entries that cover the address the one with most bits says; yes if
    /// there is one and it is not negated. An entry covers addresses of its own family alone. A table that is not there
    /// answers no. It takes no memory, and makes one look-up at most for each length that an entry of the table has or
    /// had in the address's family. (pf.conf(5), TABLES)
    pub fn matches(&self, table: TableNo, addr: Addr) -> bool
        ensures { result ≡ table_answer self.now.entries table.0 addr }
    {
        match self.tables.get(table.0 as usize) {
            Some(table) => table.matches(addr),
            None => false,
        }
    }

    /// How many entries all tables have together. No two of one table have the same prefix. It takes no memory.
    pub fn entries(&self) -> u64
        ensures value { result ≡ entry_count self.now.entries }
        ensures distinct { All AreDistinct self.now.entries }
    {
        self.count
    }

    /// Whether one more entry fits into a table without memory. It takes no memory.
    pub fn has_room(&self, table: TableNo) -> bool
        requires { table.0 < length self.now.entries }
        ensures { result ≡ has_room self.now.room table.0 }
    {
        self.tables[table.0 as usize].has_room()
    }

    /// Takes memory for one more entry of a table, unless it fits already or the entries are at their limit. After `Ok` the
    /// next `add_host` to that table is no error, whatever is called on other tables between, except `expire`: after it, a
    /// limit that was met may be free again. No entry changes, and no other table's room. `NoMemory` where memory was refused.
    pub fn make_room(&mut self, table: TableNo) -> Result<(), NoMemory>
        requires { table.0 < length self.old.entries }
        ensures entries { self.new.entries ≡ self.old.entries }
        ensures limit { self.new.limit ≡ self.old.limit }
        ensures ok { OnOk result ((has_room self.new.room table.0 ≡ true) ⊎ (self.new.limit ≤ entry_count self.new.entries)) }
        ensures has_room { has_room self.old.room table.0 ≡ true → IsOk result }
        ensures at_limit { self.old.limit ≤ entry_count self.old.entries → IsOk result }
        ensures others { OthersKept table.0 self.old self.new }
    {
        if self.is_full() {
            return Ok(());
        }
        self.tables[table.0 as usize].reserve()?;
        Ok(())
    }

    /// Adds a single host of either family to a table at a moment, in seconds: not if the table has an entry for
    /// exactly that host, negated or not, and not if all tables together have as many entries as the limit allows.
    /// `NoMemory` where memory was refused; it comes only where the host is new and does not fit without memory. On an
    /// error, and where the host is not new, nothing changes: a host that is held keeps its moment. The room of other
    /// tables stays. (own to this profile)
    pub fn add_host(&mut self, table: TableNo, host: Addr, now: u64) -> Result<Added, NoMemory>
        requires { table.0 < length self.old.entries }
        ensures answer { IfOk result (λ a. a ≡ added_to self.old.entries self.old.limit table.0 host) }
        ensures ok { IfOk result (λ a. self.new.entries ≡ entries_after self.old.entries table.0 host now a) }
        ensures err { OnErr result (self.new.entries ≡ self.old.entries) }
        ensures tables { length self.new.entries ≡ length self.old.entries }
        ensures only_new { OnErr result (added_to self.old.entries self.old.limit table.0 host ≡ Added.New) }
        ensures limit { self.new.limit ≡ self.old.limit }
        ensures has_room { has_room self.old.room table.0 ≡ true → IsOk result }
        ensures at_limit { self.old.limit ≤ entry_count self.old.entries → IsOk result }
        ensures others { OthersKept table.0 self.old self.new }
    {
        if self.tables[table.0 as usize].holds(host) {
            return Ok(Added::AlreadyThere);
        }
        if self.is_full() {
            return Ok(Added::Full);
        }
        let mark = Mark {
            negated: false,
            moment: Some(now),
        };
        self.put(table, host, host.width(), mark)?;
        Ok(Added::New)
    }

    /// Adds an entry to a table at a moment, in seconds, as the administrator asks: not if the table has its prefix, with
    /// the same sign or the other, and not if all tables together have as many entries as the limit allows. `NoMemory`
    /// where memory was refused; it comes only where the entry is new and does not fit without memory. On an error, and
    /// where the entry is not new, nothing changes: one that is held keeps its sign and its moment. The room of other
    /// tables stays. (pfctl(8), "-T add")
    pub fn add_entry(
        &mut self,
        table: TableNo,
        entry: &TableEntry,
        now: u64,
    ) -> Result<Entered, NoMemory>
        requires { table.0 < length self.old.entries }
        ensures answer { IfOk result (λ a. a ≡ entered_to self.old.entries self.old.limit table.0 entry.now) }
        ensures ok { IfOk result (λ a. self.new.entries ≡ entries_entered self.old.entries table.0 entry.now now a) }
        ensures err { OnErr result (self.new.entries ≡ self.old.entries) }
        ensures tables { length self.new.entries ≡ length self.old.entries }
        ensures only_new { OnErr result (entered_to self.old.entries self.old.limit table.0 entry.now ≡ Entered.New) }
        ensures limit { self.new.limit ≡ self.old.limit }
        ensures has_room { has_room self.old.room table.0 ≡ true → IsOk result }
        ensures others { OthersKept table.0 self.old self.new }
    {
        if let Some(mark) = self.tables[table.0 as usize].mark(&entry.prefix) {
            return Ok(entered_beside(mark.negated, entry.negated));
        }
        if self.is_full() {
            return Ok(Entered::Full);
        }
        let mark = Mark {
            negated: entry.negated,
            moment: Some(now),
        };
        self.put(table, entry.prefix.addr(), entry.prefix.bits(), mark)?;
        Ok(Entered::New)
    }

    /// Puts an entry last into a table that has none of this prefix, where fewer entries are held than the limit allows.
    /// On an error nothing changes; it comes only where the entry does not fit without memory.
    fn put(&mut self, table: TableNo, addr: Addr, bits: u8, mark: Mark) -> Result<(), NoMemory>
        requires table { table.0 < length self.old.entries }
        requires bits { bits ≤ width_of addr }
        requires absent { holds_prefix (entries_at self.old.entries table.0) addr bits ≡ false }
        requires free { nat_le self.old.limit (entry_count self.old.entries) ≡ false }
        ensures ok { OnOk result (self.new.entries ≡ put_last self.old.entries table.0 (network_of addr bits, mark)) }
        ensures err { OnErr result (self.new.entries ≡ self.old.entries) }
        ensures tables { length self.new.entries ≡ length self.old.entries }
        ensures limit { self.new.limit ≡ self.old.limit }
        ensures has_room { has_room self.old.room table.0 ≡ true → IsOk result }
        ensures others { OthersKept table.0 self.old self.new }
    {
        self.tables[table.0 as usize].add(addr, bits, mark)?;
        self.count += 1;
        Ok(())
    }

    /// Takes the very entry that is named out of a table, if it is there: its prefix, with its sign. It returns how many
    /// left: one, or none. The others keep their order, and no other table changes. No room is lost. It goes through the
    /// entries of that table alone, and takes no memory. (pfctl(8), "-T delete")
    pub fn delete_entry(&mut self, table: TableNo, entry: &TableEntry) -> u64
        requires { table.0 < length self.old.entries }
        ensures answer { result ≡ deleted_count self.old.entries table.0 entry.now }
        ensures entries { self.new.entries ≡ entries_without self.old.entries table.0 entry.now }
        ensures tables { length self.new.entries ≡ length self.old.entries }
        ensures limit { self.new.limit ≡ self.old.limit }
        ensures room { (t : ℕ) → slice_index self.old.room t ≤ slice_index self.new.room t }
    {
        let deleted = self.tables[table.0 as usize].delete(entry);
        self.count -= deleted;
        deleted
    }

    /// Takes out of a table the entries that were added `seconds` before `now`, or earlier; those that the rules text
    /// says count as added at the moment `first`. It returns how many left. The others keep their order, and no other
    /// table changes. No room is lost. It goes through the entries of that table alone, and takes no memory. (pfctl(8),
    /// "-T expire"; which moments count is own to this profile)
    pub fn expire(&mut self, table: TableNo, first: u64, now: u64, seconds: u64) -> u64
        requires table { table.0 < length self.old.entries }
        requires moments { first ≤ now }
        ensures answer { result ≡ expired_count self.old.entries table.0 first now seconds }
        ensures entries { self.new.entries ≡ entries_expired self.old.entries table.0 first now seconds }
        ensures tables { length self.new.entries ≡ length self.old.entries }
        ensures limit { self.new.limit ≡ self.old.limit }
        ensures room { (t : ℕ) → slice_index self.old.room t ≤ slice_index self.new.room t }
    {
        let left = self.tables[table.0 as usize].expire(first, now, seconds);
        self.count -= left;
        left
    }

    /// Whether all tables together have as many entries as the limit allows.
    fn is_full(&self) -> bool
        ensures { result ≡ nat_le self.now.limit (entry_count self.now.entries) }
    {
        self.count >= self.limit
    }
}

/// What becomes of an entry whose prefix is held, by both signs.
fn entered_beside(held: bool, negated: bool) -> Entered
    ensures { result ≡ (if same_sign held negated then Entered.AlreadyThere else Entered.Conflict) }
{
    if held == negated {
        Entered::AlreadyThere
    } else {
        Entered::Conflict
    }
}

/// The entries of a table of a configuration.
fn entries_of(config: &Config, number: u32) -> &Entries
    requires { number < length config.now.tables }
    ensures { option_map (λ t. t.entries) (slice_get config.now.tables number) ≡ Some result.now }
{
    &config.table(TableNo(number)).unwrap().entries
}
