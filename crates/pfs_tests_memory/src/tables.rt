//! Tables of hosts, and the compiled ruleset.

ghost use Rattle.std.specs.Prelude.{◌≡◌, ◌<◌, length};

use crate::rules_texts::{FULL, NODES, OVERLOAD};
use crate::telling::{Teller, TellingStop, answered, begin, begin_free, end, plain, refused};
use pfs_addr_values::{Addr, Meter, NoMemory, Packet};
use pfs_conf::{Config, RuleNo, TableNo, load};
use pfs_eval::{Added, CompiledRuleset, Entered, NoSides, Tables};
use pfs_tests_cases::{A1, EVERYTHING, S6, Sent, entry, packet};

/// Rules, how many entries they have, and the rule that decides on a packet of UDP.
type TableCallRow = (&'static [u8], u64, Option<u32>);

const RULES: &[TableCallRow] = &[
    (EVERYTHING, 2, None),
    (NODES, 0, Some(0)),
    (OVERLOAD, 0, Some(1)),
    (FULL, 1, None),
];

const HOSTS: &[u8] = b"set limit table-entries 41\ntable <bad> { 203.0.113.9 }\n";

/// How many hosts there is room for under that limit.
const FREE: u8 = 40;

/// Tables and books of rules, and hosts that are added, with room made before and without.
pub fn tell_tables(teller: &Teller) -> Result<(), TellingStop> {
    let udp = packet(&Sent::Udp(53), A1, 1)?;
    for row in RULES {
        let config = load(teller.alloc(), row.0)?;
        tell_book(teller, &config, row, &udp)?;
    }
    let config = load(teller.alloc(), HOSTS)?;
    if config.table_count() != 1 {
        return Err(TellingStop::Input);
    }
    add_with_room(teller, &config)?;
    add_without_room(teller, &config)?;
    enter_and_delete(teller, &config)
}

fn tell_book(
    teller: &Teller,
    config: &Config,
    row: &TableCallRow,
    udp: &Packet,
) -> Result<(), TellingStop> {
    if !new_tables(teller, config, row.1)? {
        new_tables(teller, config, row.1)?;
    }
    let tables = Tables::new(teller.alloc(), config)?;
    if !new_book(teller, config, &tables, udp, row.2)? {
        new_book(teller, config, &tables, udp, row.2)?;
    }
    Ok(())
}

fn new_tables(teller: &Teller, config: &Config, entries: u64) -> Result<bool, TellingStop> {
    begin(teller, "Tables::new")?;
    let is_right = are_tables(Tables::new(teller.alloc(), config), entries);
    end(teller)?;
    answered(teller, is_right)
}

/// Whether new tables have so many entries, where there are any.
fn are_tables(made: Result<Tables, NoMemory>, entries: u64) -> Option<bool> {
    match made {
        Ok(tables) => Some(tables.entries() == entries),
        Err(_) => None,
    }
}

fn new_book(
    teller: &Teller,
    config: &Config,
    tables: &Tables,
    udp: &Packet,
    rule: Option<u32>,
) -> Result<bool, TellingStop> {
    begin(teller, "CompiledRuleset::new")?;
    let answer = CompiledRuleset::new(teller.alloc(), config);
    end(teller)?;
    match answer {
        Ok(compiled) => decide(teller, &compiled, tables, udp, rule),
        Err(_) => refused(teller, true),
    }
}

fn decide(
    teller: &Teller,
    compiled: &CompiledRuleset,
    tables: &Tables,
    udp: &Packet,
    rule: Option<u32>,
) -> Result<bool, TellingStop> {
    plain(teller, true)?;
    let mut packet = *udp;
    let mut meter = Meter::new();
    begin_free(teller, "decide")?;
    let decided = compiled
        .decide(tables, &NoSides, &mut packet, &mut meter)
        .rule;
    end(teller)?;
    plain(teller, decided.map(number_of) == rule)
}

fn number_of(rule: RuleNo) -> u32 {
    rule.0
}

fn host(number: u8) -> Addr {
    Addr::V4([198, 51, 100, number])
}

/// How many of the hosts the table answers for.
fn held(tables: &Tables) -> u8 {
    let mut count: u8 = 0;
    for number in 0..=FREE {
        if tables.matches(TableNo(0), host(number)) {
            count = count.saturating_add(1);
        }
    }
    count
}

/// The tables hold the first so many hosts, beside the entry of the text.
fn is_held(tables: &Tables, count: u8) -> bool {
    held(tables) == count && tables.entries() == u64::from(count) + 1
}

/// Room is made for each host, which is then added without memory; the last host is one too many.
fn add_with_room(teller: &Teller, config: &Config) -> Result<(), TellingStop>
    requires { 0 < length config.now.tables }
{
    let mut tables = Tables::new(teller.alloc(), config)?;
    for number in 0..FREE {
        if !make_room(teller, &mut tables, number)? {
            make_room(teller, &mut tables, number)?;
        }
        add_free(teller, &mut tables, number, Added::New)?;
        add_free(teller, &mut tables, number, Added::AlreadyThere)?;
    }
    room_at_limit(teller, &mut tables)?;
    add_free(teller, &mut tables, FREE, Added::Full)?;
    expire(teller, &mut tables)
}

fn add_without_room(teller: &Teller, config: &Config) -> Result<(), TellingStop>
    requires { 0 < length config.now.tables }
{
    let mut tables = Tables::new(teller.alloc(), config)?;
    for number in 0..FREE {
        if !add(teller, &mut tables, number)? {
            add(teller, &mut tables, number)?;
        }
    }
    add_free(teller, &mut tables, FREE, Added::Full)
}

fn make_room(teller: &Teller, tables: &mut Tables, number: u8) -> Result<bool, TellingStop>
    requires { 0 < length tables.old.entries }
    ensures { length tables.new.entries ≡ length tables.old.entries }
{
    begin(teller, "make_room")?;
    let answer = tables.make_room(TableNo(0));
    end(teller)?;
    match answer {
        Ok(()) => plain(
            teller,
            tables.has_room(TableNo(0)) && is_held(tables, number),
        ),
        Err(_) => refused(teller, is_held(tables, number)),
    }
}

fn room_at_limit(teller: &Teller, tables: &mut Tables) -> Result<(), TellingStop>
    requires { 0 < length tables.old.entries }
    ensures { length tables.new.entries ≡ length tables.old.entries }
{
    begin_free(teller, "make_room at the limit")?;
    let answer = tables.make_room(TableNo(0));
    end(teller)?;
    plain(teller, answer.is_ok() && is_held(tables, FREE))?;
    Ok(())
}

/// A host that there is room for, that is held, or that is one too many.
fn add_free(
    teller: &Teller,
    tables: &mut Tables,
    number: u8,
    wanted: Added,
) -> Result<(), TellingStop>
    requires { 0 < length tables.old.entries }
    ensures { length tables.new.entries ≡ length tables.old.entries }
{
    begin_free(teller, "add_host with room, held or full")?;
    let answer = tables.add_host(TableNo(0), host(number), 5);
    end(teller)?;
    let count = if wanted == Added::Full {
        number
    } else {
        number.saturating_add(1)
    };
    plain(teller, answer == Ok(wanted) && is_held(tables, count))?;
    Ok(())
}

fn add(teller: &Teller, tables: &mut Tables, number: u8) -> Result<bool, TellingStop>
    requires { 0 < length tables.old.entries }
    ensures { length tables.new.entries ≡ length tables.old.entries }
{
    begin(teller, "add_host")?;
    let answer = tables.add_host(TableNo(0), host(number), 5);
    end(teller)?;
    match answer {
        Ok(added) => plain(
            teller,
            added == Added::New && is_held(tables, number.saturating_add(1)),
        ),
        Err(_) => refused(teller, is_held(tables, number)),
    }
}

/// All entries leave, those of the text too.
fn expire(teller: &Teller, tables: &mut Tables) -> Result<(), TellingStop>
    requires { 0 < length tables.old.entries }
{
    begin_free(teller, "expire")?;
    let left = tables.expire(TableNo(0), 5, 5, 0);
    end(teller)?;
    plain(teller, left == u64::from(FREE) + 1 && tables.entries() == 0)?;
    Ok(())
}

/// Entries, each of which is new.
const ENTRIES: &[&str] = &[
    "198.51.100.0/24",
    "!198.51.100.1",
    "198.51.100.0/32",
    "2001:db8::/32",
    "!2001:db8::1",
    "0.0.0.0/0",
    "!::/0",
    "10.0.0.0/8",
    "!10.0.0.0/9",
    "10.0.0.0/10",
];

/// An administrator adds entries, and hosts up to the limit, and takes the entries out.
fn enter_and_delete(teller: &Teller, config: &Config) -> Result<(), TellingStop>
    requires { 0 < length config.now.tables }
{
    let mut tables = Tables::new(teller.alloc(), config)?;
    for text in ENTRIES {
        if !enter(teller, &mut tables, text)? {
            enter(teller, &mut tables, text)?;
        }
        enter_free(teller, &mut tables, text, Entered::AlreadyThere)?;
    }
    enter_free(teller, &mut tables, "10.0.0.0/9", Entered::Conflict)?;
    for number in 0..FREE {
        tables.add_host(TableNo(0), Addr::V4([10, 1, 1, number]), 5)?;
    }
    enter_free(teller, &mut tables, "10.1.0.0/16", Entered::Full)?;
    delete_each(teller, &mut tables)
}

/// The entry is new; or, where memory was refused, the tables are as before.
fn enter(teller: &Teller, tables: &mut Tables, text: &str) -> Result<bool, TellingStop>
    requires { 0 < length tables.old.entries }
    ensures { length tables.new.entries ≡ length tables.old.entries }
{
    let entry = entry(text)?;
    let count = tables.entries();
    let before = answers(tables);
    begin(teller, "add_entry")?;
    let answer = tables.add_entry(TableNo(0), &entry, 5);
    end(teller)?;
    match answer {
        Ok(became) => {
            let is_one_more = tables.entries() == count.saturating_add(1);
            plain(teller, became == Entered::New && is_one_more)
        }
        Err(_) => refused(
            teller,
            tables.entries() == count && answers(tables) == before,
        ),
    }
}

/// What the table answers for four addresses.
fn answers(tables: &Tables) -> (bool, bool, bool, bool) {
    (
        tables.matches(TableNo(0), host(0)),
        tables.matches(TableNo(0), host(1)),
        tables.matches(TableNo(0), Addr::V4([10, 64, 0, 1])),
        tables.matches(TableNo(0), S6),
    )
}

/// An entry that is held, with the same sign or the other, or that is one too many.
fn enter_free(
    teller: &Teller,
    tables: &mut Tables,
    text: &str,
    wanted: Entered,
) -> Result<(), TellingStop>
    requires { 0 < length tables.old.entries }
    ensures { length tables.new.entries ≡ length tables.old.entries }
{
    let entry = entry(text)?;
    let count = tables.entries();
    begin_free(teller, "add_entry held, of the other sign or full")?;
    let answer = tables.add_entry(TableNo(0), &entry, 6);
    end(teller)?;
    plain(teller, answer == Ok(wanted) && tables.entries() == count)?;
    Ok(())
}

/// Each entry that was added is taken out, once.
fn delete_each(teller: &Teller, tables: &mut Tables) -> Result<(), TellingStop>
    requires { 0 < length tables.old.entries }
{
    for text in ENTRIES {
        delete(teller, tables, text, 1)?;
        delete(teller, tables, text, 0)?;
    }
    Ok(())
}

fn delete(teller: &Teller, tables: &mut Tables, text: &str, wanted: u64) -> Result<(), TellingStop>
    requires { 0 < length tables.old.entries }
    ensures { length tables.new.entries ≡ length tables.old.entries }
{
    let entry = entry(text)?;
    let count = tables.entries();
    begin_free(teller, "delete_entry")?;
    let deleted = tables.delete_entry(TableNo(0), &entry);
    end(teller)?;
    let is_right = deleted == wanted && count.checked_sub(deleted) == Some(tables.entries());
    plain(teller, is_right)?;
    Ok(())
}
