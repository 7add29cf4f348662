//! The tables of a configuration: which entry answers, and which hosts are added.

ghost use Rattle.std.specs.Prelude.{◌≡◌, IfOk, length};

use pfs_addr::parse_addr;
use pfs_addr_values::Addr;
use pfs_conf::TableNo;
use pfs_eval::{Added, Entered, Tables};
use pfs_tests_cases::{A1, S6, configured, entry, same};
use std::alloc::AllocGlobal;
use std::process::Abort;
use std::test::Fail;

const TABLES: &str =
    "table <t> { 10.0.0.0/8, !10.1.0.0/16, 2001:db8::/32, !2001:db8:1::/48, 10.1.2.3, 2001:db8:1::7 }
table <bad> { 203.0.113.9 }
table <all> { 0.0.0.0/0, !::/0, 2001:db8::/127 }";

/// A table, an address, and the answer: 32.1.13.184 has the first bits of 2001:db8::, a02::1 those of 10.2.0.0.
const ANSWERS: &[(u32, &[u8], bool)] = &[
    (0, b"10.2.0.1", true),
    (0, b"10.1.0.1", false),
    (0, b"10.1.2.3", true),
    (0, b"11.0.0.1", false),
    (0, b"32.1.13.184", false),
    (0, b"2001:db8::1", true),
    (0, b"2001:db8:1::1", false),
    (0, b"2001:db8:1::7", true),
    (0, b"2001:db9::1", false),
    (0, b"a02::1", false),
    (1, b"cb00:7109::", false),
    (2, b"198.51.100.1", true),
    (2, b"2001:db8::1", true),
    (2, b"2001:db8::2", false),
    (3, b"198.51.100.1", false),
    (3, b"2001:db8::1", false),
];

#[test]
fn a_table_answers_by_its_narrowest_entry(rt: HostRuntime) -> Result<(), Fail> {
    let config = configured(rt.alloc(), "", TABLES)?;
    let tables = Tables::new(rt.alloc(), &config)?;
    for &(table, text, answer) in ANSWERS {
        let addr = parse_addr(text).ok_or("no address")?;
        same!(rt; tables.matches(TableNo(table), addr), answer, addr);
    }
    Ok(())
}

/// The tables of a text with one, of one entry
fn one_table(rt: &(impl Abort + AllocGlobal), first: &str) -> Result<Tables, Fail>
    ensures { IfOk result (λ tables. length tables.entries ≡ 1) }
{
    let config = configured(rt.alloc(), first, "table <bad> { 203.0.113.9 }")?;
    assert!(rt; config.table_count() == 1);
    let tables = Tables::new(rt.alloc(), &config)?;
    same!(rt; tables.entries(), 1);
    Ok(tables)
}

/// What is returned for a host that is new, and once more, and how many entries there are then
type Room = (Added, Added, u64);

fn come_to(rt: &impl Abort, tables: &mut Tables, room: Room) -> Result<(), Fail>
    requires { length tables.old.entries ≡ 1 }
{
    let (answer, again, entries) = room;
    let held = Addr::V4([203, 0, 113, 9]);
    let is_new = answer == Added::New;
    tables.make_room(TableNo(0))?;
    assert!(rt; !is_new || tables.has_room(TableNo(0)));
    same!(rt; tables.add_host(TableNo(0), A1, 5)?, answer);
    same!(rt; tables.add_host(TableNo(0), A1, 5)?, again);
    same!(rt; tables.add_host(TableNo(0), held, 5)?, Added::AlreadyThere);
    same!(rt; tables.entries(), entries);
    same!(rt; tables.matches(TableNo(0), A1), is_new);
    Ok(())
}

#[test]
fn a_host_is_added_while_there_is_room(rt: HostRuntime) -> Result<(), Fail> {
    let mut full = one_table(&rt, "set limit table-entries 1\n")?;
    come_to(&rt, &mut full, (Added::Full, Added::Full, 1))?;
    let mut roomy = one_table(&rt, "set limit table-entries 2\n")?;
    come_to(&rt, &mut roomy, (Added::New, Added::AlreadyThere, 2))
}

fn wide_hosts_come(rt: &impl Abort, tables: &mut Tables) -> Result<(), Fail>
    requires { length tables.old.entries ≡ 1 }
{
    let beside = parse_addr(b"2001:db8::2").ok_or("no address")?;
    same!(rt; tables.add_host(TableNo(0), S6, 5)?, Added::New);
    same!(rt; tables.add_host(TableNo(0), S6, 6)?, Added::AlreadyThere);
    assert!(rt; tables.matches(TableNo(0), S6) && !tables.matches(TableNo(0), beside));
    same!(rt; tables.add_host(TableNo(0), A1, 7)?, Added::New);
    same!(rt; tables.expire(TableNo(0), 5, 10, 5), 2);
    assert!(rt; !tables.matches(TableNo(0), S6) && tables.matches(TableNo(0), A1));
    same!(rt; tables.entries(), 1);
    Ok(())
}

#[test]
fn a_host_of_ipv6_is_an_entry_of_128_bits(rt: HostRuntime) -> Result<(), Fail> {
    let mut tables = one_table(&rt, "")?;
    wide_hosts_come(&rt, &mut tables)
}

/// What is done to a table, or asked of it, with what must come of it.
#[derive(Clone, Copy)]
enum TableStep {
    Add(&'static str, Entered),
    Delete(&'static str, u64),
    Matches(&'static [u8], bool),
}

/// The narrowest entry that is there decides, whatever was added and taken out before. 10.1.2.3 is a01:203:: by its first bits.
const CHANGES: &[TableStep] = &[
    TableStep::Matches(b"10.1.2.3", false),
    TableStep::Add("10.0.0.0/8", Entered::New),
    TableStep::Matches(b"10.1.2.3", true),
    TableStep::Add("!10.1.0.0/16", Entered::New),
    TableStep::Add("10.1.2.3", Entered::New),
    TableStep::Matches(b"10.1.2.3", true),
    TableStep::Matches(b"10.1.2.4", false),
    TableStep::Matches(b"10.2.0.1", true),
    TableStep::Matches(b"a01:203::", false),
    TableStep::Add("a01:203::/32", Entered::New),
    TableStep::Add("!a01:203::", Entered::New),
    TableStep::Matches(b"a01:203::", false),
    TableStep::Matches(b"a01:203::1", true),
    TableStep::Delete("a01:203::", 0),
    TableStep::Delete("a01:203::/33", 0),
    TableStep::Delete("!a01:203::", 1),
    TableStep::Matches(b"a01:203::", true),
    TableStep::Matches(b"10.1.2.3", true),
    TableStep::Delete("10.1.2.3", 1),
    TableStep::Matches(b"10.1.2.3", false),
    TableStep::Delete("!10.1.2.3/16", 1),
    TableStep::Matches(b"10.1.2.3", true),
    TableStep::Delete("10.0.0.0/8", 1),
    TableStep::Matches(b"10.1.2.3", false),
    TableStep::Matches(b"a01:203::", true),
    TableStep::Delete("a01:203::/32", 1),
    TableStep::Matches(b"a01:203::", false),
    TableStep::Matches(b"203.0.113.9", true),
    TableStep::Delete("203.0.113.9", 1),
    TableStep::Matches(b"203.0.113.9", false),
];

/// A prefix is held with one sign; another length is another entry.
const SIGNS: &[TableStep] = &[
    TableStep::Add("10.1.2.3", Entered::New),
    TableStep::Add("10.1.2.3/32", Entered::AlreadyThere),
    TableStep::Add("!10.1.2.3", Entered::Conflict),
    TableStep::Matches(b"10.1.2.3", true),
    TableStep::Delete("!10.1.2.3", 0),
    TableStep::Add("!10.1.2.0/24", Entered::New),
    TableStep::Add("!10.1.2.3/24", Entered::AlreadyThere),
    TableStep::Add("10.1.2.0/24", Entered::Conflict),
    TableStep::Add("10.1.2.0", Entered::New),
    TableStep::Add("10.1.2.0/25", Entered::New),
    TableStep::Delete("10.1.2.0/26", 0),
    TableStep::Delete("10.1.2.0/24", 0),
    TableStep::Matches(b"10.1.2.0", true),
    TableStep::Matches(b"10.1.2.200", false),
    TableStep::Add("!2001:db8::", Entered::New),
    TableStep::Add("2001:db8::", Entered::Conflict),
    TableStep::Add("2001:DB8:0::/128", Entered::Conflict),
    TableStep::Add("!2001:db8::/32", Entered::New),
];

/// Under a limit of two entries, one of which the text says.
const FULL: &[TableStep] = &[
    TableStep::Add("10.0.0.0/8", Entered::New),
    TableStep::Add("10.1.2.3", Entered::Full),
    TableStep::Add("10.0.0.0", Entered::Full),
    TableStep::Add("10.9.9.9/8", Entered::AlreadyThere),
    TableStep::Add("!10.0.0.0/8", Entered::Conflict),
    TableStep::Add("!203.0.113.9", Entered::Conflict),
    TableStep::Delete("10.1.2.3", 0),
    TableStep::Add("::/0", Entered::Full),
    TableStep::Delete("203.0.113.9", 1),
    TableStep::Add("::/0", Entered::New),
    TableStep::Add("203.0.113.9", Entered::Full),
];

fn take(rt: &impl Abort, tables: &mut Tables, step: &TableStep) -> Result<(), Fail>
    requires { length tables.old.entries ≡ 1 }
    ensures { length tables.new.entries ≡ length tables.old.entries }
{
    match *step {
        TableStep::Add(text, became) => {
            let told = tables.add_entry(TableNo(0), &entry(text)?, 5)?;
            same!(rt; told, became, text);
        }
        TableStep::Delete(text, count) => {
            let told = tables.delete_entry(TableNo(0), &entry(text)?);
            same!(rt; told, count, text);
        }
        TableStep::Matches(text, answer) => {
            let addr = parse_addr(text).ok_or("no address")?;
            same!(rt; tables.matches(TableNo(0), addr), answer, addr);
        }
    }
    Ok(())
}

/// The steps in turn, after a first line of rules, and how many entries there are in the end
fn follow(
    rt: &(impl Abort + AllocGlobal),
    first: &str,
    steps: &[TableStep],
    entries: u64,
) -> Result<(), Fail> {
    let mut tables = one_table(rt, first)?;
    for step in steps {
        take(rt, &mut tables, step)?;
    }
    same!(rt; tables.entries(), entries);
    Ok(())
}

#[test]
fn the_narrowest_entry_that_is_left_answers(rt: HostRuntime) -> Result<(), Fail> {
    follow(&rt, "", CHANGES, 0)?;
    follow(&rt, "", SIGNS, 7)?;
    follow(&rt, "set limit table-entries 2\n", FULL, 2)
}

fn entries_grow_old(rt: &impl Abort, tables: &mut Tables) -> Result<(), Fail>
    requires { length tables.old.entries ≡ 1 }
{
    let net = entry("10.0.0.0/8")?;
    let other = entry("!10.0.0.0/8")?;
    let wide = entry("2001:db8::/32")?;
    same!(rt; tables.add_entry(TableNo(0), &net, 5)?, Entered::New);
    same!(rt; tables.add_entry(TableNo(0), &wide, 6)?, Entered::New);
    same!(rt; tables.add_entry(TableNo(0), &net, 7)?, Entered::AlreadyThere);
    same!(rt; tables.add_entry(TableNo(0), &other, 8)?, Entered::Conflict);
    same!(rt; tables.expire(TableNo(0), 3, 14, 10), 1);
    same!(rt; tables.expire(TableNo(0), 3, 15, 10), 1);
    assert!(rt; tables.matches(TableNo(0), S6));
    same!(rt; tables.delete_entry(TableNo(0), &wide), 1);
    same!(rt; tables.add_entry(TableNo(0), &wide, 12)?, Entered::New);
    same!(rt; tables.expire(TableNo(0), 3, 21, 10), 0);
    same!(rt; tables.expire(TableNo(0), 3, 22, 10), 1);
    same!(rt; tables.entries(), 0);
    Ok(())
}

#[test]
fn an_entry_is_as_old_as_its_addition(rt: HostRuntime) -> Result<(), Fail> {
    let mut tables = one_table(&rt, "")?;
    entries_grow_old(&rt, &mut tables)
}
