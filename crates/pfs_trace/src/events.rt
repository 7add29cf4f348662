//! The event of one record of a trace.

ghost use Rattle.std.specs.Prelude.{◌≡◌};
ghost use Rattle.csv.specs.Records.{fields_of};
ghost use Rattle.pfs_addr_values.specs.Protocols.{is_icmp};
ghost use Rattle.pfs_addr.specs.Texts.{addr_of, prefix_of};
ghost use Rattle.pfs_conf_values.specs.Configs.{table_named};
ghost use Rattle.pfs_trace.specs.Events.{addition_at, arrival_at, change_at, changing, deletion_at, dir_of, end_at, entry_in, event_at, expiry_at, falls, flags_for, ends_asked_at, kill_at, named_at, nameless_at, nothing_in, number_to, port_for, prefix_or_nothing, question_at, signed, verb_of};
ghost use Rattle.pfs_trace.specs.Reading.{beside};

use crate::columns::column;
use crate::faults::TraceFault;
use csv::ByteRecord;
use pfs_addr::{parse_addr, parse_flags, parse_number, parse_prefix, parse_proto};
use pfs_addr_values::{Addr, Dir, Endpoint, Flags, Packet, Prefix, Proto, parse_ifname};
use pfs_conf_values::{Config, TableName, TableNo};
use pfs_engine_machine::{Arrival, Command, Event, FromTo, TableEntry};

/// The event of a record after the moment `last`, or what is wrong with it: first the number of
/// its fields, then each field from left to right, then its moment, and then the table that it
/// names. It takes no memory.
pub fn read_event(
    row: u64,
    last: Option<u64>,
    config: &Config,
    fields: &ByteRecord,
) -> Result<Event, TraceFault>
    ensures { result ≡ event_at config.now row last (fields_of fields.now) }
{
    if fields.len() != 9 {
        return Err(TraceFault::Columns(row));
    }
    let time = read_number(column(fields, 1), 4_294_967_295).ok_or(TraceFault::Field(row, 1))?;
    match read_verb(column(fields, 2)) {
        None => read_packet(row, last, time, fields),
        Some(RecordVerb::HeldQuery) => read_question(row, last, time, fields),
        Some(RecordVerb::Expire) => change(row, last, time, config, read_expiry(row, fields)),
        Some(RecordVerb::Add) => change(row, last, time, config, read_addition(row, fields)),
        Some(RecordVerb::Delete) => change(row, last, time, config, read_deletion(row, fields)),
        Some(RecordVerb::Kill) => kill(row, last, time, read_hosts(row, fields)),
    }
}

/// What an administrator does, by the word of a record.
enum RecordVerb {
    Expire,
    Add,
    Delete,
    Kill,
    HeldQuery,
}

/// What a word in the second column says; none where it is a packet's direction, or no word at all.
fn read_verb(word: &[u8]) -> Option<RecordVerb>
    ensures { result ≡ verb_of word.now }
{
    // Nearly all records are of packets.
    if read_dir(word).is_some() {
        return None;
    }
    if word == b"expire".as_slice() {
        Some(RecordVerb::Expire)
    } else if word == b"add".as_slice() {
        Some(RecordVerb::Add)
    } else if word == b"delete".as_slice() {
        Some(RecordVerb::Delete)
    } else if word == b"kill".as_slice() {
        Some(RecordVerb::Kill)
    } else if word == b"held".as_slice() {
        Some(RecordVerb::HeldQuery)
    } else {
        None
    }
}

fn has_fallen(last: Option<u64>, time: u64) -> bool
    ensures { result ≡ falls last time }
{
    match last {
        Some(last) => time < last,
        None => false,
    }
}

/// The event of a record by which a table changes, of what its fields say.
fn change(
    row: u64,
    last: Option<u64>,
    time: u64,
    config: &Config,
    read: Result<(TableName, Command), TraceFault>,
) -> Result<Event, TraceFault>
    ensures { result ≡ change_at config.now row last time read }
{
    let (name, command) = read?;
    if has_fallen(last, time) {
        return Err(TraceFault::TimeFell(row));
    }
    let table = find_table(config, &name).ok_or(TraceFault::Table(row))?;
    let what = Arrival::Table { table, command };
    Ok(Event { time, what })
}

/// The event of a record by which states are taken out, of what its fields say.
fn kill(
    row: u64,
    last: Option<u64>,
    time: u64,
    read: Result<FromTo, TraceFault>,
) -> Result<Event, TraceFault>
    ensures { result ≡ kill_at row last time read }
{
    let hosts = read?;
    if has_fallen(last, time) {
        return Err(TraceFault::TimeFell(row));
    }
    let what = Arrival::Kill(hosts);
    Ok(Event { time, what })
}

/// The event of a record that asks how much is held.
fn read_question(
    row: u64,
    last: Option<u64>,
    time: u64,
    fields: &ByteRecord,
) -> Result<Event, TraceFault>
    ensures { result ≡ question_at row last time (fields_of fields.now) }
{
    read_nameless(row, fields)?;
    read_nothing(column(fields, 5)).ok_or(TraceFault::Field(row, 5))?;
    read_nothing(column(fields, 6)).ok_or(TraceFault::Field(row, 6))?;
    read_end(row, fields)?;
    if has_fallen(last, time) {
        return Err(TraceFault::TimeFell(row));
    }
    let what = Arrival::HeldQuery;
    Ok(Event { time, what })
}

/// The table of this name, if there is one and it is not `const`.
fn find_table(config: &Config, name: &TableName) -> Option<TableNo>
    ensures { result ≡ changing config.now (table_named config.now name.now) }
{
    let table = config.table_named(name.as_bytes())?;
    if config.is_const(table) {
        return None;
    }
    Some(table)
}

/// The name of a table, and that its entries leave that are so many seconds old.
fn read_expiry(row: u64, fields: &ByteRecord) -> Result<(TableName, Command), TraceFault>
    ensures { result ≡ expiry_at row (fields_of fields.now) }
{
    let name = TableName::parse(column(fields, 3)).ok_or(TraceFault::Field(row, 3))?;
    read_nothing(column(fields, 4)).ok_or(TraceFault::Field(row, 4))?;
    read_nothing(column(fields, 5)).ok_or(TraceFault::Field(row, 5))?;
    let seconds = read_number(column(fields, 6), 4_294_967_295).ok_or(TraceFault::Field(row, 6))?;
    read_end(row, fields)?;
    Ok((name, Command::Expire(seconds)))
}

/// The name of a table, and the entry that is added.
fn read_addition(row: u64, fields: &ByteRecord) -> Result<(TableName, Command), TraceFault>
    ensures { result ≡ addition_at row (fields_of fields.now) }
{
    let (name, entry) = read_named(row, fields)?;
    Ok((name, Command::Add(entry)))
}

/// The name of a table, and the entry that is taken out.
fn read_deletion(row: u64, fields: &ByteRecord) -> Result<(TableName, Command), TraceFault>
    ensures { result ≡ deletion_at row (fields_of fields.now) }
{
    let (name, entry) = read_named(row, fields)?;
    Ok((name, Command::Delete(entry)))
}

/// The name of a table, and an entry.
fn read_named(row: u64, fields: &ByteRecord) -> Result<(TableName, TableEntry), TraceFault>
    ensures { result ≡ named_at row (fields_of fields.now) }
{
    let name = TableName::parse(column(fields, 3)).ok_or(TraceFault::Field(row, 3))?;
    read_nothing(column(fields, 4)).ok_or(TraceFault::Field(row, 4))?;
    let entry = read_entry(column(fields, 5)).ok_or(TraceFault::Field(row, 5))?;
    read_nothing(column(fields, 6)).ok_or(TraceFault::Field(row, 6))?;
    read_end(row, fields)?;
    Ok((name, entry))
}

/// An entry: a prefix, directly behind a `!` where it is negated.
fn read_entry(text: &[u8]) -> Option<TableEntry>
    ensures { result ≡ entry_in text.now }
{
    match text {
        [b'!', prefix @ ..] => read_signed(prefix, true),
        _ => read_signed(text, false),
    }
}

fn read_signed(text: &[u8], negated: bool) -> Option<TableEntry>
    ensures { result ≡ signed negated (prefix_of text.now) }
{
    let prefix = parse_prefix(text)?;
    Some(TableEntry { prefix, negated })
}

/// The hosts from which states go that are taken out, and those to which they go, if they are named.
fn read_hosts(row: u64, fields: &ByteRecord) -> Result<FromTo, TraceFault>
    ensures { result ≡ ends_asked_at row (fields_of fields.now) }
{
    read_nameless(row, fields)?;
    let from = parse_prefix(column(fields, 5)).ok_or(TraceFault::Field(row, 5))?;
    read_nothing(column(fields, 6)).ok_or(TraceFault::Field(row, 6))?;
    let to = read_any_hosts(column(fields, 7)).ok_or(TraceFault::Field(row, 7))?;
    read_nothing(column(fields, 8)).ok_or(TraceFault::Field(row, 8))?;
    read_nothing(column(fields, 9)).ok_or(TraceFault::Field(row, 9))?;
    Ok(FromTo { from, to })
}

/// That no table is named, and no protocol: both columns are empty.
fn read_nameless(row: u64, fields: &ByteRecord) -> Result<(), TraceFault>
    ensures { result ≡ nameless_at row (fields_of fields.now) }
{
    read_nothing(column(fields, 3)).ok_or(TraceFault::Field(row, 3))?;
    read_nothing(column(fields, 4)).ok_or(TraceFault::Field(row, 4))?;
    Ok(())
}

/// A prefix, or none where there is no text: then hosts may be any.
fn read_any_hosts(text: &[u8]) -> Option<Option<Prefix>>
    ensures { result ≡ prefix_or_nothing text.now }
{
    if text.is_empty() {
        return Some(None);
    }
    let prefix = parse_prefix(text)?;
    Some(Some(prefix))
}

/// That the last three columns are empty.
fn read_end(row: u64, fields: &ByteRecord) -> Result<(), TraceFault>
    ensures { result ≡ end_at row (fields_of fields.now) }
{
    read_nothing(column(fields, 7)).ok_or(TraceFault::Field(row, 7))?;
    read_nothing(column(fields, 8)).ok_or(TraceFault::Field(row, 8))?;
    read_nothing(column(fields, 9)).ok_or(TraceFault::Field(row, 9))?;
    Ok(())
}

fn read_nothing(text: &[u8]) -> Option<()>
    ensures { result ≡ nothing_in text.now }
{
    if text.is_empty() { Some(()) } else { None }
}

/// The event of a packet, or of a record that is skipped. Its packet is made in place: it is not moved from value to value.
fn read_packet(
    row: u64,
    last: Option<u64>,
    time: u64,
    fields: &ByteRecord,
) -> Result<Event, TraceFault>
    ensures { result ≡ arrival_at row last time (fields_of fields.now) }
{
    let dir = read_dir(column(fields, 2)).ok_or(TraceFault::Field(row, 2))?;
    let ifname = parse_ifname(column(fields, 3)).ok_or(TraceFault::Field(row, 3))?;
    let proto = parse_proto(column(fields, 4)).ok_or(TraceFault::Field(row, 4))?;
    let src = parse_addr(column(fields, 5)).ok_or(TraceFault::Field(row, 5))?;
    let sport = read_port(&proto, column(fields, 6)).ok_or(TraceFault::Field(row, 6))?;
    let dst = read_beside(src, column(fields, 7)).ok_or(TraceFault::Field(row, 7))?;
    let dport = read_port(&proto, column(fields, 8)).ok_or(TraceFault::Field(row, 8))?;
    let flags = read_flags(&proto, column(fields, 9)).ok_or(TraceFault::Field(row, 9))?;
    if has_fallen(last, time) {
        return Err(TraceFault::TimeFell(row));
    }
    if is_skipped(&proto) {
        let what = Arrival::Skip;
        return Ok(Event { time, what });
    }
    let source = Endpoint {
        addr: src,
        port: sport,
    };
    let destination = Endpoint {
        addr: dst,
        port: dport,
    };
    Ok(Event {
        time,
        what: Arrival::Packet(Packet::new(dir, ifname, proto, source, destination, flags)),
    })
}

fn is_skipped(proto: &Proto) -> bool
    ensures { result ≡ is_icmp proto.now }
{
    proto.is_icmp()
}

/// An address of the same family as another. Inlined, as `read_port` is: so what is read is not moved once more.
#[inline(always)]
fn read_beside(other: Addr, text: &[u8]) -> Option<Addr>
    ensures { result ≡ beside other (addr_of text.now) }
{
    parse_addr(text).filter(|addr| other.same_family(*addr))
}

fn read_number(text: &[u8], most: u64) -> Option<u64>
    ensures { result ≡ number_to most text.now }
{
    parse_number(text).filter(|number| *number <= most)
}

fn read_dir(text: &[u8]) -> Option<Dir>
    ensures { result ≡ dir_of text.now }
{
    if text == b"in".as_slice() {
        Some(Dir::In)
    } else if text == b"out".as_slice() {
        Some(Dir::Out)
    } else {
        None
    }
}

#[inline(always)]
fn read_port(proto: &Proto, text: &[u8]) -> Option<u16>
    ensures { result ≡ port_for proto.now text.now }
{
    if proto.has_ports() {
        return match parse_number(text) {
            Some(port) if port <= 65_535 => Some(port as u16),
            _ => None,
        };
    }
    if text.is_empty() { Some(0) } else { None }
}

fn read_flags(proto: &Proto, text: &[u8]) -> Option<Flags>
    ensures { result ≡ flags_for proto.now text.now }
{
    if let Proto::Tcp = proto {
        return parse_flags(text);
    }
    if text.is_empty() {
        Some(Flags::default())
    } else {
        None
    }
}
