//! Cases as texts: the trace of what comes, and the report that the rows tell.

use super::runs::{tell_joined, tell_over_stores};
use pfs_addr_values::Addr;
use pfs_tests_cases::{Case, CaseRow, HEADER, RowEvent};
use std::process::Abort;
use std::test::Fail;

/// The rules, the records after the header, and the report.
#[derive(Clone, Copy)]
pub struct Texts<'a> {
    pub rules: &'a str,
    pub trace: &'a str,
    pub report: &'a str,
}

/// The address of a source of IPv4, as a trace writes it.
fn write_source(text: &mut String, source: Addr) -> Result<(), Fail> {
    let octets = octets_of(source)?;
    let (a, b) = (octets[0], octets[1]);
    let (c, d) = (octets[2], octets[3]);
    write!(text, "{a}.{b}.{c}.{d}")?;
    Ok(())
}

fn octets_of(source: Addr) -> Result<[u8; 4], Fail> {
    match source {
        Addr::V4(octets) => Ok(octets),
        Addr::V6(_) => Err("no source of IPv4".into()),
    }
}

/// A record of what the source sends, from its port to one of the server.
fn write_sent(
    trace: &mut String,
    row: &CaseRow,
    proto: &str,
    to: u16,
    flags: &str,
) -> Result<(), Fail> {
    let (time, _, source, port, _) = *row;
    write!(trace, "{time},in,em0,{proto},")?;
    write_source(trace, source)?;
    write!(trace, ",{port},192.0.2.1,{to},{flags}\n")?;
    Ok(())
}

/// A record of the server's answer to the first packet of a handshake.
fn write_answer(trace: &mut String, row: &CaseRow) -> Result<(), Fail> {
    let (time, _, source, port, _) = *row;
    write!(trace, "{time},out,em0,tcp,192.0.2.1,80,")?;
    write_source(trace, source)?;
    write!(trace, ",{port},SA\n")?;
    Ok(())
}

fn write_records(trace: &mut String, row: &CaseRow) -> Result<(), Fail> {
    let time = row.0;
    match row.1 {
        RowEvent::Udp(to) => write_sent(trace, row, "udp", to, ""),
        RowEvent::Syn => write_sent(trace, row, "tcp", 80, "S"),
        RowEvent::SynAck => write_answer(trace, row),
        RowEvent::Ack => write_sent(trace, row, "tcp", 80, "A"),
        RowEvent::Fin => write_sent(trace, row, "tcp", 80, "FA"),
        RowEvent::Reset => write_sent(trace, row, "tcp", 80, "R"),
        RowEvent::Shake(_) => {
            write_sent(trace, row, "tcp", 80, "S")?;
            write_answer(trace, row)?;
            write_sent(trace, row, "tcp", 80, "A")
        }
        RowEvent::Ping => {
            write!(trace, "{time},in,em0,icmp,198.51.100.1,,192.0.2.1,,\n")?;
            Ok(())
        }
        RowEvent::Expire(seconds) => {
            write!(trace, "{time},expire,bad,,,{seconds},,,\n")?;
            Ok(())
        }
        RowEvent::Add(table, entry) => {
            write!(trace, "{time},add,{table},,{entry},,,,\n")?;
            Ok(())
        }
        RowEvent::Delete(table, entry) => {
            write!(trace, "{time},delete,{table},,{entry},,,,\n")?;
            Ok(())
        }
        RowEvent::Kill(from, to) => {
            write!(trace, "{time},kill,,,{from},,{to},,\n")?;
            Ok(())
        }
        RowEvent::Ask => {
            write!(trace, "{time},held,,,,,,,\n")?;
            Ok(())
        }
    }
}

/// The lines of a row, of which the first has this number, and the number of the next line.
fn write_lines(report: &mut String, number: u64, row: &CaseRow) -> Result<u64, Fail> {
    let mut number = number;
    if let RowEvent::Shake(rule) = row.1 {
        write!(
            report,
            "{number} new @{rule}\n{} state @{rule}\n",
            number.saturating_add(1)
        )?;
        number = number.saturating_add(2);
    }
    write!(report, "{number} {}\n", row.4)?;
    Ok(number.saturating_add(1))
}

/// The report of these rules and of this trace, from two texts, over each kind of store, and from one text.
pub fn tell_texts(rt: &(impl Abort + AllocGlobal), texts: &Texts) -> Result<(), Fail> {
    let rules = format!(in rt.alloc(); "{}\n", texts.rules)?;
    let trace = format!(in rt.alloc(); "{HEADER}{}", texts.trace)?;
    let report = texts.report.as_bytes();
    tell_over_stores(rt, rules.as_bytes(), trace.as_bytes(), Ok(()), report)?;
    let joined = format!(in rt.alloc(); "{rules}%%\n{trace}")?;
    tell_joined(rt, joined.as_bytes(), Ok(()), report);
    Ok(())
}

/// The report of a case, after a first line of rules.
fn tell(rt: &(impl Abort + AllocGlobal), first: &str, case: &Case) -> Result<(), Fail> {
    let mut trace = String::new(rt.alloc());
    let mut report = String::new(rt.alloc());
    let mut number = 1;
    for row in case.rows {
        write_records(&mut trace, row)?;
        number = write_lines(&mut report, number, row)?;
    }
    let (states, nodes, entries) = case.end;
    let rows = number.saturating_sub(1);
    write!(
        report,
        "end rows={rows} states={states} nodes={nodes} entries={entries}\n"
    )?;
    let rules = format!(in rt.alloc(); "{first}{}", case.rules)?;
    tell_texts(
        rt,
        &Texts {
            rules: &rules,
            trace: &trace,
            report: &report,
        },
    )
}

/// The report of each case, after a first line of rules.
pub fn tell_each(rt: &(impl Abort + AllocGlobal), first: &str, cases: &[Case]) -> Result<(), Fail> {
    for case in cases {
        tell(rt, first, case)?;
    }
    Ok(())
}
