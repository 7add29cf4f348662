//! The events of a case, with their outcomes.

use crate::errors::{CaseError, grown};
use crate::outcomes::outcome_of;
use crate::packets::{ACK, FIN_ACK, RST, SYN, SYN_ACK, Sent, packet};
use crate::rows::{CaseRow, RowEvent};
use pfs_addr::parse_prefix;
use pfs_addr_values::{Addr, Prefix};
use pfs_conf_values::{RuleNo, TableNo};
use pfs_engine_machine::{Arrival, Command, Event, FromTo, Outcome, TableEntry};
use std::alloc::Global;

/// Events, and what the machine makes of them.
#[derive(Drop)]
pub struct Script {
    /// How many of the events are packets.
    pub packets: u64,
    pub events: Vec<Event>,
    pub outcomes: Vec<Outcome>,
}

impl Script {
    /// The script of some rows.
    pub fn of(alloc: Global, rows: &[CaseRow]) -> Result<Script, CaseError> {
        let mut script = Script {
            packets: 0,
            events: Vec::new(alloc),
            outcomes: Vec::new(alloc),
        };
        for row in rows {
            script.add(row)?;
        }
        Ok(script)
    }

    fn add(&mut self, row: &CaseRow) -> Result<(), CaseError> {
        let (time, came, source, port, words) = *row;
        let outcome = outcome_of(words)?;
        let sent = match came {
            RowEvent::Udp(to) => Sent::Udp(to),
            RowEvent::Syn => Sent::Tcp(80, SYN),
            RowEvent::SynAck => Sent::Answer(SYN_ACK),
            RowEvent::Ack => Sent::Tcp(80, ACK),
            RowEvent::Fin => Sent::Tcp(80, FIN_ACK),
            RowEvent::Reset => Sent::Tcp(80, RST),
            RowEvent::Ping => return self.put(time, Arrival::Skip, outcome),
            RowEvent::Ask => return self.put(time, Arrival::HeldQuery, outcome),
            RowEvent::Kill(from, to) => {
                return self.put(time, Arrival::Kill(hosts(from, to)?), outcome);
            }
            RowEvent::Expire(seconds) => {
                return self.command(time, "bad", Command::Expire(seconds), outcome);
            }
            RowEvent::Add(table, text) => {
                return self.command(time, table, Command::Add(entry(text)?), outcome);
            }
            RowEvent::Delete(table, text) => {
                return self.command(time, table, Command::Delete(entry(text)?), outcome);
            }
            RowEvent::Shake(rule) => {
                self.begin_handshake(time, source, port, RuleNo(rule))?;
                Sent::Tcp(80, ACK)
            }
        };
        self.send(time, &sent, source, port, outcome)
    }

    /// The administrator does something to the first table, which is `<bad>`, or to the second one.
    fn command(
        &mut self,
        time: u64,
        name: &str,
        command: Command,
        outcome: Outcome,
    ) -> Result<(), CaseError> {
        let table = TableNo(if name == "bad" { 0 } else { 1 });
        self.put(time, Arrival::Table { table, command }, outcome)
    }

    /// The first packet of a handshake and the server's answer.
    fn begin_handshake(
        &mut self,
        time: u64,
        source: Addr,
        port: u16,
        rule: RuleNo,
    ) -> Result<(), CaseError> {
        self.send(time, &Sent::Tcp(80, SYN), source, port, Outcome::New(rule))?;
        self.send(
            time,
            &Sent::Answer(SYN_ACK),
            source,
            port,
            Outcome::State(rule),
        )
    }

    fn send(
        &mut self,
        time: u64,
        sent: &Sent,
        source: Addr,
        port: u16,
        outcome: Outcome,
    ) -> Result<(), CaseError> {
        self.packets = self.packets.saturating_add(1);
        let packet = packet(sent, source, port)?;
        self.put(time, Arrival::Packet(packet), outcome)
    }

    fn put(&mut self, time: u64, what: Arrival, outcome: Outcome) -> Result<(), CaseError> {
        grown(self.events.extend_from_slice(&[Event { time, what }]))?;
        grown(self.outcomes.push(outcome))
    }
}

/// Hosts as a record writes them: those of a prefix, and those of another one, or any where it is empty.
pub fn hosts(from: &str, to: &str) -> Result<FromTo, CaseError> {
    let from = prefix(from)?;
    let to = if to.is_empty() {
        None
    } else {
        Some(prefix(to)?)
    };
    Ok(FromTo { from, to })
}

fn prefix(text: &str) -> Result<Prefix, CaseError> {
    parse_prefix(text.as_bytes()).ok_or(CaseError::Unreadable)
}

/// An entry as a record writes it: a prefix, directly behind a `!` where it is negated.
pub fn entry(text: &str) -> Result<TableEntry, CaseError> {
    match text.strip_prefix("!") {
        Some(text) => signed(text, true),
        None => signed(text, false),
    }
}

fn signed(text: &str, negated: bool) -> Result<TableEntry, CaseError> {
    let prefix = prefix(text)?;
    Ok(TableEntry { prefix, negated })
}
