//! Protocols and ports.

ghost use Rattle.std.specs.Prelude.{◌≡◌, ◌<◌};
ghost use Rattle.pfs_conf_tokens.specs.TokenResults.{Gives};
ghost use Rattle.pfs_conf_tokens.specs.Words.{key_of_text};
ghost use Rattle.pfs_conf_tokens.specs.Numbers.{number_written};
ghost use Rattle.pfs_conf_filters.specs.Values.{port_of, port_by, port_numbered, one_port, port_range, ports_of};
ghost use Rattle.pfs_conf_filters.specs.Reading.{port_at, port_part_at, proto_at, proto_part_at, ports_at, ports_part_at};
ghost use Rattle.pfs_conf_tokens.specs.Values.{in_word, value_at};
ghost use Rattle.pfs_conf_tokens.specs.declared.refusals.Why.TheVariants as why;

use pfs_addr::parse_proto;
use pfs_addr_values::Proto;
use pfs_conf_tokens::{Cursor, Key, Refusal, Why, digits, key_of, split_at_byte, take_value};
use pfs_conf_values::Ports;

/// `proto PROTO`, if present.
#[tactic(auto, unfolding(crate::specs::Reading::proto_part_at))]
pub fn proto_part(cursor: &mut Cursor) -> Result<Option<Proto>, Refusal>
    ensures { Gives result cursor.new (proto_part_at cursor.old) }
{
    if cursor.take(Key::Proto) {
        Ok(Some(proto(cursor)?))
    } else {
        Ok(None)
    }
}

#[tactic(auto, unfolding(crate::specs::Reading::proto_at))]
fn proto(cursor: &mut Cursor) -> Result<Proto, Refusal>
    ensures { Gives result cursor.new (proto_at cursor.old) }
{
    if !cursor.key().is_word() {
        return Err(Refusal::Stop(Why::Service));
    }
    let proto = parse_proto(cursor.text());
    take_value(cursor, Why::Service, proto)
}

/// `port [=] PORT`, if present.
#[tactic(auto, unfolding(crate::specs::Reading::ports_part_at))]
pub fn ports_part(cursor: &mut Cursor) -> Result<Option<Ports>, Refusal>
    ensures { Gives result cursor.new (ports_part_at cursor.old) }
{
    if cursor.take(Key::Port) {
        Ok(Some(ports(cursor)?))
    } else {
        Ok(None)
    }
}

#[tactic(auto, unfolding(crate::specs::Reading::ports_at, crate::specs::Reading::equals_at))]
fn ports(cursor: &mut Cursor) -> Result<Ports, Refusal>
    ensures { Gives result cursor.new (ports_at cursor.old) }
{
    cursor.take(Key::Equals);
    ports_word(cursor)
}

/// `PORT`: one port, or those from one to another.
pub fn ports_word(cursor: &mut Cursor) -> Result<Ports, Refusal>
    ensures { Gives result cursor.new (value_at why.Service (in_word ports_of) cursor.old) }
{
    if !cursor.key().is_word() {
        return Err(Refusal::Stop(Why::Service));
    }
    let ports = parse_ports(cursor.text());
    take_value(cursor, Why::Service, ports)
}

/// `port P`, if present.
#[tactic(auto, unfolding(crate::specs::Reading::port_part_at))]
pub fn one_port_part(cursor: &mut Cursor) -> Result<Option<u16>, Refusal>
    ensures { Gives result cursor.new (port_part_at cursor.old) }
{
    if cursor.take(Key::Port) {
        Ok(Some(port(cursor)?))
    } else {
        Ok(None)
    }
}

#[tactic(auto, unfolding(crate::specs::Reading::port_at))]
fn port(cursor: &mut Cursor) -> Result<u16, Refusal>
    ensures { Gives result cursor.new (port_at cursor.old) }
{
    if !cursor.key().is_word() {
        return Err(Refusal::Stop(Why::Service));
    }
    let port = parse_port(cursor.text());
    take_value(cursor, Why::Service, port)
}

/// The ports that a word says: P, or P:Q for those from P to Q.
#[tactic(auto, unfolding(crate::specs::Values::ports_of))]
fn parse_ports(text: &[u8]) -> Option<Ports>
    ensures { result ≡ ports_of text.now }
{
    match split_at_byte(text, b':') {
        Some((low, high)) => port_range(parse_port(low), parse_port(high)),
        None => one_port(parse_port(text)),
    }
}

fn one_port(port: Option<u16>) -> Option<Ports>
    ensures { result ≡ one_port port }
{
    let port = port?;
    Some(Ports {
        low: port,
        high: port,
    })
}

fn port_range(low: Option<u16>, high: Option<u16>) -> Option<Ports>
    ensures { result ≡ port_range low high }
{
    let (low, high) = (low?, high?);
    if low <= high {
        Some(Ports { low, high })
    } else {
        None
    }
}

/// The port that a word, or an end of one, says. (services(5), of which this profile knows six names)
#[tactic(auto, unfolding(crate::specs::Values::port_of))]
fn parse_port(text: &[u8]) -> Option<u16>
    ensures { result ≡ port_of text.now }
{
    match key_of(text) {
        Key::Ssh => Some(22),
        Key::Smtp => Some(25),
        Key::Domain => Some(53),
        Key::Www | Key::Http => Some(80),
        Key::Https => Some(443),
        Key::Number => port_numbered(digits(text)),
        _ => None,
    }
}

fn port_numbered(number: Option<u64>) -> Option<u16>
    ensures { result ≡ port_numbered number }
{
    match number {
        Some(number) if number < 65536 => Some(number as u16),
        _ => None,
    }
}
