//! What a rule translates, as it is written.

ghost use Rattle.std.specs.Prelude.{◌≡◌};
ghost use Rattle.pfs_conf_tokens.specs.TokenResults.{Gives};
ghost use Rattle.pfs_conf_filters.specs.Reading.{address_at, given_ports_at, nat_ports_at, nat_to_at, port_part_at, rdr_to_at, translation_at, with_nat_at, with_rdr_at};

use crate::services::{one_port_part, ports_word};
use pfs_addr::parse_addr;
use pfs_addr_values::Addr;
use pfs_conf_tokens::{Cursor, Key, Refusal, Why, take_value};
use pfs_conf_values::{NatPorts, NatTo, RdrTo, Translation};

/// Reads `nat-to ADDR [port P:Q | port P | static-port]` or `rdr-to ADDR [port P]`, and adds it to what a rule translates already. One that
/// it has is refused as repeated, at its word. (pf.conf(5), TRANSLATION)
///
/// At any other token the cursor stays, and reading stops. It takes no memory.
#[tactic(auto, unfolding(crate::specs::Reading::translation_at))]
pub fn read_translation(
    cursor: &mut Cursor,
    translation: Translation,
) -> Result<Translation, Refusal>
    ensures { Gives result cursor.new (translation_at translation cursor.old) }
{
    match cursor.key() {
        Key::NatTo => {
            if translation.nat_to.is_some() {
                return Err(Refusal::Stop(Why::Again));
            }
            cursor.advance();
            with_nat(cursor, translation)
        }
        Key::RdrTo => {
            if translation.rdr_to.is_some() {
                return Err(Refusal::Stop(Why::Again));
            }
            cursor.advance();
            with_rdr(cursor, translation)
        }
        _ => Err(Refusal::Stop(Why::Plain)),
    }
}

#[tactic(auto, unfolding(crate::specs::Reading::with_nat_at))]
fn with_nat(cursor: &mut Cursor, translation: Translation) -> Result<Translation, Refusal>
    ensures { Gives result cursor.new (with_nat_at translation cursor.old) }
{
    let nat_to = nat_to(cursor)?;
    Ok(Translation {
        nat_to: Some(nat_to),
        ..translation
    })
}

#[tactic(auto, unfolding(crate::specs::Reading::with_rdr_at))]
fn with_rdr(cursor: &mut Cursor, translation: Translation) -> Result<Translation, Refusal>
    ensures { Gives result cursor.new (with_rdr_at translation cursor.old) }
{
    let rdr_to = rdr_to(cursor)?;
    Ok(Translation {
        rdr_to: Some(rdr_to),
        ..translation
    })
}

/// What follows `nat-to`.
#[tactic(auto, unfolding(crate::specs::Reading::nat_to_at))]
fn nat_to(cursor: &mut Cursor) -> Result<NatTo, Refusal>
    ensures { Gives result cursor.new (nat_to_at cursor.old) }
{
    let addr = address(cursor)?;
    let ports = nat_ports(cursor)?;
    Ok(NatTo { addr, ports })
}

#[tactic(auto, unfolding(crate::specs::Reading::nat_ports_at))]
fn nat_ports(cursor: &mut Cursor) -> Result<NatPorts, Refusal>
    ensures { Gives result cursor.new (nat_ports_at cursor.old) }
{
    match cursor.key() {
        Key::Port => {
            cursor.advance();
            given_ports(cursor)
        }
        Key::StaticPort => {
            cursor.advance();
            Ok(NatPorts::Static)
        }
        _ => Ok(NatPorts::Usual),
    }
}

#[tactic(auto, unfolding(crate::specs::Reading::given_ports_at))]
fn given_ports(cursor: &mut Cursor) -> Result<NatPorts, Refusal>
    ensures { Gives result cursor.new (given_ports_at cursor.old) }
{
    let ports = ports_word(cursor)?;
    Ok(NatPorts::Given(ports))
}

/// What follows `rdr-to`.
#[tactic(auto, unfolding(crate::specs::Reading::rdr_to_at))]
fn rdr_to(cursor: &mut Cursor) -> Result<RdrTo, Refusal>
    ensures { Gives result cursor.new (rdr_to_at cursor.old) }
{
    let addr = address(cursor)?;
    let port = one_port_part(cursor)?;
    Ok(RdrTo { addr, port })
}

#[tactic(auto, unfolding(crate::specs::Reading::address_at))]
fn address(cursor: &mut Cursor) -> Result<Addr, Refusal>
    ensures { Gives result cursor.new (address_at cursor.old) }
{
    match cursor.key() {
        Key::Number | Key::Name => {
            let addr = parse_addr(cursor.text());
            take_value(cursor, Why::Host, addr)
        }
        _ => Err(Refusal::Stop(Why::Host)),
    }
}
