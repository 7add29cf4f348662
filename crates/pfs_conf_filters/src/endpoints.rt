//! Hosts and their ports, and the parameters as a whole.

ghost use Rattle.std.specs.Prelude.{◌≡◌};
ghost use Rattle.pfs_conf_tokens.specs.TokenResults.{Gives};
ghost use Rattle.pfs_conf_filters.specs.Reading.{place_at, host_at, side_host_at, side_at, from_part_at, to_part_at, hosts_at, parameters_at};

use crate::heads::head;
use crate::phrases::{Hosts, Parameters, Statement};
use crate::services::ports_part;
use pfs_addr::parse_prefix;
use pfs_conf_tokens::{Cursor, Key, Refusal, Why, table_name, take_value};
use pfs_conf_values::{Host, Side, TableName};

/// Reads the parameters of a rule, after its action, or of an anchor, after its name, up to its hosts:
/// `[in | out] [log] [quick] [on [!] IF] [inet] [proto PROTO] (all | [from HOST] [to HOST])`. Each part may be absent,
/// and occurs at most once, in this order; but in a rule `log` may also come after `quick`. An anchor has no `log`. The
/// tokens after them are left. (pf.conf(5), PARAMETERS and GRAMMAR)
///
/// Where a word after `on`, `proto`, `port`, `from` or `to`, or in the list after `log`, is not what is asked for
/// there, the cursor stays at it, and reading stops. It takes no memory.
#[tactic(auto, unfolding(crate::specs::Reading::parameters_at))]
pub fn read_parameters(cursor: &mut Cursor, statement: Statement) -> Result<Parameters, Refusal>
    ensures { Gives result cursor.new (parameters_at statement cursor.old) }
{
    let head = head(cursor, statement)?;
    let hosts = hosts(cursor)?;
    Ok(Parameters { head, hosts })
}

/// `all`, or `from` and `to` with what follows them, each of which may be absent.
#[tactic(auto, unfolding(crate::specs::Reading::hosts_at))]
fn hosts(cursor: &mut Cursor) -> Result<Hosts, Refusal>
    ensures { Gives result cursor.new (hosts_at cursor.old) }
{
    if cursor.take(Key::All) {
        return Ok(Hosts {
            all: true,
            from: None,
            to: None,
        });
    }
    let from = from_part(cursor)?;
    let to = to_part(cursor)?;
    Ok(Hosts {
        all: false,
        from,
        to,
    })
}

#[tactic(auto, unfolding(crate::specs::Reading::from_part_at))]
fn from_part(cursor: &mut Cursor) -> Result<Option<Side<TableName>>, Refusal>
    ensures { Gives result cursor.new (from_part_at cursor.old) }
{
    if cursor.take(Key::From) {
        Ok(Some(side(cursor)?))
    } else {
        Ok(None)
    }
}

#[tactic(auto, unfolding(crate::specs::Reading::to_part_at))]
fn to_part(cursor: &mut Cursor) -> Result<Option<Side<TableName>>, Refusal>
    ensures { Gives result cursor.new (to_part_at cursor.old) }
{
    if cursor.take(Key::To) {
        Ok(Some(side(cursor)?))
    } else {
        Ok(None)
    }
}

/// A host with or without ports, or ports alone.
#[tactic(auto, unfolding(crate::specs::Reading::side_at))]
fn side(cursor: &mut Cursor) -> Result<Side<TableName>, Refusal>
    ensures { Gives result cursor.new (side_at cursor.old) }
{
    let host = side_host(cursor)?;
    let ports = ports_part(cursor)?;
    Ok(Side { host, ports })
}

#[tactic(auto, unfolding(crate::specs::Reading::side_host_at))]
fn side_host(cursor: &mut Cursor) -> Result<Host<TableName>, Refusal>
    ensures { Gives result cursor.new (side_host_at cursor.old) }
{
    match cursor.key() {
        Key::Port => Ok(Host::Any),
        _ => host(cursor),
    }
}

/// `any`, or a prefix or a table with or without `!`.
#[tactic(auto, unfolding(crate::specs::Reading::host_at, crate::specs::Reading::negation_at))]
fn host(cursor: &mut Cursor) -> Result<Host<TableName>, Refusal>
    ensures { Gives result cursor.new (host_at cursor.old) }
{
    if cursor.take(Key::Any) {
        return Ok(Host::Any);
    }
    let negated = cursor.take(Key::Not);
    place(cursor, negated)
}

#[tactic(auto, unfolding(crate::specs::Reading::place_at, crate::specs::Reading::close_at))]
fn place(cursor: &mut Cursor, negated: bool) -> Result<Host<TableName>, Refusal>
    ensures { Gives result cursor.new (place_at negated cursor.old) }
{
    match cursor.key() {
        Key::OpenAngle => {
            cursor.advance();
            let table = table_name(cursor)?;
            cursor.expect(Key::CloseAngle)?;
            Ok(Host::Table { table, negated })
        }
        Key::Number | Key::Name => {
            let prefix = parse_prefix(cursor.text());
            let prefix = take_value(cursor, Why::Host, prefix)?;
            Ok(Host::Prefix { prefix, negated })
        }
        _ => Err(Refusal::Stop(Why::Host)),
    }
}
