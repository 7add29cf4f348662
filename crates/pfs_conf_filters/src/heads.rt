//! What a rule begins with, and the parameters before its hosts.

ghost use Rattle.std.specs.Prelude.{◌≡◌};
ghost use Rattle.pfs_conf_tokens.specs.Reading.{closes_parens, until_all, next_of, on_front};
ghost use Rattle.pfs_conf_tokens.specs.TokenResults.{Gives};
ghost use Rattle.pfs_conf_filters.specs.Reading.{verb_at, policy_at, dir_at, log_item_at, log_list_at, log_at, quick_at, rule_marks_by, marks_at, on_at, on_part_at, family_part_at, head_at};

use crate::phrases::{Head, Marks, Statement, Verb};
use crate::services::proto_part;
use crate::words::interface_name;
use pfs_addr_values::Dir;
use pfs_conf_tokens::{Cursor, Key, Refusal, Why};
use pfs_conf_values::{Family, Interface};

/// Reads what a rule begins with: `pass`, `match`, or `block` with at most one of `drop`, `return`, `return-rst`,
/// `return-icmp` and `return-icmp6`, which has no effect. (pf.conf(5), PACKET FILTERING)
///
/// At any other token the cursor stays, and reading stops. It takes no memory.
#[tactic(auto, unfolding(crate::specs::Reading::verb_at))]
pub fn read_verb(cursor: &mut Cursor) -> Result<Verb, Refusal>
    ensures { Gives result cursor.new (verb_at cursor.old) }
{
    match cursor.key() {
        Key::Pass => {
            cursor.advance();
            Ok(Verb::Pass)
        }
        Key::Block => {
            cursor.advance();
            let has_policy = policy(cursor)?;
            Ok(Verb::Block { has_policy })
        }
        Key::Match => {
            cursor.advance();
            Ok(Verb::Match)
        }
        _ => Err(Refusal::Stop(Why::Statement)),
    }
}

#[tactic(auto, unfolding(crate::specs::Reading::policy_at))]
fn policy(cursor: &mut Cursor) -> Result<bool, Refusal>
    ensures { Gives result cursor.new (policy_at cursor.old) }
{
    match cursor.key() {
        Key::Drop | Key::Return | Key::ReturnRst | Key::ReturnIcmp | Key::ReturnIcmp6 => {
            cursor.advance();
            Ok(true)
        }
        _ => Ok(false),
    }
}

/// The parameters before the hosts.
#[tactic(auto, unfolding(crate::specs::Reading::head_at))]
pub fn head(cursor: &mut Cursor, statement: Statement) -> Result<Head, Refusal>
    ensures { Gives result cursor.new (head_at statement cursor.old) }
{
    let dir = dir(cursor)?;
    let marks = marks(cursor, statement)?;
    let on = on_part(cursor)?;
    let family = family_part(cursor)?;
    let proto = proto_part(cursor)?;
    Ok(Head {
        dir,
        marks,
        on,
        family,
        proto,
    })
}

#[tactic(auto, unfolding(crate::specs::Reading::dir_at))]
fn dir(cursor: &mut Cursor) -> Result<Option<Dir>, Refusal>
    ensures { Gives result cursor.new (dir_at cursor.old) }
{
    match cursor.key() {
        Key::In => {
            cursor.advance();
            Ok(Some(Dir::In))
        }
        Key::Out => {
            cursor.advance();
            Ok(Some(Dir::Out))
        }
        _ => Ok(None),
    }
}

/// `log` and `quick`: of a rule in either order, of a `match` rule `log` alone, of an anchor `quick` alone.
#[tactic(auto, unfolding(crate::specs::Reading::marks_at))]
fn marks(cursor: &mut Cursor, statement: Statement) -> Result<Marks, Refusal>
    ensures { Gives result cursor.new (marks_at statement cursor.old) }
{
    match statement {
        Statement::Rule => rule_marks(cursor),
        Statement::Match => {
            let log = log(cursor)?;
            Ok(Marks { log, quick: false })
        }
        Statement::Anchor => {
            let quick = quick(cursor)?;
            Ok(Marks { log: false, quick })
        }
    }
}

fn rule_marks(cursor: &mut Cursor) -> Result<Marks, Refusal>
    ensures { Gives result cursor.new (on_front (λ t. rule_marks_by t.key) cursor.old) }
{
    if cursor.take(Key::Quick) {
        let log = log(cursor)?;
        return Ok(Marks { log, quick: true });
    }
    let log = log(cursor)?;
    let quick = quick(cursor)?;
    Ok(Marks { log, quick })
}

#[tactic(auto, unfolding(crate::specs::Reading::quick_at))]
fn quick(cursor: &mut Cursor) -> Result<bool, Refusal>
    ensures { Gives result cursor.new (quick_at cursor.old) }
{
    Ok(cursor.take(Key::Quick))
}

/// `log` with its list, if present.
#[tactic(auto, unfolding(crate::specs::Reading::log_at))]
fn log(cursor: &mut Cursor) -> Result<bool, Refusal>
    ensures { Gives result cursor.new (log_at cursor.old) }
{
    if cursor.take(Key::Log) {
        log_list(cursor)?;
        Ok(true)
    } else {
        Ok(false)
    }
}

#[tactic(auto, unfolding(crate::specs::Reading::log_list_at))]
fn log_list(cursor: &mut Cursor) -> Result<(), Refusal>
    ensures { Gives result cursor.new (log_list_at cursor.old) }
{
    if cursor.take(Key::OpenParen) {
        log_item(cursor)?;
        more_log_items(cursor)
    } else {
        Ok(())
    }
}

fn more_log_items(cursor: &mut Cursor) -> Result<(), Refusal>
    ensures { Gives result cursor.new (until_all closes_parens (next_of log_item_at) tt cursor.old) }
{
    while !cursor.is_at_close_paren() {
        next_log_item(cursor)?;
    }
    cursor.advance();
    Ok(())
}

fn next_log_item(cursor: &mut Cursor) -> Result<(), Refusal>
    ensures { Gives result cursor.new (next_of log_item_at tt cursor.old) }
{
    cursor.take(Key::Comma);
    log_item(cursor)
}

#[tactic(auto, unfolding(crate::specs::Reading::log_item_at))]
fn log_item(cursor: &mut Cursor) -> Result<(), Refusal>
    ensures { Gives result cursor.new (log_item_at tt cursor.old) }
{
    match cursor.key() {
        Key::All | Key::Matches | Key::User => {
            cursor.advance();
            Ok(())
        }
        Key::To => {
            cursor.advance();
            interface_name(cursor)?;
            Ok(())
        }
        _ => Err(Refusal::Stop(Why::Plain)),
    }
}

/// `on [!] IF`, if present.
#[tactic(auto, unfolding(crate::specs::Reading::on_part_at))]
fn on_part(cursor: &mut Cursor) -> Result<Option<Interface>, Refusal>
    ensures { Gives result cursor.new (on_part_at cursor.old) }
{
    if cursor.take(Key::On) {
        Ok(Some(interface(cursor)?))
    } else {
        Ok(None)
    }
}

#[tactic(auto, unfolding(crate::specs::Reading::on_at, crate::specs::Reading::negation_at))]
fn interface(cursor: &mut Cursor) -> Result<Interface, Refusal>
    ensures { Gives result cursor.new (on_at cursor.old) }
{
    let negated = cursor.take(Key::Not);
    let name = interface_name(cursor)?;
    Ok(Interface { name, negated })
}

/// `inet` or `inet6`, if present.
#[tactic(auto, unfolding(crate::specs::Reading::family_part_at))]
fn family_part(cursor: &mut Cursor) -> Result<Option<Family>, Refusal>
    ensures { Gives result cursor.new (family_part_at cursor.old) }
{
    match cursor.key() {
        Key::Inet => {
            cursor.advance();
            Ok(Some(Family::Inet))
        }
        Key::Inet6 => {
            cursor.advance();
            Ok(Some(Family::Inet6))
        }
        _ => Ok(None),
    }
}
