//! The lines of a report.

ghost use Rattle.std.specs.Prelude.{◌≡◌, ◌++◌, OnOk, codes, decimal};
ghost use Rattle.pfs_cli_formats.specs.Lines.{amounts_text, end_text, entered_word, outcome_text, overload_word, row_text, second_text};
ghost use Rattle.pfs_cli_formats.specs.Words.{lead_of, note_text, number_text, rule_by};

use pfs_conf_values::RuleNo;
use pfs_engine_machine::{Added, Amounts, Entered, Exceeded, Outcome, Way};
use pfs_numbers::push_number;
use pfs_store_contract::Limit;
use std::alloc::AllocError;

/// The last line of a report: how many records there were, and what is held after them.
#[derive(Clone, Copy)]
pub struct EndLine {
    /// The records after the header.
    pub rows: u64,
    /// How much is held.
    pub held: Amounts,
}

/// Appends the line of a record: its row, what the machine did with it, and by which rule; and behind a `>` what it did with the
/// packet where that leaves, if it went so far. It fails where memory was refused; a part of the line may have been appended then.
#[tactic(auto, using(crate::proofs::Rows::row_parted))]
pub fn push_way(out: &mut Vec<u8>, row: u64, way: &Way) -> Result<(), AllocError>
    ensures { OnOk result (out.new.items ≡ out.old.items ++ row_text row way.now) }
{
    push_number(out, row)?;
    push_outcome(out, &way.first)?;
    push_second(out, &way.second)?;
    out.extend_from_slice(b"\n")
}

/// Appends what came of a packet where it leaves, if it went so far.
fn push_second(out: &mut Vec<u8>, second: &Option<Outcome>) -> Result<(), AllocError>
    ensures { OnOk result (out.new.items ≡ out.old.items ++ second_text second.now) }
{
    match second {
        Some(outcome) => {
            out.extend_from_slice(b" >")?;
            push_outcome(out, outcome)
        }
        None => Ok(()),
    }
}

/// Appends a space, what the machine did, and by which rule.
#[tactic(auto, using(crate::proofs::Rows::parted))]
fn push_outcome(out: &mut Vec<u8>, outcome: &Outcome) -> Result<(), AllocError>
    ensures { OnOk result (out.new.items ≡ out.old.items ++ (codes " " ++ outcome_text outcome.now)) }
{
    out.extend_from_slice(lead(outcome).as_bytes())?;
    push_rule(out, rule(outcome))?;
    push_note(out, outcome)
}

/// Appends the last line. It fails where memory was refused; a part of the line may have been appended then.
pub fn push_end(out: &mut Vec<u8>, end: &EndLine) -> Result<(), AllocError>
    ensures { OnOk result (out.new.items ≡ out.old.items ++ end_text end.now.rows end.now.held.states end.now.held.nodes end.now.held.entries) }
{
    push_named(out, b"end rows=", end.rows)?;
    push_amounts(out, &end.held)?;
    out.extend_from_slice(b"\n")
}

/// How much is held, after a space.
fn push_amounts(out: &mut Vec<u8>, held: &Amounts) -> Result<(), AllocError>
    ensures { OnOk result (out.new.items ≡ out.old.items ++ (codes " " ++ amounts_text held.now.states held.now.nodes held.now.entries)) }
{
    push_named(out, b" states=", held.states)?;
    push_named(out, b" nodes=", held.nodes)?;
    push_named(out, b" entries=", held.entries)
}

fn push_named(out: &mut Vec<u8>, name: &[u8], number: u64) -> Result<(), AllocError>
    ensures { OnOk result (out.new.items ≡ out.old.items ++ (name.now ++ decimal number)) }
{
    out.extend_from_slice(name)?;
    push_number(out, number)
}

/// The number of a rule, after the `@` of its line.
fn push_rule(out: &mut Vec<u8>, rule: Option<RuleNo>) -> Result<(), AllocError>
    ensures { OnOk result (out.new.items ≡ out.old.items ++ number_text rule) }
{
    match rule {
        Some(RuleNo(number)) => push_number(out, u64::from(number)),
        None => Ok(()),
    }
}

/// What follows on a line of killed states, of a command, and of a question; nothing on any other.
fn push_note(out: &mut Vec<u8>, outcome: &Outcome) -> Result<(), AllocError>
    ensures { OnOk result (out.new.items ≡ out.old.items ++ note_text outcome.now) }
{
    match *outcome {
        Outcome::Kill {
            overload,
            killed,
            ..
        } => {
            out.extend_from_slice(b" overload=")?;
            out.extend_from_slice(overload_name(overload).as_bytes())?;
            out.extend_from_slice(b" killed=")?;
            push_number(out, killed)
        }
        Outcome::Expire(removed) | Outcome::Delete(removed) => push_named(
            out,
            b" removed=",
            removed,
        ),
        Outcome::Add(became) => out.extend_from_slice(entered_name(became).as_bytes()),
        Outcome::Killed(killed) => push_named(out, b" killed=", killed),
        Outcome::HeldAnswer(held) => push_amounts(out, &held),
        _ => Ok(()),
    }
}

fn overload_name(overload: Option<Added>) -> &'static str
    ensures { result.now ≡ overload_word overload }
{
    match overload {
        Some(Added::New) => "added",
        Some(Added::AlreadyThere) => "held",
        Some(Added::Full) => "full",
        None => "none",
    }
}

fn entered_name(became: Entered) -> &'static str
    ensures { result.now ≡ codes " " ++ entered_word became }
{
    match became {
        Entered::New => " added",
        Entered::AlreadyThere => " held",
        Entered::Conflict => " conflict",
        Entered::Full => " full",
    }
}

fn rule(outcome: &Outcome) -> Option<RuleNo>
    ensures { result ≡ rule_by outcome.now }
{
    match *outcome {
        Outcome::State(rule)
        | Outcome::New(rule)
        | Outcome::Answered(rule)
        | Outcome::Taken(rule)
        | Outcome::Asking(rule)
        | Outcome::Block(rule)
        | Outcome::Lost(rule)
        | Outcome::Drop(rule, _)
        | Outcome::Conflict(rule)
        | Outcome::Kill { rule, .. } => Some(rule),
        Outcome::Pass(rule) | Outcome::Stateless(rule) => rule,
        Outcome::Cookie
        | Outcome::Skip
        | Outcome::Expire(_)
        | Outcome::Add(_)
        | Outcome::Delete(_)
        | Outcome::Killed(_)
        | Outcome::HeldAnswer(_) => None,
    }
}

/// What is between the row and the number of the rule: the word, and `@`, or `-` where there is no rule.
fn lead(outcome: &Outcome) -> &'static str
    ensures { result.now ≡ lead_of outcome.now }
{
    match *outcome {
        Outcome::State(_) => " state @",
        Outcome::New(_) => " new @",
        Outcome::Answered(_) | Outcome::Taken(_) | Outcome::Asking(_) => " proxy @",
        Outcome::Pass(Some(_)) => " pass @",
        Outcome::Pass(None) => " pass -",
        Outcome::Cookie => " cookie -",
        Outcome::Stateless(Some(_)) => " drop:cookie @",
        Outcome::Stateless(None) => " drop:cookie -",
        Outcome::Block(_) => " block @",
        Outcome::Lost(_) => " drop:translate @",
        Outcome::Drop(_, Limit::Max) => " drop:max @",
        Outcome::Drop(_, Limit::MaxSrcNodes) => " drop:max-src-nodes @",
        Outcome::Drop(_, Limit::SrcNodes) => " drop:src-nodes @",
        Outcome::Drop(_, Limit::MaxSrcStates) => " drop:max-src-states @",
        Outcome::Drop(_, Limit::States) => " drop:states @",
        Outcome::Conflict(_) => " drop:state-insert @",
        Outcome::Kill {
            exceeded: Exceeded::Connections,
            ..
        } => " kill:max-src-conn @",
        Outcome::Kill {
            exceeded: Exceeded::Rate,
            ..
        } => " kill:max-src-conn-rate @",
        Outcome::Kill {
            exceeded: Exceeded::Both,
            ..
        } => " kill:max-src-conn+max-src-conn-rate @",
        Outcome::Skip => " skip -",
        Outcome::Expire(_) => " expire -",
        Outcome::Add(_) => " add -",
        Outcome::Delete(_) => " delete -",
        Outcome::Killed(_) => " kill -",
        Outcome::HeldAnswer(_) => " held -",
    }
}
