//! The words of a report, read as outcomes.

use crate::errors::CaseError;
use pfs_conf_values::RuleNo;
use pfs_engine_machine::{Added, Amounts, Entered, Exceeded, Outcome};
use pfs_store_contract::Limit;

/// The outcome that a line of a report tells, of its words behind the number of the line; an error where there is no such line. What a
/// report calls `proxy` is `proxy:new` here where it made a state, and `proxy:asks` where pf asks the other peer for a connection.
pub fn outcome_of(words: &str) -> Result<Outcome, CaseError> {
    read(words).ok_or(CaseError::Unreadable)
}

fn read(words: &str) -> Option<Outcome> {
    let (word, rest) = words.split_once(" ")?;
    match word {
        "skip" => Some(Outcome::Skip),
        "expire" => Some(Outcome::Expire(removed(rest)?)),
        "delete" => Some(Outcome::Delete(removed(rest)?)),
        "add" => Some(Outcome::Add(entered(rest)?)),
        "kill" => Some(Outcome::Killed(number(rest.strip_prefix("- killed=")?)?)),
        "held" => Some(Outcome::HeldAnswer(amounts(rest)?)),
        "pass" => Some(Outcome::Pass(rule_or_none(rest)?)),
        "cookie" if rest == "-" => Some(Outcome::Cookie),
        "drop:cookie" => Some(Outcome::Stateless(rule_or_none(rest)?)),
        "state" => Some(Outcome::State(rule(rest)?)),
        "new" => Some(Outcome::New(rule(rest)?)),
        "proxy" => Some(Outcome::Taken(rule(rest)?)),
        "proxy:asks" => Some(Outcome::Asking(rule(rest)?)),
        "proxy:new" => Some(Outcome::Answered(rule(rest)?)),
        "block" => Some(Outcome::Block(rule(rest)?)),
        "drop:translate" => Some(Outcome::Lost(rule(rest)?)),
        "drop:state-insert" => Some(Outcome::Conflict(rule(rest)?)),
        _ => match word.strip_prefix("drop:") {
            Some(word) => Some(Outcome::Drop(rule(rest)?, limit(word)?)),
            None => kill(word, rest),
        },
    }
}

fn removed(rest: &str) -> Option<u64> {
    number(rest.strip_prefix("- removed=")?)
}

fn entered(rest: &str) -> Option<Entered> {
    match rest {
        "- added" => Some(Entered::New),
        "- held" => Some(Entered::AlreadyThere),
        "- conflict" => Some(Entered::Conflict),
        "- full" => Some(Entered::Full),
        _ => None,
    }
}

fn amounts(rest: &str) -> Option<Amounts> {
    let (states, rest) = rest.strip_prefix("- states=")?.split_once(" nodes=")?;
    let (nodes, entries) = rest.split_once(" entries=")?;
    Some(Amounts {
        states: number(states)?,
        nodes: number(nodes)?,
        entries: number(entries)?,
    })
}

fn kill(word: &str, rest: &str) -> Option<Outcome> {
    let (place, notes) = rest.split_once(" overload=")?;
    let (added, killed) = notes.split_once(" killed=")?;
    Some(Outcome::Kill {
        rule: rule(place)?,
        exceeded: exceeded(word)?,
        overload: overload(added)?,
        killed: number(killed)?,
    })
}

fn exceeded(word: &str) -> Option<Exceeded> {
    match word {
        "kill:max-src-conn" => Some(Exceeded::Connections),
        "kill:max-src-conn-rate" => Some(Exceeded::Rate),
        "kill:max-src-conn+max-src-conn-rate" => Some(Exceeded::Both),
        _ => None,
    }
}

fn overload(word: &str) -> Option<Option<Added>> {
    match word {
        "none" => Some(None),
        "added" => Some(Some(Added::New)),
        "held" => Some(Some(Added::AlreadyThere)),
        "full" => Some(Some(Added::Full)),
        _ => None,
    }
}

fn limit(word: &str) -> Option<Limit> {
    match word {
        "max" => Some(Limit::Max),
        "max-src-nodes" => Some(Limit::MaxSrcNodes),
        "src-nodes" => Some(Limit::SrcNodes),
        "max-src-states" => Some(Limit::MaxSrcStates),
        "states" => Some(Limit::States),
        _ => None,
    }
}

/// The rule of `@` and its number, or none, of `-`.
fn rule_or_none(text: &str) -> Option<Option<RuleNo>> {
    if text == "-" {
        return Some(None);
    }
    Some(Some(rule(text)?))
}

/// The rule of `@` and its number.
fn rule(text: &str) -> Option<RuleNo> {
    let number: u32 = text.strip_prefix("@")?.parse().ok()?;
    Some(RuleNo(number))
}

fn number(text: &str) -> Option<u64> {
    text.parse().ok()
}
