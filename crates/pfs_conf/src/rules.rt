//! Rules, from their first word to the end of the line.

ghost use Rattle.std.specs.Prelude.{◌≡◌, IfOk, OnOk, None};
ghost use Rattle.pfs_conf_tokens.specs.Keys.{ends_line};
ghost use Rattle.pfs_conf_tokens.specs.Reading.{act, until_all};
ghost use Rattle.pfs_conf_tokens.specs.TokenResults.{Gives};
ghost use Rattle.pfs_conf.specs.Statements.{no_clauses, rule_breaks, with_rule};
ghost use Rattle.pfs_conf.specs.Reading.{clause_at, rule_text_at, rule_line_at, state_act, translation_act};
ghost use Rattle.pfs_conf.specs.ReaderResults.{Comes, IsAtDepth};
ghost use Rattle.pfs_conf.specs.PhraseBounds.{AreLexed, IsRuleText};

use crate::breaking::rule_breaks;
use crate::numbering::number_rule;
use crate::phrases::{Clauses, RuleText};
use crate::progress::Progress;
use pfs_addr_values::NoMemory;
use pfs_conf_filters::{
    Extras, Parameters, Verb, read_extra, read_flags, read_parameters, read_translation, read_verb,
    repeats_translation,
};
use pfs_conf_options::state_clause;
use pfs_conf_tokens::{Cursor, Key, ReadError, Refusal, Why};
use pfs_conf_values::Translation;

/// Reads a rule that begins on this line. Its load rules are checked when its line end has been read. (pf.conf(5),
/// PACKET FILTERING)
#[tactic(auto, unfolding(crate::specs::Reading::rule_line_at))]
pub fn rule(cursor: &mut Cursor, progress: &mut Progress, line: u64) -> Result<(), ReadError>
    requires lexed { AreLexed cursor.old }
    requires order { IsAtDepth progress.old }
    ensures value { Comes result cursor.new progress.new (rule_line_at line progress.old cursor.old) }
    ensures order { OnOk result (IsAtDepth progress.new) }
{
    let text = match rule_text(cursor) {
        Ok(text) => text,
        Err(refusal) => return Err(ReadError::Refused(refusal)),
    };
    if let Some(broken) = rule_breaks(&progress.draft, &text) {
        return Err(ReadError::Refused(Refusal::Broken(broken, line)));
    }
    match push_rule(progress, line, &text) {
        Ok(()) => Ok(()),
        Err(NoMemory) => Err(ReadError::Memory),
    }
}

/// Appends a rule to the items.
fn push_rule(progress: &mut Progress, line: u64, text: &RuleText) -> Result<(), NoMemory>
    requires text { IsRuleText text.now }
    requires order { IsAtDepth progress.old }
    requires keeps { rule_breaks progress.old.draft text.now ≡ None }
    ensures ok { OnOk result (progress.new ≡ with_rule line text.now progress.old) }
    ensures order { OnOk result (IsAtDepth progress.new) }
{
    match number_rule(&mut progress.draft, text) {
        Ok(rule) => progress.draft.push_rule(progress.depth, rule)?,
        Err(error) => return Err(error),
    }
    progress.lines.push(line)
}

/// A rule as it is written, with its line end.
fn rule_text(cursor: &mut Cursor) -> Result<RuleText, Refusal>
    requires { AreLexed cursor.old }
    ensures value { Gives result cursor.new (rule_text_at cursor.old) }
    ensures within { IfOk result (λ r. IsRuleText r) }
{
    read_rule(cursor)
}

#[tactic(auto, unfolding(crate::specs::Reading::rule_text_at))]
fn read_rule(cursor: &mut Cursor) -> Result<RuleText, Refusal>
    ensures { Gives result cursor.new (rule_text_at cursor.old) }
{
    let verb = read_verb(cursor)?;
    let parameters = read_parameters(cursor, verb.statement())?;
    let clauses = clauses(cursor, verb, &parameters)?;
    Ok(RuleText {
        verb,
        parameters,
        clauses,
    })
}

fn clauses(cursor: &mut Cursor, verb: Verb, parameters: &Parameters) -> Result<Clauses, Refusal>
    ensures { Gives result cursor.new (until_all ends_line (clause_at verb parameters.now) no_clauses cursor.old) }
{
    let mut clauses = Clauses {
        flags: None,
        extras: Extras::new(),
        translation: Translation::new(),
        state: None,
    };
    while !cursor.is_at_line_end() {
        clauses = clause(cursor, verb, parameters, clauses)?;
    }
    cursor.advance();
    Ok(clauses)
}

#[tactic(auto, unfolding(crate::specs::Reading::clause_at))]
fn clause(
    cursor: &mut Cursor,
    verb: Verb,
    parameters: &Parameters,
    clauses: Clauses,
) -> Result<Clauses, Refusal>
    ensures { Gives result cursor.new (clause_at verb parameters.now clauses cursor.old) }
{
    match cursor.key() {
        Key::Flags => {
            if clauses.flags.is_some() {
                return Err(Refusal::Stop(Why::Again));
            }
            let flags = read_flags(cursor)?;
            Ok(Clauses {
                flags: Some(flags),
                ..clauses
            })
        }
        Key::Tag | Key::Tagged | Key::ReceivedOn | Key::Not => {
            let extras = read_extra(cursor, clauses.extras)?;
            Ok(Clauses { extras, ..clauses })
        }
        Key::NatTo | Key::RdrTo => translation(cursor, verb, clauses),
        Key::No | Key::Keep | Key::Synproxy => state(cursor, verb, clauses),
        key => {
            if verb.has(key)
                || parameters.have(key)
                || repeats_translation(&clauses.translation, key)
            {
                Err(Refusal::Stop(Why::Again))
            } else {
                Err(Refusal::Stop(Why::Plain))
            }
        }
    }
}

/// A translation, which a `block` rule has not.
fn translation(cursor: &mut Cursor, verb: Verb, clauses: Clauses) -> Result<Clauses, Refusal>
    ensures { Gives result cursor.new (act (translation_act verb clauses) cursor.old) }
{
    if !verb.may_translate() {
        return Err(Refusal::Stop(Why::Plain));
    }
    let translation = read_translation(cursor, clauses.translation)?;
    Ok(Clauses {
        translation,
        ..clauses
    })
}

/// The state clause, which a `match` rule has not.
fn state(cursor: &mut Cursor, verb: Verb, clauses: Clauses) -> Result<Clauses, Refusal>
    ensures { Gives result cursor.new (act (state_act verb clauses) cursor.old) }
{
    if !verb.takes_state() {
        return Err(Refusal::Stop(Why::Plain));
    }
    if clauses.state.is_some() {
        return Err(Refusal::Stop(Why::Again));
    }
    let state = state_clause(cursor)?;
    Ok(Clauses {
        state: Some(state),
        ..clauses
    })
}
