//! Anchors, from their word to the end of the line.

ghost use Rattle.std.specs.Prelude.{◌≡◌, IfOk, OnOk, None, false};
ghost use Rattle.pfs_conf_tokens.specs.Reading.{perhaps};
ghost use Rattle.pfs_conf_tokens.specs.TokenResults.{Gives};
ghost use Rattle.pfs_conf_filters.specs.Reading.{begins_flags, flags_at};
ghost use Rattle.pfs_conf_values.specs.Order.{repeats_by};
ghost use Rattle.pfs_conf.specs.Grammar.{names_anchor};
ghost use Rattle.pfs_conf.specs.Statements.{anchor_breaks, with_anchor};
ghost use Rattle.pfs_conf.specs.Reading.{anchor_at, anchor_name_at, anchor_parts_at, anchor_text_at, brace_at, repeats_head};
ghost use Rattle.pfs_conf.specs.ReaderResults.{Comes, IsAtDepth};
ghost use Rattle.pfs_conf.specs.PhraseBounds.{AreLexed, IsAnchorText};

use crate::breaking::anchor_breaks;
use crate::numbering::number_anchor;
use crate::phrases::AnchorText;
use crate::progress::Progress;
use pfs_addr_values::{Name, NoMemory};
use pfs_conf_filters::{Parameters, Statement, read_flags, read_parameters};
use pfs_conf_tokens::{Cursor, Key, ReadError, Refusal, Why};
use pfs_conf_values::{AnchorName, FlagTest};

/// Reads an anchor that begins on this line, after its word: its head, and the line end after the brace. Its load rules
/// are checked when the brace has been read. (pf.conf(5), ANCHORS)
#[tactic(auto, unfolding(crate::specs::Reading::anchor_at))]
pub fn anchor(cursor: &mut Cursor, progress: &mut Progress, line: u64) -> Result<(), ReadError>
    requires lexed { AreLexed cursor.old }
    requires order { IsAtDepth progress.old }
    ensures value { Comes result cursor.new progress.new (anchor_at line progress.old cursor.old) }
    ensures order { OnOk result (IsAtDepth progress.new) }
{
    let text = match anchor_text(cursor, progress) {
        Ok(text) => text,
        Err(refusal) => return Err(ReadError::Refused(refusal)),
    };
    if let Some(broken) = anchor_breaks(progress.depth, &progress.draft, &text) {
        return Err(ReadError::Refused(Refusal::Broken(broken, line)));
    }
    cursor.expect(Key::LineEnd)?;
    match push_anchor(progress, line, &text) {
        Ok(()) => Ok(()),
        Err(NoMemory) => Err(ReadError::Memory),
    }
}

/// Appends an anchor to the items; what follows is inside it.
fn push_anchor(progress: &mut Progress, line: u64, text: &AnchorText) -> Result<(), NoMemory>
    requires text { IsAnchorText text.now }
    requires order { IsAtDepth progress.old }
    requires keeps { anchor_breaks progress.old.depth progress.old.draft text.now ≡ None }
    requires name { repeats_by progress.old.depth text.now.name progress.old.draft.items ≡ false }
    ensures ok { OnOk result (progress.new ≡ with_anchor line text.now progress.old) }
    ensures order { OnOk result (IsAtDepth progress.new) }
{
    match number_anchor(&mut progress.draft, text) {
        Ok(anchor) => progress.draft.push_anchor(progress.depth, anchor)?,
        Err(error) => return Err(error),
    }
    progress.lines.push(line)?;
    progress.depth += 1;
    Ok(())
}

/// The head of an anchor as it is written, with its brace.
fn anchor_text(cursor: &mut Cursor, progress: &Progress) -> Result<AnchorText, Refusal>
    requires { AreLexed cursor.old }
    ensures value { Gives result cursor.new (anchor_text_at progress.now cursor.old) }
    ensures within { IfOk result (λ a. IsAnchorText a) }
    ensures name { IfOk result (λ a. repeats_by progress.now.depth a.name progress.now.draft.items ≡ false) }
{
    read_anchor(cursor, progress)
}

/// Wherever the line ends in the head, the brace was wanted.
#[tactic(auto, unfolding(crate::specs::Reading::anchor_text_at))]
fn read_anchor(cursor: &mut Cursor, progress: &Progress) -> Result<AnchorText, Refusal>
    ensures { Gives result cursor.new (anchor_text_at progress.now cursor.old) }
{
    match anchor_parts(cursor, progress) {
        Err(Refusal::Stop(_)) if cursor.is_at_line_end() => Err(Refusal::Stop(Why::AnchorHead)),
        other => other,
    }
}

#[tactic(auto, unfolding(crate::specs::Reading::anchor_parts_at))]
fn anchor_parts(cursor: &mut Cursor, progress: &Progress) -> Result<AnchorText, Refusal>
    ensures { Gives result cursor.new (anchor_parts_at progress.now cursor.old) }
{
    let name = anchor_name(cursor, progress)?;
    let parameters = read_parameters(cursor, Statement::Anchor)?;
    let flags = flags_part(cursor)?;
    brace(cursor, &parameters, flags)?;
    Ok(AnchorText {
        name,
        parameters,
        flags,
    })
}

fn flags_part(cursor: &mut Cursor) -> Result<Option<FlagTest>, Refusal>
    ensures { Gives result cursor.new (perhaps begins_flags flags_at cursor.old) }
{
    match cursor.key() {
        Key::Flags => Ok(Some(read_flags(cursor)?)),
        _ => Ok(None),
    }
}

#[tactic(auto, unfolding(crate::specs::Reading::anchor_name_at))]
fn anchor_name(cursor: &mut Cursor, progress: &Progress) -> Result<Option<AnchorName>, Refusal>
    ensures { Gives result cursor.new (anchor_name_at progress.now cursor.old) }
{
    if !names_anchor(cursor.key()) {
        return Ok(None);
    }
    let Some(name) = Name::parse(cursor.text()) else {
        return Err(Refusal::Stop(Why::AnchorName));
    };
    if progress.draft.has_sibling(progress.depth, &name) {
        return Err(Refusal::Stop(Why::Again));
    }
    cursor.advance();
    Ok(Some(name))
}

fn names_anchor(key: Key) -> bool
    ensures { result ≡ names_anchor key }
{
    match key {
        Key::Quoted => true,
        Key::In | Key::Out | Key::Quick | Key::On | Key::Inet | Key::Inet6 | Key::Proto => false,
        Key::From | Key::To | Key::All | Key::Flags => false,
        _ => key.is_word(),
    }
}

#[tactic(auto, unfolding(crate::specs::Reading::brace_at))]
fn brace(
    cursor: &mut Cursor,
    parameters: &Parameters,
    flags: Option<FlagTest>,
) -> Result<(), Refusal>
    ensures { Gives result cursor.new (brace_at parameters.now flags cursor.old) }
{
    match cursor.key() {
        Key::OpenBrace => {
            cursor.advance();
            Ok(())
        }
        key => {
            if repeats_head(parameters, flags, key) {
                Err(Refusal::Stop(Why::Again))
            } else {
                Err(Refusal::Stop(Why::AnchorHead))
            }
        }
    }
}

fn repeats_head(parameters: &Parameters, flags: Option<FlagTest>, key: Key) -> bool
    ensures { result ≡ repeats_head parameters.now flags key }
{
    match key {
        Key::Flags => flags.is_some(),
        _ => parameters.have(key),
    }
}
