//! Statements, one after another to the end of the text.

ghost use Rattle.std.specs.Prelude.{◌≡◌, ◌≤◌, None, OnOk};
ghost use Rattle.pfs_conf_settings.specs.Drafts.{conf_of_draft};
ghost use Rattle.pfs_conf_tokens.specs.TokenResults.{GivesOrMemory};
ghost use Rattle.pfs_conf_tokens.specs.Reading.{ended};
ghost use Rattle.pfs_conf.specs.Reading.{anchor_closed, statement_at, statements_at, text_at};
ghost use Rattle.pfs_conf.specs.ReaderResults.{Comes, IsAtDepth};
ghost use Rattle.pfs_conf.specs.Statements.{text_breaks};
ghost use Rattle.pfs_conf.specs.PhraseBounds.{AreLexed};

use crate::anchors::anchor;
use crate::breaking::text_breaks;
use crate::definitions::{set, table};
use crate::progress::Progress;
use crate::rules::rule;
use pfs_conf_tokens::{Cursor, Key, ReadError, Refusal, Why};
use pfs_conf_values::{Config, RulesHasher};
use std::alloc::Global;

/// Reads a text up to its end, which stays, and gives what it says. While it reads, it finds tables and entries by this
/// hasher.
#[tactic(auto, unfolding(crate::specs::Reading::text_at))]
pub fn read_text(
    alloc: Global,
    hasher: RulesHasher,
    cursor: &mut Cursor,
) -> Result<Config, ReadError>
    requires { AreLexed cursor.old }
    ensures { GivesOrMemory result cursor.new (text_at cursor.old) }
{
    let progress = statements(alloc, hasher, cursor)?;
    if progress.depth > 0 {
        return Err(ReadError::Refused(Refusal::Stop(Why::Plain)));
    }
    if let Some((rule, line)) = text_breaks(&progress) {
        return Err(ReadError::Refused(Refusal::Broken(rule, line)));
    }
    Ok(finish(progress))
}

/// What a text says that ends here.
fn finish(progress: Progress) -> Config
    requires { text_breaks progress ≡ None }
    ensures { result ≡ conf_of_draft progress.draft }
{
    let Progress { draft, .. } = progress;
    draft.finish()
}

fn statements(
    alloc: Global,
    hasher: RulesHasher,
    cursor: &mut Cursor,
) -> Result<Progress, ReadError>
    requires { AreLexed cursor.old }
    ensures { GivesOrMemory result cursor.new (statements_at cursor.old) }
{
    let mut progress = Progress::new(alloc, hasher);
    while !cursor.is_at_end() {
        statement(alloc, cursor, &mut progress)?;
    }
    Ok(progress)
}

/// Reads a statement. A blank line says nothing; `set` and `table` are allowed outside of anchors only.
#[tactic(auto, unfolding(crate::specs::Reading::statement_at))]
fn statement(alloc: Global, cursor: &mut Cursor, progress: &mut Progress) -> Result<(), ReadError>
    requires lexed { AreLexed cursor.old }
    requires order { IsAtDepth progress.old }
    ensures value { Comes result cursor.new progress.new (statement_at progress.old cursor.old) }
    ensures order { OnOk result (IsAtDepth progress.new) }
{
    let line = cursor.line();
    match cursor.key() {
        Key::LineEnd => {
            cursor.advance();
            Ok(())
        }
        Key::Set | Key::Table if progress.depth > 0 => Err(ReadError::Refused(Refusal::Stop(
            Why::Inner,
        ))),
        Key::Set => {
            cursor.advance();
            set(cursor, progress, line)
        }
        Key::Table => {
            cursor.advance();
            table(alloc, cursor, progress)
        }
        Key::Pass | Key::Block | Key::Match => rule(cursor, progress, line),
        Key::Anchor => {
            cursor.advance();
            anchor(cursor, progress, line)
        }
        Key::CloseBrace if progress.depth > 0 => {
            cursor.advance();
            close(cursor, progress)
        }
        _ => Err(ReadError::Refused(Refusal::Stop(Why::Statement))),
    }
}

/// The line end after the brace that closes an anchor.
fn close(cursor: &mut Cursor, progress: &mut Progress) -> Result<(), ReadError>
    requires open { 1 ≤ progress.old.depth }
    ensures { Comes result cursor.new progress.new (ended (anchor_closed progress.old) cursor.old) }
{
    cursor.expect(Key::LineEnd)?;
    progress.depth -= 1;
    Ok(())
}
