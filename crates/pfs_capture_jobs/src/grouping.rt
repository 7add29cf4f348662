//! The words of each interface.

ghost use Rattle.std.specs.Prelude.{◌≡◌, IfOk, [], ◌∷◌, map};
ghost use Rattle.pfs_capture_jobs.specs.Groups.{begins_group, ends_options, mark_after, names_interface, word_groups};

use std::alloc::{AllocError, Global};

/// What stands before a word.
#[derive(Clone, Copy)]
pub enum BeforeWord {
    /// No interface is named.
    Start,
    /// An interface is named.
    Named,
    /// No word is an option any more: `--` was one.
    Over,
}

/// The words of each interface, behind the program's name: a group begins at each `--interface` but the first. No words are no group.
/// It returns an error where memory is refused. (pfstrace(1))
pub fn groups_of<'a>(alloc: Global, words: &[&'a str]) -> Result<Vec<Vec<&'a str>>, AllocError>
    ensures { IfOk result (λ v. map (λ g. map (λ w. w.now) g.items) v.items ≡ word_groups (map (λ w. w.now) words.now)) }
{
    match words {
        [] => Ok(Vec::new(alloc)),
        [name, rest @ ..] => groups_behind(alloc, name, rest),
    }
}

fn groups_behind<'a>(
    alloc: Global,
    name: &'a str,
    words: &[&'a str],
) -> Result<Vec<Vec<&'a str>>, AllocError>
    ensures { IfOk result (λ v. map (λ g. map (λ w. w.now) g.items) v.items ≡ word_groups (name.entry.now ∷ map (λ w. w.now) words.now)) }
{
    let mut groups = Vec::new(alloc);
    let mut own = group_of(alloc, name)?;
    let mut mark = BeforeWord::Start;
    for word in words {
        if begins_group(mark, word) {
            groups.push(own)?;
            own = group_of(alloc, name)?;
        }
        own.push(*word)?;
        mark = mark_after(mark, word);
    }
    groups.push(own)?;
    Ok(groups)
}

fn group_of<'a>(alloc: Global, name: &'a str) -> Result<Vec<&'a str>, AllocError>
    ensures { IfOk result (λ v. v.items ≡ name.entry ∷ []) }
{
    let mut own = Vec::new(alloc);
    own.push(name)?;
    Ok(own)
}

/// Whether a word begins a group, behind one that has an interface.
fn begins_group(mark: BeforeWord, word: &str) -> bool
    ensures { result ≡ begins_group mark word.now }
{
    match mark {
        BeforeWord::Named => names_interface(word),
        BeforeWord::Start | BeforeWord::Over => false,
    }
}

fn mark_after(mark: BeforeWord, word: &str) -> BeforeWord
    ensures { result ≡ mark_after mark word.now }
{
    match mark {
        BeforeWord::Over => BeforeWord::Over,
        BeforeWord::Named | BeforeWord::Start if ends_options(word) => BeforeWord::Over,
        BeforeWord::Start if names_interface(word) => BeforeWord::Named,
        BeforeWord::Named | BeforeWord::Start => mark,
    }
}

fn ends_options(word: &str) -> bool
    ensures { result ≡ ends_options word.now }
{
    word == "--"
}

fn names_interface(word: &str) -> bool
    ensures { result ≡ names_interface word.now }
{
    word == "--interface" || word.as_bytes().starts_with(b"--interface=")
}
