//! What the words of all interfaces ask for together.

ghost use Rattle.std.specs.Prelude.{◌≡◌, IfErr, IfOk, [], ◌∷◌, count_by, is_some, map, option_map, true};
ghost use Rattle.std.specs.List.{list_any};
ghost use Rattle.pfs_capture_jobs.specs.Requests.{AllAsk, AreOwn, AreSources, IsShared, OneRefused, RequestIn, RequestedBy, SourcesAre, SourcesRefused, captures_shared, first_capture, first_answers, is_dash, named_file, wanted_output};

use crate::asking::{InterfaceWords, asked_of};
use crate::refusals::{Mistake, WordsRefusal};
use crate::wanted::{CaptureSource, Output, TraceRequest};
use pfs_words::{file_of, is_standard};
use std::alloc::{AllocError, Global};

/// What groups of words ask for, each behind the program's name. The refusal is that of the first group that is refused: clap's, with its
/// message, or a mistake that clap does not know; else a mistake in all groups together: first of `--answers`, then of the captures. It takes
/// memory. (pfstrace(1))
pub fn request<'a>(alloc: Global, groups: &'a [Vec<&str>]) -> Result<TraceRequest<'a>, WordsRefusal>
    ensures { RequestedBy (map (λ g. map (λ w. w.now) g.items) groups.entry.now) result }
{
    match asked_by(alloc, groups) {
        Ok(asked) => request_of(alloc, asked),
        Err(refusal) => Err(refusal),
    }
}

fn asked_by<'a>(
    alloc: Global,
    groups: &'a [Vec<&str>],
) -> Result<Vec<InterfaceWords<'a>>, WordsRefusal>
    ensures ok { IfOk result (λ v. AllAsk (map (λ g. map (λ w. w.now) g.items) groups.entry.now) v.items) }
    ensures err { IfErr result (λ f. OneRefused (map (λ g. map (λ w. w.now) g.items) groups.entry.now) f) }
{
    let mut all = Vec::new(alloc);
    for words in groups {
        match asked_of(alloc, words.as_slice()) {
            Ok(asked) => {
                if all.push(asked).is_err() {
                    return Err(WordsRefusal::Memory);
                }
            }
            Err(refusal) => return Err(refusal),
        }
    }
    Ok(all)
}

fn request_of<'a>(
    alloc: Global,
    asked: Vec<InterfaceWords<'a>>,
) -> Result<TraceRequest<'a>, WordsRefusal>
    ensures { RequestIn asked.entry.items result }
{
    let output = match output_of(&asked) {
        Ok(output) => output,
        Err(mistake) => return Err(WordsRefusal::Mistake(mistake)),
    };
    match sources_of(alloc, asked) {
        Ok(sources) => Ok(TraceRequest { sources, output }),
        Err(refusal) => Err(refusal),
    }
}

/// The captures that the groups of words name: one of all their interfaces, or one of each.
fn sources_of<'a>(
    alloc: Global,
    asked: Vec<InterfaceWords<'a>>,
) -> Result<Vec<CaptureSource<'a>>, WordsRefusal>
    ensures ok { IfOk result (λ v. SourcesAre asked.entry.items v.items) }
    ensures err { IfErr result (λ f. SourcesRefused asked.entry.items f) }
{
    let made = match is_shared(&asked) {
        Ok(true) => shared_sources(alloc, asked),
        Ok(false) => own_sources(alloc, asked),
        Err(mistake) => return Err(WordsRefusal::Mistake(mistake)),
    };
    match made {
        Ok(sources) => Ok(sources),
        Err(_) => Err(WordsRefusal::Memory),
    }
}

fn output_of<'a>(asked: &[InterfaceWords<'a>]) -> Result<Output<'a>, Mistake>
    ensures { result ≡ wanted_output asked.now }
{
    if count_answers(asked) > 1 {
        return Err(Mistake::AnswersTwice);
    }
    let answers = first_answers(asked);
    if is_dash(answers) {
        return Err(Mistake::AnswersOut);
    }
    Ok(Output {
        answers,
        by_lines: wants_lines(asked),
    })
}

#[tactic(auto, using(crate::proofs::FirstLaws::answers_step))]
fn first_answers<'a>(asked: &[InterfaceWords<'a>]) -> Option<&'a str>
    ensures { result ≡ first_answers asked.now }
{
    for group in asked {
        if let Some(name) = group.answers {
            return Some(name);
        }
    }
    None
}

#[tactic(auto, using(crate::proofs::FirstLaws::capture_step))]
fn first_capture<'a>(asked: &[InterfaceWords<'a>]) -> Option<&'a str>
    ensures { result ≡ first_capture asked.now }
{
    for group in asked {
        if let Some(name) = group.capture {
            return Some(name);
        }
    }
    None
}

fn is_dash(name: Option<&str>) -> bool
    ensures { result ≡ is_dash name.entry }
{
    match name {
        Some(name) => is_standard(name),
        None => false,
    }
}

/// Whether one capture is that of all groups; else each has one of its own.
fn is_shared(asked: &[InterfaceWords<'_>]) -> Result<bool, Mistake>
    ensures { result ≡ captures_shared asked.now }
{
    let named = count_named(asked);
    if named <= 1 {
        return Ok(true);
    }
    if named < asked.len() {
        return Err(Mistake::Captures);
    }
    if count_dashes(asked) > 1 {
        return Err(Mistake::StandardTwice);
    }
    Ok(false)
}

fn shared_sources<'a>(
    alloc: Global,
    asked: Vec<InterfaceWords<'a>>,
) -> Result<Vec<CaptureSource<'a>>, AllocError>
    ensures { IfOk result (λ v. AreSources asked.entry.items true v.items) }
{
    let source = shared_source(alloc, asked)?;
    let mut sources = Vec::new(alloc);
    sources.push(source)?;
    Ok(sources)
}

/// The one capture of all groups.
fn shared_source<'a>(
    alloc: Global,
    asked: Vec<InterfaceWords<'a>>,
) -> Result<CaptureSource<'a>, AllocError>
    ensures { IfOk result (λ s. IsShared asked.entry.items s) }
{
    let name = named_file(first_capture(&asked));
    let mut points = Vec::new(alloc);
    for group in asked {
        points.push(group.point)?;
    }
    Ok(CaptureSource { points, name })
}

/// A capture of each group.
fn own_sources<'a>(
    alloc: Global,
    asked: Vec<InterfaceWords<'a>>,
) -> Result<Vec<CaptureSource<'a>>, AllocError>
    ensures { IfOk result (λ v. AreOwn asked.entry.items v.items) }
{
    let mut sources = Vec::new(alloc);
    for group in asked {
        sources.push(own_source(alloc, group)?)?;
    }
    Ok(sources)
}

fn own_source<'a>(alloc: Global, group: InterfaceWords<'a>) -> Result<CaptureSource<'a>, AllocError>
    ensures { IfOk result (λ s. AreOwn (group.entry ∷ []) (s ∷ [])) }
{
    let mut points = Vec::new(alloc);
    points.push(group.point)?;
    Ok(CaptureSource {
        points,
        name: named_file(group.capture),
    })
}

fn named_file(name: Option<&str>) -> Option<&str>
    ensures { option_map (λ s. s.now) result ≡ named_file name.entry }
{
    file_of(name?)
}

fn count_answers(asked: &[InterfaceWords<'_>]) -> usize
    ensures { result ≡ count_by (λ a. is_some a.answers) asked.now }
{
    asked.iter().filter(|group| group.answers.is_some()).count()
}

fn count_named(asked: &[InterfaceWords<'_>]) -> usize
    ensures { result ≡ count_by (λ a. is_some a.capture) asked.now }
{
    asked.iter().filter(|group| group.capture.is_some()).count()
}

fn count_dashes(asked: &[InterfaceWords<'_>]) -> usize
    ensures { result ≡ count_by (λ a. is_dash a.capture) asked.now }
{
    asked.iter().filter(|group| is_dash(group.capture)).count()
}

fn wants_lines(asked: &[InterfaceWords<'_>]) -> bool
    ensures { result ≡ list_any (λ a. a.by_lines) asked.now }
{
    asked.iter().any(|group| group.by_lines)
}
