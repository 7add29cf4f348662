//! What the words of one interface ask for.

ghost use Rattle.std.specs.Prelude.{◌≡◌, IfErr, IfOk, IfSome, Some, codes, map, true, unwrap_or, option_map, OnOk, ◌++◌, ◌==◌};
ghost use Rattle.std.specs.List.{slice_split};
ghost use Rattle.clap.specs.Words.{FailsBy, fault_of, first_of, found_of, matches_of, rows_of};
ghost use Rattle.pfs_addr.specs.Texts.{prefix_of};
ghost use Rattle.pfs_addr_values.specs.Names.{is_name, name_of};
ghost use Rattle.pfs_capture_packets.specs.Ways.{mac_of};
ghost use Rattle.pfs_capture_jobs.specs.Asked.{AskedBy, AskedIn, IsPointNamed, IsRefused, all_read, listed, named_point, pfstrace_app, pieces_of, point_called, point_with, sided};
ghost use Rattle.pfs_capture_jobs.specs.declared.refusals.Mistake.TheVariants as mistake;

use crate::options::pfstrace;
use crate::refusals::{Mistake, WordsRefusal};
use clap::{ArgMatches, Error};
use pfs_addr::parse_prefix;
use pfs_addr_values::{IfName, Prefix, parse_ifname};
use pfs_capture::{CapturePoint, InterfaceSide, Mac, parse_mac};
use pfs_words::is_by_lines;
use std::alloc::{AllocError, Global};

/// What the words of one interface ask for.
#[derive(Drop)]
pub struct InterfaceWords<'a> {
    /// The interface.
    pub point: CapturePoint,
    /// The capture's file, if one is named.
    pub capture: Option<&'a str>,
    /// The file for what pf answered, if one is wanted.
    pub answers: Option<&'a str>,
    /// Whether each row is to be seen before more of the captures is read.
    pub by_lines: bool,
}

/// What the words of one interface ask for, behind the program's name. The refusal is clap's, with its message, or a mistake that clap
/// does not know. It takes memory.
pub fn asked_of<'a>(alloc: Global, words: &'a [&'a str]) -> Result<InterfaceWords<'a>, WordsRefusal>
    ensures { AskedBy (map (λ w. w.now) words.entry.now) result }
{
    match matches(alloc, words) {
        Ok(found) => asked_in(alloc, &found),
        Err(error) => Err(WordsRefusal::Clap(error)),
    }
}

fn matches<'a>(alloc: Global, words: &'a [&'a str]) -> Result<ArgMatches<'a>, Error>
    ensures found { IfOk result (λ m. rows_of (found_of m) ≡ matches_of pfstrace_app (map (λ w. w.now) words.entry.now)) }
    ensures refused { FailsBy (fault_of pfstrace_app (map (λ w. w.now) words.entry.now)) result }
{
    match pfstrace(alloc)?.try_get_matches_from(words) {
        Ok(found) => Ok(found),
        Err(error) => Err(error),
    }
}

fn asked_in<'a>(alloc: Global, found: &ArgMatches<'a>) -> Result<InterfaceWords<'a>, WordsRefusal>
    ensures { AskedIn (rows_of (found_of found.now)) result }
{
    match point(alloc, found) {
        Ok(point) => Ok(InterfaceWords {
            point,
            capture: given(found, "CAPTURE"),
            answers: given(found, "answers"),
            by_lines: is_by_lines(found),
        }),
        Err(refusal) => Err(refusal),
    }
}

/// The interface, as the words say.
fn point(alloc: Global, found: &ArgMatches<'_>) -> Result<CapturePoint, WordsRefusal>
    ensures { IsPointNamed (named_point (rows_of (found_of found.now))) result }
{
    match ifname(found) {
        Some(ifname) => point_called(alloc, found, ifname),
        None => Err(WordsRefusal::Mistake(Mistake::Interface)),
    }
}

fn ifname(found: &ArgMatches<'_>) -> Option<IfName>
    ensures is { result ≡ name_of 15 (unwrap_or (first_of (codes "interface") (rows_of (found_of found.now))) (codes "em0")) }
    ensures name { IfSome result (λ n. is_name 15 n ≡ true) }
{
    match given(found, "interface") {
        Some(name) => parse_ifname(name.as_bytes()),
        None => parse_ifname(b"em0"),
    }
}

/// The first value of the option of this name.
fn given<'a>(found: &ArgMatches<'a>, id: &str) -> Option<&'a str>
    ensures { option_map (λ t. t.now) result ≡ first_of id.now (rows_of (found_of found.now)) }
{
    found.get_str(id)
}

fn point_called(
    alloc: Global,
    found: &ArgMatches<'_>,
    ifname: IfName,
) -> Result<CapturePoint, WordsRefusal>
    requires { is_name 15 ifname ≡ true }
    ensures { IsPointNamed (point_called (rows_of (found_of found.now)) ifname) result }
{
    match macs(alloc, found) {
        Ok(macs) => point_with(alloc, found, ifname, macs),
        Err(refusal) => Err(refusal),
    }
}

fn point_with(
    alloc: Global,
    found: &ArgMatches<'_>,
    ifname: IfName,
    macs: Vec<Mac>,
) -> Result<CapturePoint, WordsRefusal>
    requires { is_name 15 ifname ≡ true }
    ensures { IsPointNamed (point_with (rows_of (found_of found.now)) ifname macs.items) result }
{
    let inside = match prefixes(alloc, found, "inside", Mistake::Inside) {
        Ok(inside) => inside,
        Err(refusal) => return Err(refusal),
    };
    match prefixes(alloc, found, "outside", Mistake::Outside) {
        Ok(outside) => sided(ifname, macs, inside, outside),
        Err(refusal) => Err(refusal),
    }
}

fn sided(
    ifname: IfName,
    macs: Vec<Mac>,
    inside: Vec<Prefix>,
    outside: Vec<Prefix>,
) -> Result<CapturePoint, WordsRefusal>
    requires { is_name 15 ifname ≡ true }
    ensures { IsPointNamed (sided ifname macs.items inside.items outside.items) result }
{
    if inside.is_empty() {
        return Ok(CapturePoint::new(ifname, macs, outside, InterfaceSide::InFront));
    }
    if !outside.is_empty() {
        return Err(WordsRefusal::Mistake(Mistake::BothSides));
    }
    Ok(CapturePoint::new(ifname, macs, inside, InterfaceSide::Behind))
}

fn macs(alloc: Global, found: &ArgMatches<'_>) -> Result<Vec<Mac>, WordsRefusal>
    ensures ok { IfOk result (λ v. all_read mac_of (listed (codes "mac") (rows_of (found_of found.now))) ≡ Some v.items) }
    ensures err { IfErr result (λ f. IsRefused mistake.Mac (all_read mac_of (listed (codes "mac") (rows_of (found_of found.now)))) f) }
{
    match listed(alloc, found, "mac") {
        Ok(texts) => read_macs(alloc, texts.as_slice()),
        Err(_) => Err(WordsRefusal::Memory),
    }
}

fn read_macs(alloc: Global, texts: &[&str]) -> Result<Vec<Mac>, WordsRefusal>
    ensures ok { IfOk result (λ v. all_read mac_of (map (λ t. t.now) texts.now) ≡ Some v.items) }
    ensures err { IfErr result (λ f. IsRefused mistake.Mac (all_read mac_of (map (λ t. t.now) texts.now)) f) }
{
    let mut macs = Vec::new(alloc);
    for text in texts {
        match parse_mac(text.as_bytes()) {
            Some(mac) => {
                if macs.extend_from_slice(&[mac]).is_err() {
                    return Err(WordsRefusal::Memory);
                }
            }
            None => return Err(WordsRefusal::Mistake(Mistake::Mac)),
        }
    }
    Ok(macs)
}

/// The prefixes of the option of this name, or a mistake where one of its texts is none.
fn prefixes(
    alloc: Global,
    found: &ArgMatches<'_>,
    id: &str,
    mistake: Mistake,
) -> Result<Vec<Prefix>, WordsRefusal>
    ensures ok { IfOk result (λ v. all_read prefix_of (listed id.now (rows_of (found_of found.now))) ≡ Some v.items) }
    ensures err { IfErr result (λ f. IsRefused mistake (all_read prefix_of (listed id.now (rows_of (found_of found.now)))) f) }
{
    match listed(alloc, found, id) {
        Ok(texts) => read_prefixes(alloc, texts.as_slice(), mistake),
        Err(_) => Err(WordsRefusal::Memory),
    }
}

fn read_prefixes(
    alloc: Global,
    texts: &[&str],
    mistake: Mistake,
) -> Result<Vec<Prefix>, WordsRefusal>
    ensures ok { IfOk result (λ v. all_read prefix_of (map (λ t. t.now) texts.now) ≡ Some v.items) }
    ensures err { IfErr result (λ f. IsRefused mistake (all_read prefix_of (map (λ t. t.now) texts.now)) f) }
{
    let mut prefixes = Vec::new(alloc);
    for text in texts {
        match parse_prefix(text.as_bytes()) {
            Some(prefix) => {
                if prefixes.push(prefix).is_err() {
                    return Err(WordsRefusal::Memory);
                }
            }
            None => return Err(WordsRefusal::Mistake(mistake)),
        }
    }
    Ok(prefixes)
}

/// The texts in the values of the option of this name, with commas between them.
fn listed<'a>(alloc: Global, found: &ArgMatches<'a>, id: &str) -> Result<Vec<&'a str>, AllocError>
    ensures { IfOk result (λ v. map (λ t. t.now) v.items ≡ listed id.now (rows_of (found_of found.now))) }
{
    match found.get_strs(id) {
        Some(values) => pieces_of(alloc, values),
        None => Ok(Vec::new(alloc)),
    }
}

fn pieces_of<'a>(alloc: Global, values: &[&'a str]) -> Result<Vec<&'a str>, AllocError>
    ensures { IfOk result (λ v. map (λ t. t.now) v.items ≡ pieces_of (map (λ t. t.now) values.now)) }
{
    let mut pieces = Vec::new(alloc);
    for value in values {
        push_pieces(&mut pieces, value)?;
    }
    Ok(pieces)
}

/// Puts the pieces of a text behind others: what stands before, between and behind its commas.
fn push_pieces<'a>(pieces: &mut Vec<&'a str>, text: &'a str) -> Result<(), AllocError>
    ensures { OnOk result (map (λ t. t.now) pieces.new.items ≡ map (λ t. t.now) pieces.old.items ++ slice_split (λ b. b == 44) text.entry.now) }
{
    for piece in text.split(',') {
        pieces.push(piece)?;
    }
    Ok(())
}
