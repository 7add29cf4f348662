//! What is reported of a rules text alone.

ghost use Rattle.std.specs.Prelude.{◌≡◌, ◌++◌, ◌<◌, false, ℕ, List, IfOk, IfErr, OnOk, OnErr, string_bytes};
ghost use Rattle.std.specs.Io.KnownBytes.{Appends, Keeps};
ghost use Rattle.pfs_streams.specs.Feeds.{IsFresh};
ghost use Rattle.pfs_streams.specs.Sinks.{FlushedOnce, bytes_held, is_unflushed, write_failures};
ghost use Rattle.pfs_conf_show.specs.Texts.{text_of};
ghost use Rattle.pfs_cli.specs.Checks.{TellsRules, counts_text, wanted_text};

use crate::faults::ReplayFault;
use crate::rules::read_config;
use pfs_addr_values::NoMemory;
use pfs_conf::{Config, show};
use pfs_streams::{Feed, Sink, write_whole};
use std::alloc::{AllocError, Global};
use std::io::{Read, Write};

/// What is wanted of a rules text.
#[derive(Clone, Copy)]
enum Wanted {
    /// The line with its counts.
    Counts,
    /// Its canonical text.
    CanonicalText,
}

/// Reports whether a rules text is accepted: writes `ok items=I tables=T entries=E` and a line feed, the numbers of
/// rules and anchors, of tables and of table entries, and flushes it.
///
/// No more than 1,048,577 bytes are read. The faults are those of rules, of reading, of writing and of memory. At each,
/// what was written is a front of the line; at all but `Write` it is nothing. It takes memory.
pub fn check<R: Read, W: Write>(
    alloc: Global,
    rules: &mut Feed<R>,
    out: &mut Sink<W>,
) -> Result<(), ReplayFault>
    requires { IsFresh rules.old }
    ensures tells { TellsRules R.remaining W.contents counts_text rules.old rules.new out.old out.new result }
{
    tell_rules(alloc, Wanted::Counts, rules, out)
}

/// Writes the canonical text of a rules text, and flushes it. What is read, the faults and the memory are as for
/// `check`, with this text in place of the line.
pub fn print<R: Read, W: Write>(
    alloc: Global,
    rules: &mut Feed<R>,
    out: &mut Sink<W>,
) -> Result<(), ReplayFault>
    requires { IsFresh rules.old }
    ensures tells { TellsRules R.remaining W.contents text_of rules.old rules.new out.old out.new result }
{
    tell_rules(alloc, Wanted::CanonicalText, rules, out)
}

/// Writes what is wanted of a rules text, and flushes it.
fn tell_rules<R: Read, W: Write>(
    alloc: Global,
    wanted: Wanted,
    rules: &mut Feed<R>,
    out: &mut Sink<W>,
) -> Result<(), ReplayFault>
    requires { IsFresh rules.old }
    ensures tells { TellsRules R.remaining W.contents (wanted_text wanted) rules.old rules.new out.old out.new result }
{
    let config = match read_config(alloc, rules) {
        Ok(config) => config,
        Err(fault) => return Err(fault),
    };
    let text = match text_wanted(alloc, wanted, &config) {
        Ok(text) => text,
        Err(_) => return Err(ReplayFault::Memory),
    };
    write_text(out, text.as_slice())
}

/// The text that is wanted of a configuration.
fn text_wanted(alloc: Global, wanted: Wanted, config: &Config) -> Result<Vec<u8>, NoMemory>
    ensures { IfOk result (λ v. v.items ≡ wanted_text wanted config.now) }
{
    match wanted {
        Wanted::Counts => Ok(counts_line(alloc, config)?.into_bytes()),
        Wanted::CanonicalText => show(alloc, config),
    }
}

/// The line with the counts of a configuration.
fn counts_line(alloc: Global, config: &Config) -> Result<String, AllocError>
    ensures { IfOk result (λ s. string_bytes s ≡ counts_text config.now) }
{
    let items = config.item_count();
    let tables = config.table_count();
    let entries = config.entry_count();
    format!(in alloc; "ok items={items} tables={tables} entries={entries}\n")
}

/// Writes a text whole and flushes it.
fn write_text<W: Write>(out: &mut Sink<W>, bytes: &[u8]) -> Result<(), ReplayFault>
    ensures ok { OnOk result (Appends (bytes_held W.contents out.old) (bytes_held W.contents out.new) bytes.now) }
    ensures err { OnErr result ((t : List ℕ) × Appends (bytes_held W.contents out.old) (bytes_held W.contents out.new) t × ((rest : List ℕ) × (bytes.now ≡ t ++ rest))) }
    ensures kind { IfErr result (λ f. f ≡ ReplayFault.Write) }
    ensures fails { OnErr result (0 < write_failures out.new) }
    ensures flushed { OnOk result (is_unflushed out.new ≡ false) }
    ensures flushes { FlushedOnce out.old out.new }
{
    match write_whole(out, bytes) {
        Ok(()) => flushed(out),
        Err(_) => Err(ReplayFault::Write),
    }
}

/// Flushes what was written.
fn flushed<W: Write>(out: &mut Sink<W>) -> Result<(), ReplayFault>
    ensures kept { Keeps (bytes_held W.contents out.old) (bytes_held W.contents out.new) }
    ensures kind { IfErr result (λ f. f ≡ ReplayFault.Write) }
    ensures fails { OnErr result (0 < write_failures out.new) }
    ensures flushed { OnOk result (is_unflushed out.new ≡ false) }
    ensures flushes { FlushedOnce out.old out.new }
{
    match out.flush() {
        Ok(()) => Ok(()),
        Err(_) => Err(ReplayFault::Write),
    }
}
