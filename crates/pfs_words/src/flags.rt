//! The flag for each line as it happens.

ghost use Rattle.std.specs.Prelude.{◌≡◌, false};
ghost use Rattle.clap.specs.Words.{found_of, rows_of, rule_of};
ghost use Rattle.pfs_words.specs.Words.{ByLinesIn, flag_rule, lines_flag};

use clap::{Arg, ArgAction, ArgMatches};
use std::alloc::Global;

/// The flag for each line as it happens, with what help says of it. (own; the word is that of grep(1))
pub fn line_buffered<'a>(alloc: Global, help: &'a str) -> Arg<'a>
    ensures rule { rule_of result ≡ flag_rule lines_flag }
    ensures local { result.global ≡ false }
{
    Arg::new(alloc, "line-buffered")
        .long("line-buffered")
        .action(ArgAction::SetTrue)
        .help(help)
}

/// Whether the flag for each line as it happens was given. It takes no memory. (own)
pub fn is_by_lines(found: &ArgMatches<'_>) -> bool
    ensures { ByLinesIn (rows_of (found_of found.now)) result }
{
    found.get_flag("line-buffered")
}
