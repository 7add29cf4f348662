//! A configuration from a rules text.

ghost use Rattle.std.specs.Prelude.{◌≡◌, ◌<◌, ◌≤◌, ℕ, length, IfOk, IfErr, MatchResult};
ghost use Rattle.pfs_conf_tokens.specs.Lexis.{text_limit, tokens_of};
ghost use Rattle.pfs_conf_tokens.specs.declared.refusals.LoadRule.{LoadRule};
ghost use Rattle.pfs_conf_values.specs.Configs.{Conf};
ghost use Rattle.pfs_conf.specs.Kinds.{fault, kind_of_rule, no_memory};
ghost use Rattle.pfs_conf.specs.Faults.{Breaks, IsFault};
ghost use Rattle.pfs_conf.specs.LoadResults.{IsLoad};
ghost use Rattle.pfs_conf.specs.Reads.{Reads};
ghost use Rattle.pfs_conf.specs.Answers.{IsReported, IsTooLong};

use crate::faults::LoadFault;
use crate::kinds::Kind;
use crate::statements::read_text;
use crate::stopping::fault_of;
use pfs_conf_tokens::{Cursor, TEXT_LIMIT};
use pfs_conf_values::{Config, RulesHasher};
use std::alloc::Global;

/// The configuration that a rules text says. (pf.conf(5); the subset, its limits and the load rules are own to this profile)
///
/// A text has at most 1,048,576 bytes; a longer one is `TooLong`, at line 0, before all else. Statements are read in
/// order, and the first fault is reported. Where a statement cannot continue with a token, the kind is `Duplicate`,
/// `Number`, `Unsupported` or `Syntax`, the first that applies, at the line of that token. A load rule that a rule or
/// an anchor breaks is reported at the line of its first token. One that the whole text breaks is reported at line 0,
/// but an `overload` into a `const` table at the line of the first such rule. The configuration takes memory; if memory
/// runs out, the fault is `Memory`, at line 0.
pub fn load(alloc: Global, text: &[u8]) -> Result<Config, LoadFault>
    // What is returned is what the text reads as.
    ensures found { IfOk result (λ c. Reads text.now c) }
    // What the text reads as is returned, unless memory runs out.
    ensures only { (c : Conf) → Reads text.now c → MatchResult result (λ d. d ≡ c) (λ e. e ≡ no_memory) }
    // A text that is too long is reported as such, and nothing else of it.
    ensures long { text_limit < length text.now → IsTooLong result }
    // The first load rule that is broken is reported, unless memory runs out.
    ensures broken { (r : LoadRule) (n : ℕ) → length text.now ≤ text_limit → Breaks (tokens_of text.now) r n → IsReported result (fault n (kind_of_rule r)) }
    // Every fault that is reported is true. Where no accepted text goes on, its line is that of a token before which all is read.
    ensures fault { IfErr result (λ e. IsFault text.now e) }
{
    read(alloc, text)
}

fn read(alloc: Global, text: &[u8]) -> Result<Config, LoadFault>
    ensures { IsLoad result text.now }
{
    if text.len() > TEXT_LIMIT {
        return Err(LoadFault {
            line: 0,
            kind: Kind::TooLong,
        });
    }
    let mut cursor = Cursor::new(text);
    let hasher = RulesHasher::of_text(text);
    match read_text(alloc, hasher, &mut cursor) {
        Ok(config) => Ok(config),
        Err(error) => Err(fault_of(error, &mut cursor)),
    }
}
