//! The bytes of a rules text that has a reader of its own.

ghost use Rattle.std.specs.Prelude.{◌≡◌, Some, Err, ◌≤◌, ◌+◌, ℕ, List, true, IfOk, length, drop};
ghost use Rattle.pfs_streams.specs.Feeds.{HasFailed, bound_of, unread, has_ended, read_failures};
ghost use Rattle.pfs_streams.specs.RulesKept.{KeepsEnough, rules_limit};

use crate::feeds::Feed;
use pfs_conf_tokens::TEXT_LIMIT;
use std::alloc::Global;
use std::io::Read;

/// Why rules were not read.
#[derive(Debug, Clone, Copy)]
pub enum RulesStop {
    /// The reader gave no more.
    Source,
    /// Memory was refused.
    Memory,
}

/// Reads the bytes of a rules text to its end; of one that is too long, no more than shows this: at most 1,048,577
/// bytes. It returns `RulesStop::Source` where a read fails, `RulesStop::Memory` where memory is refused.
pub fn read_rules<R: Read>(alloc: Global, rules: &mut Feed<R>) -> Result<Vec<u8>, RulesStop>
    requires { read_failures rules.old ≡ 0 }
    ensures text { IfOk result (λ v. (rs : List ℕ) → unread R.remaining rules.old ≡ Some rs → KeepsEnough v.items rs) }
    ensures ended { IfOk result (λ v. length v.items ≤ rules_limit → has_ended rules.new ≡ true) }
    ensures sound { IfOk result (λ v. read_failures rules.new ≡ 0) }
    ensures few { (rs : List ℕ) → unread R.remaining rules.old ≡ Some rs → (k : ℕ) × (k ≤ rules_limit + 1) × (unread R.remaining rules.new ≡ Some (drop k rs)) }

    // A failed read is reported only where one failed or the bound is spent, and out of memory only where none failed.
    ensures source { result ≡ Err RulesStop.Source → HasFailed rules.new }
    ensures memory { result ≡ Err RulesStop.Memory → read_failures rules.new ≡ 0 }
    ensures bound { bound_of rules.new ≡ bound_of rules.old }
{
    let mut text = Vec::new(alloc);
    let mut chunk = [0; 4096];
    'chunks: while text.len() <= TEXT_LIMIT {
        let room = chunk.len().min(TEXT_LIMIT + 1 - text.len());
        match rules.read(&mut chunk[..room]) {
            Ok(0) => return Ok(text),
            Ok(n) => {
                if text.extend_from_slice(&chunk[..n]).is_err() {
                    return Err(RulesStop::Memory);
                }
            }
            Err(_) => return Err(RulesStop::Source),
        }
    }
    Ok(text)
}
