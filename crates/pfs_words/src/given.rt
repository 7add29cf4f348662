//! The words of the command line.

ghost use Rattle.std.specs.Prelude.{◌≡◌, IfOk, map};

use std::alloc::AllocError;
use std::{env, io};

/// The words of the command line, the program's name first. The error is of the kind `InvalidData` where one is not UTF-8; else memory
/// was refused. It takes memory. (own)
pub fn words(rt: &HostRuntime) -> io::Result<Vec<String>> {
    let words = env::args(rt)?;
    Ok(words.collect(rt.alloc())?)
}

/// The texts of words, in the same order. It returns an error where memory is refused. (own)
pub fn texts_of<'a>(rt: &HostRuntime, words: &'a [String]) -> Result<Vec<&'a str>, AllocError>
    ensures { IfOk result (λ v. map (λ t. t.now) v.items ≡ map (λ w. w.bytes.items) words.entry.now) }
{
    let mut texts = Vec::with_capacity(rt.alloc(), words.len())?;
    for word in words {
        texts.push(word.as_str())?;
    }
    Ok(texts)
}
