//! The files that words name, and standard input.

ghost use Rattle.std.specs.Prelude.{◌≡◌, option_map};
ghost use Rattle.pfs_words.specs.Words.{file_of, is_standard};

use std::io::{self, Read, StdinLock};

/// Whether a name stands for standard input. A file of that name is `./-`. (own)
pub fn is_standard(name: &str) -> bool
    ensures { result ≡ is_standard name.now }
{
    name == "-"
}

/// The file of this name; none where it stands for standard input. (own)
pub fn file_of(name: &str) -> Option<&str>
    ensures { option_map (λ file. file.now) result ≡ file_of name.now }
{
    if is_standard(name) { None } else { Some(name) }
}

/// What is read: a file, or standard input. (own)
#[derive(Drop)]
pub enum Input<F> {
    /// A file, or a buffer over one.
    File(F),
    /// Standard input.
    Standard(StdinLock<'static>),
}

impl<F: Read> Read for Input<F> {
    fn read(&mut self, buf: &mut [u8]) -> io::Result<usize> {
        match self {
            Input::File(file) => file.read(buf),
            Input::Standard(input) => input.read(buf),
        }
    }
}
