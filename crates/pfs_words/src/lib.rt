//! Words of a command line that mean the same to both programs: the file of a name, and the flag for each line as it happens.
#![tactic(auto)]

mod files;
mod flags;
mod given;

pub use files::{Input, file_of, is_standard};
pub use flags::{is_by_lines, line_buffered};
pub use given::{texts_of, words};
