//! The tokens of a rules text and a cursor over them, on which the readers of statements are built.
#![tactic(auto)]

mod cursors;
mod keys;
mod lexer;
mod numbers;
mod pieces;
mod refusals;
mod values;
mod words;

pub use cursors::Cursor;
pub use keys::Key;
pub use lexer::TEXT_LIMIT;
pub use numbers::{digits, number, skip_lines, split_at_byte};
pub use refusals::{LoadRule, ReadError, Refusal, Why};
pub use values::{table_name, take_value};
pub use words::key_of;
