//! The parts of a statement that say which packets a rule, or the rules of an anchor, are asked about.
#![tactic(auto)]

mod endpoints;
mod extras;
mod flag_words;
mod heads;
mod phrases;
mod questions;
mod services;
mod translations;
mod words;

pub use endpoints::read_parameters;
pub use extras::read_extra;
pub use flag_words::read_flags;
pub use heads::read_verb;
pub use phrases::{Extras, Head, Hosts, Marks, Parameters, Statement, Verb};
pub use questions::repeats_translation;
pub use translations::read_translation;
