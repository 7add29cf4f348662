//! The canonical text of a configuration: one text for each, that reads as the same configuration again.
//!
//! Each `push_..` appends to a text, for which it takes memory. `NoMemory` where that was refused; the text may then have a part of it.
#![tactic(auto)]

mod extras;
mod filters;
mod items;
mod options;
mod pieces;
mod settings;
mod tables;
mod translations;

pub use items::show;
