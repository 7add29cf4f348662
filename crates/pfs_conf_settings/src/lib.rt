//! The statements that set options and routes, the parts of a table's definition, and the draft that all statements of a
//! rules text are put into.
#![tactic(auto)]

mod drafts;
mod entries;
mod named_tables;
mod routes;
mod settings;
mod syncookies;
mod tables;

pub use drafts::Draft;
pub use settings::read_settings;
pub use syncookies::{has_broken_shares, read_syncookies};
pub use tables::{Parts, read_parts, read_parts_with};
