//! The trace, a text between the two programs: its header, the event of each record, the row of a packet, and what is wrong
//! with a trace.
#![tactic(auto)]

mod columns;
mod events;
mod faults;
mod rows;

pub use columns::{HEADER, has_columns};
pub use events::read_event;
pub use faults::TraceFault;
pub use rows::{Row, push_row};
