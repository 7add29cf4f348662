//! The frames of a capture file, one after another: pcap and pcapng. A file is read through once, and no more than one block of it
//! is held.
#![tactic(auto)]

mod blocks;
mod classic;
mod faults;
mod filling;
mod forms;
mod frames;
mod interfaces;
mod options;
mod orders;

pub use blocks::Section;
pub use classic::{FileHeader, LengthOrder, Precision};
pub use faults::FileFault;
pub use forms::{Form, read_item, read_start};
pub use frames::{FileItem, Frame, Moment};
pub use interfaces::InterfaceBlock;
pub use orders::Order;
