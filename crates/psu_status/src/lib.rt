//! Status reporting: the event status register, the status byte, the two groups of registers and the error queue.
//!
//! Sources: IEEE 488.2, chapter 11; SCPI-1999 volume 1, chapter 9, and volume 2, chapters 18 and 21.
#![tactic(auto)]

mod groups;
mod registers;
mod status;

pub use groups::{Enables, Filter, Group};
pub use status::Status;
