//! Tables of worked rows as texts, a row a line, and scripts, a step a line, for the crates of tests. A text costs a
//! proof far less than an array of rows, and reads better.
#![tactic(auto)]

mod cells;
mod frames;
mod rows;

pub use cells::{bytes, written};
pub use frames::header;
pub use rows::{bracketed, is_step, parted, repeated, row};
