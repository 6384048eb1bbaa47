//! The program's command line, and its commands on one image: make, run and recover.
#![tactic(auto)]

mod commands;
mod fault;
mod image;
mod words;

pub use commands::{make_image, recover_image, run_image, run_in_memory};
pub use fault::Fault;
pub use image::new_image;
pub use words::{Choice, WordsFault, choice_of};
