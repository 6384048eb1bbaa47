//! The instrument without its sessions and its store: the meaning of each command, and its execution.
#![tactic(auto)]

mod act;
mod commands;
mod common;
mod expansion;
mod files;
mod instrument;
mod laws;
mod macros;
mod reporting;
mod supplies;

pub use act::{Act, Completion};
pub use instrument::Instrument;
pub use laws::{
    each_answer_has_text, kept_commands_are_nonvolatile, no_answer_raises_a_bit,
    power_on_recalls_register_0,
};
