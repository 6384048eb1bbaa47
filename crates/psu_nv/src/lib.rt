//! The nonvolatile contents of the instrument: their changes, their cost, and the map that encodes them, written and
//! read.
#![tactic(auto)]

mod after;
mod body;
mod change;
mod command;
mod contents;
mod copy;
mod decode;
mod encode;
mod file;
mod file_bytes;
mod files;
mod found;
mod has_item;
mod keys;
mod label;
mod laws;
mod limits;
mod macros;
mod making;
mod pages;
mod part;
mod recall;
mod refusal;
mod register;
mod registers;
mod room;
mod steps;
mod user_data;
mod written;

pub use command::NvCommand;
pub use contents::Contents;
pub use decode::DecodeFault;
pub use file::{File, FileKind};
pub use file_bytes::FileBytes;
pub use label::Label;
pub use laws::{edits_of_parts_make_the_map, items_determine_contents, parts_are_the_whole};
pub use limits::REGISTERS;
pub use part::Part;
pub use register::Register;
pub use user_data::UserData;
