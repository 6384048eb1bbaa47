//! The command of a unit, or its first error: headers are looked up in the table of commands, and their parameters are
//! checked.
#![tactic(auto)]

mod command;
mod commands;
mod counts;
mod double;
mod form;
mod laws;
mod lookups;
mod parameters;
mod path;
mod queries;
mod readings;
mod rows;
mod single;
mod suffixes;
mod table;
mod text;
mod texts;
mod values;
mod walks;
mod words;

pub use command::{Command, MacroCall, Request, nonvolatile};
pub use form::Form;
pub use laws::{
    a_header_asks_for_its_row, a_row_fits_where_it_matches, every_unit_reads,
    no_header_of_two_rows, one_number_of_a_header, one_reading_of_a_unit,
};
pub use lookups::form_of;
pub use path::{Path, SavedPath};
pub use queries::{Action, OutputQuery, Query};
pub use readings::{read_unit, request, request_into};
pub use rows::{Kind, Node, Row, Section};
pub use table::PATTERNS;
use text::Choice;
pub use text::Text;
pub use values::{
    Enable, Extreme, Flag, Level, OnFile, OnMacro, OnNames, OnRegister, Switch, Transfer,
};
pub use walks::{patterns, walk};
