//! SCPI messages: units, headers and data, numbers, strings and blocks, and the errors that the instrument reports.
#![tactic(auto)]

mod blocks;
mod bytes;
mod class;
mod data;
mod data_scan;
mod decimals;
mod headers;
mod high_bytes;
mod laws;
mod limits;
mod macros;
mod message;
mod names;
mod number_scan;
mod numbers;
mod pieces;
mod scpi_error;
mod strings;
mod syntaxes;
mod unit;
mod units;
mod written;

pub use blocks::{block, definite};
pub use bytes::Bytes;
pub use data::{Data, Datum, DatumClass};
pub use decimals::{fixed3, whole};
pub use laws::{
    every_body_has_an_expansion, every_list_has_units, every_text_gives_a_value,
    every_unit_has_a_syntax, one_content_of_a_block, one_content_of_a_datum,
    one_content_of_a_string, one_expansion_of_a_body, one_header_of_a_text, one_list_of_units,
    one_number_of_a_text, one_syntax_of_a_text, one_syntax_of_a_unit, one_value_of_a_text,
};
pub use limits::{FILE_MOST, LABEL_MOST, NAME_MOST, TEXT_MOST, USER_DATA_MOST};
pub use macros::expand;
pub use names::{is_label, is_name};
pub use numbers::number;
pub use scpi_error::{ErrorClass, ScpiError};
pub use strings::string;
pub use syntaxes::syntax;
pub use unit::{HeaderMark, Syntax, Unit, UnitFault, UnitHeader};
pub use units::Units;
pub use written::Written;
