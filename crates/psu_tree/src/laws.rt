//! Laws of the definitions: the table of commands and the parsing of units.
ghost use Rattle.std.specs.Prelude.{◌≡◌, ◌↔◌, List, ℕ, Result, true};
ghost use Rattle.psu_lex.specs.Message.{Part};
ghost use Rattle.psu_lex.specs.declared.scpi_error.ScpiError.{ScpiError};
ghost use Rattle.psu_tree.specs.Headers.{Matches, Mnemonic, fits};
ghost use Rattle.psu_tree.specs.Reading.{Reads};
ghost use Rattle.psu_tree.specs.Rows.{EachIsFoundByItsHeaders, HaveNoHeaderInCommon, HaveOneNumber};
ghost use Rattle.psu_tree.specs.Table.{table};
ghost use Rattle.psu_tree.specs.declared.command.Command.{Command};

use psu_lex::{
    every_unit_has_a_syntax, one_content_of_a_datum, one_content_of_a_string, one_header_of_a_text,
    one_number_of_a_text, one_syntax_of_a_unit,
};

/// A unit has at most one parse result at a path.
pub fn one_reading_of_a_unit()
    ensures { (path : List (List ℕ)) (unit : Part) (reading other : Result Command ScpiError)
        → Reads path unit reading → Reads path unit other → reading ≡ other }
{
    one_syntax_of_a_unit();
    one_header_of_a_text();
    one_number_of_a_text();
    one_content_of_a_string();
    one_content_of_a_datum();
}

/// Every unit has a parse result at every path.
pub fn every_unit_reads()
    ensures { (path : List (List ℕ)) (unit : Part) → (reading : Result Command ScpiError) × Reads path unit reading }
{
    every_unit_has_a_syntax();
}

/// The test that finds a row agrees with the standard's rule: some optional nodes can be left out so that each
/// remaining node has the word in its place as a form.
pub fn a_row_fits_where_it_matches()
    ensures { (nodes : List Mnemonic) (words : List (List ℕ)) → (fits nodes words ≡ true) ↔ Matches nodes words }
{}

/// No header matches two rows of the table.
pub fn no_header_of_two_rows()
    ensures { HaveNoHeaderInCommon table }
{}

/// A header that matches a row has the form of that row, wherever the row is in the table.
pub fn a_header_asks_for_its_row()
    ensures { EachIsFoundByItsHeaders table }
{}

/// A header that matches a row of the table has at most one numeric suffix: of any two of its nodes one ends without a
/// digit.
pub fn one_number_of_a_header()
    ensures { HaveOneNumber table }
{}
