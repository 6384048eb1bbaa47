//! The laws of the text that a run writes.
ghost use Rattle.std.specs.Prelude.{ℕ, List, ◌≡◌};
ghost use Rattle.psu_nv.specs.Contents.{Contents};
ghost use Rattle.psu_run.specs.Points.{ScriptAlone};
ghost use Rattle.psu_run.specs.Script.{IsScript};

use psu_disk::Disk;
use psu_lex::{
    every_body_has_an_expansion, every_list_has_units, one_expansion_of_a_body,
    one_header_of_a_text, one_list_of_units, one_syntax_of_a_unit,
};
use psu_messages::over_is_messages;
use psu_tree::{every_unit_reads, one_reading_of_a_unit};

/// Where no memory is refused, no disk call fails and the store isn't worn, the text that may be written on an honest disk
/// is the script.
pub fn script_is_the_only_text<D: Disk>()
    ensures { ScriptAlone D.honest }
{
    every_list_has_units();
    one_list_of_units();
    one_reading_of_a_unit();
    one_syntax_of_a_unit();
    one_header_of_a_text();
    over_is_messages();
}

/// No input has two scripts.
pub fn one_script_of_an_input()
    ensures { (contents : Contents) (limit : ℕ) (input text other : List ℕ) → IsScript contents limit input text
        → IsScript contents limit input other → text ≡ other }
{
    one_list_of_units();
    one_reading_of_a_unit();
    one_syntax_of_a_unit();
    one_header_of_a_text();
    one_expansion_of_a_body();
}

/// Every input has a script.
pub fn every_input_has_a_script()
    ensures { (contents : Contents) (limit : ℕ) (input : List ℕ) → (text : List ℕ) × IsScript contents limit input text }
{
    every_list_has_units();
    every_unit_reads();
    every_body_has_an_expansion();
}
