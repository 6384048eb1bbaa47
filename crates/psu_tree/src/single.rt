//! Headers with one parameter.
ghost use Rattle.std.specs.Prelude.{◌≡◌, ◌≤◌, List, IfOk};
ghost use Rattle.psu_lex.specs.Shown.{HoldsData};
ghost use Rattle.psu_lex.specs.Syntax.{Datum as DatumData};
ghost use Rattle.psu_tree.specs.Commands.{greatest_of, unit_of};
ghost use Rattle.psu_tree.specs.Parameters.{One, Perhaps, TakesAmount, TakesBlock, TakesString, TakesSwitch, TakesWhole, TakesWord, at_most, counted, extreme_of, flagged, labeled, leveled, named, recalled, switched};

use crate::counts::{one, perhaps};
use crate::parameters::{
    amount, counted, extreme, flagged, leveled, recall, switch_of, switched, whole,
};
use crate::texts::{at_most, block, label, name};
use crate::{Extreme, Level, Text};
use psu_lex::{Data, ScpiError};

/// Returns a number in a range.
pub(crate) fn one_count(parameters: &Data<'_>, least: u32, most: u32) -> Result<u32, ScpiError>
    ensures reads { (list : List DatumData) → HoldsData parameters.now list → One TakesWhole (counted least most) list result }
    ensures within { IfOk result (λ n. n ≤ most) }
{
    let datum = one(parameters)?;
    counted(whole(&datum)?, least, most)
}

/// Whether a number from -32767 to 32767 is not 0.
pub(crate) fn one_flag(parameters: &Data<'_>) -> Result<bool, ScpiError>
    ensures { (list : List DatumData) → HoldsData parameters.now list → One TakesWhole flagged list result }
{
    let datum = one(parameters)?;
    flagged(whole(&datum)?)
}

/// Whether a switch is on: ON, OFF, or a number.
pub(crate) fn one_switch(parameters: &Data<'_>) -> Result<bool, ScpiError>
    ensures { (list : List DatumData) → HoldsData parameters.now list → One TakesSwitch switched list result }
{
    let datum = one(parameters)?;
    switched(&switch_of(&datum)?)
}

/// Returns the value of a level.
pub(crate) fn one_level(parameters: &Data<'_>, level: Level) -> Result<u16, ScpiError>
    ensures { (list : List DatumData) → HoldsData parameters.now list → One (TakesAmount (unit_of level)) (leveled (greatest_of level)) list result }
{
    let datum = one(parameters)?;
    leveled(&amount(&datum, level)?, level)
}

/// Returns MIN or MAX, or `None` where there is no parameter.
pub(crate) fn perhaps_extreme(parameters: &Data<'_>) -> Result<Option<Extreme>, ScpiError>
    ensures { (list : List DatumData) → HoldsData parameters.now list → Perhaps TakesWord extreme_of list result }
{
    let Some(datum) = perhaps(parameters)? else {
        return Ok(None);
    };
    Ok(Some(extreme(&datum)?))
}

/// Whether the parameter is RCL0 (true) or RST (false).
pub(crate) fn one_recall(parameters: &Data<'_>) -> Result<bool, ScpiError>
    ensures { (list : List DatumData) → HoldsData parameters.now list → One TakesWord recalled list result }
{
    let datum = one(parameters)?;
    recall(&datum)
}

/// Returns a block of at most `most` bytes.
pub(crate) fn one_block<'a>(parameters: &Data<'a>, most: usize) -> Result<Text<'a>, ScpiError>
    ensures { (list : List DatumData) → HoldsData parameters.now list → One TakesBlock (at_most most) list result }
{
    let datum = one(parameters)?;
    at_most(block(&datum)?, most)
}

/// Returns a label, or none where the string is not a valid label.
pub(crate) fn one_label<'a>(parameters: &Data<'a>) -> Result<Option<Text<'a>>, ScpiError>
    ensures { (list : List DatumData) → HoldsData parameters.now list → One TakesString labeled list result }
{
    let datum = one(parameters)?;
    label(&datum)
}

/// Returns a file name, or none where the string is not a valid name.
pub(crate) fn one_name<'a>(parameters: &Data<'a>) -> Result<Option<Text<'a>>, ScpiError>
    ensures { (list : List DatumData) → HoldsData parameters.now list → One TakesString named list result }
{
    let datum = one(parameters)?;
    name(&datum)
}
