//! Headers with two parameters: the classes of both are checked before the range of either.
ghost use Rattle.std.specs.Prelude.{◌≡◌, ◌≤◌, List, Ok, IfOk};
ghost use Rattle.psu_lex.specs.Shown.{HoldsData};
ghost use Rattle.psu_lex.specs.Syntax.{Datum as DatumData};
ghost use Rattle.psu_tree.specs.Parameters.{TakesBlock, TakesString, TakesWhole, Two, at_most, counted, labeled, named};

use crate::Text;
use crate::counts::two;
use crate::parameters::{LAST_REGISTER, counted, whole};
use crate::texts::{at_most, block, label, name};
use psu_lex::{Data, ScpiError};

/// Returns a label, or none where the string is not a valid label, and a body.
pub(crate) fn label_and_body<'a>(
    parameters: &Data<'a>,
) -> Result<(Option<Text<'a>>, Text<'a>), ScpiError>
    ensures { (list : List DatumData) → HoldsData parameters.now list → Two TakesString labeled TakesBlock (λ body. Ok body) list result }
{
    let (first, second) = two(parameters)?;
    let label = label(&first)?;
    Ok((label, block(&second)?))
}

/// Returns a name, or none where the string is not a valid name, and at most `most` bytes.
pub(crate) fn name_and_bytes<'a>(
    parameters: &Data<'a>,
    most: usize,
) -> Result<(Option<Text<'a>>, Text<'a>), ScpiError>
    ensures { (list : List DatumData) → HoldsData parameters.now list → Two TakesString named TakesBlock (at_most most) list result }
{
    let (first, second) = two(parameters)?;
    let name = name(&first)?;
    Ok((name, at_most(block(&second)?, most)?))
}

/// Returns two names, each none where the string is not a valid name.
pub(crate) fn two_names<'a>(
    parameters: &Data<'a>,
) -> Result<(Option<Text<'a>>, Option<Text<'a>>), ScpiError>
    ensures { (list : List DatumData) → HoldsData parameters.now list → Two TakesString named TakesString named list result }
{
    let (first, second) = two(parameters)?;
    let before = name(&first)?;
    Ok((before, name(&second)?))
}

/// Returns a register number, and a name, or none where the string is not a valid name.
pub(crate) fn register_and_name<'a>(
    parameters: &Data<'a>,
) -> Result<(u8, Option<Text<'a>>), ScpiError>
    ensures { (list : List DatumData) → HoldsData parameters.now list → Two TakesWhole (counted 0 99) TakesString named list result }
{
    let (first, second) = two(parameters)?;
    let register = whole(&first)?;
    let name = name(&second)?;
    Ok((counted(register, 0, LAST_REGISTER)? as u8, name))
}

/// Returns a label and a name, each none where the string is not a valid one.
pub(crate) fn label_and_name<'a>(
    parameters: &Data<'a>,
) -> Result<(Option<Text<'a>>, Option<Text<'a>>), ScpiError>
    ensures { (list : List DatumData) → HoldsData parameters.now list → Two TakesString labeled TakesString named list result }
{
    let (first, second) = two(parameters)?;
    let label = label(&first)?;
    Ok((label, name(&second)?))
}
