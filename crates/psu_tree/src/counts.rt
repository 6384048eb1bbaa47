//! The number of data of a header.
ghost use Rattle.std.specs.Prelude.{◌≡◌, List};
ghost use Rattle.psu_lex.specs.Shown.{HoldsData};
ghost use Rattle.psu_lex.specs.Syntax.{Datum as DatumData};
ghost use Rattle.psu_tree.specs.Commands.{alone};
ghost use Rattle.psu_tree.specs.Taken.{OneIs, PerhapsIs, TwoIs};

use crate::Command;
use psu_lex::{Data, Datum, ScpiError};

/// Returns the command, if it has no parameter.
pub(crate) fn alone<'a>(
    command: Command<'a>,
    parameters: &Data<'_>,
) -> Result<Command<'a>, ScpiError>
    ensures { (list : List DatumData) → HoldsData parameters.now list → result ≡ alone command.entry list }
{
    match parameters.first() {
        None => Ok(command),
        Some(_) => Err(ScpiError::ParameterNotAllowed),
    }
}

/// Returns the only parameter, or `None` where there is none.
pub(crate) fn perhaps<'a>(parameters: &Data<'a>) -> Result<Option<Datum<'a>>, ScpiError>
    ensures { (list : List DatumData) → HoldsData parameters.now list → PerhapsIs result list }
{
    match parameters.first() {
        None => Ok(None),
        Some((datum, others)) => match others.first() {
            None => Ok(Some(datum)),
            Some(_) => Err(ScpiError::ParameterNotAllowed),
        },
    }
}

/// Returns the only parameter.
pub(crate) fn one<'a>(parameters: &Data<'a>) -> Result<Datum<'a>, ScpiError>
    ensures { (list : List DatumData) → HoldsData parameters.now list → OneIs result list }
{
    match parameters.first() {
        None => Err(ScpiError::MissingParameter),
        Some((datum, others)) => match others.first() {
            None => Ok(datum),
            Some(_) => Err(ScpiError::ParameterNotAllowed),
        },
    }
}

/// Returns the only two parameters.
pub(crate) fn two<'a>(parameters: &Data<'a>) -> Result<(Datum<'a>, Datum<'a>), ScpiError>
    ensures { (list : List DatumData) → HoldsData parameters.now list → TwoIs result list }
{
    match parameters.first() {
        None => Err(ScpiError::MissingParameter),
        Some((first, others)) => match one(&others) {
            Ok(second) => Ok((first, second)),
            Err(error) => Err(error),
        },
    }
}
