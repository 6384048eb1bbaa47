//! Strings and blocks as data.
ghost use Rattle.std.specs.Prelude.{◌≡◌};
ghost use Rattle.psu_lex.specs.Shown.{IsSomeDatum};
ghost use Rattle.psu_lex.specs.Syntax.{datum_of};
ghost use Rattle.psu_tree.specs.Parameters.{TakesBlock, TakesString, at_most, label_of, labeled, name_of, named};
ghost use Rattle.psu_tree.specs.Taken.{Gives};

use crate::Text;
use psu_lex::{Datum, DatumClass, ScpiError, is_label, is_name};

// Returns the label that a text is, or `None` where it is not a valid label.
fn label_of(text: &[u8]) -> Option<Text<'_>>
    ensures { result ≡ label_of text.now }
{
    if is_label(text) {
        Some(Text { bytes: text })
    } else {
        None
    }
}

// Returns the file name that a text is, or `None` where it is not a valid name.
fn name_of(text: &[u8]) -> Option<Text<'_>>
    ensures { result ≡ name_of text.now }
{
    if is_name(text) {
        Some(Text { bytes: text })
    } else {
        None
    }
}

/// Returns the label that a string is, or `None` where it is not a valid label. A quote in a string is doubled, and a
/// label has no quote.
pub(crate) fn label<'a>(datum: &Datum<'a>) -> Result<Option<Text<'a>>, ScpiError>
    ensures { IsSomeDatum (datum_of datum.now) → Gives TakesString labeled (datum_of datum.now) result }
{
    match datum.class {
        DatumClass::String => Ok(label_of(datum.quoted())),
        DatumClass::Numeric | DatumClass::Character | DatumClass::Block => {
            Err(ScpiError::DataTypeError)
        }
    }
}

/// Returns the file name that a string is, or `None` where it is not a valid name. A quote in a string is doubled, and
/// a name has no quote.
pub(crate) fn name<'a>(datum: &Datum<'a>) -> Result<Option<Text<'a>>, ScpiError>
    ensures { IsSomeDatum (datum_of datum.now) → Gives TakesString named (datum_of datum.now) result }
{
    match datum.class {
        DatumClass::String => Ok(name_of(datum.quoted())),
        DatumClass::Numeric | DatumClass::Character | DatumClass::Block => {
            Err(ScpiError::DataTypeError)
        }
    }
}

/// Returns the bytes of a block.
pub(crate) fn block<'a>(datum: &Datum<'a>) -> Result<Text<'a>, ScpiError>
    ensures { IsSomeDatum (datum_of datum.now) → TakesBlock (datum_of datum.now) result }
{
    match datum.class {
        DatumClass::Block => Ok(Text {
            bytes: datum.bytes(),
        }),
        DatumClass::Numeric | DatumClass::Character | DatumClass::String => {
            Err(ScpiError::DataTypeError)
        }
    }
}

/// Returns the text, if it has at most `most` bytes.
pub(crate) fn at_most(text: Text<'_>, most: usize) -> Result<Text<'_>, ScpiError>
    ensures { result ≡ at_most most text.entry }
{
    if text.bytes.len() > most {
        return Err(ScpiError::TooMuchData);
    }
    Ok(text)
}
