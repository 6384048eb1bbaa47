//! The syntax of a unit.
ghost use Rattle.std.specs.Prelude.{◌≡◌, Result, IfSome, IfNone};
ghost use Rattle.psu_lex.specs.Message.{part};
ghost use Rattle.psu_lex.specs.Syntax.{Syntax as Parts, SyntaxGives, UnitReads};
ghost use Rattle.psu_lex.specs.Shown.{Shows, ShowsSyntax};
ghost use Rattle.psu_lex.specs.declared.scpi_error.ScpiError.{ScpiError as Error};

use crate::class::Class;
use crate::data_scan::list_at;
use crate::headers::{header_end, header_of};
use crate::high_bytes::has_high;
use crate::number_scan::run_of;
use crate::{ScpiError, Syntax, Unit};

/// Returns the header and the data of a text, if it has this syntax.
fn cut(text: &[u8]) -> Option<Syntax<'_>>
    ensures some { IfSome result (λ shown. (syntax : Parts) × UnitReads text.now syntax × ShowsSyntax shown syntax) }
    ensures none { IfNone result ((syntax : Parts) → UnitReads text.now syntax → ⊥) }
{
    let (_, body) = run_of(text, Class::White);
    let Some(end) = header_end(body) else {
        return None;
    };
    let (head, rest) = body.split_at(end);
    let Some(parameters) = list_at(rest) else {
        return None;
    };
    Some(Syntax {
        header: header_of(head),
        parameters,
    })
}

/// Returns the header and the data of a unit (IEEE 488.2, 7.3.2). Nothing is copied.
///
/// The first of these that holds is the error: the unit has a fault; a byte of 127 or more occurs outside its strings
/// and blocks; the unit is not a header followed by nothing, or by white space and data.
pub fn syntax<'a>(unit: &Unit<'a>) -> Result<Syntax<'a>, ScpiError>
    ensures { (given : Result Parts Error) × SyntaxGives (part unit.now) given × Shows result given }
{
    if let Some(fault) = unit.fault {
        return Err(fault.error());
    }
    if let Some(syntax) = cut(unit.text) {
        return Ok(syntax);
    }
    if has_high(unit.text) {
        return Err(ScpiError::InvalidCharacter);
    }
    Err(ScpiError::SyntaxError)
}
