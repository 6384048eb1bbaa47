//! Macro calls.
ghost use Rattle.std.specs.Prelude.{◌≡◌, ◌<◌, ◌↔◌, List, None, length, map, IfSome, IfNone};
ghost use Rattle.psu_lex.specs.Shown.{HoldsData};
ghost use Rattle.psu_lex.specs.Syntax.{Datum as DatumData};
ghost use Rattle.psu_instrument.specs.Macros.{CallGives, HoldsParameters, UnitGives, body_called, label_in, written};

use crate::Instrument;
use arrayvec::ArrayVec;
use psu_lex::{Bytes, Data, ScpiError, expand};
use psu_nv::Contents;
use psu_tree::Request;
use std::alloc::Allocator;

/// The maximum number of parameters of a macro.
const PARAMETERS_MOST: usize = 9;

// Returns the parameters of a call as written, or `None` where there are more than a macro can have.
fn parameters<'a>(args: &Data<'a>) -> Option<ArrayVec<&'a [u8], PARAMETERS_MOST>>
    ensures all { (list : List DatumData) → HoldsData args.now list → IfSome result (λ texts. map (λ text. text.now) texts.items ≡ written list) }
    ensures many { (list : List DatumData) → HoldsData args.now list → IfNone result (9 < length list) }
{
    let mut texts = ArrayVec::new();
    let mut rest = *args;
    while let Some((datum, others)) = rest.first() {
        if texts.is_full() {
            return None;
        }
        texts.push(datum.text);
        rest = others;
    }
    Some(texts)
}

// Returns the result of a call of a body.
fn called<A: Allocator + Copy>(
    alloc: A,
    body: &[u8],
    args: &Data<'_>,
    inside: bool,
) -> Result<Bytes<A>, ScpiError>
    ensures { (list : List DatumData) → HoldsData args.now list → CallGives inside body.now (written list) result }
{
    if inside {
        return Err(ScpiError::MacroRecursionError);
    }
    match parameters(args) {
        Some(texts) => expand(alloc, body, texts.as_slice()),
        None => Err(ScpiError::MacroParameterError),
    }
}

impl Instrument {
    /// Returns the expansion of the macro that a unit calls, or the error in its place, or `None` where the unit calls
    /// none. It calls a macro if macros are enabled and a macro of its label is defined at that time, ignoring case
    /// (IEEE 488.2, 10.8).
    ///
    /// A call inside an expansion is -276; a number of parameters other than the one that the macro takes, -274; an
    /// expansion of more than 65,536 bytes, -223. Memory is allocated only for a valid expansion.
    pub fn expansion<A: Allocator + Copy>(
        &self,
        alloc: A,
        contents: &Contents<A>,
        request: &Request<'_>,
    ) -> Option<Result<Bytes<A>, ScpiError>>
        ensures called { (result ≡ None) ↔ (body_called self.now contents.now.macros (label_in request.now.call) ≡ None) }
        ensures gives { (list : List DatumData) → HoldsParameters request.now.call list
            → UnitGives (body_called self.now contents.now.macros (label_in request.now.call)) request.now.inside
            (written list) result }
    {
        let Some(call) = &request.call else {
            return None;
        };
        if !self.expands {
            return None;
        }
        let Some(body) = contents.body(call.label) else {
            return None;
        };
        Some(called(alloc, body, &call.args, request.inside))
    }
}
