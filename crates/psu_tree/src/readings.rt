//! The command of a unit.
ghost use Rattle.std.specs.Prelude.{◌≡◌, List, [], None, Err, OnOk, map};
ghost use Rattle.psu_lex.specs.Message.{part};
ghost use Rattle.psu_lex.specs.Names.{is_label};
ghost use Rattle.psu_lex.specs.Shown.{HoldsData, ShowsHeader, ShowsSyntax};
ghost use Rattle.psu_lex.specs.Syntax.{Datum as DatumData, HeaderParts, IsHeader, Syntax as Parts, header_text};
ghost use Rattle.psu_tree.specs.Path.{next_path, words_of};
ghost use Rattle.psu_tree.specs.Reading.{CallsMacro, FormReads, Moves, Reads, SyntaxCalls, SyntaxReads, header_reads, placed};

use crate::commands::command_of;
use crate::lookups::form_of;
use crate::suffixes::header_output;
use crate::words::{Words, add_words};
use crate::{Command, Form, MacroCall, Path, Request};
use arrayvec::ArrayVec;
use psu_lex::{Data, HeaderMark, ScpiError, Syntax, Unit, UnitHeader, is_label, syntax};
use psu_settings::Output;
use std::mem;

// Returns a form and the output of its header, or the error of the header.
fn at_output(
    form: Option<Form>,
    output: Result<Output, ScpiError>,
) -> Result<(Form, Output), ScpiError>
    ensures { result ≡ placed form output }
{
    match form {
        None => Err(ScpiError::UndefinedHeader),
        Some(form) => match output {
            Err(fault) => Err(fault),
            Ok(output) => Ok((form, output)),
        },
    }
}

// Returns the form of a header with these nodes and the output that it applies to, or its error.
fn placed(words: &[&[u8]], asks: bool) -> Result<(Form, Output), ScpiError>
    ensures { result ≡ header_reads (map (λ word. word.now) words.now) asks }
{
    at_output(form_of(words, asks), header_output(words))
}

// Returns the command of a header's nodes and its data, or their first error.
fn reading_of<'a>(
    words: &[&[u8]],
    asks: bool,
    parameters: &Data<'a>,
) -> Result<Command<'a>, ScpiError>
    ensures { (list : List DatumData) → HoldsData parameters.now list → FormReads (header_reads (map (λ word. word.now) words.now) asks) list result }
{
    match placed(words, asks) {
        Err(error) => Err(error),
        Ok((form, output)) => command_of(form, output, parameters),
    }
}

// Returns the command of a unit's parts at a path, or their first error. Where there is no error, the words are the
// header's nodes.
fn read_parts<'a>(
    words: &mut Words<'a>,
    path: &Path<'a>,
    parts: &Syntax<'a>,
) -> Result<Command<'a>, ScpiError>
    requires { words.old.items ≡ [] }
    ensures reads { (given : Parts) → ShowsSyntax parts.now given → SyntaxReads path.now (Ok given) result }
    ensures words { (h : HeaderParts) → IsHeader h → ShowsHeader parts.now.header h
        → OnOk result (map (λ word. word.now) words.new.items ≡ words_of path.now h) }
{
    if !add_words(words, path, &parts.header) {
        return Err(ScpiError::UndefinedHeader);
    }
    reading_of(words.as_slice(), parts.header.asks, &parts.parameters)
}

/// Returns the command of a unit at a path, or its first error. The order of the errors: those of its syntax; -113,
/// -114; -109, -108; then for each parameter from the left its class, the digits of its number and its suffix (-104,
/// -123, -124, -131); then for each its range (-222, -223, -224). It is for programs that parse a unit without executing
/// it; the path does not move.
pub fn read_unit<'a>(path: &Path<'a>, unit: &Unit<'a>) -> Result<Command<'a>, ScpiError>
    ensures { Reads path.now (part unit.now) result }
{
    match &syntax(unit) {
        Err(error) => Err(*error),
        Ok(parts) => {
            let mut words = ArrayVec::new();
            read_parts(&mut words, path, parts)
        }
    }
}

// Whether a header has the form of a label; none with a `?` has.
fn is_call(header: &UnitHeader<'_>) -> bool
    ensures { (h : HeaderParts) → IsHeader h → ShowsHeader header.now h → result ≡ is_label (header_text h) }
{
    !header.asks && is_label(header.text)
}

// Puts the macro call that a unit may be in the place of an earlier one, where it is written once.
fn put_call<'a>(call: &mut Option<MacroCall<'a>>, parts: &Syntax<'a>)
    ensures { (given : Parts) → ShowsSyntax parts.now given → SyntaxCalls (Ok given) call.new }
{
    if is_call(&parts.header) {
        *call = Some(MacroCall {
            label: parts.header.text,
            args: parts.parameters,
        });
    } else {
        *call = None;
    }
}

// Puts the error of a unit's syntax in the place of an earlier request. It is not inlined, so that a unit without such an
// error does not pay for its variables.
#[inline(never)]
fn put_error(request: &mut Request<'_>, error: ScpiError)
    ensures call { request.new.call ≡ None }
    ensures reading { request.new.reading ≡ Err error }
    ensures inside { request.new.inside ≡ request.old.inside }
{
    request.call = None;
    request.reading = Err(error);
}

// Moves the path to a header's nodes without the last, taking the last out of the words; a common header leaves the
// path unchanged.
fn move_path<'a>(path: &mut Path<'a>, words: &mut Words<'a>, mark: HeaderMark)
    ensures { path.new ≡ next_path mark path.old (map (λ word. word.now) words.old.items) }
{
    match mark {
        HeaderMark::Star => {}
        HeaderMark::Colon | HeaderMark::Bare => {
            if words.len() <= 1 {
                path.words.clear();
                return;
            }
            let _last = words.pop();
            mem::swap(&mut path.words, words);
        }
    }
}

/// Parses a unit at a path, and moves the path for the next unit: to the nodes of its header without the last, unless
/// the header is common or the result is an error. So a single node after a leading `:` leads to the root, and one
/// without it leaves the path unchanged (SCPI-1999 volume 1, 6.2.4). A macro call is returned where the header has the
/// form of a label, whatever the parse result. `inside` is whether the unit is in an expansion.
pub fn request<'a>(path: &mut Path<'a>, unit: &Unit<'a>, inside: bool) -> Request<'a>
    ensures reading { Reads path.old (part unit.now) result.reading }
    ensures moves { Moves path.old (part unit.now) result.reading path.new }
    ensures call { CallsMacro (part unit.now) result.call }
    ensures inside { result.inside ≡ inside }
{
    let mut request = Request::unread();
    request_into(path, unit, inside, &mut request);
    request
}

/// Parses a unit as `request` does, and puts it in the place of an earlier one: a caller that parses one unit after
/// another has no copy of each.
pub fn request_into<'a>(
    path: &mut Path<'a>,
    unit: &Unit<'a>,
    inside: bool,
    request: &mut Request<'a>,
)
    ensures reading { Reads path.old (part unit.now) request.new.reading }
    ensures moves { Moves path.old (part unit.now) request.new.reading path.new }
    ensures call { CallsMacro (part unit.now) request.new.call }
    ensures inside { request.new.inside ≡ inside }
{
    request.inside = inside;
    let given = &syntax(unit);
    let parts = match given {
        Ok(parts) => parts,
        Err(error) => {
            put_error(request, *error);
            return;
        }
    };
    let mut words = ArrayVec::new();
    let reading = read_parts(&mut words, path, parts);
    if reading.is_ok() {
        move_path(path, &mut words, parts.header.mark);
    }
    put_call(&mut request.call, parts);
    request.reading = reading;
}
