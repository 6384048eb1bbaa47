//! Macros: the expansion of a body with its parameters.
ghost use Rattle.std.specs.Prelude.{ℕ, List, [], ◌≡◌, ◌⊎◌, ◌+◌, ◌≤◌, ◌<◌, Ok, Err, false, length, map, min, IfOk, IfErr};
ghost use Rattle.psu_lex.specs.Message.{opens_first};
ghost use Rattle.psu_lex.specs.Macros.{ExpandsTo, parameter};
ghost use Rattle.psu_lex.specs.MacroScan.{Keeps, Puts, Spells, begins_placeholder};
ghost use Rattle.psu_lex.specs.declared.scpi_error.ScpiError.TheVariants.{OutOfMemory};

use crate::limits::TEXT_MOST;
use crate::pieces::{after, begins, front, whole_end};
use crate::{Bytes, ScpiError};
use std::alloc::{AllocError, Allocator};

/// Whether the text begins with a placeholder, `$1` to `$9`.
fn is_placeholder(rest: &[u8]) -> bool
    ensures { result ≡ begins_placeholder rest.now }
{
    if rest.len() < 2 || rest[0] != b'$' {
        return false;
    }
    rest[1] >= b'1' && rest[1] <= b'9'
}

/// Whether a string or a block may begin at the first byte.
fn opens(rest: &[u8]) -> bool
    ensures { result ≡ opens_first rest.now }
{
    begins(rest, b'"') || begins(rest, b'\'') || begins(rest, b'#')
}

/// Returns the number of next bytes that are copied unchanged: a whole string or block, a faulty one with everything
/// after it, or one byte.
fn verbatim(rest: &[u8]) -> usize
    requires some { 0 < length rest.now }
    requires other { begins_placeholder rest.now ≡ false }
    ensures within { (0 < result) × (result ≤ length rest.now) }
    ensures kept { Keeps rest.now result }
{
    if !opens(rest) {
        return 1;
    }
    match whole_end(rest) {
        Some(length) => length,
        None => rest.len(),
    }
}

/// Returns the greatest placeholder of a body, 0 where there is none.
fn greatest_of(body: &[u8]) -> usize
    ensures { (text : List ℕ) × Spells [] body.now result text }
{
    let mut rest = body;
    let mut most = 0usize;
    while !rest.is_empty() {
        if is_placeholder(rest) {
            most = most.max((rest[1] - b'0') as usize);
            rest = after(rest, 2);
            continue;
        }
        rest = after(rest, verbatim(rest));
    }
    most
}

/// Returns the parameter at this index, counted from 0; a missing one is empty.
fn argument<'a>(args: &[&'a [u8]], place: usize) -> &'a [u8]
    ensures { result.now ≡ parameter (map (λ arg. arg.now) args.now) place }
{
    match args.get(place) {
        Some(arg) => arg,
        None => &[],
    }
}

/// Returns the text that the next bytes of a body expand to, and their number: a placeholder's parameter, or bytes that
/// are copied unchanged.
fn piece_at<'a>(rest: &'a [u8], args: &[&'a [u8]]) -> (&'a [u8], usize)
    requires { 0 < length rest.now }
    ensures within { (0 < result.1) × (result.1 ≤ length rest.now) }
    ensures puts { Puts (map (λ arg. arg.now) args.now) rest.now result.1 result.0.now }
{
    if is_placeholder(rest) {
        return (argument(args, (rest[1] - b'1') as usize), 2);
    }
    let kept = verbatim(rest);
    (front(rest, kept), kept)
}

/// Returns the sum of two lengths, capped at one more than the maximum size of an expansion.
fn longer(length: usize, more: usize) -> usize
    ensures { result ≡ min 65537 (length + more) }
{
    length.saturating_add(more).min(TEXT_MOST + 1)
}

/// Returns the length of an expansion, capped at one more than its maximum.
fn length_of<'a>(body: &'a [u8], args: &[&'a [u8]]) -> usize
    ensures { (most : ℕ) × (text : List ℕ) × Spells (map (λ arg. arg.now) args.now) body.now most text × (result ≡ min 65537 (length text)) }
{
    let mut rest = body;
    let mut length = 0usize;
    while !rest.is_empty() {
        let (piece, used) = piece_at(rest, args);
        length = longer(length, piece.len());
        rest = after(rest, used);
    }
    length
}

/// Returns the expansion, which has this length.
fn filled<'a, A: Allocator + Copy>(
    alloc: A,
    body: &'a [u8],
    args: &[&'a [u8]],
    length: usize,
) -> Result<Bytes<A>, AllocError>
    ensures { IfOk result (λ text. (most : ℕ) × Spells (map (λ arg. arg.now) args.now) body.now most text) }
{
    let mut list = Vec::with_capacity(alloc, length)?;
    let mut rest = body;
    while !rest.is_empty() {
        let (piece, used) = piece_at(rest, args);
        list.extend_from_slice(piece)?;
        rest = after(rest, used);
    }
    Ok(Bytes::of_list(alloc, list))
}

/// Returns the expansion of a macro (IEEE 488.2, 10.8): its body with `$1` to `$9` outside strings and blocks replaced
/// by the parameters as written. Strings and blocks are found as in a message; a faulty one is copied unchanged with
/// the rest of the body.
///
/// A number of parameters other than the greatest placeholder is a macro parameter error; otherwise an expansion of
/// more than 65,536 bytes is too much data. Memory is allocated only for a valid expansion.
pub fn expand<'a, A: Allocator + Copy>(
    alloc: A,
    body: &'a [u8],
    args: &[&'a [u8]],
) -> Result<Bytes<A>, ScpiError>
    ensures ok { IfOk result (λ text. ExpandsTo body.now (map (λ arg. arg.now) args.now) (Ok text)) }
    ensures err { IfErr result (λ error. ((error ≡ OutOfMemory) × (text : List ℕ)
        × ExpandsTo body.now (map (λ arg. arg.now) args.now) (Ok text))
        ⊎ ExpandsTo body.now (map (λ arg. arg.now) args.now) (Err error)) }
{
    if greatest_of(body) != args.len() {
        return Err(ScpiError::MacroParameterError);
    }
    let length = length_of(body, args);
    if length > TEXT_MOST {
        return Err(ScpiError::TooMuchData);
    }
    match filled(alloc, body, args, length) {
        Ok(text) => Ok(text),
        Err(_) => Err(ScpiError::OutOfMemory),
    }
}
