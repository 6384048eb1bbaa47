//! Where the units of a message end.
ghost use Rattle.std.specs.Prelude.{List, [], ◌∷◌, ◌≡◌, ◌≤◌, Bool, Some, true, false, length, take, drop, IfOk, IfErr};
ghost use Rattle.psu_lex.specs.Bytes.{all_white, opens};
ghost use Rattle.psu_lex.specs.Message.{MakesUnits, Part, ends_unit, fault_of, opens_first};
ghost use Rattle.psu_lex.specs.Scan.{has, stops, stops_first};

use crate::UnitFault;
use crate::class::is_white;
use crate::pieces::{after, piece_end};

/// Whether the byte begins a string or a block.
fn opens(byte: u8) -> bool
    ensures { result ≡ opens byte }
{
    byte == b'"' || byte == b'\'' || byte == b'#'
}

/// Whether the text begins with a byte that begins a string or a block.
fn opens_first(text: &[u8]) -> bool
    ensures { result ≡ opens_first text.now }
{
    !text.is_empty() && opens(text[0])
}

/// Whether the byte ends a unit, or begins a string or a block. Letters and digits do neither, which is tested first.
fn stops(byte: u8) -> bool
    ensures { result ≡ stops byte }
{
    if byte > b';' {
        return false;
    }
    if byte >= b'(' {
        return byte == b';';
    }
    byte == b'\n' || opens(byte)
}

/// Returns the number of bytes before the first that ends a unit or begins a string or a block.
fn plain_end(text: &[u8]) -> usize
    ensures within { result ≤ length text.now }
    ensures free { has stops (take result text.now) ≡ false }
    ensures ends { stops_first (drop result text.now) ≡ true }
{
    for at in 0..text.len() {
        if stops(text[at]) {
            return at;
        }
    }
    text.len()
}

/// Returns the fault of a string or block that is not whole.
fn fault_at(piece: &[u8]) -> UnitFault
    requires { opens_first piece.now ≡ true }
    ensures { result ≡ fault_of piece.now }
{
    if piece[0] == b'#' {
        UnitFault::Block
    } else {
        UnitFault::String
    }
}

/// Returns the length of the unit at the beginning, or its fault.
pub(crate) fn unit_end(bytes: &[u8]) -> Result<usize, UnitFault>
    ensures within { IfOk result (λ n. n ≤ length bytes.now) }
    ensures end { IfOk result (λ n. ends_unit (drop n bytes.now) ≡ true) }
    ensures ok { IfOk result (λ n. (first : Bool) (units : List Part)
        → MakesUnits first (take n bytes.now) (drop n bytes.now) units → MakesUnits first [] bytes.now units) }
    ensures err { IfErr result (λ fault. (first : Bool) → MakesUnits first [] bytes.now (record { text = bytes.now; first = first; fault = Some fault } ∷ [])) }
{
    let mut at = 0;
    'pieces: loop {
        let rest = after(bytes, at);
        let plain = plain_end(rest);
        let piece = after(rest, plain);
        if !opens_first(piece) {
            return Ok(at + plain);
        }
        let Some(length) = piece_end(piece) else {
            return Err(fault_at(piece));
        };
        at += plain + length;
    }
}

/// Whether the text is white space alone.
pub(crate) fn is_blank(text: &[u8]) -> bool
    ensures { result ≡ all_white text.now }
{
    for byte in text {
        if !is_white(*byte) {
            return false;
        }
    }
    true
}
