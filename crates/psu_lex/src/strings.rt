//! String data.
ghost use Rattle.std.specs.Prelude.{◌≡◌, ◌≤◌, ◌-◌, true, false, length, take, drop, slice_index, IfOk, IfErr};
ghost use Rattle.psu_lex.specs.Data.{IsStringOf, Refuses};
ghost use Rattle.psu_lex.specs.Scan.{is_string, quoted, single};
ghost use Rattle.psu_lex.specs.declared.scpi_error.ScpiError.TheVariants.{InvalidStringData};

use crate::pieces::{between, is_quote_byte, whole_end};
use crate::{Bytes, ScpiError};
use std::alloc::{AllocError, Allocator};

/// Returns the bytes between the quotes, with each doubled quote once.
fn undoubled<A: Allocator + Copy>(alloc: A, body: &[u8], quote: u8) -> Result<Bytes<A>, AllocError>
    ensures { IfOk result (λ bytes. bytes ≡ single false quote body.now) }
{
    let mut list = Vec::with_capacity(alloc, body.len())?;
    let mut second = false;
    for byte in body {
        if second {
            second = false;
            continue;
        }
        list.push(*byte)?;
        second = *byte == quote;
    }
    Ok(Bytes::of_list(alloc, list))
}

/// Whether the text is exactly one whole string.
fn is_string(text: &[u8]) -> bool
    ensures is { result ≡ is_string text.now }
    ensures long { result ≡ true → 2 ≤ length text.now }
{
    if !is_quote_byte(text) {
        return false;
    }
    match whole_end(text) {
        Some(end) => end == text.len(),
        None => false,
    }
}

/// Returns the bytes that a text encodes as string data (IEEE 488.2, 7.7.5). A text other than exactly one whole string
/// is invalid string data. Memory is allocated only for a valid string.
pub fn string<A: Allocator + Copy>(alloc: A, text: &[u8]) -> Result<Bytes<A>, ScpiError>
    ensures ok { IfOk result (λ bytes. IsStringOf text.now bytes) }
    ensures err { IfErr result (λ error. Refuses InvalidStringData (IsStringOf text.now) error) }
{
    if !is_string(text) {
        return Err(ScpiError::InvalidStringData);
    }
    match undoubled(alloc, between(text, 1, text.len() - 1), text[0]) {
        Ok(bytes) => Ok(bytes),
        Err(_) => Err(ScpiError::OutOfMemory),
    }
}
