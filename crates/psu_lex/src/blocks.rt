//! Block data.
ghost use Rattle.std.specs.Prelude.{ℕ, ◌≡◌, ◌==◌, ◌||◌, ◌<◌, ◌^◌, length, IfOk, IfErr, OnErr};
ghost use Rattle.psu_lex.specs.ByteStorage.{NeedsAllocation};
ghost use Rattle.psu_lex.specs.Bytes.{starts};
ghost use Rattle.psu_lex.specs.Data.{IsBlockOf, Refuses, definite_text};
ghost use Rattle.psu_lex.specs.declared.scpi_error.ScpiError.TheVariants.{InvalidBlockData};

use crate::pieces::{after, begins, block_end, front};
use crate::{Bytes, ScpiError};
use itoa::Buffer;
use std::alloc::{AllocError, Allocator};

/// Whether the block takes up all of its text, where it consists of the first `end` bytes after `#`: nothing follows
/// it, or it is of indefinite length.
fn is_all(rest: &[u8], end: usize) -> bool
    ensures { result ≡ (end == length rest.now || starts 48 rest.now) }
{
    end == rest.len() || begins(rest, b'0')
}

/// Returns the bytes that a text encodes as block data (IEEE 488.2, 7.7.6). A text other than exactly one whole block
/// is invalid block data. An NL may follow a block of indefinite length and is not part of it. Memory is allocated only
/// for a valid block.
pub fn block<A: Allocator + Copy>(alloc: A, text: &[u8]) -> Result<Bytes<A>, ScpiError>
    ensures ok { IfOk result (λ bytes. IsBlockOf text.now bytes) }
    ensures err { IfErr result (λ error. Refuses InvalidBlockData (IsBlockOf text.now) error) }
{
    if !begins(text, b'#') {
        return Err(ScpiError::InvalidBlockData);
    }
    let rest = after(text, 1);
    let Some(end) = block_end(rest) else {
        return Err(ScpiError::InvalidBlockData);
    };
    if !is_all(rest, end) {
        return Err(ScpiError::InvalidBlockData);
    }
    let digits = (rest[0] - b'0') as usize;
    let content = after(front(rest, end), 1 + digits);
    match Bytes::of(alloc, content) {
        Ok(bytes) => Ok(bytes),
        Err(_) => Err(ScpiError::OutOfMemory),
    }
}

/// Returns the bytes as a block of definite length (IEEE 488.2, 8.7.9), with the length in as few digits as possible.
/// Only a block of more than 24 bytes needs an allocation.
pub fn definite<A: Allocator + Copy>(alloc: A, bytes: &[u8]) -> Result<Bytes<A>, AllocError>
    requires { length bytes.now < 10 ^ 9 }
    ensures exact { IfOk result (λ text. text ≡ definite_text bytes.now) }
    ensures read { IfOk result (λ text. IsBlockOf text bytes.now) }
    ensures many { OnErr result (NeedsAllocation (definite_text bytes.now)) }
{
    let mut buffer = Buffer::new();
    let digits = buffer.format(bytes.len()).as_bytes();
    let mut text = Bytes::new(alloc);
    text.put(&[b'#', b'0' + digits.len() as u8])?;
    text.put(digits)?;
    text.put(bytes)?;
    Ok(text)
}
