//! Numbers as response data.
ghost use Rattle.std.specs.Prelude.{◌≡◌, [], ◌∷◌, ◌++◌, decimal, if◌then◌else◌, IfOk, OnErr};
ghost use Rattle.psu_lex.specs.ByteStorage.{NeedsAllocation};
ghost use Rattle.psu_lex.specs.Decimals.{fixed3_text};

use crate::Bytes;
use itoa::Buffer;
use std::alloc::{AllocError, Allocator};

/// Returns a whole number as response data (NR1; IEEE 488.2, 8.7.2). Only more than 24 digits need an allocation.
pub fn whole<A: Allocator + Copy>(alloc: A, number: u64) -> Result<Bytes<A>, AllocError>
    ensures ok { IfOk result (λ text. text ≡ decimal number) }
    ensures many { OnErr result (NeedsAllocation (decimal number)) }
{
    let mut buffer = Buffer::new();
    Bytes::of(alloc, buffer.format(number).as_bytes())
}

// Returns digits, preceded by a `-` where the number is negative.
fn signed<A: Allocator + Copy>(
    alloc: A,
    negative: bool,
    digits: &[u8],
) -> Result<Bytes<A>, AllocError>
    ensures ok { IfOk result (λ text. text ≡ (if negative then 45 ∷ [] else []) ++ digits.now) }
    ensures many { OnErr result (NeedsAllocation ((if negative then 45 ∷ [] else []) ++ digits.now)) }
{
    if !negative {
        return Bytes::of(alloc, digits);
    }
    let mut text = Bytes::of(alloc, b"-")?;
    text.put(digits)?;
    Ok(text)
}

/// Returns a number of thousandths as response data: the whole part, a point and three decimals (NR2; IEEE 488.2,
/// 8.7.3), such as `-0.005` for -5. Only more than 24 bytes need an allocation.
pub fn fixed3<A: Allocator + Copy>(alloc: A, thousandths: i64) -> Result<Bytes<A>, AllocError>
    ensures ok { IfOk result (λ text. text ≡ fixed3_text thousandths) }
    ensures many { OnErr result (NeedsAllocation (fixed3_text thousandths)) }
{
    let magnitude = thousandths.unsigned_abs();
    let part = magnitude % 1000;
    let mut buffer = Buffer::new();
    let whole = buffer.format(magnitude / 1000).as_bytes();
    let mut text = signed(alloc, thousandths < 0, whole)?;
    text.put(&[
        b'.',
        b'0' + (part / 100) as u8,
        b'0' + (part / 10 % 10) as u8,
        b'0' + (part % 10) as u8,
    ])?;
    Ok(text)
}
