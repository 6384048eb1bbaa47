//! The frames of responses.
ghost use Rattle.std.specs.Prelude.{◌≡◌, ◌<◌, List, ℕ, IfOk};
ghost use Rattle.psu_hislip.specs.Answer.{answer_size, data_of, IsCut, IsAnswer, IsPart};

use crate::MessageType;
use crate::frames::put_frame;
use crate::limits::{HEADER_SIZE, SENT_PAYLOAD_MOST};
use std::alloc::{AllocError, Allocator};

/// Returns the maximum payload size for a client that accepts messages of this size.
pub(crate) fn answer_size(size: Option<u64>) -> usize
    ensures size { result ≡ answer_size size }
    ensures some { 0 < result }
{
    match size {
        None => SENT_PAYLOAD_MOST as usize,
        Some(size) => size
            .saturating_sub(HEADER_SIZE)
            .min(SENT_PAYLOAD_MOST)
            .max(1) as usize,
    }
}

// Encodes the full pieces as Data frames; returns these and the rest for a last frame.
fn cut<A: Allocator + Copy>(
    alloc: A,
    size: usize,
    id: u32,
    bytes: &[u8],
) -> Result<(Vec<u8, A>, &[u8]), AllocError>
    requires { 0 < size }
    ensures { IfOk result (λ cut. (full : List (List ℕ)) × IsCut size bytes.now full cut.1.now × (cut.0.items ≡ data_of id full)) }
{
    let mut frames = Vec::new(alloc);
    let mut rest = bytes;
    while rest.len() > size {
        put_frame(&mut frames, MessageType::Data, id, &rest[..size])?;
        rest = &rest[size..];
    }
    Ok((frames, rest))
}

/// Returns the frames of a response that is sent whole.
pub(crate) fn answer_frames<A: Allocator + Copy>(
    alloc: A,
    size: usize,
    id: u32,
    bytes: &[u8],
) -> Result<Vec<u8, A>, AllocError>
    requires { 0 < size }
    ensures { IfOk result (λ frames. IsAnswer size id bytes.now frames.items) }
{
    let (mut frames, last) = cut(alloc, size, id, bytes)?;
    put_frame(&mut frames, MessageType::DataEnd, id, last)?;
    Ok(frames)
}

/// Returns the frames of a part of a response that continues after it.
pub(crate) fn part_frames<A: Allocator + Copy>(
    alloc: A,
    size: usize,
    id: u32,
    bytes: &[u8],
) -> Result<Vec<u8, A>, AllocError>
    requires { 0 < size }
    ensures { IfOk result (λ frames. IsPart size id bytes.now frames.items) }
{
    let (mut frames, last) = cut(alloc, size, id, bytes)?;
    if last.is_empty() {
        return Ok(frames);
    }
    put_frame(&mut frames, MessageType::Data, id, last)?;
    Ok(frames)
}
