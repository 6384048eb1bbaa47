//! One step through a stream.
ghost use Rattle.std.specs.Prelude.{◌≡◌, ℕ, ◌+◌, ◌-◌, ◌^◌, ◌<◌, ◌≤◌, [], ◌++◌, List, length, take, IfOk};
ghost use Rattle.psu_hislip.specs.Channel.{Moves};
ghost use Rattle.psu_hislip.specs.Channel.Awaited.{Partial, Passing};
ghost use Rattle.psu_hislip.specs.Header.{header_bytes, Fits};
ghost use Rattle.psu_hislip.specs.Rest.{awaited, given, IsRest};

use crate::limits::PAYLOAD_MOST;
use crate::rest::Rest;
use crate::{Header, Message};
use arrayvec::ArrayVec;
use std::alloc::{AllocError, Allocator};

/// One step through a stream, up to the end of a message or of a piece.
#[derive(Drop)]
pub(crate) struct Step<A: Allocator + Copy> {
    /// The number of bytes of the piece that it took, at least one.
    pub used: usize,
    /// The message that ends with them, if one does.
    pub message: Option<Message<A>>,
    /// What has been received of the next message.
    pub rest: Rest<A>,
}

// Decodes a complete header. `used` bytes of the piece complete it and `after` follows them: where that contains the whole
// payload, the frame is complete too.
fn headed<A: Allocator + Copy>(
    alloc: A,
    bytes: &[u8; 16],
    used: usize,
    after: &[u8],
) -> Result<Step<A>, AllocError>
    requires { used + length after.now < 2 ^ 64 }
    ensures used { IfOk result (λ step. (used ≤ step.used) × (step.used ≤ used + length after.now)) }
    ensures rest { IfOk result (λ step. IsRest step.rest) }
    ensures moves { IfOk result (λ step. Moves (Partial bytes.now) (take (step.used - used) after.now) (given step.message) (awaited step.rest)) }
{
    let Some(header) = Header::read(bytes) else {
        return Ok(Step {
            used,
            message: Some(Message::BadHeader),
            rest: Rest::Ended,
        });
    };
    if header.length > PAYLOAD_MOST {
        return Ok(Step {
            used,
            message: Some(Message::Oversize(header)),
            rest: Rest::Passing(header.length),
        });
    }
    let wanted = header.length as usize;
    if after.len() < wanted {
        return Ok(Step {
            used,
            message: None,
            rest: Rest::Payload(header, Vec::with_capacity(alloc, wanted)?),
        });
    }
    Ok(Step {
        used: used + wanted,
        message: Some(Message::Frame(header, Vec::from_slice(alloc, &after[..wanted])?)),
        rest: Rest::Header(ArrayVec::new()),
    })
}

// Takes bytes of a header, and its payload where the piece contains the whole of it.
fn header<A: Allocator + Copy>(
    alloc: A,
    head: ArrayVec<u8, 16>,
    piece: &[u8],
) -> Result<Step<A>, AllocError>
    requires begun { length head.items < 16 }
    requires some { 0 < length piece.now }
    ensures used { IfOk result (λ step. (0 < step.used) × (step.used ≤ length piece.now)) }
    ensures rest { IfOk result (λ step. IsRest step.rest) }
    ensures moves { IfOk result (λ step. Moves (Partial head.items) (take step.used piece.now) (given step.message) (awaited step.rest)) }
{
    let mut head = head;
    let used = piece.len().min(16 - head.len());
    let (part, after) = piece.split_at(used);
    head.try_extend_from_slice(part).unwrap();
    match head.into_inner() {
        Ok(bytes) => headed(alloc, &bytes, used, after),
        Err(head) => Ok(Step {
            used,
            message: None,
            rest: Rest::Header(head),
        }),
    }
}

// Takes bytes of a payload.
fn payload<A: Allocator + Copy>(
    header: Header,
    payload: Vec<u8, A>,
    piece: &[u8],
) -> Result<Step<A>, AllocError>
    requires fits { Fits header }
    requires begun { length payload.items < header.length }
    requires short { header.length ≤ 65536 }
    requires some { 0 < length piece.now }
    ensures used { IfOk result (λ step. (0 < step.used) × (step.used ≤ length piece.now)) }
    ensures rest { IfOk result (λ step. IsRest step.rest) }
    ensures moves { IfOk result (λ step. Moves (Partial (header_bytes header ++ payload.items))
        (take step.used piece.now) (given step.message) (awaited step.rest)) }
{
    let mut payload = payload;
    let wanted = header.length as usize - payload.len();
    let used = piece.len().min(wanted);
    payload.extend_from_slice(&piece[..used])?;
    if used < wanted {
        return Ok(Step {
            used,
            message: None,
            rest: Rest::Payload(header, payload),
        });
    }
    Ok(Step {
        used,
        message: Some(Message::Frame(header, payload)),
        rest: Rest::Header(ArrayVec::new()),
    })
}

// Skips bytes of a payload.
fn passing<A: Allocator + Copy>(count: u64, piece: &[u8]) -> Step<A>
    requires begun { 0 < count }
    requires some { 0 < length piece.now }
    ensures used { (0 < result.used) × (result.used ≤ length piece.now) }
    ensures rest { IsRest result.rest }
    ensures moves { Moves (Passing count) (take result.used piece.now) (given result.message) (awaited result.rest) }
{
    let come = piece.len() as u64;
    if come < count {
        return Step {
            used: piece.len(),
            message: None,
            rest: Rest::Passing(count - come),
        };
    }
    Step {
        used: count as usize,
        message: None,
        rest: Rest::Header(ArrayVec::new()),
    }
}

impl<A: Allocator + Copy> Step<A> {
    /// Takes bytes of a piece of the stream, up to the end of a message or of the piece.
    pub(crate) fn take(alloc: A, rest: Rest<A>, piece: &[u8]) -> Result<Step<A>, AllocError>
        requires good { IsRest rest }
        requires some { 0 < length piece.now }
        ensures used { IfOk result (λ step. (0 < step.used) × (step.used ≤ length piece.now)) }
        ensures rest { IfOk result (λ step. IsRest step.rest) }
        ensures moves { IfOk result (λ step. Moves (awaited rest) (take step.used piece.now) (given step.message) (awaited step.rest)) }
    {
        match rest {
            Rest::Header(head) => header(alloc, head, piece),
            Rest::Payload(head, come) => payload(head, come, piece),
            Rest::Passing(count) => Ok(passing(count, piece)),
            Rest::Ended => Ok(Step {
                used: piece.len(),
                message: None,
                rest: Rest::Ended,
            }),
        }
    }
}
