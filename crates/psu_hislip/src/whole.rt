//! The whole frames of a piece.
ghost use Rattle.std.specs.Prelude.{◌≡◌, ℕ, [], ◌++◌, List, IfSome, IfOk};
ghost use Rattle.psu_hislip.specs.Stream.{StartsWith};
ghost use Rattle.psu_hislip.specs.Stream.Received.{Frame};
ghost use Rattle.psu_hislip.specs.Channel.Awaited.{Partial};
ghost use Rattle.psu_hislip.specs.Rest.{IsCutOf};
ghost use Rattle.psu_hislip.specs.declared.message.Message as declared;

use crate::limits::PAYLOAD_MOST;
use crate::{Header, Message};
use std::alloc::{AllocError, Allocator};
use std::collections::VecDeque;

/// Appends the whole frames that a piece begins with, and returns the rest of the piece.
///
/// Where allocation fails, the list may contain some of the frames.
pub(crate) fn take_frames<'a, A: Allocator + Copy>(
    alloc: A,
    messages: &mut VecDeque<Message<A>, A>,
    piece: &'a [u8],
) -> Result<&'a [u8], AllocError>
    ensures frames { IfOk result (λ left. (taken : List ℕ) × (piece.now ≡ taken ++ left.now)
        × IsCutOf messages.old.items (Partial []) taken messages.new.items (Partial [])) }
    ensures appended { (more : List (declared.Message A)) × (messages.new.items ≡ messages.old.items ++ more) }
{
    let mut left = piece;
    while let Some((header, payload, after)) = first_frame(left) {
        let payload = Vec::from_slice(alloc, payload)?;
        messages.push_back(Message::Frame(header, payload))?;
        left = after;
    }
    Ok(left)
}

// Returns the frame that the bytes begin with, as its header, its payload and the bytes after it, or `None` where it is
// not whole.
fn first_frame(bytes: &[u8]) -> Option<(Header, &[u8], &[u8])>
    ensures { IfSome result (λ frame. StartsWith (Frame frame.0 frame.1.now) bytes.now frame.2.now) }
{
    let (head, after) = bytes.split_first_chunk()?;
    let header = Header::read(head)?;
    if header.length > PAYLOAD_MOST || header.length > after.len() as u64 {
        return None;
    }
    let (payload, after) = after.split_at(header.length as usize);
    Some((header, payload, after))
}
