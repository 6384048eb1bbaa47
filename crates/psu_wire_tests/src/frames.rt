//! Helpers of the tests of frames: messages with the bytes of the profile's table, and memory that is refused.
use bumpalo::Bump;
use psu_hislip::{Channel, Message, Origin};
use std::alloc::Allocator;
use std::collections::VecDeque;

/// Returns a message without parameter and payload.
pub(crate) fn bare(kind: u8, control: u8) -> [u8; 16] {
    [
        0x48, 0x53, kind, control, 0, 0, 0, 0, 0, 0, 0, 0, 0, 0, 0, 0,
    ]
}

/// Returns the origin of a message with this MessageID in a session that has had no device clear.
pub(crate) fn origin(id: u32) -> Origin {
    Origin { id, clears: 0 }
}

/// Leaves this many bytes of an arena free.
pub(crate) fn leave(arena: &Bump, left: usize) -> Option<()> {
    arena.set_allocation_limit(Some(arena.allocated_bytes()));
    let spare = arena.chunk_capacity();
    if spare < left {
        return None;
    }
    arena.try_alloc_slice_fill_clone(spare - left, 0u8).ok()?;
    Some(())
}

/// Feeds a piece and returns its messages, or `None` where memory is refused.
pub(crate) fn feed<A: Allocator + Copy>(
    alloc: A,
    channel: &mut Channel<A>,
    piece: &[u8],
) -> Option<VecDeque<Message<A>, A>> {
    let mut messages = VecDeque::new(alloc);
    channel.feed(piece, &mut messages).ok()?;
    Some(messages)
}

/// The messages of a piece, with memory of an arena.
pub(crate) type Fed<'a> = VecDeque<Message<&'a Bump>, &'a Bump>;

/// Feeds a piece, and again with all memory where it is refused; returns the messages, and whether it was refused.
pub(crate) fn feed_again<'a>(
    channel: &mut Channel<&'a Bump>,
    arena: &'a Bump,
    piece: &[u8],
) -> Option<(Fed<'a>, bool)> {
    let mut messages = VecDeque::new(arena);
    let refused = channel.feed(piece, &mut messages).is_err();
    if refused {
        arena.set_allocation_limit(None);
        channel.feed(piece, &mut messages).ok()?;
    }
    Some((messages, refused))
}

/// Whether a message is a frame of this type and payload.
pub(crate) fn is_frame(message: Option<&Message<&Bump>>, kind: u8, wanted: &[u8]) -> bool {
    match message {
        Some(Message::Frame(header, payload)) => header.kind == kind
            && payload.as_slice() == wanted,
        _ => false,
    }
}
