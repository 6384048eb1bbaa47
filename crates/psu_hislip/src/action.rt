//! The actions that the messages of a session ask for.

use crate::Side;
use arrayvec::ArrayVec;
use std::alloc::Allocator;

/// The origin of a message of the synchronous channel: its place in its session.
#[derive(Clone, Copy, Debug, PartialEq, Eq)]
pub struct Origin {
    /// Its MessageID, which the frames of its response carry.
    pub id: u32,
    /// The number of device clears in the session before it, modulo 2^64. A response to it is dropped after another
    /// device clear.
    pub clears: u64,
}

/// The maximum size of a message that an action sends, in bytes: a header, and the 8 bytes of a maximum message size,
/// the longest payload among these messages. So an action holds its message inline, and no allocation can fail.
pub const SENT_MOST: usize = 24;

/// What a message of a session asks for.
#[derive(Drop)]
pub enum Action<A: Allocator + Copy> {
    /// These bytes are to be sent on this channel.
    Send(Side, ArrayVec<u8, SENT_MOST>),
    /// A transmission is whole and is to be executed.
    Execute(Origin, Vec<u8, A>),
    /// A transmission had more than 65,536 bytes, and none were kept: the instrument reports too much data.
    TooMuch(Origin),
    /// A trigger was received. The instrument never waits for one and reports that it is ignored.
    Trigger(Origin),
    /// The client has read the whole last response (RMT-delivered).
    Delivered,
    /// The status byte is requested; the flag is whether the client has read the whole last response (RMT-delivered).
    Status(bool),
    /// A lock is requested, with a timeout of so many milliseconds: the exclusive lock where the string is empty,
    /// otherwise the shared lock under that string of at most 256 bytes.
    Lock(u32, Vec<u8, A>),
    /// A lock is to be released once the received messages are finished.
    Release,
    /// The lock information is requested (AsyncLockInfo).
    Info,
    /// A device clear: everything that the session has begun is dropped, including what has an origin before it.
    Clear,
    /// The session has ended.
    Closed,
}

// The action that fills the unused places of a list.
impl<A: Allocator + Copy> Default for Action<A> {
    fn default() -> Action<A> {
        Action::Closed
    }
}

/// The actions of one message, in order: two where the session ends (a FatalError, Closed), where a device clear begins
/// (Clear, its acknowledgement) and where a client that has read the last response ends a transmission (Delivered,
/// Execute or TooMuch), and at most one otherwise.
pub type Actions<A> = ArrayVec<Action<A>, 2>;
