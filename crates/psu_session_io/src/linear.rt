//! What must not be forgotten. These types have no `Drop`, but for `Closed`; `AfterWrite` is only a part of some of them.
use crate::Notice;
use crate::link::{BytesRead, Sent};
use psu_replies::CannotDrop;
use std::marker::PhantomData;

/// The result of a session's receiving of bytes.
pub enum Received<'a, S> {
    /// They are received.
    All(Pending<S>),
    /// The session holds too much. The reader has to wait until there is room, and then try again.
    Full(BytesRead<'a, S>),
    /// The session holds too much, and a connection has ended: there may be room now, since a part of what was sent before
    /// was executed.
    Again(BytesRead<'a, S>),
}

/// The session has changed, and its thread must continue it.
pub struct Pending<S> {
    // Whether a unit that waits is tried again.
    pub(crate) again: bool,
    pub(crate) duty: CannotDrop,
    pub(crate) side: PhantomData<S>,
}

/// What is to be done once a thread has continued a session: bytes that were taken are to be written, and the other
/// threads notified. The mailbox must notify them, and returns what the thread does then.
pub struct Remainder<S> {
    /// The bytes that were taken, if there are any.
    pub(crate) bytes: Option<Vec<u8>>,
    /// Whether this thread continues the session, after it has written.
    pub(crate) more: bool,
    /// Whether the next unit waits for room for its changes.
    pub(crate) late: bool,
    /// Whether there is something for a thread of the other side: output, or for the worker a transmission.
    pub(crate) other: bool,
    /// Whether the synchronous reader waits for room, and there is room.
    pub(crate) sync_room: bool,
    /// Whether the asynchronous reader waits for room, and there is room.
    pub(crate) async_room: bool,
    /// When the first release that waits is due, in milliseconds.
    pub(crate) due: Option<u64>,
    pub(crate) duty: CannotDrop,
    pub(crate) side: PhantomData<S>,
}

/// What a thread does once the others are notified.
pub enum NextTask<S> {
    /// It writes these bytes.
    Write(Outgoing<S>),
    /// It continues the session.
    Continue(Pending<S>),
    /// It waits, until this time in milliseconds if there is one, since a release is due then.
    Wait(Option<u64>),
}

/// What a thread does once it has written.
#[derive(Clone, Copy, Debug, PartialEq, Eq)]
pub(crate) struct AfterWrite {
    /// Whether it continues the session, even if no other thread waits for that.
    pub more: bool,
    /// Whether it then tries a unit again that waits.
    pub again: bool,
    /// When the first release that waits is due, in milliseconds.
    pub due: Option<u64>,
}

/// Bytes that were taken from a session's output. The connection must write them.
pub struct Outgoing<S> {
    pub(crate) bytes: Vec<u8>,
    pub(crate) after: AfterWrite,
    pub(crate) duty: CannotDrop,
    pub(crate) side: PhantomData<S>,
}

/// Bytes that are written, and are these. The session's lock must be notified.
pub struct Written<S> {
    pub(crate) sent: Sent,
    pub(crate) after: AfterWrite,
    pub(crate) duty: CannotDrop,
    pub(crate) side: PhantomData<S>,
}

/// A notice that arrived. The session must be notified.
pub struct Arrived<S> {
    pub(crate) notice: Notice,
    pub(crate) duty: CannotDrop,
    pub(crate) side: PhantomData<S>,
}

/// A connection has ended, or is to end. The session must be notified.
pub struct Disconnected {
    pub(crate) duty: CannotDrop,
}

/// The session is not open any more. Its connections must be shut, and its threads notified.
pub struct Closing {
    pub(crate) duty: CannotDrop,
}

/// The session is not open, its connections are shut and its threads notified. Only with this value a thread may end.
#[derive(Drop)]
pub struct Closed(pub(crate) ());
