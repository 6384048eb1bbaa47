//! What a session has received and not yet executed, and what it executes next.

use psu_hislip::Origin;
use psu_messages::{Input, Transmission};
use std::alloc::Global;

/// A transmission that is to be executed: its origin, and its text or the error that is reported in place of one.
#[derive(Drop)]
pub(crate) struct Order {
    pub origin: Origin,
    pub input: Input<Global>,
}

/// An item of the queue, which is in the order of arrival.
#[derive(Drop)]
pub(crate) enum Work {
    /// A transmission is to be executed.
    Execute(Order),
    /// A lock is to be released.
    Release,
}

/// The release of a lock, which waits for the message that the client sent last before it requested the release.
#[derive(Clone, Copy, Debug, PartialEq, Eq)]
pub(crate) struct Release {
    /// The number of that message.
    pub number: u32,
    /// When the release was requested, in milliseconds.
    pub requested_at: u64,
}

/// A unit that the device has accepted, and settles: it has at most one of a session.
#[derive(Clone, Copy)]
pub(crate) struct Accepted;

/// The transmission in execution, and its origin.
#[derive(Drop)]
pub(crate) struct Running {
    pub origin: Origin,
    pub transmission: Transmission<Global, Accepted>,
}

/// What is executed next.
#[derive(Clone, Copy, Debug, PartialEq, Eq)]
pub(crate) enum NextWork {
    /// Nothing.
    Nothing,
    /// The transmission in execution.
    Transmission,
    /// The release of a lock.
    Release,
}
