//! Notices to the threads of a session.

/// A notice to a thread of a session.
#[derive(Clone, Copy, Debug, PartialEq, Eq)]
pub enum Notice {
    /// What the next unit waits for may have come, or there is a transmission to be executed.
    Continue,
    /// The lock request that waits is granted.
    Granted,
    /// The lock request that waits has failed: its time is over.
    Failed,
    /// The device may have a service request for the session.
    Service,
    /// There are bytes to be sent on the asynchronous connection.
    Output,
    /// A reader that waits for room may try again.
    Room,
    /// A release that waits may be due.
    Time,
    /// The session is over.
    End,
}

impl Notice {
    /// The number of kinds.
    pub const KINDS: usize = 8;

    /// The bit of its kind.
    pub(crate) fn bit(self) -> u8 {
        match self {
            Notice::Continue => 1,
            Notice::Granted => 2,
            Notice::Failed => 4,
            Notice::Service => 8,
            Notice::Output => 16,
            Notice::Room => 32,
            Notice::Time => 64,
            Notice::End => 128,
        }
    }
}
