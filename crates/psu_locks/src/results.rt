//! The results of calls on the locks.

/// The reason for which a call on the locks is refused. The locks are then unchanged.
#[derive(Clone, Copy, Debug, PartialEq, Eq)]
pub enum LockRefusal {
    /// The session requests a kind of lock that it already holds.
    AlreadyHeld,
    /// The session releases a lock but holds none.
    NotHeld,
    /// A request of this session is already waiting.
    Waiting,
}

/// The immediate result of a lock request.
#[derive(Clone, Copy, Debug, PartialEq, Eq)]
pub enum Grant {
    /// The session holds the lock.
    Granted,
    /// The request waits.
    Queued,
    /// The lock can't be granted, and the request was not allowed to wait.
    Failed,
}

/// The lock that a release released: the exclusive lock if the session held it, otherwise the shared one.
#[derive(Clone, Copy, Debug, PartialEq, Eq)]
pub enum Freed {
    Exclusive,
    Shared,
}

/// The lock information: whether the exclusive lock is held, and how many sessions hold a lock.
#[derive(Clone, Copy, Debug, PartialEq, Eq)]
pub struct Info {
    pub exclusive: bool,
    pub holders: u8,
}
