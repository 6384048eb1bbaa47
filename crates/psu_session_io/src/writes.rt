//! Whether the bytes that were taken are written.
use psu_hislip::Side;
use std::sync::atomic::{AtomicU8, Ordering};

/// The flag of a write that is in progress.
const IN_PROGRESS: u8 = 1;

/// The flag of a write after which its thread is to continue the session.
const AWAITED: u8 = 2;

/// The writes of a session, as the threads that write and the thread that holds the session report them to each other. A
/// thread that has written need not lock the session, unless another one waits for that.
///
/// The two flags of a connection are in one word, and each call is one step on it. So a thread that waits for the end of
/// a write either finds it complete, or the thread that writes finds that it is awaited.
#[derive(Drop)]
pub struct Writes {
    sync: AtomicU8,
    asynchronous: AtomicU8,
}

impl Writes {
    /// Returns that no thread writes.
    pub(crate) fn new() -> Writes {
        Writes {
            sync: AtomicU8::new(0),
            asynchronous: AtomicU8::new(0),
        }
    }

    // Returns the flags of a connection.
    fn on(&self, side: Side) -> &AtomicU8 {
        match side {
            Side::Sync => &self.sync,
            Side::Async => &self.asynchronous,
        }
    }

    /// Begins the write of bytes that were taken. The session is held, and no write is in progress.
    pub(crate) fn begin(&self, side: Side) {
        self.on(side).store(IN_PROGRESS, Ordering::SeqCst);
    }

    /// Ends a write. Returns whether another thread waits for that: then the one that wrote continues the session.
    pub(crate) fn end(&self, side: Side) -> bool {
        self.on(side).swap(0, Ordering::SeqCst) & AWAITED != 0
    }

    /// Whether the last write on a connection is complete.
    pub(crate) fn is_complete(&self, side: Side) -> bool {
        self.on(side).load(Ordering::SeqCst) & IN_PROGRESS == 0
    }

    /// Leaves the session to the thread that writes on a connection. Returns whether that thread still writes; else the
    /// session is not left to it. The session is held.
    pub(crate) fn leave(&self, side: Side) -> bool {
        self.on(side).fetch_or(AWAITED, Ordering::SeqCst) & IN_PROGRESS != 0
    }
}
