//! A channel of notices to one thread.
use crate::Notice;
use crossbeam_channel::{Receiver, RecvTimeoutError, Sender, bounded};
use std::alloc::{AllocError, Global};
use std::rt::Clock;
use std::sync::Wait;
use std::sync::atomic::{AtomicU8, Ordering};
use std::time::Duration;

/// A channel of notices to one thread. At most one notice of a kind is on its way, so the channel is never full: to
/// post one neither waits nor allocates.
#[derive(Drop)]
pub(crate) struct Line {
    sender: Sender<Notice>,
    receiver: Receiver<Notice>,
    // The kinds of the notices that are on their way, a bit each.
    posted: AtomicU8,
}

impl Line {
    /// Returns an empty channel.
    pub fn new(alloc: Global) -> Result<Line, AllocError> {
        let (sender, receiver) = bounded(alloc, Notice::KINDS)?;
        Ok(Line {
            sender,
            receiver,
            posted: AtomicU8::new(0),
        })
    }

    /// Posts a notice, unless one of its kind is on its way.
    pub fn post<R: Wait>(&self, rt: &R, notice: Notice) {
        let bit = notice.bit();
        if self.posted.fetch_or(bit, Ordering::SeqCst) & bit == 0 {
            // It is sent: the line has both ends.
            let _ = self.sender.send(rt, notice);
        }
    }

    // Marks a notice as arrived. From now on the next one of its kind is sent.
    fn arrived(&self, notice: Notice) -> Notice {
        self.posted.fetch_and(!notice.bit(), Ordering::SeqCst);
        notice
    }

    /// Waits for the next notice.
    pub fn next<R: Wait>(&self, rt: &R) -> Notice {
        match self.receiver.recv(rt) {
            Ok(notice) => self.arrived(notice),
            Err(_) => Notice::End,
        }
    }

    /// Waits for the next notice for at most some time, after which it is `Time`.
    pub fn next_within<R: Wait + Clock>(&self, rt: &R, left: Duration) -> Notice {
        match self.receiver.recv_timeout(rt, left) {
            Ok(notice) => self.arrived(notice),
            Err(RecvTimeoutError::Timeout) => Notice::Time,
            Err(RecvTimeoutError::Disconnected) => Notice::End,
        }
    }
}
