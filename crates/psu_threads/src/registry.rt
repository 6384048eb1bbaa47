//! The sessions that are open.
use psu_exec::{Session, Sessions};
use psu_session_io::{Mailbox, Notice};
use std::sync::{Arc, Wait};

/// The sessions that are open. A thread holds it while it opens or ends a session, or makes a call that grants or fails
/// the lock requests of others: so a number that the device returns is that of the session that is registered here. It
/// is locked after a session and before the device.
#[derive(Drop)]
pub struct Registry {
    mailboxes: [Option<Arc<Mailbox>>; 16],
}

impl Registry {
    /// Returns a registry without sessions.
    pub fn new() -> Registry {
        Registry {
            mailboxes: [
                None, None, None, None, None, None, None, None, None, None, None, None, None, None,
                None, None,
            ],
        }
    }

    /// Sets the mailbox of the session that has a number; none where its session is closed.
    pub fn set(&mut self, number: Session, mailbox: Option<Arc<Mailbox>>) {
        self.mailboxes[number.place()] = mailbox;
    }

    /// Posts a notice to sessions.
    pub fn post<R: Wait>(&self, rt: &R, sessions: &Sessions, notice: Notice) {
        for number in sessions.as_slice() {
            if let Some(mailbox) = &self.mailboxes[number.place()] {
                mailbox.post(rt, notice);
            }
        }
    }

    /// Wakes the sessions whose units wait for room.
    pub fn wake_late<R: Wait>(&self, rt: &R) {
        for mailbox in self.mailboxes.iter().flatten() {
            mailbox.wake_late(rt);
        }
    }

    /// Wakes all sessions: locks have changed.
    pub fn wake_all<R: Wait>(&self, rt: &R) {
        for mailbox in self.mailboxes.iter().flatten() {
            mailbox.post(rt, Notice::Continue);
        }
    }
}
