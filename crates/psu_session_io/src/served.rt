//! A session that threads serve.
ghost use Rattle.std.specs.Prelude.{◌≡◌, [], IfErr, IfOk};

use crate::linear::{Closed, Closing};
use crate::link::Link;
use crate::{Asynchronous, Connection, Locked, Mailbox, SessionLock, Synchronous, Unanswered};
use psu_hislip::Side;
use psu_locks::Session;
use std::alloc::{AllocError, Global};
use std::io::{self, ErrorKind};
use std::rt::Clock;
use std::sync::{Arc, Condvar, Mutex, Wait};
use std::thread;
use std::time::Duration;

/// How long the first connection of a session that is closed may still be read, in milliseconds.
const CLOSING_GRACE: u64 = 50;

// The second connection of a session.
#[derive(Drop)]
enum Second {
    // It has not come.
    Awaited,
    // It is there.
    Open(Arc<Link>),
    // It has ended, or does not come any more.
    Ended,
}

/// The session has its second connection, or is over.
#[derive(Clone, Copy, Debug, PartialEq, Eq)]
pub struct NotAwaited;

/// A session that threads serve: its number, its value behind a mutex with what its threads call the device by, the notices
/// to its threads, and its connections.
#[derive(Drop)]
pub struct ServedSession<V> {
    pub number: Session,
    pub session: SessionLock<V>,
    pub mailbox: Arc<Mailbox>,
    first: Arc<Link>,
    second: Mutex<Second>,
    ended: Condvar,
}

impl<V: Locked + Drop> ServedSession<V> {
    /// Returns a session that waits for its second connection; the value where memory is refused.
    pub fn new(
        session: V,
        mailbox: Arc<Mailbox>,
        first: &Unanswered<Synchronous>,
    ) -> Result<ServedSession<V>, V>
        ensures number { IfOk result (λ served. served.number ≡ V.number session) }
        ensures refused { IfErr result (λ refused. refused ≡ session) }
    {
        let Ok(first) = Arc::try_clone(&first.link) else {
            return Err(session);
        };
        Ok(ServedSession {
            number: session.number(),
            session: SessionLock::new(session)?,
            mailbox,
            first,
            second: Mutex::new(Second::Awaited),
            ended: Condvar::new(),
        })
    }

    /// Limits how long a read of the first connection waits, unless the second one has come. Returns whether it is
    /// limited; an error where no time is left.
    pub fn limit<R: Wait>(&self, rt: &R, left: Duration) -> io::Result<bool> {
        let second = self.second.lock(rt);
        if matches!(&*second, Second::Open(_)) {
            return Ok(false);
        }
        if left < Duration::from_millis(1) {
            return Err(io::Error::from(ErrorKind::TimedOut));
        }
        self.first.wait_at_most(Some(left))?;
        Ok(true)
    }

    /// Adds the second connection. From now on reads of the first one wait without a limit.
    pub fn join<R: Wait>(
        &self,
        rt: &R,
        connection: &Unanswered<Asynchronous>,
    ) -> Result<(), NotAwaited> {
        let Ok(link) = Arc::try_clone(&connection.link) else {
            return Err(NotAwaited);
        };
        let mut second = self.second.lock(rt);
        if !matches!(&*second, Second::Awaited) || self.first.wait_at_most(None).is_err() {
            return Err(NotAwaited);
        }
        *second = Second::Open(link);
        Ok(())
    }

    /// Closes a session that is not open any more: its second connection ends, and all threads are notified. On the first
    /// one no thread waits from now on for what comes; what the client has sent there can still be read, unless a thread
    /// writes there, which has to return.
    pub fn close<R: Wait>(&self, rt: &R, closing: Closing) -> Closed {
        if self.session.is_writing(Side::Sync) {
            self.first.shut();
        } else {
            self.first.end_waits();
        }
        let mut second = self.second.lock(rt);
        match &*second {
            Second::Open(link) => link.shut(),
            Second::Awaited => *second = Second::Ended,
            Second::Ended => {}
        }
        drop(second);
        self.mailbox.end(rt, closing)
    }

    /// Ends the first connection once its reader has had the time to read what was sent there before: so it returns also
    /// where it waited already.
    pub fn end_first<R: Clock>(&self, rt: &R) {
        thread::sleep(rt, Duration::from_millis(CLOSING_GRACE));
        self.first.shut();
    }

    /// Returns its synchronous connection, for a thread that writes on it beside the one that reads it.
    pub fn beside_reader(&self, alloc: Global) -> Result<Connection<Synchronous>, AllocError>
        ensures { IfOk result (λ connection. connection ≡ []) }
    {
        let link = Arc::try_clone(&self.first)?;
        Ok(Connection::new(link, Vec::new(alloc)))
    }

    /// Ends a session, also where no thread serves it: shuts both connections, and notifies all threads.
    pub fn abandon<R: Wait>(&self, rt: &R) -> Closed {
        let closing = self.session.abandon(rt);
        self.close(rt, closing)
    }

    /// The threads of the second connection have ended.
    pub fn second_has_ended<R: Wait>(&self, rt: &R) {
        *self.second.lock(rt) = Second::Ended;
        self.ended.notify_all();
    }

    /// Waits for the threads of the second connection, if it ever came.
    pub fn wait_for_second<R: Wait>(&self, rt: &R) {
        let second = self.second.lock(rt);
        drop(
            self.ended
                .wait_while(rt, second, |second| matches!(second, Second::Open(_))),
        );
    }
}
