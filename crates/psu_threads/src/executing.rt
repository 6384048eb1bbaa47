//! The threads of a session: the readers of its connections, its worker and its notifier.
use crate::serving::{Continue, Serving};
use psu_bench::ServedDisk;
use psu_session_io::{Asynchronous, Body, Closed, Closing, Drained, Incoming, Synchronous, Token};
use std::rt::Clock;
use std::sync::Wait;
use std::time::{Duration, Instant};
use std::{io, thread};

/// How long a connection may take to its first message, and a session to its second connection, in seconds.
pub const SILENCE_SECONDS: u64 = 10;

/// How many reads are made at most after the end of a connection.
const READS_AFTER_END: u32 = 1_024;

/// How long the last pause is between two of these reads where nothing has come, in milliseconds. The first is one
/// millisecond, and each other one twice as long as the one before it.
const PAUSE_AFTER_END: u64 = 8;

// What came.
#[derive(Drop)]
enum Came {
    Bytes,
    Nothing,
    End,
}

/// The reader of the synchronous connection.
#[derive(Drop)]
pub(crate) struct SyncReader<'s, 'v, D: ServedDisk> {
    pub serving: Serving<'s, 'v, Synchronous, D>,
    /// When the session began. It gets its second connection in time, or ends.
    pub opened: Instant,
    /// Whether reads are limited by that time.
    pub limited: bool,
    pub space: Vec<u8>,
}

impl<'s, 'v, D: ServedDisk> SyncReader<'s, 'v, D> {
    // Limits how long the next read waits, until the session has its second connection.
    fn limit<R: Wait + Clock>(&mut self, rt: &R) -> io::Result<()> {
        if self.limited {
            let passed = self.opened.elapsed(rt)?;
            let left = Duration::from_secs(SILENCE_SECONDS).saturating_sub(passed);
            self.limited = self.serving.served.limit(rt, left)?;
        }
        Ok(())
    }

    // Reads and receives what comes next, and serves it.
    fn read_once<R: Wait + Clock>(
        &mut self,
        rt: &R,
        token: &mut Token<Synchronous>,
    ) -> Result<(), Closing> {
        if self.limit(rt).is_err() {
            let ended = self.serving.connection.end();
            return Err(self.serving.end(rt, token, ended));
        }
        self.serving.read(rt, token, self.space.as_mut_slice())
    }

    // Receives what comes next of what the session was sent before a connection ended. Returns what came.
    fn read_last_once<R: Wait + Clock>(&mut self, rt: &R, token: &mut Token<Synchronous>) -> Came {
        let space = self.space.as_mut_slice();
        let (received, came) = match self.serving.connection.read(token, space) {
            Incoming::Bytes(bytes) => (self.serving.serve_bytes(rt, token, bytes), Came::Bytes),
            Incoming::Nothing => return Came::Nothing,
            Incoming::End(ended) => (Err(self.serving.end(rt, token, ended)), Came::End),
        };
        if let Err(closing) = received {
            let _closed = self.serving.served.close(rt, closing);
        }
        came
    }

    // Receives what the session was sent before a connection ended and is not read yet: until nothing has come for some
    // milliseconds, as the system passes on what it holds for the client only once there is room.
    fn read_last<R: Wait + Clock>(&mut self, rt: &R, token: &mut Token<Synchronous>) {
        let mut pause = 1;
        for _ in 0..READS_AFTER_END {
            match self.read_last_once(rt, token) {
                Came::Bytes => pause = 1,
                Came::End => return,
                Came::Nothing if pause > PAUSE_AFTER_END => return,
                Came::Nothing => {
                    thread::sleep(rt, Duration::from_millis(pause));
                    pause *= 2;
                }
            }
        }
    }

    // Executes what the session was sent before a connection ended, as far as nothing of it has to wait. The session counts
    // the units that are tried: it is over once they are as many as may be.
    fn drain<R: Wait + Clock>(&mut self, rt: &R, token: &mut Token<Synchronous>) {
        for _ in rt.forever() {
            let mut session = self.serving.served.session.lock(rt, token);
            match session.drain(rt, self.serving.server) {
                Drained::More => {}
                Drained::AllDone => return,
            }
        }
        unreachable!()
    }
}

impl<'s, 'v, D: ServedDisk> Body<Synchronous> for SyncReader<'s, 'v, D> {
    fn serve<R: Wait + Clock>(&mut self, rt: &R, token: &mut Token<Synchronous>) -> Closed {
        for _ in rt.forever() {
            if let Err(closing) = self.read_once(rt, token) {
                let closed = self.serving.served.close(rt, closing);
                self.read_last(rt, token);
                self.drain(rt, token);
                return closed;
            }
        }
        unreachable!()
    }
}

/// The reader of the asynchronous connection.
#[derive(Drop)]
pub(crate) struct AsyncReader<'s, 'v, D: ServedDisk> {
    pub serving: Serving<'s, 'v, Asynchronous, D>,
    pub space: Vec<u8>,
}

impl<'s, 'v, D: ServedDisk> Body<Asynchronous> for AsyncReader<'s, 'v, D> {
    fn serve<R: Wait + Clock>(&mut self, rt: &R, token: &mut Token<Asynchronous>) -> Closed {
        for _ in rt.forever() {
            let space = self.space.as_mut_slice();
            if let Err(closing) = self.serving.read(rt, token, space) {
                return self.serving.served.close(rt, closing);
            }
        }
        unreachable!()
    }
}

/// The worker, on the synchronous connection: it continues the execution once what a unit waits for may have come, and
/// while the reader waits. On the asynchronous connection the notifier: it sends what other sessions cause.
#[derive(Drop)]
pub(crate) struct Worker<'s, 'v, S, D: ServedDisk> {
    pub serving: Serving<'s, 'v, S, D>,
}

impl<'s, 'v, S: Continue, D: ServedDisk> Worker<'s, 'v, S, D> {
    // Waits for the next notice, or until a release is due, and serves it. Returns when the next release is due.
    fn work_once<R: Wait + Clock>(
        &mut self,
        rt: &R,
        token: &mut Token<S>,
        due: Option<u64>,
    ) -> Result<Option<u64>, Closing> {
        let left = match due {
            Some(due) => {
                let now = self.serving.server.now(rt);
                Some(Duration::from_millis(due.saturating_sub(now)))
            }
            None => None,
        };
        let arrived = self.serving.served.mailbox.wait(rt, token, left);
        self.serving.notify(rt, token, arrived)
    }
}

impl<'s, 'v, S: Continue, D: ServedDisk> Body<S> for Worker<'s, 'v, S, D> {
    fn serve<R: Wait + Clock>(&mut self, rt: &R, token: &mut Token<S>) -> Closed {
        let mut due = None;
        for _ in rt.forever() {
            match self.work_once(rt, token, due) {
                Ok(next) => due = next,
                Err(closing) => return self.serving.served.close(rt, closing),
            }
        }
        unreachable!()
    }
}
