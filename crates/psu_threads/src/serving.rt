//! What a thread of a session does on its connection.
use crate::server::Server;
use crate::{SeatedSession, SessionOf};
use psu_bench::ServedDisk;
use psu_session_io::{
    Arrived, Asynchronous, BytesRead, Closing, Connection, ConnectionSide, Disconnected, Incoming,
    Locked, NextTask, Pending, Received, Remainder, Synchronous, Token,
};
use std::rt::Clock;
use std::sync::Wait;

/// How a thread that writes on a connection continues a session.
pub trait Continue: ConnectionSide + Sized {
    /// Continues a session, and takes what is to be written on the connection.
    fn proceed<R: Wait + Clock, D: ServedDisk>(
        rt: &R,
        server: &Server,
        session: &mut SeatedSession<D>,
        pending: Pending<Self>,
    ) -> Result<Remainder<Self>, Closing>;
}

impl Continue for Synchronous {
    #[inline(always)]
    fn proceed<R: Wait + Clock, D: ServedDisk>(
        rt: &R,
        server: &Server,
        session: &mut SeatedSession<D>,
        pending: Pending<Synchronous>,
    ) -> Result<Remainder<Synchronous>, Closing> {
        session.execute(rt, server, pending)
    }
}

impl Continue for Asynchronous {
    // The execution is left to the worker.
    fn proceed<R: Wait + Clock, D: ServedDisk>(
        rt: &R,
        server: &Server,
        session: &mut SeatedSession<D>,
        pending: Pending<Asynchronous>,
    ) -> Result<Remainder<Asynchronous>, Closing> {
        let _ = rt;
        let _ = server;
        session.respond(pending)
    }
}

/// What a thread of a session works with.
#[derive(Drop)]
pub(crate) struct Serving<'s, 'v, S, D: ServedDisk> {
    pub server: &'s Server,
    pub served: &'v SessionOf<D>,
    pub connection: Connection<S>,
}

impl<'s, 'v, S: Continue, D: ServedDisk> Serving<'s, 'v, S, D> {
    // Receives bytes, once there is room for them, and continues the session.
    fn receive<R: Wait + Clock>(
        &mut self,
        rt: &R,
        token: &mut Token<S>,
        read: BytesRead<'_, S>,
    ) -> Result<Remainder<S>, Closing> {
        let mut bytes = read;
        for _ in rt.forever() {
            let mut session = self.served.session.lock(rt, token);
            // To read the clock costs more than to receive a small message.
            let now = if session.needs_time(S::SIDE) {
                self.server.now(rt)
            } else {
                0
            };
            match session.receive(rt, self.server, now, bytes)? {
                Received::All(pending) => {
                    return S::proceed(rt, self.server, &mut session, pending);
                }
                Received::Full(returned) => {
                    drop(session);
                    bytes = returned;
                    self.served.mailbox.wait_for_room(rt, token);
                }
                Received::Again(returned) => bytes = returned,
            }
        }
        unreachable!()
    }

    // Notifies the other threads, writes what was taken, and continues the session until it waits. Returns when the
    // first release that waits is due.
    #[inline(always)]
    fn finish<R: Wait + Clock>(
        &mut self,
        rt: &R,
        token: &mut Token<S>,
        remainder: Remainder<S>,
    ) -> Result<Option<u64>, Closing> {
        let mut next = self.served.mailbox.notify_others(rt, remainder);
        for _ in rt.forever() {
            next = match next {
                NextTask::Write(outgoing) => {
                    let written = self.connection.write(token, outgoing);
                    self.served.session.note_write(rt, token, written)?
                }
                NextTask::Continue(pending) => {
                    let mut session = self.served.session.lock(rt, token);
                    let remainder = S::proceed(rt, self.server, &mut session, pending)?;
                    drop(session);
                    self.served.mailbox.notify_others(rt, remainder)
                }
                NextTask::Wait(due) => return Ok(due),
            };
        }
        unreachable!()
    }

    /// Receives bytes, and serves the session up to where it waits.
    pub fn serve_bytes<R: Wait + Clock>(
        &mut self,
        rt: &R,
        token: &mut Token<S>,
        bytes: BytesRead<'_, S>,
    ) -> Result<(), Closing> {
        let remainder = self.receive(rt, token, bytes)?;
        let _due = self.finish(rt, token, remainder)?;
        Ok(())
    }

    /// Reads what comes next on the connection, passes it to the session, and serves it. Its end ends the session.
    pub fn read<R: Wait + Clock>(
        &mut self,
        rt: &R,
        token: &mut Token<S>,
        space: &mut [u8],
    ) -> Result<(), Closing> {
        match self.connection.read(token, space) {
            Incoming::Bytes(bytes) => self.serve_bytes(rt, token, bytes),
            Incoming::Nothing => self.served.session.lock(rt, token).look(),
            Incoming::End(ended) => Err(self.end(rt, token, ended)),
        }
    }

    /// Passes a notice to the session, and serves it. Returns when the first release that waits is due.
    pub fn notify<R: Wait + Clock>(
        &mut self,
        rt: &R,
        token: &mut Token<S>,
        arrived: Arrived<S>,
    ) -> Result<Option<u64>, Closing> {
        let now = self.server.now(rt);
        let mut session = self.served.session.lock(rt, token);
        let pending = session.notify(rt, self.server, now, arrived)?;
        let remainder = S::proceed(rt, self.server, &mut session, pending)?;
        drop(session);
        self.finish(rt, token, remainder)
    }

    /// Ends the session, since a connection has ended.
    pub fn end<R: Wait>(
        &mut self,
        rt: &R,
        token: &mut Token<S>,
        disconnected: Disconnected,
    ) -> Closing {
        let mut session = self.served.session.lock(rt, token);
        session.disconnect(disconnected)
    }
}
