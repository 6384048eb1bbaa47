//! A connection, from its first byte to its end.
ghost use Rattle.std.specs.Prelude.{◌≡◌, IfSome};
ghost use Rattle.std.specs.Arc.{arc_value};

use crate::directory::Directory;
use crate::opening::{Opened, close, first_message, open};
use crate::server_runtime::ServerRuntime;
use crate::silent_connections::SilentConnections;
use psu_bench::{Access, ServedDisk};
use psu_exec::Session;
use psu_hislip::FatalCode;
use psu_session_io::{
    Asynchronous, Closed, Connection, ConnectionEnd, FirstRead, NewConnection, Synchronous,
    Unanswered,
};
use psu_threads::{Continue, Server, SessionOf, listen_session, read_session, work_beside};
use std::rt::Clock;
use std::sync::{Arc, Mutex, Wait};
use std::thread::JoinHandle;
use std::time::Instant;
use std::{io, thread};

/// A connection that was accepted.
#[derive(Drop)]
pub(crate) struct Accepted<D: ServedDisk> {
    pub server: Arc<Server>,
    pub sessions: Arc<Mutex<Directory<D>>>,
    pub silent: Arc<Mutex<SilentConnections>>,
    pub number: u64,
    pub end: ConnectionEnd,
    pub access: Access<D>,
}

impl<D: ServedDisk> Accepted<D> {
    // Serves a session over its synchronous connection, until it is over.
    fn start<R: Wait + Clock>(
        &mut self,
        rt: &R,
        connection: Unanswered<Synchronous>,
    ) -> io::Result<()> {
        let began = Instant::now(rt)?;
        let access = self.access.split()?;
        let Some(opened) = open(rt, &self.server, access, &connection)? else {
            connection.refuse(FatalCode::TooManyClients);
            return Ok(());
        };
        let Opened {
            response,
            served,
            must_close,
        } = opened;
        let number = served.number;
        self.sessions
            .lock(rt)
            .set(number, Arc::try_clone(&served).ok());
        let closed = match connection.answer(response) {
            Ok(connection) => read_session(rt, &self.server, &served, connection, began),
            Err(_) => served.abandon(rt),
        };
        served.wait_for_second(rt);
        self.sessions.lock(rt).set(number, None);
        close(rt, &self.server, &served, must_close, closed);
        Ok(())
    }

    // Returns the session of a number.
    fn session<R: Wait>(&self, rt: &R, number: u32) -> Option<Arc<SessionOf<D>>>
        ensures { IfSome result (λ session. (arc_value session).number ≡ number) }
    {
        let number = Session::new(u8::try_from(number).ok()?)?;
        self.sessions.lock(rt).session(number)
    }
}

impl<D: ServedDisk + Send + 'static> Accepted<D>
where
    D::Gate: Send + Sync + 'static,
{
    // Starts a thread that serves a session beside the reader of this connection.
    fn start_beside<S, R>(
        &mut self,
        rt: R,
        served: &Arc<SessionOf<D>>,
        connection: Connection<S>,
    ) -> io::Result<JoinHandle<()>>
    where
        S: Continue + Send + 'static,
        R: ServerRuntime,
    {
        let server = Arc::try_clone(&self.server)?;
        let served = Arc::try_clone(served)?;
        let started = thread::spawn(&rt, move || {
            let _closed = work_beside(&rt, &server, &served, connection);
        })?;
        Ok(started)
    }

    // Serves the asynchronous connection of a session beside its notifier, until the session is over.
    fn listen_and_notify<R: ServerRuntime>(
        &mut self,
        rt: R,
        served: &Arc<SessionOf<D>>,
        connection: Connection<Asynchronous>,
    ) -> io::Result<Closed> {
        let beside = connection.beside(self.server.alloc)?;
        let notifier = self.start_beside(rt, served, beside)?;
        let closed = listen_session(&rt, &self.server, served, connection);
        notifier.join(&rt);
        Ok(closed)
    }

    // Serves a session over its second connection, beside its worker, until the session is over.
    fn attend<R: ServerRuntime>(
        &mut self,
        rt: R,
        served: &Arc<SessionOf<D>>,
        connection: Unanswered<Asynchronous>,
    ) -> io::Result<()> {
        let connection = connection.connect()?;
        let beside = served.beside_reader(self.server.alloc)?;
        let worker = self.start_beside(rt, served, beside)?;
        let listened = self.listen_and_notify(rt, served, connection);
        let _closed = match listened {
            Ok(closed) => closed,
            Err(_) => served.abandon(&rt),
        };
        worker.join(&rt);
        Ok(())
    }

    // Joins this connection to a session that waits for its second connection.
    fn join<R: ServerRuntime>(
        &mut self,
        rt: R,
        served: &Arc<SessionOf<D>>,
        connection: Unanswered<Asynchronous>,
    ) {
        if served.join(&rt, &connection).is_err() {
            connection.refuse(FatalCode::InvalidInitialization);
            return;
        }
        // Where memory or a thread for it is refused, the session ends.
        let _attended = self.attend(rt, served, connection);
        let _closed = served.abandon(&rt);
        served.second_has_ended(&rt);
        served.end_first(&rt);
    }

    // Serves a connection up to its end.
    fn serve<R: ServerRuntime>(&mut self, rt: R, connection: NewConnection) -> io::Result<()> {
        let first = first_message(&rt, self.server.alloc, connection);
        self.silent.lock(&rt).remove(self.number);
        match first? {
            FirstRead::Start(connection) => return self.start(&rt, connection),
            FirstRead::Join(number, connection) => match self.session(&rt, number) {
                None => connection.refuse(FatalCode::InvalidInitialization),
                Some(served) => self.join(rt, &served, connection),
            },
            FirstRead::Awaited(_) | FirstRead::Ended => {}
        }
        Ok(())
    }

    /// Serves a connection up to its end.
    pub fn run<R: ServerRuntime>(&mut self, rt: R, connection: NewConnection) {
        let _ = self.serve(rt, connection);
        self.silent.lock(&rt).remove(self.number);
        self.end.shut();
    }
}
