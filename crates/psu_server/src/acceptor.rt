//! The server: it powers on, and gives each connection a thread.
use crate::connection::Accepted;
use crate::directory::Directory;
use crate::serve_fault::ServeFault;
use crate::server_runtime::ServerRuntime;
use crate::silent_connections::SilentConnections;
use psu_bench::{Access, Caller, Gate, ServedDisk, power_on};
use psu_disk::{Disk, FileDisk, OsFiles};
use psu_session_io::NewConnection;
use psu_threads::{Flusher, Server, write_lines};
use std::alloc::{AllocError, Global};
use std::fs::File;
use std::io::{Eprint, Print};
use std::net::{Net, TcpListener, TcpStream};
use std::rt::{Clock, Files};
use std::sync::{Arc, Mutex, Wait};
use std::time::{Duration, Instant};
use std::{io, thread};

/// How long the acceptor sleeps where no connection can be accepted, in milliseconds.
const ACCEPT_PAUSE: u64 = 20;

// What accepts connections.
#[derive(Drop)]
struct Acceptor<D: ServedDisk> {
    server: Arc<Server>,
    sessions: Arc<Mutex<Directory<D>>>,
    silent: Arc<Mutex<SilentConnections>>,
    access: Access<D>,
}

impl<D: ServedDisk + Send + 'static> Acceptor<D>
where
    D::Gate: Send + Sync + 'static,
{
    // Accepts the next connection. Where none can be accepted, it sleeps for a moment.
    fn accept_next<R: ServerRuntime>(&mut self, rt: R, listener: &TcpListener) {
        let accepted = match listener.accept() {
            Ok((stream, _)) => self.accept(rt, stream),
            Err(error) => Err(error),
        };
        if accepted.is_err() {
            thread::sleep(&rt, Duration::from_millis(ACCEPT_PAUSE));
        }
    }

    // Returns what serves a connection, which counts as silent until its first message.
    fn accepted<R: Wait>(
        &mut self,
        rt: &R,
        connection: &NewConnection,
    ) -> Result<Accepted<D>, AllocError> {
        let server = Arc::try_clone(&self.server)?;
        let sessions = Arc::try_clone(&self.sessions)?;
        let silent = Arc::try_clone(&self.silent)?;
        let access = self.access.split()?;
        let end = connection.end()?;
        let number = self.silent.lock(rt).add(connection.end()?);
        Ok(Accepted {
            server,
            sessions,
            silent,
            number,
            end,
            access,
        })
    }

    // Gives a connection a thread of its own.
    fn accept<R: ServerRuntime>(&mut self, rt: R, stream: TcpStream) -> io::Result<()> {
        stream.set_nodelay(true)?;
        let connection = NewConnection::new(self.server.alloc, stream)?;
        let mut accepted = self.accepted(&rt, &connection)?;
        let number = accepted.number;
        if let Err(error) = thread::spawn(&rt, move || accepted.run(rt, connection)) {
            self.silent.lock(&rt).remove(number);
            return Err(io::Error::from(error));
        }
        Ok(())
    }

    // Starts the flusher, and what writes an operator's lines, in a thread each.
    fn start_flusher<R, E>(&mut self, rt: R, errors: E) -> io::Result<()>
    where
        R: ServerRuntime,
        E: Eprint + Drop + Send + 'static,
    {
        let server = Arc::try_clone(&self.server)?;
        let _operator = thread::spawn(&rt, move || write_lines(&rt, &server, &errors))?;
        let server = Arc::try_clone(&self.server)?;
        let access = self.access.split()?;
        let _flusher = thread::spawn(&rt, move || {
            let Access { bench, seat, gate } = access;
            let caller = Caller::new(&bench, seat, &gate);
            Flusher::new(&server, caller).flush(&rt)
        })?;
        Ok(())
    }
}

/// Serves the image at a path over 127.0.0.1, at a port, for as long as the process lives. It returns only where it
/// can't serve, with the reason. The port is bound before the image is opened: where it is taken, the image is neither
/// locked nor written.
pub fn serve<R, G>(rt: R, alloc: Global, image: &str, port: u16, gate: G) -> ServeFault
where
    R: Net<Listener = TcpListener, Stream = TcpStream>
        + Files<File = File>
        + ServerRuntime
        + Print
        + Eprint,
    G: Gate + Drop + Send + Sync + 'static,
{
    let listener = match TcpListener::bind(&rt, ("127.0.0.1", port)) {
        Ok(listener) => listener,
        Err(error) => return ServeFault::from(error),
    };
    match FileDisk::of(&mut OsFiles { files: &rt }, alloc, image) {
        Ok(disk) => serve_disk(rt, alloc, disk, listener, gate, rt),
        Err(fault) => ServeFault::File(fault),
    }
}

/// Serves the contents of a disk at a port that is bound, as `serve` does those of an image; messages on the store for an
/// operator go to `errors`, one line each.
pub fn serve_disk<R, D, G, E>(
    rt: R,
    alloc: Global,
    disk: D,
    listener: TcpListener,
    gate: G,
    errors: E,
) -> ServeFault
where
    R: ServerRuntime + Print,
    D: Disk + Drop + Send + 'static,
    G: Gate + Drop + Send + Sync + 'static,
    E: Eprint + Drop + Send + 'static,
{
    let access = match power_on(alloc, disk, gate) {
        Ok(access) => access,
        Err(fault) => return ServeFault::Start(fault),
    };
    match accept_all(rt, alloc, listener, access, errors) {
        Ok(()) => ServeFault::Network,
        Err(error) => ServeFault::from(error),
    }
}

// Returns the acceptor of a server that has started.
fn acceptor_of<R: Clock, D: ServedDisk>(
    rt: &R,
    alloc: Global,
    access: Access<D>,
) -> io::Result<Acceptor<D>> {
    let server = Arc::new(alloc, Server::new(alloc, Instant::now(rt)?))?;
    let sessions = Arc::new(alloc, Mutex::new(Directory::new()))?;
    let silent = Arc::new(alloc, Mutex::new(SilentConnections::new(alloc)))?;
    Ok(Acceptor {
        server,
        sessions,
        silent,
        access,
    })
}

// Accepts connections for ever.
fn accept_all<R, D, E>(
    rt: R,
    alloc: Global,
    listener: TcpListener,
    access: Access<D>,
    errors: E,
) -> io::Result<()>
where
    R: ServerRuntime + Print,
    D: ServedDisk + Send + 'static,
    D::Gate: Send + Sync + 'static,
    E: Eprint + Drop + Send + 'static,
{
    let address = listener.local_addr()?;
    let mut acceptor = acceptor_of(&rt, alloc, access)?;
    acceptor.start_flusher(rt, errors)?;
    // A server is served to its clients also where no one can read its output.
    let _ = println!(rt; "listening on {address}");
    for _ in rt.forever() {
        acceptor.accept_next(rt, &listener);
    }
    unreachable!()
}
