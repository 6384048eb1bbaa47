//! What each thread of a session runs, until the session is over.
ghost use Rattle.std.specs.Prelude.{◌≡◌, IfOk, length};

use crate::SessionOf;
use crate::executing::{AsyncReader, SyncReader, Worker};
use crate::server::Server;
use crate::serving::{Continue, Serving};
use psu_bench::ServedDisk;
use psu_messages::READ_SIZE;
use psu_session_io::{Asynchronous, Closed, Connection, Synchronous, run};
use std::alloc::Global;
use std::io;
use std::rt::Clock;
use std::sync::Wait;
use std::time::Instant;

/// Returns an area of memory to read into.
pub fn space(alloc: Global, size: usize) -> io::Result<Vec<u8>>
    ensures { IfOk result (λ space. length space.items ≡ size) }
{
    let mut space = Vec::new(alloc);
    space.resize(size, 0u8)?;
    Ok(space)
}

/// Reads the synchronous connection of a session that was opened at this time, and executes what is sent there, until the
/// session is over. It ends at once where memory for it is refused.
pub fn read_session<R: Wait + Clock, D: ServedDisk>(
    rt: &R,
    server: &Server,
    served: &SessionOf<D>,
    connection: Connection<Synchronous>,
    opened: Instant,
) -> Closed {
    let Ok(space) = space(server.alloc, READ_SIZE) else {
        return served.abandon(rt);
    };
    let serving = Serving {
        server,
        served,
        connection,
    };
    let mut reader = SyncReader {
        serving,
        opened,
        limited: true,
        space,
    };
    run(rt, &mut reader)
}

/// Reads the asynchronous connection of a session, and answers what is requested there, until the session is over. It
/// ends at once where memory for it is refused.
pub fn listen_session<R: Wait + Clock, D: ServedDisk>(
    rt: &R,
    server: &Server,
    served: &SessionOf<D>,
    connection: Connection<Asynchronous>,
) -> Closed {
    let Ok(space) = space(server.alloc, READ_SIZE) else {
        return served.abandon(rt);
    };
    let serving = Serving {
        server,
        served,
        connection,
    };
    let mut reader = AsyncReader { serving, space };
    run(rt, &mut reader)
}

/// Continues a session beside the reader of a connection, and writes there, until the session is over: on the synchronous
/// one the execution, once what a unit waits for may have come; on the asynchronous one it sends what other sessions cause.
pub fn work_beside<S: Continue, R: Wait + Clock, D: ServedDisk>(
    rt: &R,
    server: &Server,
    served: &SessionOf<D>,
    connection: Connection<S>,
) -> Closed {
    let serving = Serving {
        server,
        served,
        connection,
    };
    run(rt, &mut Worker { serving })
}
