//! A server in a thread that is not joined, and its image.
use psu_call_steps::image;
use psu_client::Missed;
use psu_disk::{Disk, FileDisk, MemDisk, OsFiles};
use psu_items::{IMAGE_LIMIT, Store};
use psu_server::{Gate, serve_disk};
use std::alloc::Global;
use std::fs::{self, File};
use std::io::{Eprint, Print};
use std::net::{Net, TcpListener, TcpStream};
use std::rt::{Clock, Files};
use std::sync::Wait;
use std::thread::{self, Threads};

/// Binds a port that the system chooses, and returns it.
pub(crate) fn listening<R: Net<Listener = TcpListener, Stream = TcpStream>>(
    rt: &R,
) -> Result<(TcpListener, u16), Missed> {
    let Ok(listener) = TcpListener::bind(rt, ("127.0.0.1", 0)) else {
        return Err(Missed::Ground("a listener"));
    };
    match listener.local_addr() {
        Ok(address) => Ok((listener, address.port())),
        Err(_) => Err(Missed::Ground("a port")),
    }
}

/// Serves the image of this name, and returns the port at which the server listens.
pub(crate) fn served<R, G>(
    rt: R,
    alloc: Global,
    image: &'static str,
    gate: G,
) -> Result<u16, Missed>
where
    R: Net<Listener = TcpListener, Stream = TcpStream>
        + Files<File = File>
        + Threads
        + Wait
        + Clock
        + Print
        + Eprint
        + Copy
        + Send
        + 'static,
    R::Dir: Send,
    G: Gate + Drop + Send + Sync + 'static,
{
    match FileDisk::of(&mut OsFiles { files: &rt }, alloc, image) {
        Ok(disk) => served_disk(rt, alloc, disk, gate, rt),
        Err(_) => Err(Missed::Ground("an image")),
    }
}

/// Serves a new image, and returns the port at which the server listens. The file stays: a store whose file has no name
/// any more is broken.
pub(crate) fn new_served<R, G>(
    rt: R,
    alloc: Global,
    image: &'static str,
    gate: G,
) -> Result<u16, Missed>
where
    R: Net<Listener = TcpListener, Stream = TcpStream>
        + Files<File = File>
        + Threads
        + Wait
        + Clock
        + Print
        + Eprint
        + Copy
        + Send
        + 'static,
    R::Dir: Send,
    G: Gate + Drop + Send + Sync + 'static,
{
    formatted(&rt, alloc, image, IMAGE_LIMIT)?;
    served(rt, alloc, image, gate)
}

/// Returns a formatted disk in memory.
pub(crate) fn new_disk(alloc: Global) -> Result<MemDisk<Global>, Missed> {
    match image(alloc, IMAGE_LIMIT) {
        Some(disk) => Ok(disk),
        None => Err(Missed::Ground("a formatted disk")),
    }
}

/// Serves a disk, and returns the port at which the server listens: clients may connect at once.
pub(crate) fn served_disk<R, D, G, E>(
    rt: R,
    alloc: Global,
    disk: D,
    gate: G,
    errors: E,
) -> Result<u16, Missed>
where
    R: Net<Listener = TcpListener, Stream = TcpStream>
        + Threads
        + Wait
        + Clock
        + Print
        + Copy
        + Send
        + 'static,
    D: Disk + Drop + Send + 'static,
    G: Gate + Drop + Send + Sync + 'static,
    E: Eprint + Drop + Send + 'static,
{
    let (listener, port) = listening(&rt)?;
    let begun = thread::spawn(&rt, move || {
        let _fault = serve_disk(rt, alloc, disk, listener, gate, errors);
    })
    .is_ok();
    if begun {
        Ok(port)
    } else {
        Err(Missed::Ground("a thread"))
    }
}

/// Removes the file of an image.
pub(crate) fn removed<R: Files>(rt: &R, image: &str) {
    let _ = fs::remove_file(rt, image);
}

/// Formats a new image, whose contents may cost this many pages.
pub(crate) fn formatted<R: Files<File = File>>(
    rt: &R,
    alloc: Global,
    image: &str,
    limit: u16,
) -> Result<(), Missed> {
    if limit < 4 || limit > 480 {
        return Err(Missed::Ground("a limit of an image"));
    }
    removed(rt, image);
    let size = 512 * (2 + 2 * u64::from(limit));
    let Ok(disk) = FileDisk::make(&mut OsFiles { files: rt }, alloc, image, size) else {
        return Err(Missed::Ground("a file"));
    };
    match Store::format(alloc, disk, limit) {
        Ok(_) => Ok(()),
        Err(_) => Err(Missed::Ground("a formatted image")),
    }
}
