//! A server at a port that is taken: it ends with this fault before it opens the image.
use crate::images::executed;
use crate::server::{formatted, listening, removed};
use psu_client::{Missed, holds};
use psu_disk::{FileDisk, OpenFault, OsFiles};
use psu_items::IMAGE_LIMIT;
use psu_server::{Open, ServeFault, serve};
use std::alloc::Global;
use std::fs::{self, File};
use std::io::{Eprint, Print};
use std::net::{Net, TcpListener, TcpStream};
use std::rt::{Clock, Files};
use std::sync::Wait;
use std::thread::Threads;

const IMAGE: &str = "older_gate.image";

const USED: &str = "image_in_use.image";

// A port that the system chooses, which is free.
const ANY: u16 = 0;

// The places of the two gates, and the byte of an open one.
const GATES: [usize; 2] = [0, 512];

const OPEN: u8 = 0xa5;

// Returns the bytes of an image.
fn bytes_of<R: Files + Alloc<A = Global>>(rt: &R, image: &str) -> Result<Vec<u8>, Missed> {
    fs::read(rt, image).map_err(|_| Missed::Ground("an image"))
}

// Makes an image of two roots, in which the gate of the older one is open too, as a power loss may leave it. Returns its
// bytes.
fn with_older_gate<R: Files<File = File> + Alloc<A = Global>>(
    rt: &R,
    image: &str,
) -> Result<Vec<u8>, Missed> {
    formatted(rt, rt.alloc(), image, IMAGE_LIMIT)?;
    executed(rt, rt.alloc(), image, b"*SAV 1;*OPC?\n")?;
    let mut bytes = bytes_of(rt, image)?;
    for gate in GATES {
        if gate < bytes.len() {
            bytes[gate] = OPEN;
        }
    }
    match fs::write(rt, image, bytes.as_slice()) {
        Ok(()) => Ok(bytes),
        Err(_) => Err(Missed::Ground("an image")),
    }
}

// Checks that a server of an image, at this port, ends with this fault.
fn ends_with<R>(rt: R, image: &str, port: u16, fault: ServeFault) -> Result<(), Missed>
where
    R: Net<Listener = TcpListener, Stream = TcpStream>
        + Files<File = File>
        + Alloc<A = Global>
        + Threads
        + Wait
        + Clock
        + Print
        + Eprint
        + Copy
        + Send
        + 'static,
{
    let ended = serve(rt, rt.alloc(), image, port, Open);
    holds(ended == fault, "the server ends with this fault")
}

// The port is bound before the image is opened: an image whose older gate is open has the same bytes after it.
#[test]
fn a_taken_port_leaves_the_image_as_it_is(rt: HostRuntime) -> Result<(), Missed> {
    let (_listener, taken) = listening(&rt)?;
    let before = with_older_gate(&rt, IMAGE)?;
    ends_with(rt, IMAGE, taken, ServeFault::Network)?;
    let after = bytes_of(&rt, IMAGE)?;
    holds(after == before, "the image has the same bytes")?;
    removed(&rt, IMAGE);
    Ok(())
}

// An image that is in use, and one that is missing, are reported only where the port is free.
#[test]
fn an_image_is_reported_where_the_port_is_free(rt: HostRuntime) -> Result<(), Missed> {
    let (_listener, taken) = listening(&rt)?;
    formatted(&rt, rt.alloc(), USED, IMAGE_LIMIT)?;
    let Ok(_disk) = FileDisk::of(&mut OsFiles { files: &rt }, rt.alloc(), USED) else {
        return Err(Missed::Ground("an image"));
    };
    ends_with(rt, USED, taken, ServeFault::Network)?;
    ends_with(rt, USED, ANY, ServeFault::File(OpenFault::NotOpened))?;
    ends_with(rt, "no.image", taken, ServeFault::Network)?;
    ends_with(rt, "no.image", ANY, ServeFault::File(OpenFault::NoFile))?;
    removed(&rt, USED);
    Ok(())
}
