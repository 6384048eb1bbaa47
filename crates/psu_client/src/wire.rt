//! Frames on a connection, as a client sends and reads them.
use crate::missed::{Missed, holds};
use psu_tables::header;
use std::io::{self, ErrorKind, Read, Write};
use std::net::TcpStream;
use std::time::Duration;

/// How long a client waits for a read, in milliseconds.
const PATIENCE: u64 = 10_000;

/// Returns a frame that has only a type and a control code.
pub fn bare(kind: u8, control: u8) -> [u8; 16] {
    header(kind, control, 0, 0)
}

/// Returns the length of the payload after a header.
pub(crate) fn length(header: &[u8; 16]) -> u64 {
    let [_, _, _, _, _, _, _, _, a, b, c, d, e, f, g, h] = *header;
    u64::from_be_bytes([a, b, c, d, e, f, g, h])
}

/// Limits each read from now on to this many milliseconds.
pub(crate) fn wait_at_most(stream: &TcpStream, milliseconds: u64) -> Result<(), Missed> {
    stream
        .set_read_timeout(Some(Duration::from_millis(milliseconds)))
        .map_err(|_| Missed::Ground("a limit for reads"))
}

/// Limits each read to the time that a client waits.
pub(crate) fn wait(stream: &TcpStream) -> Result<(), Missed> {
    wait_at_most(stream, PATIENCE)
}

/// Sends bytes.
pub fn send(stream: &mut TcpStream, bytes: &[u8]) -> Result<(), Missed> {
    stream.write_all(bytes).map_err(|_| Missed::Sending)
}

/// Reads the next sixteen bytes.
pub fn next(stream: &mut TcpStream) -> Result<[u8; 16], Missed> {
    let mut got = [0u8; 16];
    match stream.read_exact(&mut got) {
        Ok(()) => Ok(got),
        Err(_) => Err(Missed::Silence),
    }
}

/// Reads a header, which must be this one.
pub fn expect_header(stream: &mut TcpStream, want: [u8; 16]) -> Result<(), Missed> {
    let got = next(stream)?;
    if got == want {
        Ok(())
    } else {
        Err(Missed::Frame(want, got))
    }
}

/// Reads bytes, which must be these.
pub(crate) fn expect_bytes(stream: &mut TcpStream, want: &[u8]) -> Result<(), Missed> {
    let mut got = [0u8; 1];
    for (at, byte) in want.iter().enumerate() {
        if stream.read_exact(&mut got).is_err() {
            return Err(Missed::Silence);
        }
        if got[0] != *byte {
            return Err(Missed::Text(at));
        }
    }
    Ok(())
}

/// Reads this many bytes, whatever they are.
pub(crate) fn skip(stream: &mut TcpStream, count: u64) -> Result<(), Missed> {
    let skipped = io::copy(&mut stream.take(count), &mut io::sink());
    match skipped {
        Ok(skipped) if skipped == count => Ok(()),
        _ => Err(Missed::Silence),
    }
}

// Whether a call failed only because it took too long.
fn is_late(error: &io::Error) -> bool {
    matches!(error.kind(), ErrorKind::WouldBlock | ErrorKind::TimedOut)
}

/// Sends bytes again and again until they are no longer accepted, while the connection stays open.
pub(crate) fn is_held_back(stream: &mut TcpStream, bytes: &[u8]) -> Result<(), Missed> {
    let limit = Some(Duration::from_millis(500));
    if stream.set_write_timeout(limit).is_err() {
        return Err(Missed::Ground("a limit for writes"));
    }
    for _ in 0..2_000u32 {
        if let Err(error) = stream.write_all(bytes) {
            return holds(is_late(&error), "a flood ends nothing");
        }
    }
    Err(Missed::Claim("a flood is held back"))
}

/// Expects that nothing is received for a fifth of a second.
pub fn is_silent(stream: &mut TcpStream) -> Result<(), Missed> {
    wait_at_most(stream, 200)?;
    let mut got = [0u8; 1];
    match stream.read(&mut got) {
        Err(error) if is_late(&error) => wait(stream),
        _ => Err(Missed::Claim("nothing is received")),
    }
}

/// Expects the end of the connection, with nothing received before it.
pub fn is_ended(stream: &mut TcpStream) -> Result<(), Missed> {
    let mut got = [0u8; 1];
    match stream.read(&mut got) {
        Ok(0) => Ok(()),
        Err(error) if !is_late(&error) => Ok(()),
        _ => Err(Missed::Claim("the connection ends")),
    }
}
