//! How clients open their sessions.
use crate::client::{Client, NO_MESSAGE};
use crate::missed::Missed;
use crate::wire::{bare, expect_header, next, send, wait};
use psu_tables::header;
use std::net::{Net, TcpStream};
use std::thread;
use std::time::{Clock, Duration};

// How often a client tries to open a session, 20 milliseconds after each other: for longer than a test may last.
const TRIES: u32 = 3_000;

/// Connects to a server, which listens.
pub fn connected<R: Net<Stream = TcpStream>>(rt: &R, port: u16) -> Result<TcpStream, Missed> {
    let Ok(stream) = TcpStream::connect(rt, ("127.0.0.1", port)) else {
        return Err(Missed::Ground("a connection"));
    };
    let _ = stream.set_nodelay(true);
    wait(&stream)?;
    Ok(stream)
}

/// Opens a session on its first connection, and returns it with its number.
pub fn begun<R: Net<Stream = TcpStream>>(rt: &R, port: u16) -> Result<(u8, TcpStream), Missed> {
    let mut sync = connected(rt, port)?;
    send(&mut sync, &header(0, 0, 0x0100_0000, 0))?;
    let got = next(&mut sync)?;
    let number = got[7];
    let want = header(1, 0, 0x0100_0000 | u32::from(number), 0);
    if got == want && number >= 1 && number <= 16 {
        Ok((number, sync))
    } else {
        Err(Missed::Frame(want, got))
    }
}

/// Opens a session of any number, with both connections.
pub(crate) fn joined<R: Net<Stream = TcpStream>>(rt: &R, port: u16) -> Result<Client, Missed> {
    let (number, sync) = begun(rt, port)?;
    let mut other = connected(rt, port)?;
    send(&mut other, &header(17, 0, u32::from(number), 0))?;
    expect_header(&mut other, bare(18, 0))?;
    Ok(Client {
        number,
        sync,
        other,
        last: NO_MESSAGE,
    })
}

/// Opens a session of this number, which is the least that is free.
pub fn joined_as<R: Net<Stream = TcpStream>>(
    rt: &R,
    port: u16,
    number: u8,
) -> Result<Client, Missed> {
    let client = joined(rt, port)?;
    if client.number == number {
        Ok(client)
    } else {
        Err(Missed::Ground("the least number"))
    }
}

/// Opens a session of this number, once that is free. A number becomes free after all else of its session has ended.
pub fn joined_again<R: Net<Stream = TcpStream> + Clock>(
    rt: &R,
    port: u16,
    number: u8,
) -> Result<Client, Missed> {
    for _ in 0..TRIES {
        if let Ok(client) = joined_as(rt, port, number) {
            return Ok(client);
        }
        thread::sleep(rt, Duration::from_millis(20));
    }
    Err(Missed::Ground("a number that is given back"))
}

/// Opens a session of any number, once one is free.
pub fn joined_soon<R: Net<Stream = TcpStream> + Clock>(
    rt: &R,
    port: u16,
) -> Result<Client, Missed> {
    for _ in 0..TRIES {
        if let Ok(client) = joined(rt, port) {
            return Ok(client);
        }
        thread::sleep(rt, Duration::from_millis(20));
    }
    Err(Missed::Ground("a free number"))
}

/// Waits until the effects of the steps so far have settled.
pub fn settle<R: Clock>(rt: &R) {
    thread::sleep(rt, Duration::from_millis(300));
}
