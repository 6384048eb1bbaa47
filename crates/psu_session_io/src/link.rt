//! A connection as a stream of bytes.
ghost use Rattle.std.specs.Prelude.{◌≡◌, ℕ, suc, Ok, IfOk};
ghost use Rattle.psu_session_io.specs.declared.link.ReadResult.TheVariants.{Bytes, End};

use crate::FirstReply;
use psu_replies::CannotDrop;
use std::io::{self, ErrorKind, Read, Write};
use std::marker::{Model, PhantomData};
use std::net::{Shutdown, TcpStream};
use std::time::Duration;

/// The result of a read of a connection.
#[derive(Clone, Copy, Debug, PartialEq, Eq)]
pub enum ReadResult {
    /// So many bytes have come, at least one.
    Bytes(usize),
    /// Nothing has come: the read was interrupted, or its time is over. It is tried again.
    Nothing,
    /// The connection has ended.
    End,
}

impl ReadResult {
    /// Returns the result of a read. Reads of a process that is stopped and continues, or is debugged, are interrupted.
    #[inline(always)]
    pub fn of(read: &io::Result<usize>) -> ReadResult
        ensures bytes { (count : ℕ) → result ≡ Bytes count → read.now ≡ Ok count }
        ensures some { (count : ℕ) → read.now ≡ Ok (suc count) → result ≡ Bytes (suc count) }
        ensures end { read.now ≡ Ok 0 → result ≡ End }
    {
        match read {
            Ok(0) => ReadResult::End,
            Ok(count) => ReadResult::Bytes(*count),
            Err(error) => match error.kind() {
                ErrorKind::Interrupted | ErrorKind::WouldBlock | ErrorKind::TimedOut => {
                    ReadResult::Nothing
                }
                _ => ReadResult::End,
            },
        }
    }
}

/// Bytes that one read of a connection has returned. Only `Link::read` makes them, of the side for which it reads. They have
/// no `Drop`: the session must receive them, or the connection keeps them.
pub struct BytesRead<'a, S> {
    bytes: &'a [u8],
    duty: CannotDrop,
    side: PhantomData<S>,
}

impl<'a, S> BytesRead<'a, S> {
    /// Returns bytes that were read before, when it was not known which connection this is.
    pub(crate) fn of_before(bytes: &'a [u8]) -> BytesRead<'a, S>
        ensures { result.bytes.now ≡ bytes.now }
    {
        BytesRead {
            bytes,
            duty: CannotDrop::begin(),
            side: PhantomData,
        }
    }

    /// Returns the bytes, with what must be done with them.
    pub(crate) fn into_parts(self) -> (&'a [u8], CannotDrop)
        ensures { result.0.now ≡ self.entry.bytes.now }
    {
        let BytesRead {
            bytes,
            duty,
            side: _,
        } = self;
        (bytes, duty)
    }
}

/// What a read of a connection gives.
pub(crate) enum LinkRead<'a, S> {
    /// Bytes have come, at least one.
    Bytes(BytesRead<'a, S>),
    /// Nothing has come. The read is tried again.
    Nothing,
    /// The connection has ended.
    End,
}

/// Bytes that were written on a connection, all of them. Only `Link::write` makes it. Contracts see the bytes.
#[derive(Drop)]
pub struct Sent {
    bytes: Vec<u8>,
}

impl Model for Sent {
    ghost use Rattle.std.specs.Prelude.{List, ℕ};

    ghost Value = { List ℕ };

    ghost view = { λ sent. sent.bytes.items };
}

/// A connection as a stream of bytes. One thread reads it, and one thread at a time writes. It sends a `FirstReply`, and
/// what was taken from a session for it (`Connection::write`), and nothing else. No other crate reads or writes it.
#[derive(Drop)]
pub(crate) struct Link {
    stream: TcpStream,
}

impl Link {
    /// Returns the connection over a stream.
    pub fn new(stream: TcpStream) -> Link {
        Link { stream }
    }

    /// Sends the first message on the connection.
    pub fn answer(&self, reply: FirstReply) -> io::Result<()> {
        (&self.stream).write_all(&reply.bytes)
    }

    /// Writes bytes.
    pub fn write(&self, bytes: Vec<u8>) -> io::Result<Sent>
        ensures { IfOk result (λ sent. sent ≡ bytes.items) }
    {
        (&self.stream).write_all(bytes.as_slice())?;
        Ok(Sent { bytes })
    }

    /// Reads what has come, or waits for it.
    #[inline(always)]
    pub fn read<'a, S>(&self, into: &'a mut [u8]) -> LinkRead<'a, S> {
        let read = (&self.stream).read(into);
        match ReadResult::of(&read) {
            ReadResult::Bytes(count) => LinkRead::Bytes(BytesRead {
                bytes: &into[..count],
                duty: CannotDrop::begin(),
                side: PhantomData,
            }),
            ReadResult::Nothing => LinkRead::Nothing,
            ReadResult::End => LinkRead::End,
        }
    }

    /// Sets how long a read waits at most.
    pub fn wait_at_most(&self, limit: Option<Duration>) -> io::Result<()> {
        self.stream.set_read_timeout(limit)
    }

    /// Ends waits for what comes: reads that begin from now on return at once. What the client has sent and the system has
    /// not passed on yet still comes then; a connection that is shut refuses it.
    pub fn end_waits(&self) {
        let _ = self.stream.set_nonblocking(true);
    }

    /// Ends the connection: reads and writes of it return.
    pub fn shut(&self) {
        let _ = self.stream.shutdown(Shutdown::Both);
    }
}
