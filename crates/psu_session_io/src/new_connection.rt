//! A connection from its acceptance to the session that its first message requests.
ghost use Rattle.std.specs.Prelude.{◌≡◌, ◌++◌, [], IfOk};
ghost use Rattle.psu_session_io.specs.NewConnection.{HasFirst, IsMadeOf};

use crate::first_message::{Added, FirstMessage};
use crate::link::{BytesRead, Link, LinkRead};
use crate::{Asynchronous, Connection, FirstReply, Synchronous};
use psu_hislip::{FatalCode, First};
use std::alloc::{AllocError, Global};
use std::io;
use std::marker::{Model, PhantomData};
use std::net::TcpStream;
use std::sync::Arc;
use std::time::Duration;

/// What ends a connection that another thread reads.
#[derive(Drop)]
pub struct ConnectionEnd {
    link: Arc<Link>,
}

impl ConnectionEnd {
    /// Ends the connection: reads and writes of it return.
    pub fn shut(&self) {
        self.link.shut();
    }
}

// The side of a connection whose first message is not whole yet.
struct Unknown;

/// A connection whose first message is not whole yet. It keeps what is read of it, so that bytes can neither be lost nor
/// made up before its session receives them. Contracts see these bytes.
#[derive(Drop)]
pub struct NewConnection {
    alloc: Global,
    link: Arc<Link>,
    first: FirstMessage,
}

impl Model for NewConnection {
    ghost use Rattle.std.specs.Prelude.{List, ℕ};

    ghost Value = { List ℕ };

    ghost view = { λ connection. connection.first };
}

/// What a connection is once it was read.
#[derive(Drop)]
pub enum FirstRead {
    /// Its first message is not whole yet.
    Awaited(NewConnection),
    /// Its first message is an Initialize: it is the synchronous connection of a session that begins.
    Start(Unanswered<Synchronous>),
    /// Its first message is an AsyncInitialize: it is the asynchronous connection of the session of this number.
    Join(u32, Unanswered<Asynchronous>),
    /// It has ended, or its first message was refused.
    Ended,
}

impl NewConnection {
    /// Returns a connection over a stream, of which nothing was read.
    pub fn new(alloc: Global, stream: TcpStream) -> Result<NewConnection, AllocError>
        ensures { IfOk result (λ connection. connection ≡ []) }
    {
        let link = Arc::new(alloc, Link::new(stream))?;
        let first = FirstMessage::new(alloc);
        Ok(NewConnection { alloc, link, first })
    }

    /// Returns what ends the connection.
    pub fn end(&self) -> Result<ConnectionEnd, AllocError> {
        let link = Arc::try_clone(&self.link)?;
        Ok(ConnectionEnd { link })
    }

    // Returns what the connection is once these bytes have come, which it keeps.
    fn keep(self, read: BytesRead<'_, Unknown>) -> Result<FirstRead, AllocError>
        ensures { IfOk result (IsMadeOf (self ++ read.entry.bytes.now)) }
    {
        let NewConnection { alloc, link, first } = self;
        let (bytes, duty) = read.into_parts();
        duty.end();
        match first.add(alloc, bytes)? {
            Added::Part(first) => Ok(FirstRead::Awaited(NewConnection { alloc, link, first })),
            Added::Whole(First::Start, message, after) => {
                Ok(FirstRead::Start(Unanswered::new(link, message, after)))
            }
            Added::Whole(First::Join(number), message, after) => {
                let connection = Unanswered::new(link, message, after);
                Ok(FirstRead::Join(number, connection))
            }
            Added::Whole(First::Refused(code), ..) => {
                let _ = link.answer(FirstReply::refused(code));
                Ok(FirstRead::Ended)
            }
        }
    }

    /// Reads what has come, or waits for it, at most so long.
    pub fn read(self, space: &mut [u8], left: Duration) -> io::Result<FirstRead>
        ensures { IfOk result (HasFirst self) }
    {
        self.link.wait_at_most(Some(left))?;
        match self.link.read(space) {
            LinkRead::Bytes(read) => {
                let first = self.keep(read)?;
                Ok(first)
            }
            LinkRead::Nothing => Ok(FirstRead::Awaited(self)),
            LinkRead::End => Ok(FirstRead::Ended),
        }
    }
}

/// A connection of a session that has sent its first message and no answer was sent to. Contracts see the bytes of this
/// message and those that were read after it.
#[derive(Drop)]
pub struct Unanswered<S> {
    pub(crate) link: Arc<Link>,
    message: Vec<u8>,
    after: Vec<u8>,
    side: PhantomData<S>,
}

impl<S> Model for Unanswered<S> {
    ghost use Rattle.psu_session_io.specs.Unanswered.{FirstBytes};

    ghost Value = { FirstBytes };

    ghost view = { λ connection. record { message = connection.message.items; after = connection.after.items } };
}

impl<S> Unanswered<S> {
    fn new(link: Arc<Link>, message: Vec<u8>, after: Vec<u8>) -> Unanswered<S>
        ensures message { result.message ≡ message.items }
        ensures after { result.after ≡ after.items }
    {
        Unanswered {
            link,
            message,
            after,
            side: PhantomData,
        }
    }

    /// Returns the bytes of the first message.
    pub fn message(&self) -> &[u8]
        ensures { result.now ≡ self.now.message }
    {
        self.message.as_slice()
    }

    /// Refuses what the connection has sent first: it sends a FatalError, and is no connection of a session.
    pub fn refuse(self, code: FatalCode) {
        let _ = self.link.answer(FirstReply::refused(code));
    }
}

impl Unanswered<Synchronous> {
    /// Sends the response to the Initialize of a session. The session has received this message; it receives the bytes
    /// after it.
    pub fn answer(self, reply: FirstReply) -> io::Result<Connection<Synchronous>>
        ensures { IfOk result (λ connection. connection ≡ self.after) }
    {
        self.link.answer(reply)?;
        let Unanswered { link, after, .. } = self;
        Ok(Connection::new(link, after))
    }
}

impl Unanswered<Asynchronous> {
    /// Returns the connection, whose session receives all that was read of it. Reads of it wait without a limit.
    pub fn connect(self) -> io::Result<Connection<Asynchronous>>
        ensures { IfOk result (λ connection. connection ≡ self.message ++ self.after) }
    {
        let Unanswered {
            link,
            mut message,
            after,
            ..
        } = self;
        link.wait_at_most(None)?;
        message.extend_from_slice(after.as_slice())?;
        Ok(Connection::new(link, message))
    }
}
