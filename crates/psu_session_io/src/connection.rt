//! A connection of a session: what is read from it and written on it.
ghost use Rattle.std.specs.Prelude.{◌≡◌, ◌≢◌, ◌≤◌, ◌↔◌, ◌++◌, IfOk, IsTrue, [], length, take};
ghost use Rattle.psu_session_io.specs.Reading.{IsFirstOf};

use crate::Token;
use crate::linear::{Disconnected, Outgoing, Written};
use crate::link::{BytesRead, Link, LinkRead};
use psu_replies::CannotDrop;
use std::alloc::{AllocError, Global};
use std::marker::{Model, PhantomData};
use std::sync::Arc;

/// A connection of a session: the synchronous or the asynchronous one. It is made of an `Unanswered`, or of another one of
/// the same side. Contracts see the bytes that were read before it was known which connection it is, and that the session
/// has not received.
#[derive(Drop)]
pub struct Connection<S> {
    link: Arc<Link>,
    // The bytes that were read before, and how many of them the session has received.
    before: Vec<u8>,
    received: usize,
    side: PhantomData<S>,
}

impl<S> Model for Connection<S> {
    ghost use Rattle.std.specs.Prelude.{List, ℕ, ◌≤◌, length, drop};

    ghost Value = { List ℕ };

    ghost view = { λ connection. drop connection.received connection.before.items };

    ghost invariant = { λ connection. connection.received ≤ length connection.before.items };
}

/// What a read of a connection gives.
pub enum Incoming<'a, S> {
    /// Bytes have come.
    Bytes(BytesRead<'a, S>),
    /// Nothing has come. The read is tried again.
    Nothing,
    /// The connection has ended.
    End(Disconnected),
}

impl<S> Connection<S> {
    /// Returns a connection over a link, from which these bytes were read before.
    pub(crate) fn new(link: Arc<Link>, before: Vec<u8>) -> Connection<S>
        ensures { result ≡ before.items }
    {
        Connection {
            link,
            before,
            received: 0,
            side: PhantomData,
        }
    }

    /// Returns the same connection, for a thread that writes on it beside the one that reads it.
    pub fn beside(&self, alloc: Global) -> Result<Connection<S>, AllocError>
        ensures { IfOk result (λ connection. connection ≡ []) }
    {
        let link = Arc::try_clone(&self.link)?;
        Ok(Connection::new(link, Vec::new(alloc)))
    }

    // Copies bytes that were read before into a space, the first ones first. Returns how many.
    fn read_before(&mut self, space: &mut [u8]) -> usize
        ensures most { result ≤ length space.old }
        ensures same { length space.new ≡ length space.old }
        ensures first { take result space.new ++ self.new ≡ self.old }
    {
        let left = &self.before[self.received..];
        let count = left.len().min(space.len());
        space[..count].copy_from_slice(&left[..count]);
        self.received += count;
        count
    }

    // Whether the session has received all bytes that were read before.
    fn has_received_all(&self) -> bool
        ensures { IsTrue result ↔ (self.now ≡ []) }
    {
        self.before[self.received..].is_empty()
    }

    /// Reads what has come, or waits for it. Bytes that were read before come first.
    pub fn read<'a>(&mut self, token: &mut Token<S>, space: &'a mut [u8]) -> Incoming<'a, S>
        ensures first { self.old ≢ [] → IsFirstOf result self.old self.new }
        ensures then { self.old ≡ [] → self.new ≡ [] }
    {
        let _ = token;
        if !self.has_received_all() {
            let count = self.read_before(space);
            return Incoming::Bytes(BytesRead::of_before(&space[..count]));
        }
        match self.link.read(space) {
            LinkRead::Bytes(bytes) => Incoming::Bytes(bytes),
            LinkRead::Nothing => Incoming::Nothing,
            LinkRead::End => Incoming::End(Disconnected {
                duty: CannotDrop::begin(),
            }),
        }
    }

    /// Ends the connection, since its time is over.
    pub fn end(&self) -> Disconnected {
        self.link.shut();
        Disconnected {
            duty: CannotDrop::begin(),
        }
    }

    /// Writes bytes that were taken for it.
    pub fn write(
        &self,
        token: &mut Token<S>,
        outgoing: Outgoing<S>,
    ) -> Result<Written<S>, Disconnected>
        ensures after { IfOk result (λ written. written.after ≡ outgoing.after) }
        ensures sent { IfOk result (λ written. written.sent ≡ outgoing.bytes.items) }
    {
        let _ = token;
        let Outgoing {
            bytes,
            after,
            duty,
            side,
        } = outgoing;
        match self.link.write(bytes) {
            Ok(sent) => Ok(Written {
                sent,
                after,
                duty,
                side,
            }),
            Err(_) => Err(Disconnected { duty }),
        }
    }
}
