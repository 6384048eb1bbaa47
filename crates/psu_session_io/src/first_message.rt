//! The first message of a connection, as its bytes come.
ghost use Rattle.std.specs.Prelude.{◌≡◌, [], ◌∷◌, ◌++◌, IfOk};
ghost use Rattle.psu_session_io.specs.Opening.{HasAdded, HasPushed};

use psu_hislip::{Channel, First};
use std::alloc::{AllocError, Global};
use std::collections::VecDeque;
use std::marker::Model;

/// The first message of a connection, as far as it has come. Contracts see its bytes.
#[derive(Drop)]
pub(crate) struct FirstMessage {
    channel: Channel<Global>,
    bytes: Vec<u8>,
}

impl Model for FirstMessage {
    ghost use Rattle.std.specs.Prelude.{List, ℕ, []};
    ghost use Rattle.psu_hislip.specs.Channel.{Fed};

    ghost Value = { List ℕ };

    ghost view = { λ first. first.bytes.items };

    ghost invariant = { λ first. Fed first.channel first.bytes.items [] };
}

/// The first message of a connection once a byte has come.
#[derive(Drop)]
pub(crate) enum Pushed {
    /// It is not whole.
    Part(FirstMessage),
    /// It is whole: what it requests, and its bytes.
    Whole(First, Vec<u8>),
}

/// What a connection has sent first, once bytes have come.
#[derive(Drop)]
pub(crate) enum Added {
    /// The first message is not whole.
    Part(FirstMessage),
    /// It is whole: what it requests, its bytes, and those after it.
    Whole(First, Vec<u8>, Vec<u8>),
}

impl FirstMessage {
    /// Returns the message before its first byte.
    pub fn new(alloc: Global) -> FirstMessage
        ensures { result ≡ [] }
    {
        FirstMessage {
            channel: Channel::new(alloc),
            bytes: Vec::new(alloc),
        }
    }

    // Adds a byte.
    fn push(self, alloc: Global, byte: u8) -> Result<Pushed, AllocError>
        ensures { IfOk result (HasPushed (self ++ byte ∷ [])) }
    {
        let FirstMessage {
            mut channel,
            mut bytes,
        } = self;
        bytes.push(byte)?;
        let mut messages = VecDeque::new(alloc);
        channel.feed(&[byte], &mut messages)?;
        match messages.pop_front() {
            Some(message) => Ok(Pushed::Whole(First::of(&message), bytes)),
            None => Ok(Pushed::Part(FirstMessage { channel, bytes })),
        }
    }

    /// Adds bytes. The bytes of the first message and those after it are all that were added, in their order.
    pub fn add(self, alloc: Global, bytes: &[u8]) -> Result<Added, AllocError>
        ensures { IfOk result (HasAdded (self ++ bytes.now)) }
    {
        let mut first = self;
        for place in 0..bytes.len() {
            match first.push(alloc, bytes[place])? {
                Pushed::Part(part) => first = part,
                Pushed::Whole(request, message) => {
                    let after = bytes[place + 1..].to_vec(alloc)?;
                    return Ok(Added::Whole(request, message, after));
                }
            }
        }
        Ok(Added::Part(first))
    }
}
