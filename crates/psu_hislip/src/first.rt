//! The first message of a connection.
ghost use Rattle.std.specs.Prelude.{◌≡◌};
ghost use Rattle.psu_hislip.specs.Stream.{received};

use crate::{FatalCode, Message, MessageType};
use std::alloc::Allocator;

/// What the first message of a connection asks for.
#[derive(Clone, Copy, Debug, PartialEq, Eq)]
pub enum First {
    /// Initialize: a session begins, and this is its synchronous channel.
    Start,
    /// AsyncInitialize: this is the asynchronous channel of the session of this number.
    Join(u32),
    /// Anything else: the connection ends with a FatalError.
    Refused(FatalCode),
}

impl First {
    ghost use Rattle.psu_hislip.specs.First.{first_of};

    /// Returns what this message asks for as the first of a connection.
    pub fn of<A: Allocator + Copy>(message: &Message<A>) -> First
        ensures { result ≡ first_of (received message.now) }
    {
        match message {
            Message::BadHeader => First::Refused(FatalCode::PoorlyFormedHeader),
            Message::Oversize(_) => First::Refused(FatalCode::InvalidInitialization),
            Message::Frame(header, _) => match header.message_type() {
                Some(MessageType::Initialize) => First::Start,
                Some(MessageType::AsyncInitialize) => First::Join(header.parameter),
                _ => First::Refused(FatalCode::InvalidInitialization),
            },
        }
    }
}
