//! The response buffer of a message.
ghost use Rattle.std.specs.Prelude.{◌≡◌, ◌<◌, ◌↔◌, ◌++◌, ◌∷◌, length, IsTrue, OnOk, OnErr};
ghost use Rattle.psu_messages.specs.ResponseBuffer.{Text, emptied, ended, nothing, appended};

use crate::RESPONSE_ROOM;
use std::alloc::{AllocError, Allocator};
use std::marker::Model;

/// The response buffer: the responses of a message's units that are not sent yet, and whether a unit has responded.
#[derive(Drop)]
pub struct ResponseBuffer<A: Allocator + Copy> {
    text: Vec<u8, A>,
    answered: bool,
}

impl<A: Allocator + Copy> Model for ResponseBuffer<A> {
    ghost use Rattle.psu_messages.specs.ResponseBuffer.{Text};

    ghost Value = { Text };

    ghost view = { λ g. record { answered = g.answered; rest = g.text.items } };
}

impl<A: Allocator + Copy> ResponseBuffer<A> {
    /// Returns an empty buffer: no unit has responded.
    pub fn new(alloc: A) -> ResponseBuffer<A>
        ensures { result ≡ nothing }
    {
        ResponseBuffer {
            text: Vec::new(alloc),
            answered: false,
        }
    }

    /// Appends the response of the message's next unit, joined by `;` to the responses before it. If an allocation
    /// fails, nothing has changed.
    #[inline(always)]
    pub fn append(&mut self, answer: &[u8]) -> Result<(), AllocError>
        ensures ok { OnOk result (self.new ≡ appended self.old answer.now) }
        ensures same { OnErr result (self.new ≡ self.old) }
    {
        if self.answered {
            return put_joined(&mut self.text, answer);
        }
        // With room for the NL, since most messages have one response.
        self.text.reserve(answer.len().saturating_add(1))?;
        self.text.extend_from_slice(answer)?;
        self.answered = true;
        Ok(())
    }

    /// Whether so much text is buffered that a part is to be sent.
    pub fn is_long(&self) -> bool
        ensures { IsTrue result ↔ (65536 < length self.now.rest) }
    {
        RESPONSE_ROOM < self.text.len()
    }

    /// The text that is buffered and not sent.
    pub fn text(&self) -> &[u8]
        ensures { result.now ≡ self.now.rest }
    {
        self.text.as_slice()
    }

    /// Empties the buffer after all of its text was sent, as a part of a response message that continues. Its capacity
    /// is kept.
    pub fn clear(&mut self)
        ensures { self.new ≡ emptied self.old }
    {
        self.text.clear();
    }

    /// Whether a unit of the message has responded.
    pub fn has_answered(&self) -> bool
        ensures { result ≡ self.now.answered }
    {
        self.answered
    }

    /// Ends the response message: appends NL to the text, which is to be sent then. If an allocation fails, nothing has
    /// changed.
    pub fn end(&mut self) -> Result<(), AllocError>
        ensures ended { OnOk result (self.new ≡ ended self.old) }
        ensures same { OnErr result (self.new ≡ self.old) }
    {
        self.text.push(b'\n')?;
        Ok(())
    }

    /// Removes the NL of an ended text that was not sent: the message continues.
    pub fn take_back(&mut self)
        ensures { (text : Text) → self.old ≡ ended text → self.new ≡ text }
    {
        self.text.pop();
    }

    /// Resets the buffer for the next message, after the ended text was sent. Its capacity is kept.
    pub fn restart(&mut self)
        ensures { self.new ≡ nothing }
    {
        self.text.clear();
        self.answered = false;
    }
}

// Appends a response to others, after `;`.
fn put_joined<A: Allocator + Copy>(text: &mut Vec<u8, A>, answer: &[u8]) -> Result<(), AllocError>
    ensures joined { OnOk result (text.new.items ≡ text.old.items ++ 59 ∷ answer.now) }
    ensures same { OnErr result (text.new.items ≡ text.old.items) }
{
    let before = text.len();
    text.push(b';')?;
    if text.extend_from_slice(answer).is_err() {
        text.truncate(before);
        return Err(AllocError);
    }
    Ok(())
}
