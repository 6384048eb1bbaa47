//! A channel of a session: the messages of its stream.
ghost use Rattle.std.specs.Prelude.{◌≡◌, List, [], ◌++◌, OnOk, OnErr};
ghost use Rattle.psu_hislip.specs.Channel.{Awaited, Fed};
ghost use Rattle.psu_hislip.specs.Rest.{awaited, IsFedBy, IsRest};
ghost use Rattle.psu_hislip.specs.declared.message.Message as declared;

use crate::Message;
use crate::decoded::decode;
use crate::rest::Rest;
use crate::whole::take_frames;
use arrayvec::ArrayVec;
use std::alloc::{AllocError, Allocator};
use std::collections::VecDeque;
use std::marker::Model;
use std::mem;

/// The receiver of a channel, which cuts a stream of bytes into messages. Contracts see what the channel waits for.
#[derive(Drop)]
pub struct Channel<A: Allocator + Copy> {
    alloc: A,
    rest: Rest<A>,
}

impl<A: Allocator + Copy> Model for Channel<A> {
    ghost Value = { Awaited };

    ghost view = { λ channel. awaited channel.rest };

    ghost invariant = { λ channel. IsRest channel.rest };
}

impl<A: Allocator + Copy> Channel<A> {
    /// Returns a channel before its first byte.
    pub fn new(alloc: A) -> Channel<A>
        ensures { Fed result [] [] }
    {
        Channel {
            alloc,
            rest: Rest::Header(ArrayVec::new()),
        }
    }

    /// Receives a piece of the stream and appends the messages that end in it to the list, however the stream is cut.
    /// The channel keeps at most a header and one payload.
    ///
    /// Where allocation fails, nothing has changed and the piece can be fed again.
    pub fn feed(
        &mut self,
        piece: &[u8],
        messages: &mut VecDeque<Message<A>, A>,
    ) -> Result<(), AllocError>
        ensures fed { OnOk result (IsFedBy self.old piece.now self.new messages.old.items messages.new.items) }
        ensures refused { OnErr result (self.new ≡ self.old) }
        ensures kept { OnErr result (messages.new.items ≡ messages.old.items) }
    {
        let before = messages.len();
        let fed = self.receive(piece, messages);
        if fed.is_err() {
            messages.truncate(before);
        }
        fed
    }

    // Receives a piece. Where allocation fails, the channel has not changed and the list may contain some of the messages
    // of the piece.
    //
    // Nearly always nothing of a message has been received and the piece is one whole frame: then the channel does not
    // change.
    fn receive(
        &mut self,
        piece: &[u8],
        messages: &mut VecDeque<Message<A>, A>,
    ) -> Result<(), AllocError>
        ensures fed { OnOk result (IsFedBy self.old piece.now self.new messages.old.items messages.new.items) }
        ensures refused { OnErr result (self.new ≡ self.old) }
        ensures appended { (more : List (declared.Message A)) × (messages.new.items ≡ messages.old.items ++ more) }
    {
        if !self.rest.is_empty() {
            return self.receive_in_steps(piece, messages);
        }
        let left = take_frames(self.alloc, messages, piece)?;
        if left.is_empty() {
            return Ok(());
        }
        self.receive_in_steps(left, messages)
    }

    // Receives a piece as `receive` does, in steps. It is not inlined, so that a whole frame does not pay for the
    // variables of the steps.
    #[inline(never)]
    fn receive_in_steps(
        &mut self,
        piece: &[u8],
        messages: &mut VecDeque<Message<A>, A>,
    ) -> Result<(), AllocError>
        ensures fed { OnOk result (IsFedBy self.old piece.now self.new messages.old.items messages.new.items) }
        ensures refused { OnErr result (self.new ≡ self.old) }
        ensures appended { (more : List (declared.Message A)) × (messages.new.items ≡ messages.old.items ++ more) }
    {
        if let Some(rest) = self.rest.copied() {
            self.rest = decode(self.alloc, messages, rest, piece)?;
            return Ok(());
        }
        let Rest::Payload(header, payload) = &mut self.rest else {
            return Ok(());
        };
        let wanted = header.length as usize - payload.len();
        if piece.len() < wanted {
            payload.extend_from_slice(piece)?;
            return Ok(());
        }
        // The frame that has begun goes before the others; its payload is moved in once no allocation can fail any
        // more.
        let place = messages.len();
        messages.push_back(Message::Frame(*header, Vec::new(self.alloc)))?;
        let rest = Rest::Header(ArrayVec::new());
        let rest = decode(self.alloc, messages, rest, &piece[wanted..])?;
        payload.extend_from_slice(&piece[..wanted])?;
        let header = *header;
        let payload = mem::replace(payload, Vec::new(self.alloc));
        messages[place] = Message::Frame(header, payload);
        self.rest = rest;
        Ok(())
    }
}
