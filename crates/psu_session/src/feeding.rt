//! The bytes of a channel.
ghost use Rattle.std.specs.Prelude.{◌≡◌, List, IfErr, OnOk, [], ◌++◌, map};
ghost use Rattle.psu_hislip.specs.Stream.{received};
ghost use Rattle.psu_session.specs.Feeding.{IsFed};
ghost use Rattle.psu_session.specs.Room.{KeepsCapacity};
ghost use Rattle.psu_session.specs.Step.{EachReceived, IsReceived};
ghost use Rattle.psu_session.specs.Serving.{PerformsStep};
ghost use Rattle.psu_session.specs.Stopping.{StopsIn, StopsReceiving};
ghost use Rattle.psu_session.specs.Shown.{state_of};
ghost use Rattle.psu_session.specs.declared.phase.EndCause.TheVariants.{Memory};

use crate::{Device, EndCause, Parts};
use psu_hislip::{Message, Side};
use std::alloc::Global;
use std::collections::VecDeque;
use std::mem;

impl Parts {
    // Appends to an empty list the messages that these next bytes of a channel's stream complete.
    #[inline(always)]
    fn feed(
        &mut self,
        side: Side,
        received_bytes: &[u8],
        messages: &mut VecDeque<Message<Global>>,
    ) -> Result<(), EndCause>
        requires { messages.old.items ≡ [] }
        ensures fed { OnOk result (IsFed side received_bytes.now (map received messages.new.items) (state_of self.old) (state_of self.new)) }
        ensures cause { IfErr result (λ cause. cause ≡ Memory) }
        ensures capacity { KeepsCapacity self.old self.new }
    {
        match side {
            Side::Sync => self.sync_channel.feed(received_bytes, messages)?,
            Side::Async => self.async_channel.feed(received_bytes, messages)?,
        }
        Ok(())
    }

    // Receives the messages of a list, one after another.
    fn receive_messages<D: Device>(
        &mut self,
        now: u64,
        side: Side,
        messages: &mut VecDeque<Message<Global>>,
        device: &mut D,
    ) -> Result<(), EndCause>
        ensures done { OnOk result (PerformsStep D.does (EachReceived now side (map received messages.old.items))
            (state_of self.old) device.old (state_of self.new) device.new) }
        ensures stopped { IfErr result (λ cause. StopsIn D.does
            (EachReceived now side (map received messages.old.items)) cause
            (state_of self.old) device.old device.new) }
        ensures capacity { KeepsCapacity self.old self.new }
    {
        while let Some(message) = messages.pop_front() {
            self.receive_message(now, side, message, device)?;
        }
        Ok(())
    }

    /// Receives the next bytes of a channel's stream: the messages that they complete are passed to the core, and what
    /// these request is done or queued.
    pub fn receive_bytes<D: Device>(
        &mut self,
        now: u64,
        side: Side,
        received_bytes: &[u8],
        device: &mut D,
    ) -> Result<(), EndCause>
        ensures done { OnOk result (PerformsStep D.does (IsReceived now side received_bytes.now)
            (state_of self.old) device.old (state_of self.new) device.new) }
        ensures stopped { IfErr result (λ cause. StopsReceiving D.does now side received_bytes.now cause (state_of self.old) device.old device.new) }
        ensures capacity { KeepsCapacity self.old self.new }
    {
        let mut messages = mem::replace(&mut self.messages, VecDeque::new(self.alloc));
        messages.clear();
        self.feed(side, received_bytes, &mut messages)?;
        self.receive_messages(now, side, &mut messages, device)?;
        self.messages = messages;
        Ok(())
    }
}
