//! The messages of a channel.
ghost use Rattle.std.specs.Prelude.{◌≡◌, IfErr, OnOk, OnErr, flat_map};
ghost use Rattle.psu_hislip.specs.Action.{acts};
ghost use Rattle.psu_hislip.specs.Stream.{received};
ghost use Rattle.psu_session.specs.Room.{KeepsCapacity};
ghost use Rattle.psu_session.specs.Step.{Each, IsMessageReceived, release_in, works_in};
ghost use Rattle.psu_session.specs.Serving.{Appends, PerformsStep};
ghost use Rattle.psu_session.specs.Stopping.{CallsPrefix, IsQueueCause, StopsIn};
ghost use Rattle.psu_session.specs.Shown.{state_of};
ghost use Rattle.psu_session.specs.State.{numbered};

use crate::numbers::{clears, number_on, parameter};
use crate::{Device, EndCause, Parts};
use psu_hislip::{Actions, Message, Side};
use std::alloc::Global;

impl Parts {
    // Does or queues what the actions of a message request, one after another.
    #[inline(always)]
    fn act_all<D: Device>(
        &mut self,
        device: &mut D,
        now: u64,
        number: u32,
        actions: Actions<Global>,
    ) -> Result<(), EndCause>
        ensures done { OnOk result (Appends D.does (Each (state_of self.old).lock_waits (acts actions.items))
            (flat_map works_in (acts actions.items)) (flat_map (release_in now number) (acts actions.items))
            (state_of self.old) device.old
            (state_of self.new) device.new) }
        ensures stopped { OnErr result (CallsPrefix D.does (Each (state_of self.old).lock_waits (acts actions.items)) device.old device.new) }
        ensures cause { IfErr result (λ cause. IsQueueCause cause (flat_map works_in (acts actions.items))
            (flat_map (release_in now number) (acts actions.items)) (state_of self.old)) }
        ensures capacity { KeepsCapacity self.old self.new }
    {
        let mut rest = actions.into_iter();
        while let Some(action) = rest.next() {
            self.make_room()?;
            self.act(device, now, number, action)?;
        }
        Ok(())
    }

    // Counts the message of a number as received.
    fn count(&mut self, number: Option<u32>)
        ensures done { state_of self.new ≡ numbered (state_of self.old) number }
        ensures capacity { KeepsCapacity self.old self.new }
    {
        if let Some(number) = number {
            self.last = number;
        }
    }

    /// Passes a message of a channel to the core at a time in milliseconds, and does or queues what it requests.
    #[inline(always)]
    pub fn receive_message<D: Device>(
        &mut self,
        now: u64,
        side: Side,
        message: Message<Global>,
        device: &mut D,
    ) -> Result<(), EndCause>
        ensures done { OnOk result (PerformsStep D.does (IsMessageReceived now side (received message))
            (state_of self.old) device.old (state_of self.new) device.new) }
        ensures stopped { IfErr result (λ cause. StopsIn D.does
            (IsMessageReceived now side (received message)) cause (state_of self.old) device.old device.new) }
        ensures capacity { KeepsCapacity self.old self.new }
    {
        let number = number_on(side, &message);
        let id = parameter(&message);
        let actions = self.core.on(side, message)?;
        let all = clears(actions.as_slice());
        self.act_all(device, now, id, actions)?;
        self.count(number);
        self.settle(all, now)
    }
}
