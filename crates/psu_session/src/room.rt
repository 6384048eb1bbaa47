//! Room that a session has before a step, so that the step itself cannot fail.
ghost use Rattle.std.specs.Prelude.{◌≡◌, ◌⊎◌, ◌↔◌, IfErr, IsTrue, OnOk, OnErr};
ghost use Rattle.psu_session.specs.Room.{HasReplyRoom, HasRoom, KeepsCapacity};
ghost use Rattle.psu_session.specs.Shown.{state_of};
ghost use Rattle.psu_session.specs.declared.phase.EndCause.TheVariants.{Memory};
ghost use Rattle.psu_session.specs.declared.phase.Phase.TheVariants.{Over};

use crate::limits::{REPLIES_ROOM, REPLY_SIZE};
use crate::{EndCause, Parts, Phase};

impl Parts {
    // Whether there is room for a reply.
    #[inline(always)]
    fn has_reply_room(&self) -> bool
        ensures { IsTrue result ↔ HasReplyRoom self.now }
    {
        let output = &self.async_output;
        REPLY_SIZE <= output.capacity().saturating_sub(output.len())
    }

    // Whether there is room for a reply, a transmission and a release.
    #[inline(always)]
    fn has_room(&self) -> bool
        ensures { IsTrue result ↔ HasRoom self.now }
    {
        self.has_reply_room()
            && self.waiting.len() < self.waiting.capacity()
            && self.releases.len() < self.releases.capacity()
    }

    // Allocates the room that is missing.
    fn reserve(&mut self) -> Result<(), EndCause>
        ensures same { state_of self.new ≡ state_of self.old }
        ensures room { OnOk result (HasRoom self.new) }
        ensures cause { IfErr result (λ cause. cause ≡ Memory) }
        ensures capacity { KeepsCapacity self.old self.new }
    {
        self.async_output.reserve(REPLIES_ROOM)?;
        self.waiting.reserve(1)?;
        self.releases.reserve(1)?;
        Ok(())
    }

    /// Makes room for one message without payload in the output of the asynchronous connection. Nothing is allocated, so
    /// nothing can fail, where there is room already.
    #[inline(always)]
    pub fn make_reply_room(&mut self) -> Result<(), EndCause>
        ensures same { state_of self.new ≡ state_of self.old }
        ensures room { OnOk result (HasReplyRoom self.new) }
        ensures needed { OnErr result (HasReplyRoom self.old → ⊥) }
    {
        if !self.has_reply_room() {
            self.async_output.reserve(REPLIES_ROOM)?;
        }
        Ok(())
    }

    /// Makes room for the next reply after a step that was completed. Returns the phase of the session then: this one,
    /// unless memory is refused.
    #[inline(always)]
    pub fn keep(&mut self, phase: Phase) -> Phase
        ensures same { state_of self.new ≡ state_of self.old }
        ensures phase { ((result ≡ phase) × HasReplyRoom self.new) ⊎ ((result ≡ Over Memory) × (HasReplyRoom self.old → ⊥)) }
    {
        match self.make_reply_room() {
            Ok(()) => phase,
            Err(_) => Phase::Over(EndCause::Memory),
        }
    }

    /// Returns the phase of a session after a step with this result: this one if the step was completed.
    #[inline(always)]
    pub fn end_step<T>(&mut self, done: &Result<T, EndCause>, phase: Phase) -> Phase
        ensures same { state_of self.new ≡ state_of self.old }
        ensures ended { IfErr done.now (λ cause. result ≡ Over cause) }
        ensures phase { OnOk done.now (((result ≡ phase) × HasReplyRoom self.new) ⊎ ((result ≡ Over Memory) × (HasReplyRoom self.old → ⊥))) }
    {
        match done {
            Ok(_) => self.keep(phase),
            Err(cause) => Phase::Over(*cause),
        }
    }

    /// Makes room for such a message, for one item of the queue and for one release that waits. Nothing is allocated where
    /// there is room already.
    #[inline(always)]
    pub fn make_room(&mut self) -> Result<(), EndCause>
        ensures same { state_of self.new ≡ state_of self.old }
        ensures room { OnOk result (HasRoom self.new) }
        ensures cause { IfErr result (λ cause. cause ≡ Memory) }
        ensures capacity { KeepsCapacity self.old self.new }
    {
        if self.has_room() {
            return Ok(());
        }
        self.reserve()
    }
}
