//! The output, and who writes it.
ghost use Rattle.std.specs.Prelude.{◌≡◌, ◌⊎◌, ◌↔◌, true, false, [], ◌∷◌, IfSome, IsNone};
ghost use Rattle.psu_session.specs.Events.{Took, Wrote};
ghost use Rattle.psu_hislip.specs.declared.side.Side.TheVariants.{Sync, Async};
ghost use Rattle.psu_session.specs.Room.{HasReplyRoom, KeepsCapacity};
ghost use Rattle.psu_session.specs.Step.{IsTaken, IsWritten};
ghost use Rattle.psu_session.specs.Shown.{state_of};
ghost use Rattle.psu_session.specs.State.{output, with_output, with_writes, writes};

use crate::Parts;
use psu_hislip::Side;
use std::mem;

impl Parts {
    /// Whether a thread writes on a connection.
    pub fn is_writing(&self, side: Side) -> bool
        ensures { result ≡ writes side (state_of self.now) }
    {
        match side {
            Side::Sync => self.sync_writes,
            Side::Async => self.async_writes,
        }
    }

    // Sets whether a thread writes on a connection.
    fn set_writing(&mut self, side: Side, writing: bool)
        ensures set { state_of self.new ≡ with_writes side (state_of self.old) writing }
        ensures room { HasReplyRoom self.old → HasReplyRoom self.new }
        ensures capacity { KeepsCapacity self.old self.new }
    {
        match side {
            Side::Sync => self.sync_writes = writing,
            Side::Async => self.async_writes = writing,
        }
    }

    /// Whether bytes are to be sent on a connection.
    pub fn has_output(&self, side: Side) -> bool
        ensures { (result ≡ false) ↔ (output side (state_of self.now) ≡ []) }
    {
        match side {
            Side::Sync => !self.sync_output.is_empty(),
            Side::Async => !self.async_output.is_empty(),
        }
    }

    // Empties the output of a connection, and returns it.
    fn empty_output(&mut self, side: Side) -> Vec<u8>
        ensures all { output side (state_of self.old) ≡ result.items }
        ensures after { state_of self.new ≡ with_output side (state_of self.old) [] }
        ensures capacity { side ≡ Sync → KeepsCapacity self.old self.new }
    {
        let none = Vec::new(self.alloc);
        match side {
            Side::Sync => mem::replace(&mut self.sync_output, none),
            Side::Async => mem::replace(&mut self.async_output, none),
        }
    }

    /// Takes all bytes that are to be sent on a connection, if there are any and no thread writes there.
    pub fn take(&mut self, side: Side) -> Option<Vec<u8>>
        ensures some { IfSome result (λ bytes. IsTaken side bytes.items (state_of self.old) (Took side bytes.items ∷ []) (state_of self.new)) }
        ensures none { IsNone result → (state_of self.new ≡ state_of self.old)
            × ((writes side (state_of self.old) ≡ true) ⊎ (output side (state_of self.old) ≡ [])) }
        ensures capacity { output Async (state_of self.new) ≡ output Async (state_of self.old) → KeepsCapacity self.old self.new }
    {
        if self.is_writing(side) || !self.has_output(side) {
            return None;
        }
        let bytes = self.empty_output(side);
        self.set_writing(side, true);
        Some(bytes)
    }

    /// The bytes that were taken for a connection are written, by the thread that writes there.
    pub fn written(&mut self, side: Side)
        requires { writes side (state_of self.old) ≡ true }
        ensures done { IsWritten side (state_of self.old) (Wrote side ∷ []) (state_of self.new) }
        ensures room { HasReplyRoom self.old → HasReplyRoom self.new }
    {
        self.set_writing(side, false);
    }
}
