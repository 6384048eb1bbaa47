//! The executor of a session's units.
ghost use Rattle.std.specs.Prelude.{◌≡◌, false, true, is_some, None, IfOk, IfErr, OnOk};
ghost use Rattle.psu_messages.specs.Effects.{Executed, Sent, Settled};
ghost use Rattle.psu_messages.specs.Relations.{Relations};
ghost use Rattle.psu_messages.specs.Shown.{HasItsWait, reply_of};

use crate::{MemoryRefused, Tried};
use psu_tree::Request;
use std::alloc::Allocator;

/// The executor of a session's units, which also sends their responses. It is known only by how an effect (`Effect`)
/// leads from one of its states to another.
pub trait Executor<A: Allocator + Copy> {
    /// The reason why it stops for good.
    type Stop;

    /// What settles the wait of a unit that was accepted. It has no value where no unit is left waiting.
    type Wait: Copy;

    /// What leads from one of its states to another.
    ghost relations: { Relations Self Self.Stop };

    /// Whether it continues with the next unit and does not yield.
    fn may_continue(&self) -> bool
        ensures { result ≡ false → relations.yields self.now };

    /// Tries a unit: executes it or, where it was accepted and waits, returns the result of its wait.
    fn try_unit(
        &mut self,
        request: &Request<'_>,
        parked: &Option<Self::Wait>,
    ) -> Result<Tried<A, Self::Wait>, Self::Stop>
        ensures executed { IfOk result (λ t. parked.now ≡ None → relations.does self.old (Executed request.now (reply_of t)) self.new) }
        ensures settled { IfOk result (λ t. is_some parked.now ≡ true → relations.does self.old (Settled (reply_of t)) self.new) }
        ensures wait { IfOk result HasItsWait }
        ensures failed { IfErr result (λ stop. parked.now ≡ None → relations.fails self.old request.now stop self.new) }
        ensures stopped { IfErr result (λ stop. is_some parked.now ≡ true → relations.stops self.old stop self.new) };

    /// Sends a piece of a response message, the last or an earlier one.
    fn send(&mut self, text: &[u8], is_last: bool) -> Result<(), Self::Stop>
        ensures done { OnOk result (relations.does self.old (Sent text.now is_last) self.new) }
        ensures stopped { IfErr result (λ stop. relations.stops self.old stop self.new) };

    /// The reason why it stops where memory was refused.
    fn out_of_memory(&self, refused: MemoryRefused) -> Self::Stop
        ensures { relations.stops self.now result self.now };
}
