//! The reply of an executor to a try of a unit.
ghost use Rattle.std.specs.Prelude.{◌≡◌};
ghost use Rattle.psu_replies.specs.Reply.{outcome_of};
ghost use Rattle.psu_messages.specs.Shown.{HasItsWait, reply_of};

use psu_replies::Outcome;
use std::alloc::Allocator;

/// The reply of an executor to a try of a unit.
#[derive(Drop)]
pub enum Tried<A: Allocator + Copy, W> {
    /// The unit was accepted, and waits; this settles its wait.
    Parked(W),
    /// Any other outcome.
    Replied(Outcome<A>),
}

impl<A: Allocator + Copy, W: Copy> Tried<A, W> {
    /// The reply with this outcome; if the unit waits, this settles its wait.
    #[inline(always)]
    pub fn of(outcome: Outcome<A>, wait: W) -> Tried<A, W>
        ensures reply { reply_of result ≡ outcome_of outcome }
        ensures wait { HasItsWait result }
    {
        match outcome {
            Outcome::Parked => Tried::Parked(wait),
            outcome => Tried::Replied(outcome),
        }
    }
}
