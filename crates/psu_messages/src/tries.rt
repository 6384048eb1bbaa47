//! One try of a unit.
ghost use Rattle.std.specs.Prelude.{◌≡◌, ◌≢◌, is_some, IfOk, IfErr};
ghost use Rattle.psu_replies.specs.Reply.{Parked};
ghost use Rattle.psu_replies.specs.Reply.{outcome_of};
ghost use Rattle.psu_messages.specs.Effects.{needs};
ghost use Rattle.psu_messages.specs.Shown.{IsTried};
ghost use Rattle.psu_messages.specs.Stepping.{IsBrokenOff};

use crate::{Executor, Need, Tried};
use psu_replies::Outcome;
use psu_tree::Request;
use std::alloc::Allocator;

/// Whether a unit has ended with a try.
#[derive(Drop)]
pub(crate) enum Attempt<A: Allocator + Copy> {
    /// The unit has ended.
    Ended(Outcome<A>),
    /// The unit is to be tried again once this need is met.
    Waits(Need),
}

// What a unit that is not parked waits for if it is to be tried again.
#[inline(always)]
fn need_of<A: Allocator + Copy>(outcome: &Outcome<A>) -> Option<Need>
    requires { outcome_of outcome.now ≢ Parked }
    ensures { result ≡ needs (outcome_of outcome.now) }
{
    match outcome {
        Outcome::Held => Some(Need::Lock),
        Outcome::Later => Some(Need::Room),
        _ => None,
    }
}

/// Tries a unit once: executes it, or settles its wait where it was accepted.
#[inline(always)]
pub(crate) fn take_try<A: Allocator + Copy, F: Executor<A>>(
    executor: &mut F,
    parked: &mut Option<F::Wait>,
    request: &Request<'_>,
) -> Result<Attempt<A>, F::Stop>
    ensures tried { IfOk result (IsTried F.relations.does executor.old (is_some parked.old) request.now executor.new (is_some parked.new)) }
    ensures stopped { IfErr result (λ stop. IsBrokenOff F.relations executor.old (is_some parked.old) request.now stop executor.new) }
{
    match executor.try_unit(request, parked)? {
        Tried::Parked(wait) => {
            *parked = Some(wait);
            Ok(Attempt::Waits(Need::Flush))
        }
        Tried::Replied(outcome) => match need_of(&outcome) {
            Some(need) => Ok(Attempt::Waits(need)),
            None => {
                *parked = None;
                Ok(Attempt::Ended(outcome))
            }
        },
    }
}
