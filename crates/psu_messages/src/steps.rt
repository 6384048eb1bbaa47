//! A try of a unit of an expansion, and its response.
ghost use Rattle.std.specs.Prelude.{◌≡◌, is_some, List, ℕ, IfOk, IfErr, IfSome};
ghost use Rattle.psu_messages.specs.Executions.{Advances, StopsAt};
ghost use Rattle.psu_messages.specs.Effects.{Awaits};
ghost use Rattle.psu_messages.specs.Stepping.{done_by, within};
ghost use Rattle.psu_messages.specs.Turns.{IsInside};
ghost use Rattle.psu_messages.specs.Units.{Source};

use crate::responses::add_response;
use crate::tries::{Attempt, take_try};
use crate::{Executor, Need, ResponseBuffer};
use psu_tree::Request;
use std::alloc::Allocator;

/// Tries a unit of an expansion, and adds its response to the response buffer. Returns what the unit waits for, if it
/// isn't done then. An expansion in its place is left out: there is none inside another.
#[inline(always)]
pub(crate) fn take_step<A: Allocator + Copy, F: Executor<A>>(
    executor: &mut F,
    request: &Request<'_>,
    parked: &mut Option<F::Wait>,
    gathered: &mut ResponseBuffer<A>,
) -> Result<Option<Need>, F::Stop>
    ensures advances { IfOk result (λ need. (source : Source) (units : ℕ) (body : List ℕ) (done : ℕ) → IsInside body done request.now
        → Advances F.relations.does source executor.old (within units body done (is_some parked.old) gathered.old)
        executor.new (within units body (done_by need done) (is_some parked.new) gathered.new)) }
    ensures waits { IfOk result (λ some. IfSome some (Awaits F.relations.does executor.new)) }
    ensures stops { IfErr result (λ stop. (source : Source) (units : ℕ) (body : List ℕ) (done : ℕ) → IsInside body done request.now
        → StopsAt F.relations source executor.old (within units body done (is_some parked.old) gathered.old) stop executor.new gathered.new) }
{
    match take_try(executor, parked, request)? {
        Attempt::Waits(need) => Ok(Some(need)),
        Attempt::Ended(outcome) => {
            add_response(executor, gathered, &outcome)?;
            Ok(None)
        }
    }
}
