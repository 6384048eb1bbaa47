//! The units of an expansion, in the place of the unit that it replaces.
ghost use Rattle.std.specs.Prelude.{is_some, ℕ, IfOk, IfErr, IfSome};
ghost use Rattle.psu_messages.specs.Relations.{IsAwaited};
ghost use Rattle.psu_messages.specs.Executions.{Advances, StopsAt};
ghost use Rattle.psu_messages.specs.Stepping.{expanded_by, within};
ghost use Rattle.psu_messages.specs.Units.{Source};

use crate::cursor::{Cursor, take_unit};
use crate::steps::take_step;
use crate::{Executor, Need, ResponseBuffer};
use psu_tree::Request;
use std::alloc::Allocator;

/// Executes the rest of an expansion. Returns what has to be waited for, if the expansion isn't done then.
pub(crate) fn expand<A: Allocator + Copy, F: Executor<A>>(
    executor: &mut F,
    body: &[u8],
    done: &mut u64,
    parked: &mut Option<F::Wait>,
    gathered: &mut ResponseBuffer<A>,
) -> Result<Option<Need>, F::Stop>
    ensures advances { IfOk result (λ need. (source : Source) (units : ℕ)
        → Advances F.relations.does source executor.old (within units body.now done.old (is_some parked.old) gathered.old)
        executor.new (expanded_by need units body.now done.new (is_some parked.new) gathered.new)) }
    ensures waits { IfOk result (λ some. IfSome some (IsAwaited F.relations executor.new)) }
    ensures stops { IfErr result (λ stop. (source : Source) (units : ℕ)
        → StopsAt F.relations source executor.old (within units body.now done.old (is_some parked.old) gathered.old) stop executor.new gathered.new) }
{
    let mut cursor = Cursor::of(body);
    cursor.pass_to(*done, true);
    let mut request = Request::unread();
    'units: loop {
        if !executor.may_continue() {
            return Ok(Some(Need::Turn));
        }
        let Some(unit) = take_unit(&mut cursor.units) else {
            break;
        };
        cursor.request(&unit, true, &mut request);
        let step = take_step(executor, &request, parked, gathered)?;
        if let Some(need) = step {
            return Ok(Some(need));
        }
        *done += 1;
    }
    *parked = None;
    Ok(None)
}
