//! The execution of a transmission, unit by unit, with a response message for each message that has responses.
ghost use Rattle.std.specs.Prelude.{◌≡◌, ℕ, List, is_some, ◌+◌, ◌<◌, ◌≤◌, ◌^◌, true, false, None, IfOk, IfErr, IfSome, OnOk, OnErr};
ghost use Rattle.psu_messages.specs.Relations.{IsAwaited};
ghost use Rattle.psu_messages.specs.Executions.{Advances, IsNext, IsOver, NextUnit, StopsAt};
ghost use Rattle.psu_messages.specs.Places.{IsCursor, IsSavedPlace};
ghost use Rattle.psu_messages.specs.Shown.{ProgressAdvances, ProgressStops, progress_of};
ghost use Rattle.psu_messages.specs.Stepping.{plain, within};
ghost use Rattle.psu_messages.specs.Units.{Asks, EndsMessage, Fault, Source, Text};

use crate::cursor::{Cursor, SavedPlace, take_unit};
use crate::expansions::expand;
use crate::responses::{add_response, close};
use crate::tries::{Attempt, take_try};
use crate::{Executor, Expansion, Need, Progress};
use psu_lex::ScpiError;
use psu_replies::Outcome;
use psu_tree::Request;
use std::alloc::Allocator;

// Executes the rest of the expansion that replaces the next unit.
#[inline(never)]
fn continue_expansion<A: Allocator + Copy, F: Executor<A>>(
    executor: &mut F,
    progress: &mut Progress<A, F::Wait>,
) -> Result<Option<Need>, F::Stop>
    requires some { is_some progress.old.expansion ≡ true }
    requires units { progress.old.units + 1 < 2 ^ 64 }
    ensures advances { IfOk result (λ _. (source : Source)
        → ProgressAdvances F.relations source executor.old progress.old executor.new progress.new) }
    ensures units { IfOk result (λ need. need ≡ None → progress.new.units ≡ progress.old.units + 1) }
    ensures grows { progress.old.units ≤ progress.new.units }
    ensures waits { IfOk result (λ some. IfSome some (IsAwaited F.relations executor.new)) }
    ensures stops { IfErr result (λ stop. (source : Source)
        → ProgressStops F.relations source executor.old progress.old stop executor.new progress.new) }
{
    let Some(expansion) = &mut progress.expansion else {
        return Ok(None);
    };
    let need = expand(
        executor,
        expansion.body.as_slice(),
        &mut expansion.done,
        &mut progress.parked,
        &mut progress.gathered,
    )?;
    match need {
        None => {
            progress.expansion = None;
            progress.units += 1;
            Ok(None)
        }
        Some(need) => Ok(Some(need)),
    }
}

// Executes a unit of a message, and an expansion that replaces it.
#[inline(always)]
fn begin<A: Allocator + Copy, F: Executor<A>>(
    executor: &mut F,
    request: &Request<'_>,
    progress: &mut Progress<A, F::Wait>,
) -> Result<Option<Need>, F::Stop>
    requires none { progress.old.expansion ≡ None }
    requires units { progress.old.units + 1 < 2 ^ 64 }
    ensures advances { IfOk result (λ _. (source : Source)
        → IsNext source (plain progress.old.units (is_some progress.old.parked) progress.old.gathered) request.now
        → Advances F.relations.does source executor.old
        (plain progress.old.units (is_some progress.old.parked) progress.old.gathered) executor.new
        (progress_of progress.new)) }
    ensures units { IfOk result (λ need. need ≡ None → progress.new.units ≡ progress.old.units + 1) }
    ensures grows { progress.old.units ≤ progress.new.units }
    ensures waits { IfOk result (λ some. IfSome some (IsAwaited F.relations executor.new)) }
    ensures stops { IfErr result (λ stop. (source : Source)
        → IsNext source (plain progress.old.units (is_some progress.old.parked) progress.old.gathered) request.now
        → StopsAt F.relations source executor.old
        (plain progress.old.units (is_some progress.old.parked) progress.old.gathered) stop executor.new
        progress.new.gathered) }
{
    match take_try(executor, &mut progress.parked, request)? {
        Attempt::Waits(need) => Ok(Some(need)),
        Attempt::Ended(outcome) => match outcome {
            Outcome::Expand(body) => {
                progress.expansion = Some(Expansion { body, done: 0 });
                continue_expansion(executor, progress)
            }
            outcome => {
                add_response(executor, &mut progress.gathered, &outcome)?;
                progress.units += 1;
                Ok(None)
            }
        },
    }
}

// Sends the rest of a message's responses before the first unit of the next message.
#[inline(always)]
fn close_before<A: Allocator + Copy, F: Executor<A>>(
    executor: &mut F,
    first: bool,
    progress: &mut Progress<A, F::Wait>,
) -> Result<(), F::Stop>
    ensures advances { OnOk result ((source : Source) → (first ≡ true → progress.old.expansion ≡ None
        → EndsMessage source progress.old.units None)
        → ProgressAdvances F.relations source executor.old progress.old executor.new progress.new) }
    ensures clear { OnOk result (first ≡ true → progress.new.expansion ≡ None
        → progress.new.gathered.answered ≡ false) }
    ensures units { progress.new.units ≡ progress.old.units }
    ensures stopped { IfErr result (λ stop. F.relations.stops executor.old stop executor.new) }
    ensures left { OnErr result (progress.new.gathered ≡ progress.old.gathered) }
    ensures unsent { OnErr result (progress.old.gathered.answered ≡ true) }
{
    if !first || progress.expansion.is_some() {
        return Ok(());
    }
    close(executor, &mut progress.gathered)?;
    Ok(())
}

// Executes the next unit, or continues the expansion in its place; before the first unit of a message, ends the message
// before it.
#[inline(always)]
fn take_turn<A: Allocator + Copy, F: Executor<A>>(
    executor: &mut F,
    first: bool,
    request: &Request<'_>,
    progress: &mut Progress<A, F::Wait>,
) -> Result<Option<Need>, F::Stop>
    requires { progress.old.units + 1 < 2 ^ 64 }
    ensures advances { IfOk result (λ _. (source : Source) → Asks source progress.old.units request.now first
        → ProgressAdvances F.relations source executor.old progress.old executor.new progress.new) }
    ensures units { IfOk result (λ need. need ≡ None → progress.new.units ≡ progress.old.units + 1) }
    ensures grows { progress.old.units ≤ progress.new.units }
    ensures waits { IfOk result (λ some. IfSome some (IsAwaited F.relations executor.new)) }
    ensures stops { IfErr result (λ stop. (source : Source) → Asks source progress.old.units request.now first
        → ProgressStops F.relations source executor.old progress.old stop executor.new progress.new) }
{
    close_before(executor, first, progress)?;
    if progress.expansion.is_some() {
        return continue_expansion(executor, progress);
    }
    begin(executor, request, progress)
}

// Executes the units of a text from a cursor on, up to a unit that has to wait or before which the executor yields.
#[inline(always)]
fn execute_units<'t, A: Allocator + Copy, F: Executor<A>>(
    executor: &mut F,
    cursor: &mut Cursor<'t>,
    progress: &mut Progress<A, F::Wait>,
) -> Result<Option<Need>, F::Stop>
    requires place { IsCursor false cursor.old }
    requires read { cursor.old.read ≡ progress.old.units }
    ensures advances { IfOk result (λ _. ProgressAdvances F.relations
        (Text cursor.old.text.now) executor.old progress.old executor.new progress.new) }
    ensures over { IfOk result (λ need. need ≡ None → IsOver (Text cursor.old.text.now) (progress_of progress.new)) }
    ensures waits { IfOk result (λ some. IfSome some (IsAwaited F.relations executor.new)) }
    ensures stops { IfErr result (λ stop. ProgressStops F.relations
        (Text cursor.old.text.now) executor.old progress.old stop executor.new progress.new) }
    ensures place { IfOk result (λ need. is_some need ≡ true → IsCursor false cursor.new) }
    ensures text { cursor.new.text ≡ cursor.old.text }
    ensures grows { progress.old.units ≤ progress.new.units }
{
    let mut request = Request::unread();
    'units: loop {
        if !executor.may_continue() {
            return Ok(Some(Need::Turn));
        }
        let before = cursor.units;
        let at_root = cursor.path.is_root();
        let Some(unit) = take_unit(&mut cursor.units) else {
            break;
        };
        cursor.request(&unit, false, &mut request);
        let turn = take_turn(executor, unit.first, &request, progress)?;
        if let Some(need) = turn {
            // The unit is read again after the wait. Where the path before it is known, the cursor goes back there, so
            // that no earlier unit is.
            if at_root {
                cursor.back_to(before);
            }
            return Ok(Some(need));
        }
    }
    close(executor, &mut progress.gathered)?;
    Ok(None)
}

/// Executes a text from its beginning, up to a unit that has to wait or before which the executor yields. Returns what
/// is waited for, or none if all of the text is executed. If the executor stops, it stops for good; responses that are
/// not sent are still in the response buffer, except the response of a unit for which an allocation failed.
pub fn execute_text<A: Allocator + Copy, F: Executor<A>>(
    executor: &mut F,
    bytes: &[u8],
    progress: &mut Progress<A, F::Wait>,
) -> Result<Option<Need>, F::Stop>
    requires { progress.old.units ≡ 0 }
    ensures advances { IfOk result (λ _. ProgressAdvances F.relations
        (Text bytes.now) executor.old progress.old executor.new progress.new) }
    ensures over { IfOk result (λ need. need ≡ None → IsOver (Text bytes.now) (progress_of progress.new)) }
    ensures waits { IfOk result (λ some. IfSome some (IsAwaited F.relations executor.new)) }
    ensures stops { IfErr result (λ stop. ProgressStops F.relations
        (Text bytes.now) executor.old progress.old stop executor.new progress.new) }
{
    let mut cursor = Cursor::of(bytes);
    let need = execute_units(executor, &mut cursor, progress)?;
    Ok(need)
}

/// Executes the report of an error in place of a text, as a text is executed.
#[inline(never)]
pub fn execute_fault<A: Allocator + Copy, F: Executor<A>>(
    executor: &mut F,
    error: ScpiError,
    progress: &mut Progress<A, F::Wait>,
) -> Result<Option<Need>, F::Stop>
    ensures advances { IfOk result (λ _. ProgressAdvances F.relations
        (Fault error) executor.old progress.old executor.new progress.new) }
    ensures over { IfOk result (λ need. need ≡ None → IsOver (Fault error) (progress_of progress.new)) }
    ensures waits { IfOk result (λ some. IfSome some (IsAwaited F.relations executor.new)) }
    ensures stops { IfErr result (λ stop. ProgressStops F.relations
        (Fault error) executor.old progress.old stop executor.new progress.new) }
{
    if progress.units > 0 {
        close(executor, &mut progress.gathered)?;
        return Ok(None);
    }
    let request = Request {
        call: None,
        reading: Err(error),
        inside: false,
    };
    let turn = take_turn(executor, true, &request, progress)?;
    if let Some(need) = turn {
        return Ok(Some(need));
    }
    close(executor, &mut progress.gathered)?;
    Ok(None)
}

/// Executes the rest of a text from a place that is kept, and keeps the place at which it stops.
#[inline(always)]
pub(crate) fn execute_rest<A: Allocator + Copy, F: Executor<A>>(
    executor: &mut F,
    alloc: A,
    bytes: &[u8],
    place: &mut SavedPlace<A>,
    progress: &mut Progress<A, F::Wait>,
) -> Result<Option<Need>, F::Stop>
    requires kept { IsSavedPlace false bytes.now place.old }
    requires done { place.old.read ≤ progress.old.units }
    ensures advances { IfOk result (λ _. ProgressAdvances F.relations
        (Text bytes.now) executor.old progress.old executor.new progress.new) }
    ensures over { IfOk result (λ need. need ≡ None → IsOver (Text bytes.now) (progress_of progress.new)) }
    ensures waits { IfOk result (λ some. IfSome some (IsAwaited F.relations executor.new)) }
    ensures stops { IfErr result (λ stop. ProgressStops F.relations
        (Text bytes.now) executor.old progress.old stop executor.new progress.new) }
    ensures kept { IsSavedPlace false bytes.now place.new }
    ensures done { place.new.read ≤ progress.new.units }
{
    let mut cursor = place.cursor(bytes);
    cursor.pass_to(progress.units, false);
    // Where the path has moved past a unit that waits, the place before the first unit of this call is kept.
    let begun = cursor.save_between(alloc, place.read, progress.units);
    let need = execute_units(executor, &mut cursor, progress)?;
    if need.is_some() {
        let reached = cursor.save_between(alloc, place.read, progress.units);
        place.advance_to(begun);
        place.advance_to(reached);
    }
    Ok(need)
}
