//! The responses of units: gathered in the response buffer, and sent.
ghost use Rattle.std.specs.Prelude.{◌≡◌, true, IfErr, OnOk, OnErr};
ghost use Rattle.psu_replies.specs.Reply.{outcome_of};
ghost use Rattle.psu_messages.specs.Executions.{AddsResponse, Closes, IsResponse};
ghost use Rattle.psu_messages.specs.Stepping.{IsLeft};

use crate::memory_refused::{append_to, end};
use crate::{Executor, ResponseBuffer};
use psu_replies::Outcome;
use std::alloc::Allocator;

/// Adds the response of a unit to the response buffer; a long buffer is sent as a part. If the executor stops, what
/// is not sent is still in the buffer, with the response or without it.
#[inline(always)]
pub(crate) fn add_response<A: Allocator + Copy, F: Executor<A>>(
    executor: &mut F,
    gathered: &mut ResponseBuffer<A>,
    outcome: &Outcome<A>,
) -> Result<(), F::Stop>
    ensures adds { OnOk result (AddsResponse F.relations.does executor.old gathered.old (outcome_of outcome.now) executor.new gathered.new) }
    ensures stopped { IfErr result (λ stop. F.relations.stops executor.old stop executor.new) }
    ensures left { OnErr result (IsLeft gathered.old (outcome_of outcome.now) gathered.new) }
    ensures response { OnErr result (IsResponse (outcome_of outcome.now)) }
{
    let Outcome::Answer(answer) = outcome else {
        return Ok(());
    };
    if let Err(refused) = append_to(gathered, answer.as_slice()) {
        return Err(executor.out_of_memory(refused));
    }
    if !gathered.is_long() {
        return Ok(());
    }
    executor.send(gathered.text(), false)?;
    gathered.clear();
    Ok(())
}

/// Ends a message: sends the last piece of its response message, if it has one. If the executor stops, that piece is
/// still in the response buffer.
#[inline(always)]
pub(crate) fn close<A: Allocator + Copy, F: Executor<A>>(
    executor: &mut F,
    gathered: &mut ResponseBuffer<A>,
) -> Result<(), F::Stop>
    ensures closes { OnOk result (Closes F.relations.does executor.old gathered.old executor.new gathered.new) }
    ensures stopped { IfErr result (λ stop. F.relations.stops executor.old stop executor.new) }
    ensures left { OnErr result (gathered.new ≡ gathered.old) }
    ensures unsent { OnErr result (gathered.old.answered ≡ true) }
{
    if !gathered.has_answered() {
        return Ok(());
    }
    if let Err(refused) = end(gathered) {
        return Err(executor.out_of_memory(refused));
    }
    if let Err(stop) = executor.send(gathered.text(), true) {
        gathered.take_back();
        return Err(stop);
    }
    gathered.restart();
    Ok(())
}
