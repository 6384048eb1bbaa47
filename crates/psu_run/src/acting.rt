//! The execution of one unit, with the flushes that it waits for.
ghost use Rattle.std.specs.Prelude.{◌≡◌, ◌≢◌, ◌↔◌, ◌<◌, ◌∷◌, [], IfOk, IfErr, IsTrue, None, true, false};
ghost use Rattle.psu_exec.specs.Calls.{Executed, Settled};
ghost use Rattle.psu_exec.specs.Device.{Later, Parked, is_open, is_whole, wait_of};
ghost use Rattle.psu_exec.specs.Shown.{outcome_of};
ghost use Rattle.psu_messages.specs.Effects.{needs};
ghost use Rattle.psu_run.specs.Ends.{Halts};
ghost use Rattle.psu_run.specs.Parts.{DeviceStops, IsWornAtLast, Leads};
ghost use Rattle.psu_run.specs.Points.{Acts, Calls, IsFlush, IsUnit, RunPoint};

use crate::RunCause;
use crate::jobs::flush;
use crate::powered_device::PoweredDevice;
use psu_disk::Disk;
use psu_exec::{Exec, Outcome, Request, Session};
use std::alloc::Allocator;

fn is_parked<A: Allocator + Copy>(outcome: &Outcome<A>) -> bool
    ensures { IsTrue result ↔ (outcome_of outcome.now ≡ Parked) }
{
    matches!(outcome, Outcome::Parked)
}

fn is_later<A: Allocator + Copy>(outcome: &Outcome<A>) -> bool
    ensures { IsTrue result ↔ (outcome_of outcome.now ≡ Later) }
{
    matches!(outcome, Outcome::Later)
}

fn is_final<A: Allocator + Copy>(outcome: &Outcome<A>) -> bool
    ensures { IsTrue result ↔ (needs (outcome_of outcome.now) ≡ None) }
{
    !matches!(outcome, Outcome::Parked | Outcome::Held | Outcome::Later)
}

// Flushes, and returns the outcome of the session's wait, which is over then, also where the flush or the wait fails.
#[tactic(auto, using(crate::proofs::SessionOne::no_wait))]
fn wait<D: Disk, A: Allocator + Copy>(
    exec: &mut Exec<D, A>,
    session: Session,
) -> Result<Outcome<A>, RunCause>
    requires first { session ≡ 1 }
    requires idle { exec.old.device.flush.out ≡ false }
    requires open { is_open exec.old.device 1 ≡ true }
    ensures ends { IfOk result (λ o. Leads exec.old exec.new (λ p q. (over : RunPoint) × IsFlush D.honest p over × Calls D.honest over (Settled 1 (outcome_of o)) q)) }
    ensures ended { IfOk result (λ o. needs (outcome_of o) ≡ None) }
    ensures free { wait_of exec.new.device.flush 1 ≡ None }
    ensures stops { IfErr result (λ cause. DeviceStops exec.old exec.new (Halts D.honest (Some cause) []) cause) }
    ensures other { IfErr result (λ cause. cause ≢ RunCause.Write) }
    ensures worn { IsWornAtLast exec.old → IsWornAtLast exec.new }
    ensures idle { exec.new.device.flush.out ≡ false }
    ensures open { is_open exec.new.device 1 ≡ true }
    ensures locked { exec.new.device.volatile.locks ≡ exec.old.device.volatile.locks }
{
    match flush(exec) {
        Ok(()) => {}
        Err(cause) => {
            exec.clear(session);
            return Err(cause);
        }
    }
    let outcome = exec.settle(session);
    if is_final(&outcome) {
        return Ok(outcome);
    }
    exec.clear(session);
    Err(RunCause::Device)
}

/// Executes a unit. A parked unit waits for a flush and is settled. The outcome may still be `Later`.
#[inline(always)]
pub(crate) fn act<D: Disk, A: Allocator + Copy>(
    powered: &mut PoweredDevice<D, A>,
    request: &Request<'_>,
) -> Result<Outcome<A>, RunCause>
    ensures acts { IfOk result (λ o. outcome_of o ≢ Later → Leads powered.old.exec powered.new.exec (Acts D.honest request.now (outcome_of o))) }
    ensures late { IfOk result (λ o. outcome_of o ≡ Later → Leads powered.old.exec powered.new.exec (λ p q. Calls D.honest p (Executed 1 request.now Later) q)) }
    ensures ended { IfOk result (λ o. outcome_of o ≢ Later → needs (outcome_of o) ≡ None) }
    ensures room { IfOk result (λ o. outcome_of o ≡ Later → (is_whole powered.old.exec.device.flush.store ≡ true) × (0 < powered.old.exec.device.flush.unflushed)) }
    ensures stops { IfErr result (λ cause. DeviceStops powered.old.exec powered.new.exec (Halts D.honest (Some cause) (request.now ∷ [])) cause) }
    ensures other { IfErr result (λ cause. cause ≢ RunCause.Write) }
{
    let outcome = powered.exec.execute(powered.session, request);
    if !is_parked(&outcome) {
        return Ok(outcome);
    }
    let outcome = wait(&mut powered.exec, powered.session)?;
    Ok(outcome)
}

/// Executes a unit; where its outcome is `Later`, flushes and executes it again.
#[inline(always)]
pub(crate) fn unit<D: Disk, A: Allocator + Copy>(
    powered: &mut PoweredDevice<D, A>,
    request: &Request<'_>,
) -> Result<Outcome<A>, RunCause>
    ensures runs { IfOk result (λ o. Leads powered.old.exec powered.new.exec (IsUnit D.honest request.now (outcome_of o))) }
    ensures ended { IfOk result (λ o. needs (outcome_of o) ≡ None) }
    ensures stops { IfErr result (λ cause. DeviceStops powered.old.exec powered.new.exec (Halts D.honest (Some cause) (request.now ∷ [])) cause) }
    ensures other { IfErr result (λ cause. cause ≢ RunCause.Write) }
{
    let outcome = act(powered, request)?;
    if !is_later(&outcome) {
        return Ok(outcome);
    }
    flush(&mut powered.exec)?;
    let outcome = act(powered, request)?;
    if is_later(&outcome) {
        return Err(RunCause::Device);
    }
    Ok(outcome)
}
