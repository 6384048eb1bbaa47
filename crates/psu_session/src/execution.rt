//! The execution of a transmission's units on a device. Their responses are appended to the output.
ghost use Rattle.std.specs.Prelude.{◌≡◌, ◌⊎◌, ◌≤◌, IfErr, IfOk, IfSome, None, OnErr, length};
ghost use Rattle.psu_hislip.specs.Core.{IsCurrent};
ghost use Rattle.psu_messages.specs.Executions.{IsOver};
ghost use Rattle.psu_messages.specs.declared.need.Need.TheVariants.{Turn};
ghost use Rattle.psu_session.specs.Events.{call_of};
ghost use Rattle.psu_session.specs.Proceeding.{IsAwaited, LetsIn};
ghost use Rattle.psu_session.specs.Serving.{AdvancesOrder, Puts};
ghost use Rattle.psu_session.specs.Shown.{one_running};
ghost use Rattle.psu_session.specs.Stopping.{CallsAdvancing};
ghost use Rattle.psu_session.specs.declared.phase.EndCause.TheVariants.{Memory};

use crate::limits::{OUTPUT_ROOM, UNITS_AT_ONCE};
use crate::queue::Accepted;
use crate::{Device, EndCause, Running};
use psu_hislip::{Origin, SessionCore};
use psu_messages::{Executor, MemoryRefused, Need, Transmission, Tried};
use psu_tree::Request;
use std::alloc::Global;

/// The executor of a transmission: the device, and the output for its responses.
#[derive(Drop)]
pub(crate) struct Execution<'a, 'b, 'c, D: Device> {
    core: &'a SessionCore<Global>,
    origin: Origin,
    output: &'b mut Vec<u8>,
    device: &'c mut D,
    // How many units may still be tried, and at which of these others are let in.
    left: u32,
    until: u32,
    // Nothing has ended the transmission.
    pub ghost current: { IsCurrent core.now origin },
}

impl<'a, 'b, 'c, D: Device> Executor<Global> for Execution<'a, 'b, 'c, D> {
    type Stop = EndCause;

    type Wait = Accepted;

    ghost use Rattle.std.specs.Prelude.{◌≡◌, ◌⊎◌, ◌-◌, ◌≤◌, length};
    ghost use Rattle.psu_session.specs.Phases.{tries_by};

    ghost relations = { record {
      does = λ x effect y. (y.output.ghost_name ≡ x.output.ghost_name)
          × (y.device.ghost_name ≡ x.device.ghost_name) × (y.until ≡ x.until)
          × (y.left ≡ x.left - tries_by (call_of effect)) × (y.core ≡ x.core) × (y.origin ≡ x.origin)
          × Puts x.core.now x.origin effect x.output.now.items y.output.now.items × D.does x.device.now (call_of effect) y.device.now;
      fails = λ x request stop y. ⊥;
      stops = λ x stop y. (y.output.ghost_name ≡ x.output.ghost_name)
          × (y.device.ghost_name ≡ x.device.ghost_name) × (y.device.now ≡ x.device.now) × (stop ≡ Memory);
      yields = λ x. (x.left ≤ x.until) ⊎ (65536 ≤ length x.output.now.items);
    } };

    fn may_continue(&self) -> bool {
        self.left > self.until && self.output.len() < OUTPUT_ROOM
    }

    #[inline(always)]
    fn try_unit(
        &mut self,
        request: &Request<'_>,
        parked: &Option<Accepted>,
    ) -> Result<Tried<Global, Accepted>, EndCause> {
        self.left = self.left.saturating_sub(1);
        match parked {
            None => Ok(Tried::of(self.device.execute(request), Accepted)),
            Some(Accepted) => Ok(Tried::of(self.device.settle(), Accepted)),
        }
    }

    fn send(&mut self, text: &[u8], is_last: bool) -> Result<(), EndCause> {
        let frames = if is_last {
            self.core.answer(self.origin, text)?
        } else {
            self.core.part(self.origin, text)?
        };
        let Some(frames) = frames else { unreachable!() };
        if self.output.is_empty() {
            *self.output = frames;
        } else {
            self.output.extend_from_slice(frames.as_slice())?;
        }
        self.device.mark_sent();
        Ok(())
    }

    fn out_of_memory(&self, _: MemoryRefused) -> EndCause {
        EndCause::Memory
    }
}

impl<'a, 'b, 'c, D: Device> Execution<'a, 'b, 'c, D> {
    // Continues until a unit has to wait or others are let in.
    #[inline(always)]
    fn advance(
        &mut self,
        alloc: Global,
        transmission: &mut Transmission<Global, Accepted>,
    ) -> Result<Option<Need>, EndCause>
        ensures advances { IfOk result (λ _. AdvancesOrder D.does self.old.core.now
            (record { origin = self.old.origin; source = transmission.old.source }) transmission.old.progress
            self.old.output.now.items self.old.device.now
            transmission.new.progress self.new.output.now.items self.new.device.now self.old.left self.new.left) }
        ensures yields { IfOk result (λ some. IfSome some (λ need.
            need ≡ Turn → (self.new.left ≤ self.old.until) ⊎ (65536 ≤ length self.new.output.now.items))) }
        ensures cause { IfErr result (λ cause. cause ≡ Memory) }
        ensures over { IfOk result (λ need. need ≡ None → IsOver transmission.old.source transmission.new.progress) }
        ensures waits { IfOk result (λ some. IfSome some (IsAwaited D.does self.new.device.now)) }
        ensures stopped { OnErr result (CallsAdvancing D.does
            (record { origin = self.old.origin; source = transmission.old.source }) transmission.old.progress
            self.old.device.now self.new.device.now) }
        ensures source { transmission.new.source ≡ transmission.old.source }
        ensures output { self.new.output.ghost_name ≡ self.old.output.ghost_name }
        ensures device { self.new.device.ghost_name ≡ self.old.device.ghost_name }
    {
        let need = transmission.proceed(self, alloc)?;
        Ok(need)
    }
}

/// Continues a transmission, which nothing has ended, until a unit has to wait or others are let in. So many units may be
/// tried; how many are left is counted.
#[inline(always)]
pub(crate) fn advance<D: Device>(
    alloc: Global,
    core: &SessionCore<Global>,
    output: &mut Vec<u8>,
    device: &mut D,
    running: &mut Running,
    left: &mut u32,
) -> Result<Option<Need>, EndCause>
    requires { IsCurrent core.now (one_running running.old).order.origin }
    ensures advances { IfOk result (λ _. AdvancesOrder D.does core.now (one_running running.old).order
        (one_running running.old).progress output.old.items device.old
        (one_running running.new).progress output.new.items device.new left.old left.new) }
    ensures yields { IfOk result (λ some. IfSome some (λ need. need ≡ Turn → LetsIn left.old left.new output.new.items)) }
    ensures cause { IfErr result (λ cause. cause ≡ Memory) }
    ensures over { IfOk result (λ need. need ≡ None → IsOver (one_running running.old).order.source (one_running running.new).progress) }
    ensures waits { IfOk result (λ some. IfSome some (IsAwaited D.does device.new)) }
    ensures stopped { OnErr result (CallsAdvancing D.does (one_running running.old).order (one_running running.old).progress device.old device.new) }
    ensures order { (one_running running.new).order ≡ (one_running running.old).order }
{
    let mut execution = Execution {
        core,
        origin: running.origin,
        output: &mut *output,
        device: &mut *device,
        left: *left,
        until: left.saturating_sub(UNITS_AT_ONCE),
    };
    let advanced = execution.advance(alloc, &mut running.transmission);
    *left = execution.left;
    advanced
}
