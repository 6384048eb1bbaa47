//! The execution of what is queued.
ghost use Rattle.std.specs.Prelude.{◌≡◌, ◌↔◌, ◌-◌, ◌<◌, IsTrue, Some, None, IfErr, IfOk, OnErr};
ghost use Rattle.psu_messages.specs.Executions.{beginning};
ghost use Rattle.psu_session.specs.Credit.{cost_of};
ghost use Rattle.psu_session.specs.Proceeding.{Awaits, Counts, Frees, IsNext, IsNextWork};
ghost use Rattle.psu_session.specs.Room.{HasReplyRoom, KeepsCapacity};
ghost use Rattle.psu_session.specs.Serving.{PerformsStep};
ghost use Rattle.psu_session.specs.Shown.{order_of, state_of};
ghost use Rattle.psu_session.specs.Stopping.{StopsNext};
ghost use Rattle.psu_session.specs.State as state;
ghost use Rattle.psu_session.specs.State.{HasWork, SessionState, with_held, with_work};
ghost use Rattle.psu_session.specs.Step.{running};
ghost use Rattle.psu_session.specs.declared.phase.EndCause.TheVariants.{Memory};

use crate::execution::advance;
use crate::queue::NextWork;
use crate::{Device, EndCause, Order, Parts, Running, Work};
use psu_hislip::release_response;
use psu_messages::{Need, ResponseBuffer, Transmission};
use std::mem;

/// The result of a call that continues the execution.
#[derive(Clone, Copy, Debug, PartialEq, Eq)]
pub enum Proceeded {
    /// Nothing is to be executed.
    Idle,
    /// A transmission is over or was dropped, or a release is done. There may be more.
    Completed,
    /// The next unit waits for this need, or others are let in before it.
    Waits(Need),
}

impl Parts {
    // Begins the execution of a transmission.
    #[inline(always)]
    fn begin(&mut self, order: Order)
        ensures begun { state_of self.new ≡ with_work (state_of self.old) (state_of self.old).waiting (Some (running (order_of order) beginning)) }
        ensures capacity { KeepsCapacity self.old self.new }
    {
        let Order { origin, input } = order;
        let buffer = mem::replace(&mut self.buffer, ResponseBuffer::new(self.alloc));
        self.running = Some(Running {
            origin,
            transmission: Transmission::new(self.alloc, input, buffer),
        });
    }

    // Returns what is executed next. Where nothing is in execution, it is the first item of the queue, which is taken.
    #[inline(always)]
    fn begin_next(&mut self) -> NextWork
        ensures next { IsNextWork (state_of self.old) result (state_of self.new) }
        ensures room { HasReplyRoom self.old → HasReplyRoom self.new }
        ensures capacity { KeepsCapacity self.old self.new }
    {
        if self.running.is_some() {
            return NextWork::Transmission;
        }
        match self.waiting.pop_front() {
            None => NextWork::Nothing,
            Some(Work::Execute(order)) => {
                self.begin(order);
                NextWork::Transmission
            }
            Some(Work::Release) => NextWork::Release,
        }
    }

    // Releases a lock.
    fn release_lock<D: Device>(&mut self, device: &mut D)
        requires { HasReplyRoom self.old }
        ensures frees { Frees D.does (state_of self.old) device.old (state_of self.new) device.new }
        ensures capacity { KeepsCapacity self.old self.new }
    {
        self.owed.give_back(0);
        let freed = device.release();
        self.put_header(release_response(freed));
    }

    // Ends the execution of the transmission: it is over, or a device clear or a FatalError has ended it.
    fn end_transmission(&mut self)
        ensures ended { (one : state.Running) → (state_of self.old).running ≡ Some one
            → state_of self.new ≡ with_held (with_work (state_of self.old) (state_of self.old).waiting None) ((state_of self.old).held - cost_of one.order) }
        ensures capacity { KeepsCapacity self.old self.new }
    {
        if let Some(running) = mem::replace(&mut self.running, None) {
            let Running {
                origin: _,
                transmission,
            } = running;
            self.held.give_back(transmission.input().size());
            self.buffer = transmission.into_buffer();
        }
    }

    // Continues the transmission in execution, if there is one. So many units may be tried.
    #[inline(always)]
    fn execute<D: Device>(&mut self, device: &mut D, left: &mut u32) -> Result<Proceeded, EndCause>
        requires { 0 < left.old }
        ensures waits { IfOk result (λ proceeded. Awaits D.does proceeded device.new) }
        ensures done { IfOk result (λ proceeded. (s : SessionState) (next : state.Running)
            → IsNext s next (state_of self.old) → PerformsStep D.does
            (Counts left.old proceeded left.new) s device.old (state_of self.new) device.new) }
        ensures stopped { OnErr result ((s : SessionState) (next : state.Running)
            → IsNext s next (state_of self.old) → StopsNext D.does s device.old device.new) }
        ensures cause { IfErr result (λ cause. cause ≡ Memory) }
        ensures capacity { KeepsCapacity self.old self.new }
    {
        let Some(running) = &mut self.running else {
            return Ok(Proceeded::Idle);
        };
        if !self.core.is_current(running.origin) {
            self.end_transmission();
            return Ok(Proceeded::Completed);
        }
        let need = advance(
            self.alloc,
            &self.core,
            &mut self.sync_output,
            device,
            running,
            left,
        )?;
        match need {
            None => {
                self.end_transmission();
                Ok(Proceeded::Completed)
            }
            Some(need) => Ok(Proceeded::Waits(need)),
        }
    }

    /// Whether something is to be executed.
    pub fn has_work(&self) -> bool
        ensures { IsTrue result ↔ HasWork (state_of self.now) }
    {
        self.running.is_some() || !self.waiting.is_empty()
    }

    /// Continues the transmission in execution, or begins the first item of the queue, until a unit has to wait or
    /// others are let in. A transmission that a device clear or a FatalError has ended is dropped. So many units may be
    /// tried, at least one; how many are left is counted.
    pub fn proceed<D: Device>(
        &mut self,
        device: &mut D,
        left: &mut u32,
    ) -> Result<Proceeded, EndCause>
        requires room { HasReplyRoom self.old }
        requires left { 0 < left.old }
        ensures waits { IfOk result (λ proceeded. Awaits D.does proceeded device.new) }
        ensures done { IfOk result (λ proceeded. PerformsStep D.does (Counts left.old proceeded left.new)
            (state_of self.old) device.old (state_of self.new) device.new) }
        ensures stopped { OnErr result (StopsNext D.does (state_of self.old) device.old device.new) }
        ensures cause { IfErr result (λ cause. cause ≡ Memory) }
        ensures capacity { KeepsCapacity self.old self.new }
    {
        match self.begin_next() {
            NextWork::Nothing => Ok(Proceeded::Idle),
            NextWork::Transmission => self.execute(device, left),
            NextWork::Release => {
                self.release_lock(device);
                Ok(Proceeded::Completed)
            }
        }
    }
}
