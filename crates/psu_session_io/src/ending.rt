//! A session after the end of a connection: what it was sent before is received and executed.
ghost use Rattle.std.specs.Prelude.{◌≡◌, ◌↔◌, [], false, IsTrue, IfOk, OnErr};
ghost use Rattle.psu_session.specs.Holding.{IsFull};
ghost use Rattle.psu_session.specs.declared.phase.Phase.TheVariants.{Open};
ghost use Rattle.psu_hislip.specs.declared.side.Side.{Side as SideData};
ghost use Rattle.psu_session.specs.Phases.{phase_ended};
ghost use Rattle.psu_session.specs.State.{output, writes};
ghost use Rattle.psu_session_io.specs.Ending.{Discards, Drains, IsDiscarded, IsEnding};
ghost use Rattle.psu_session_io.specs.Sharing.{EndsReceiving, Receives};

use crate::linear::{Closing, Received};
use crate::link::BytesRead;
use crate::{ConnectionSide, SharedSession, StepDevice};
use psu_hislip::Side;
use psu_session::{Device, Phase, Proceeded};

/// The result of a step of the execution of what a session was sent before a connection ended.
#[derive(Clone, Copy, Debug, PartialEq, Eq)]
pub enum Drained {
    /// There may be more.
    More,
    /// Nothing is left to execute, or a unit has to wait, or as many units are tried as may be.
    AllDone,
}

impl SharedSession {
    // Whether a connection has ended, and units of what was sent before may still be tried.
    fn is_ending(&self) -> bool
        ensures { IsTrue result ↔ IsEnding self.now.phase }
    {
        matches!(self.session.phase(), Phase::Ending(_))
    }

    // Notes that nothing is written on a connection any more.
    fn end_last_write(&mut self, side: Side)
        ensures step { Discards self.old self.new }
        ensures ended { phase_ended self.old.phase ≡ false → writes side self.new.state ≡ false }
        ensures phase { self.new.phase ≡ self.old.phase }
    {
        self.session.written(side);
    }

    // Takes the output of a connection, and drops it.
    fn drop_output(&mut self, side: Side)
        ensures step { Discards self.old self.new }
        ensures dropped { phase_ended self.old.phase ≡ false → writes side self.old.state ≡ false → output side self.new.state ≡ [] }
    {
        let _dropped = self.session.take_output(side);
    }

    // Discards the output of both connections.
    fn discard(&mut self)
        ensures step { Discards self.old self.new }
        ensures none { IsEnding self.old.phase → (side : SideData) → IsDiscarded side self.new }
    {
        self.end_last_write(Side::Sync);
        self.drop_output(Side::Sync);
        self.end_last_write(Side::Async);
        self.drop_output(Side::Async);
    }

    // Executes what is next.
    fn execute_last<D: Device>(&mut self, device: &mut D) -> Drained
        ensures { Drains D.does result self.old device.old self.new device.new }
    {
        if !self.is_ending() {
            return Drained::AllDone;
        }
        self.discard();
        match self.session.proceed(device) {
            Ok(Proceeded::Completed | Proceeded::Waits(_)) if self.is_ending() => Drained::More,
            Ok(_) | Err(_) => Drained::AllDone,
        }
    }

    /// Executes a part of what a session was sent before a connection ended. Its responses are discarded. At most 65,536
    /// units are tried in all calls together.
    pub fn drain<D: StepDevice>(&mut self, device: &mut D) -> Drained
        ensures { Drains D.does result self.old device.old self.new device.new }
    {
        let drained = self.execute_last(device);
        device.end_step();
        drained
    }

    // Executes a part of what a full session was sent before a connection ended, so that there may be room for bytes that
    // were read from its synchronous connection. Where there will be none, they are dropped.
    pub(crate) fn make_room<'a, S: ConnectionSide, D: StepDevice>(
        &mut self,
        now: u64,
        bytes: BytesRead<'a, S>,
        device: &mut D,
    ) -> Result<Received<'a, S>, Closing>
        requires full { IsFull S.SIDE self.old.state }
        requires ends { self.old.phase ≡ Open → ⊥ }
        ensures received { IfOk result (λ received. Receives D.does now S.SIDE bytes.entry.bytes.now received self.old device.old self.new device.new) }
        ensures ended { OnErr result (EndsReceiving D.does now S.SIDE bytes.entry.bytes.now self.old device.old self.new device.new) }
    {
        if S::SIDE == Side::Sync && self.drain(device) == Drained::More {
            return Ok(Received::Again(bytes));
        }
        let (_, duty) = bytes.into_parts();
        Err(Closing { duty })
    }
}
