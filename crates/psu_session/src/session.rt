//! A session.
ghost use Rattle.std.specs.Prelude.{◌≡◌, ◌⊎◌, ◌↔◌, ◌+◌, IsTrue, true, false, [], ◌∷◌, IfErr, IfOk, OnOk, OnErr, IfSome, IsNone};
ghost use Rattle.psu_hislip.specs.Channel.{Fed};
ghost use Rattle.psu_hislip.specs.Frame.{header_of};
ghost use Rattle.psu_hislip.specs.Stream.{IsStream, Received};
ghost use Rattle.psu_hislip.specs.declared.message_type.MessageType.TheVariants.{InitializeResponse};
ghost use Rattle.psu_session.specs.Events.{Took, Wrote};
ghost use Rattle.psu_session.specs.Holding.{IsBounded, IsFull};
ghost use Rattle.psu_session.specs.Phases.{disconnected, phase_ended};
ghost use Rattle.psu_session.specs.Releasing.{due_at};
ghost use Rattle.psu_session.specs.Step.{IsReachable, IsServiceRequested, IsReceived, IsTaken, IsTicked, IsLockGranted, IsWritten};
ghost use Rattle.psu_session.specs.Proceeding.{Awaits, PassesTo};
ghost use Rattle.psu_session.specs.Serving.{Appends, PerformsStep};
ghost use Rattle.psu_session.specs.Stopping.{StopsNext, StopsReceiving};
ghost use Rattle.psu_session.specs.State.{KeepsPhase, HasWork, Start, fresh, output, writes};
ghost use Rattle.psu_session.specs.declared.opening.OpeningError.TheVariants.{NotOneMessage};
ghost use Rattle.psu_session.specs.declared.phase.EndCause.TheVariants.{Memory};
ghost use Rattle.psu_session.specs.declared.phase.Phase.TheVariants.{Open, Over};

use crate::opening::{OpeningError, opened};
use crate::{Device, EndCause, Parts, Phase, Proceeded};
use psu_hislip::{Header, Side};
use psu_locks::Grant;
use std::alloc::Global;
use std::marker::Model;

/// A session. Contracts see its phase and its state. At any time there is a history that leads to this state, unless the
/// session is over: then no call changes it or calls the device, and each call that can return an error returns its
/// cause. A call that returns an error where the session was not over has called the device for a prefix of what it is
/// to do.
///
/// A session has room for one reply, so a step that needs no more memory is always completed. A step that was completed
/// leaves the session over only where it has changed the output of the asynchronous connection and memory for the next
/// reply is refused.
#[derive(Drop)]
pub struct HislipSession {
    parts: Parts,
    phase: Phase,
}

impl Model for HislipSession {
    ghost use Rattle.std.specs.Prelude.{◌≡◌, ◌<◌, false};
    ghost use Rattle.psu_session.specs.State.{Shown};

    ghost Value = { Shown };

    ghost use Rattle.psu_session.specs.Phases.{phase_ended, units_in};
    ghost use Rattle.psu_session.specs.Room.{HasReplyRoom};
    ghost use Rattle.psu_session.specs.Step.{IsReachable};
    ghost use Rattle.psu_session.specs.Shown.{state_of};

    ghost view = { λ s. record { phase = s.phase; state = state_of s.parts } };

    ghost invariant = { λ s. phase_ended s.phase ≡ false → IsReachable (state_of s.parts) × HasReplyRoom s.parts × (0 < units_in s.phase) };
}

impl HislipSession {
    /// Returns a session of this number, which has only its synchronous connection. The bytes received there are one
    /// message, its Initialize; other bytes are refused.
    pub fn open(alloc: Global, session: u16, opening: &[u8]) -> Result<HislipSession, OpeningError>
        ensures opened { IfOk result (λ opened. (start : Start) × (first : Received)
            × Fed start.sync opening.now (first ∷ []) × Fed start.async [] [] × (start.session ≡ session)
            × (opened ≡ record { phase = Open; state = fresh start })) }
        ensures refused { IfErr result (λ error. error ≡ NotOneMessage → (first : Received) → IsStream opening.now (first ∷ []) → ⊥) }
    {
        let channel = opened(alloc, opening)?;
        let mut parts = Parts::new(alloc, session, channel);
        if parts.make_reply_room().is_err() {
            return Err(OpeningError::Memory);
        }
        Ok(HislipSession {
            parts,
            phase: Phase::Open,
        })
    }

    /// Returns its phase. Until it is over a history leads to its state.
    pub fn phase(&self) -> Phase
        ensures is { result ≡ self.now.phase }
        ensures history { phase_ended self.now.phase ≡ false → IsReachable self.now.state }
    {
        self.phase
    }

    /// Whether it has its second connection.
    pub fn is_joined(&self) -> bool
        ensures { result ≡ self.now.state.core.joined }
    {
        self.parts.core.is_joined()
    }

    /// Whether it has failed with a FatalError. Its connections end once its output is written.
    pub fn has_failed(&self) -> bool
        ensures { result ≡ self.now.state.core.failed }
    {
        self.parts.core.is_failed()
    }

    /// Receives the next bytes of a channel's stream at a time in milliseconds. The messages that they complete are
    /// passed to the core, and what these request is done or queued.
    pub fn receive<D: Device>(
        &mut self,
        now: u64,
        side: Side,
        received_bytes: &[u8],
        device: &mut D,
    ) -> Result<(), EndCause>
        ensures was { OnOk result (phase_ended self.old.phase ≡ false) }
        ensures done { OnOk result (PerformsStep D.does (IsReceived now side received_bytes.now) self.old.state device.old self.new.state device.new) }
        ensures continues { OnOk result (KeepsPhase self.old self.new) }
        ensures ended { IfErr result (λ cause. self.new.phase ≡ Over cause) }
        ensures stopped { IfErr result (λ cause. phase_ended self.old.phase ≡ false
            → StopsReceiving D.does now side received_bytes.now cause self.old.state device.old device.new) }
        ensures over { phase_ended self.old.phase ≡ true → (self.new ≡ self.old) × (device.new ≡ device.old) }
    {
        if let Phase::Over(cause) = self.phase {
            return Err(cause);
        }
        let done = self.parts.receive_bytes(now, side, received_bytes, device);
        self.phase = self.parts.end_step(&done, self.phase);
        done
    }

    /// Answers the lock request that waits, if there is one, with its result. Where the session is over, nothing is done.
    pub fn lock_granted<D: Device>(&mut self, grant: Grant, device: &mut D)
        ensures done { phase_ended self.old.phase ≡ false
            → Appends D.does (IsLockGranted self.old.state.lock_waits grant) [] [] self.old.state device.old
            self.new.state device.new }
        ensures continues { phase_ended self.old.phase ≡ false → KeepsPhase self.old self.new }
        ensures over { phase_ended self.old.phase ≡ true → self.new ≡ self.old }
        ensures uncalled { device.new ≡ device.old }
    {
        if let Phase::Over(_) = self.phase {
            return;
        }
        self.parts.lock_granted(grant, device);
        self.phase = self.parts.keep(self.phase);
    }

    /// Sends the session's service request, if the device has one. Where the session is over, nothing is done.
    pub fn service_requested<D: Device>(&mut self, device: &mut D)
        ensures done { phase_ended self.old.phase ≡ false → Appends D.does IsServiceRequested [] [] self.old.state device.old self.new.state device.new }
        ensures continues { phase_ended self.old.phase ≡ false → KeepsPhase self.old self.new }
        ensures over { phase_ended self.old.phase ≡ true → (self.new ≡ self.old) × (device.new ≡ device.old) }
    {
        if let Phase::Over(_) = self.phase {
            return;
        }
        self.parts.service_requested(device);
        self.phase = self.parts.keep(self.phase);
    }

    /// Continues the transmission in execution, or begins the first one in the queue, until a unit has to wait or
    /// others are let in. A transmission that a device clear or a FatalError has ended is dropped. A release that is
    /// first in the queue is done. After the end of a connection at most so many units are tried as the phase says, in
    /// all calls together, and the session is over once they are tried, or where a unit has to wait.
    pub fn proceed<D: Device>(&mut self, device: &mut D) -> Result<Proceeded, EndCause>
        ensures was { OnOk result (phase_ended self.old.phase ≡ false) }
        ensures waits { IfOk result (λ proceeded. Awaits D.does proceeded device.new) }
        ensures done { IfOk result (λ proceeded. PerformsStep D.does
            (PassesTo self.old.phase proceeded self.new.phase) self.old.state device.old self.new.state
            device.new) }
        ensures ended { IfErr result (λ cause. self.new.phase ≡ Over cause) }
        ensures stopped { IfErr result (λ cause. phase_ended self.old.phase ≡ false
            → (cause ≡ Memory) × StopsNext D.does self.old.state device.old device.new) }
        ensures over { phase_ended self.old.phase ≡ true → (self.new ≡ self.old) × (device.new ≡ device.old) }
    {
        if let Phase::Over(cause) = self.phase {
            return Err(cause);
        }
        let mut left = self.phase.units();
        let done = self.parts.proceed(device, &mut left);
        let phase = self.phase.after(left, &done);
        self.phase = self.parts.end_step(&done, phase);
        done
    }

    /// Queues the releases that have waited long enough at this time in milliseconds.
    pub fn tick(&mut self, now: u64) -> Result<(), EndCause>
        ensures was { OnOk result (phase_ended self.old.phase ≡ false) }
        ensures done { OnOk result (IsTicked now self.old.state [] self.new.state) }
        ensures continues { OnOk result (self.new.phase ≡ self.old.phase) }
        ensures ended { IfErr result (λ cause. self.new.phase ≡ Over cause) }
        ensures stopped { IfErr result (λ cause. phase_ended self.old.phase ≡ false → cause ≡ Memory) }
        ensures over { phase_ended self.old.phase ≡ true → self.new ≡ self.old }
    {
        if let Phase::Over(cause) = self.phase {
            return Err(cause);
        }
        let done = self.parts.settle(false, now);
        self.phase = self.parts.end_step(&done, self.phase);
        done
    }

    /// A connection has ended, or is to end since its FatalError is sent. What was sent before may still be executed.
    pub fn disconnect(&mut self)
        ensures { self.new ≡ record self.old { phase = disconnected self.old.phase } }
    {
        self.phase = self.phase.disconnected();
    }

    /// Closes the session: nothing more is done for it.
    pub fn close(&mut self)
        ensures over { phase_ended self.new.phase ≡ true }
        ensures same { self.new.state ≡ self.old.state }
    {
        match self.phase {
            Phase::Over(_) => {}
            _ => self.phase = Phase::Over(EndCause::Disconnected),
        }
    }

    /// Returns when the wait of the first release is over at the latest, in milliseconds, if a release waits. `tick` is
    /// due then.
    pub fn next_due(&self) -> Option<u64>
        ensures { result ≡ due_at self.now.state.releases }
    {
        self.parts.next_due()
    }

    /// Whether so much is held of what was received on a connection, or is to be sent there, that its reader waits:
    /// more than a mebibyte, each item counting as its bytes and 128, or more than 65,536 bytes. What is held never
    /// counts as more than four mebibytes, even where the reader does not wait: the session is over before that.
    pub fn is_full(&self, side: Side) -> bool
        ensures full { IsTrue result ↔ IsFull side self.now.state }
        ensures bounded { IsBounded self.now.state }
    {
        self.parts.is_full(side)
    }

    /// Whether bytes are to be sent on a connection.
    pub fn has_output(&self, side: Side) -> bool
        ensures { (result ≡ false) ↔ (output side self.now.state ≡ []) }
    {
        self.parts.has_output(side)
    }

    /// Whether a thread writes bytes on a connection that were taken before.
    pub fn writes(&self, side: Side) -> bool
        ensures { result ≡ writes side self.now.state }
    {
        self.parts.is_writing(side)
    }

    /// Whether something is to be executed: a transmission, or the release of a lock.
    pub fn has_work(&self) -> bool
        ensures { IsTrue result ↔ HasWork self.now.state }
    {
        self.parts.has_work()
    }

    /// Returns the response to the session's Initialize.
    pub fn response(&self) -> Header
        ensures { result ≡ header_of InitializeResponse 0 (16777216 + self.now.state.core.session) 0 }
    {
        self.parts.core.response()
    }

    /// Takes all bytes that are to be sent on a connection, for the caller to write. There are none where a thread
    /// still writes there, until `written` is called, or where nothing is to be sent.
    pub fn take_output(&mut self, side: Side) -> Result<Option<Vec<u8>>, EndCause>
        ensures was { OnOk result (phase_ended self.old.phase ≡ false) }
        ensures some { IfOk result (λ taken. IfSome taken (λ bytes. IsTaken side bytes.items self.old.state (Took side bytes.items ∷ []) self.new.state)) }
        ensures none { IfOk result (λ taken. IsNone taken
            → (self.new.state ≡ self.old.state) × ((writes side self.old.state ≡ true)
            ⊎ (output side self.old.state ≡ []))) }
        ensures continues { OnOk result (KeepsPhase self.old self.new) }
        ensures ended { IfErr result (λ cause. (self.old.phase ≡ Over cause) × (self.new ≡ self.old)) }
    {
        if let Phase::Over(cause) = self.phase {
            return Err(cause);
        }
        let taken = self.parts.take(side);
        self.phase = self.parts.keep(self.phase);
        Ok(taken)
    }

    /// The bytes that were taken for a connection are written. Where no thread writes there, or the session is over,
    /// nothing changes.
    pub fn written(&mut self, side: Side)
        ensures done { phase_ended self.old.phase ≡ false → writes side self.old.state ≡ true → IsWritten side self.old.state (Wrote side ∷ []) self.new.state }
        ensures none { writes side self.old.state ≡ false → self.new ≡ self.old }
        ensures over { phase_ended self.old.phase ≡ true → self.new ≡ self.old }
        ensures phase { self.new.phase ≡ self.old.phase }
    {
        if let Phase::Over(_) = self.phase {
            return;
        }
        if self.parts.is_writing(side) {
            self.parts.written(side);
        }
    }
}
