//! The value of a session that threads share.
ghost use Rattle.std.specs.Prelude.{◌≡◌, ◌≢◌, ◌⊎◌, ◌↔◌, ◌&&◌, not, true, false, None, [], IsTrue, IfOk, OnOk, OnErr, IfSome, IsNone};
ghost use Rattle.psu_hislip.specs.declared.side.Side.TheVariants.{Async};
ghost use Rattle.psu_session.specs.Holding.{IsFull};
ghost use Rattle.psu_session.specs.Phases.{disconnected, phase_ended};
ghost use Rattle.psu_session.specs.Stopping.{StopsNext};
ghost use Rattle.psu_session.specs.declared.phase.EndCause.TheVariants.{Memory};
ghost use Rattle.psu_session.specs.declared.phase.Phase.TheVariants.{Open, Over};
ghost use Rattle.psu_session_io.specs.Shared.{Shared, with_phase, with_reader, with_value};
ghost use Rattle.psu_session_io.specs.Sharing.{EndsExecuting, EndsNotified, EndsReceiving, EndsResponding, Executes, HasMore, MayContinue, MayRequestService, Notifies, Receives, ReceivesAll, Responds, waits_for};

use crate::linear::{Arrived, Closing, Disconnected, Pending, Received, Remainder};
use crate::link::BytesRead;
use crate::notice::Notice;
use crate::writes::Writes;
use crate::{Asynchronous, ConnectionSide, StepDevice, Synchronous};
use psu_hislip::Side;
use psu_locks::Grant;
use psu_messages::Need;
use psu_replies::CannotDrop;
use psu_session::{Device, HislipSession, Phase, Proceeded};
use std::alloc::{AllocError, Global};
use std::marker::{Model, PhantomData};
use std::sync::Arc;

/// A session as its threads share it: what they bring and take are linear values. Contracts see its phase and its state,
/// what its next unit waits for, and which readers wait for room.
#[derive(Drop)]
pub struct SharedSession {
    pub(crate) session: HislipSession,
    // What the next unit waits for. It is tried again once that may have come.
    pub(crate) waits: Option<Need>,
    // Whether the readers wait for room.
    pub(crate) sync_reader_waits: bool,
    pub(crate) async_reader_waits: bool,
    // Which writes are over.
    pub(crate) writes: Arc<Writes>,
}

impl Model for SharedSession {
    ghost use Rattle.psu_session_io.specs.Shared.{Shared};

    ghost Value = { Shared };

    ghost view = { λ s. record {
      phase = s.session.phase;
      state = s.session.state;
      waits = s.waits;
      sync_waits = s.sync_reader_waits;
      async_waits = s.async_reader_waits;
    } };
}

// Returns what the next unit waits for; none where others are only let in.
fn need_of(proceeded: Proceeded) -> Option<Need>
    ensures { result ≡ waits_for proceeded }
{
    match proceeded {
        Proceeded::Waits(Need::Turn) | Proceeded::Idle | Proceeded::Completed => None,
        Proceeded::Waits(need) => Some(need),
    }
}

impl SharedSession {
    /// Returns a session that no thread serves yet.
    pub fn new(alloc: Global, session: HislipSession) -> Result<SharedSession, AllocError>
        ensures { IfOk result (λ shared. shared ≡ record { phase = session.phase; state = session.state; waits = None; sync_waits = false; async_waits = false }) }
    {
        Ok(SharedSession {
            session,
            waits: None,
            sync_reader_waits: false,
            async_reader_waits: false,
            writes: Arc::new(alloc, Writes::new())?,
        })
    }

    /// Returns which writes are over, as the session shares it with its lock.
    pub fn writes(&self) -> Result<Arc<Writes>, AllocError> {
        Arc::try_clone(&self.writes)
    }

    // Whether the session is received, executed and answered.
    fn is_open(&self) -> bool
        ensures { IsTrue result ↔ (self.now.phase ≡ Open) }
    {
        matches!(self.session.phase(), Phase::Open)
    }

    // Ends the session, since a connection has ended or is to end.
    pub(crate) fn end(&mut self, duty: CannotDrop) -> Closing
        ensures { self.new ≡ with_phase self.old (disconnected self.old.phase) }
    {
        self.session.disconnect();
        Closing { duty }
    }

    /// Closes the session: nothing more is done for it.
    pub fn close(&mut self)
        ensures over { phase_ended self.new.phase ≡ true }
        ensures rest { self.new ≡ with_phase self.old self.new.phase }
    {
        self.session.close();
    }

    // Notes that the reader of a connection waits for room.
    pub(crate) fn wait_for_room(&mut self, side: Side)
        ensures { self.new ≡ with_reader side self.old }
    {
        match side {
            Side::Sync => self.sync_reader_waits = true,
            Side::Async => self.async_reader_waits = true,
        }
    }

    // Sends the session's service request after the response that has joined the asynchronous connection.
    fn request_at_join<D: Device>(&mut self, was_joined: bool, device: &mut D)
        ensures { MayRequestService D.does (not was_joined && self.old.state.core.joined && not
            (phase_ended self.old.phase)) self.old device.old self.new device.new }
    {
        if !was_joined && self.session.is_joined() {
            self.session.service_requested(device);
        }
    }

    /// Whether what is received on a connection depends on the time: a release waits, or may be requested, as it is on the
    /// asynchronous connection.
    pub fn needs_time(&self, side: Side) -> bool
        ensures { IsTrue result ↔ ((side ≡ Async) ⊎ (self.now.state.releases ≢ [])) }
    {
        side == Side::Async || self.has_releases()
    }

    // Receives bytes, for which there is room.
    fn receive_all<'a, S: ConnectionSide, D: Device>(
        &mut self,
        now: u64,
        bytes: BytesRead<'a, S>,
        device: &mut D,
    ) -> Result<Received<'a, S>, Closing>
        requires { IsFull S.SIDE self.old.state → ⊥ }
        ensures received { IfOk result (λ received. Receives D.does now S.SIDE bytes.entry.bytes.now received self.old device.old self.new device.new) }
        ensures ended { OnErr result (EndsReceiving D.does now S.SIDE bytes.entry.bytes.now self.old device.old self.new device.new) }
    {
        let (bytes, duty) = bytes.into_parts();
        let was_joined = self.session.is_joined();
        if self.session.receive(now, S::SIDE, bytes, device).is_err() {
            return Err(Closing { duty });
        }
        self.request_at_join(was_joined, device);
        Ok(Received::All(Pending {
            again: false,
            duty,
            side: PhantomData,
        }))
    }

    /// Receives bytes that were read from a connection, unless the session holds too much. After the end of a connection
    /// what was sent before is executed until there is room for them.
    pub fn receive<'a, S: ConnectionSide, D: StepDevice>(
        &mut self,
        now: u64,
        bytes: BytesRead<'a, S>,
        device: &mut D,
    ) -> Result<Received<'a, S>, Closing>
        ensures received { IfOk result (λ received. Receives D.does now S.SIDE bytes.entry.bytes.now received self.old device.old self.new device.new) }
        ensures ended { OnErr result (EndsReceiving D.does now S.SIDE bytes.entry.bytes.now self.old device.old self.new device.new) }
    {
        if !self.session.is_full(S::SIDE) {
            return self.receive_all(now, bytes, device);
        }
        if self.is_open() {
            self.wait_for_room(S::SIDE);
            return Ok(Received::Full(bytes));
        }
        self.make_room(now, bytes, device)
    }

    // Sends the session's service request, if the device has one and the asynchronous connection is there.
    fn request_service<D: Device>(&mut self, device: &mut D)
        requires { self.old.phase ≡ Open }
        ensures { MayRequestService D.does self.old.state.core.joined self.old device.old self.new device.new }
    {
        if self.session.is_joined() {
            self.session.service_requested(device);
        }
    }

    /// Looks whether the session is still open, for a thread to which nothing has come.
    pub fn look(&self) -> Result<(), Closing>
        ensures open { OnOk result (self.now.phase ≡ Open) }
        ensures ended { OnErr result (self.now.phase ≡ Open → ⊥) }
    {
        if self.is_open() {
            return Ok(());
        }
        Err(Closing {
            duty: CannotDrop::begin(),
        })
    }

    /// Notifies the session of what others have caused, at a time in milliseconds.
    pub fn notify<S, D: Device>(
        &mut self,
        now: u64,
        arrived: Arrived<S>,
        device: &mut D,
    ) -> Result<Pending<S>, Closing>
        ensures notified { IfOk result (λ pending. (self.old.phase ≡ Open)
            × Notifies D.does now arrived.notice self.old device.old self.new device.new
            × (pending.again ≡ false)) }
        ensures ended { OnErr result (EndsNotified now arrived.notice self.old self.new) }
        ensures uncalled { OnErr result (device.new ≡ device.old) }
    {
        let Arrived { notice, duty, side } = arrived;
        if !self.is_open() {
            return Err(Closing { duty });
        }
        match notice {
            Notice::Continue => self.waits = None,
            Notice::Granted => self.session.lock_granted(Grant::Granted, device),
            Notice::Failed => self.session.lock_granted(Grant::Failed, device),
            Notice::Service => self.request_service(device),
            Notice::Time => {
                if self.session.tick(now).is_err() {
                    return Err(Closing { duty });
                }
            }
            Notice::Output | Notice::Room | Notice::End => {}
        }
        Ok(Pending {
            again: false,
            duty,
            side,
        })
    }

    // Continues the execution of a session that is open, unless a unit waits and is not to be tried again; `None` where
    // memory is refused.
    fn proceed<D: Device>(&mut self, again: bool, device: &mut D) -> Option<Proceeded>
        requires { self.old.phase ≡ Open }
        ensures continues { IfSome result (λ proceeded. MayContinue D.does again proceeded self.old.waits self.old device.old self.new device.new) }
        ensures stopped { IsNone result → StopsNext D.does self.old.state device.old device.new
            × (self.new ≡ with_value self.old (Over Memory) self.new.state) }
    {
        if self.waits.is_some() && !again {
            return Some(Proceeded::Idle);
        }
        let Ok(proceeded) = self.session.proceed(device) else {
            return None;
        };
        self.waits = need_of(proceeded);
        Some(proceeded)
    }

    // Whether this thread executes more at once. Where others are let in, it leaves that to the thread that writes.
    fn has_more(&self, proceeded: Proceeded) -> bool
        ensures { IsTrue result ↔ HasMore proceeded self.now.state }
    {
        match proceeded {
            Proceeded::Completed => self.session.has_work(),
            Proceeded::Waits(Need::Turn) => !self.session.writes(Side::Sync),
            Proceeded::Idle | Proceeded::Waits(_) => false,
        }
    }

    /// Continues the execution, and takes what is to be written on the synchronous connection.
    pub fn execute<D: StepDevice>(
        &mut self,
        pending: Pending<Synchronous>,
        device: &mut D,
    ) -> Result<Remainder<Synchronous>, Closing>
        ensures executed { IfOk result (λ remainder. Executes D.does pending.again remainder self.old device.old self.new device.new) }
        ensures ended { OnErr result (EndsExecuting D.does pending.again self.old device.old self.new device.new) }
    {
        let Pending {
            again,
            duty,
            side: _,
        } = pending;
        if !self.is_open() {
            device.end_step();
            return Err(Closing { duty });
        }
        let proceeded = self.proceed(again, device);
        device.end_step();
        match proceeded {
            Some(proceeded) => {
                self.leave_to_writers();
                let more = self.has_more(proceeded);
                self.take(more, duty)
            }
            None => Err(Closing { duty }),
        }
    }

    /// Takes what is to be written on the asynchronous connection. The execution is left to the worker.
    pub fn respond(
        &mut self,
        pending: Pending<Asynchronous>,
    ) -> Result<Remainder<Asynchronous>, Closing>
        ensures responded { IfOk result (λ remainder. Responds remainder self.old self.new) }
        ensures ended { OnErr result (EndsResponding self.old self.new) }
    {
        let Pending {
            again: _,
            duty,
            side: _,
        } = pending;
        if !self.is_open() {
            return Err(Closing { duty });
        }
        self.leave_to_writers();
        self.take(false, duty)
    }

    /// Notes that a connection has ended.
    pub fn disconnect(&mut self, connection: Disconnected) -> Closing
        ensures { self.new ≡ with_phase self.old (disconnected self.old.phase) }
    {
        let Disconnected { duty } = connection;
        self.end(duty)
    }
}
