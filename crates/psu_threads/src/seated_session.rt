//! A session with the seat under which it calls the device.
ghost use Rattle.std.specs.Prelude.{◌≡◌, ◌≢◌, ◌⊎◌, ◌↔◌, ℕ, List, [], IsTrue, IfOk, OnOk, OnErr, IfSome, IsNone, true, false};
ghost use Rattle.psu_hislip.specs.declared.side.Side.TheVariants.{Async};
ghost use Rattle.psu_session.specs.Phases.{phase_ended};
ghost use Rattle.psu_session.specs.declared.phase.Phase.TheVariants.{Open};
ghost use Rattle.psu_session_io.specs.Ending.{Drains};
ghost use Rattle.psu_session_io.specs.Sharing.{EndsExecuting, EndsNotified, EndsReceiving, EndsResponding, Executes, Notifies, Receives, Responds};
ghost use Rattle.psu_threads.specs.Called.{CallsUnder};
ghost use Rattle.psu_threads.specs.Seated.{ClosesUnder, DoesUnder, HasBegun, IsSeated, with_shared};

use crate::server::Server;
use crate::shared_device::SharedDevice;
use psu_bench::{Access, Bench, Caller, Granted, OpenedSession, Seat, ServedDisk};
use psu_exec::{CannotDrop, Session};
use psu_hislip::Side;
use psu_session_io::{
    Arrived, Asynchronous, BytesRead, Closing, ConnectionSide, Disconnected, Drained, Locked,
    Pending, Received, Remainder, SharedSession, Synchronous, Writes,
};
use std::alloc::{AllocError, Global};
use std::marker::Model;
use std::mem;
use std::rt::Clock;
use std::sync::{Arc, Wait};

/// That a session is to be closed. It has no `Drop`: only the closing of a session ends it.
pub struct MustClose {
    duty: CannotDrop,
}

/// A session, with the seat under which all its threads call the device: the one that has opened it. It is what lies under
/// the session's lock.
///
/// At any time there is one legal history of the device in which exactly the session's own calls have the seat's number,
/// in the session's order.
#[derive(Drop)]
pub struct SeatedSession<D: ServedDisk> {
    number: Session,
    session: SharedSession,
    bench: Arc<Bench<D, Global>>,
    gate: Arc<D::Gate>,
    // Blank only within a call of the session, whose device has the seat.
    seat: Seat,
    // Whether the device has closed the session.
    closed: bool,
}

impl<D: ServedDisk> Model for SeatedSession<D> {
    ghost use Rattle.std.specs.Arc.{arc_value};
    ghost use Rattle.psu_turn.specs.Seats.{IsOf};
    ghost use Rattle.psu_threads.specs.Seated.{IsSeated, Seated};

    ghost Value = { Seated };

    ghost view = { λ s. record { number = s.number; shared = s.session; seat = s.seat; closed = s.closed } };

    ghost invariant = { λ s. IsOf (arc_value s.bench) s.seat × IsSeated D.honest s.number s.closed s.session s.seat };
}

impl<D: ServedDisk> SeatedSession<D> {
    /// Returns a session that has just begun, with the seat that has opened it. It is to be closed.
    pub fn new(session: SharedSession, opened: OpenedSession<D>) -> (SeatedSession<D>, MustClose)
        requires { (message : List ℕ) × HasBegun opened.number message session.phase session.state }
        ensures { result.0 ≡ record { number = opened.number; shared = session; seat = opened.seat; closed = false } }
    {
        let (number, access) = opened.into_parts();
        let Access { bench, seat, gate } = access;
        let session = SeatedSession {
            number,
            session,
            bench,
            gate,
            seat,
            closed: false,
        };
        let duty = CannotDrop::begin();
        (session, MustClose { duty })
    }

    /// Whether what is received on a connection depends on the time.
    pub fn needs_time(&self, side: Side) -> bool
        ensures { IsTrue result ↔ ((side ≡ Async) ⊎ (self.now.shared.state.releases ≢ [])) }
    {
        self.session.needs_time(side)
    }

    /// Receives bytes that were read from a connection, unless the session holds too much.
    pub fn receive<'a, S: ConnectionSide, R: Wait + Clock>(
        &mut self,
        rt: &R,
        server: &Server,
        now: u64,
        bytes: BytesRead<'a, S>,
    ) -> Result<Received<'a, S>, Closing>
        ensures received { IfOk result (λ received. DoesUnder (Receives (CallsUnder D.honest) now S.SIDE bytes.entry.bytes.now received) self.old self.new) }
        ensures ended { OnErr result (DoesUnder (EndsReceiving (CallsUnder D.honest) now S.SIDE bytes.entry.bytes.now) self.old self.new) }
    {
        let seat = mem::replace(&mut self.seat, Seat::blank());
        let caller = Caller::new(&self.bench, seat, &self.gate);
        let mut device = SharedDevice::new(rt, server, self.number, caller);
        let received = self.session.receive(now, bytes, &mut device);
        self.seat = device.into_seat();
        received
    }

    /// Continues the execution, and takes what is to be written on the synchronous connection.
    pub fn execute<R: Wait + Clock>(
        &mut self,
        rt: &R,
        server: &Server,
        pending: Pending<Synchronous>,
    ) -> Result<Remainder<Synchronous>, Closing>
        ensures executed { IfOk result (λ remainder. DoesUnder (Executes (CallsUnder D.honest) pending.again remainder) self.old self.new) }
        ensures ended { OnErr result (DoesUnder (EndsExecuting (CallsUnder D.honest) pending.again) self.old self.new) }
    {
        let seat = mem::replace(&mut self.seat, Seat::blank());
        let caller = Caller::new(&self.bench, seat, &self.gate);
        let mut device = SharedDevice::new(rt, server, self.number, caller);
        let executed = self.session.execute(pending, &mut device);
        self.seat = device.into_seat();
        executed
    }

    /// Takes what is to be written on the asynchronous connection. The execution is left to the worker.
    pub fn respond(
        &mut self,
        pending: Pending<Asynchronous>,
    ) -> Result<Remainder<Asynchronous>, Closing>
        ensures responded { IfOk result (λ remainder. Responds remainder self.old.shared self.new.shared) }
        ensures ended { OnErr result (EndsResponding self.old.shared self.new.shared) }
        ensures uncalled { self.new ≡ with_shared self.old self.new.shared }
    {
        self.session.respond(pending)
    }

    /// Notifies the session of what others have caused, at a time in milliseconds.
    pub fn notify<S, R: Wait + Clock>(
        &mut self,
        rt: &R,
        server: &Server,
        now: u64,
        arrived: Arrived<S>,
    ) -> Result<Pending<S>, Closing>
        ensures notified { IfOk result (λ pending. (self.old.shared.phase ≡ Open)
            × DoesUnder (Notifies (CallsUnder D.honest) now arrived.notice) self.old self.new
            × (pending.again ≡ false)) }
        ensures ended { OnErr result (EndsNotified now arrived.notice self.old.shared self.new.shared) }
        ensures uncalled { OnErr result (self.new ≡ with_shared self.old self.new.shared) }
    {
        let seat = mem::replace(&mut self.seat, Seat::blank());
        let caller = Caller::new(&self.bench, seat, &self.gate);
        let mut device = SharedDevice::new(rt, server, self.number, caller);
        let notified = self.session.notify(now, arrived, &mut device);
        self.seat = device.into_seat();
        notified
    }

    /// Executes a part of what a session was sent before a connection ended.
    pub fn drain<R: Wait + Clock>(&mut self, rt: &R, server: &Server) -> Drained
        ensures { DoesUnder (Drains (CallsUnder D.honest) result) self.old self.new }
    {
        let seat = mem::replace(&mut self.seat, Seat::blank());
        let caller = Caller::new(&self.bench, seat, &self.gate);
        let mut device = SharedDevice::new(rt, server, self.number, caller);
        let drained = self.session.drain(&mut device);
        self.seat = device.into_seat();
        drained
    }

    /// Closes the session, unless it is closed: from now on it does not call the device. Returns the sessions whose lock
    /// requests were then granted.
    pub fn close<R: Wait>(&mut self, rt: &R, must_close: MustClose) -> Option<Granted>
        ensures closed { self.new.closed ≡ true }
        ensures over { phase_ended self.new.shared.phase ≡ true }
        ensures number { self.new.number ≡ self.old.number }
        ensures closes { IfSome result (λ granted. (self.old.closed ≡ false) × ClosesUnder D.honest granted.sessions self.old self.new) }
        ensures was { IsNone result → self.new ≡ self.old }
    {
        let MustClose { duty } = must_close;
        duty.end();
        if self.closed {
            return None;
        }
        self.session.close();
        let seat = mem::replace(&mut self.seat, Seat::blank());
        let mut caller = Caller::new(&self.bench, seat, &self.gate);
        let granted = caller.close_session(rt, self.number);
        self.seat = caller.into_seat();
        self.closed = true;
        Some(granted)
    }

    /// Looks whether the session is still open, for a thread to which nothing has come.
    pub fn look(&self) -> Result<(), Closing>
        ensures open { OnOk result (self.now.shared.phase ≡ Open) }
        ensures ended { OnErr result (self.now.shared.phase ≡ Open → ⊥) }
    {
        self.session.look()
    }
}

impl<D: ServedDisk> Locked for SeatedSession<D> {
    ghost number = { λ s. s.number };

    ghost shared = { λ s. s.shared };

    /// Returns the number of the session. There is one legal history of the device that has exactly the session's own
    /// calls under the number of its seat, in the session's order.
    fn number(&self) -> Session
        ensures number { result ≡ self.now.number }
        ensures seated { IsSeated D.honest self.now.number self.now.closed self.now.shared self.now.seat }
    {
        self.number
    }

    fn writes(&self) -> Result<Arc<Writes>, AllocError> {
        self.session.writes()
    }

    fn note_writes(&mut self) {
        self.session.note_writes();
    }

    fn disconnect(&mut self, connection: Disconnected) -> Closing {
        self.session.disconnect(connection)
    }
}
