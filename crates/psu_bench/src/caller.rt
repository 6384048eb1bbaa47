//! A thread's access to the device, and its calls of it.
ghost use Rattle.std.specs.Prelude.{◌≡◌, ◌↔◌, [], Ok, IfOk, OnErr, IsTrue, None, Some, is_some, true};
ghost use Rattle.std.specs.Arc.{arc_value};
ghost use Rattle.psu_turn.specs.Seats.{SeatCalls, Sight, Splits};
ghost use Rattle.psu_exec.specs.Device.{State};
ghost use Rattle.psu_exec.specs.Calls.{Entry};
ghost use Rattle.psu_exec.specs.Calls.Entry.{Closed, Opened, Sent, Locked, Released, Ticked};
ghost use Rattle.psu_exec.specs.Quiet.{may_cause};
ghost use Rattle.psu_exec.specs.Shown.{outcome_of};
ghost use Rattle.psu_locks.specs.declared.results.Grant.TheVariants as grants;
ghost use Rattle.psu_bench.specs.Calls.{AllowsOn};
ghost use Rattle.psu_bench.specs.Callers.{Causes, CausesByRound, CausesNothing, released_of};
ghost use Rattle.psu_bench.specs.Tries.{tried};

use crate::machine::{Operation, QuietOperation};
use crate::operations::{
    CloseSession, Lock, MarkSent, Notify, OpenSession, Release, Tick, Try, TryUnit,
};
use crate::{Bench, Caused, CausedByJob, Gate, Granted, OpenedSession, Point, Seat, ServedDisk};
use psu_exec::{
    CannotDrop, Crowded, Freed, Grant, Kind, LockRefusal, NoJob, Notifications, Outcome, Session,
    Sessions, queries_are_quiet, units_and_waits_are_quiet,
};
use std::alloc::{AllocError, Global};
use std::marker::Model;
use std::sync::{Arc, MutexGuard, Wait};

/// Access to the device for a thread: the shared bench, a seat of the thread's own there, and the gate. It may be sent to
/// another thread; the one that calls the device makes a `Caller` of it, which borrows the bench.
#[derive(Drop)]
pub struct Access<D: ServedDisk> {
    /// The bench.
    pub bench: Arc<Bench<D, Global>>,
    /// The seat.
    pub seat: Seat,
    /// The gate.
    pub gate: Arc<D::Gate>,
    ghost same: { seat.turn ≡ arc_value bench },
    ghost here: { is_some seat.opening ≡ true },
}

impl<D: ServedDisk> Access<D> {
    /// Creates an access for another thread, whose seat has seen the same.
    #[tactic(auto, using(crate::proofs::Seats::is_of))]
    pub fn split(&mut self) -> Result<Access<D>, AllocError>
        ensures same { self.new.seat ≡ self.old.seat }
        ensures split { IfOk result (λ other. Splits self.old.seat other.seat) }
    {
        let bench = Arc::try_clone(&self.bench)?;
        let gate = Arc::try_clone(&self.gate)?;
        let seat = self.bench.split(&mut self.seat);
        Ok(Access { bench, seat, gate })
    }

    /// Opens a session, under a seat that has made no call. The session keeps the seat.
    #[tactic(auto, using(crate::proofs::Seats::is_of))]
    pub fn open_session<R: Wait>(self, rt: &R) -> Result<OpenedSession<D>, Crowded>
        requires { self.seat.mine ≡ [] }
        ensures opened { IfOk result (λ opened. SeatCalls (AllowsOn D.honest) self.seat (Opened (Some opened.number)) opened.seat) }
        ensures crowded { OnErr result ((new : Sight State Entry) × SeatCalls (AllowsOn D.honest) self.seat (Opened None) new) }
    {
        let Access {
            bench,
            mut seat,
            gate,
        } = self;
        let number = bench.call(rt, &mut seat, OpenSession)?;
        Ok(OpenedSession::new(number, Access { bench, seat, gate }))
    }
}

/// What a thread calls the device by: the bench, a seat of its own there, and the gate. Each call says what the seat has
/// then seen. It takes the mutex of the bench and releases it, but for a query that is answered: its response is mostly
/// sent at once, in the same critical section.
#[derive(Drop)]
pub struct Caller<'b, D: ServedDisk> {
    bench: &'b Arc<Bench<D, Global>>,
    seat: Seat,
    gate: &'b Arc<D::Gate>,
    // The mutex of the bench, where it is kept for the next call.
    kept: Option<MutexGuard<'b, ()>>,
}

impl<'b, D: ServedDisk> Model for Caller<'b, D> {
    ghost use Rattle.std.specs.Arc.{arc_value};
    ghost use Rattle.psu_turn.specs.Seats.{Sight, IsOf};
    ghost use Rattle.psu_exec.specs.Device.{State};
    ghost use Rattle.psu_exec.specs.Calls.{Entry};

    ghost Value = { Sight State Entry };

    ghost view = { λ c. c.seat };

    ghost invariant = { λ c. IsOf (arc_value c.bench.now) c.seat };
}

// Whether a unit, or the end of a wait, with this outcome may cause something for others.
fn may_cause(outcome: &Outcome<Global>) -> bool
    ensures { result ≡ may_cause (outcome_of outcome.now) }
{
    matches!(outcome, Outcome::Done | Outcome::Error(_))
}

impl<'b, D: ServedDisk> Caller<'b, D> {
    /// Creates a caller with this seat of a bench.
    #[tactic(auto, using(crate::proofs::Seats::is_of))]
    pub fn new(
        bench: &'b Arc<Bench<D, Global>>,
        seat: Seat,
        gate: &'b Arc<D::Gate>,
    ) -> Caller<'b, D>
        requires same { seat.turn ≡ arc_value bench.now }
        requires here { is_some seat.opening ≡ true }
        ensures { result ≡ seat }
    {
        Caller {
            bench,
            seat,
            gate,
            kept: None,
        }
    }

    /// Returns the seat. Releases the mutex, if it is kept from a query.
    pub fn into_seat(self) -> Seat
        ensures { result ≡ self.entry }
    {
        let Caller {
            bench: _,
            seat,
            gate: _,
            kept: _,
        } = self;
        seat
    }

    // Takes the mutex, unless it is kept.
    fn enter<R: Wait>(&mut self, rt: &R) -> MutexGuard<'b, ()>
        ensures { self.new ≡ self.old }
    {
        match self.kept.take() {
            Some(guard) => guard,
            None => self.bench.mutex.lock(rt),
        }
    }

    /// Releases the mutex, if it is kept from a query.
    pub fn leave(&mut self)
        ensures { self.new ≡ self.old }
    {
        self.kept = None;
    }

    // Performs an operation.
    fn perform<R: Wait, O: Operation<D, Global>>(&mut self, rt: &R, operation: O) -> O::Reply
        ensures call { SeatCalls (AllowsOn D.honest) self.old (O.entry operation result) self.new }
    {
        let _guard = self.enter(rt);
        self.bench.in_turn(rt, &mut self.seat, operation)
    }

    /// Performs an operation that causes nothing for other threads.
    pub fn call<R: Wait, O: QuietOperation<D, Global>>(&mut self, rt: &R, operation: O) -> O::Reply
        ensures call { SeatCalls (AllowsOn D.honest) self.old (O.entry operation result) self.new }
        ensures quiet { CausesNothing D.honest (O.entry operation result) }
    {
        queries_are_quiet();
        self.perform(rt, operation)
    }

    /// Tries a unit of a session. Returns its result, and what it may have caused: none unless the unit, or its wait, is
    /// done or refused. After a query that is answered the mutex is kept, as its response is mostly sent at once; else
    /// the gate is called.
    pub fn try_unit<R: Wait>(
        &mut self,
        rt: &R,
        session: Session,
        how: Try<'_, '_>,
    ) -> (Outcome<Global>, Option<Caused>)
        ensures caused { Causes D.honest self.old (tried session how.entry (outcome_of result.0)) result.1 self.new }
    {
        let guard = self.enter(rt);
        let unit = TryUnit(session, how);
        let outcome = self.bench.in_turn(rt, &mut self.seat, unit);
        units_and_waits_are_quiet();
        let caused = if may_cause(&outcome) {
            let notifications = self.bench.in_turn(rt, &mut self.seat, Notify);
            Some(Caused::of(notifications))
        } else {
            None
        };
        match outcome {
            Outcome::Answer(_) => self.kept = Some(guard),
            _ => {
                drop(guard);
                self.gate.at(Point::AfterAnswer);
            }
        }
        (outcome, caused)
    }

    /// Makes a round of the flusher, and takes the notifications after it. Returns how the job ended and what that has
    /// caused, or why there is no job.
    pub fn round<R: Wait>(&mut self, rt: &R) -> Result<CausedByJob, NoJob>
        ensures calls { CausesByRound D.Disk result self.old self.new }
    {
        self.leave();
        let (ending, over) = self.bench.round(rt, &mut self.seat, &self.gate)?;
        let notifications = self.perform(rt, Notify);
        Ok(CausedByJob {
            ending,
            over,
            requesting: notifications.requesting,
            has_work: notifications.has_work,
            duty: CannotDrop::begin(),
        })
    }

    /// Closes a session. Returns the sessions whose lock requests were then granted.
    pub fn close_session<R: Wait>(&mut self, rt: &R, session: Session) -> Granted
        ensures call { SeatCalls (AllowsOn D.honest) self.old (Closed session result.sessions) self.new }
        ensures grant { result.grant ≡ grants.Granted }
    {
        let granted = self.perform(rt, CloseSession(session));
        Granted::new(granted, Grant::Granted)
    }

    /// Records that a response is sent to a session, and calls the gate. Returns what that has caused.
    pub fn mark_sent<R: Wait>(&mut self, rt: &R, session: Session) -> Caused
        ensures call { SeatCalls (AllowsOn D.honest) self.old (Sent session result.requesting result.wakes_flusher) self.new }
    {
        let notifications = self.perform(rt, MarkSent(session));
        self.gate.at(Point::AfterAnswer);
        Caused::of(notifications)
    }

    /// Requests a lock for a session. `now` and `timeout` are in milliseconds. Returns the result, and what it has
    /// caused: the flusher watches the deadline of a request that waits.
    pub fn lock<R: Wait>(
        &mut self,
        rt: &R,
        session: Session,
        kind: Kind,
        now: u64,
        timeout: u32,
    ) -> (Result<Grant, LockRefusal>, Caused)
        ensures call { SeatCalls (AllowsOn D.honest) self.old (Locked session kind now timeout result.0) self.new }
        ensures requesting { result.1.requesting ≡ [] }
        ensures flusher { IsTrue result.1.wakes_flusher ↔ (result.0 ≡ Ok grants.Queued) }
    {
        let operation = Lock {
            session,
            kind,
            now,
            timeout,
        };
        let reply = self.perform(rt, operation);
        let notifications = Notifications {
            requesting: Sessions::new(),
            has_work: matches!(reply, Ok(Grant::Queued)),
        };
        (reply, Caused::of(notifications))
    }

    /// Releases a lock of a session. Returns also the sessions whose lock requests were then granted.
    pub fn release<R: Wait>(
        &mut self,
        rt: &R,
        session: Session,
    ) -> Result<(Freed, Granted), LockRefusal>
        ensures call { SeatCalls (AllowsOn D.honest) self.old (Released session (released_of result)) self.new }
        ensures grant { IfOk result (λ released. released.1.grant ≡ grants.Granted) }
    {
        let (freed, granted) = self.perform(rt, Release(session))?;
        Ok((freed, Granted::new(granted, Grant::Granted)))
    }

    /// Fails the lock requests whose timeout has expired, and returns their sessions.
    pub fn tick<R: Wait>(&mut self, rt: &R, now: u64) -> Granted
        ensures call { SeatCalls (AllowsOn D.honest) self.old (Ticked now result.sessions) self.new }
        ensures grant { result.grant ≡ grants.Failed }
    {
        let failed = self.perform(rt, Tick(now));
        Granted::new(failed, Grant::Failed)
    }
}
