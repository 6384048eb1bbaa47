//! The shared device as the device of a session.
ghost use Rattle.std.specs.Prelude.{◌≡◌, Option};
ghost use Rattle.psu_exec.specs.Shown.{outcome_of};
ghost use Rattle.psu_bench.specs.Callers.{Causes};
ghost use Rattle.psu_bench.specs.Tries.{tried};
ghost use Rattle.psu_bench.specs.declared.caused.Caused.{Caused};
ghost use Rattle.psu_threads.specs.Called.{CallsUnder, IsCalled};

use crate::reporter::Reporter;
use crate::server::Server;
use psu_bench::operations::{Clear, Fetch, Inform, MarkDelivered, Query, Try};
use psu_bench::{Caller, Others, Seat, ServedDisk};
use psu_exec::{Freed, Grant, Info, Kind, LockRefusal, Outcome, Request, Session};
use psu_session::Device;
use psu_session_io::StepDevice;
use std::alloc::Global;
use std::marker::Model;
use std::rt::Clock;
use std::sync::Wait;

/// The shared device as the device of a session, in a step of the session. Each call of the session is a call of the device
/// under the session's seat, and what it causes is reported to the other threads.
#[derive(Drop)]
pub struct SharedDevice<'s, 'b, 'r, R: Wait, D: ServedDisk> {
    rt: &'r R,
    server: &'s Server,
    session: Session,
    caller: Caller<'b, D>,
}

impl<'s, 'b, 'r, R: Wait, D: ServedDisk> Model for SharedDevice<'s, 'b, 'r, R, D> {
    ghost use Rattle.psu_threads.specs.Called.{SessionSeat};

    ghost Value = { SessionSeat };

    ghost view = { λ d. record { session = d.session; seat = d.caller } };
}

impl<'s, 'b, 'r, R: Wait, D: ServedDisk> SharedDevice<'s, 'b, 'r, R, D> {
    /// Returns the device for a step of the session of a number, which calls it under the seat of this caller.
    pub fn new(
        rt: &'r R,
        server: &'s Server,
        session: Session,
        caller: Caller<'b, D>,
    ) -> SharedDevice<'s, 'b, 'r, R, D>
        ensures { result ≡ record { session = session; seat = caller.entry } }
    {
        SharedDevice {
            rt,
            server,
            session,
            caller,
        }
    }

    // Returns what reports to the other threads. The mutex of the device is released before, since the registry is locked
    // first where both are.
    fn others(&mut self) -> Reporter<'s, 'r, R>
        ensures { self.new ≡ self.old }
    {
        self.caller.leave();
        Reporter {
            rt: self.rt,
            server: self.server,
        }
    }

    /// Returns the seat under which it has called the device.
    pub fn into_seat(self) -> Seat
        ensures { result ≡ self.entry.seat }
    {
        let SharedDevice {
            rt: _,
            server: _,
            session: _,
            caller,
        } = self;
        caller.into_seat()
    }

    // Tries a unit, and reports to the other threads what that may have caused.
    fn try_unit(&mut self, how: Try<'_, '_>) -> Outcome<Global>
        ensures session { self.new.session ≡ self.old.session }
        ensures caused { (caused : Option Caused) × Causes D.honest self.old.seat (tried self.old.session how.entry (outcome_of result)) caused self.new.seat }
    {
        let (outcome, caused) = self.caller.try_unit(self.rt, self.session, how);
        if let Some(caused) = caused {
            caused.report(&mut self.others());
        }
        outcome
    }
}

impl<'s, 'b, 'r, R: Wait + Clock, D: ServedDisk> Device for SharedDevice<'s, 'b, 'r, R, D> {
    ghost does = { λ x call y. CallsUnder D.honest x call y };

    fn execute(&mut self, request: &Request<'_>) -> Outcome<Global> {
        self.try_unit(Try::Execute(request))
    }

    fn settle(&mut self) -> Outcome<Global> {
        self.try_unit(Try::Settle)
    }

    fn mark_sent(&mut self) {
        let caused = self.caller.mark_sent(self.rt, self.session);
        caused.report(&mut self.others());
    }

    fn mark_delivered(&mut self) {
        self.caller.call(self.rt, MarkDelivered(self.session));
    }

    fn query(&mut self) -> u8 {
        self.caller.call(self.rt, Query(self.session))
    }

    fn fetch(&mut self) -> Option<u8> {
        self.caller.call(self.rt, Fetch(self.session))
    }

    // The registry is locked meanwhile, as it is at a release: the results of other requests have been passed on then.
    fn lock(&mut self, kind: Kind, timeout: u32) -> Result<Grant, LockRefusal> {
        let others = self.others();
        let registry = others.lock_registry();
        let now = self.server.now(self.rt);
        let (reply, caused) = self.caller.lock(self.rt, self.session, kind, now, timeout);
        drop(registry);
        caused.report(&mut self.others());
        if let Ok(Grant::Granted) = reply {
            self.others().wake(self.session);
        }
        reply
    }

    // The registry is locked until the granted locks are passed on: before another lock is requested or released.
    fn release(&mut self) -> Result<Freed, LockRefusal> {
        let others = self.others();
        let mut registry = others.lock_registry();
        let (freed, granted) = self.caller.release(self.rt, self.session)?;
        granted.pass_on(&mut registry);
        Ok(freed)
    }

    fn inform(&mut self) -> Info {
        self.caller.call(self.rt, Inform)
    }

    fn clear(&mut self) {
        self.caller.call(self.rt, Clear(self.session));
        self.others().wake(self.session);
    }
}

impl<'s, 'b, 'r, R: Wait + Clock, D: ServedDisk> StepDevice for SharedDevice<'s, 'b, 'r, R, D> {
    fn end_step(&mut self) {
        self.caller.leave();
    }
}
