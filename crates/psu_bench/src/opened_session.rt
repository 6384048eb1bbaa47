//! A session that was just opened.
ghost use Rattle.std.specs.Prelude.{◌≡◌};
ghost use Rattle.psu_exec.specs.Device.{State};
ghost use Rattle.psu_exec.specs.Calls.{Entry};
ghost use Rattle.psu_exec.specs.Calls.Entry.{Closed};
ghost use Rattle.psu_locks.specs.declared.results.Grant.TheVariants as grants;
ghost use Rattle.psu_turn.specs.Seats.{SeatCalls, Sight};
ghost use Rattle.psu_bench.specs.Calls.{AllowsOn};
ghost use Rattle.psu_bench.specs.Opened.{HasOpened};

use crate::{Access, Caller, Granted, ServedDisk};
use psu_exec::{CannotDrop, Session};
use std::marker::Model;
use std::sync::Wait;

/// A session that was just opened, with the access that has opened it and has made no other call. It has no `Drop`: the
/// session keeps the access for its further calls, or is closed. Contracts see its number and the seat.
pub struct OpenedSession<D: ServedDisk> {
    number: Session,
    access: Access<D>,
    duty: CannotDrop,
}

impl<D: ServedDisk> Model for OpenedSession<D> {
    ghost use Rattle.psu_bench.specs.Opened.{HasOpened, OpenedSeat};

    ghost Value = { OpenedSeat };

    ghost view = { λ o. record { number = o.number; seat = o.access.seat } };

    ghost invariant = { λ o. HasOpened D.honest o.number o.access.seat };
}

impl<D: ServedDisk> OpenedSession<D> {
    // Returns a session of this number.
    pub(crate) fn new(number: Session, access: Access<D>) -> OpenedSession<D>
        requires { HasOpened D.honest number access.seat }
        ensures { result ≡ record { number = number; seat = access.seat } }
    {
        OpenedSession {
            number,
            access,
            duty: CannotDrop::begin(),
        }
    }

    /// Returns the number of the session.
    pub fn number(&self) -> Session
        ensures { result ≡ self.now.number }
    {
        self.number
    }

    /// Returns the number of the session, and the access for its further calls.
    pub fn into_parts(self) -> (Session, Access<D>)
        ensures number { result.0 ≡ self.number }
        ensures seat { result.1.seat ≡ self.seat }
        ensures opened { HasOpened D.honest result.0 result.1.seat }
    {
        let OpenedSession {
            number,
            access,
            duty,
        } = self;
        duty.end();
        (number, access)
    }

    /// Closes the session, under the seat that has opened it. Returns the sessions whose lock requests were then granted.
    pub fn close<R: Wait>(self, rt: &R) -> Granted
        ensures call { (new : Sight State Entry) × SeatCalls (AllowsOn D.honest) self.seat (Closed self.number result.sessions) new }
        ensures grant { result.grant ≡ grants.Granted }
    {
        let (number, access) = self.into_parts();
        let Access { bench, seat, gate } = access;
        Caller::new(&bench, seat, &gate).close_session(rt, number)
    }
}
