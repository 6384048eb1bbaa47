//! The thread of a session.
ghost use Rattle.std.specs.Prelude.{◌≡◌, ◌<◌};
ghost use Rattle.psu_turn.specs.Seats.{IsOf};
ghost use Rattle.psu_exec.specs.Shown.{outcome_of};
ghost use Rattle.psu_bench.specs.Tries.{MakesTries, is_put_off};

use crate::operations::{Try, TryUnit};
use crate::{Bench, Gate, Point, Seat};
use psu_disk::Disk;
use psu_exec::{Outcome, Request, Session};
use std::alloc::Allocator;
use std::sync::Wait;

/// Executes a unit of a session in at most `tries` tries: after Parked it is settled, after Held or Later it is
/// executed again. Returns the last outcome, after the gate was called. With one try it returns at once. It
/// is for a program without the server, whose own workers are in psu_threads.
pub fn session_worker<D: Disk, A: Allocator + Copy, R: Wait, G: Gate>(
    rt: &R,
    bench: &Bench<D, A>,
    seat: &mut Seat,
    session: Session,
    request: &Request<'_>,
    tries: u64,
    gate: &G,
) -> Outcome<A>
    requires own { IsOf bench.now seat.old }
    requires some { 0 < tries }
    ensures calls { MakesTries D.honest session tries request.now seat.old (outcome_of result) seat.new }
    ensures own { IsOf bench.now seat.new }
{
    let mut outcome = bench.call(rt, seat, TryUnit(session, Try::Execute(request)));
    let mut left = tries - 1;
    while left > 0 && is_put_off(&outcome) {
        let how = match outcome {
            Outcome::Parked => Try::Settle,
            _ => Try::Execute(request),
        };
        outcome = bench.call(rt, seat, TryUnit(session, how));
        left -= 1;
    }
    gate.at(Point::AfterAnswer);
    outcome
}

// Whether a unit is to be tried again.
fn is_put_off<A: Allocator + Copy>(outcome: &Outcome<A>) -> bool
    ensures { result ≡ is_put_off (outcome_of outcome.now) }
{
    matches!(outcome, Outcome::Parked | Outcome::Held | Outcome::Later)
}
