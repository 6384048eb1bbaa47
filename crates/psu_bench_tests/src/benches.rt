//! A bench in memory, and units on it.
ghost use Rattle.std.specs.Prelude.{◌≡◌};
ghost use Rattle.psu_turn.specs.Seats.{IsOf};

use psu_bench::operations::{OpenSession, Try, TryUnit};
use psu_bench::{Bench, Seat};
use psu_call_steps::{image, powered_on};
use psu_disk::{Disk, MemDisk};
use psu_exec::{Outcome, Request, Session};
use psu_items::IMAGE_LIMIT;
use psu_lex::Unit;
use psu_tree::{Path, request};
use std::alloc::Global;
use std::process::Abort;
use std::sync::Wait;

/// Returns a formatted image of 256 pages.
pub(crate) fn formatted(rt: &impl Abort, alloc: Global) -> MemDisk<Global> {
    image(alloc, IMAGE_LIMIT).expect(rt, "an image")
}

/// Returns a bench over a device that is powered on with the contents of a disk, and its first seat.
pub(crate) fn bench_on<D: Disk + Drop>(
    rt: &impl Abort,
    alloc: Global,
    disk: D,
) -> (Bench<D, Global>, Seat)
    ensures { IsOf result.0 result.1 }
{
    let exec = powered_on(alloc, disk).expect(rt, "a device");
    match Bench::new(alloc, exec) {
        Ok(made) => made,
        Err(_) => panic!(rt; "no memory"),
    }
}

/// Closes a bench, and returns whether all is flushed then.
pub(crate) fn is_flushed_at_close<D: Disk + Drop, R: Wait>(
    rt: &R,
    bench: Bench<D, Global>,
    seat: Seat,
) -> bool
    requires { IsOf bench seat }
{
    bench.close(rt, seat).is_flushed()
}

/// Closes a bench, and returns whether a session is open then.
pub(crate) fn is_open_at_close<D: Disk + Drop, R: Wait>(
    rt: &R,
    bench: Bench<D, Global>,
    seat: Seat,
    session: Session,
) -> bool
    requires { IsOf bench seat }
{
    bench.close(rt, seat).is_open(session)
}

/// Opens a session.
pub(crate) fn opened<D: Disk, R: Wait + Abort>(
    rt: &R,
    bench: &Bench<D, Global>,
    seat: &mut Seat,
) -> Session
    requires { IsOf bench.now seat.old }
    ensures { IsOf bench.now seat.new }
{
    match bench.call(rt, seat, OpenSession) {
        Ok(session) => session,
        Err(_) => panic!(rt; "no session"),
    }
}

/// Returns the request of a text that is one unit.
pub(crate) fn read(text: &[u8]) -> Request<'_> {
    let unit = Unit {
        text,
        first: true,
        fault: None,
    };
    request(&mut Path::root(), &unit, false)
}

/// Executes a unit.
pub(crate) fn unit<D: Disk, R: Wait>(
    rt: &R,
    bench: &Bench<D, Global>,
    seat: &mut Seat,
    session: Session,
    text: &[u8],
) -> Outcome<Global>
    requires { IsOf bench.now seat.old }
    ensures { IsOf bench.now seat.new }
{
    bench.call(rt, seat, TryUnit(session, Try::Execute(&read(text))))
}

/// Whether an outcome is this answer.
pub(crate) fn is_answer(outcome: &Outcome<Global>, want: &[u8]) -> bool {
    match outcome {
        Outcome::Answer(text) => text.as_slice() == want,
        _ => false,
    }
}

/// Executes a unit, and returns whether it is done.
pub(crate) fn executes<D: Disk, R: Wait>(
    rt: &R,
    bench: &Bench<D, Global>,
    seat: &mut Seat,
    session: Session,
    text: &[u8],
) -> bool
    requires { IsOf bench.now seat.old }
    ensures { IsOf bench.now seat.new }
{
    matches!(unit(rt, bench, seat, session, text), Outcome::Done)
}
