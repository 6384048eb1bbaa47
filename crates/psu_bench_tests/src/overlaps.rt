//! A session is answered while the flusher works.
ghost use Rattle.std.specs.Prelude.{◌≡◌};
ghost use Rattle.psu_turn.specs.Seats.{IsOf};

use crate::benches::{
    bench_on, executes, formatted, is_answer, is_flushed_at_close, opened, read, unit,
};
use crate::holds::Hold;
use psu_bench::operations::{Try, TryUnit};
use psu_bench::{Bench, Gated, Open, Point, Seat, flusher, session_worker};
use psu_disk::{Disk, FailingDisk};
use psu_exec::{Outcome, ScpiError, Session};
use std::alloc::Global;
use std::process::Abort;
use std::sync::Wait;
use std::thread::{Threads, join};

// Whether the outcome of a unit is this answer, or a storage fault.
fn is_outcome(outcome: &Outcome<Global>, wanted: &[u8]) -> bool {
    match outcome {
        Outcome::Error(ScpiError::StorageFault) => wanted == b"storage fault".as_slice(),
        _ => is_answer(outcome, wanted),
    }
}

// Whether the outcomes of two units are these while the flusher is blocked, that of the second being the name; that
// outcome releases the flusher.
fn are_outcomes<D: Disk, R: Wait>(
    rt: &R,
    bench: &Bench<D, Global>,
    seat: &mut Seat,
    session: Session,
    first: [&[u8]; 2],
    hold: &Hold,
) -> bool
    requires { IsOf bench.now seat.old }
    ensures { IsOf bench.now seat.new }
{
    let [text, wanted] = first;
    let is_first = is_outcome(&unit(rt, bench, seat, session, text), wanted);
    let name = session_worker(rt, bench, seat, session, &read(b"*IDN?"), 1, hold);
    is_first && is_answer(&name, b"EXAMPLE,PSU4,0,1.0")
}

fn answered<D: Disk, R: Wait>(
    rt: &R,
    bench: &Bench<D, Global>,
    mut seat: Seat,
    session: Session,
    first: [&[u8]; 2],
    hold: &Hold,
) -> (bool, Seat)
    requires { IsOf bench.now seat }
    ensures { IsOf bench.now result.1 }
{
    if !hold.wait_until_held() {
        return (false, seat);
    }
    let are_outcomes = are_outcomes(rt, bench, &mut seat, session, first, hold);
    (are_outcomes, seat)
}

// One thread flushes in one round, while another executes two units. Returns whether their outcomes are these, while
// the flusher is held.
fn are_outcomes_beside<D: Disk + Drop + Send, R: Threads + Wait + Sync>(
    rt: &R,
    bench: &Bench<D, Global>,
    seat: &mut Seat,
    session: Session,
    first: [&[u8]; 2],
    hold: &Hold,
) -> bool
    requires { IsOf bench.now seat.old }
    ensures { IsOf bench.now seat.new }
{
    let flushing = bench.split(seat);
    let asking = bench.split(seat);
    let ((are_outcomes, asking), flushing) = join(
        rt,
        || -> (bool, Seat)
            requires { IsOf bench.now asking }
            ensures { IsOf bench.entry.now result.1 }
        { answered(rt, bench, asking, session, first, hold) },
        || -> Seat
            requires { IsOf bench.now flushing }
            ensures { IsOf bench.entry.now result }
        { flusher(rt, bench, flushing, 1, hold) },
    );
    bench.join(seat, asking);
    bench.join(seat, flushing);
    are_outcomes && hold.overlapped()
}

// Makes a round of the flusher that is not blocked.
fn flush<D: Disk + Drop, R: Wait>(rt: &R, bench: &Bench<D, Global>, seat: &mut Seat)
    requires { IsOf bench.now seat.old }
    ensures { IsOf bench.now seat.new }
{
    let flushing = bench.split(seat);
    let flushing = flusher(rt, bench, flushing, 1, &Open);
    bench.join(seat, flushing);
}

// Whether a save begins, and a session waits for its end.
fn waits<D: Disk, R: Wait>(rt: &R, bench: &Bench<D, Global>, seat: &mut Seat, one: Session) -> bool
    requires { IsOf bench.now seat.old }
    ensures { IsOf bench.now seat.new }
{
    executes(rt, bench, seat, one, b"VOLT 7")
        && executes(rt, bench, seat, one, b"*SAV 1")
        && matches!(unit(rt, bench, seat, one, b"*OPC?"), Outcome::Parked)
}

// Whether another session is answered while the flusher is blocked, and then the one that waits.
fn is_answered_beside<D: Disk + Drop + Send, R: Threads + Wait + Sync + Abort>(
    rt: &R,
    bench: &Bench<D, Global>,
    seat: &mut Seat,
    hold: &Hold,
) -> bool
    requires { IsOf bench.now seat.old }
    ensures { IsOf bench.now seat.new }
{
    let one = opened(rt, bench, seat);
    let two = opened(rt, bench, seat);
    let waits = waits(rt, bench, seat, one);
    let are_outcomes = are_outcomes_beside(rt, bench, seat, two, [b"VOLT?", b"7.000"], hold);
    let are_seen = bench.progress(seat) >= 2;
    let is_outcome = is_answer(&bench.call(rt, seat, TryUnit(one, Try::Settle)), b"1");
    waits && are_outcomes && are_seen && is_outcome
}

// The flusher is blocked before its first page while a session is answered; the save it commits is then confirmed. It
// writes five times.
#[test]
fn a_session_is_answered_before_a_page_is_written(rt: HostRuntime) {
    let hold = Hold::new(Point::BeforeWrite);
    let disk = Gated::new(formatted(&rt, rt.alloc()), &hold);
    let (bench, mut seat) = bench_on(&rt, rt.alloc(), disk);
    assert!(rt; is_answered_beside(&rt, &bench, &mut seat, &hold));
    assert!(rt; hold.writes() == 5);
    assert!(rt; is_flushed_at_close(&rt, bench, seat));
}

// Whether a save is refused while the flusher is blocked after a commit that failed, and is done after it.
fn is_refused_beside<D: Disk + Drop + Send, R: Threads + Wait + Sync + Abort>(
    rt: &R,
    bench: &Bench<D, Global>,
    seat: &mut Seat,
    hold: &Hold,
) -> bool
    requires { IsOf bench.now seat.old }
    ensures { IsOf bench.now seat.new }
{
    let one = opened(rt, bench, seat);
    let is_saved = executes(rt, bench, seat, one, b"*SAV 1");
    flush(rt, bench, seat);
    is_saved
        && are_outcomes_beside(rt, bench, seat, one, [b"*SAV 2", b"storage fault"], hold)
        && executes(rt, bench, seat, one, b"*SAV 2")
}

// A commit fails at its first call, so the store is broken; while it is reopened a save is refused, and a query
// answered.
#[test]
fn a_session_is_answered_while_a_store_is_reopened(rt: HostRuntime) {
    let hold = Hold::new(Point::BeforeRun);
    let disk = FailingDisk::once(formatted(&rt, rt.alloc()), 8);
    let (bench, mut seat) = bench_on(&rt, rt.alloc(), disk);
    assert!(rt; is_refused_beside(&rt, &bench, &mut seat, &hold));
    assert!(rt; !is_flushed_at_close(&rt, bench, seat));
}
