//! Many threads on one bench.
ghost use Rattle.std.specs.Prelude.{◌≡◌, ◌<◌, ◌≤◌};
ghost use Rattle.psu_turn.specs.Seats.{IsOf};

use crate::benches::{bench_on, formatted, is_answer, is_open_at_close, opened, unit};
use psu_bench::operations::{CloseSession, OpenSession};
use psu_bench::{Bench, Seat};
use psu_disk::MemDisk;
use psu_exec::{Outcome, Session};
use std::alloc::Global;
use std::sync::Wait;
use std::thread::{Threads, join};

const UNITS: u64 = 6_248;

type Device = Bench<MemDisk<Global>, Global>;

// Opens a session, executes units that are each answered, and closes it; returns the number of answers.
fn one_thread<R: Wait>(rt: &R, bench: &Device, mut seat: Seat) -> (u64, Seat)
    requires { IsOf bench.now seat }
    ensures { IsOf bench.now result.1 }
{
    let Ok(session) = bench.call(rt, &mut seat, OpenSession) else {
        return (0, seat);
    };
    let mut answers: u64 = 0;
    for _ in 0..UNITS {
        let outcome = unit(rt, bench, &mut seat, session, b"*SRE?");
        if is_answer(&outcome, b"0") {
            answers = answers.saturating_add(1);
        }
    }
    let _granted = bench.call(rt, &mut seat, CloseSession(session));
    (answers, seat)
}

// Starts two to the power of `doublings` threads, each with a seat that is split from this one, and returns the number
// of answers in all.
fn threads<R: Threads + Wait + Sync>(
    rt: &R,
    bench: &Device,
    mut seat: Seat,
    doublings: u32,
) -> (u64, Seat)
    requires { IsOf bench.now seat }
    ensures { IsOf bench.now result.1 }
{
    if doublings == 0 {
        return one_thread(rt, bench, seat);
    }
    let half = doublings - 1;
    let other = bench.split(&mut seat);
    let ((some, mut seat), (more, other)) = join(
        rt,
        || -> (u64, Seat)
            requires { IsOf bench.now seat }
            ensures { IsOf bench.entry.now result.1 }
        { threads(rt, bench, seat, half) },
        || -> (u64, Seat)
            requires { IsOf bench.now other }
            ensures { IsOf bench.entry.now result.1 }
        { threads(rt, bench, other, half) },
    );
    bench.join(&mut seat, other);
    (some.saturating_add(more), seat)
}

// Sixteen threads make 6,250 calls each. Each unit is answered, and the single history has all the calls.
#[test]
fn sixteen_threads_make_100_000_calls(rt: HostRuntime) {
    let (bench, seat) = bench_on(&rt, rt.alloc(), formatted(&rt, rt.alloc()));
    let (answers, mut seat) = threads(&rt, &bench, seat, 4);
    assert!(rt; answers == 99_968);
    assert!(rt; bench.progress(&mut seat) == 100_000);
    assert!(rt; !is_open_at_close(&rt, bench, seat, Session::at(0)));
}

// Executes units of a session until the outcome of one is `Later`, or a million were answered.
fn until_later<R: Wait>(rt: &R, bench: &Device, mut seat: Seat, session: Session) -> (bool, Seat)
    requires { IsOf bench.now seat }
    ensures { IsOf bench.now result.1 }
{
    for _ in 0..1_000_000u32 {
        if matches!(
            unit(rt, bench, &mut seat, session, b"*IDN?"),
            Outcome::Later
        ) {
            return (true, seat);
        }
    }
    (false, seat)
}

fn closed<R: Wait>(rt: &R, bench: &Device, mut seat: Seat, session: Session) -> Seat
    requires { IsOf bench.now seat }
    ensures { IsOf bench.now result }
{
    let _granted = bench.call(rt, &mut seat, CloseSession(session));
    seat
}

// One thread continues with a session, and another closes it. Returns whether the outcome of the first was `Later`.
fn closed_beside<R: Threads + Wait + Sync>(
    rt: &R,
    bench: &Device,
    seat: &mut Seat,
    session: Session,
) -> bool
    requires { IsOf bench.now seat.old }
    ensures { IsOf bench.now seat.new }
{
    let asking = bench.split(seat);
    let closing = bench.split(seat);
    let ((later, asking), closing) = join(
        rt,
        || -> (bool, Seat)
            requires { IsOf bench.now asking }
            ensures { IsOf bench.entry.now result.1 }
        { until_later(rt, bench, asking, session) },
        || -> Seat
            requires { IsOf bench.now closing }
            ensures { IsOf bench.entry.now result }
        { closed(rt, bench, closing, session) },
    );
    bench.join(seat, asking);
    bench.join(seat, closing);
    later
}

// Its outcome is `Later`, and no other thread is affected.
#[test]
fn a_session_is_closed_under_anothers_feet(rt: HostRuntime) {
    let (bench, mut seat) = bench_on(&rt, rt.alloc(), formatted(&rt, rt.alloc()));
    let session = opened(&rt, &bench, &mut seat);
    assert!(rt; closed_beside(&rt, &bench, &mut seat, session));
    assert!(rt; !is_open_at_close(&rt, bench, seat, session));
}
