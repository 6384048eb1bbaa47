//! Sessions that others close, and the counted turn, used directly.
ghost use Rattle.psu_turn.specs.Seats.{IsOf};

use crate::benches::{
    bench_on, executes, formatted, is_answer, is_flushed_at_close, is_open_at_close, opened, unit,
};
use psu_bench::operations::{
    Clear, CloseSession, Fetch, Inform, Lock, MarkDelivered, MarkSent, NextDeadline, Query,
    Release, Try, TryUnit,
};
use psu_bench::{Bench, Seat};
use psu_disk::MemDisk;
use psu_exec::{Grant, Kind, LockRefusal, Outcome, Session};
use std::alloc::Global;
use std::sync::Wait;
use std::thread::{Threads, join};

type Device = Bench<MemDisk<Global>, Global>;

// Whether a unit's outcome is `Later` and a status query finds nothing.
fn comes_later<R: Wait>(rt: &R, bench: &Device, seat: &mut Seat, one: Session) -> bool
    requires { IsOf bench.now seat.old }
    ensures { IsOf bench.now seat.new }
{
    matches!(unit(rt, bench, seat, one, b"*IDN?"), Outcome::Later)
        && matches!(
            bench.call(rt, seat, TryUnit(one, Try::Settle)),
            Outcome::Later
        )
        && bench.call(rt, seat, Query(one)) == 0
        && bench.call(rt, seat, Fetch(one)).is_none()
}

// Whether no lock is granted or held.
fn holds_nothing<R: Wait>(rt: &R, bench: &Device, seat: &mut Seat, one: Session) -> bool
    requires { IsOf bench.now seat.old }
    ensures { IsOf bench.now seat.new }
{
    let lock = Lock {
        session: one,
        kind: Kind::Exclusive,
        now: 0,
        timeout: 0,
    };
    bench.call(rt, seat, lock) == Ok(Grant::Failed)
        && matches!(
            bench.call(rt, seat, Release(one)),
            Err(LockRefusal::NotHeld)
        )
        && bench.call(rt, seat, CloseSession(one)).is_empty()
}

// Makes the other calls of a session, and returns whether no session holds a lock or waits for one then.
fn leaves_nothing<R: Wait>(rt: &R, bench: &Device, seat: &mut Seat, one: Session) -> bool
    requires { IsOf bench.now seat.old }
    ensures { IsOf bench.now seat.new }
{
    bench.call(rt, seat, Clear(one));
    let notifications = bench.call(rt, seat, MarkSent(one));
    bench.call(rt, seat, MarkDelivered(one));
    let info = bench.call(rt, seat, Inform);
    notifications.requesting.is_empty()
        && !notifications.has_work
        && !info.exclusive
        && info.holders == 0
        && bench.call(rt, seat, NextDeadline).is_none()
}

// Whether none of its twelve calls has an effect.
fn acts_on_nothing<R: Wait>(rt: &R, bench: &Device, seat: &mut Seat, one: Session) -> bool
    requires { IsOf bench.now seat.old }
    ensures { IsOf bench.now seat.new }
{
    comes_later(rt, bench, seat, one)
        && holds_nothing(rt, bench, seat, one)
        && leaves_nothing(rt, bench, seat, one)
        && bench.progress(seat) == 12
}

// A session that isn't open: the outcome of a unit is `Later`, no lock is granted or held, and all other results are
// empty.
#[test]
fn a_session_that_is_not_open_acts_on_nothing(rt: HostRuntime) {
    let (bench, mut seat) = bench_on(&rt, rt.alloc(), formatted(&rt, rt.alloc()));
    assert!(rt; acts_on_nothing(&rt, &bench, &mut seat, Session::at(0)));
    assert!(rt; is_flushed_at_close(&rt, bench, seat));
}

// Whether the service request enable register reads as 4.
fn reads<R: Wait>(rt: &R, bench: &Device, seat: &mut Seat, session: Session) -> bool
    requires { IsOf bench.now seat.old }
    ensures { IsOf bench.now seat.new }
{
    is_answer(&unit(rt, bench, seat, session, b"*SRE?"), b"4")
}

fn queried<R: Wait>(rt: &R, bench: &Device, mut seat: Seat, session: Session) -> (bool, Seat)
    requires { IsOf bench.now seat }
    ensures { IsOf bench.now result.1 }
{
    let reads = reads(rt, bench, &mut seat, session);
    (reads, seat)
}

// Whether it reads so in another thread.
fn queried_elsewhere<R: Threads + Wait + Sync>(
    rt: &R,
    bench: &Device,
    seat: Seat,
    session: Session,
) -> (bool, Seat)
    requires { IsOf bench.now seat }
    ensures { IsOf bench.now result.1 }
{
    let (queried, ()) = join(
        rt,
        || -> (bool, Seat)
            requires { IsOf bench.now seat }
            ensures { IsOf bench.entry.now result.1 }
        { queried(rt, bench, seat, session) },
        || (),
    );
    queried
}

// Whether it reads so in another thread, with a seat that is split off for it, and the number of calls that is seen
// grows by that one.
fn reads_elsewhere<R: Threads + Wait + Sync>(
    rt: &R,
    bench: &Device,
    seat: &mut Seat,
    session: Session,
) -> bool
    requires { IsOf bench.now seat.old }
    ensures { IsOf bench.now seat.new }
{
    let other = bench.split(seat);
    let before = bench.progress(seat);
    let (reads, other) = queried_elsewhere(rt, bench, other, session);
    let is_one_more = bench.progress(seat) == before.wrapping_add(1);
    bench.join(seat, other);
    reads && is_one_more
}

// Whether another thread reads what one thread sets, and then the one again.
fn is_read_elsewhere<R: Threads + Wait + Sync>(
    rt: &R,
    bench: &Device,
    seat: &mut Seat,
    session: Session,
) -> bool
    requires { IsOf bench.now seat.old }
    ensures { IsOf bench.now seat.new }
{
    executes(rt, bench, seat, session, b"*SRE 4")
        && reads_elsewhere(rt, bench, seat, session)
        && reads(rt, bench, seat, session)
}

// Another thread reads what one thread set; the number of calls that a seat sees grows by that one call, and the
// session is open at the close.
#[test]
fn another_thread_reads_what_was_set(rt: HostRuntime) {
    let (bench, mut seat) = bench_on(&rt, rt.alloc(), formatted(&rt, rt.alloc()));
    let session = opened(&rt, &bench, &mut seat);
    assert!(rt; is_read_elsewhere(&rt, &bench, &mut seat, session));
    assert!(rt; is_open_at_close(&rt, bench, seat, session));
}
