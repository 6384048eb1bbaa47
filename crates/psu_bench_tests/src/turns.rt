//! The turns of a bench are not used up soon.
ghost use Rattle.std.specs.Prelude.{◌≡◌};
ghost use Rattle.psu_turn.specs.Seats.{IsOf};

use crate::benches::{bench_on, formatted, is_open_at_close};
use psu_bench::operations::NextDeadline;
use psu_bench::{Bench, Seat};
use psu_disk::MemDisk;
use psu_exec::Session;
use std::alloc::Global;
use std::sync::Wait;

// One more than 2^20.
const CALLS: u64 = 1_048_577;

// Makes this many calls, which change nothing.
fn calls<R: Wait>(rt: &R, bench: &Bench<MemDisk<Global>, Global>, mut seat: Seat) -> Seat
    requires { IsOf bench.now seat }
    ensures { IsOf bench.now result }
{
    for _ in 0..CALLS {
        let _none = bench.call(rt, &mut seat, NextDeadline);
    }
    seat
}

// One thread draws more than 2^20 tickets, and each call is counted.
#[test]
fn one_thread_makes_more_than_a_million_calls(rt: HostRuntime) {
    let (bench, seat) = bench_on(&rt, rt.alloc(), formatted(&rt, rt.alloc()));
    let mut seat = calls(&rt, &bench, seat);
    assert!(rt; bench.progress(&mut seat) == CALLS);
    assert!(rt; !is_open_at_close(&rt, bench, seat, Session::at(0)));
}
