//! Ends of jobs that a device does not expect.
use crate::plays::{LEAST, ends, image_of, played, taken, whole};
use psu_call_steps::ends_waits;
use psu_disk::Disk;
use psu_exec::{Exec, Finished};
use std::alloc::Allocator;
use std::process::Abort;

// The steps of one change, on a device with nothing to flush before it.
const ONE: &str = "idle
open 1
1: *PSC 0 -> done";

// The steps of one more unit.
const TWO: &str = "idle
open 1
1: *PSC 0 -> done
1: *ESE 1 -> done";

// Returns the end of a job that a device hands back because it expects another one.
fn refused<D: Disk + Drop, A: Allocator + Copy>(
    rt: &impl Abort,
    exec: &mut Exec<D, A>,
    finished: Finished<D, A>,
) -> Finished<D, A> {
    match exec.give_back(finished) {
        Ok(_) => panic!(rt; "a stranger is accepted"),
        Err(stranger) => stranger.into_finished(),
    }
}

// Returns the end of a job that a device hands back whose own job is out; that job's end it then takes.
fn handed_back<D: Disk + Drop, A: Allocator + Copy>(
    rt: &impl Abort,
    exec: &mut Exec<D, A>,
    strange: Finished<D, A>,
) -> Finished<D, A> {
    let job = taken(rt, exec);
    let finished = refused(rt, exec, strange);
    ends(rt, exec, job, "");
    finished
}

// Checks that the end of another device's job is handed back by this one and taken by the other.
fn are_strangers<D: Disk + Drop, A: Allocator + Copy>(
    rt: &impl Abort,
    exec: &mut Exec<D, A>,
    other: &mut Exec<D, A>,
) {
    let strange = taken(rt, other).run();
    let finished = handed_back(rt, exec, strange);
    assert!(rt; ends_waits(other, finished, ""));
    assert!(rt; exec.is_flushed() && other.is_flushed());
}

// Checks that of two devices, which then end.
fn both_are_strangers<D: Disk + Drop, A: Allocator + Copy>(
    rt: &impl Abort,
    mut exec: Exec<D, A>,
    mut other: Exec<D, A>,
) {
    are_strangers(rt, &mut exec, &mut other);
    whole(rt, exec);
    whole(rt, other);
}

// Checks that of a device on an image of this limit with one change, and another on an image of the smallest size that
// has played a script.
fn are_so<A: Allocator + Copy>(rt: &impl Abort, alloc: A, limit: u16, script: &str) {
    let exec = played(rt, alloc, image_of(rt, alloc, limit), ONE);
    let other = played(rt, alloc, image_of(rt, alloc, LEAST), script);
    both_are_strangers(rt, exec, other);
}

// The end of another device's job with another map is handed back.
#[test]
fn jobs_of_others_are_strangers(rt: HostRuntime) {
    are_so(&rt, rt.alloc(), LEAST, TWO);
}

// An end that differs only in the limit is that of another device.
#[test]
fn a_job_of_another_limit_is_a_stranger(rt: HostRuntime) {
    are_so(&rt, rt.alloc(), 256, ONE);
}
