//! Each allocation of a take is refused: nothing has changed, and with memory it continues. A settle needs none.
use crate::holds::holds;
use crate::plays::{LEAST, ends, image_of, played, plays, whole};
use bumpalo::Bump;
use psu_disk::Disk;
use psu_exec::{Exec, Job, NoJob};
use std::alloc::Allocator;
use std::process::Abort;

// The steps of a session with a change and a wait for it.
const WAITING: &str = "open 1
1: *PSC 0 -> done
1: *OPC? -> parked";

// The steps that hold where memory was refused for a job: nothing has changed.
const AS_BEFORE: &str = "whole
unflushed
1 settles parked";

// With memory a job is taken, and its end answers the wait.
const FLUSHES: &str = "flush 1
1 settles 1";

// A wait that is over is answered once.
const ANSWERED: &str = "1 settles 1
1 settles done";

fn arena<A: Allocator>(rt: &impl Abort, alloc: A) -> Bump<A> {
    Bump::try_with_capacity(alloc, 20_000)
        .ok()
        .expect(rt, "an arena")
}

// Allocates the arena's memory except for this many bytes.
fn leave<A: Allocator>(rt: &impl Abort, arena: &Bump<A>, left: usize) {
    arena.set_allocation_limit(Some(arena.allocated_bytes()));
    let spare = arena
        .chunk_capacity()
        .checked_sub(left)
        .expect(rt, "an ample arena");
    let filled = arena.try_alloc_slice_fill_clone(spare, 0u8).is_ok();
    assert!(rt; filled);
}

// Gives back the job, whose end answers the wait once there is memory again.
fn answers<D: Disk + Drop, B: Allocator + Copy, A: Allocator>(
    rt: &impl Abort,
    arena: &Bump<A>,
    exec: &mut Exec<D, B>,
    job: Job<D, B>,
) {
    arena.set_allocation_limit(None);
    ends(rt, exec, job, "1");
    plays(rt, exec, "1 settles 1");
}

// Whether a job is taken, whose end then answers the wait; otherwise memory was refused for it.
fn is_taken<D: Disk + Drop, B: Allocator + Copy, A: Allocator>(
    rt: &impl Abort,
    arena: &Bump<A>,
    exec: &mut Exec<D, B>,
) -> bool {
    match exec.take() {
        Ok(job) => {
            answers(rt, arena, exec, job);
            true
        }
        Err(cause) => {
            assert!(rt; cause == NoJob::Memory);
            false
        }
    }
}

// Whether a take with this much of the device's memory is refused; then another is not.
fn is_refused_of<D: Disk + Drop, B: Allocator + Copy, A: Allocator>(
    rt: &impl Abort,
    arena: &Bump<A>,
    exec: &mut Exec<D, B>,
    left: usize,
) -> bool {
    leave(rt, arena, left);
    if is_taken(rt, arena, exec) {
        return false;
    }
    plays(rt, exec, AS_BEFORE);
    arena.set_allocation_limit(None);
    plays(rt, exec, FLUSHES);
    true
}

// Whether a take is refused of a device, which then ends.
fn is_refused_with<D: Disk + Drop, B: Allocator + Copy, A: Allocator>(
    rt: &impl Abort,
    arena: &Bump<A>,
    mut exec: Exec<D, B>,
    left: usize,
) -> bool {
    let refused = is_refused_of(rt, arena, &mut exec, left);
    whole(rt, exec);
    refused
}

// Whether a take is refused on a device of its own, whose memory is the arena's.
fn is_refused_in<A: Allocator + Copy>(
    rt: &impl Abort,
    alloc: A,
    arena: &Bump<A>,
    left: usize,
) -> bool {
    let exec = played(rt, arena, image_of(rt, alloc, LEAST), WAITING);
    is_refused_with(rt, arena, exec, left)
}

// Whether a take is refused in an arena of its own.
fn is_refused<A: Allocator + Copy>(rt: &impl Abort, alloc: A, left: usize) -> bool {
    is_refused_in(rt, alloc, &arena(rt, alloc), left)
}

#[test]
fn each_allocation_of_a_take_refused(rt: HostRuntime) {
    let mut refused = 0u32;
    for step in 0..64usize {
        if is_refused(&rt, rt.alloc(), step * 64) {
            refused = refused.saturating_add(1);
        }
    }
    holds(&rt, refused > 0 && refused < 64, &refused);
}

// Checks that a wait that is over is answered where no memory is left.
fn is_answered<D: Disk + Drop, B: Allocator + Copy, A: Allocator>(
    rt: &impl Abort,
    arena: &Bump<A>,
    mut exec: Exec<D, B>,
) {
    plays(rt, &mut exec, "flush 1");
    leave(rt, arena, 0);
    plays(rt, &mut exec, ANSWERED);
    whole(rt, exec);
}

// Checks this on a device of its own, whose memory is the arena's.
fn is_answered_in<A: Allocator + Copy>(rt: &impl Abort, alloc: A, arena: &Bump<A>) {
    let exec = played(rt, arena, image_of(rt, alloc, LEAST), WAITING);
    is_answered(rt, arena, exec);
}

#[test]
fn a_settle_needs_no_memory(rt: HostRuntime) {
    is_answered_in(&rt, rt.alloc(), &arena(&rt, rt.alloc()));
}
