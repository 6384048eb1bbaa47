//! Devices that play scripts.
use crate::holds::holds;
use psu_call_steps::{ends_waits, image, play, powered_on};
use psu_disk::{Disk, MemDisk};
use psu_exec::{Ended, Exec, Job};
use std::alloc::Allocator;
use std::process::Abort;

/// The limit of an image of the smallest size.
pub(crate) const LEAST: u16 = 4;

/// Returns a formatted image of this limit.
pub(crate) fn image_of<A: Allocator + Copy>(rt: &impl Abort, alloc: A, limit: u16) -> MemDisk<A> {
    image(alloc, limit).expect(rt, "an image")
}

/// Returns a device that is powered on with the contents of a disk.
pub(crate) fn device_with<D: Disk + Drop, A: Allocator + Copy>(
    rt: &impl Abort,
    alloc: A,
    disk: D,
) -> Exec<D, A> {
    powered_on(alloc, disk).expect(rt, "a device")
}

/// Plays a script, each step of which holds.
pub(crate) fn plays<D: Disk + Drop, A: Allocator + Copy>(
    rt: &impl Abort,
    exec: &mut Exec<D, A>,
    script: &str,
) {
    match play(exec, script) {
        Ok(steps) => holds(rt, steps > 0, &script),
        Err(fault) => holds(rt, false, &fault),
    }
}

/// Returns a device with the contents of a disk, after it has played a script.
pub(crate) fn played<D: Disk + Drop, A: Allocator + Copy>(
    rt: &impl Abort,
    alloc: A,
    disk: D,
    script: &str,
) -> Exec<D, A> {
    let mut exec = device_with(rt, alloc, disk);
    plays(rt, &mut exec, script);
    exec
}

/// Returns the disk of a device with a whole store.
pub(crate) fn whole<D: Disk + Drop, A: Allocator + Copy>(rt: &impl Abort, exec: Exec<D, A>) -> D {
    match exec.end() {
        Ended::Whole(store) => store.into_disk(),
        _ => panic!(rt; "no whole store"),
    }
}

/// Returns the disk of such a device, after it has played a script.
pub(crate) fn disk_after<D: Disk + Drop, A: Allocator + Copy>(
    rt: &impl Abort,
    alloc: A,
    disk: D,
    script: &str,
) -> D {
    whole(rt, played(rt, alloc, disk, script))
}

/// Returns the disk of a device that ends with no job out.
pub(crate) fn disk_of<D: Disk + Drop, A: Allocator + Copy>(rt: &impl Abort, exec: Exec<D, A>) -> D {
    match exec.end() {
        Ended::Whole(store) => store.into_disk(),
        Ended::Failed(broken) => broken.into_disk(),
        Ended::Out(_) => panic!(rt; "a job is out"),
    }
}

/// Takes the job that there is.
pub(crate) fn taken<D: Disk + Drop, A: Allocator + Copy>(
    rt: &impl Abort,
    exec: &mut Exec<D, A>,
) -> Job<D, A> {
    exec.take().ok().expect(rt, "a job")
}

/// Runs a job, whose end ends the waits of these sessions.
pub(crate) fn ends<D: Disk + Drop, A: Allocator + Copy>(
    rt: &impl Abort,
    exec: &mut Exec<D, A>,
    job: Job<D, A>,
    over: &str,
) {
    let is_so = ends_waits(exec, job.run(), over);
    assert!(rt; is_so);
}
