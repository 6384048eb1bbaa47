//! Jobs, from their take to their end, and the steps of sessions meanwhile.
use crate::session_steps::session_step;
use crate::words::are;
use psu_disk::Disk;
use psu_exec::{Exec, Finished, NoJob};
use std::alloc::Allocator;

// Whether the end of a job ends the waits of these sessions; `None` where the device does not expect it.
fn given_back<D: Disk + Drop, A: Allocator + Copy>(
    exec: &mut Exec<D, A>,
    finished: Finished<D, A>,
    wanted: &str,
) -> Option<bool> {
    match exec.give_back(finished) {
        Ok(over) => Some(are(&over, wanted)),
        Err(stranger) => {
            stranger.discard();
            None
        }
    }
}

/// Whether a device expects the end of a job, and it ends the waits of these sessions.
pub fn ends_waits<D: Disk + Drop, A: Allocator + Copy>(
    exec: &mut Exec<D, A>,
    finished: Finished<D, A>,
    wanted: &str,
) -> bool {
    given_back(exec, finished, wanted) == Some(true)
}

/// Whether one job ends the waits of these sessions, or there is nothing to do and no session is given.
pub(crate) fn flushes<D: Disk + Drop, A: Allocator + Copy>(
    exec: &mut Exec<D, A>,
    wanted: &str,
) -> bool {
    match exec.take() {
        Ok(job) => ends_waits(exec, job.run(), wanted),
        Err(cause) => cause == NoJob::Nothing && wanted.is_empty(),
    }
}

/// Whether no job is taken, for this cause. One that is taken is run and given back.
pub(crate) fn takes_none<D: Disk + Drop, A: Allocator + Copy>(
    exec: &mut Exec<D, A>,
    wanted: NoJob,
) -> bool {
    match exec.take() {
        Ok(job) => {
            ends_waits(exec, job.run(), "");
            false
        }
        Err(cause) => cause == wanted,
    }
}

// Whether these steps of sessions hold while a job is out, and no other job can be taken.
fn are_beside<D: Disk + Drop, A: Allocator + Copy>(exec: &mut Exec<D, A>, steps: &str) -> bool {
    for step in steps.split("; ") {
        if !session_step(exec, step) {
            return false;
        }
    }
    takes_none(exec, NoJob::Out)
}

/// Whether these steps of sessions hold while one job is out: `1: *SRE 4 -> done; 1: *OPC? -> parked`. `None` where
/// there is no job, or its end is not as it should be: the device expects it, and it ends no wait.
pub fn beside<D: Disk + Drop, A: Allocator + Copy>(
    exec: &mut Exec<D, A>,
    steps: &str,
) -> Option<bool> {
    let Ok(job) = exec.take() else {
        return None;
    };
    let held = are_beside(exec, steps);
    if ends_waits(exec, job.run(), "") {
        Some(held)
    } else {
        None
    }
}
