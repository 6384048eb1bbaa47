//! A device in memory with one session.
use psu_call_steps::{image, powered_on};
use psu_disk::MemDisk;
use psu_exec::{Exec, Finished, NoJob, Session};
use std::alloc::Global;

/// A device on a disk in memory.
pub(crate) type Power = Exec<MemDisk<Global>, Global>;

/// Returns a device that is powered on with a new image of this many pages.
pub(crate) fn new_device(alloc: Global, pages: u16) -> Option<Power> {
    powered_on(alloc, image(alloc, pages)?)
}

/// Opens its session.
pub(crate) fn opened(exec: &mut Power) -> Option<Session> {
    exec.open_session().ok()
}

// Whether the end of a job is accepted.
fn is_given_back(exec: &mut Power, finished: Finished<MemDisk<Global>, Global>) -> bool {
    match exec.give_back(finished) {
        Ok(_) => true,
        Err(stranger) => {
            stranger.discard();
            false
        }
    }
}

/// Whether one job succeeds from its take to its end, or there is nothing to do.
pub(crate) fn is_flushed(exec: &mut Power) -> bool {
    match exec.take() {
        Ok(job) => is_given_back(exec, job.run()),
        Err(cause) => cause == NoJob::Nothing,
    }
}
