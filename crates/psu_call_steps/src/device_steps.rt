//! The steps of a device, by their words: sessions that open, jobs, notifications and moments.
use crate::job_steps::{beside, flushes, takes_none};
use crate::words::are;
use psu_disk::Disk;
use psu_exec::{Exec, NoJob};
use std::alloc::Allocator;

/// A step of a device.
#[derive(Clone, Copy)]
pub(crate) enum Doing {
    Opens,
    Crowded,
    Flush,
    Beside,
    Idle,
    Tick,
    Work,
    Rest,
}

/// Returns the step of a word.
pub(crate) fn doing_of(word: &str) -> Option<Doing> {
    match word {
        "open" => Some(Doing::Opens),
        "crowded" => Some(Doing::Crowded),
        "flush" => Some(Doing::Flush),
        "beside" => Some(Doing::Beside),
        "idle" => Some(Doing::Idle),
        "tick" => Some(Doing::Tick),
        "work" => Some(Doing::Work),
        "rest" => Some(Doing::Rest),
        _ => None,
    }
}

// Whether a session opens with this number.
fn opens<D: Disk, A: Allocator + Copy>(exec: &mut Exec<D, A>, wanted: &str) -> bool {
    match exec.open_session() {
        Ok(session) => wanted.parse() == Ok(session.number()),
        Err(_) => false,
    }
}

// Whether these sessions have requested service since, and whether there is something to flush.
fn notifies<D: Disk, A: Allocator + Copy>(
    exec: &mut Exec<D, A>,
    wanted: &str,
    has_work: bool,
) -> bool {
    let notifications = exec.take_notifications();
    are(&notifications.requesting, wanted) && notifications.has_work == has_work
}

// Whether these lock requests fail at a moment: `20 fails 2`.
fn ticks<D: Disk, A: Allocator + Copy>(exec: &mut Exec<D, A>, wanted: &str) -> bool {
    let (now, failed) = wanted.split_once(" fails").unwrap_or((wanted, ""));
    match now.parse() {
        Ok(now) => are(&exec.tick(now), failed),
        Err(_) => false,
    }
}

/// Whether the result of a device's step is the one that it states.
pub(crate) fn device_step_holds<D: Disk + Drop, A: Allocator + Copy>(
    exec: &mut Exec<D, A>,
    doing: Doing,
    rest: &str,
) -> bool {
    match doing {
        Doing::Opens => opens(exec, rest),
        Doing::Crowded => exec.open_session().is_err(),
        Doing::Flush => flushes(exec, rest),
        Doing::Beside => beside(exec, rest) == Some(true),
        Doing::Idle => takes_none(exec, NoJob::Nothing),
        Doing::Tick => ticks(exec, rest),
        Doing::Work => notifies(exec, rest, true),
        Doing::Rest => notifies(exec, rest, false),
    }
}
