//! The steps of a session: a unit, or another step.
use crate::lock_steps::{lock_action_of, lock_step_holds};
use crate::service_steps::{action_of, service_step_holds};
use crate::unit_steps::executes;
use crate::words::session;
use psu_disk::Disk;
use psu_exec::{Exec, Session};
use psu_tables::parted;
use std::alloc::Allocator;

// Whether a step of a session other than a single unit holds. `false` where it is not a step.
fn does<D: Disk, A: Allocator + Copy>(
    exec: &mut Exec<D, A>,
    session: Session,
    doing: &str,
) -> bool {
    let (word, rest) = parted(doing);
    if let Some(action) = action_of(word) {
        return service_step_holds(exec, session, action, rest);
    }
    match lock_action_of(word) {
        Some(action) => lock_step_holds(exec, session, action, rest),
        None => false,
    }
}

// Reads the session of a step, which ends in a colon where the step is a unit.
fn session_of(word: &str) -> Option<Session> {
    session(word.strip_suffix(":").unwrap_or(word))
}

/// Whether a step of a session holds: a unit, or another.
pub(crate) fn session_step<D: Disk, A: Allocator + Copy>(
    exec: &mut Exec<D, A>,
    step: &str,
) -> bool {
    let (word, rest) = parted(step);
    let Some(session) = session_of(word) else {
        return false;
    };
    if word.ends_with(":") {
        executes(exec, session, rest)
    } else {
        does(exec, session, rest)
    }
}
