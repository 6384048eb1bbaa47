//! The steps of a session on locks, and its end, by their words.

use crate::words::are;
use psu_disk::Disk;
use psu_exec::{Exec, Freed, Grant, Kind, LockRefusal, LockString, Session};
use psu_tables::parted;
use std::alloc::Allocator;

/// A step of a session on locks.
#[derive(Clone, Copy)]
pub(crate) enum LockAction {
    Shares,
    Requests,
    Releases,
    Closes,
}

/// Returns the step of a word.
pub(crate) fn lock_action_of(word: &str) -> Option<LockAction> {
    match word {
        "shares" => Some(LockAction::Shares),
        "requests" => Some(LockAction::Requests),
        "releases" => Some(LockAction::Releases),
        "closes" => Some(LockAction::Closes),
        _ => None,
    }
}

// Returns the word for the result of a lock request.
fn called(granted: Result<Grant, LockRefusal>) -> &'static str {
    match granted {
        Ok(Grant::Granted) => "granted",
        Ok(Grant::Queued) => "queued",
        Ok(Grant::Failed) => "failed",
        Err(LockRefusal::Waiting) => "waiting",
        Err(LockRefusal::AlreadyHeld) => "already-held",
        Err(LockRefusal::NotHeld) => "not-held",
    }
}

// Returns the word for a lock that is released.
fn freed_as(freed: Freed) -> &'static str {
    match freed {
        Freed::Exclusive => "exclusive",
        Freed::Shared => "shared",
    }
}

// Reads a moment and the timeout of a request: `at 0 for 10`.
fn moment_and_wait(request: &str) -> Option<(u64, u32)> {
    let (now, wait) = request.strip_prefix("at ")?.split_once(" for ")?;
    Some((now.parse().ok()?, wait.parse().ok()?))
}

// Whether this is the result of a request of the exclusive lock at a moment: `queued at 0 for 10`.
fn requests<D: Disk, A: Allocator + Copy>(
    exec: &mut Exec<D, A>,
    session: Session,
    doing: &str,
) -> bool {
    let (wanted, request) = parted(doing);
    match moment_and_wait(request) {
        Some((now, wait)) => called(exec.lock(session, Kind::Exclusive, now, wait)) == wanted,
        None => false,
    }
}

// Whether the shared lock `k` is granted.
fn shares<D: Disk, A: Allocator + Copy>(exec: &mut Exec<D, A>, session: Session) -> bool {
    match LockString::new(b"k".as_slice()) {
        Some(string) => called(exec.lock(session, Kind::Shared(string), 0, 0)) == "granted",
        None => false,
    }
}

// Whether this is the lock that is released, and these sessions are then granted it: `exclusive 3`, or `nothing`.
fn releases<D: Disk, A: Allocator + Copy>(
    exec: &mut Exec<D, A>,
    session: Session,
    wanted: &str,
) -> bool {
    let (what, granted) = parted(wanted);
    match exec.release(session) {
        Ok((freed, sessions)) => freed_as(freed) == what && are(&sessions, granted),
        Err(_) => what == "nothing",
    }
}

// Whether these sessions are granted a lock by the end of a session.
fn closes<D: Disk, A: Allocator + Copy>(
    exec: &mut Exec<D, A>,
    session: Session,
    granted: &str,
) -> bool {
    are(&exec.close_session(session), granted)
}

/// Whether the result of a session's step on locks is the one that it states.
pub(crate) fn lock_step_holds<D: Disk, A: Allocator + Copy>(
    exec: &mut Exec<D, A>,
    session: Session,
    action: LockAction,
    rest: &str,
) -> bool {
    match action {
        LockAction::Shares => shares(exec, session),
        LockAction::Requests => requests(exec, session, rest),
        LockAction::Releases => releases(exec, session, rest),
        LockAction::Closes => closes(exec, session, rest),
    }
}
