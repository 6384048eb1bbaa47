//! The steps of a session on its units, its wait and its service, by their words.

use crate::unit_steps::{are_done, fills, settles};
use crate::words::are;
use psu_disk::Disk;
use psu_exec::{Exec, Session};
use std::alloc::Allocator;

/// A step of a session.
#[derive(Clone, Copy)]
pub(crate) enum Action {
    Does,
    Fills,
    Settles,
    Srq,
    Polls,
    Sent,
    Delivered,
    Clears,
}

/// Returns the step of a word.
pub(crate) fn action_of(word: &str) -> Option<Action> {
    match word {
        "does" => Some(Action::Does),
        "fills" => Some(Action::Fills),
        "settles" => Some(Action::Settles),
        "srq" => Some(Action::Srq),
        "polls" => Some(Action::Polls),
        "sent" => Some(Action::Sent),
        "delivered" => Some(Action::Delivered),
        "clears" => Some(Action::Clears),
        _ => None,
    }
}

// Whether this is the service request that is sent now: a status byte, or `nothing`.
fn requests_service<D: Disk, A: Allocator + Copy>(
    exec: &mut Exec<D, A>,
    session: Session,
    wanted: &str,
) -> bool {
    match exec.fetch(session) {
        Some(status) => wanted.parse() == Ok(status),
        None => wanted == "nothing",
    }
}

// Whether this is the status byte of a status query.
fn polls<D: Disk, A: Allocator + Copy>(
    exec: &mut Exec<D, A>,
    session: Session,
    wanted: &str,
) -> bool {
    wanted.parse() == Ok(exec.query(session))
}

/// Whether the result of a session's step is the one that it states.
pub(crate) fn service_step_holds<D: Disk, A: Allocator + Copy>(
    exec: &mut Exec<D, A>,
    session: Session,
    action: Action,
    rest: &str,
) -> bool {
    match action {
        Action::Does => return are_done(exec, session, rest),
        Action::Fills => return fills(exec, session, rest),
        Action::Settles => return settles(exec, session, rest),
        Action::Srq => return requests_service(exec, session, rest),
        Action::Polls => return polls(exec, session, rest),
        Action::Sent => return are(&exec.mark_sent(session).requesting, rest),
        Action::Delivered => exec.mark_delivered(session),
        Action::Clears => exec.clear(session),
    }
    true
}
