//! Units that a session executes, and its wait.

use crate::outcomes::said;
use psu_disk::Disk;
use psu_exec::{Exec, Request, Session};
use psu_lex::Unit;
use psu_tree::{Path, request};
use std::alloc::Allocator;

// How often `fills` executes a unit: the number of changes that may be unflushed.
const FILLING: u32 = 1_024;

// Reads the request of a text that is one unit.
fn read(text: &str) -> Request<'_> {
    let unit = Unit {
        text: text.as_bytes(),
        first: true,
        fault: None,
    };
    request(&mut Path::root(), &unit, false)
}

// Whether this is the outcome of a unit of a session.
fn has_outcome<D: Disk, A: Allocator + Copy>(
    exec: &mut Exec<D, A>,
    session: Session,
    text: &str,
    want: &str,
) -> bool {
    said(&exec.execute(session, &read(text))) == want.as_bytes()
}

// Whether the contents cost this many pages.
fn costs<D: Disk, A: Allocator + Copy>(exec: &Exec<D, A>, cost: &str) -> bool {
    cost.parse() == Ok(exec.contents().cost())
}

// Whether this is the outcome of a unit, and the contents then cost this much: `done; costs 2`.
fn is_met<D: Disk, A: Allocator + Copy>(
    exec: &mut Exec<D, A>,
    session: Session,
    unit: &str,
    wanted: &str,
) -> bool {
    match wanted.split_once("; costs ") {
        Some((want, cost)) => has_outcome(exec, session, unit, want) && costs(exec, cost),
        None => has_outcome(exec, session, unit, wanted),
    }
}

/// Whether the outcome of a unit is the one that is written after it: `*SRE 4 -> done`, `*SAV 0 -> done; costs 2`.
pub(crate) fn executes<D: Disk, A: Allocator + Copy>(
    exec: &mut Exec<D, A>,
    session: Session,
    doing: &str,
) -> bool {
    match doing.split_once(" -> ") {
        Some((unit, wanted)) => is_met(exec, session, unit, wanted),
        None => false,
    }
}

/// Whether each of these units is done: `VOLT 2;*SAV 3`.
pub(crate) fn are_done<D: Disk, A: Allocator + Copy>(
    exec: &mut Exec<D, A>,
    session: Session,
    units: &str,
) -> bool {
    for unit in units.split(";") {
        if !has_outcome(exec, session, unit, "done") {
            return false;
        }
    }
    true
}

/// Whether a unit is done each time that it is executed, until no more changes may be unflushed.
pub(crate) fn fills<D: Disk, A: Allocator + Copy>(
    exec: &mut Exec<D, A>,
    session: Session,
    unit: &str,
) -> bool {
    for _ in 0..FILLING {
        if !has_outcome(exec, session, unit, "done") {
            return false;
        }
    }
    true
}

/// Whether this is the outcome of the wait of a session.
pub(crate) fn settles<D: Disk, A: Allocator + Copy>(
    exec: &mut Exec<D, A>,
    session: Session,
    want: &str,
) -> bool {
    said(&exec.settle(session)) == want.as_bytes()
}
