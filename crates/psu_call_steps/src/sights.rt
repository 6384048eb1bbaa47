//! The observations of a device, by their words: what it keeps, its store, the holders of locks, and their deadlines.
use psu_disk::Disk;
use psu_exec::{Condition, Exec, Info};
use psu_status::Enables;
use psu_tables::parted;
use std::alloc::Allocator;

/// An observation of a device.
#[derive(Clone, Copy)]
pub(crate) enum Sight {
    Flushed,
    Unflushed,
    Whole,
    Broken,
    Keeps,
    LockInfo,
    Next,
}

/// Returns the observation of a word.
pub(crate) fn sight_of(word: &str) -> Option<Sight> {
    match word {
        "flushed" => Some(Sight::Flushed),
        "unflushed" => Some(Sight::Unflushed),
        "whole" => Some(Sight::Whole),
        "broken" => Some(Sight::Broken),
        "keeps" => Some(Sight::Keeps),
        "lock-info" => Some(Sight::LockInfo),
        "next" => Some(Sight::Next),
        _ => None,
    }
}

// Whether these are the enables that are kept: `4 0`.
fn are_kept(kept: Option<Enables>, wanted: &str) -> bool {
    let (first, second) = parted(wanted);
    match kept {
        Some(Enables { sre, ese }) => first.parse() == Ok(sre) && second.parse() == Ok(ese),
        None => false,
    }
}

// Whether locks are held this way: `exclusive 2`.
fn are_locked(info: Info, wanted: &str) -> bool {
    let (how, holders) = parted(wanted);
    info.exclusive == (how == "exclusive") && holders.parse() == Ok(info.holders)
}

// Whether this is the next deadline, or `none`.
fn is_due(deadline: Option<u128>, wanted: &str) -> bool {
    match deadline {
        Some(deadline) => wanted.parse() == Ok(deadline),
        None => wanted == "none",
    }
}

/// Whether a device is in the state that its step states.
pub(crate) fn is_seen<D: Disk, A: Allocator + Copy>(
    exec: &Exec<D, A>,
    sight: Sight,
    rest: &str,
) -> bool {
    match sight {
        Sight::Flushed => exec.is_flushed(),
        Sight::Unflushed => !exec.is_flushed(),
        Sight::Whole => exec.condition() == Condition::Whole,
        Sight::Broken => exec.condition() == Condition::Broken,
        Sight::Keeps => are_kept(exec.contents().enables(), rest),
        Sight::LockInfo => are_locked(exec.inform(), rest),
        Sight::Next => is_due(exec.next_deadline(), rest),
    }
}
