//! The assertion of rows: its message is written, and proved, once.
use std::fmt::Debug;
use std::process::Abort;

/// Asserts that a claim on a row holds; otherwise the row is reported.
pub(crate) fn holds(rt: &impl Abort, is_so: bool, row: &impl Debug) {
    assert!(rt; is_so, "at {row:?}");
}

/// Whether the second of two claims holds, where exactly one of them does.
pub(crate) fn either(one: bool, other: bool) -> Option<bool> {
    (one != other).then_some(other)
}

/// Counts the outcome of a row, one of as many outcomes as there are places.
pub(crate) fn count(rt: &impl Abort, seen: &mut [u32], way: Option<usize>, row: &impl Debug) {
    match way {
        Some(way) if way < seen.len() => seen[way] = seen[way].saturating_add(1),
        _ => holds(rt, false, row),
    }
}
