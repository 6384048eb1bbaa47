//! The assertion of rows: its message is written, and proved, once.
use std::fmt::Debug;
use std::process::Abort;

/// Asserts that a claim on a row holds; otherwise the row is reported.
pub(crate) fn holds(rt: &impl Abort, is_so: bool, row: &impl Debug) {
    assert!(rt; is_so, "at {row:?}");
}
