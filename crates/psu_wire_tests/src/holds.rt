//! How a test reports which of its rows fails.
use std::process::Abort;

/// Stops the test where a row does not hold. Only this function makes such a text, as each text that is made costs a
/// proof as much as ten calls of this function.
pub(crate) fn holds(rt: &impl Abort, is: bool, row: &str) {
    assert!(rt; is, "{row}");
}
