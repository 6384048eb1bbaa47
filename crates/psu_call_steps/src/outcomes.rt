//! The words for outcomes in a step.
use psu_exec::{Outcome, ScpiError};
use std::alloc::Allocator;

// Returns the word for an error.
fn refused_as(error: ScpiError) -> &'static [u8] {
    if error == ScpiError::MediaFull {
        return b"media full".as_slice();
    }
    b"error".as_slice()
}

/// Returns the answer of an outcome, or the word for it.
pub(crate) fn said<A: Allocator + Copy>(outcome: &Outcome<A>) -> &[u8] {
    match outcome {
        Outcome::Done => b"done".as_slice(),
        Outcome::Answer(text) => text.as_slice(),
        Outcome::Error(error) => refused_as(*error),
        Outcome::Expand(_) => b"expand".as_slice(),
        Outcome::Parked => b"parked".as_slice(),
        Outcome::Held => b"held".as_slice(),
        Outcome::Later => b"later".as_slice(),
    }
}
