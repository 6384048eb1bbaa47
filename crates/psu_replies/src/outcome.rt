//! The outcome of a unit.
use psu_lex::{Bytes, ScpiError};
use std::alloc::Allocator;

/// The outcome of a unit or of a settle.
#[derive(Drop)]
pub enum Outcome<A: Allocator + Copy> {
    /// It is done, and has no response.
    Done,
    Answer(Bytes<A>),
    /// It is refused; nothing has changed but what reports the error.
    Error(ScpiError),
    /// It calls a macro: these bytes are to be executed in its place, read from the root of the tree.
    Expand(Bytes<A>),
    /// It waits for changes to be flushed; `settle` returns its result.
    Parked,
    /// Nothing was executed: another session's lock denies it.
    Held,
    /// Nothing was executed: the session is parked, or there is no room for another unflushed change.
    Later,
}
