//! An expansion in a unit's place.

use psu_lex::Bytes;
use std::alloc::Allocator;

/// An expansion that replaces a unit.
#[derive(Drop)]
pub struct Expansion<A: Allocator + Copy> {
    /// The text that is executed.
    pub body: Bytes<A>,
    /// How many of its units are done.
    pub done: u64,
}
