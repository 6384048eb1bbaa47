//! What is executed.
ghost use Rattle.std.specs.Prelude.{◌≡◌};
ghost use Rattle.psu_messages.specs.Units.{size_of, source_of};

use psu_lex::ScpiError;
use std::alloc::Allocator;

/// What is executed: the text of a transmission, or the report of an error in place of one.
#[derive(Drop)]
pub enum Input<A: Allocator + Copy> {
    /// The text of a transmission, its bytes up to END.
    Text(Vec<u8, A>),
    /// The error that the instrument reports in place of a transmission.
    Fault(ScpiError),
}

impl<A: Allocator + Copy> Input<A> {
    /// Returns the number of bytes of its text; none where there is no text.
    pub fn size(&self) -> usize
        ensures { result ≡ size_of (source_of self.now) }
    {
        match self {
            Input::Text(text) => text.len(),
            Input::Fault(_) => 0,
        }
    }
}
