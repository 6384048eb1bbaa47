//! The results of commands, and the commands that wait for earlier changes.

use psu_lex::Bytes;
use psu_nv::NvCommand;
use std::alloc::Allocator;

/// The commands of operation complete (IEEE 488.2, 12.5): they wait for the changes accepted before them.
#[derive(Clone, Copy, Debug, PartialEq, Eq)]
pub enum Completion {
    /// `*OPC?`, which then returns 1.
    Query,
    /// `*WAI`, which is then done.
    Wait,
    /// `*OPC`, which then sets bit 0 of the event status register.
    Event,
}

/// The result of a command that the instrument does not refuse.
#[derive(Drop)]
pub enum Act<'c, A: Allocator + Copy> {
    /// The command is done, without a response.
    Done,
    /// The command is done, with this response.
    Answer(Bytes<A>),
    /// The command changes the nonvolatile contents: the caller makes the change.
    Keep(NvCommand<'c>),
    /// The command waits for the changes accepted before it: the caller knows whether they are flushed.
    Complete(Completion),
}
