//! The progress of a transmission.
ghost use Rattle.std.specs.Prelude.{◌≡◌};
ghost use Rattle.psu_messages.specs.Executions.{beginning};
ghost use Rattle.psu_messages.specs.Shown.{progress_of};

use crate::{Expansion, ResponseBuffer};
use std::alloc::Allocator;

/// The progress of a transmission, between two tries of its units.
#[derive(Drop)]
pub struct Progress<A: Allocator + Copy, W: Copy> {
    /// How many of its units are done.
    pub units: u64,
    /// The expansion that replaces the next unit.
    pub expansion: Option<Expansion<A>>,
    /// If the next unit (of the expansion, if there is one) was accepted and waits, what settles its wait.
    pub parked: Option<W>,
    /// The response buffer: the responses that are not sent.
    pub gathered: ResponseBuffer<A>,
}

impl<A: Allocator + Copy, W: Copy> Progress<A, W> {
    /// The progress before anything is done. The response buffer may be that of another transmission: it is emptied,
    /// and keeps its allocation.
    pub fn new(buffer: ResponseBuffer<A>) -> Progress<A, W>
        ensures { progress_of result ≡ beginning }
    {
        let mut gathered = buffer;
        gathered.restart();
        Progress {
            units: 0,
            expansion: None,
            parked: None,
            gathered,
        }
    }
}
