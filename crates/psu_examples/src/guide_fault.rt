//! Why a guide is refused.
ghost use Rattle.std.specs.Prelude.{◌≡◌};
ghost use Rattle.psu_examples.specs.declared.guide_fault.GuideFault.TheVariants.{Memory};

use std::alloc::{AllocError, Allocator};

/// Why a guide is refused.
#[derive(Drop)]
pub enum GuideFault<A: Allocator + Copy, F> {
    /// It has no example.
    Empty,
    /// The example that begins at this line is answered with this text, not with the one that it states.
    Differs(usize, Vec<u8, A>),
    /// The player stopped at the example that begins at this line.
    Ended(usize, F),
    /// Memory was refused while the guide was read.
    Memory,
}

impl<A: Allocator + Copy, F> From<AllocError> for GuideFault<A, F> {
    ghost from_gives = { λ _ fault. fault ≡ Memory };

    fn from(_: AllocError) -> Self {
        GuideFault::Memory
    }
}
