//! Whether a guide holds.
ghost use Rattle.std.specs.Prelude.{IfErr, IfOk};
ghost use Rattle.psu_examples.specs.Held.{Holds, IsRefusal};
ghost use Rattle.psu_guide.specs.Plays.{CannotAnswer, Plays};

use crate::play::NewInstrument;
use crate::play_fault::PlayFault;
use psu_examples::{GuideFault, examples_held};
use std::alloc::Allocator;

/// Returns the number of examples of a guide, where a new instrument answers each of them as it states. A guide without
/// examples is refused.
pub fn guide_held<A: Allocator + Copy>(
    alloc: A,
    guide: &[u8],
) -> Result<usize, GuideFault<A, PlayFault>>
    ensures held { IfOk result (λ count. Holds Plays guide.now count) }
    ensures refused { IfErr result (λ fault. IsRefusal Plays CannotAnswer guide.now fault) }
{
    examples_held(alloc, &NewInstrument, guide)
}
