//! Whether a guide holds.
ghost use Rattle.std.specs.Prelude.{All, IfErr, IfOk, OnOk, map};
ghost use Rattle.psu_examples.specs.Held.{Agrees, Holds, IsFaultOf, IsFirstFault, IsRefusal};
ghost use Rattle.psu_examples.specs.Shown.{shown};

use crate::example::Example;
use crate::guide_fault::GuideFault;
use crate::player::Player;
use crate::reading::examples_of;
use std::alloc::Allocator;

/// Returns the number of examples of a guide, where the player answers each of them as it states. A guide without
/// examples is refused.
pub fn examples_held<A: Allocator + Copy, P: Player<A>>(
    alloc: A,
    player: &P,
    guide: &[u8],
) -> Result<usize, GuideFault<A, P::Fault>>
    ensures held { IfOk result (λ count. Holds P.plays guide.now count) }
    ensures refused { IfErr result (λ fault. IsRefusal P.plays P.stops guide.now fault) }
{
    let examples = examples_of(alloc, guide)?;
    if examples.is_empty() {
        return Err(GuideFault::Empty);
    }
    check_each(alloc, player, &examples)?;
    Ok(examples.len())
}

// Checks that the player answers each of these examples as it states; otherwise returns the fault of the first that it
// does not.
fn check_each<A: Allocator + Copy, P: Player<A>>(
    alloc: A,
    player: &P,
    examples: &[Example<A>],
) -> Result<(), GuideFault<A, P::Fault>>
    ensures held { OnOk result (All (Agrees P.plays) (map shown examples.now)) }
    ensures refused { IfErr result (λ fault. IsFirstFault P.plays P.stops (map shown examples.now) fault) }
{
    for example in examples {
        check_example(alloc, player, example)?;
    }
    Ok(())
}

// Checks that the player answers an example as it states.
fn check_example<A: Allocator + Copy, P: Player<A>>(
    alloc: A,
    player: &P,
    example: &Example<A>,
) -> Result<(), GuideFault<A, P::Fault>>
    ensures held { OnOk result (Agrees P.plays (shown example.now)) }
    ensures refused { IfErr result (λ fault. IsFaultOf P.plays P.stops (shown example.now) fault) }
{
    match player.play(alloc, &example.sent) {
        Ok(came) => {
            if came.as_slice() == example.answered.as_slice() {
                Ok(())
            } else {
                Err(GuideFault::Differs(example.line, came))
            }
        }
        Err(fault) => Err(GuideFault::Ended(example.line, fault)),
    }
}
