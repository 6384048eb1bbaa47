//! The messages of a piece.
ghost use Rattle.std.specs.Prelude.{◌≡◌, ◌++◌, List, IfOk};
ghost use Rattle.psu_hislip.specs.Rest.{awaited, IsRest, IsCutOf};
ghost use Rattle.psu_hislip.specs.declared.message.Message as declared;

use crate::Message;
use crate::rest::Rest;
use crate::step::Step;
use std::alloc::{AllocError, Allocator};
use std::collections::VecDeque;

/// Appends the messages that end in the next piece of the stream, and returns what has been received of the one after
/// them.
///
/// Where allocation fails, the list may contain some of the messages of the piece.
pub(crate) fn decode<A: Allocator + Copy>(
    alloc: A,
    messages: &mut VecDeque<Message<A>, A>,
    rest: Rest<A>,
    piece: &[u8],
) -> Result<Rest<A>, AllocError>
    requires { IsRest rest }
    ensures rest { IfOk result (λ next. IsRest next) }
    ensures messages { IfOk result (λ next. IsCutOf messages.old.items (awaited rest) piece.now messages.new.items (awaited next)) }
    ensures appended { (more : List (declared.Message A)) × (messages.new.items ≡ messages.old.items ++ more) }
{
    let mut rest = rest;
    let mut left = piece;
    while !left.is_empty() {
        let Step {
            used,
            message,
            rest: next,
        } = Step::take(alloc, rest, left)?;
        if let Some(message) = message {
            messages.push_back(message)?;
        }
        left = &left[used..];
        rest = next;
    }
    Ok(rest)
}
