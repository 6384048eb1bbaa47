//! The start of a session.
ghost use Rattle.std.specs.Prelude.{◌≡◌, IfErr, IfOk, [], ◌∷◌};
ghost use Rattle.psu_hislip.specs.Channel.{Awaited, Fed};
ghost use Rattle.psu_hislip.specs.Stream.{IsStream, Received};
ghost use Rattle.psu_session.specs.declared.opening.OpeningError.TheVariants.{NotOneMessage};

use psu_hislip::{Channel, one_division};
use std::alloc::{AllocError, Global};
use std::collections::VecDeque;

/// Why a session is not opened.
#[derive(Clone, Copy, Debug, PartialEq, Eq)]
pub enum OpeningError {
    /// An allocation failed.
    Memory,
    /// What was received first is not one message.
    NotOneMessage,
}

impl From<AllocError> for OpeningError {
    ghost use Rattle.std.specs.Prelude.{◌≡◌};
    ghost use Rattle.psu_session.specs.declared.opening.OpeningError.TheVariants.{Memory};

    ghost from_gives = { λ _ error. error ≡ Memory };

    fn from(_: AllocError) -> Self {
        OpeningError::Memory
    }
}

/// Returns a channel that has received these bytes, which are one message.
pub(crate) fn opened(alloc: Global, opening: &[u8]) -> Result<Channel<Global>, OpeningError>
    ensures opened { IfOk result (λ channel. (first : Received) × Fed channel opening.now (first ∷ [])) }
    ensures refused { IfErr result (λ error. error ≡ NotOneMessage → (first : Received) → IsStream opening.now (first ∷ []) → ⊥) }
{
    one_division();
    let mut channel = Channel::new(alloc);
    let mut messages = VecDeque::new(alloc);
    channel.feed(opening, &mut messages)?;
    if messages.len() != 1 {
        return Err(OpeningError::NotOneMessage);
    }
    Ok(channel)
}
