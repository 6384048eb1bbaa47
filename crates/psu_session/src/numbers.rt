//! The numbers of messages.
ghost use Rattle.std.specs.Prelude.{◌≡◌};
ghost use Rattle.std.specs.List.{list_any};
ghost use Rattle.psu_hislip.specs.Action.{act, acts};
ghost use Rattle.psu_hislip.specs.Stream.{received};
ghost use Rattle.psu_session.specs.Numbers.{clears, is_ahead, is_clear, number, number_on, parameter};

use crate::limits::AHEAD_MOST;
use psu_hislip::{Action, Message, MessageType, Side};
use std::alloc::Global;

/// The number before that of a client's first message (IVI-6.1: they begin at ffffff00, in steps of 2).
pub(crate) const BEFORE_FIRST: u32 = 0xffff_fefe;

// Returns the number of a message of the synchronous channel, if it has one. Numbers restart after a device clear.
fn number(message: &Message<Global>) -> Option<u32>
    ensures { result ≡ number (received message.now) }
{
    let (Message::Frame(header, _) | Message::Oversize(header)) = message else {
        return None;
    };
    match header.message_type()? {
        MessageType::Data | MessageType::DataEnd | MessageType::Trigger => Some(header.parameter),
        MessageType::DeviceClearComplete => Some(BEFORE_FIRST),
        _ => None,
    }
}

/// Returns the number that counts as received with a message, if it has one.
pub(crate) fn number_on(side: Side, message: &Message<Global>) -> Option<u32>
    ensures { result ≡ number_on side (received message.now) }
{
    match side {
        Side::Sync => number(message),
        Side::Async => None,
    }
}

/// Returns the parameter of a message.
pub(crate) fn parameter(message: &Message<Global>) -> u32
    ensures { result ≡ parameter (received message.now) }
{
    match message {
        Message::Frame(header, _) | Message::Oversize(header) => header.parameter,
        Message::BadHeader => 0,
    }
}

/// Whether a message is still to be received: its number is one of the next 65,536 after that of the last message that
/// was received.
pub(crate) fn is_ahead(last: u32, number: u32) -> bool
    ensures { result ≡ is_ahead last number }
{
    let steps = number.wrapping_sub(last);
    steps > 0 && steps <= AHEAD_MOST
}

// Whether an action is a device clear.
fn is_clear(action: &Action<Global>) -> bool
    ensures { result ≡ is_clear (act action.now) }
{
    matches!(action, Action::Clear)
}

// Whether one of these actions is a device clear.
fn has_clear(actions: &[Action<Global>]) -> bool
    ensures { result ≡ list_any (λ action. is_clear (act action)) actions.now }
{
    actions.iter().any(is_clear)
}

/// Whether a device clear is among the actions of a message. It begins before anything else is done for the message.
pub(crate) fn clears(actions: &[Action<Global>]) -> bool
    ensures { result ≡ clears (acts actions.now) }
{
    has_clear(actions)
}
