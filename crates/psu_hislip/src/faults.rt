//! The faults of a message.
ghost use Rattle.std.specs.Prelude.{◌≡◌};
ghost use Rattle.psu_hislip.specs.Stream.{received};
ghost use Rattle.psu_hislip.specs.Core.{takes, ill_formed, error};

use crate::{ErrorCode, Header, Message, MessageType, Side};
use std::alloc::Allocator;

/// The lowest code of a vendor-defined message type.
const FIRST_VENDOR_TYPE: u8 = 128;

// Whether a channel accepts a message type.
fn takes(side: Side, kind: MessageType) -> bool
    ensures { result ≡ takes side kind }
{
    match side {
        Side::Sync => matches!(
            kind,
            MessageType::Data
                | MessageType::DataEnd
                | MessageType::DeviceClearComplete
                | MessageType::Trigger
        ),
        Side::Async => matches!(
            kind,
            MessageType::AsyncInitialize
                | MessageType::AsyncLock
                | MessageType::AsyncLockInfo
                | MessageType::AsyncRemoteLocalControl
                | MessageType::AsyncMaximumMessageSize
                | MessageType::AsyncDeviceClear
                | MessageType::AsyncStatusQuery
        ),
    }
}

// The error in the control code or the payload of a message of this type, if there is one.
fn ill_formed(kind: MessageType, header: Header, payload: &[u8]) -> Option<ErrorCode>
    ensures { result ≡ ill_formed kind header payload.now }
{
    match kind {
        MessageType::AsyncLock if header.control > 1 => Some(ErrorCode::UnrecognizedControl),
        MessageType::AsyncRemoteLocalControl if header.control > 6 => Some(
            ErrorCode::UnrecognizedControl,
        ),
        MessageType::AsyncMaximumMessageSize if payload.len() != 8 => Some(ErrorCode::Unidentified),
        _ => None,
    }
}

/// Returns the error for which a message is ignored without ending the session, if there is one.
pub(crate) fn error<A: Allocator + Copy>(side: Side, message: &Message<A>) -> Option<ErrorCode>
    ensures { result ≡ error side (received message.now) }
{
    match message {
        Message::BadHeader => None,
        Message::Oversize(_) => Some(ErrorCode::TooLarge),
        Message::Frame(header, _) if header.kind >= FIRST_VENDOR_TYPE => Some(
            ErrorCode::UnrecognizedVendorType,
        ),
        Message::Frame(header, payload) => match header.message_type() {
            Some(kind) if takes(side, kind) => ill_formed(kind, *header, payload),
            _ => Some(ErrorCode::UnrecognizedType),
        },
    }
}
