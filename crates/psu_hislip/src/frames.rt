//! The bytes of messages that are sent.
ghost use Rattle.std.specs.Prelude.{◌≡◌, ◌++◌, [], ◌∷◌, OnOk};
ghost use Rattle.psu_hislip.specs.Header.{header_bytes};
ghost use Rattle.psu_hislip.specs.Frame.{frame_bytes};
ghost use Rattle.psu_hislip.specs.Action.{act, acts};
ghost use Rattle.psu_hislip.specs.Action.Act.{Send};
ghost use Rattle.psu_hislip.specs.Core.{reply};

use crate::{Action, Actions, Header, MessageType, Side};
use arrayvec::ArrayVec;
use std::alloc::{AllocError, Allocator};

/// Appends a message with control code 0 to the bytes to send.
pub(crate) fn put_frame<A: Allocator + Copy>(
    bytes: &mut Vec<u8, A>,
    kind: MessageType,
    parameter: u32,
    payload: &[u8],
) -> Result<(), AllocError>
    ensures { OnOk result (bytes.new.items ≡ bytes.old.items ++ frame_bytes kind 0 parameter payload.now) }
{
    let header = Header::new(kind, 0, parameter, payload.len() as u64).bytes();
    // The room of the whole frame, so that a response of one frame allocates once, and no more than its size.
    bytes.reserve(header.len() + payload.len())?;
    bytes.extend_from_slice(&header)?;
    bytes.extend_from_slice(payload)
}

/// Returns the action that sends a message without payload.
pub(crate) fn send<A: Allocator + Copy>(side: Side, header: Header) -> Action<A>
    ensures { act result ≡ Send side (header_bytes header) }
{
    let mut bytes = ArrayVec::new();
    bytes.try_extend_from_slice(&header.bytes()).unwrap();
    Action::Send(side, bytes)
}

/// Returns the action that sends a message without control code and parameter, with a payload of 8 bytes.
pub(crate) fn send_with<A: Allocator + Copy>(
    side: Side,
    kind: MessageType,
    payload: &[u8; 8],
) -> Action<A>
    ensures { act result ≡ Send side (frame_bytes kind 0 0 payload.now) }
{
    let header = Header::new(kind, 0, 0, payload.len() as u64);
    let mut bytes = ArrayVec::new();
    bytes.try_extend_from_slice(&header.bytes()).unwrap();
    bytes.try_extend_from_slice(payload).unwrap();
    Action::Send(side, bytes)
}

/// Returns the action that sends a message without parameter and payload.
pub(crate) fn reply<A: Allocator + Copy>(side: Side, kind: MessageType, control: u8) -> Action<A>
    ensures { act result ≡ reply side kind control }
{
    send(side, Header::new(kind, control, 0, 0))
}

/// Returns a list of this one action.
pub(crate) fn one<A: Allocator + Copy>(action: Action<A>) -> Actions<A>
    ensures { acts result.items ≡ act action ∷ [] }
{
    let mut actions = ArrayVec::new();
    actions.push(action);
    actions
}

/// Returns a list of these two actions.
pub(crate) fn two<A: Allocator + Copy>(first: Action<A>, second: Action<A>) -> Actions<A>
    ensures { acts result.items ≡ act first ∷ act second ∷ [] }
{
    ArrayVec::from([first, second])
}
