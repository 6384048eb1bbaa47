//! Frames as they are spelled in a script: `DataEnd 1 xffffff00 *IDN?\n`.
//!
//! The words are the message type, by its name in IVI-6.1 or by its number; the control code; the message parameter, in
//! hexadecimal digits after an `x`; and the payload, whose bytes are spelled in hexadecimal after `= `. What is omitted
//! at the end is 0 or empty. A frame that is `= ` and bytes is just these bytes. Frames are separated by ` & `, and no
//! frame is `nothing`.
use psu_tables::{bytes, header, parted, written};
use std::alloc::Global;

// The message types in the order of their numbers (IVI-6.1, the table of message types).
const TYPES: &str =
    "Initialize InitializeResponse FatalError Error AsyncLock AsyncLockResponse Data DataEnd
DeviceClearComplete DeviceClearAcknowledge AsyncRemoteLocalControl AsyncRemoteLocalResponse Trigger Interrupted
AsyncInterrupted AsyncMaximumMessageSize AsyncMaximumMessageSizeResponse AsyncInitialize AsyncInitializeResponse
AsyncDeviceClear AsyncServiceRequest AsyncStatusQuery AsyncStatusResponse AsyncDeviceClearAcknowledge AsyncLockInfo
AsyncLockInfoResponse";

// Returns the number of a message type.
fn message_type(name: &str) -> Option<u8> {
    for (number, word) in TYPES.split_whitespace().enumerate() {
        if word == name {
            return u8::try_from(number).ok();
        }
    }
    name.parse().ok()
}

// Reads a number, which is 0 where there is none.
fn number(word: &str) -> Option<u32> {
    if word.is_empty() {
        return Some(0);
    }
    match word.strip_prefix("x") {
        Some(digits) => u32::from_str_radix(digits, 16).ok(),
        None => word.parse().ok(),
    }
}

// Returns the bytes of a payload.
fn payload(alloc: Global, cell: &str) -> Option<Vec<u8>> {
    match cell.strip_prefix("= ") {
        Some(spelled) => bytes(alloc, spelled),
        None => written(alloc, cell)?.as_bytes().to_vec(alloc).ok(),
    }
}

// Appends a frame with a header.
fn add_spelled(alloc: Global, all: &mut Vec<u8>, cell: &str) -> Option<()> {
    let (kind, rest) = parted(cell);
    let (control, rest) = parted(rest);
    let (parameter, rest) = parted(rest);
    let control = u8::try_from(number(control)?).ok()?;
    let payload = payload(alloc, rest)?;
    let header = header(
        message_type(kind)?,
        control,
        number(parameter)?,
        payload.len() as u64,
    );
    all.extend_from_slice(&header).ok()?;
    all.extend_from_slice(payload.as_slice()).ok()
}

/// Returns the bytes of frames; `None` where they are not spelled so, or memory is refused.
pub(crate) fn frames(alloc: Global, cell: &str) -> Option<Vec<u8>> {
    let mut all = Vec::new(alloc);
    if cell == "nothing" {
        return Some(all);
    }
    for frame in cell.split(" & ") {
        match frame.strip_prefix("= ") {
            Some(spelled) => all
                .extend_from_slice(bytes(alloc, spelled)?.as_slice())
                .ok()?,
            None => add_spelled(alloc, &mut all, frame)?,
        }
    }
    Some(all)
}
