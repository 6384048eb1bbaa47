//! Texts as they are spelled in a row: `\n` is NL, `{a*64}` is 64 a, and `nothing` is the empty text.
use psu_exec::ScpiError;
use psu_messages::Input;
use psu_tables::written;
use std::alloc::Global;

/// Returns the bytes of a cell; `None` where it isn't well-formed, or memory is refused.
pub(crate) fn spelled(alloc: Global, cell: &str) -> Option<Vec<u8, Global>> {
    if cell == "nothing" {
        return Some(Vec::new(alloc));
    }
    written(alloc, cell)?.as_bytes().to_vec(alloc).ok()
}

/// Returns what is to be executed: a text, or a fault in place of one.
pub(crate) fn input(alloc: Global, cell: &str) -> Option<Input<Global>> {
    match cell {
        "!too long" => Some(Input::Fault(ScpiError::TooMuchData)),
        "!trigger" => Some(Input::Fault(ScpiError::TriggerIgnored)),
        _ => Some(Input::Text(spelled(alloc, cell)?)),
    }
}
