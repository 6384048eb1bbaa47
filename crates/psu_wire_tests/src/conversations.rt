//! Conversations of a session, as tables: one row a line, a step of the session and its result; a blank line begins a
//! new session.
//!
//! A message is a step, given as `sync` or `async` and its bytes, padded with zeros to the 16 of a header. Its result is
//! what it requests, in order, or `nothing`. A command's place in the session is its MessageID and the clears before it,
//! as in `2/0`; the result of an `answer` to it or a `part` of one is frames, or `none`; `current`, `joined` and
//! `failed` query the session, with the result `yes` or `no`.
use crate::frames::feed;
use crate::holds::holds;
use psu_hislip::{Action, Actions, Channel, Origin, SessionCore, Side};
use psu_tables::{bytes, row};
use std::alloc::Global;
use std::process::Abort;

/// Returns the bytes of a message, padded with zeros to the 16 of a header.
pub(crate) fn message(alloc: Global, cell: &str) -> Option<Vec<u8>> {
    let mut message = bytes(alloc, cell)?;
    for _ in message.len()..16 {
        message.push(0).ok()?;
    }
    Some(message)
}

/// Whether these are the bytes of a cell.
pub(crate) fn are_bytes(alloc: Global, given: &[u8], cell: &str) -> bool {
    match bytes(alloc, cell) {
        Some(wanted) => wanted.as_slice() == given,
        None => false,
    }
}

// Whether these are the bytes of a cell's message.
fn is_message(alloc: Global, given: &[u8], cell: &str) -> bool {
    match message(alloc, cell) {
        Some(wanted) => wanted.as_slice() == given,
        None => false,
    }
}

/// Returns the two cells of a text with a space between them; the second is empty where there is none.
pub(crate) fn halves(cell: &str) -> (&str, &str) {
    match cell.split_once(" ") {
        Some(halves) => halves,
        None => (cell, ""),
    }
}

// Reads the place of a command in its session.
fn place(cell: &str) -> Option<Origin> {
    let (id, clears) = cell.split_once("/")?;
    Some(Origin {
        id: id.parse().ok()?,
        clears: clears.parse().ok()?,
    })
}

// Whether the command at this place has this text.
fn is_command(alloc: Global, origin: Origin, text: &[u8], cell: &str) -> bool {
    let (at, text_cell) = halves(cell);
    place(at) == Some(origin) && are_bytes(alloc, text, text_cell)
}

// Whether a lock is the one with this string and this timeout.
fn is_lock(alloc: Global, milliseconds: u32, string: &[u8], cell: &str) -> bool {
    let (wait, string_cell) = halves(cell);
    wait.parse() == Ok(milliseconds) && are_bytes(alloc, string, string_cell)
}

// Returns the word for an action.
fn called(action: &Action<Global>) -> &'static str {
    match action {
        Action::Send(Side::Sync, _) => "sync",
        Action::Send(Side::Async, _) => "async",
        Action::Execute(..) => "execute",
        Action::TooMuch(_) => "too-much",
        Action::Trigger(_) => "trigger",
        Action::Delivered => "delivered",
        Action::Status(_) => "status",
        Action::Lock(..) => "lock",
        Action::Release => "release",
        Action::Info => "info",
        Action::Clear => "clear",
        Action::Closed => "closed",
    }
}

// Whether the parameters of an action are those of a cell.
fn has(alloc: Global, action: &Action<Global>, cell: &str) -> bool {
    match action {
        Action::Send(_, bytes) => is_message(alloc, bytes, cell),
        Action::Execute(at, text) => is_command(alloc, *at, text, cell),
        Action::Status(read) => cell == yes_or_no(*read),
        Action::Lock(wait, string) => is_lock(alloc, *wait, string, cell),
        _ => cell.is_empty(),
    }
}

// Whether an action is the one of a cell.
fn is_asked(alloc: Global, action: &Action<Global>, cell: &str) -> bool {
    let (word, rest) = halves(cell);
    word == called(action) && has(alloc, action, rest)
}

// Whether the actions are those of a cell, in order.
fn are_these(alloc: Global, actions: &[Action<Global>], cell: &str) -> bool {
    if cell == "nothing" {
        return actions.is_empty();
    }
    let mut cells = cell.split(", ");
    for action in actions {
        match cells.next() {
            Some(cell) if is_asked(alloc, action, cell) => {}
            _ => return false,
        }
    }
    cells.next().is_none()
}

// Returns the actions that a message requests.
fn actions_of(
    alloc: Global,
    core: &mut SessionCore<Global>,
    side: Side,
    cell: &str,
) -> Option<Actions<Global>> {
    let mut messages = feed(alloc, &mut Channel::new(alloc), &message(alloc, cell)?)?;
    core.on(side, messages.pop_front()?).ok()
}

fn asks(
    alloc: Global,
    core: &mut SessionCore<Global>,
    side: Side,
    cell: &str,
    wanted: &str,
) -> bool {
    match actions_of(alloc, core, side, cell) {
        Some(actions) => are_these(alloc, &actions, wanted),
        None => false,
    }
}

// Whether the frames, if there are any, are those of a cell.
fn are_frames(alloc: Global, frames: Option<Vec<u8>>, cell: &str) -> bool {
    match frames {
        Some(frames) => are_bytes(alloc, &frames, cell),
        None => cell == "none",
    }
}

// Whether the response to a command, whole or its last part, is the wanted one.
fn answers(alloc: Global, core: &SessionCore<Global>, cell: &str, wanted: &str) -> Option<bool> {
    let (at, text) = halves(cell);
    let text = bytes(alloc, text)?;
    let frames = core.answer(place(at)?, &text).ok()?;
    Some(are_frames(alloc, frames, wanted))
}

// Whether a part of a response that continues is the wanted one.
fn parts(alloc: Global, core: &SessionCore<Global>, cell: &str, wanted: &str) -> Option<bool> {
    let (at, text) = halves(cell);
    let text = bytes(alloc, text)?;
    let frames = core.part(place(at)?, &text).ok()?;
    Some(are_frames(alloc, frames, wanted))
}

fn yes_or_no(is: bool) -> &'static str {
    if is { "yes" } else { "no" }
}

// Returns the session's answer to a query.
fn says(core: &SessionCore<Global>, word: &str, cell: &str) -> Option<&'static str> {
    match word {
        "current" => Some(yes_or_no(core.is_current(place(cell)?))),
        "joined" => Some(yes_or_no(core.is_joined())),
        "failed" => Some(yes_or_no(core.is_failed())),
        _ => None,
    }
}

// Whether the result of a step is the one of its row.
fn results_in(alloc: Global, core: &mut SessionCore<Global>, step: &str, wanted: &str) -> bool {
    let (word, rest) = halves(step);
    match word {
        "sync" => asks(alloc, core, Side::Sync, rest, wanted),
        "async" => asks(alloc, core, Side::Async, rest, wanted),
        "answer" => answers(alloc, core, rest, wanted) == Some(true),
        "part" => parts(alloc, core, rest, wanted) == Some(true),
        _ => says(core, word, rest) == Some(wanted),
    }
}

// Makes the step of a line, and returns whether its result is the row's; `None` where the line is not a row.
fn step(alloc: Global, core: &mut SessionCore<Global>, line: &str) -> Option<bool> {
    let (step, wanted) = row(line)?;
    Some(results_in(alloc, core, step, wanted))
}

/// Checks that the result of each step of some conversations is the one of its row.
pub(crate) fn converse(rt: &impl Abort, alloc: Global, table: &str) {
    let mut core = SessionCore::new(alloc, 1);
    for line in table.lines() {
        if line.is_empty() {
            core = SessionCore::new(alloc, 1);
        } else {
            holds(rt, step(alloc, &mut core, line) == Some(true), line);
        }
    }
}
