//! Each allocation of a feed, of a message and of a response is refused in turn: nothing has changed.
use crate::frames::{bare, feed, feed_again, is_frame, leave, origin};
use crate::holds::holds;
use bumpalo::Bump;
use psu_hislip::{Action, Channel, Message, SessionCore, Side};
use std::alloc::Global;

/// AsyncInitialize for session 1.
const JOIN: &[u8] = b"HS\x11\x00\x00\x00\x00\x01\x00\x00\x00\x00\x00\x00\x00\x00";

/// Data with the bytes `*ID`.
const BEGIN: &[u8] = b"HS\x06\x00\x00\x00\x00\x02\x00\x00\x00\x00\x00\x00\x00\x03*ID";

/// DataEnd with the bytes `N?` and NL; the client has read the last response.
const END: &[u8] = b"HS\x07\x01\x00\x00\x00\x02\x00\x00\x00\x00\x00\x00\x00\x03N?\n";

/// The one frame of the response `a` and NL.
const ANSWER: &[u8] = b"HS\x07\x00\x00\x00\x00\x02\x00\x00\x00\x00\x00\x00\x00\x02a\n";

// Whether a feed is refused with this many bytes of an arena; `None` where its result is wrong.
fn feed_is_refused(arena: &Bump, left: usize) -> Option<bool> {
    leave(arena, left)?;
    let mut channel = Channel::new(arena);
    let (messages, refused) = feed_again(&mut channel, arena, END)?;
    is_frame(messages.front(), 7, b"N?\n").then_some(refused)
}

// Returns the one message of a stream, with memory of an arena.
fn message<'a>(arena: &'a Bump, stream: &[u8]) -> Option<Message<&'a Bump>> {
    feed(arena, &mut Channel::new(arena), stream)?.pop_front()
}

// Whether a message is accepted.
fn takes<'a>(core: &mut SessionCore<&'a Bump>, arena: &'a Bump, side: Side, stream: &[u8]) -> bool {
    match message(arena, stream) {
        Some(message) => core.on(side, message).is_ok(),
        None => false,
    }
}

// Whether the transmission that BEGIN began is executed completely.
fn is_whole(actions: &[Action<&Bump>]) -> bool {
    match (actions.first(), actions.last()) {
        (Some(Action::Delivered), Some(Action::Execute(origin, bytes))) => origin.id == 2
            && bytes.as_slice() == b"*IDN?\n".as_slice(),
        _ => false,
    }
}

// Whether that transmission is refused as END comes; `None` where it is executed, but not completely.
fn end_is_refused<'a>(core: &mut SessionCore<&'a Bump>, end: Message<&'a Bump>) -> Option<bool> {
    match core.on(Side::Sync, end) {
        Ok(actions) => is_whole(&actions).then_some(false),
        Err(_) => Some(true),
    }
}

// Returns the core of a session that is joined and has received BEGIN.
fn begun<'a>(arena: &'a Bump) -> Option<SessionCore<&'a Bump>> {
    let mut core = SessionCore::new(arena, 1);
    if !takes(&mut core, arena, Side::Async, JOIN) || !takes(&mut core, arena, Side::Sync, BEGIN) {
        return None;
    }
    Some(core)
}

// Whether the second message of a transmission is refused with this many bytes: it is executed at once, or when it
// comes again.
fn second_is_refused(arena: &Bump, left: usize) -> Option<bool> {
    let mut core = begun(arena)?;
    let end = message(arena, END)?;
    leave(arena, left)?;
    if !end_is_refused(&mut core, end)? {
        return Some(false);
    }
    arena.set_allocation_limit(None);
    let again = message(arena, END)?;
    (end_is_refused(&mut core, again) == Some(false)).then_some(true)
}

// Whether messages that need no memory are accepted with none left: the first bytes of a transmission, and those whose
// response is sent at once.
fn need_no_memory(alloc: Global) -> Option<bool> {
    let arena = Bump::try_with_capacity(alloc, 4096).ok()?;
    let mut core = SessionCore::new(&arena, 1);
    let join = message(&arena, JOIN)?;
    let begin = message(&arena, BEGIN)?;
    let clear = message(&arena, &bare(19, 0))?;
    leave(&arena, 0)?;
    Some(
        core.on(Side::Async, join).is_ok()
            && core.on(Side::Sync, begin).is_ok()
            && core.on(Side::Async, clear).is_ok(),
    )
}

#[test]
fn messages_that_need_no_memory(rt: HostRuntime) {
    assert!(rt; need_no_memory(rt.alloc()) == Some(true));
}

// Whether the frames are those of the response.
fn is_answer(frames: &Option<Vec<u8, &Bump>>) -> bool {
    match frames {
        Some(frames) => frames.as_slice() == ANSWER,
        None => false,
    }
}

// Whether a core is refused memory for its response; `None` where that is another one.
fn refuses_answer<'a>(core: &SessionCore<&'a Bump>) -> Option<bool> {
    match core.answer(origin(2), b"a\n") {
        Ok(frames) => is_answer(&frames).then_some(false),
        Err(_) => Some(true),
    }
}

// Whether a response is refused with this many bytes of an arena; `None` where it is another one.
fn answer_is_refused(arena: &Bump, left: usize) -> Option<bool> {
    leave(arena, left)?;
    refuses_answer(&SessionCore::new(arena, 1))
}

// Whether the step with this name is refused with this many bytes; `None` where its result is wrong.
fn is_refused(alloc: Global, step: &str, left: usize) -> Option<bool> {
    let arena = Bump::try_with_capacity(alloc, 4096).ok()?;
    match step {
        "feed" => feed_is_refused(&arena, left),
        "second message" => second_is_refused(&arena, left),
        _ => answer_is_refused(&arena, left),
    }
}

// Whether a step has the right result with any memory, is refused with some and succeeds with enough.
fn is_done_again(alloc: Global, step: &str) -> bool {
    let mut refused = false;
    let mut whole = false;
    for words in 0..128usize {
        match is_refused(alloc, step, words * 4) {
            Some(true) => refused = true,
            Some(false) => whole = true,
            None => return false,
        }
    }
    refused && whole
}

#[test]
fn each_allocation_of_frames_refused(rt: HostRuntime) {
    holds(&rt, is_done_again(rt.alloc(), "feed"), "feed");
    holds(
        &rt,
        is_done_again(rt.alloc(), "second message"),
        "second message",
    );
    holds(&rt, is_done_again(rt.alloc(), "answer"), "answer");
}
