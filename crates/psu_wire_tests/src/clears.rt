//! Device clears, responses in parts, a feed that is refused memory, and the responses to lock messages.
//!
//! In the conversations `06 .. 'A` is Data with the byte `A`, and `07 .. 'B` DataEnd with `B`, both with MessageID 2;
//! `13` is AsyncDeviceClear, answered only by its acknowledgement `17`, and `08` DeviceClearComplete, answered only by
//! `09`.
use crate::conversations::converse;
use crate::frames::{Fed, bare, feed, feed_again, is_frame, leave};
use crate::holds::holds;
use bumpalo::Bump;
use psu_hislip::{Channel, LockResponse, lock_info_response, lock_response, release_response};
use psu_locks::{Freed, Grant, Info, LockRefusal};
use std::alloc::Global;

const ANSWERS_ACROSS_CLEARS: &str = "
async 'HS 11 00*4 01 -> async 'HS 12
sync 'HS 07 00*4 02 00*7 01 'B -> execute 2/0 'B
current 2/0 -> yes
answer 2/0 'a 0a -> 'HS 07 00*4 02 00*7 02 'a 0a
async 'HS 13 -> clear, async 'HS 17
current 2/0 -> no
answer 2/0 'a 0a -> none
part 2/0 'a -> none
async 'HS 13 -> clear, async 'HS 17
current 2/0 -> no
answer 2/0 'a 0a -> none
part 2/0 'a -> none
sync 'HS 08 -> sync 'HS 09
answer 2/0 'a 0a -> none
sync 'HS 07 00*4 02 00*7 01 'B -> execute 2/2 'B
answer 2/2 'a 0a -> 'HS 07 00*4 02 00*7 02 'a 0a
";

#[test]
fn no_answer_of_before_a_clear(rt: HostRuntime) {
    converse(&rt, rt.alloc(), ANSWERS_ACROSS_CLEARS);
}

const DISCARDED: &str = "
async 'HS 11 00*4 01 -> async 'HS 12
sync 'HS 06 00*4 02 00*7 01 'A -> nothing
async 'HS 13 -> clear, async 'HS 17
sync 'HS 0c -> nothing
sync 'HS 07 01 -> nothing
sync 'HS 03 -> nothing
sync 'HS 1a -> nothing
sync 'HS c8 -> nothing
sync 'HS 04 02 -> nothing
sync 'HS 1a 00*5 01 -> nothing
sync 'HS 06 00*4 02 00*7 01 'A -> nothing
sync 'HS 07 00*4 02 00*7 01 'B -> nothing
async 'HS 04 02 -> async 'HS 03 02
sync 'HS 08 -> sync 'HS 09
sync 'HS 07 00*4 02 00*7 01 'B -> execute 2/1 'B
";

#[test]
fn a_clear_discards_all_of_its_channel(rt: HostRuntime) {
    converse(&rt, rt.alloc(), DISCARDED);
}

const FATAL_ERRORS_IN_A_CLEAR: &str = "
joined -> no
async 'HS 11 00*4 01 -> async 'HS 12
async 'HS 13 -> clear, async 'HS 17
failed -> no
sync 00 -> sync 'HS 02 01, closed
failed -> yes
joined -> yes

joined -> no
async 'HS 11 00*4 01 -> async 'HS 12
async 'HS 13 -> clear, async 'HS 17
failed -> no
sync 'HS 00 -> sync 'HS 02 03, closed
failed -> yes
joined -> yes
";

#[test]
fn a_fatal_error_in_a_clear(rt: HostRuntime) {
    converse(&rt, rt.alloc(), FATAL_ERRORS_IN_A_CLEAR);
}

// A DeviceClearComplete is answered, and the clear after it waits for none, unless Data, DataEnd or a trigger came
// between.
const COMPLETIONS: &str = "
async 'HS 11 00*4 01 -> async 'HS 12
sync 'HS 06 00*4 02 00*7 01 'A -> nothing
sync 'HS 08 -> sync 'HS 09
sync 'HS 08 -> sync 'HS 09
async 'HS 13 -> clear, async 'HS 17
sync 'HS 07 00*4 02 00*7 01 'B -> execute 2/1 'B
sync 'HS 06 00*4 02 00*7 01 'A -> nothing
sync 'HS 08 -> sync 'HS 09
sync 'HS 07 00*4 02 00*7 01 'B -> execute 2/1 'AB
sync 'HS 08 -> sync 'HS 09
sync 'HS 06 00*4 02 00*7 01 'A -> nothing
async 'HS 13 -> clear, async 'HS 17
sync 'HS 07 00*4 02 00*7 01 'B -> nothing
sync 'HS 08 -> sync 'HS 09
sync 'HS 08 -> sync 'HS 09
sync 'HS 07 00*4 02 00*7 01 'B -> execute 2/2 'B
async 'HS 13 -> clear, async 'HS 17
sync 'HS 07 00*4 02 00*7 01 'B -> nothing
sync 'HS 08 -> sync 'HS 09
sync 'HS 08 -> sync 'HS 09
sync 'HS 0c -> trigger
async 'HS 13 -> clear, async 'HS 17
sync 'HS 07 00*4 02 00*7 01 'B -> nothing
sync 'HS 08 -> sync 'HS 09
";

#[test]
fn a_completion_that_no_clear_waits_for(rt: HostRuntime) {
    converse(&rt, rt.alloc(), COMPLETIONS);
}

// The client accepts frames of 20 bytes, 4 of them payload.
const PARTS: &str = "
async 'HS 11 00*4 01 -> async 'HS 12
async 'HS 0f 00*12 08 00*7 14 -> async 'HS 10 00*12 08 00*5 01 00*2
sync 'HS 07 00*4 02 00*7 01 'B -> execute 2/0 'B
part 2/0 'abcdef -> 'HS 06 00*4 02 00*7 04 'abcd 'HS 06 00*4 02 00*7 02 'ef
part 2/0 -> 00*0
part 2/0 'ghij -> 'HS 06 00*4 02 00*7 04 'ghij
answer 2/0 'k 0a -> 'HS 07 00*4 02 00*7 02 'k 0a
";

#[test]
fn an_answer_in_parts(rt: HostRuntime) {
    converse(&rt, rt.alloc(), PARTS);
}

// Whether this is the response to a lock request.
fn is_answered(outcome: Result<Grant, LockRefusal>, response: LockResponse) -> bool {
    match lock_response(outcome) {
        Some(header) => header.bytes() == bare(5, response.code()),
        None => false,
    }
}

// Whether this is the response to a release.
fn is_release_answered(released: Result<Freed, LockRefusal>, response: LockResponse) -> bool {
    release_response(released).bytes() == bare(5, response.code())
}

// Whether this is the response to a query of the locks.
fn is_info_answered(exclusive: bool, holders: u8, control: u8) -> bool {
    let mut wanted = bare(25, control);
    wanted[7] = holders;
    lock_info_response(Info { exclusive, holders }).bytes() == wanted
}

// The control codes by their numbers in IVI-6.1.
#[test]
fn codes_of_lock_responses(rt: HostRuntime) {
    assert!(rt;
        LockResponse::Failure.code() == 0
            && LockResponse::Success.code() == 1
            && LockResponse::SharedReleased.code() == 2
            && LockResponse::Error.code() == 3
    );
}

#[test]
fn answers_of_the_locks(rt: HostRuntime) {
    assert!(rt;
        is_answered(Ok(Grant::Granted), LockResponse::Success)
            && is_answered(Ok(Grant::Failed), LockResponse::Failure)
            && lock_response(Ok(Grant::Queued)).is_none()
            && is_answered(Err(LockRefusal::AlreadyHeld), LockResponse::Error)
            && is_answered(Err(LockRefusal::Waiting), LockResponse::Error)
    );
    assert!(rt;
        is_release_answered(Ok(Freed::Exclusive), LockResponse::Success)
            && is_release_answered(Ok(Freed::Shared), LockResponse::SharedReleased)
            && is_release_answered(Err(LockRefusal::NotHeld), LockResponse::Error)
    );
    assert!(rt;
        is_info_answered(true, 2, 1)
            && is_info_answered(false, 16, 0)
            && is_info_answered(false, 0, 0)
    );
}

// Data with the byte `A`, and DataEnd with `B`.
const FRAMES: &[u8] = b"HS\x06\x00\x00\x00\x00\x02\x00\x00\x00\x00\x00\x00\x00\x01A\
HS\x07\x00\x00\x00\x00\x02\x00\x00\x00\x00\x00\x00\x00\x01B";

// Whether the two frames are fed.
fn are_both(messages: &Fed<'_>) -> bool {
    messages.len() == 2 && is_frame(messages.front(), 6, b"A") && is_frame(messages.back(), 7, b"B")
}

// Whether the frames, of which the first has begun, are refused when fed with this many bytes of an arena.
fn rest_is_refused(arena: &Bump, begun: &[u8], rest: &[u8], left: usize) -> Option<bool> {
    let mut channel = Channel::new(arena);
    if !feed(arena, &mut channel, begun)?.is_empty() {
        return None;
    }
    leave(arena, left)?;
    let (messages, refused) = feed_again(&mut channel, arena, rest)?;
    are_both(&messages).then_some(refused)
}

fn feed_is_refused(alloc: Global, begun: usize, left: usize) -> Option<bool> {
    if begun > FRAMES.len() {
        return None;
    }
    let arena = Bump::try_with_capacity(alloc, 4096).ok()?;
    rest_is_refused(&arena, &FRAMES[..begun], &FRAMES[begun..], left)
}

// Whether a feed has the right result with any memory, is refused with some and succeeds with enough.
fn is_fed_again(alloc: Global, begun: usize) -> bool {
    let mut refused = false;
    let mut whole = false;
    for left in 0..512usize {
        match feed_is_refused(alloc, begun, left) {
            Some(true) => refused = true,
            Some(false) => whole = true,
            None => return false,
        }
    }
    refused && whole
}

#[test]
fn a_refused_feed_is_fed_again(rt: HostRuntime) {
    holds(&rt, is_fed_again(rt.alloc(), 0), "nothing has come");
    holds(
        &rt,
        is_fed_again(rt.alloc(), 7),
        "half of a header has come",
    );
    holds(&rt, is_fed_again(rt.alloc(), 16), "a header has come");
}
