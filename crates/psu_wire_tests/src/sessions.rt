//! Messages of a session.
use crate::conversations::{converse, message};
use crate::frames::feed;
use crate::holds::holds;
use psu_hislip::{Channel, FatalCode, First};
use psu_tables::row;
use std::alloc::Global;

const ERRORS: &str = "
async 'HS 11 00*4 01 -> async 'HS 12
sync 'HS c8 00*5 01 -> sync 'HS 03 04
async 'HS 04 02 00*4 01 -> async 'HS 03 04
sync 'HS c8 -> sync 'HS 03 03
async 'HS 80 -> async 'HS 03 03
sync 'HS 1a -> sync 'HS 03 01
async 'HS 7f -> async 'HS 03 01
sync 'HS 04 02 -> sync 'HS 03 01
async 'HS 06 -> async 'HS 03 01
async 'HS 03 -> async 'HS 03 01
async 'HS 04 02 -> async 'HS 03 02
async 'HS 0a 07 -> async 'HS 03 02
async 'HS 0f -> async 'HS 03 00
";

#[test]
fn every_error_in_its_order(rt: HostRuntime) {
    converse(&rt, rt.alloc(), ERRORS);
}

// A message ends the session, joined or not, and each later message finds it closed.
const FATAL_ERRORS: &str = "
async 'HS 11 00*4 01 -> async 'HS 12
sync 00 -> sync 'HS 02 01, closed
sync 'HS 0c -> closed
async 'HS 15 -> closed

sync 00 -> sync 'HS 02 01, closed
sync 'HS 0c -> closed
async 'HS 15 -> closed

sync 'HS 06 -> sync 'HS 02 02, closed
sync 'HS 0c -> closed
async 'HS 15 -> closed

sync 'HS 11 -> sync 'HS 02 02, closed
sync 'HS 0c -> closed
async 'HS 15 -> closed

sync 'HS c8 00*5 01 -> sync 'HS 02 02, closed
sync 'HS 0c -> closed
async 'HS 15 -> closed

async 'HS 15 -> async 'HS 02 03, closed
sync 'HS 0c -> closed
async 'HS 15 -> closed

async 'HS 11 -> async 'HS 02 03, closed
sync 'HS 0c -> closed
async 'HS 15 -> closed

async 'HS 11 00*4 01 -> async 'HS 12
async 'HS 11 -> async 'HS 02 03, closed
sync 'HS 0c -> closed
async 'HS 15 -> closed

async 'HS 11 00*4 01 -> async 'HS 12
sync 'HS 00 -> sync 'HS 02 03, closed
sync 'HS 0c -> closed
async 'HS 15 -> closed

async 'HS 11 00*4 01 -> async 'HS 12
sync 'HS 00 00*5 01 -> sync 'HS 02 03, closed
sync 'HS 0c -> closed
async 'HS 15 -> closed
";

#[test]
fn every_fatal_error_in_its_order(rt: HostRuntime) {
    converse(&rt, rt.alloc(), FATAL_ERRORS);
}

// Frames of 32,768 bytes: a transmission of three is too long, and none of it is kept for the next.
const FRAMES: &str = "
async 'HS 11 00*4 01 -> async 'HS 12
sync 'HS 06 01 00*10 80 00 20*32768 -> delivered
sync 'HS 06 01 00*10 80 00 20*32768 -> delivered
sync 'HS 07 03 00*3 09 -> delivered, execute 9/0 20*65536
sync 'HS 06 01 00*10 80 00 20*32768 -> delivered
sync 'HS 06 01 00*10 80 00 20*32768 -> delivered
sync 'HS 07 03 00*3 09 -> delivered, execute 9/0 20*65536
sync 'HS 06 01 00*10 80 00 20*32768 -> delivered
sync 'HS 06 01 00*10 80 00 20*32768 -> delivered
sync 'HS 06 01 00*10 80 00 20*32768 -> delivered
sync 'HS 07 03 00*3 09 -> delivered, too-much
sync 'HS 06 01 00*10 80 00 20*32768 -> delivered
sync 'HS 07 03 00*3 09 -> delivered, execute 9/0 20*32768
";

#[test]
fn a_transmission_of_several_frames(rt: HostRuntime) {
    converse(&rt, rt.alloc(), FRAMES);
}

const CLEARS: &str = "
async 'HS 11 00*4 01 -> async 'HS 12
sync 'HS 06 01 00*11 01 'A -> delivered
async 'HS 13 -> clear, async 'HS 17
sync 'HS 06 01 00*11 01 'A -> nothing
sync 'HS 07 00*12 01 'B -> nothing
sync 'HS 0c -> nothing
async 'HS 13 -> clear, async 'HS 17
sync 'HS 06 01 00*11 01 'A -> nothing
sync 'HS 07 00*12 01 'B -> nothing
sync 'HS 0c -> nothing
sync 'HS 03 -> nothing
sync 'HS 08 -> sync 'HS 09
sync 'HS 07 00*12 01 'B -> execute 0/2 'B
sync 'HS 06 01 00*11 01 'A -> delivered
sync 'HS 08 -> sync 'HS 09
async 'HS 13 -> clear, async 'HS 17
sync 'HS 07 00*12 01 'B -> execute 0/3 'B
";

#[test]
fn a_device_clear_in_each_order(rt: HostRuntime) {
    converse(&rt, rt.alloc(), CLEARS);
}

// A lock's string has at most 256 bytes.
const LOCKS: &str = "
async 'HS 11 00*4 01 -> async 'HS 12
async 'HS 04 01 00*2 01 -> lock 256
async 'HS 04 01 00*2 01 00*7 01 00 6b*256 -> lock 256 6b*256
async 'HS 04 01 00*2 01 00*7 01 01 6b*257 -> async 'HS 05 03
async 'HS 04 -> release
async 'HS 18 -> info
async 'HS 0a -> async 'HS 0b
async 'HS 0a 06 -> async 'HS 0b
sync 'HS 0c 01 -> trigger
";

#[test]
fn locks_and_the_rest_of_the_types(rt: HostRuntime) {
    converse(&rt, rt.alloc(), LOCKS);
}

// First messages of a connection, and what each requests.
const FIRST_MESSAGES: &str = "
'HS 00 00 01 00*10 07 'hislip0 -> start
'HS 00 00 01 -> start
'HS 15 -> refused 3
'HS 11 00 02 -> join 33554432
'HT -> refused 1
'HS 06 00*5 ff*8 -> refused 3
";

// Returns what the first message of a connection requests.
fn first(alloc: Global, cell: &str) -> Option<First> {
    let messages = feed(alloc, &mut Channel::new(alloc), &message(alloc, cell)?)?;
    Some(First::of(messages.front()?))
}

// Whether a first message requests what its row says.
fn comes_first(alloc: Global, line: &str) -> Option<bool> {
    let (cell, wanted) = row(line)?;
    match first(alloc, cell)? {
        First::Start => Some(wanted == "start"),
        First::Join(session) => Some(wanted.strip_prefix("join ")?.parse() == Ok(session)),
        First::Refused(code) => Some(wanted.strip_prefix("refused ")?.parse() == Ok(code.code())),
    }
}

#[test]
fn first_messages(rt: HostRuntime) {
    for line in FIRST_MESSAGES.lines() {
        holds(
            &rt,
            line.is_empty() || comes_first(rt.alloc(), line) == Some(true),
            line,
        );
    }
    assert!(rt; FatalCode::TooManyClients.code() == 4);
}
