//! Streams of messages.
use crate::conversations::{are_bytes, converse, halves};
use crate::frames::{bare, feed};
use crate::holds::holds;
use psu_hislip::{Channel, FatalCode, First, Header, Message, MessageType, SessionCore};
use psu_tables::{bytes, row};
use std::alloc::Global;

/// Initialize with the payload `hislip0`.
const INITIALIZE: &[u8] =
    b"\x48\x53\x00\x00\x01\x00\x00\x00\x00\x00\x00\x00\x00\x00\x00\x07hislip0";

// Whether this is the message of INITIALIZE, and opens a session.
fn is_initialize(message: &Message<Global>) -> bool {
    match message {
        Message::Frame(header, payload) => header.message_type() == Some(MessageType::Initialize)
            && header.parameter == 0x0100_0000
            && header.length == 7
            && payload.as_slice() == b"hislip0".as_slice()
            && First::of(message) == First::Start,
        _ => false,
    }
}

// Whether the stream cut in two is read as one message, of which the first piece returns none unless it is the whole.
fn is_read_cut(alloc: Global, at: usize) -> Option<bool> {
    if at > INITIALIZE.len() {
        return None;
    }
    let mut channel = Channel::new(alloc);
    let before = feed(alloc, &mut channel, &INITIALIZE[..at])?;
    let after = feed(alloc, &mut channel, &INITIALIZE[at..])?;
    let (given, none) = if at == INITIALIZE.len() {
        (before, after)
    } else {
        (after, before)
    };
    Some(none.is_empty() && given.len() == 1 && is_initialize(given.front()?))
}

#[test]
fn a_stream_cut_at_every_place(rt: HostRuntime) {
    for at in 0..=INITIALIZE.len() {
        assert!(rt; is_read_cut(rt.alloc(), at) == Some(true), "at {at}");
    }
    let response = b"\x48\x53\x01\x00\x01\x00\x00\x01\x00\x00\x00\x00\x00\x00\x00\x00";
    assert!(rt; SessionCore::new(rt.alloc(), 1).response().bytes() == *response);
}

// The pieces of a stream, and the one message that each completes, or none; a blank line begins another stream.
const PIECES: &str = "
'HS 00 00 01 00*10 07 'hislip0 -> frame 'hislip0

'HT 00*13 -> nothing
00 -> bad header
'HS 00 00 01 00*10 07 'hislip0 -> nothing

'HS 06 00*10 01 00 01 -> oversize
00*4096 -> nothing
00*4096 -> nothing
00*4096 -> nothing
00*4096 -> nothing
00*4096 -> nothing
00*4096 -> nothing
00*4096 -> nothing
00*4096 -> nothing
00*4096 -> nothing
00*4096 -> nothing
00*4096 -> nothing
00*4096 -> nothing
00*4096 -> nothing
00*4096 -> nothing
00*4096 -> nothing
00*4096 -> nothing
00 -> nothing
'HS 00 00 01 00*10 07 'hislip0 -> frame 'hislip0
'HS 06 00*5 ff*8 -> oversize
'HS 00 00 01 00*10 07 'hislip0 -> nothing
";

// Whether a message is the one of a cell.
fn is_message(alloc: Global, message: &Message<Global>, cell: &str) -> bool {
    let (word, payload_cell) = halves(cell);
    match message {
        Message::Frame(_, payload) => word == "frame" && are_bytes(alloc, payload, payload_cell),
        Message::Oversize(_) => cell == "oversize",
        Message::BadHeader => cell == "bad header",
    }
}

// Whether a piece completes what its row says.
fn ends(alloc: Global, channel: &mut Channel<Global>, line: &str) -> Option<bool> {
    let (piece, wanted) = row(line)?;
    let messages = feed(alloc, channel, &bytes(alloc, piece)?)?;
    match messages.front() {
        Some(message) => Some(messages.len() == 1 && is_message(alloc, message, wanted)),
        None => Some(wanted == "nothing"),
    }
}

#[test]
fn pieces_of_streams(rt: HostRuntime) {
    let alloc = rt.alloc();
    let mut channel = Channel::new(alloc);
    for line in PIECES.lines() {
        if line.is_empty() {
            channel = Channel::new(alloc);
        } else {
            holds(&rt, ends(alloc, &mut channel, line) == Some(true), line);
        }
    }
}

#[test]
fn bytes_that_are_no_header(rt: HostRuntime) {
    let mut bad = bare(0, 0);
    bad[1] = b'T';
    assert!(rt; Header::read(&bad).is_none());
    let code = FatalCode::PoorlyFormedHeader.code();
    let fault = Header::new(MessageType::FatalError, code, 0, 0);
    assert!(rt; fault.bytes() == bare(2, 1));
}

// A frame of the maximum length.
const AN_OVERSIZE_FRAME: &str = "
async 'HS 11 00*4 01 -> async 'HS 12
sync 'HS 06 00*5 ff*8 -> sync 'HS 03 04
";

#[test]
fn an_oversize_frame_is_passed_over(rt: HostRuntime) {
    converse(&rt, rt.alloc(), AN_OVERSIZE_FRAME);
}
