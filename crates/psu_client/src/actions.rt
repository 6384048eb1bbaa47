//! The steps of a script, each by its word and the text after it.
use crate::client::Client;
use crate::long_answer::{ask_much, is_drained, repeated};
use crate::missed::{Missed, holds};
use crate::wire::{expect_bytes, is_ended, is_held_back, is_silent, send};
use psu_tables::{bytes, parted, row, written};
use std::alloc::Global;
use std::net::TcpStream;
use std::time::{Clock, Duration, Instant};

/// The fault of a line that is not a step.
pub(crate) const UNREAD: Missed = Missed::Ground("a step");

/// Reads a number in a step.
pub(crate) fn number(word: &str) -> Result<u32, Missed> {
    match word.parse() {
        Ok(number) => Ok(number),
        Err(_) => Err(UNREAD),
    }
}

// Reads a byte in a step, as two hexadecimal digits.
fn byte(word: &str) -> Result<u8, Missed> {
    match u8::from_str_radix(word, 16) {
        Ok(byte) => Ok(byte),
        Err(_) => Err(UNREAD),
    }
}

// Reads bytes in a step, as tables spell them.
fn spelled(alloc: Global, cell: &str) -> Result<Vec<u8>, Missed> {
    match bytes(alloc, cell) {
        Some(bytes) => Ok(bytes),
        None => Err(UNREAD),
    }
}

// Reads a text in a step.
fn text(alloc: Global, cell: &str) -> Result<String, Missed> {
    match written(alloc, cell) {
        Some(text) => Ok(text),
        None => Err(UNREAD),
    }
}

// Sends bytes, repeated this many times, again and again until they are no longer accepted.
fn floods(stream: &mut TcpStream, alloc: Global, rest: &str) -> Result<(), Missed> {
    let (count, cell) = parted(rest);
    let bytes = spelled(alloc, cell)?;
    match repeated(alloc, bytes.as_slice(), number(count)?) {
        Ok(frames) => is_held_back(stream, frames.as_slice()),
        Err(_) => Err(Missed::Ground("memory")),
    }
}

/// Makes a step of a connection.
pub(crate) fn stream_does(
    stream: &mut TcpStream,
    alloc: Global,
    word: &str,
    rest: &str,
) -> Result<(), Missed> {
    match word {
        "sends" => send(stream, spelled(alloc, rest)?.as_slice()),
        "gets" => expect_bytes(stream, spelled(alloc, rest)?.as_slice()),
        "floods" => floods(stream, alloc, rest),
        "silent" => is_silent(stream),
        "ends" => is_ended(stream),
        _ => Err(UNREAD),
    }
}

fn says(client: &mut Client, alloc: Global, cell: &str) -> Result<(), Missed> {
    client.say(text(alloc, cell)?.as_bytes())
}

fn continues(client: &mut Client, alloc: Global, cell: &str) -> Result<(), Missed> {
    client.say_on(text(alloc, cell)?.as_bytes())
}

fn hears(client: &mut Client, alloc: Global, cell: &str) -> Result<(), Missed> {
    let mut text = text(alloc, cell)?;
    match text.push('\n') {
        Ok(()) => client.hear(text.as_bytes()),
        Err(_) => Err(Missed::Ground("memory")),
    }
}

fn asks(client: &mut Client, alloc: Global, cells: &str) -> Result<(), Missed> {
    let Some((question, answer)) = row(cells) else {
        return Err(UNREAD);
    };
    says(client, alloc, question)?;
    hears(client, alloc, answer)
}

// Makes a step in which a client sends and receives messages; `None` for any other step.
fn talks(client: &mut Client, alloc: Global, word: &str, rest: &str) -> Option<Result<(), Missed>> {
    match word {
        "says" => Some(says(client, alloc, rest)),
        "continues" => Some(continues(client, alloc, rest)),
        "hears" => Some(hears(client, alloc, rest)),
        "asks" => Some(asks(client, alloc, rest)),
        "named" => Some(client.is_served()),
        "works" => Some(client.works()),
        "fills" => Some(client.fill()),
        "much" => Some(ask_much(client, alloc)),
        _ => None,
    }
}

// Makes a step in which a client waits, or clears the device; `None` for any other step.
fn listens(client: &mut Client, word: &str) -> Option<Result<(), Missed>> {
    match word {
        "denied" => Some(client.is_denied()),
        "awaits" => Some(client.await_message()),
        "clears" => Some(client.clear()),
        "clearing" => Some(client.begin_clear()),
        "cleared" => Some(client.end_clear()),
        "drained" => Some(is_drained(client)),
        _ => None,
    }
}

fn polls(client: &mut Client, rest: &str) -> Result<(), Missed> {
    let (control, expected) = parted(rest);
    client.poll(byte(control)?, byte(expected)?)
}

fn is_requested(client: &mut Client, rest: &str) -> Result<(), Missed> {
    client.is_requested(byte(rest)?)
}

fn requests(client: &mut Client, rest: &str) -> Result<(), Missed> {
    client.request_lock(number(rest)?)
}

fn expect_response(client: &mut Client, rest: &str) -> Result<(), Missed> {
    client.expect_lock_response(byte(rest)?)
}

fn lock_info(client: &mut Client, rest: &str) -> Result<(), Missed> {
    let (exclusive, holders) = parted(rest);
    client.lock_info_is(byte(exclusive)?, number(holders)?)
}

// Makes a step on locks; `None` for any other step.
fn locks(client: &mut Client, word: &str, rest: &str) -> Option<Result<(), Missed>> {
    match word {
        "shares" => Some(client.share()),
        "locks" => Some(client.lock()),
        "requests" => Some(requests(client, rest)),
        "lock-response" => Some(expect_response(client, rest)),
        "queues" => Some(client.queue_for_lock()),
        "drops" => Some(client.request_release(client.last)),
        "lock-info" => Some(lock_info(client, rest)),
        _ => None,
    }
}

fn releases(client: &mut Client, rest: &str) -> Result<(), Missed> {
    client.request_release(client.last)?;
    expect_response(client, rest)
}

fn ends(client: &mut Client) -> Result<(), Missed> {
    is_ended(&mut client.sync)?;
    is_ended(&mut client.other)
}

// Makes a step on a client's status or connections.
fn exchanges(client: &mut Client, alloc: Global, word: &str, rest: &str) -> Result<(), Missed> {
    match word {
        "polls" => polls(client, rest),
        "srq" => is_requested(client, rest),
        "releases" => releases(client, rest),
        "ends" => ends(client),
        _ => match word.strip_prefix("async-") {
            Some(word) => stream_does(&mut client.other, alloc, word, rest),
            None => stream_does(&mut client.sync, alloc, word, rest),
        },
    }
}

/// Makes a step of a client.
pub(crate) fn client_does(
    client: &mut Client,
    alloc: Global,
    word: &str,
    rest: &str,
) -> Result<(), Missed> {
    if let Some(done) = talks(client, alloc, word, rest) {
        return done;
    }
    if let Some(done) = listens(client, word) {
        return done;
    }
    match locks(client, word, rest) {
        Some(done) => done,
        None => exchanges(client, alloc, word, rest),
    }
}

/// Requests the exclusive lock, which is refused when this time is over and not before.
pub(crate) fn expires<R: Clock>(rt: &R, client: &mut Client, timeout: u32) -> Result<(), Missed> {
    let Ok(start) = Instant::now(rt) else {
        return Err(Missed::Ground("a clock"));
    };
    client.request_lock(timeout)?;
    client.expect_lock_response(0)?;
    let Ok(taken) = start.elapsed(rt) else {
        return Err(Missed::Ground("a clock"));
    };
    let least = u64::from(timeout).saturating_sub(1);
    holds(taken >= Duration::from_millis(least), "not before its time")
}
