//! A response that is longer than the buffers of the connections.
use crate::client::Client;
use crate::missed::{Missed, holds};
use crate::wire::{bare, length, next, send, skip};
use std::alloc::{AllocError, Global};

/// Returns the bytes of a text, repeated this many times.
pub fn repeated(alloc: Global, text: &[u8], count: u32) -> Result<Vec<u8>, AllocError> {
    let mut all = Vec::new(alloc);
    for _ in 0..count {
        all.extend_from_slice(text)?;
    }
    Ok(all)
}

// Returns the message that makes a file of 32,768 bytes.
fn file(alloc: Global) -> Result<Vec<u8>, AllocError> {
    let mut text = b"MMEM:DATA \"A\",#532768".to_vec(alloc)?;
    text.resize(32_789, 120)?;
    Ok(text)
}

/// Makes a file of 32,768 bytes and queries it 4,096 times in one message: 134 million bytes.
pub(crate) fn ask_much(client: &mut Client, alloc: Global) -> Result<(), Missed> {
    let Ok(file) = file(alloc) else {
        return Err(Missed::Ground("memory"));
    };
    let Ok(question) = repeated(alloc, b":MMEM:DATA? \"A\";", 4_096) else {
        return Err(Missed::Ground("memory"));
    };
    client.say(file.as_slice())?;
    client.say(question.as_slice())
}

// Whether a frame acknowledges the end of a clear; otherwise it is a part of a response that is not its last, and is
// read.
fn is_acknowledged(client: &mut Client, got: [u8; 16]) -> Result<bool, Missed> {
    if got == bare(9, 0) {
        return Ok(true);
    }
    holds(got[2] == 6, "a part of the answer")?;
    skip(&mut client.sync, length(&got))?;
    Ok(false)
}

/// Ends a clear; at most half of the response comes before the acknowledgement, in parts that were on their way.
pub(crate) fn is_drained(client: &mut Client) -> Result<(), Missed> {
    send(&mut client.sync, &bare(8, 0))?;
    for _ in 0..1_024u32 {
        let got = next(&mut client.sync)?;
        if is_acknowledged(client, got)? {
            return Ok(());
        }
    }
    Err(Missed::Claim("the answer is cut"))
}
