//! Lines that no honest controller sends: each is one error, or nothing, and what follows is executed.
use crate::holds::holds;
use crate::images::{formatted, written, written_on};
use crate::runs::run_from;
use psu_run::RunCause;
use psu_tables::{bytes, row};
use std::alloc::Global;
use std::io::{self, Read};
use std::process::Abort;

// Whether a line of these bytes leaves one error, or none.
fn leaves(alloc: Global, line: &str, wanted: &str) -> Option<bool> {
    let mut input = bytes(alloc, line)?;
    input
        .extend_from_slice(b"\nSYST:ERR?\nSYST:ERR:COUN?\n")
        .ok()?;
    let got = written(alloc, &input)?;
    Some(got.strip_suffix(b"\n0\n".as_slice())? == wanted.as_bytes())
}

// Checks that each line of a table leaves its error.
fn leave(rt: &impl Abort, alloc: Global, table: &str) {
    let mut rows = 0u32;
    for line in table.lines() {
        if let Some((sent, wanted)) = row(line) {
            holds(rt, leaves(alloc, sent, wanted) == Some(true), &line);
            rows = rows.saturating_add(1);
        }
    }
    holds(rt, rows > 0, &table);
}

// A line of 65,537 bytes is one -223, whatever is in it, and the next line is executed: `;`, `x`, `:`, `"`, `#`, `*`, a
// space, and a byte that is no character.
const TOO_LONG: &str = r#"
3b*65537 -> -223,"Too much data"
78*65537 -> -223,"Too much data"
3a*65537 -> -223,"Too much data"
22*65537 -> -223,"Too much data"
23*65537 -> -223,"Too much data"
2a*65537 -> -223,"Too much data"
20*65537 -> -223,"Too much data"
80*65537 -> -223,"Too much data"
"#;

#[test]
fn lines_that_are_too_long(rt: HostRuntime) {
    leave(&rt, rt.alloc(), TOO_LONG);
}

// A line of 65,536 bytes is read, into one error at most.
const OF_THE_GREATEST_LENGTH: &str = r#"
`;` and a space.
3b*65536 -> 0,"No error"
20*65536 -> 0,"No error"

`x`
78*65536 -> -113,"Undefined header"

`:`, `*` and `"`
3a*65536 -> -102,"Syntax error"
2a*65536 -> -102,"Syntax error"
22*65536 -> -102,"Syntax error"

`#`
23*65536 -> -161,"Invalid block data"

80*65536 -> -101,"Invalid character"
"#;

#[test]
fn lines_of_the_greatest_length(rt: HostRuntime) {
    leave(&rt, rt.alloc(), OF_THE_GREATEST_LENGTH);
}

/// A reader that returns one byte a call, of a text first and then without end, and counts the calls.
#[derive(Drop)]
struct Dripping<'a> {
    rest: &'a [u8],
    calls: u32,
}

impl Read for Dripping<'_> {
    fn read(&mut self, buf: &mut [u8]) -> io::Result<usize> {
        self.calls = self.calls.saturating_add(1);
        if buf.is_empty() {
            return Ok(0);
        }
        buf[0] = b';';
        if !self.rest.is_empty() {
            buf[0] = self.rest[0];
            self.rest = &self.rest[1..];
        }
        Ok(1)
    }
}

// Whether 1,048,576 reads are made of a reader that never ends, the complete lines before are answered, and nothing is
// flushed.
fn is_ended(alloc: Global) -> Option<bool> {
    let mut reader = Dripping {
        rest: b"VOLT 1;*SAV 1;VOLT?\n*IDN?\n*IDN?",
        calls: 0,
    };
    let ran = run_from(alloc, alloc, &mut reader, formatted(alloc)?);
    let ended = ran.cause == Some(RunCause::TooLong) && reader.calls == 1_048_576;
    let answered = ran.text.as_slice() == b"1.000\nEXAMPLE,PSU4,0,1.0\n".as_slice();
    let held = written_on(alloc, ran.disk, b"*RCL 1;VOLT?\n")?;
    Some(ended && answered && held.as_slice() == b"0.000\n".as_slice())
}

#[test]
fn a_reader_that_never_ends(rt: HostRuntime) {
    assert!(rt; is_ended(rt.alloc()) == Some(true));
}
