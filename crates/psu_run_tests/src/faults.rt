//! Runs that end in a fault: readers and writers that fail, input that is too long, images that can't be opened.
use crate::holds::{count, holds};
use crate::images::formatted;
use crate::runs::{NOT_OPENED, run_between, run_from, run_on};
use crate::spelled::spoiled;
use psu_disk::{FailingDisk, MemDisk};
use psu_items::IMAGE_SIZE;
use psu_run::{RunCause, StartCause};
use std::alloc::Global;
use std::io::{self, ErrorKind, Read, Write};

/// A reader that returns at most some bytes a call, and fails after some calls.
#[derive(Drop)]
struct Halting<'a> {
    rest: &'a [u8],
    piece: usize,
    calls: u32,
}

impl Read for Halting<'_> {
    fn read(&mut self, buf: &mut [u8]) -> io::Result<usize> {
        if self.calls == 0 {
            return Err(io::Error::from(ErrorKind::Other));
        }
        self.calls -= 1;
        let count = self.piece.min(buf.len()).min(self.rest.len());
        buf[..count].copy_from_slice(&self.rest[..count]);
        self.rest = &self.rest[count..];
        Ok(count)
    }
}

/// A reader that returns this many copies of one byte, a few a call.
#[derive(Drop)]
struct Flood {
    byte: u8,
    left: usize,
    piece: usize,
}

impl Read for Flood {
    fn read(&mut self, buf: &mut [u8]) -> io::Result<usize> {
        let count = self.piece.min(buf.len()).min(self.left);
        buf[..count].fill(self.byte);
        self.left -= count;
        Ok(count)
    }
}

/// A writer that accepts some bytes and then fails.
#[derive(Drop)]
struct Filling {
    bytes: Vec<u8>,
    room: usize,
}

impl Write for Filling {
    fn write(&mut self, buf: &[u8]) -> io::Result<usize> {
        let count = buf.len().min(self.room);
        if count == 0 {
            return Err(io::Error::from(ErrorKind::Other));
        }
        self.bytes.extend_from_slice(&buf[..count])?;
        self.room -= count;
        Ok(count)
    }

    fn flush(&mut self) -> io::Result<()> {
        Ok(())
    }
}

const INPUT: &[u8] = b"*IDN?\n*PSC 0;*SRE 4;*OPC?\n!POWER\n*SRE?";

const OUTPUT: &[u8] = b"EXAMPLE,PSU4,0,1.0\n1\n4\n";

// Whether a run with this many calls of a reader, which returns this much at each, writes a prefix of the output, and
// all of it where it succeeds.
fn read_by(alloc: Global, piece: usize, calls: u32) -> Option<bool> {
    let mut reader = Halting {
        rest: INPUT,
        piece,
        calls,
    };
    let ended = run_from(alloc, alloc, &mut reader, formatted(alloc)?);
    let text = ended.text.as_slice();
    Some(match ended.cause {
        None => text == OUTPUT,
        Some(cause) => cause == RunCause::Read && OUTPUT.starts_with(text),
    })
}

#[test]
fn a_reader_that_fails_leaves_what_was_written(rt: HostRuntime) {
    for piece in [1usize, 2, 7, 40] {
        for calls in [0u32, 1, 2, 5, 6, 20, 39, 41] {
            holds(
                &rt,
                read_by(rt.alloc(), piece, calls) == Some(true),
                &(piece, calls),
            );
        }
    }
}

// Whether a run whose writer accepts this many bytes succeeds where that is all of the output, and otherwise writes
// that many.
fn written_into(alloc: Global, room: usize) -> Option<bool> {
    let mut reader: &[u8] = INPUT;
    let mut output = Filling {
        bytes: Vec::new(alloc),
        room,
    };
    let ended_right = match run_between(alloc, &mut reader, &mut output, formatted(alloc)?) {
        Ok(_) => room >= OUTPUT.len(),
        Err(fault) => fault.cause == RunCause::Write && room < OUTPUT.len(),
    };
    Some(ended_right && output.bytes.as_slice() == (&OUTPUT[..room.min(OUTPUT.len())]))
}

#[test]
fn a_writer_that_fails_is_a_fault(rt: HostRuntime) {
    for room in [0usize, 1, 18, 19, 20, 22, 23, 24] {
        holds(&rt, written_into(rt.alloc(), room) == Some(true), &room);
    }
}

// Whether a run of this many bytes, a few a call, is too long or succeeds, as it has to. It writes nothing.
fn floods(alloc: Global, left: usize, piece: usize, is_too_long: bool) -> Option<bool> {
    let mut reader = Flood {
        byte: b'x',
        left,
        piece,
    };
    let ended = run_from(alloc, alloc, &mut reader, formatted(alloc)?);
    let ended_right = match ended.cause {
        None => !is_too_long,
        Some(cause) => is_too_long && cause == RunCause::TooLong,
    };
    Some(ended_right && ended.text.is_empty())
}

#[test]
fn input_is_bounded(rt: HostRuntime) {
    // This many reads of one byte and one more that finds the end; then one read too many.
    assert!(rt; floods(rt.alloc(), 1_048_575, 1, false) == Some(true));
    assert!(rt; floods(rt.alloc(), 1_048_576, 1, true) == Some(true));
    // This many bytes; then one byte too many.
    assert!(rt; floods(rt.alloc(), 16_777_216, 65_536, false) == Some(true));
    assert!(rt; floods(rt.alloc(), 16_777_217, 65_536, true) == Some(true));
}

// Whether a run on a disk of this many bytes without a root reads and writes nothing.
fn is_not_opened(alloc: Global, size: u64) -> Option<bool> {
    let mut reader: &[u8] = INPUT;
    let ended = run_from(alloc, alloc, &mut reader, MemDisk::new(alloc, size).ok()?);
    let has_no_root = ended.cause == Some(RunCause::Open(StartCause::NoRoot));
    Some(has_no_root && reader == INPUT && ended.text.is_empty())
}

#[test]
fn an_image_that_is_none_is_not_opened(rt: HostRuntime) {
    for size in [0, 1_023, IMAGE_SIZE] {
        holds(&rt, is_not_opened(rt.alloc(), size) == Some(true), &size);
    }
}

const SAVES: &[u8] = b"*PSC 0;*OPC?\n*ESR?\n*OPC?\n!POWER\n*PSC?\n";

// The number of the outcome of a run of saves where one call failed: it succeeded, or an opening failed.
fn way_of(cause: Option<RunCause>, text: &[u8]) -> Option<usize> {
    if cause.is_none() {
        if text == b"1\n128\n1\n0\n".as_slice() {
            return Some(0);
        }
        return (text == b"136\n1\n0\n".as_slice()).then_some(1);
    }
    if cause != Some(NOT_OPENED) {
        None
    } else if text.is_empty() {
        Some(2)
    } else {
        (text == b"1\n128\n1\n".as_slice()).then_some(3)
    }
}

// Runs saves on a disk of which this call fails.
fn saved_on_failing(alloc: Global, call: u64) -> Option<usize> {
    let ended = run_on(alloc, SAVES, FailingDisk::once(formatted(alloc)?, call));
    way_of(ended.cause, &ended.text)
}

// A commit that fails answers its `*OPC?` with -320, which sets DDE (8) in addition to PON (128); the store is
// reopened, and the next `*OPC?` is answered: what it confirmed is there when power returns. An opening that fails ends
// the run.
#[test]
fn a_disk_that_fails_once_is_opened_again(rt: HostRuntime) {
    let mut seen = [0u32; 4];
    for call in 0..60 {
        count(&rt, &mut seen, saved_on_failing(rt.alloc(), call), &call);
    }
    let all = seen[0] > 0 && seen[1] > 0 && seen[2] > 0 && seen[3] > 0;
    holds(&rt, all, &seen);
}

// Whether two calls that fail leave what was confirmed when power returns, and no more was written where an opening
// failed.
fn fails_twice(alloc: Global, first: u64, second: u64) -> Option<bool> {
    let disk = FailingDisk::once(formatted(alloc)?, first.saturating_add(second));
    let input = b"*PSC 0;*OPC?\n*OPC?\n!POWER\n*PSC?\n";
    let ended = run_on(alloc, input, FailingDisk::once(disk, first));
    Some(if ended.cause.is_none() {
        ended.text.ends_with(b"1\n0\n")
    } else {
        !ended.text.ends_with(b"0\n")
    })
}

// One call of the commit fails, and one of the reopening after it.
#[test]
fn a_reopening_that_fails_is_tried_again(rt: HostRuntime) {
    for first in 3..11u64 {
        for second in 0..4u64 {
            holds(
                &rt,
                fails_twice(rt.alloc(), first, second) == Some(true),
                &(first, second),
            );
        }
    }
}

// Whether a formatted image whose root has the last number accepts no commit.
fn last_takes_no_commit(alloc: Global) -> Option<bool> {
    let disk = spoiled(alloc, formatted(alloc)?, "8: ff*8")?;
    let input = b"*PSC 0;*OPC?;*ESR?\n!POWER\n*PSC?;*SRE 1;*PSC 0\n";
    let ended = run_on(alloc, input, disk);
    Some(ended.cause == Some(RunCause::Device) && ended.text.as_slice() == b"136\n1\n".as_slice())
}

#[test]
fn an_image_of_the_last_number_takes_no_commit(rt: HostRuntime) {
    assert!(rt; last_takes_no_commit(rt.alloc()) == Some(true));
}

/// A writer that counts the calls of `write`.
#[derive(Drop)]
struct Counting {
    bytes: Vec<u8>,
    calls: u32,
}

impl Write for Counting {
    fn write(&mut self, buf: &[u8]) -> io::Result<usize> {
        self.bytes.extend_from_slice(buf)?;
        self.calls = self.calls.saturating_add(1);
        Ok(buf.len())
    }

    fn flush(&mut self) -> io::Result<()> {
        Ok(())
    }
}

// Whether the lines are answered in two writes: for the complete lines of the piece, and for the last line, which has
// no line feed.
fn answers_in_two_writes(alloc: Global) -> Option<bool> {
    let mut reader: &[u8] = INPUT;
    let mut output = Counting {
        bytes: Vec::new(alloc),
        calls: 0,
    };
    run_between(alloc, &mut reader, &mut output, formatted(alloc)?).ok()?;
    Some(output.bytes.as_slice() == OUTPUT && output.calls == 2)
}

#[test]
fn the_lines_of_a_piece_are_answered_in_one_write(rt: HostRuntime) {
    assert!(rt; answers_in_two_writes(rt.alloc()) == Some(true));
}
