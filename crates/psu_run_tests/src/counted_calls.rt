//! Runs whose reads and writes are counted: which of them fail, by why a run ends. A read asks for 65,536 bytes.
use crate::images::formatted;
use crate::runs::run_between;
use psu_run::{Counted, CountedWriter, RunCause};
use std::alloc::Global;
use std::io::{self, ErrorKind, Read, Write};

const INPUT: &[u8] = b"*IDN?\n*SRE 4\n*SRE?\n";

const OUTPUT: &[u8] = b"EXAMPLE,PSU4,0,1.0\n4\n";

/// A reader that returns at most 8 bytes a call, and fails after some calls.
#[derive(Drop)]
struct Pieces<'a> {
    rest: &'a [u8],
    calls: u32,
}

impl Read for Pieces<'_> {
    fn read(&mut self, buf: &mut [u8]) -> io::Result<usize> {
        if self.calls == 0 {
            return Err(io::Error::from(ErrorKind::Other));
        }
        self.calls -= 1;
        let count = buf.len().min(8).min(self.rest.len());
        buf[..count].copy_from_slice(&self.rest[..count]);
        self.rest = &self.rest[count..];
        Ok(count)
    }
}

/// A writer that accepts some bytes. Then it fails, or accepts none without failing.
#[derive(Drop)]
struct Room {
    bytes: Vec<u8>,
    room: usize,
    fails: bool,
}

impl Write for Room {
    fn write(&mut self, buf: &[u8]) -> io::Result<usize> {
        let count = buf.len().min(self.room);
        if count == 0 && self.fails {
            return Err(io::Error::from(ErrorKind::Other));
        }
        self.bytes.extend_from_slice(&buf[..count])?;
        self.room -= count;
        Ok(count)
    }

    fn flush(&mut self) -> io::Result<()> {
        Ok(())
    }
}

/// Why a run ended, what it wrote, and what was counted of its calls.
#[derive(Drop)]
struct Ended {
    cause: Option<RunCause>,
    text: Vec<u8>,
    reads: (u64, u64, u64, u64),
    failed_writes: u64,
}

impl Ended {
    // Whether the run ended for this cause, with these reads: made, that returned bytes, and that failed.
    fn is(&self, cause: Option<RunCause>, reads: (u64, u64, u64), failed_writes: u64) -> bool {
        let (made, filled, failed) = reads;
        self.cause == cause
            && self.reads == (made, filled, failed, made.saturating_mul(65_536))
            && self.failed_writes == failed_writes
    }
}

// Runs with a reader that fails after so many calls, and a writer with so much room.
fn run_counted(alloc: Global, calls: u32, room: usize, fails: bool) -> Option<Ended> {
    let mut reader = Counted {
        reader: Pieces { rest: INPUT, calls },
        reads: 0,
        filled: 0,
        failed: 0,
        asked: 0,
    };
    let mut writer = CountedWriter {
        writer: Room {
            bytes: Vec::new(alloc),
            room,
            fails,
        },
        failed: 0,
    };
    let cause = match run_between(alloc, &mut reader, &mut writer, formatted(alloc)?) {
        Ok(_) => None,
        Err(fault) => Some(fault.cause),
    };
    Some(Ended {
        cause,
        text: writer.writer.bytes,
        reads: (reader.reads, reader.filled, reader.failed, reader.asked),
        failed_writes: writer.failed,
    })
}

// The input has 19 bytes: three reads return bytes, and the fourth finds the end.
#[test]
fn a_run_that_ends_well_fails_in_no_call(rt: HostRuntime) {
    let ended = run_counted(rt.alloc(), 9, 99, true).expect(&rt, "an image");
    assert!(rt; ended.is(None, (4, 3, 0), 0));
    assert!(rt; ended.text.as_slice() == OUTPUT);
}

// The third read fails: the line in the first two, and what they have of the second, was answered and is written.
#[test]
fn a_read_that_fails_is_a_read_fault(rt: HostRuntime) {
    let ended = run_counted(rt.alloc(), 2, 99, true).expect(&rt, "an image");
    assert!(rt; ended.is(Some(RunCause::Read), (3, 2, 1), 0));
    assert!(rt; ended.text.as_slice() == b"EXAMPLE,PSU4,0,1.0\n".as_slice());
}

// The first response has 19 bytes, of which 5 are accepted; then the writer fails, or accepts no more.
#[test]
fn a_write_that_fails_is_a_write_fault(rt: HostRuntime) {
    for fails in [true, false] {
        let ended = run_counted(rt.alloc(), 9, 5, fails).expect(&rt, "an image");
        assert!(rt; ended.is(Some(RunCause::Write), (1, 1, 0), 1));
        assert!(rt; ended.text.as_slice() == b"EXAMP".as_slice());
    }
}
