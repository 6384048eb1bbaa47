//! Lines with queries whose responses exceed a piece: they are written whole and in order.
use crate::holds::holds;
use crate::images::{formatted, written};
use crate::runs::run_between;
use std::alloc::{AllocError, Global};
use std::io::{self, Write};

const LENGTH: usize = 32_768;

// Returns the bytes of the file: each differs from its neighbours, and none is a line feed.
fn file(alloc: Global) -> Result<Vec<u8>, AllocError> {
    let mut bytes = Vec::new(alloc);
    for place in 0..LENGTH {
        match (place % 251) as u8 {
            b'\n' => bytes.push(255)?,
            byte => bytes.push(byte)?,
        }
    }
    Ok(bytes)
}

// Returns a line that stores the file, one that queries it this many times, each time after another query, and one more
// line.
fn asking(alloc: Global, file: &[u8], times: usize) -> Option<Vec<u8>> {
    let mut input = b"MMEM:DATA \"F\",#532768".to_vec(alloc).ok()?;
    input.extend_from_slice(file).ok()?;
    input.extend_from_slice(b"\n*EMC?;:MMEM:DATA? \"F\"").ok()?;
    for _ in 1..times {
        input.extend_from_slice(b";*EMC?;:MMEM:DATA? \"F\"").ok()?;
    }
    input.extend_from_slice(b"\n*IDN?\n").ok()?;
    Some(input)
}

// Returns what those lines write.
fn answers(alloc: Global, file: &[u8], times: usize) -> Option<Vec<u8>> {
    let mut answers = b"0;#532768".to_vec(alloc).ok()?;
    answers.extend_from_slice(file).ok()?;
    for _ in 1..times {
        answers.extend_from_slice(b";0;#532768").ok()?;
        answers.extend_from_slice(file).ok()?;
    }
    answers.extend_from_slice(b"\nEXAMPLE,PSU4,0,1.0\n").ok()?;
    Some(answers)
}

// Whether the run writes what it has to, byte for byte.
fn is_right(alloc: Global, times: usize) -> Option<bool> {
    let file = file(alloc).ok()?;
    let got = written(alloc, &asking(alloc, &file, times)?)?;
    Some(got == answers(alloc, &file, times)?)
}

// One file is less than 64 KiB, and two are more.
#[test]
fn answers_round_the_length_of_a_piece(rt: HostRuntime) {
    for times in 1..6usize {
        holds(&rt, is_right(rt.alloc(), times) == Some(true), &times);
    }
}

// Some 13 MB in one line.
#[test]
fn four_hundred_files_in_one_line(rt: HostRuntime) {
    assert!(rt; is_right(rt.alloc(), 400) == Some(true));
}

/// A writer that counts the bytes it was given, and the most at once.
#[derive(Drop)]
struct Measuring {
    all: usize,
    most: usize,
}

impl Write for Measuring {
    fn write(&mut self, buf: &[u8]) -> io::Result<usize> {
        self.all = self.all.saturating_add(buf.len());
        self.most = self.most.max(buf.len());
        Ok(buf.len())
    }

    fn flush(&mut self) -> io::Result<()> {
        Ok(())
    }
}

// Returns how much a run for four hundred files writes, and the most at once.
fn measured(alloc: Global) -> Option<Measuring> {
    let input = asking(alloc, &file(alloc).ok()?, 400)?;
    let mut reader = input.as_slice();
    let mut writer = Measuring { all: 0, most: 0 };
    run_between(alloc, &mut reader, &mut writer, formatted(alloc)?).ok()?;
    Some(writer)
}

// Whether all of it is written, and not too much of it at once.
fn is_in_parts(alloc: Global) -> Option<bool> {
    let all = answers(alloc, &file(alloc).ok()?, 400)?.len();
    let writer = measured(alloc)?;
    Some(writer.all == all && writer.most <= 65_536 + 32_768 + 16)
}

// A run buffers 64 KiB and one answer at most, also before the end of a line.
#[test]
fn a_long_line_is_written_in_parts(rt: HostRuntime) {
    assert!(rt; is_in_parts(rt.alloc()) == Some(true));
}
