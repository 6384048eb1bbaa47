//! The settings at power-on: their command, what a restart finds, and power losses in the commit of a choice.
use crate::holds::{count, either, holds};
use crate::images::{least, left_by, written_on};
use crate::runs::run_on;
use psu_disk::{Choice, FailingDisk, MemDisk};
use std::alloc::Global;
use std::process::Abort;

// Three ways in which a power loss may leave bytes that were not synced.
const CHOICES: [Choice; 3] = [Choice::Old, Choice::New, Choice::Fill(0xa5)];

// Returns an image with 1 volt in register 0, and the settings at power-on that this line chooses.
fn chosen(alloc: Global, line: &[u8]) -> Option<MemDisk<Global>> {
    let saved = left_by(alloc, least(alloc)?, b"VOLT 1;*SAV 0;*OPC?\n")?;
    left_by(alloc, saved, line)
}

// Whether a restart after the power loss recalls register 0; it does or does not, as the query of its choice reports.
fn recalls(alloc: Global, mut disk: MemDisk<Global>, choice: Choice) -> Option<bool> {
    disk.lose(choice);
    let held = written_on(alloc, disk, b"VOLT?;:OUTP:PON:STAT?\n")?;
    either(
        held.as_slice() == b"0.000;RST\n".as_slice(),
        held.as_slice() == b"1.000;RCL0\n".as_slice(),
    )
}

// A line that chooses register 0 at power-on, and one that chooses the settings of `*RST`.
const RECALL: &[u8] = b"OUTP:PON:STAT RCL0;*OPC?\n";

const RESET: &[u8] = b"OUTP:PON:STAT RST;*OPC?\n";

// Outcomes: a restart finds the old choice, the new one before it was confirmed, or the new one as confirmed.
const OLD: usize = 0;

const NEW: usize = 1;

const CONFIRMED: usize = 2;

// What a restart finds of a line's choice on a disk that stops after this many calls of its commit; `None` where the
// old choice is found after the new one was confirmed.
fn found(alloc: Global, before: &[u8], line: &[u8], calls: u64, choice: Choice) -> Option<usize> {
    let ran = run_on(
        alloc,
        line,
        FailingDisk::from_then_on(chosen(alloc, before)?, calls),
    );
    let confirmed = either(
        ran.text.is_empty(),
        ran.text.as_slice() == b"1\n".as_slice(),
    )?;
    let recalls = recalls(alloc, ran.disk.into_inner(), choice)?;
    if recalls != (line == RECALL) {
        (!confirmed).then_some(OLD)
    } else {
        Some(if confirmed { CONFIRMED } else { NEW })
    }
}

// The disk stops after each number of calls of the commit of a choice, and power is lost: the old choice is found or
// the new one, and the new one where it was confirmed. Each is found after some stop in the commit.
fn losses(rt: &impl Abort, alloc: Global, before: &[u8], line: &[u8]) {
    let mut seen = [0u32; 3];
    for calls in 0..24u64 {
        for choice in CHOICES {
            let way = found(alloc, before, line, calls, choice);
            count(rt, &mut seen, way, &calls);
        }
    }
    holds(rt, seen[OLD] > 0 && seen[NEW] > 0, &seen);
}

#[test]
fn each_choice_through_a_loss(rt: HostRuntime) {
    losses(&rt, rt.alloc(), RESET, RECALL);
    losses(&rt, rt.alloc(), RECALL, RESET);
}
