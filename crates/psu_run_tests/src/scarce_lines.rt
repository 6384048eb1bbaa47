//! Memory is refused while one line is executed: each of its units that is not done has reported that, by -225 in the
//! error queue, and has had no other effect. The line after it queries that, with memory again.
//!
//! A case is a text: the lines before, which write one line at most (`before: `), the line with little memory
//! (`line: `), the one that queries the result (`then: `), and all that may be written, a row each (`- `), first what is
//! written where memory is ample. ` / ` separates two lines.
use crate::images::least;
use crate::memory::{End, arena, leave, rest_after};
use crate::runs::{Ran, run_from};
use bumpalo::Bump;
use psu_disk::MemDisk;
use psu_run::RunCause;
use std::alloc::{AllocError, Global};
use std::io::{self, ErrorKind, Read};
use std::process::Abort;

/// A reader that returns one line a call, and leaves this many bytes of memory for one of them.
#[derive(Drop)]
struct Rationing<'a, 'b> {
    arena: &'a Bump<Global>,
    lines: [&'b [u8]; 3],
    next: usize,
    left: usize,
}

impl Read for Rationing<'_, '_> {
    fn read(&mut self, buf: &mut [u8]) -> io::Result<usize> {
        self.arena.set_allocation_limit(None);
        if self.next >= 3 {
            return Ok(0);
        }
        let line = self.lines[self.next];
        let count = line.len().min(buf.len());
        buf[..count].copy_from_slice(&line[..count]);
        if self.next == 1 && leave(self.arena, self.left).is_err() {
            return Err(io::Error::from(ErrorKind::Other));
        }
        self.next += 1;
        Ok(count)
    }
}

/// A case: its lines, what is written before the one with little memory, and its rows.
#[derive(Drop)]
struct Case<'a> {
    before: Vec<u8>,
    line: Vec<u8>,
    question: Vec<u8>,
    answered_before: Vec<u8>,
    rows: &'a str,
}

// Returns the lines of a cell, each with its end.
fn lines_of(alloc: Global, cell: &str) -> Result<Vec<u8>, AllocError> {
    let mut lines = Vec::new(alloc);
    for line in cell.split(" / ") {
        lines.extend_from_slice(line.as_bytes())?;
        lines.push(b'\n')?;
    }
    Ok(lines)
}

// Returns the text after a mark at the start of a line of a case.
fn cell<'a>(case: &'a str, mark: &str) -> &'a str {
    for line in case.lines() {
        if let Some(cell) = line.strip_prefix(mark) {
            return cell;
        }
    }
    ""
}

// Whether a text is the one of a row; of a run that ended early, a prefix of it.
fn is_written(row: &str, text: &[u8], whole: bool) -> bool {
    let mut rest = text;
    for line in row.split(" / ") {
        match rest_after(rest, line.as_bytes()) {
            Some(left) => rest = left,
            None => return !whole && line.as_bytes().starts_with(rest),
        }
    }
    rest.is_empty()
}

impl Case<'_> {
    // Reads a case from its text.
    fn of(alloc: Global, text: &str) -> Result<Case<'_>, AllocError> {
        let answered = cell(text, "answered before: ");
        let answered_before = if answered.is_empty() {
            Vec::new(alloc)
        } else {
            lines_of(alloc, answered)?
        };
        Ok(Case {
            before: lines_of(alloc, cell(text, "before: "))?,
            line: lines_of(alloc, cell(text, "line: "))?,
            question: lines_of(alloc, cell(text, "then: "))?,
            answered_before,
            rows: text,
        })
    }

    // Whether a text is the one of some row; of a run that ended early, a prefix of it.
    fn allows(&self, text: &[u8], whole: bool) -> bool {
        for line in self.rows.lines() {
            if let Some(row) = line.strip_prefix("- ") {
                if is_written(row, text, whole) {
                    return true;
                }
            }
        }
        false
    }

    // Runs the lines with this many bytes for one of them.
    fn ran_with(&self, rt: &impl Abort, alloc: Global, left: usize) -> Ran<MemDisk<Global>> {
        let arena = arena(alloc).expect(rt, "an arena");
        let image = least(alloc).expect(rt, "an image");
        let mut reader = Rationing {
            arena: &arena,
            lines: [&self.before, &self.line, &self.question],
            next: 0,
            left,
        };
        run_from(alloc, &arena, &mut reader, image)
    }

    // How the run ends; `None` where it may not end this way: it ends early only with all that is written before the
    // line.
    fn end_of(&self, text: &[u8], cause: Option<RunCause>) -> Option<End> {
        match cause {
            None if is_written(cell(self.rows, "- "), text, true) => Some(End::Whole),
            None if self.allows(text, true) => Some(End::Partly),
            Some(RunCause::Memory(_))
                if self.allows(text, false) && text.starts_with(self.answered_before.as_slice()) =>
                { Some(End::Refused) }
            _ => None,
        }
    }

    // How the run ends with this many bytes for the line.
    fn run_with(&self, rt: &impl Abort, alloc: Global, left: usize) -> End {
        let Ran { text, cause, .. } = self.ran_with(rt, alloc, left);
        match self.end_of(text.as_slice(), cause) {
            Some(end) => end,
            None => panic!(rt; "{text:?} at {left}"),
        }
    }

    // Refuses less and less of the line's memory, until all of it is there, and returns how often something was
    // refused.
    fn refusals(&self, rt: &impl Abort, alloc: Global) -> Option<u32> {
        let mut refused = 0u32;
        for left in (0..6_000usize).step_by(8) {
            if self.run_with(rt, alloc, left) == End::Whole {
                return Some(refused);
            }
            refused = refused.saturating_add(1);
        }
        None
    }
}

// Checks that cases, with an empty line between two, end in one of their rows with little memory, and in the first once
// there is enough.
fn go_with_little_memory(rt: &impl Abort, alloc: Global, cases: &str) {
    for text in cases.split("\n\n") {
        let case = Case::of(alloc, text).expect(rt, "memory");
        let refused = case
            .refusals(rt, alloc)
            .expect(rt, "with much memory it ends as a whole");
        assert!(rt; refused > 0, "nothing was refused in {text}");
    }
}

// An answer of at most 24 bytes is never refused: the lines end as they do with ample memory, or the run ends.
const ANSWERS: &str = r#"
before: *PSC 0;*SRE 32;*ESE 128;*OPC? / !POWER
answered before: 1
line: *STB?;*ESR?;*STB?
then: SYST:ERR:COUN?
- 1 / 96;128;0 / 0

before: VOLT 5.25;*SAV 3;*OPC? / !POWER
answered before: 1
line: VOLT?;*RCL 3;VOLT?
then: SYST:ERR:COUN?;:VOLT?
- 1 / 0.000;5.250 / 0;5.250

before: *SAV 100;*OPC?
answered before: 1
line: SYST:ERR?
then: SYST:ERR:COUN?
- 1 / -222,"Data out of range" / 0
"#;

#[test]
fn answers_that_are_refused(rt: HostRuntime) {
    go_with_little_memory(&rt, rt.alloc(), ANSWERS);
}

// One of 25 bytes may be refused: the error that it would report stays in the queue.
const LONGER_ANSWERS: &str = r#"
before: VOLT 1E32001;*OPC?
answered before: 1
line: SYST:ERR?
then: SYST:ERR:COUN?
- 1 / -123,"Exponent too large" / 0
- 1 / 2
"#;

#[test]
fn an_answer_that_needs_memory(rt: HostRuntime) {
    go_with_little_memory(&rt, rt.alloc(), LONGER_ANSWERS);
}

// A save takes no memory, and a wait that can't end ends the run.
const WAITS: &str = r#"
line: VOLT 5.25;*SAV 3;*OPC?
then: SYST:ERR:COUN?;*RCL 3;:VOLT?
- 1 / 0;5.250

line: MMEM:DATA "A",#13xyz;*OPC?
then: SYST:ERR:COUN?;:MMEM:CAT?
- 1 / 0;1024,1024,"A,BIN,3"
- 1 / 1;0,2048
"#;

#[test]
fn a_wait_without_memory(rt: HostRuntime) {
    go_with_little_memory(&rt, rt.alloc(), WAITS);
}

// A label whose definition is refused is an undefined header.
const MACROS: &str = r#"
line: *DMC "SETA",#17VOLT $1;*EMC 1;SETA 3;VOLT?
then: SYST:ERR:COUN?;*LMC?;:VOLT?;:SYST:ERR?;:SYST:ERR?
- 3.000 / 0;"SETA";3.000;0,"No error";0,"No error"
- 0.000 / 1;"SETA";0.000;-225,"Out of memory";0,"No error"
- 0.000 / 2;"";0.000;-225,"Out of memory";-113,"Undefined header"

before: *DMC "SETA",#17VOLT $1;*EMC 1;SETA 3;VOLT?
answered before: 3.000
line: *DMC "seta",#10;*LMC?;SYST:ERR?
then: SYST:ERR:COUN?;*LMC?
- 3.000 / "SETA";-277,"Macro redefinition not allowed" / 0;"SETA"
- 3.000 / "SETA" / 2;"SETA"
- 3.000 / "SETA";-225,"Out of memory" / 0;"SETA"
"#;

#[test]
fn macros_that_are_refused(rt: HostRuntime) {
    go_with_little_memory(&rt, rt.alloc(), MACROS);
}

const FILES: &str = r#"
before: MMEM:DATA "A",#221abcdefghijklmnopqrstu;*OPC? / !POWER
answered before: 1
line: MMEM:DATA? "A";:MMEM:DEL "B"
then: SYST:ERR?;:SYST:ERR:COUN?;:MMEM:CAT?
- 1 / #221abcdefghijklmnopqrstu / -256,"File name not found";0;1024,1024,"A,BIN,21"
- 1 / #221abcdefghijklmnopqrstu / -225,"Out of memory";0;1024,1024,"A,BIN,21"
- 1 / -225,"Out of memory";1;1024,1024,"A,BIN,21"

line: MMEM:STOR:STAT 0,"S";:MMEM:CAT?
then: SYST:ERR:COUN?;:MMEM:CAT?
- 1024,1024,"S,STAT,28" / 0;1024,1024,"S,STAT,28"
- 1;1024,1024,"S,STAT,28"
- 0,2048 / 1;0,2048
"#;

#[test]
fn files_that_are_refused(rt: HostRuntime) {
    go_with_little_memory(&rt, rt.alloc(), FILES);
}

// Four errors at most, in the order of their units.
const ERRORS: &str = r#"
before: MMEM:STOR:STAT 0,"S"
line: MMEM:LOAD:MACR "M","S";LOAD:STAT 2,"S";:MMEM:DATA "a/b",#10;:SYST:ERR?
then: SYST:ERR?;:SYST:ERR?;:SYST:ERR?;:SYST:ERR:COUN?;*LMC?
- -113,"Undefined header" / -257,"File name error";0,"No error";0,"No error";0;"M"
- -113,"Undefined header" / -225,"Out of memory";0,"No error";0,"No error";0;"M"
- -113,"Undefined header";-257,"File name error";-225,"Out of memory";0;"M"
- -113,"Undefined header";-225,"Out of memory";-225,"Out of memory";0;"M"
- -225,"Out of memory" / -113,"Undefined header";-257,"File name error";0,"No error";0;""
- -225,"Out of memory" / -113,"Undefined header";-225,"Out of memory";0,"No error";0;""
- -225,"Out of memory";-113,"Undefined header";-257,"File name error";1;""
- -225,"Out of memory";-113,"Undefined header";-225,"Out of memory";1;""
"#;

#[test]
fn errors_with_little_memory(rt: HostRuntime) {
    go_with_little_memory(&rt, rt.alloc(), ERRORS);
}
