//! Each allocation of five rows fails in turn: each unit gives its answer or -225, or the run ends out of memory. The
//! disk then holds the result of a prefix of the accepted changes, of all of them where `*OPC?` was answered.
//!
//! A row is a text, in parts with an empty line between two. The first part has the lines of a run (`> `), what they
//! write where memory is ample (`< `), and the lines that query afterwards what the image holds (`? `). Each other part
//! is a possible outcome where some units are refused memory: the lines (`| `), each with its alternatives, `nothing`
//! for a line that is not written; and the results of the accepted changes in the image, one after another (`= `).
use crate::images::{least, written_on};
use crate::runs::{Ran, run_from};
use crate::transcripts::lines_after;
use bumpalo::Bump;
use psu_disk::MemDisk;
use psu_run::RunCause;
use std::alloc::{AllocError, Global};
use std::process::Abort;

/// A row.
#[derive(Drop)]
struct Row<'a> {
    input: Vec<u8>,
    output: Vec<u8>,
    question: Vec<u8>,
    stories: &'a str,
}

/// How a run ended.
#[derive(Clone, Copy, PartialEq, Eq)]
pub(crate) enum End {
    /// The run wrote what it writes where memory is ample.
    Whole,
    /// The run succeeded, with units that were refused memory.
    Partly,
    /// The run ended out of memory.
    Refused,
}

/// Returns the rest of a text after a line and its end.
pub(crate) fn rest_after<'a>(text: &'a [u8], line: &[u8]) -> Option<&'a [u8]> {
    let length = line.len();
    if length == 0 || text.len() <= length || !text.starts_with(line) || text[length] != b'\n' {
        return None;
    }
    Some(&text[length + 1..])
}

// Returns the rest of a text after the one of a line's alternatives that it begins with.
fn behind_one<'a>(text: &'a [u8], line: &str) -> Option<&'a [u8]> {
    for one in line.split(" or ") {
        let rest = rest_after(text, one.as_bytes());
        if rest.is_some() {
            return rest;
        }
    }
    None
}

// Whether a text is a prefix of one of a line's alternatives.
fn is_front_of_one(text: &[u8], line: &str) -> bool {
    for one in line.split(" or ") {
        if one.as_bytes().starts_with(text) {
            return true;
        }
    }
    false
}

// Returns the rest of a text after the lines of an outcome; the empty text where the run ended early and the text ends
// before the end of the outcome.
fn rest_after_story<'a>(story: &str, text: &'a [u8], whole: bool) -> Option<&'a [u8]> {
    let mut rest = text;
    for row in story.lines() {
        if let Some(line) = row.strip_prefix("| ") {
            match behind_one(rest, line) {
                Some(left) => rest = left,
                None if !whole && is_front_of_one(rest, line) => return Some(&[]),
                None if line.ends_with("nothing") => {}
                None => return None,
            }
        }
    }
    Some(rest)
}

// Whether a text is the one of an outcome; of a run that ended early, a prefix of it.
fn has_text(story: &str, text: &[u8], whole: bool) -> bool {
    match rest_after_story(story, text, whole) {
        Some(rest) => rest.is_empty(),
        None => false,
    }
}

// Whether the text that an image holds is exactly this line.
fn is_exactly(line: &str, held: &[u8]) -> bool {
    match rest_after(held, line.as_bytes()) {
        Some(rest) => rest.is_empty(),
        None => false,
    }
}

// Whether an outcome leaves an image that holds this: with all changes where the run succeeded or `*OPC?` was answered.
fn leaves(story: &str, held: &[u8], all: bool) -> bool {
    let mut some = false;
    let mut last = false;
    for row in story.lines() {
        if let Some(line) = row.strip_prefix("= ") {
            last = is_exactly(line, held);
            some = some || last;
        }
    }
    if all { last } else { some }
}

// Allocates this many bytes of an arena, most of them in blocks.
fn take(arena: &Bump<Global>, count: usize) -> Result<(), AllocError> {
    arena.try_alloc_slice_fill_clone(count % 1_024, 0u8)?;
    arena.try_alloc_slice_fill_clone(count / 1_024, [0u64; 128])?;
    Ok(())
}

/// Returns an arena that never frees: it has a second chunk, with room for a run.
pub(crate) fn arena(alloc: Global) -> Result<Bump<Global>, AllocError> {
    let arena = Bump::try_with_capacity(alloc, 55_000)?;
    take(&arena, arena.chunk_capacity())?;
    let second = arena.try_alloc(0u8)?;
    *second = 1;
    Ok(arena)
}

/// Leaves this many bytes of an arena free, and prevents it from growing.
pub(crate) fn leave(arena: &Bump<Global>, left: usize) -> Result<(), AllocError> {
    arena.set_allocation_limit(Some(arena.allocated_bytes()));
    take(arena, arena.chunk_capacity().saturating_sub(left))
}

impl Row<'_> {
    // Reads a row from its text.
    fn of(alloc: Global, text: &str) -> Option<Row<'_>> {
        let (first, stories) = text.split_once("\n\n").unwrap_or((text, ""));
        Some(Row {
            input: lines_after(alloc, first, "> ")?,
            output: lines_after(alloc, first, "< ")?,
            question: lines_after(alloc, first, "? ")?,
            stories,
        })
    }

    // Whether one of the outcomes has this text and leaves an image that holds this.
    fn allows(&self, text: &[u8], held: &[u8], whole: bool) -> bool {
        let all = whole || text.starts_with(b"1\n");
        for story in self.stories.split("\n\n") {
            if has_text(story, text, whole) && leaves(story, held, all) {
                return true;
            }
        }
        false
    }

    // Runs the row with this many bytes of memory.
    fn ran_with(&self, rt: &impl Abort, alloc: Global, left: usize) -> Ran<MemDisk<Global>> {
        let arena = arena(alloc).expect(rt, "an arena");
        leave(&arena, left).expect(rt, "room");
        assert!(rt; arena.chunk_capacity() == left);
        let image = least(alloc).expect(rt, "an image");
        let mut reader = self.input.as_slice();
        run_from(alloc, &arena, &mut reader, image)
    }

    // How the row ends; `None` where it may not end this way.
    fn end_of(&self, text: &[u8], held: &[u8], cause: Option<RunCause>) -> Option<End> {
        let end = match cause {
            None if text == self.output.as_slice() => End::Whole,
            None => End::Partly,
            Some(RunCause::Memory(_)) => End::Refused,
            Some(_) => return None,
        };
        if self.allows(text, held, cause.is_none()) {
            Some(end)
        } else {
            None
        }
    }

    // How the row ends with this many bytes of memory.
    fn run_with(&self, rt: &impl Abort, alloc: Global, left: usize) -> End {
        let Ran {
            text,
            cause,
            disk,
            ..
        } = self.ran_with(rt, alloc, left);
        let held = written_on(alloc, disk, self.question.as_slice()).expect(rt, "the image opens");
        match self.end_of(text.as_slice(), held.as_slice(), cause) {
            Some(end) => end,
            None => panic!(rt; "{text:?} at {left}"),
        }
    }

    // Checks that the run ends with less memory than a device takes. The buffer of a piece has 65,536 bytes, and the
    // device, which is made before it, takes more than 4,800.
    fn run_with_too_little(&self, rt: &impl Abort, alloc: Global) {
        for left in (0..8_000usize).step_by(16) {
            assert!(rt; self.run_with(rt, alloc, left) == End::Refused);
        }
    }

    // Refuses less and less of its memory, until all of it is there, and returns how often the run ended out of memory.
    fn refusals(&self, rt: &impl Abort, alloc: Global) -> Option<u32> {
        let mut refused = 0u32;
        for left in (70_336..98_336usize).step_by(8) {
            match self.run_with(rt, alloc, left) {
                End::Whole => return Some(refused),
                End::Partly => {}
                End::Refused => refused = refused.saturating_add(1),
            }
        }
        None
    }
}

// Checks that a row ends in one of its outcomes with little memory, and as it does with ample memory once there is
// enough.
fn goes_with_little_memory(rt: &impl Abort, alloc: Global, text: &str) {
    let row = Row::of(alloc, text).expect(rt, "memory");
    row.run_with_too_little(rt, alloc);
    let refused = row
        .refusals(rt, alloc)
        .expect(rt, "with much memory it ends as a whole");
    assert!(rt; refused > 200, "{refused} refused");
}

// An answer of at most 16 bytes is never refused.
const ENABLES: &str = "
> *PSC 0;*SRE 32;*ESE 128;*OPC?
> !POWER
> *STB?;*ESR?;*STB?
< 1
< 96;128;0
? *PSC?;*SRE?;*ESE?

| 1
| 96;128;0 or nothing
= 1;0;0
= 0;0;0
= 0;32;0
= 0;32;128
";

#[test]
fn enables_with_little_memory(rt: HostRuntime) {
    goes_with_little_memory(&rt, rt.alloc(), ENABLES);
}

const A_REGISTER: &str = "
> VOLT 5.25;*SAV 3;*OPC?
> !POWER
> VOLT?;*RCL 3;VOLT?
< 1
< 0.000;5.250
? *RCL 3;VOLT?

| 1
| 0.000;5.250 or nothing
= 0.000
= 5.250
";

#[test]
fn a_register_with_little_memory(rt: HostRuntime) {
    goes_with_little_memory(&rt, rt.alloc(), A_REGISTER);
}

// The definition, its call, and the answer to the last query may each be refused; the error queue reports the first of
// them. The other answers have at most 16 bytes.
const A_MACRO: &str = r#"
> *DMC "SETA",#17VOLT $1;*EMC 1;SETA 3;VOLT?
> *DMC "seta",#10;*LMC?;SYST:ERR?
< 3.000
< "SETA";-277,"Macro redefinition not allowed"
? *LMC?;*GMC? "SETA"

A unit of the second line is.
| 3.000
| "SETA";-277,"Macro redefinition not allowed" or "SETA";-225,"Out of memory" or "SETA" or nothing
= ""
= "SETA";#17VOLT $1

The call is refused.
| 0.000 or nothing
| "SETA";-225,"Out of memory" or "SETA" or nothing
= ""
= "SETA";#17VOLT $1

The definition is refused, and the other one is not.
| 0.000 or nothing
| "seta";-225,"Out of memory" or "seta" or nothing
= ""
= "seta";#10

Both are.
| 0.000 or nothing
| "";-225,"Out of memory" or "" or nothing
= ""
"#;

#[test]
fn a_macro_with_little_memory(rt: HostRuntime) {
    goes_with_little_memory(&rt, rt.alloc(), A_MACRO);
}

const A_FILE: &str = r#"
> MMEM:DATA "A",#13xyz;*OPC?
> !POWER
> MMEM:DATA? "A";:MMEM:DEL "B"
> SYST:ERR?
> MMEM:CAT?
< 1
< #13xyz
< -256,"File name not found"
< 1024,1024,"A,BIN,3"
? MMEM:CAT?;:MMEM:DATA? "A"

| 1
| #13xyz
| -256,"File name not found" or -225,"Out of memory" or nothing
| 1024,1024,"A,BIN,3" or nothing
= 0,2048
= 1024,1024,"A,BIN,3";#13xyz

The file is: then nothing is pending, and no such file is found.
| 1 or nothing
| nothing
| -256,"File name not found" or -225,"Out of memory" or nothing
| 0,2048 or nothing
= 0,2048
"#;

#[test]
fn a_file_with_little_memory(rt: HostRuntime) {
    goes_with_little_memory(&rt, rt.alloc(), A_FILE);
}

const A_STATE: &str = r#"
> MMEM:STOR:STAT 0,"S";:MMEM:CAT?
> MMEM:LOAD:MACR "M","S";LOAD:STAT 2,"S";:MMEM:DATA "a/b",#10;:SYST:ERR?
> SYST:ERR?
< 1024,1024,"S,STAT,28"
< -113,"Undefined header"
< -257,"File name error"
? *LMC?;:MMEM:CAT?

| 1024,1024,"S,STAT,28"
| -113,"Undefined header"
| -257,"File name error" or -225,"Out of memory" or nothing
= "";0,2048
= "";1024,1024,"S,STAT,28"
= "M";2048,0,"S,STAT,28"

The error's answer is refused.
| 1024,1024,"S,STAT,28"
| nothing
| -113,"Undefined header" or nothing
= "";0,2048
= "";1024,1024,"S,STAT,28"
= "M";2048,0,"S,STAT,28"

The macro is.
| 1024,1024,"S,STAT,28"
| -225,"Out of memory" or nothing
| -113,"Undefined header" or -225,"Out of memory" or nothing
= "";0,2048
= "";1024,1024,"S,STAT,28"

The catalog is, and perhaps the macro.
| nothing
| -225,"Out of memory" or nothing
| -113,"Undefined header" or -225,"Out of memory" or nothing
= "";0,2048
= "";1024,1024,"S,STAT,28"
= "M";2048,0,"S,STAT,28"

| nothing
| -225,"Out of memory" or nothing
| -225,"Out of memory" or nothing
= "";0,2048
= "";1024,1024,"S,STAT,28"

The file is.
| 0,2048 or nothing
| -225,"Out of memory" or nothing
| -256,"File name not found" or -225,"Out of memory" or nothing
= "";0,2048
"#;

#[test]
fn a_state_with_little_memory(rt: HostRuntime) {
    goes_with_little_memory(&rt, rt.alloc(), A_STATE);
}
