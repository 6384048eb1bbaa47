//! Each allocation of contents is refused in turn: a change fails with -225 and changes nothing, and each other step
//! fails because memory is refused.
use crate::holds::holds;
use crate::maps::map_of;
use bumpalo::Bump;
use psu_lex::ScpiError;
use psu_map::Items;
use psu_nv::{Contents, DecodeFault, FileBytes, NvCommand};
use std::alloc::{Allocator, Global};

// Leaves this many bytes of an arena free.
fn leave(arena: &Bump, left: usize) -> Option<()> {
    let spare = arena.chunk_capacity();
    if spare < left {
        return None;
    }
    arena.try_alloc_slice_fill_clone(spare - left, 0u8).ok()?;
    Some(())
}

// Fills the first chunk of an arena, and makes it allocate one more.
fn fill(arena: &Bump) -> Option<()> {
    if arena
        .try_alloc_slice_fill_clone(arena.chunk_capacity(), 0u8)
        .ok()?
        .is_empty()
    {
        return None;
    }
    *arena.try_alloc(0u8).ok()? = 1;
    arena.set_allocation_limit(Some(arena.allocated_bytes()));
    Some(())
}

// Returns an arena with this many bytes free.
fn arena_with(alloc: Global, left: usize) -> Option<Bump> {
    let arena = Bump::try_with_capacity(alloc, 4_000).ok()?;
    fill(&arena)?;
    leave(&arena, left)?;
    Some(arena)
}

// How a step with little memory ended.
#[derive(Clone, Copy)]
enum End {
    Done,
    Refused,
    Wrong,
}

// Returns how a step ended, given its answer and whether the contents are as they must be after a change and after a
// refusal.
fn end_of(answer: Result<(), ScpiError>, done: bool, untouched: bool) -> End {
    match answer {
        Ok(()) if done => End::Done,
        Err(ScpiError::OutOfMemory) if untouched => End::Refused,
        _ => End::Wrong,
    }
}

// Defines a macro.
fn defined<A: Allocator + Copy>(contents: &mut Contents<A>) -> End {
    let answer = contents.change(256, &NvCommand::DefineMacro(b"AB", b"*CLS;*RST"));
    let count = contents.labels().len();
    end_of(answer, count == 1, count == 0 && contents.cost() == 0)
}

// Makes the change of `MMEMory:DATA` with a name.
fn write<A: Allocator + Copy>(
    contents: &mut Contents<A>,
    name: &[u8],
    text: &[u8],
) -> Result<(), ScpiError> {
    match FileBytes::of(text) {
        Some(file) => contents.change(256, &NvCommand::StoreBytes(name, file)),
        None => Err(ScpiError::TooMuchData),
    }
}

// Loads a macro from a file, which is there.
fn loaded<A: Allocator + Copy>(contents: &mut Contents<A>) -> End {
    let answer = contents.change(256, &NvCommand::LoadMacro(b"AB", b"F"));
    let count = contents.labels().len();
    end_of(answer, count == 1, count == 0 && contents.cost() == 2)
}

// Stores a file and loads a macro from it, both with little memory.
fn written_and_loaded<A: Allocator + Copy>(contents: &mut Contents<A>) -> End {
    match write(contents, b"F", b"*CLS;*RST") {
        Ok(()) => loaded(contents),
        refused => end_of(refused, false, contents.cost() == 0),
    }
}

// Stores a file.
fn stored<A: Allocator + Copy>(contents: &mut Contents<A>) -> End {
    let answer = write(
        contents,
        b"NAME",
        b"some bytes of a file, and some more of them, and some more of them, and some more of them, and some more of them, and the last",
    );
    let count = contents.names().len();
    end_of(answer, count == 1, count == 0 && contents.cost() == 0)
}

// A map of every kind of item.
const WHOLE: &str = "
01 | 20 80
03 | 07 08 09
04 | 01 'A 00 01 'x 01 'B 00 01 'y
05 'F | 00 'xyz
05 'G | 02 'xyz
";

// Returns the end of a step that has a result, which must be right.
fn done_if(is: bool) -> End {
    if is { End::Done } else { End::Wrong }
}

// Returns the end of a decoding that failed.
fn refused_by(fault: DecodeFault) -> End {
    match fault {
        DecodeFault::Memory => End::Refused,
        _ => End::Wrong,
    }
}

// Decodes a map.
fn decoded<A: Allocator + Copy>(little: A, items: &Items<A>) -> End {
    match Contents::decode_items(little, items) {
        Ok(contents) => done_if(contents.cost() == items.cost()),
        Err(fault) => refused_by(fault),
    }
}

// Encodes contents.
fn encoded<A: Allocator + Copy>(little: A, contents: &Contents<A>) -> End {
    match contents.encode_items(little) {
        Ok(again) => done_if(again.cost() == contents.cost()),
        Err(_) => End::Refused,
    }
}

// Copies contents.
fn copied<A: Allocator + Copy>(little: A, contents: &Contents<A>) -> End {
    match contents.copy(little) {
        Ok(copy) => done_if(copy.cost() == contents.cost()),
        Err(_) => End::Refused,
    }
}

// Makes a step on contents that must have this cost.
fn step_on<A: Allocator + Copy>(
    step: &str,
    little: A,
    contents: &Contents<A>,
    cost: u128,
) -> Option<End> {
    if contents.cost() != cost {
        return None;
    }
    match step {
        "encoding" => Some(encoded(little, contents)),
        "copy" => Some(copied(little, contents)),
        _ => None,
    }
}

// Makes a step on a map, with ample memory for the steps before it.
fn read<A: Allocator + Copy>(step: &str, ample: A, little: A, items: &Items<A>) -> Option<End> {
    if step == "decoding" {
        return Some(decoded(little, items));
    }
    let contents = Contents::decode_items(ample, items).ok()?;
    step_on(step, little, &contents, items.cost())
}

// Makes a step on fresh contents.
fn changed<A: Allocator + Copy>(step: &str, contents: &mut Contents<A>) -> End {
    match step {
        "macro" => defined(contents),
        "file's macro" => written_and_loaded(contents),
        _ => stored(contents),
    }
}

// Makes a step on contents with this little memory, or on the whole map.
fn ends_with<A: Allocator + Copy>(step: &str, ample: A, little: A) -> Option<End> {
    if step == "macro" || step == "file's macro" || step == "file" {
        return Some(changed(step, &mut Contents::fresh(little)));
    }
    read(step, ample, little, &map_of(ample, WHOLE)?)
}

// Makes a step with this many bytes of memory free. Only here is the memory an arena: each step is over any allocator,
// as a reference with a lifetime is more to prove.
fn ends(alloc: Global, step: &str, left: usize) -> Option<End> {
    let little = arena_with(alloc, left)?;
    let ample = arena_with(alloc, 3_000)?;
    ends_with(step, &ample, &little)
}

// Returns how often a step succeeded and how often it was refused, with 0, 8 and more bytes of memory; `None` where its
// result was wrong.
fn tally(alloc: Global, step: &str) -> Option<(u32, u32)> {
    let mut done = 0u32;
    let mut refused = 0u32;
    for words in 0..200usize {
        match ends(alloc, step, words * 8)? {
            End::Done => done = done.saturating_add(1),
            End::Refused => refused = refused.saturating_add(1),
            End::Wrong => return None,
        }
    }
    Some((done, refused))
}

fn has_both(alloc: Global, step: &str) -> bool {
    match tally(alloc, step) {
        Some((done, refused)) => done > 66 && refused > 33,
        None => false,
    }
}

#[test]
fn each_allocation_of_a_change_refused(rt: HostRuntime) {
    holds(&rt, has_both(rt.alloc(), "macro"), "macro");
    holds(&rt, has_both(rt.alloc(), "file's macro"), "file's macro");
    holds(&rt, has_both(rt.alloc(), "file"), "file");
}

#[test]
fn each_allocation_of_a_map_refused(rt: HostRuntime) {
    holds(&rt, has_both(rt.alloc(), "decoding"), "decoding");
    holds(&rt, has_both(rt.alloc(), "encoding"), "encoding");
    holds(&rt, has_both(rt.alloc(), "copy"), "copy");
}
