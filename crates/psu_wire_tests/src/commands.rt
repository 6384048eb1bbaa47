//! The commands of units in the command tree: files, nonvolatile commands, and macro calls.
use crate::holds::holds;
use crate::tree::{read, unit_of};
use psu_tables::row;
use psu_tree::{Command, Path, nonvolatile, request};

// Whether a unit, which changes nonvolatile state, stores this file; one without a name where none is wanted.
fn puts(text: &[u8], wanted: Option<&[u8]>, contents: &[u8]) -> bool {
    match read(text) {
        Ok(command) => nonvolatile(&command, true) && is_file(&command, wanted, contents),
        Err(_) => false,
    }
}

fn is_file(command: &Command<'_>, wanted: Option<&[u8]>, contents: &[u8]) -> bool {
    match command {
        Command::Contents(Some(name), body) => Some(name.as_slice()) == wanted
            && body.as_slice() == contents,
        Command::Contents(None, body) => wanted.is_none() && body.as_slice() == contents,
        _ => false,
    }
}

#[test]
fn files(rt: HostRuntime) {
    assert!(rt; puts(b"MMEM:DATA 'a-b', #0x;y\n", Some(b"a-b"), b"x;y\n"));
    assert!(rt; puts(b"MMEM:DATA 'a''b',#10", None, b""));
}

// Whether a unit changes nonvolatile state, where the power-on status clear flag is this.
fn changes(text: &[u8], flag: bool) -> bool {
    match read(text) {
        Ok(command) => nonvolatile(&command, flag),
        Err(_) => false,
    }
}

#[test]
fn enables_that_are_kept(rt: HostRuntime) {
    assert!(rt; changes(b"*SRE 1", false) && !changes(b"*SRE 1", true));
}

// Units, and whether each is a macro call where a macro with its label is defined.
const CALLS: &str = r#"
SETA 3, "x" -> yes
VOLT 1E32001 -> yes
ABCDEFGHIJKL -> yes
ABCDEFGHIJKLM -> no
:SETA 3 -> no
SETA? -> no
*RST -> no
A:B -> no
SETA 1, -> no
"#;

// Whether a unit is read inside of a macro call, and is a call itself where it is wanted.
fn calls(text: &[u8], wanted: bool) -> bool {
    let read = request(&mut Path::root(), &unit_of(text), true);
    read.inside && read.call.is_some() == wanted
}

fn is_call(line: &str) -> bool {
    match row(line) {
        Some((text, wanted)) => calls(text.as_bytes(), wanted == "yes"),
        None => line.is_empty(),
    }
}

#[test]
fn calls_of_macros(rt: HostRuntime) {
    for line in CALLS.lines() {
        holds(&rt, is_call(line), line);
    }
}
