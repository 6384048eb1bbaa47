//! Runs on contents that are spelled byte by byte: a macro whose body has two lines, which no line of a run can define,
//! and a file with the bytes of settings.
use crate::images::{formatted, least, written_on};
use crate::spelled::spoiled;
use psu_tables::bytes;
use std::alloc::Global;

// An image with the macro L of the body `SOUR2:VOLT 1;VOLT?`, a line feed, `VOLT 2;VOLT?`: a head on page 2, of the key
// 4 and 35 bytes of value on page 3, which are the length of the label, the label, the length of the body, and the
// body.
const A_MACRO_OF_TWO_LINES: &str = "
  16: 00 01 00 02;
1024: 01 04 00 00 00 23 00 01 00 03;
1536: 01 'L 00 1f 'SOUR2:VOLT 20 '1 3b 'VOLT? 0a 'VOLT 20 '2 3b 'VOLT?
";

// Returns what a call of that macro writes.
fn written_by_call(alloc: Global) -> Option<Vec<u8>> {
    let disk = spoiled(alloc, formatted(alloc)?, A_MACRO_OF_TWO_LINES)?;
    let input = b"*EMC 1;SOUR3:VOLT 3;L;VOLT?;:SOUR2:VOLT?;:VOLT?\n";
    written_on(alloc, disk, input)
}

// A line feed in an expansion returns the path to the root, and does not end the response.
#[test]
fn an_expansion_of_two_lines(rt: HostRuntime) {
    let written = written_by_call(rt.alloc()).expect(&rt, "the run ends well");
    assert!(rt; written.as_slice() == b"1.000;2.000;3.000;1.000;2.000\n".as_slice());
}

// A file of 28 bytes: its command, and then the bytes.
const SETTINGS: &str =
    "'MMEM:DATA 20 '\"D\",#228 03 e8 00 00 ea 60 00*5 ea 60 00*5 ea 60 00*5 ea 60 00 0a";

// Returns what a run on a small image writes that is sent the file and recalls it.
fn written_by_recall(alloc: Global) -> Option<Vec<u8>> {
    let mut input = bytes(alloc, SETTINGS)?;
    input
        .extend_from_slice(b"MMEM:LOAD:STAT 1,\"D\";*RCL 1;:VOLT?;:VOLT:PROT?;:MMEM:CAT?\n")
        .ok()?;
    written_on(alloc, least(alloc)?, &input)
}

// The bytes of settings in a file that `MMEM:DATA` stored: output 1 at 1 volt.
#[test]
fn bytes_of_settings_are_a_state(rt: HostRuntime) {
    let written = written_by_recall(rt.alloc()).expect(&rt, "the run ends well");
    assert!(rt; written.as_slice() == b"1.000;60.000;2048,0,\"D,BIN,28\"\n".as_slice());
}
