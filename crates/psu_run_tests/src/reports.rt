//! What `recover` reports of images.
use crate::holds::holds;
use crate::images::{formatted, left_by, reported, written_on};
use crate::texts::add_line;
use crate::transcripts::lines_after;
use psu_call_steps::{image, play, powered_on};
use psu_disk::MemDisk;
use psu_exec::Ended;
use psu_items::IMAGE_SIZE;
use psu_run::{RecoverFault, StartCause, recover};
use std::alloc::Global;
use std::process::Abort;

// Whether the report on the image after a run is the one of a row: the lines that are sent follow `> `, and those of
// the report follow `= `.
fn is_reported(alloc: Global, row: &str) -> Option<bool> {
    let input = lines_after(alloc, row, "> ")?;
    let disk = left_by(alloc, formatted(alloc)?, &input)?;
    Some(reported(alloc, disk)? == lines_after(alloc, row, "= ")?)
}

// Checks the reports of some rows, with an empty line between two.
fn are_reported(rt: &impl Abort, alloc: Global, rows: &str) {
    for row in rows.split("\n\n") {
        holds(rt, is_reported(alloc, row) == Some(true), &row);
    }
}

const IMAGES_THAT_ROWS_LEAVE: &str = r#"
> *PSC 0;*SRE 32;*ESE 128;*OPC?
> !POWER
> *STB?;*ESR?;*STB?
= image version 2 root 2
= pages 2 of 256
= enables 32 128
= request 96
= user 0
= macros 0

> MMEM:DATA "A",#13xyz;*OPC?
> !POWER
> MMEM:DATA? "A";:MMEM:DEL "B"
> SYST:ERR?
> MMEM:CAT?
= image version 2 root 2
= pages 2 of 256
= enables none
= request none
= user 0
= macros 0
= file A,BIN,3

A register of settings.
> VOLT 5.25;*SAV 3;*OPC?
> !POWER
> VOLT?;*RCL 3;VOLT?
= image version 2 root 2
= pages 2 of 256
= enables none
= request none
= user 0
= macros 0

Two pages each: the user data, the macros, and the files, which stand in byte order of their names.
> DIAG:PUD:PROT OFF;*PUD #13abc;*DMC "AB",#15*CLS;;*DMC "C",#10;:MMEM:STOR:STAT 1,"st.a";MACR "AB","Z"
= image version 2 root 2
= pages 8 of 256
= enables none
= request none
= user 3
= macros 2
= file Z,MACR,5
= file st.a,STAT,28

Two pages each: register 0, the enables, and the choice of register 0 at power-on.
> *PSC 0;*SRE 32;*ESE 128;VOLT 5;*SAV 0;OUTP:PON:STAT RCL0;*OPC?
= image version 2 root 2
= pages 6 of 256
= enables 32 128
= request 96
= power RCL0
= user 0
= macros 0
"#;

#[test]
fn images_that_rows_leave(rt: HostRuntime) {
    are_reported(&rt, rt.alloc(), IMAGES_THAT_ROWS_LEAVE);
}

// Three files of the greatest length, and a fourth. A file takes a page for each 512 bytes begun of its type and its
// bytes, and one more: 66 three times, and 58, 57 or 56.
const IMAGES_THAT_FILES_FILL: &str = r#"
> MMEM:DATA "A",#532768{x*32768}
> MMEM:DATA "B",#532768{x*32768}
> MMEM:DATA "C",#532768{x*32768}
> MMEM:DATA "D",#529183{x*29183}
= image version 2 root 2
= pages 256 of 256
= enables none
= request none
= user 0
= macros 0
= file A,BIN,32768
= file B,BIN,32768
= file C,BIN,32768
= file D,BIN,29183

> MMEM:DATA "A",#532768{x*32768}
> MMEM:DATA "B",#532768{x*32768}
> MMEM:DATA "C",#532768{x*32768}
> MMEM:DATA "D",#528671{x*28671}
= image version 2 root 2
= pages 255 of 256
= enables none
= request none
= user 0
= macros 0
= file A,BIN,32768
= file B,BIN,32768
= file C,BIN,32768
= file D,BIN,28671

> MMEM:DATA "A",#532768{x*32768}
> MMEM:DATA "B",#532768{x*32768}
> MMEM:DATA "C",#532768{x*32768}
> MMEM:DATA "D",#528159{x*28159}
= image version 2 root 2
= pages 254 of 256
= enables none
= request none
= user 0
= macros 0
= file A,BIN,32768
= file B,BIN,32768
= file C,BIN,32768
= file D,BIN,28159
"#;

#[test]
fn images_that_files_fill(rt: HostRuntime) {
    are_reported(&rt, rt.alloc(), IMAGES_THAT_FILES_FILL);
}

const OF_A_FRESH_IMAGE: &str =
    "image version 2 root 1\npages 0 of 256\nenables none\nrequest none\nuser 0\nmacros 0\n";

// Whether a disk of this many bytes 00 is not an image.
fn is_none(alloc: Global, size: u64) -> Option<bool> {
    let disk = MemDisk::new(alloc, size).ok()?;
    Some(recover(alloc, disk).found.err()? == RecoverFault::Start(StartCause::NoRoot))
}

#[test]
fn images_that_are_none(rt: HostRuntime) {
    let fresh = formatted(rt.alloc()).expect(&rt, "an image");
    let text = reported(rt.alloc(), fresh).expect(&rt, "a report");
    assert!(rt; text.as_slice() == OF_A_FRESH_IMAGE.as_bytes());
    for size in [0, 1_023, IMAGE_SIZE] {
        holds(&rt, is_none(rt.alloc(), size) == Some(true), &size);
    }
}

// Returns the lines that fill an image of 480 pages with 240 items of two pages each: a hundred registers, and files of
// one byte. Each line has these texts before and after it.
fn filling_lines(alloc: Global, before: &str, after: &str) -> Option<Vec<u8>> {
    let mut lines = Vec::new(alloc);
    let line = format!(in alloc; "{before}VOLT 1{after}").ok()?;
    add_line(alloc, &mut lines, &line)?;
    for register in 0..100u8 {
        let line = format!(in alloc; "{before}*SAV {register}{after}").ok()?;
        add_line(alloc, &mut lines, &line)?;
    }
    for file in 100..240u8 {
        let line = format!(in alloc; "{before}MMEM:DATA \"F{file}\",#11x{after}").ok()?;
        add_line(alloc, &mut lines, &line)?;
    }
    Some(lines)
}

// Returns the report on an image filled by them.
fn report_of_filled(alloc: Global) -> Option<Vec<u8>> {
    let head =
        b"image version 2 root 2\npages 480 of 480\nenables none\nrequest none\nuser 0\nmacros 0\n";
    let mut report = head.to_vec(alloc).ok()?;
    for file in 100..240u8 {
        add_line(
            alloc,
            &mut report,
            &format!(in alloc; "file F{file},BIN,1").ok()?,
        )?;
    }
    Some(report)
}

// Whether the largest image is reported correctly, and one more change does not fit.
fn is_filled(alloc: Global) -> Option<bool> {
    let mut input = filling_lines(alloc, "", "")?;
    let disk = left_by(alloc, image(alloc, 480)?, &input)?;
    let is_reported = reported(alloc, disk)? == report_of_filled(alloc)?;
    input
        .extend_from_slice(b"*OPC?\n*SRE 4;*PSC 0;:SYST:ERR?\n")
        .ok()?;
    let written = written_on(alloc, image(alloc, 480)?, &input)?;
    Some(is_reported && written.as_slice() == b"1\n-254,\"Media full\"\n".as_slice())
}

#[test]
fn an_image_of_the_greatest_limit_is_filled(rt: HostRuntime) {
    assert!(rt; is_filled(rt.alloc()) == Some(true));
}

// Returns the disk of a device after these steps, each of which holds, with a whole store.
fn left_by_steps(alloc: Global, disk: MemDisk<Global>, steps: &str) -> Option<MemDisk<Global>> {
    let mut exec = powered_on(alloc, disk)?;
    let played = play(&mut exec, steps);
    match (played, exec.end()) {
        (Ok(_), Ended::Whole(store)) => Some(store.into_disk()),
        _ => None,
    }
}

// Whether the largest image is reported correctly that was filled unit by unit, with one job.
fn is_filled_by_units(alloc: Global) -> Option<bool> {
    let mut steps = b"open 1\n".to_vec(alloc).ok()?;
    steps
        .extend_from_slice(&filling_lines(alloc, "1: ", " -> done")?)
        .ok()?;
    steps.extend_from_slice(b"flush\nflushed\n").ok()?;
    let disk = left_by_steps(alloc, image(alloc, 480)?, str::from_utf8(&steps).ok()?)?;
    Some(reported(alloc, disk)? == report_of_filled(alloc)?)
}

#[test]
fn an_image_is_filled_unit_by_unit(rt: HostRuntime) {
    assert!(rt; is_filled_by_units(rt.alloc()) == Some(true));
}
