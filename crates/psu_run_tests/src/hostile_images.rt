//! Images that are refused, each for its cause, and one whose root number is the last.
use crate::holds::holds;
use crate::images::formatted;
use crate::runs::run_on;
use crate::spelled::spoiled;
use psu_run::{RecoverFault, RunCause, StartCause, recover};
use psu_tables::row;
use std::alloc::Global;
use std::process::Abort;

// Whether a cause is the one with this text.
fn is_cause(fault: RecoverFault, wanted: &str) -> bool {
    match fault {
        RecoverFault::Start(StartCause::NoRoot) => wanted == "no root",
        RecoverFault::Start(StartCause::BadRoot) => wanted == "bad root",
        RecoverFault::Start(StartCause::BadVersion) => wanted == "bad version",
        RecoverFault::Start(StartCause::BadItems) => wanted == "bad items",
        RecoverFault::Start(StartCause::Device) | RecoverFault::Memory(_) => false,
    }
}

// Whether a formatted image with these parts written over it is refused for its cause, which has the same text.
fn is_refused(alloc: Global, parts: &str, wanted: &str) -> Option<bool> {
    let disk = spoiled(alloc, formatted(alloc)?, parts)?;
    let fault = recover(alloc, disk).found.err()?;
    let text = format!(in alloc; "{fault}").ok()?;
    Some(is_cause(fault, wanted) && text.as_str() == wanted)
}

// Checks that each image of a table is refused for its cause.
fn are_refused(rt: &impl Abort, alloc: Global, table: &str) {
    let mut rows = 0u32;
    for line in table.lines() {
        if let Some((parts, wanted)) = row(line) {
            holds(rt, is_refused(alloc, parts, wanted) == Some(true), &line);
            rows = rows.saturating_add(1);
        }
    }
    holds(rt, rows > 0, &table);
}

// The first root of a formatted image has the number 1, and its gate is open.
const ROOTS: &str = "
0: 00 -> no root
0: a4 -> no root
3: 58 -> bad root
4: 00 07 -> bad version
4: 00 00 -> bad version

Both roots are open and have the same number.
512: a5 'PSU 00 01 01 00 00*7 01 00*2 -> bad root
";

#[test]
fn spoiled_roots_are_refused(rt: HostRuntime) {
    are_refused(&rt, rt.alloc(), ROOTS);
}

// A head on page 2 with the key 7 and a value of one byte on page 3. The root's count of items is at 16, and the pool
// ends at page 513.
const HEADS: &str = "
1024: 01 07 00*3 01 00 01 00 03; 16: 00 01 00 02 -> bad items
16: 00 01 00 01 -> bad root
16: 00 01 02 02 -> bad root
1024: 01 07 00*3 01 00 01 00 03; 1032: 02 02; 16: 00 01 00 02 -> bad root

A page twice: both heads, or the head's own for its value.
1024: 01 07 00*3 01 00 01 00 03; 16: 00 02 00 02 00 02 -> bad root
1024: 01 07 00*3 01 00 01 00 03; 1032: 00 02; 16: 00 01 00 02 -> bad root
";

#[test]
fn spoiled_heads_are_refused(rt: HostRuntime) {
    are_refused(&rt, rt.alloc(), HEADS);
}

// Whether an image with the last number ends a run with changes that are not flushed.
fn last_takes_no_save(alloc: Global) -> Option<bool> {
    let disk = spoiled(alloc, formatted(alloc)?, "8: ff*8")?;
    let ended = run_on(alloc, b"*SAV 1;*OPC?\nSYST:ERR?\n", disk);
    let is_storage_fault = ended.text.as_slice() == b"-320,\"Storage fault\"\n".as_slice();
    Some(ended.cause == Some(RunCause::Device) && is_storage_fault)
}

// No commit can be made to such an image: the save is not confirmed, and the run ends with changes that are not
// flushed.
#[test]
fn the_last_number_takes_no_save(rt: HostRuntime) {
    assert!(rt; last_takes_no_save(rt.alloc()) == Some(true));
}
