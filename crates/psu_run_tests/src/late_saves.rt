//! Saves past the number of changes that may be unflushed, in runs on disks to which no change can be flushed.
use crate::holds::holds;
use crate::images::least;
use crate::runs::run_on;
use psu_disk::{Disk, FailingDisk, MemDisk};
use psu_run::RunCause;
use psu_tables::written;
use std::alloc::Global;

// How many calls of a disk open it, and how many more may pass in a commit that the next call breaks.
const OPENING: u64 = 3;

const COMMIT: u64 = 8;

// The place of the first root's number in an image.
const NUMBER: u64 = 8;

// As many saves as may be unflushed, and two more. The first of these is late, and is executed after a flush.
const SAVES: &str =
    "VOLT 1\\n{*SAV 1\\n*1024}*SAV 2;*SAV 2;:SYST:ERR?;:SYST:ERR?;:SYST:ERR?;*IDN?\\n";

const REFUSED: &str =
    "-320,\"Storage fault\";-320,\"Storage fault\";0,\"No error\";EXAMPLE,PSU4,0,1.0\n";

// Whether both are -320, and the run fails only at its end, where changes are left, with a store that is worn or not.
fn refuses<D: Disk + Drop>(alloc: Global, disk: D, is_worn: bool) -> Option<bool> {
    let input = written(alloc, SAVES)?;
    let ran = run_on(alloc, input.as_bytes(), disk);
    let is_told = ran.cause == Some(RunCause::Device) && ran.is_worn == is_worn;
    Some(is_told && ran.text.as_slice() == REFUSED.as_bytes())
}

// The same where the disk stops after this many calls.
fn refuses_once_stopped(alloc: Global, calls: u64) -> Option<bool> {
    refuses(
        alloc,
        FailingDisk::from_then_on(least(alloc)?, calls),
        false,
    )
}

// Returns the disk of an image whose root has the last number.
fn worn(alloc: Global) -> Option<MemDisk<Global>> {
    let mut disk = least(alloc)?;
    if disk.size() < NUMBER + 8 {
        return None;
    }
    disk.write(NUMBER, &[0xff; 8]).ok()?;
    Some(disk)
}

// The flush leaves the store broken.
#[test]
fn late_saves_on_a_disk_that_stops(rt: HostRuntime) {
    for calls in OPENING..OPENING + COMMIT {
        let is_so = refuses_once_stopped(rt.alloc(), calls);
        holds(&rt, is_so == Some(true), &calls);
    }
}

// The flush leaves the store worn.
#[test]
fn late_saves_on_a_worn_disk(rt: HostRuntime) {
    let alloc = rt.alloc();
    let is_so = match worn(alloc) {
        Some(disk) => refuses(alloc, disk, true) == Some(true),
        None => false,
    };
    holds(&rt, is_so, &SAVES);
}
