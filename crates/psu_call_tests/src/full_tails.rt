//! Units at the greatest number of unflushed changes, and at one less, on a store that is broken or worn: none of them
//! waits.
use crate::plays::{LEAST, device_with, disk_after, disk_of, image_of, plays};
use psu_disk::{Disk, FailingDisk, MemDisk};
use psu_exec::Exec;
use std::alloc::Allocator;
use std::process::Abort;

// How many calls of a disk open it.
const OPENING: u64 = 3;

// The place of the first root's number in an image.
const NUMBER: u64 = 8;

// A job fails, and no later one succeeds. A nonvolatile unit and `*OPC?` are then -320, a unit with another refusal has
// that one, and any other unit is executed.
const REFUSED: &str = "flush
unflushed
1: *SAV 2 -> error
1: SYST:ERR? -> -320,\"Storage fault\"
1: *PSC 0 -> error
1: SYST:ERR? -> -320,\"Storage fault\"
1: *OPC? -> error
1: SYST:ERR? -> -320,\"Storage fault\"
1: *SAV 100 -> error
1: SYST:ERR? -> -222,\"Data out of range\"
1: *PUD #11x -> error
1: SYST:ERR? -> -203,\"Command protected\"
1: MMEM:DEL \"A\" -> error
1: SYST:ERR? -> -256,\"File name not found\"
1: *IDN? -> EXAMPLE,PSU4,0,1.0
1: VOLT 1 -> done
1: SYST:ERR? -> 0,\"No error\"
flush
unflushed";

// A change is later while the store is whole, -320 while it is broken, later again once it is reopened, and accepted
// once the changes before it are flushed.
const LATER: &str = "1: *SAV 2 -> later
1: *PUD #11x -> later
flush
broken
1: *SAV 2 -> error
1: SYST:ERR? -> -320,\"Storage fault\"
flush
whole
unflushed
1: *SAV 2 -> later
flush
flushed
1: *SAV 2 -> done
1: SYST:ERR? -> 0,\"No error\"
flush";

// Returns a device with this many unflushed changes.
fn filled<D: Disk + Drop, A: Allocator + Copy>(
    rt: &impl Abort,
    alloc: A,
    disk: D,
    changes: u32,
) -> Exec<D, A> {
    let mut exec = device_with(rt, alloc, disk);
    plays(rt, &mut exec, "open 1\n1: VOLT 1 -> done");
    for _ in 0..changes {
        plays(rt, &mut exec, "1: *SAV 1 -> done");
    }
    exec
}

// Checks that nothing waits with this many unflushed changes on a disk to which none of them can be flushed.
fn refuses<D: Disk + Drop, A: Allocator + Copy>(rt: &impl Abort, alloc: A, disk: D, changes: u32) {
    let mut exec = filled(rt, alloc, disk, changes);
    plays(rt, &mut exec, REFUSED);
    disk_of(rt, exec);
}

// Returns the disk of an image whose root has the last number.
fn worn<A: Allocator + Copy>(rt: &impl Abort, alloc: A) -> MemDisk<A> {
    let mut disk = image_of(rt, alloc, LEAST);
    let is_worn = disk.size() >= NUMBER + 8 && disk.write(NUMBER, &[0xff; 8]).is_ok();
    assert!(rt; is_worn);
    disk
}

#[test]
fn nothing_waits_for_a_broken_store(rt: HostRuntime) {
    let alloc = rt.alloc();
    for changes in 1_023..1_025u32 {
        let disk = FailingDisk::from_then_on(image_of(&rt, alloc, LEAST), OPENING);
        refuses(&rt, alloc, disk, changes);
    }
}

#[test]
fn nothing_waits_for_a_worn_store(rt: HostRuntime) {
    let alloc = rt.alloc();
    for changes in 1_023..1_025u32 {
        refuses(&rt, alloc, worn(&rt, alloc), changes);
    }
}

#[test]
fn a_change_waits_for_a_whole_store(rt: HostRuntime) {
    let alloc = rt.alloc();
    let disk = FailingDisk::once(image_of(&rt, alloc, LEAST), OPENING);
    let mut exec = filled(&rt, alloc, disk, 1_024);
    plays(&rt, &mut exec, LATER);
    let disk = disk_of(&rt, exec).into_inner();
    disk_after(&rt, alloc, disk, "open 1\n1: *RCL 2 -> done\nflushed");
}
