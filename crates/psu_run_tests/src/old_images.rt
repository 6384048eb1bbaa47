//! An image of version 1, as an instrument of that version wrote it: it is read unchanged, and the next commit makes it
//! version 2.
use crate::images::{left_by, reported, written_on};
use crate::spelled::spoiled;
use psu_disk::MemDisk;
use psu_items::IMAGE_SIZE;
use std::alloc::Global;

// Root 1 has the number 2, is open and names one head, on page 2: that of the item of register 3, of 28 bytes on page
// 3. They are the settings of `*RST` except for 5.25 V on output 1.
const VERSION_1: &str = "
 512: a5 'PSU 00 01 01 00 00*7 02 00 01 00 02;
1024: 02 02 03 00 00 00 1c 00 01 00 03;
1536: 14 82 00 00 ea 60 00*5 ea 60 00*5 ea 60 00*5 ea 60 00
";

// Returns the image, byte for byte.
fn old_image(alloc: Global) -> Option<MemDisk<Global>> {
    spoiled(alloc, MemDisk::new(alloc, IMAGE_SIZE).ok()?, VERSION_1)
}

// Whether the report on a disk begins with this text.
fn begins(alloc: Global, disk: MemDisk<Global>, report: &str) -> Option<bool> {
    Some(reported(alloc, disk)?.starts_with(report.as_bytes()))
}

const UNCHANGED: &str = "image version 1 root 2\npages 2 of 256\n";

fn is_reported(alloc: Global) -> Option<bool> {
    begins(alloc, old_image(alloc)?, UNCHANGED)
}

#[test]
fn an_image_of_version_1_is_reported_unchanged(rt: HostRuntime) {
    assert!(rt; is_reported(rt.alloc()) == Some(true));
}

fn is_unchanged(alloc: Global) -> Option<bool> {
    let disk = left_by(alloc, old_image(alloc)?, b"*RCL 3;VOLT?\n")?;
    begins(alloc, disk, UNCHANGED)
}

// Reading it writes nothing: it stays version 1.
#[test]
fn a_run_without_a_commit_leaves_version_1(rt: HostRuntime) {
    assert!(rt; is_unchanged(rt.alloc()) == Some(true));
}

const SAVE: &[u8] = b"*RCL 3;VOLT?\nVOLT 1;*SAV 42;*OPC?\n";

fn is_saved(alloc: Global) -> Option<bool> {
    let written = written_on(alloc, old_image(alloc)?, SAVE)?;
    let disk = left_by(alloc, old_image(alloc)?, SAVE)?;
    let is_new = begins(alloc, disk, "image version 2 root 3\npages 4 of 256\n")?;
    Some(is_new && written.as_slice() == b"5.250\n1\n".as_slice())
}

#[test]
fn a_save_makes_it_version_2(rt: HostRuntime) {
    assert!(rt; is_saved(rt.alloc()) == Some(true));
}
