//! Disks in files: which are refused, also one in use, and what a file keeps.
use crate::holds::holds;
use crate::spelled::{put, word_at};
use psu_disk::{Disk, FileDisk, OpenFault, OsFiles};
use std::alloc::Global;
use std::fs::{File, OpenOptions};
use std::os::unix::fs::MetadataExt;
use std::process::Abort;
use std::rt::Files;

/// Returns a disk of this many bytes in a new file of this name.
pub(crate) fn new_disk(
    rt: &(impl Abort + Files<File = File>),
    alloc: Global,
    name: &str,
    size: u64,
) -> FileDisk {
    let _ = std::fs::remove_file(rt, name);
    FileDisk::make(&mut OsFiles { files: rt }, alloc, name, size).expect(rt, "a new file")
}

/// Changes the length of a file without the knowledge of the disk in it.
pub(crate) fn set_length(rt: &(impl Abort + Files<File = File>), name: &str, length: u64) {
    let mut options = OpenOptions::new();
    let file = options.write(true).open(rt, name).expect(rt, "the file");
    file.set_len(length).expect(rt, "a length");
}

/// Removes a file.
pub(crate) fn remove(rt: &(impl Abort + Files<File = File>), name: &str) {
    std::fs::remove_file(rt, name).expect(rt, "the file");
}

const NAME: &str = "a_disk_for_a_test.image";

// Returns why no disk is found in a file; `None` where one is.
fn unfound(rt: &impl Files<File = File>, alloc: Global, name: &str) -> Option<OpenFault> {
    FileDisk::of(&mut OsFiles { files: rt }, alloc, name).err()
}

// Returns why no disk of 4,096 bytes is made in a file; `None` where one is.
fn unmade(rt: &impl Files<File = File>, alloc: Global, name: &str) -> Option<OpenFault> {
    FileDisk::make(&mut OsFiles { files: rt }, alloc, name, 4_096).err()
}

// Checks that a disk is not found or not made, for this cause.
fn is_for(rt: &impl Abort, found: Option<OpenFault>, cause: OpenFault) {
    holds(rt, found == Some(cause), &(found, cause));
}

// Checks that no disk is found where there is no file, or a folder, nor made where there is no folder.
fn are_not_there(rt: &(impl Abort + Files<File = File>), alloc: Global) {
    let _ = std::fs::remove_file(rt, NAME);
    is_for(rt, unfound(rt, alloc, NAME), OpenFault::NoFile);
    is_for(rt, unfound(rt, alloc, "."), OpenFault::NotOpened);
    let made = unmade(rt, alloc, "no_such_folder/file");
    is_for(rt, made, OpenFault::NoFile);
}

// Checks that a file with a disk that is in use takes no other.
fn is_in_use(rt: &(impl Abort + Files<File = File>), alloc: Global) {
    is_for(rt, unmade(rt, alloc, NAME), OpenFault::Exists);
    is_for(rt, unfound(rt, alloc, NAME), OpenFault::NotOpened);
}

// Writes the last two bytes of a disk of 4,096 bytes.
fn takes_its_last<D: Disk>(rt: &impl Abort, disk: &mut D) {
    holds(rt, disk.size() == 4_096, &"the size");
    put(rt, disk, 4_094, &[7, 8]);
}

// Makes a disk, checks that it is in use, and writes its last two bytes.
fn is_made(rt: &(impl Abort + Files<File = File>), alloc: Global) {
    let mut disk = FileDisk::make(&mut OsFiles { files: rt }, alloc, NAME, 4_096).expect(
        rt,
        "a new file",
    );
    is_in_use(rt, alloc);
    takes_its_last(rt, &mut disk);
}

// Checks that a disk that is found has these bytes.
fn has_its_last<D: Disk + Drop>(rt: &impl Abort, mut disk: D) {
    holds(rt, disk.size() == 4_096, &"the size");
    holds(rt, word_at(rt, &mut disk, 4_094) == 0x0708, &"the bytes");
    holds(rt, disk.faults() == 0, &"a failed call");
}

// Checks that a file is made once, and keeps its bytes.
fn is_made_once(rt: &(impl Abort + Files<File = File>), alloc: Global) {
    are_not_there(rt, alloc);
    is_made(rt, alloc);
    has_its_last(
        rt,
        FileDisk::of(&mut OsFiles { files: rt }, alloc, NAME).expect(rt, "the file"),
    );
    remove(rt, NAME);
}

#[test]
fn a_file_is_made_once_and_keeps_its_bytes(rt: HostRuntime) {
    is_made_once(&rt, rt.alloc());
}

const NEW: &str = "a_new_disk_for_a_test.image";

// Checks that a file takes room for 4,096 bytes: 8 blocks of 512 bytes or more.
fn has_its_room(rt: &(impl Abort + Files<File = File>), name: &str) {
    let metadata = std::fs::metadata(rt, name).expect(rt, "the file");
    holds(rt, metadata.blocks() >= 8, &"the blocks");
}

// Checks that a file holds 4,096 bytes 00.
fn is_of_zeros(rt: &(impl Abort + Alloc + Files<File = File>), name: &str) {
    let bytes = std::fs::read(rt, name).expect(rt, "its bytes");
    let is_so = bytes.as_slice() == [0; 4_096].as_slice();
    holds(rt, is_so, &"the bytes");
}

#[test]
fn a_new_file_is_of_zeros_and_has_its_room(rt: HostRuntime) {
    drop(new_disk(&rt, rt.alloc(), NEW, 4_096));
    has_its_room(&rt, NEW);
    is_of_zeros(&rt, NEW);
    remove(&rt, NEW);
}

// Syncs a disk, which succeeds, and has it confirmed, which succeeds or fails; checks the count of its failures.
fn confirms<D: Disk>(rt: &impl Abort, disk: &mut D, works: bool, faults: u64) {
    holds(rt, disk.sync().is_ok(), &"the sync");
    holds(rt, disk.confirm().is_ok() == works, &"the look");
    holds(rt, disk.faults() == faults, &"the failed calls");
}

const CUT: &str = "a_cut_disk_for_a_test.image";

// Checks that a disk of 4,096 bytes is confirmed while its file has its length, and at no other.
fn needs_its_length<D: Disk + Drop>(rt: &(impl Abort + Files<File = File>), mut disk: D) {
    confirms(rt, &mut disk, true, 0);
    set_length(rt, CUT, 4_095);
    confirms(rt, &mut disk, false, 1);
    set_length(rt, CUT, 4_097);
    confirms(rt, &mut disk, false, 2);
    set_length(rt, CUT, 4_096);
    confirms(rt, &mut disk, true, 2);
    remove(rt, CUT);
}

// Nothing is confirmed while the length of the file differs from that of the disk.
#[test]
fn a_file_that_was_cut_short_is_not_confirmed(rt: HostRuntime) {
    needs_its_length(&rt, new_disk(&rt, rt.alloc(), CUT, 4_096));
}

const LOST: &str = "a_lost_disk_for_a_test.image";

// Checks that a disk is confirmed until its file loses its name.
fn needs_a_name<D: Disk + Drop>(rt: &(impl Abort + Files<File = File>), mut disk: D) {
    confirms(rt, &mut disk, true, 0);
    remove(rt, LOST);
    confirms(rt, &mut disk, false, 1);
}

#[test]
fn a_file_that_lost_its_name_is_not_confirmed(rt: HostRuntime) {
    needs_a_name(&rt, new_disk(&rt, rt.alloc(), LOST, 4_096));
}

const NAMED: &str = "a_replaced_disk_for_a_test.image";

const OTHER: &str = "another_disk_for_a_test.image";

// Gives a file another name.
fn rename(rt: &(impl Abort + Files<File = File>), from: &str, to: &str) {
    std::fs::rename(rt, from, to).expect(rt, "another name");
}

// Checks that a disk is confirmed until another file has its name.
fn needs_its_name<D: Disk + Drop>(rt: &(impl Abort + Files<File = File>), mut disk: D) {
    confirms(rt, &mut disk, true, 0);
    rename(rt, OTHER, NAMED);
    confirms(rt, &mut disk, false, 1);
    remove(rt, NAMED);
}

// Another file of the same length replaces it, and it keeps no name.
#[test]
fn a_file_that_was_replaced_is_not_confirmed(rt: HostRuntime) {
    drop(new_disk(&rt, rt.alloc(), OTHER, 4_096));
    needs_its_name(&rt, new_disk(&rt, rt.alloc(), NAMED, 4_096));
}

const BEFORE: &str = "a_renamed_disk_for_a_test.image";

const AFTER: &str = "a_disk_renamed_for_a_test.image";

// Checks that a disk is confirmed after its file has got another name.
fn needs_any_name<D: Disk + Drop>(rt: &(impl Abort + Files<File = File>), mut disk: D) {
    rename(rt, BEFORE, AFTER);
    confirms(rt, &mut disk, true, 0);
    remove(rt, AFTER);
}

// A file that was only renamed is intact.
#[test]
fn a_file_that_was_renamed_is_confirmed(rt: HostRuntime) {
    needs_any_name(&rt, new_disk(&rt, rt.alloc(), BEFORE, 4_096));
}

const LARGE: &str = "a_large_disk_for_a_test.image";

// Checks that a file of 16 MiB is opened, and one that is longer by a byte is not.
fn has_16_mib_at_most(rt: &(impl Abort + Files<File = File>), alloc: Global) {
    drop(new_disk(rt, alloc, LARGE, 4_096));
    set_length(rt, LARGE, 16_777_216);
    holds(rt, unfound(rt, alloc, LARGE).is_none(), &"16 MiB");
    set_length(rt, LARGE, 16_777_217);
    is_for(rt, unfound(rt, alloc, LARGE), OpenFault::NotOpened);
    remove(rt, LARGE);
}

#[test]
fn a_file_of_more_than_16_mib_is_refused(rt: HostRuntime) {
    has_16_mib_at_most(&rt, rt.alloc());
}
