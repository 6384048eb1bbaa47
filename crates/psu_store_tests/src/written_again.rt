//! What a disk writes again after a failed call, over a file whose pages are rolled back: the bytes come from memory.
use crate::ForgettingMedium;
use crate::faulty_file::FaultyFile;
use crate::holds::holds;
use crate::spelled::{word_at, write};
use psu_disk::{Choice, Disk, KeptDisk, SystemFile};
use std::alloc::Allocator;
use std::process::Abort;

type OnFile<A> = KeptDisk<SystemFile<FaultyFile<A>, A>, A>;

// Returns the disk in a file.
fn disk_in<A: Allocator + Copy>(rt: &impl Abort, alloc: A, file: FaultyFile<A>) -> OnFile<A> {
    let file = SystemFile::load(alloc, file).expect(rt, "the bytes of a file");
    KeptDisk::new(alloc, file).expect(rt, "memory for a disk")
}

// Returns a disk of bytes 00 that was synced once. Its sync of this number fails, and the first write if that is to fail.
fn synced<A: Allocator + Copy>(rt: &impl Abort, alloc: A, sync: u64, writes: u64) -> OnFile<A> {
    let medium = ForgettingMedium::new(alloc, 4_096, [sync, 0]).expect(rt, "memory for a medium");
    let mut disk = disk_in(rt, alloc, FaultyFile { medium, writes });
    disk.sync().expect(rt, "a first sync");
    disk
}

// Returns the word at byte 7 after a power loss that leaves what was synced.
fn word_left<A: Allocator + Copy>(rt: &impl Abort, alloc: A, disk: OnFile<A>) -> u16 {
    let mut file = disk.into_inner().file;
    file.medium.lose(Choice::Old);
    word_at(rt, &mut disk_in(rt, alloc, file), 7)
}

// Checks that a disk reads as it was written while a sync fails, and that the next sync makes that durable.
fn survives_a_failed_sync<A: Allocator + Copy>(rt: &impl Abort, alloc: A) {
    let mut disk = synced(rt, alloc, 2, 0);
    write(rt, &mut disk, 7, &[1, 2]);
    holds(rt, disk.sync().is_err(), &"the sync that fails");
    holds(rt, word_at(rt, &mut disk, 7) == 0x0102, &"the bytes");
    holds(rt, disk.sync().is_ok(), &"the next sync");
    holds(rt, word_left(rt, alloc, disk) == 0x0102, &"what is left");
}

#[test]
fn pages_that_were_rolled_back_are_written_again(rt: HostRuntime) {
    survives_a_failed_sync(&rt, rt.alloc());
}

// Checks that the sync after a write that failed halfway writes all of it again.
fn survives_a_failed_write<A: Allocator + Copy>(rt: &impl Abort, alloc: A) {
    let mut disk = synced(rt, alloc, 0, 1);
    assert!(rt; disk.size() == 4_096);
    holds(rt, disk.write(7, &[1, 2]).is_err(), &"the write that fails");
    holds(rt, disk.sync().is_ok(), &"the next sync");
    holds(rt, word_left(rt, alloc, disk) == 0x0102, &"what is left");
}

#[test]
fn a_write_that_failed_is_made_again(rt: HostRuntime) {
    survives_a_failed_write(&rt, rt.alloc());
}
