//! A store on a file that another process writes while it is open: the store continues with what it has in memory, and
//! the next opening finds what the other wrote.
use crate::edits::edits;
use crate::files::{new_disk, remove, set_length};
use crate::holds::holds;
use crate::images::{formatted_with, laid_out};
use crate::spelled::bytes_of;
use crate::stores::{broken_by, commit, has_map};
use psu_disk::{Disk, FileDisk, OsFiles};
use psu_items::{Broken, BrokenCause, Commit, Store};
use std::alloc::{Allocator, Global};
use std::fs::File;
use std::process::Abort;
use std::rt::Files;

const NAME: &str = "a_disk_that_another_writes_for_a_test.image";

// Returns the result of a commit of the value 36 while the file is cut short.
fn cut<D: Disk + Drop, A: Allocator + Copy>(
    rt: &(impl Abort + Files<File = File>),
    alloc: A,
    store: Store<D, A>,
) -> Commit<D, A> {
    let batch = edits(rt, alloc, "01 = 24");
    set_length(rt, NAME, 5_119);
    let ended = commit(rt, alloc, store, batch);
    set_length(rt, NAME, 5_120);
    ended
}

// Writes bytes to the file.
fn put(rt: &(impl Abort + Files<File = File>), bytes: &[u8]) {
    std::fs::write(rt, NAME, bytes).expect(rt, "a file");
}

// Returns an image with the map of a text.
fn image<A: Allocator + Copy>(rt: &impl Abort, alloc: A, map: &str) -> Vec<u8, A> {
    bytes_of(rt, alloc, formatted_with(rt, alloc, (5_120, 4), map))
}

// Checks that a store that broke because of its device has its target when it is reopened.
fn has_target<D: Disk + Drop, A: Allocator + Copy>(
    rt: &impl Abort,
    alloc: A,
    broken: Broken<D, A>,
) {
    holds(rt, broken.cause() == BrokenCause::Device, &"the device");
    let store = broken.reopen(alloc).ok().expect(rt, "the target");
    has_map(rt, alloc, &store, "01 = 24");
}

// Checks that a store on a disk in the file has its target after another process has written zeros there.
fn continues<D: Disk + Drop, A: Allocator + Copy>(
    rt: &(impl Abort + Files<File = File>),
    alloc: A,
    disk: D,
) {
    let broken = broken_by(rt, cut(rt, alloc, laid_out(rt, alloc, disk, 4)));
    put(rt, &[0; 5_120]);
    has_target(rt, alloc, broken);
}

// Returns the disk in the file.
fn disk(rt: &(impl Abort + Files<File = File>), alloc: Global) -> FileDisk {
    FileDisk::of(&mut OsFiles { files: rt }, alloc, NAME).expect(rt, "the file")
}

// Checks that the next opening finds no map.
fn is_lost<D: Disk + Drop>(rt: &impl Abort, alloc: Global, disk: D) {
    holds(rt, Store::open(alloc, disk).is_err(), &"the zeros");
}

// Checks that a map that another process writes is found by the next opening, and by none before.
fn is_found<D: Disk + Drop>(rt: &(impl Abort + Files<File = File>), alloc: Global, disk: D) {
    let store = laid_out(rt, alloc, disk, 4);
    put(rt, &image(rt, alloc, "01 = 25"));
    has_map(rt, alloc, &store, "");
}

// Checks that a disk has the map that the other process wrote.
fn has_other<D: Disk + Drop>(rt: &impl Abort, alloc: Global, disk: D) {
    let store = Store::open(alloc, disk).ok().expect(rt, "the other map");
    has_map(rt, alloc, &store, "01 = 25");
}

// Checks both on new files, which are then removed.
fn is_not_noticed(rt: &(impl Abort + Files<File = File>), alloc: Global) {
    continues(rt, alloc, new_disk(rt, alloc, NAME, 5_120));
    is_lost(rt, alloc, disk(rt, alloc));
    is_found(rt, alloc, new_disk(rt, alloc, NAME, 5_120));
    has_other(rt, alloc, disk(rt, alloc));
    remove(rt, NAME);
}

#[test]
fn what_another_writes_is_found_by_the_next_opening(rt: HostRuntime) {
    is_not_noticed(&rt, rt.alloc());
}
