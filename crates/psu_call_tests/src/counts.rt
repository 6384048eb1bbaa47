//! The cost of a store's calls: the number of disk calls, and of bytes written.
use crate::counted::Counted;
use crate::plays::{disk_after, image_of};
use crate::stores::{assign, opened, remove, stored};
use psu_disk::{Disk, MemDisk};
use psu_items::{Batch, IMAGE_LIMIT, Items, Store};
use std::alloc::{Allocator, Global};
use std::process::Abort;

// The file A.
const FILE: &[u8] = &[5, 65];

// Assigns 32,768 bytes to the file A: its value is its type and then the bytes.
fn assign_file<A: Allocator + Copy>(rt: &impl Abort, alloc: A, batch: &mut Batch<A>) {
    let value = vec![in alloc; 0; 32_769].ok().expect(rt, "memory");
    assign(rt, alloc, batch, FILE, &value);
}

// Returns an image that holds the file, on 65 pages and their head.
fn with_file(rt: &impl Abort, alloc: Global) -> MemDisk<Global> {
    let mut batch = Batch::new(alloc);
    assign_file(rt, alloc, &mut batch);
    let store = opened(rt, alloc, image_of(rt, alloc, IMAGE_LIMIT));
    stored(rt, alloc, store, batch)
}

// Returns that image on a disk that counts its calls from now on.
fn counted_with_file(rt: &impl Abort, alloc: Global) -> Counted<MemDisk<Global>> {
    Counted::new(with_file(rt, alloc))
}

// Whether a disk was only read, this often and this many bytes, and synced once.
fn is_read<D: Disk>(disk: &Counted<D>, reads: u64, bytes: u64) -> bool {
    disk.reads == reads && disk.bytes_read == bytes && disk.writes == 0 && disk.syncs == 1
}

// Whether an opening reads this much of an empty map.
fn empty_is_read<A: Allocator + Copy>(rt: &impl Abort, alloc: A) -> bool {
    let store = opened(rt, alloc, Counted::new(image_of(rt, alloc, IMAGE_LIMIT)));
    is_read(&store.into_disk(), 2, 1_024)
}

// Whether a map has the file.
fn has_file<A: Allocator + Copy>(items: &Items<A>) -> bool {
    match items.get(FILE) {
        Some(value) => value.len() == 32_769,
        None => false,
    }
}

// Whether an opening reads this much of the file, which is there then.
fn file_is_read<D: Disk + Drop, A: Allocator + Copy>(store: Store<Counted<D>, A>) -> bool {
    let found = has_file(store.items());
    let read = is_read(&store.into_disk(), 68, 34_816);
    found && read
}

// An opening reads each of its pages once, since it has to know each of them.
#[test]
fn an_opening_reads_each_page_once(rt: HostRuntime) {
    assert!(rt; empty_is_read(&rt, rt.alloc()));
    let disk = counted_with_file(&rt, rt.alloc());
    assert!(rt; file_is_read(opened(&rt, rt.alloc(), disk)));
}

// Whether a disk was read and synced as an opening and a commit do, and written this often.
fn is_written<D: Disk>(disk: &Counted<D>, writes: u64, bytes: u64) -> bool {
    disk.reads == 68 && disk.writes == writes && disk.bytes_written == bytes && disk.syncs == 4
}

// Whether a commit on the image with the file writes this often and this many bytes, and syncs three times. It reads
// nothing.
fn writes(rt: &impl Abort, alloc: Global, batch: Batch<Global>, writes: u64, bytes: u64) -> bool {
    let store = opened(rt, alloc, counted_with_file(rt, alloc));
    is_written(&stored(rt, alloc, store, batch), writes, bytes)
}

// Returns the batch of the enables, as `*PSC 0` keeps them on a fresh image.
fn enables<A: Allocator + Copy>(rt: &impl Abort, alloc: A) -> Batch<A> {
    let mut batch = Batch::new(alloc);
    assign(rt, alloc, &mut batch, &[1], &[0, 0]);
    batch
}

// Returns the batch of the enables, and of the file unchanged.
fn enables_and_file<A: Allocator + Copy>(rt: &impl Abort, alloc: A) -> Batch<A> {
    let mut batch = enables(rt, alloc);
    assign_file(rt, alloc, &mut batch);
    batch
}

// Returns the batch that removes the file.
fn removal<A: Allocator + Copy>(rt: &impl Abort, alloc: A) -> Batch<A> {
    let mut batch = Batch::new(alloc);
    remove(rt, alloc, &mut batch, FILE);
    batch
}

// A small save writes its head, its value, a root without its gate, and the two gates; a commit that adds no item only
// the last three. The value that an item already has is not written again.
#[test]
fn a_small_save_beside_a_file(rt: HostRuntime) {
    let alloc = rt.alloc();
    assert!(rt; writes(&rt, alloc, enables(&rt, alloc), 5, 1_537));
    assert!(rt; writes(&rt, alloc, enables_and_file(&rt, alloc), 5, 1_537));
    assert!(rt; writes(&rt, alloc, Batch::new(alloc), 3, 513));
    assert!(rt; writes(&rt, alloc, removal(&rt, alloc), 3, 513));
}

// The steps of a device for one change.
const A_FLAG: &str = "open 1
1: *PSC 0 -> done
unflushed
flush";

// Whether a disk was called as often as for that change.
fn is_after_a_flag<D: Disk>(disk: &Counted<D>) -> bool {
    disk.reads == 68 && disk.syncs == 4 && disk.writes <= 5 && disk.bytes_written <= 2_048
}

// The counts of a small save, by way of the execution.
#[test]
fn a_flag_beside_a_file(rt: HostRuntime) {
    let disk = counted_with_file(&rt, rt.alloc());
    assert!(rt; is_after_a_flag(&disk_after(&rt, rt.alloc(), disk, A_FLAG)));
}
