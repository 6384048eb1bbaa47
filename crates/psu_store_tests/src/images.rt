//! Images that the store itself makes.
ghost use Rattle.std.specs.Prelude.{IsTrue, ◌+◌, ◌*◌, ◌≤◌};

use crate::edits::edits;
use crate::spelled::zeros;
use crate::stores::{opened, stored};
use psu_disk::{Disk, MemDisk};
use psu_items::Store;
use std::alloc::Allocator;
use std::process::Abort;

// Whether an image can have this limit, and a disk of this size has room for it.
fn has_room(limit: u16, size: u64) -> bool
    ensures least { IsTrue result → 4 ≤ limit }
    ensures most { IsTrue result → limit ≤ 480 }
    ensures room { IsTrue result → 512 * (2 + 2 * limit) ≤ size }
{
    4 <= limit && limit <= 480 && 512 * (2 + 2 * u64::from(limit)) <= size
}

/// Returns a store of an empty map of this limit on a disk that is formatted for it. The limit and the room are ones
/// that an image can have.
pub(crate) fn laid_out<D: Disk + Drop, A: Allocator + Copy>(
    rt: &impl Abort,
    alloc: A,
    disk: D,
    limit: u16,
) -> Store<D, A> {
    assert!(rt; has_room(limit, disk.size()));
    Store::format(alloc, disk, limit)
        .ok()
        .expect(rt, "a format")
}

/// Returns a disk that was formatted for an empty map of this limit.
pub(crate) fn formatted_over<D: Disk + Drop, A: Allocator + Copy>(
    rt: &impl Abort,
    alloc: A,
    disk: D,
    limit: u16,
) -> D {
    laid_out(rt, alloc, disk, limit).into_disk()
}

/// Returns a disk of this many bytes that was formatted for an empty map of this limit.
pub(crate) fn formatted<A: Allocator + Copy>(
    rt: &impl Abort,
    alloc: A,
    size: u64,
    limit: u16,
) -> MemDisk<A> {
    formatted_over(rt, alloc, zeros(rt, alloc, size), limit)
}

/// Returns a disk of 5,120 bytes that holds an empty map of limit 4.
pub(crate) fn empty<A: Allocator + Copy>(rt: &impl Abort, alloc: A) -> MemDisk<A> {
    formatted(rt, alloc, 5_120, 4)
}

/// Returns the store on a disk after the commit of a batch, given as a text.
pub(crate) fn store_with<D: Disk + Drop, A: Allocator + Copy>(
    rt: &impl Abort,
    alloc: A,
    disk: D,
    batch: &str,
) -> Store<D, A> {
    let store = opened(rt, alloc, disk);
    stored(rt, alloc, store, edits(rt, alloc, batch))
}

/// Returns the disk after the commit of a batch, given as a text.
pub(crate) fn changed<D: Disk + Drop, A: Allocator + Copy>(
    rt: &impl Abort,
    alloc: A,
    disk: D,
    batch: &str,
) -> D {
    store_with(rt, alloc, disk, batch).into_disk()
}

/// Returns a disk of this many bytes, formatted for this limit, after the commit of a batch, given as a text.
pub(crate) fn formatted_with<A: Allocator + Copy>(
    rt: &impl Abort,
    alloc: A,
    (size, limit): (u64, u16),
    batch: &str,
) -> MemDisk<A> {
    changed(rt, alloc, formatted(rt, alloc, size, limit), batch)
}
