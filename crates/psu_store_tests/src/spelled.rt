//! Images that are spelled byte by byte, as the table of the format has them.
use crate::edits::bytes_in;
use psu_disk::{Disk, MemDisk};
use std::alloc::Allocator;
use std::process::Abort;

/// Writes bytes, for which the disk has room there.
pub(crate) fn write<D: Disk>(rt: &impl Abort, disk: &mut D, at: u64, bytes: &[u8]) {
    let size = disk.size();
    assert!(rt; at <= size);
    assert!(rt; bytes.len() as u64 <= size - at);
    disk.write(at, bytes).expect(rt, "a write");
}

/// Writes bytes to a disk, and syncs them.
pub(crate) fn put<D: Disk>(rt: &impl Abort, disk: &mut D, at: u64, bytes: &[u8]) {
    write(rt, disk, at, bytes);
    disk.sync().expect(rt, "a sync");
}

/// Writes a word of two bytes to a disk, and syncs it.
pub(crate) fn put_word<D: Disk>(rt: &impl Abort, disk: &mut D, at: u64, word: u16) {
    put(rt, disk, at, &word.to_be_bytes());
}

/// Returns the number that a text has.
pub(crate) fn number(rt: &impl Abort, text: &str) -> u64 {
    text.parse().ok().expect(rt, "a number")
}

/// Returns the two parts of a text with these letters between them.
pub(crate) fn halves<'t>(rt: &impl Abort, text: &'t str, between: &str) -> (&'t str, &'t str) {
    text.split_once(between).expect(rt, "two parts")
}

// Writes a part to a disk: its place, and then the bytes.
fn put_part<D: Disk, A: Allocator>(rt: &impl Abort, alloc: A, disk: &mut D, part: &str) {
    let (at, cell) = halves(rt, part.trim(), ": ");
    put(rt, disk, number(rt, at), &bytes_in(rt, alloc, cell));
}

/// Writes parts to a disk, each with its place: `512: a5 'PSU; 527: 01`.
pub(crate) fn put_all<D: Disk, A: Allocator + Copy>(
    rt: &impl Abort,
    alloc: A,
    disk: &mut D,
    parts: &str,
) {
    for part in parts.split(";") {
        put_part(rt, alloc, disk, part);
    }
}

/// Returns a disk of this many bytes 00.
pub(crate) fn zeros<A: Allocator + Copy>(rt: &impl Abort, alloc: A, size: u64) -> MemDisk<A> {
    MemDisk::new(alloc, size).expect(rt, "memory for a disk")
}

/// Returns a disk of this many bytes 00 except for these parts.
pub(crate) fn spelled<A: Allocator + Copy>(
    rt: &impl Abort,
    alloc: A,
    size: u64,
    parts: &str,
) -> MemDisk<A> {
    with_parts(rt, alloc, zeros(rt, alloc, size), parts)
}

/// Returns a disk with these parts written over its bytes.
pub(crate) fn with_parts<D: Disk, A: Allocator + Copy>(
    rt: &impl Abort,
    alloc: A,
    mut disk: D,
    parts: &str,
) -> D {
    put_all(rt, alloc, &mut disk, parts);
    disk
}

/// Returns all bytes of a disk.
pub(crate) fn bytes_of<D: Disk + Drop, A: Allocator + Copy>(
    rt: &impl Abort,
    alloc: A,
    mut disk: D,
) -> Vec<u8, A> {
    let mut bytes = vec![in alloc; 0; disk.size() as usize].expect(rt, "memory for an image");
    disk.read(0, &mut bytes).expect(rt, "a read");
    bytes
}

/// Whether two disks have the same bytes.
pub(crate) fn are_alike<D: Disk + Drop, E: Disk + Drop, A: Allocator + Copy>(
    rt: &impl Abort,
    alloc: A,
    one: D,
    other: E,
) -> bool {
    bytes_of(rt, alloc, one) == bytes_of(rt, alloc, other)
}

/// Returns a disk in memory with these bytes.
pub(crate) fn remade<A: Allocator + Copy>(rt: &impl Abort, alloc: A, bytes: &[u8]) -> MemDisk<A> {
    let mut disk = zeros(rt, alloc, bytes.len() as u64);
    put(rt, &mut disk, 0, bytes);
    disk
}

/// Returns the word of two bytes at a place of a disk.
pub(crate) fn word_at<D: Disk>(rt: &impl Abort, disk: &mut D, at: u64) -> u16 {
    let mut word = [0; 2];
    let size = disk.size();
    assert!(rt; at <= size);
    assert!(rt; 2 <= size - at);
    disk.read(at, &mut word).expect(rt, "a read");
    u16::from_be_bytes(word)
}
