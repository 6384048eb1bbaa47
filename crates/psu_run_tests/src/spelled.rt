//! Disks that are spelled byte by byte, as the table of the format has them.
use psu_disk::{Disk, MemDisk};
use psu_tables::bytes;
use std::alloc::Global;

// Writes bytes to a disk; `None` where they do not fit in it.
fn put(disk: &mut MemDisk<Global>, at: u64, bytes: &[u8]) -> Option<()> {
    if at > disk.size() || bytes.len() as u64 > disk.size() - at {
        return None;
    }
    disk.write(at, bytes).ok()
}

// Writes a part to a disk: its place, and then the bytes.
fn put_part(alloc: Global, disk: &mut MemDisk<Global>, part: &str) -> Option<()> {
    let (at, cell) = part.trim().split_once(": ")?;
    put(disk, at.parse().ok()?, &bytes(alloc, cell)?)
}

/// Returns a disk with these parts written over it, each at its place, and synced: `512: a5 'PSU; 527: 01`.
pub(crate) fn spoiled(
    alloc: Global,
    mut disk: MemDisk<Global>,
    parts: &str,
) -> Option<MemDisk<Global>> {
    for part in parts.split(";") {
        put_part(alloc, &mut disk, part)?;
    }
    disk.sync().ok()?;
    Some(disk)
}
