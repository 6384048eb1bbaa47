//! Devices with their images.
use psu_disk::{Disk, MemDisk};
use psu_exec::Exec;
use psu_items::Store;
use std::alloc::Allocator;

/// Returns a formatted image in memory, whose contents may cost this many pages; `None` where an image can't have this
/// limit, or memory is refused.
pub fn image<A: Allocator + Copy>(alloc: A, limit: u16) -> Option<MemDisk<A>> {
    if limit < 4 || limit > 480 {
        return None;
    }
    let disk = MemDisk::new(alloc, 512 * (2 + 2 * u64::from(limit))).ok()?;
    Some(Store::format(alloc, disk, limit).ok()?.into_disk())
}

/// Returns a device that is powered on with the contents of a disk; `None` where it does not power on with them.
pub fn powered_on<D: Disk + Drop, A: Allocator + Copy>(alloc: A, disk: D) -> Option<Exec<D, A>> {
    let store = Store::open(alloc, disk).ok()?;
    Exec::power_on(alloc, store).ok()
}
