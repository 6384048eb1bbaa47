//! The ranges that a disk keeps to write them again, at the limit of the room for them.
use crate::ForgettingMedium;
use crate::passing_disk::PassingDisk;
use crate::spelled::{bytes_of, halves, number, write};
use crate::trials::{Trial, rows_hold};
use psu_disk::{Choice, Disk, DiskFault, KeptDisk};
use std::alloc::Allocator;
use std::process::Abort;

const SIZE: u64 = 4_096;

type Kept<A> = KeptDisk<ForgettingMedium<A>, A>;

// Returns a disk whose medium fails this sync.
fn failing<A: Allocator + Copy>(rt: &impl Abort, alloc: A, sync: u64) -> Kept<A> {
    let medium = ForgettingMedium::new(alloc, SIZE, [sync, 0]).expect(rt, "memory for a medium");
    KeptDisk::new(alloc, medium).expect(rt, "memory for a disk")
}

// Returns a disk that fails its next sync: the first of all, or the second, where one succeeds first.
fn fresh<A: Allocator + Copy>(rt: &impl Abort, alloc: A, is_synced: bool) -> Kept<A> {
    let mut disk = failing(rt, alloc, 1 + u64::from(is_synced));
    if is_synced {
        disk.sync().expect(rt, "a first sync");
    }
    disk
}

// Writes this many ranges of this length, each at that distance from the next.
fn write_apart<D: Disk>(rt: &impl Abort, disk: &mut D, ranges: u64, length: u64) {
    let bytes = [0xa5; 1_300];
    let range = &bytes[..length.min(1_300) as usize];
    for n in 0..ranges {
        let at = n.saturating_mul(2).saturating_mul(length);
        write(rt, disk, at, range);
    }
}

// Returns the number of bytes that are a5.
fn count(bytes: &[u8]) -> u64 {
    let mut count = 0u64;
    for byte in bytes {
        if *byte == 0xa5 {
            count = count.saturating_add(1);
        }
    }
    count
}

// Returns the number of bytes that are there as written, after a power loss that takes each byte that is not safe.
fn kept<A: Allocator + Copy>(rt: &impl Abort, alloc: A, disk: Kept<A>) -> u64 {
    let mut medium = disk.into_inner();
    medium.lose(Choice::Old);
    count(&bytes_of(rt, alloc, PassingDisk::new(medium)))
}

// Whether the next sync fails, and whether the two after it succeed or fail, as given.
fn syncs<D: Disk>(disk: &mut D, work: bool) -> bool {
    disk.sync() == Err(DiskFault) && disk.sync().is_ok() == work && disk.sync().is_ok() == work
}

// Whether ranges of a length that are written before a sync that fails are kept, or none is.
fn are_kept<A: Allocator + Copy>(
    rt: &impl Abort,
    alloc: A,
    mut disk: Kept<A>,
    (ranges, length, wanted): (u64, u64, bool),
) -> bool {
    write_apart(rt, &mut disk, ranges, length);
    let work = syncs(&mut disk, wanted);
    let want = ranges
        .saturating_mul(length)
        .saturating_mul(u64::from(wanted));
    kept(rt, alloc, disk) == want && work
}

/// Whether a row holds on ranges that are written before a sync that fails.
pub(crate) fn are_as_wanted<A: Allocator + Copy>(
    rt: &impl Abort,
    alloc: A,
    written: &str,
    wanted: &str,
) -> bool {
    let (synced, sizes) = halves(rt, written, ": ");
    let (ranges, length) = halves(rt, sizes, " of ");
    let sizes = (number(rt, ranges), number(rt, length), wanted == "kept");
    are_kept(rt, alloc, fresh(rt, alloc, synced == "synced"), sizes)
}

// Whether a sync succeeds first, how many ranges of which length are written before one that fails, and whether they
// are kept.
const RANGES: &str = "
synced: 1 of 1 -> kept
synced: 1 of 1300 -> kept
synced: 1024 of 1 -> kept
synced: 1024 of 2 -> kept
synced: 1025 of 1 -> lost

What was written before the disk was made is not known.
fresh: 0 of 1 -> lost
fresh: 1 of 1 -> lost
";

#[test]
fn ranges_at_their_bound(rt: HostRuntime) {
    rows_hold(&rt, rt.alloc(), Trial::Ranges, RANGES);
}
