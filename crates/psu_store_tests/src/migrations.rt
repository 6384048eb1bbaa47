//! Images of version 1: read unchanged, and converted to version 2 by the next commit, at whatever call power is lost.
use crate::images::changed;
use crate::losses::losses_leave_a_map;
use crate::openings::SIZE;
use crate::scenes::{Counts, Scene};
use crate::spelled::{are_alike, halves, spelled, with_parts};
use crate::stores::opened;
use crate::trials::{Trial, rows_hold};
use psu_disk::{Disk, MemDisk};
use std::alloc::Allocator;
use std::process::Abort;

/// An image of version 1 and limit 6 whose second root, with the number 2, names the head on page 3: the key 1 with the
/// value 10 on page 4.
pub(crate) const OLD: &str = "
 512: a5 'PSU 00 01 00 06 00*7 02 00 01 00 03;
1536: 01 01 00 00 00 01 00 01 00 04;
2048: 0a
";

// The calls of a commit of one item on it: its head and its value, the root, a gate and the other, with three syncs.
// The opening makes a sync, and a read for each root, the head and the value.
const COUNTS: Counts = Counts {
    limit: 6,
    version: 1,
    number: 2,
    opening: 5,
    commit: 8,
};

// Returns the scene of a commit on it that replaces the value 10 by 36.
fn old_item<A: Allocator + Copy>(rt: &impl Abort, alloc: A) -> Scene<A> {
    let disk = spelled(rt, alloc, SIZE, OLD);
    Scene::of(rt, alloc, disk, ["01 = 24", "01 = 0a", "01 = 24"], COUNTS)
}

#[test]
fn losses_leave_version_1_as_it_was_or_version_2(rt: HostRuntime) {
    losses_leave_a_map(&rt, rt.alloc(), &old_item(&rt, rt.alloc()));
}

// Returns the disk after an opening, and after an empty batch where the word requests one.
fn after<D: Disk + Drop, A: Allocator + Copy>(rt: &impl Abort, alloc: A, disk: D, word: &str) -> D {
    if word == "opened" {
        return opened(rt, alloc, disk).into_disk();
    }
    changed(rt, alloc, disk, "")
}

// Returns the old image with these parts written over it.
fn old_with<A: Allocator + Copy>(rt: &impl Abort, alloc: A, parts: &str) -> MemDisk<A> {
    with_parts(rt, alloc, spelled(rt, alloc, SIZE, OLD), parts)
}

/// Whether the old image with these parts written over it has the others afterwards, and no other byte has changed.
pub(crate) fn becomes<A: Allocator + Copy>(
    rt: &impl Abort,
    alloc: A,
    given: &str,
    wanted: &str,
) -> bool {
    let (word, parts) = halves(rt, given, " ");
    let disk = after(rt, alloc, old_with(rt, alloc, parts), word);
    are_alike(rt, alloc, disk, old_with(rt, alloc, wanted))
}

// The bytes that an opening, or a commit of an empty batch, writes.
const WRITTEN: &str = "
An opening leaves each byte of an image.
opened 512: a5 -> 512: a5

But it closes an older gate that is open.
opened 0: a5 'PSU 00 01 00 06 00*7 01 -> 0: 00 'PSU 00 01 00 06 00*7 01

The root that an empty batch writes is of version 2 and has the next number. It names the head where it is.
committed 512: a5 -> 0: a5 'PSU 00 02 00 06 00*7 03 00 01 00 03; 512: 00
";

#[test]
fn an_empty_batch_makes_it_version_2_and_an_opening_does_not(rt: HostRuntime) {
    rows_hold(&rt, rt.alloc(), Trial::Written, WRITTEN);
}

// Version 1 has keys of at most 33 bytes, and version 2 of at most 65. The last byte of the version is at 517.
const KEYS: &str = "
517: 01; 1536: 21 07*33 00 00 00 01 00 01 00 04 -> 1
517: 01; 1536: 22 07*34 00 00 00 01 00 01 00 04 -> bad root
517: 01; 1536: 41 07*65 00 00 00 01 00 01 00 04 -> bad root
517: 02; 1536: 41 07*65 00 00 00 01 00 01 00 04 -> 1
517: 02; 1536: 42 07*66 00 00 00 01 00 01 00 04 -> bad root
";

#[test]
fn keys_of_either_version(rt: HostRuntime) {
    rows_hold(&rt, rt.alloc(), Trial::Old, KEYS);
}
