//! Roots that are refused, and roots that are valid though they differ: what is checked, and in which order.
use crate::holds::holds;
use crate::openings::{IMAGE, SIZE, is_found};
use crate::spelled::{number, spelled};
use crate::stores::{has_map, opened};
use crate::trials::{Trial, rows_hold};
use psu_disk::Disk;
use psu_items::Store;
use std::alloc::Allocator;
use std::process::Abort;

// Checks that a store has the limit and the number of the image, and its two items.
fn is_the_image<D: Disk, A: Allocator + Copy>(rt: &impl Abort, alloc: A, store: &Store<D, A>) {
    holds(rt, store.limit() == 6, &"the limit");
    holds(rt, store.number() == 1, &"the number");
    holds(rt, store.version() == 2, &"the version");
    has_map(rt, alloc, store, "01 = 24; 02 09 = 08*512 09*88");
}

// Checks that an opening of a disk finds that store.
fn is_found_on<D: Disk + Drop, A: Allocator + Copy>(rt: &impl Abort, alloc: A, disk: D) {
    is_the_image(rt, alloc, &opened(rt, alloc, disk));
}

#[test]
fn the_image_holds_two_items(rt: HostRuntime) {
    is_found_on(&rt, rt.alloc(), spelled(&rt, rt.alloc(), SIZE, IMAGE));
}

const WORDS_OF_A_ROOT: &str = "
The gate: a5 alone is open.
0: 00 -> no root
0: a4 -> no root

PSU
1: 51 -> bad root
3: 58 -> bad root

The version.
4: 00 00 -> bad version
4: 00 01 -> 2
4: 00 03 -> bad version
4: 00 07 -> bad version
4: 01 01 -> bad version

The limit: the items cost 5 pages, and the disk has room for 6.
6: 00 03 -> bad root
6: 00 04 -> bad root
6: 00 05 -> 2
6: 00 07 -> bad root
6: 01 e1 -> bad root

The number: any is good.
8: 00*8 -> 2
8: ff*8 -> 2

What follows the names is not read.
22: ee*490 -> 2
";

#[test]
fn the_words_of_a_root(rt: HostRuntime) {
    rows_hold(&rt, rt.alloc(), Trial::Two, WORDS_OF_A_ROOT);
}

// The bytes from the count of items on.
const HEADS_OF_A_ROOT: &str = "
16: 00 00 -> 0
16: 00 01 -> 1
16: 00 02 00 05 00 03 -> 2
16: 00 01 00 05 -> 1

The roots' pages, and the first after the pool.
16: 00 02 00 03 00 00 -> bad root
16: 00 02 00 01 00 05 -> bad root
16: 00 02 00 03 00 0e -> bad root
16: 00 02 ff ff 00 05 -> bad root

A head twice, and a page of zeros, whose key is empty.
16: 00 02 00 03 00 03 -> bad root
16: 00 03 00 03 00 05 00 08 -> bad root

241 items.
16: 00 f1 -> bad root
";

#[test]
fn the_heads_that_a_root_names(rt: HostRuntime) {
    rows_hold(&rt, rt.alloc(), Trial::Two, HEADS_OF_A_ROOT);
}

// Of two roots with open gates the one with the higher number is current, and the content of the other is not checked.
// A second root with the number 2 names the second head; the last byte of its number is at 527.
const ROOT_THAT_COUNTS: &str = "
512: a5 'PSU 00 02 00 06 00*7 02 00 01 00 05 -> 1
512: a5 'PSU 00 02 00 06 00*7 02 00 01 00 05; 512: a4 -> 2
512: a5 'PSU 00 02 00 06 00*7 02 00 01 00 05; 527: 01 -> bad root
512: a5 'PSU 00 02 00 06 00*7 02 00 01 00 05; 513: 'psu; 527: 00 ff -> 2
512: a5 'PSU 00 02 00 06 00*7 02 00 01 00 05; 513: 'psu -> bad root
512: a5 'PSU 00 02 00 06 00*7 02 00 01 00 05; 516: 00 00 -> bad version

PSU comes before the version, and the version before all else.
512: a5 'PSU 00 02 00 06 00*7 02 00 01 00 05; 513: 'psu 00 07 -> bad root
1: 'psu 00 07 -> bad root
4: 00 07 00 00; 16: ff*400 -> bad version

Equal numbers are refused whatever else the roots say.
512: a5 'PSU 00 02 00 06 00*7 02 00 01 00 05; 527: 01; 516: 00 07; 4: 00 07 -> bad root
";

#[test]
fn the_root_that_counts(rt: HostRuntime) {
    rows_hold(&rt, rt.alloc(), Trial::Two, ROOT_THAT_COUNTS);
}

// The image on disks of other sizes.
const SIZES: &str = "
512 -> no root
1023 -> no root
1024 -> bad root
5119 -> bad root
5120 -> 0
5121 -> 0
100000 -> 0
";

// A root of version 2, limit 4 and number 1 without items, for a disk of another size than its image has.
const EMPTY: &str = "0: a5 'PSU 00 02 00 04 00*7 01";

/// Whether an opening of a disk of this many bytes with this root finds what is wanted.
pub(crate) fn is_sized<A: Allocator + Copy>(
    rt: &impl Abort,
    alloc: A,
    size: &str,
    wanted: &str,
) -> bool {
    let disk = spelled(rt, alloc, number(rt, size), EMPTY);
    is_found(alloc, disk, wanted)
}

#[test]
fn disks_that_are_too_small_or_larger(rt: HostRuntime) {
    rows_hold(&rt, rt.alloc(), Trial::Sized, SIZES);
}
