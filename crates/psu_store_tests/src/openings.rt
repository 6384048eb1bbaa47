//! The result of opening images that are spelled: the number of items, or why none is found. Each row of a table writes
//! parts over an image.
use crate::spelled::{spelled, with_parts};
use psu_disk::Disk;
use psu_items::{BadImage, OpenCause, Store};
use std::alloc::Allocator;
use std::process::Abort;

/// The number of bytes of an image of limit 6.
pub(crate) const SIZE: u64 = 7_168;

/// An image of limit 6 whose first root, with the number 1, names the heads on pages 3 and 5: the key 1 with the value
/// 36 on page 4, and the key 2, 9 with 600 bytes on pages 7 and 6.
pub(crate) const IMAGE: &str = "
   0: a5 'PSU 00 02 00 06 00*7 01 00 02 00 03 00 05;
1536: 01 01 00 00 00 01 00 01 00 04;
2048: 24;
2560: 02 02 09 00 00 02 58 00 02 00 07 00 06;
3584: 08*512;
3072: 09*88
";

// Whether a text is this number. It is matched, as the equality of two results is more to prove.
fn is_number(text: &str, wanted: usize) -> bool {
    match text.parse::<usize>() {
        Ok(number) => number == wanted,
        Err(_) => false,
    }
}

// Whether the result of an opening is the one that a table wants, in its words.
fn is_wanted(found: Result<usize, OpenCause>, wanted: &str) -> bool {
    match found {
        Ok(count) => is_number(wanted, count),
        Err(OpenCause::Image(BadImage::NoRoot)) => wanted == "no root",
        Err(OpenCause::Image(BadImage::BadVersion)) => wanted == "bad version",
        Err(OpenCause::Image(BadImage::BadRoot)) => wanted == "bad root",
        Err(_) => false,
    }
}

// Returns the number of items that an opening of a disk finds, or why it finds none.
fn found<D: Disk + Drop, A: Allocator + Copy>(alloc: A, disk: D) -> Result<usize, OpenCause> {
    match Store::open(alloc, disk) {
        Ok(store) => Ok(store.items().pairs().len()),
        Err(refused) => Err(refused.cause),
    }
}

/// Whether the result of opening a disk is the one that a table wants.
pub(crate) fn is_found<D: Disk + Drop, A: Allocator + Copy>(
    alloc: A,
    disk: D,
    wanted: &str,
) -> bool {
    is_wanted(found(alloc, disk), wanted)
}

/// Whether the result of opening an image of this many bytes is the one that a table wants, with parts written over it:
/// `512: a5 'PSU; 527: 01 -> bad root`.
pub(crate) fn is_spelled<A: Allocator + Copy>(
    rt: &impl Abort,
    alloc: A,
    (size, image, parts): (u64, &str, &str),
    wanted: &str,
) -> bool {
    let disk = spelled(rt, alloc, size, image);
    is_found(alloc, with_parts(rt, alloc, disk, parts), wanted)
}
