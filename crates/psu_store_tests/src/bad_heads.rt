//! Heads that are refused, and heads that are valid up to the limits: keys, lengths, counts and pages.
use crate::openings::is_found;
use crate::spelled::{halves, number, put, put_word, spelled};
use crate::trials::{Trial, rows_hold};
use psu_disk::Disk;
use std::alloc::Allocator;
use std::process::Abort;

// The head on page 3, which consists of a key of one byte, the value's length, the number of pages, and the pages.
const WORDS_OF_A_HEAD: &str = "
1536: 01 01 00 00 00 01 00 01 00 08 -> 2
1536: 01 01 00 00 02 00 00 01 00 08 -> 2

No key.
1536: 00 00 00 00 01 00 01 00 04 -> bad root

No value, and other counts than its length asks for.
1536: 01 01 00 00 00 00 00 00 -> bad root
1536: 01 01 00 00 00 00 00 01 00 04 -> bad root
1536: 01 01 00 00 00 01 00 00 -> bad root
1536: 01 01 00 00 00 01 00 02 00 04 00 08 -> bad root
1536: 01 01 00 00 02 01 00 01 00 04 -> bad root

A length that needs more than its two last bytes.
1536: 01 01 01 00 00 01 00 01 00 04 -> bad root

Pages outside the pool.
1536: 01 01 00 00 00 01 00 01 00 01 -> bad root
1536: 01 01 00 00 00 01 00 01 00 0e -> bad root

A page that is named twice: the head's own, the other head's, and one of the other's value.
1536: 01 01 00 00 00 01 00 01 00 03 -> bad root
1536: 01 01 00 00 00 01 00 01 00 05 -> bad root
1536: 01 01 00 00 00 01 00 01 00 06 -> bad root
1536: 01 01 00 00 02 01 00 02 00 04 00 04 -> bad root

The key of the other head.
1536: 02 02 09 00 00 00 01 00 01 00 04 -> bad root

What follows a head's words, and a value, is not read.
1546: ee*502 -> 2
2049: ee*511 -> 2
3160: ee*424 -> 2
";

#[test]
fn the_words_of_a_head(rt: HostRuntime) {
    rows_hold(&rt, rt.alloc(), Trial::Two, WORDS_OF_A_HEAD);
}

/// The number of bytes of an image of limit 100.
pub(crate) const GREAT: u64 = 103_424;

/// An image of limit 100 with one head, on page 2. The words after it are the pages from 3 to 68 where its key has 65
/// bytes.
pub(crate) const ONE_HEAD: &str = "
0: a5 'PSU 00 02 00 64 00*7 01 00 01 00 02;
1096: 00 03 00 04 00 05 00 06 00 07 00 08 00 09 00 0a 00 0b 00 0c 00 0d 00 0e 00 0f 00 10 00 11 00 12;
1128: 00 13 00 14 00 15 00 16 00 17 00 18 00 19 00 1a 00 1b 00 1c 00 1d 00 1e 00 1f 00 20 00 21 00 22;
1160: 00 23 00 24 00 25 00 26 00 27 00 28 00 29 00 2a 00 2b 00 2c 00 2d 00 2e 00 2f 00 30 00 31 00 32;
1192: 00 33 00 34 00 35 00 36 00 37 00 38 00 39 00 3a 00 3b 00 3c 00 3d 00 3e 00 3f 00 40 00 41 00 42;
1224: 00 43 00 44
";

// The head consists of the key's length, the key, the value's length, the number of pages, and the pages.
const GREATEST_LENGTHS: &str = "
1024: 01 07 00 00 02 00 00 01 00 03 -> 1
1024: 01 07 00 00 02 01 00 02 00 03 00 04 -> 1
1024: 41 07*65 00 00 00 01 00 01 -> 1
1024: 42 07*66 00 00 00 01 00 01 00 03 -> bad root

A value of 33,280 bytes takes 65 pages.
1024: 41 07*65 00 00 82 00 00 41 -> 1
1024: 41 07*65 00 00 82 01 00 42 -> bad root
1024: 41 07*65 00 00 82 00 00 42 -> bad root
1024: 41 07*65 00 00 82 00 00 40 -> bad root
";

#[test]
fn keys_and_values_of_the_greatest_length(rt: HostRuntime) {
    rows_hold(&rt, rt.alloc(), Trial::Great, GREATEST_LENGTHS);
}

// Names an item in the root, its head on an even page, and writes the head there. Its key is one byte, and its value is
// on the next page.
fn put_item<D: Disk>(rt: &impl Abort, disk: &mut D, item: u16) {
    let page = item.saturating_mul(2).saturating_add(2);
    let place = u64::from(item).saturating_mul(2).saturating_add(530);
    put_word(rt, disk, place, page);
    let [_, key] = item.saturating_add(1).to_be_bytes();
    let [high, low] = page.saturating_add(1).to_be_bytes();
    let head = [1, key, 0, 0, 0, 1, 0, 1, high, low];
    put(rt, disk, u64::from(page).saturating_mul(512), &head);
}

// Writes the limit, and this many items, each with a key and a value of one byte, to the second root.
fn put_many<D: Disk>(rt: &impl Abort, disk: &mut D, limit: u16, count: u16) {
    put_word(rt, disk, 518, limit);
    put_word(rt, disk, 528, count);
    for item in 0..count {
        put_item(rt, disk, item);
    }
}

// Reads a number of two bytes.
fn word(rt: &impl Abort, text: &str) -> u16 {
    text.parse().ok().expect(rt, "a word")
}

/// Whether an opening finds an image of this limit with as many items as wanted. The second root is current, with the
/// number 9.
pub(crate) fn is_filled<A: Allocator + Copy>(
    rt: &impl Abort,
    alloc: A,
    filled: &str,
    wanted: &str,
) -> bool {
    let (limit, count) = halves(rt, filled, ": ");
    let size = number(rt, limit).saturating_add(1).saturating_mul(1_024);
    let mut disk = spelled(rt, alloc, size, "512: a5 'PSU 00 02; 527: 09");
    put_many(rt, &mut disk, word(rt, limit), word(rt, count));
    is_found(alloc, disk, wanted)
}

// 240 items fill an image of limit 480. With limit 479 the last is one page too many.
const FILLED: &str = "
480: 240 -> 240
480: 241 -> bad root
479: 240 -> bad root
479: 239 -> 239
";

#[test]
fn images_that_items_fill(rt: HostRuntime) {
    rows_hold(&rt, rt.alloc(), Trial::Filled, FILLED);
}
