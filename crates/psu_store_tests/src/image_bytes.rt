//! Images byte for byte: after a format, and after one commit and two. Which free pages a commit takes is not specified,
//! so they are read from the image; all other bytes are known.
ghost use Rattle.std.specs.Prelude.{◌≡◌, ◌*◌};

use crate::holds::holds;
use crate::images::{changed, formatted, formatted_over, formatted_with};
use crate::spelled::{are_alike, put, put_all, put_word, spelled, with_parts, word_at, zeros};
use psu_disk::{Disk, MemDisk};
use std::alloc::Allocator;
use std::process::Abort;

// Checks that a formatted disk of 00 has these bytes.
fn is_formatted<A: Allocator + Copy>(rt: &impl Abort, alloc: A) {
    let disk = formatted(rt, alloc, 263_168, 256);
    let want = spelled(rt, alloc, 263_168, "0: a5 'PSU 00 02 01 00 00*7 01 00 00");
    holds(rt, are_alike(rt, alloc, disk, want), &"the image");
}

#[test]
fn a_formatted_image(rt: HostRuntime) {
    is_formatted(&rt, rt.alloc());
}

// A disk of a5.
const USED: &str = "0: a5*5200";

// The parts of it that a format writes.
const FORMATTED: &str = "0: a5 'PSU 00 02 00 04 00*7 01 00*496; 512: 00";

// Checks that a format leaves the bytes of a disk except for these.
fn is_formatted_over<A: Allocator + Copy>(rt: &impl Abort, alloc: A) {
    let used = spelled(rt, alloc, 5_200, USED);
    let want = spelled(rt, alloc, 5_200, USED);
    let disk = formatted_over(rt, alloc, used, 4);
    let want = with_parts(rt, alloc, want, FORMATTED);
    holds(rt, are_alike(rt, alloc, disk, want), &"the image");
}

// A format writes the page of the first root and the gate of the second, and leaves the rest.
#[test]
fn a_format_of_a_disk_that_was_in_use(rt: HostRuntime) {
    is_formatted_over(&rt, rt.alloc());
}

// Whether pages are in the pool of limit 8, and none occurs twice.
fn are_apart(pages: &[u16]) -> bool {
    for (place, page) in pages.iter().enumerate() {
        if *page < 2 || *page >= 18 || pages[..place].contains(page) {
            return false;
        }
    }
    true
}

// Returns the place at which a page begins.
fn at(page: u16) -> u64
    ensures { result ≡ 512 * page }
{
    512 * u64::from(page)
}

// Returns the page that a head names first: the key's length, the key, the value's length and the count of pages take 8
// bytes.
fn first_page<D: Disk>(rt: &impl Abort, disk: &mut D, head: u16) -> u16 {
    word_at(rt, disk, at(head) + 8)
}

// Returns the pages of the first item: its head, and its value. The name of the one head that a root names is at 530 of
// the image.
fn first_pages<D: Disk>(rt: &impl Abort, disk: &mut D) -> [u16; 2] {
    let head = word_at(rt, disk, 530);
    [head, first_page(rt, disk, head)]
}

// Writes the first item to its pages: the value 36 for the key 1.
fn put_first<D: Disk>(rt: &impl Abort, disk: &mut D, [head, value]: [u16; 2]) {
    put(rt, disk, at(head), &[1, 1, 0, 0, 0, 1, 0, 1]);
    put_word(rt, disk, at(head) + 8, value);
    put(rt, disk, at(value), &[36]);
}

// A root with a closed gate, and one with the number 2 that names a head.
const ROOTS_AFTER_ONE: &str =
    "0: 00 'PSU 00 02 00 08 00*7 01; 512: a5 'PSU 00 02 00 08 00*7 02 00 01";

// Writes the image of limit 8 after a commit of one item to a disk of 00.
fn put_one<D: Disk, A: Allocator + Copy>(rt: &impl Abort, alloc: A, disk: &mut D, first: [u16; 2]) {
    put_all(rt, alloc, disk, ROOTS_AFTER_ONE);
    put_word(rt, disk, 530, first[0]);
    put_first(rt, disk, first);
}

// Returns an image of limit 8 after a commit of the first item.
fn with_one<A: Allocator + Copy>(rt: &impl Abort, alloc: A) -> MemDisk<A> {
    formatted_with(rt, alloc, (9_216, 8), "01 = 24")
}

// Checks that an image after the first item has each byte that its pages require.
fn is_after_one<A: Allocator + Copy>(rt: &impl Abort, alloc: A) {
    let mut disk = with_one(rt, alloc);
    let first = first_pages(rt, &mut disk);
    holds(rt, are_apart(&first), &first);
    let mut want = zeros(rt, alloc, 9_216);
    put_one(rt, alloc, &mut want, first);
    holds(rt, are_alike(rt, alloc, disk, want), &first);
}

#[test]
fn an_image_after_a_commit(rt: HostRuntime) {
    is_after_one(&rt, rt.alloc());
}

// The places of a second item: the root's names of both heads, its own head, and the two pages of its value.
#[derive(Clone, Copy, Drop)]
struct Second {
    names: [u16; 2],
    head: u16,
    pages: [u16; 2],
}

// Returns the one of two names that is not the first item's head.
fn other(names: [u16; 2], first: u16) -> Option<u16> {
    match names {
        [one, second] if one == first => Some(second),
        [second, other] if other == first => Some(second),
        _ => None,
    }
}

// Returns the places of a second item in an image, given the first item's head.
fn second_pages<D: Disk>(rt: &impl Abort, disk: &mut D, first: u16) -> Second {
    let names = [word_at(rt, disk, 18), word_at(rt, disk, 20)];
    let head = other(names, first).expect(rt, "the first item's head");
    let pages = [first_page(rt, disk, head), word_at(rt, disk, at(head) + 10)];
    Second { names, head, pages }
}

// The root after both commits, up to its count of items, after which the names follow, and the gate of the other.
const ROOTS_AFTER_TWO: &str = "0: a5 'PSU 00 02 00 08 00*7 03 00 02; 512: 00";

// Writes the root after both commits.
fn put_root<D: Disk, A: Allocator + Copy>(
    rt: &impl Abort,
    alloc: A,
    disk: &mut D,
    names: [u16; 2],
) {
    put_all(rt, alloc, disk, ROOTS_AFTER_TWO);
    put_word(rt, disk, 18, names[0]);
    put_word(rt, disk, 20, names[1]);
}

// Writes the second item to its pages: 600 bytes 7 for the key 2.
fn put_second<D: Disk>(rt: &impl Abort, disk: &mut D, second: Second) {
    let Second { head, pages, .. } = second;
    put(rt, disk, at(head), &[1, 2, 0, 0, 2, 88, 0, 2]);
    put_word(rt, disk, at(head) + 8, pages[0]);
    put_word(rt, disk, at(head) + 10, pages[1]);
    put(rt, disk, at(pages[0]), &[7; 512]);
    put(rt, disk, at(pages[1]), &[7; 88]);
}

// Returns the image of both items, each on its pages.
fn of_both<A: Allocator + Copy>(
    rt: &impl Abort,
    alloc: A,
    first: [u16; 2],
    second: Second,
) -> MemDisk<A> {
    let mut disk = zeros(rt, alloc, 9_216);
    put_one(rt, alloc, &mut disk, first);
    put_root(rt, alloc, &mut disk, second.names);
    put_second(rt, &mut disk, second);
    disk
}

// Checks that the pages of both items are distinct.
fn both_are_apart(rt: &impl Abort, first: [u16; 2], second: Second) {
    let [value, more] = second.pages;
    let pages = [first[0], first[1], second.head, value, more];
    holds(rt, are_apart(&pages), &pages);
}

// Checks that an image after both items has each byte that its pages require, with the first item where it was.
fn is_after_two<A: Allocator + Copy>(rt: &impl Abort, alloc: A) {
    let mut disk = with_one(rt, alloc);
    let first = first_pages(rt, &mut disk);
    let mut disk = changed(rt, alloc, disk, "02 = 07*600");
    let second = second_pages(rt, &mut disk, first[0]);
    both_are_apart(rt, first, second);
    let want = of_both(rt, alloc, first, second);
    holds(rt, are_alike(rt, alloc, disk, want), &"the image");
}

// The item that is unchanged keeps its pages, and the other takes a head and two pages of its own. The first root names
// both heads.
#[test]
fn an_image_after_two_commits(rt: HostRuntime) {
    is_after_two(&rt, rt.alloc());
}
