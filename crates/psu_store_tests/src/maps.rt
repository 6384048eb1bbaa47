//! The map of items without a store.
use crate::edits::{copy_of, edits, is_just, value_of};
use crate::holds::holds;
use crate::spelled::number;
use crate::trials::{Trial, rows_hold};
use psu_items::{Edit, Items};
use std::alloc::Allocator;
use std::process::Abort;

// Inserts the value that an edit assigns.
fn put<A: Allocator + Copy>(rt: &impl Abort, alloc: A, items: &mut Items<A>, edit: &Edit<A>) {
    let value = edit.value().expect(rt, "a value");
    let value = value_of(rt, copy_of(rt, alloc, value));
    let key = copy_of(rt, alloc, edit.key());
    items.insert(key, value).expect(rt, "memory for an item");
}

// Returns a map of the items that a text has, inserted in its order.
fn map_of<A: Allocator + Copy>(rt: &impl Abort, alloc: A, text: &str) -> Items<A> {
    let mut items = Items::new(alloc);
    for edit in edits(rt, alloc, text).edits() {
        put(rt, alloc, &mut items, edit);
    }
    items
}

// Whether a map has this value for a key, or none where that is empty.
fn is_value<A: Allocator + Copy>(items: &Items<A>, key: &[u8], value: &[u8]) -> bool {
    match items.get(key) {
        Some(found) => found == value,
        None => value.is_empty(),
    }
}

// Checks that.
fn has<A: Allocator + Copy>(rt: &impl Abort, items: &Items<A>, key: &[u8], value: &[u8]) {
    holds(rt, is_value(items, key, value), &key);
}

// Checks that a map is in the order of its keys, whose items are inserted in another order, and one of them twice.
fn is_in_order<A: Allocator + Copy>(rt: &impl Abort, alloc: A) {
    let items = map_of(rt, alloc, "05 = 0a; 01 = 14; 03 = 1e; 01 = 28");
    let is_so = is_just(rt, alloc, &items, "01 = 28; 03 = 1e; 05 = 0a");
    holds(rt, is_so, &"the order of the keys");
    has(rt, &items, &[3], &[30]);
    has(rt, &items, &[3, 0], &[]);
}

#[test]
fn a_map_is_in_the_order_of_its_keys(rt: HostRuntime) {
    is_in_order(&rt, rt.alloc());
}

// The cost of a map of one value.
const COSTS: &str = "
05 = 00*1 -> 2
05 = 00*512 -> 2
05 = 00*513 -> 3

The value of a file of 29,183 bytes, and of one of 32,768.
05 = 00*29184 -> 58
05 = 00*32769 -> 66
";

/// Whether a map of these items costs this many pages.
pub(crate) fn costs<A: Allocator + Copy>(
    rt: &impl Abort,
    alloc: A,
    items: &str,
    pages: &str,
) -> bool {
    map_of(rt, alloc, items).cost() == u128::from(number(rt, pages))
}

#[test]
fn a_map_costs_pages(rt: HostRuntime) {
    rows_hold(&rt, rt.alloc(), Trial::Costs, COSTS);
}
