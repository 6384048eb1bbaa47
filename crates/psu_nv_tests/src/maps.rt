//! Maps as tables: an item a line, its key and its value.
use psu_map::{Items, Value};
use psu_tables::bytes;
use std::alloc::Allocator;

// The bytes of outputs 2 to 4 at `*RST`.
const RESET: &str = "00*4 ea 60 00*5 ea 60 00*5 ea 60 00";

// Returns the bytes of two cells.
fn joined<A: Allocator + Copy>(alloc: A, first: &str, second: &str) -> Option<Vec<u8, A>> {
    let mut all = bytes(alloc, first)?;
    all.extend_from_slice(&bytes(alloc, second)?).ok()?;
    Some(all)
}

/// Returns the bytes of a cell, which may end with those of outputs 2 to 4 at `*RST`.
pub(crate) fn bytes_of<A: Allocator + Copy>(alloc: A, cell: &str) -> Option<Vec<u8, A>> {
    match cell.strip_suffix(" reset") {
        Some(first) => joined(alloc, first, RESET),
        None => bytes(alloc, cell),
    }
}

/// Inserts an item.
pub(crate) fn insert<A: Allocator + Copy>(
    items: &mut Items<A>,
    key: Vec<u8, A>,
    value: Vec<u8, A>,
) -> Option<()> {
    items.insert(key, Value::new(value).ok()?).ok()?;
    Some(())
}

// Inserts the item of a line; nothing for an empty line.
fn put<A: Allocator + Copy>(alloc: A, items: &mut Items<A>, line: &str) -> Option<()> {
    if line.is_empty() {
        return Some(());
    }
    let (key, value) = line.split_once("|")?;
    let key = bytes_of(alloc, key)?;
    insert(items, key, bytes_of(alloc, value)?)
}

/// Returns the map of these items.
pub(crate) fn map_of<A: Allocator + Copy>(alloc: A, table: &str) -> Option<Items<A>> {
    let mut items = Items::new(alloc);
    for line in table.lines() {
        put(alloc, &mut items, line)?;
    }
    Some(items)
}
