//! Batches as texts, and maps as the batches that assign their items.
use psu_items::{Batch, Edit, Items, Pair, Value};
use psu_tables::bytes;
use std::alloc::Allocator;
use std::process::Abort;

/// Returns the bytes that a text has in hexadecimal digits.
pub(crate) fn bytes_in<A: Allocator>(rt: &impl Abort, alloc: A, text: &str) -> Vec<u8, A> {
    bytes(alloc, text).expect(rt, "a text of bytes")
}

/// Returns a value of these bytes.
pub(crate) fn value_of<A: Allocator + Copy>(rt: &impl Abort, bytes: Vec<u8, A>) -> Value<A> {
    Value::new(bytes).expect(rt, "memory for a value")
}

// Adds a value for a key.
fn assign_value<A: Allocator + Copy>(
    rt: &impl Abort,
    batch: &mut Batch<A>,
    key: Vec<u8, A>,
    value: Vec<u8, A>,
) {
    let value = value_of(rt, value);
    batch.assign(key, value).expect(rt, "memory for an edit");
}

// Adds the edit of a text: a value for a key, or the key alone, which is removed.
fn add<A: Allocator + Copy>(rt: &impl Abort, alloc: A, batch: &mut Batch<A>, edit: &str) {
    let (key, value) = edit.split_once(" = ").unwrap_or((edit, ""));
    let key = bytes_in(rt, alloc, key);
    if value.is_empty() {
        batch.remove(key).expect(rt, "memory for an edit");
    } else {
        assign_value(rt, batch, key, bytes_in(rt, alloc, value));
    }
}

/// Returns the batch of a text, its bytes in hexadecimal digits: `01 = 24; 02` assigns the value 36 to the key 1, and
/// removes the key 2. An empty text is an empty batch.
pub(crate) fn edits<A: Allocator + Copy>(rt: &impl Abort, alloc: A, text: &str) -> Batch<A> {
    let mut batch = Batch::new(alloc);
    for edit in text.split(";") {
        if !edit.is_empty() {
            add(rt, alloc, &mut batch, edit);
        }
    }
    batch
}

/// Copies bytes to memory of their own.
pub(crate) fn copy_of<A: Allocator>(rt: &impl Abort, alloc: A, bytes: &[u8]) -> Vec<u8, A> {
    bytes.to_vec(alloc).expect(rt, "memory for bytes")
}

/// Adds a value of one byte for a key of one byte.
pub(crate) fn assign<A: Allocator + Copy>(
    rt: &impl Abort,
    alloc: A,
    batch: &mut Batch<A>,
    (key, value): (u8, u8),
) {
    let value = copy_of(rt, alloc, &[value]);
    assign_value(rt, batch, copy_of(rt, alloc, &[key]), value);
}

/// Returns a batch that assigns a value of one byte to each key of one byte from the first to before the last.
pub(crate) fn each_of<A: Allocator + Copy>(
    rt: &impl Abort,
    alloc: A,
    (first, last): (u8, u8),
    value: u8,
) -> Batch<A> {
    let mut batch = Batch::new(alloc);
    for key in first..last {
        assign(rt, alloc, &mut batch, (key, value));
    }
    batch
}

/// Copies a batch.
pub(crate) fn copied<A: Allocator + Copy>(rt: &impl Abort, alloc: A, batch: &Batch<A>) -> Batch<A> {
    batch.copy(alloc).expect(rt, "memory for a batch")
}

// Whether an item is the one that an edit assigns.
fn is<A: Allocator + Copy>(pair: &Pair<A>, edit: &Edit<A>) -> bool {
    match edit.value() {
        Some(value) => pair.key() == edit.key() && pair.value() == value,
        None => false,
    }
}

/// Whether a map has exactly the items that a batch assigns in the order of their keys.
pub(crate) fn is_map<A: Allocator + Copy>(items: &Items<A>, want: &Batch<A>) -> bool {
    for (pair, edit) in items.pairs().iter().zip(want.edits()) {
        if !is(pair, edit) {
            return false;
        }
    }
    items.pairs().len() == want.edits().len()
}

/// Whether a map has exactly the items that a text assigns in the order of their keys.
pub(crate) fn is_just<A: Allocator + Copy>(
    rt: &impl Abort,
    alloc: A,
    items: &Items<A>,
    want: &str,
) -> bool {
    is_map(items, &edits(rt, alloc, want))
}
