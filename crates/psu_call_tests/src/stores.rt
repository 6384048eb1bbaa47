//! Stores for an execution: the store of an opened disk, and one with given items.
ghost use Rattle.std.specs.Prelude.{IsTrue};
ghost use Rattle.psu_map.specs.Batch.{changed};
ghost use Rattle.psu_map.specs.Capacity.{CanHold, Fits};

use psu_disk::Disk;
use psu_items::{Batch, Commit, Items, Pair, Store, Value};
use std::alloc::{Allocator, Global};
use std::process::Abort;

/// Returns the store of a disk that is opened.
pub(crate) fn opened<D: Disk + Drop, A: Allocator + Copy>(
    rt: &impl Abort,
    alloc: A,
    disk: D,
) -> Store<D, A> {
    Store::open(alloc, disk).ok().expect(rt, "a store")
}

// Whether an image can hold an item.
fn fits(pair: &Pair<Global>) -> bool
    ensures { IsTrue result → Fits pair.now }
{
    let key = pair.key().len();
    let value = pair.value().len();
    1 <= key && key <= 65 && 1 <= value && value <= 33_280
}

// Whether an image of this limit can hold a map.
fn can_hold(limit: u16, items: &Items<Global>) -> bool
    ensures { IsTrue result → CanHold limit items.now }
{
    let pairs = items.pairs();
    items.cost() <= u128::from(limit) && pairs.len() <= 240 && pairs.iter().all(fits)
}

// Whether the image of a store can hold the map after a batch.
fn takes<D: Disk>(alloc: Global, store: &Store<D, Global>, batch: &Batch<Global>) -> bool
    ensures { IsTrue result → CanHold store.now.limit (changed store.now.items batch.now) }
{
    match store.items().changed(alloc, batch) {
        Ok(target) => can_hold(store.limit(), &target),
        Err(_) => false,
    }
}

/// Returns the disk of a store after a commit, which has to succeed.
pub(crate) fn stored<D: Disk + Drop>(
    rt: &impl Abort,
    alloc: Global,
    store: Store<D, Global>,
    batch: Batch<Global>,
) -> D {
    if !takes(alloc, &store, &batch) {
        panic!(rt; "no room");
    }
    match store.commit(alloc, batch) {
        Commit::Stored(store) => store.into_disk(),
        _ => panic!(rt; "no commit"),
    }
}

// Copies bytes to memory of their own.
fn owned<A: Allocator + Copy>(rt: &impl Abort, alloc: A, bytes: &[u8]) -> Vec<u8, A> {
    bytes.to_vec(alloc).ok().expect(rt, "memory")
}

/// Adds the edit that assigns this value to an item.
pub(crate) fn assign<A: Allocator + Copy>(
    rt: &impl Abort,
    alloc: A,
    batch: &mut Batch<A>,
    key: &[u8],
    value: &[u8],
) {
    let value = Value::new(owned(rt, alloc, value))
        .ok()
        .expect(rt, "memory");
    let assigned = batch.assign(owned(rt, alloc, key), value).is_ok();
    assert!(rt; assigned);
}

/// Adds the edit that removes an item.
pub(crate) fn remove<A: Allocator + Copy>(
    rt: &impl Abort,
    alloc: A,
    batch: &mut Batch<A>,
    key: &[u8],
) {
    let removed = batch.remove(owned(rt, alloc, key)).is_ok();
    assert!(rt; removed);
}
