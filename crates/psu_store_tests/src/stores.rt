//! The store on any disk.
ghost use Rattle.std.specs.Prelude.{IsTrue};
ghost use Rattle.std.specs.List.{AllByRecursion};
ghost use Rattle.psu_map.specs.Batch.{changed};
ghost use Rattle.psu_map.specs.Capacity.{CanHold, Fits};

use crate::edits::{copied, edits, is_just};
use crate::holds::holds;
use crate::images::{empty, formatted_over, store_with};
use psu_disk::{Disk, RecordingDisk};
use psu_items::{Batch, Broken, Commit, Pair, Store};
use std::alloc::Allocator;
use std::process::Abort;

// Whether an image can hold an item.
fn fits<A: Allocator + Copy>(pair: &Pair<A>) -> bool
    ensures { IsTrue result → Fits pair.now }
{
    let key = pair.key().len();
    let value = pair.value().len();
    1 <= key && key <= 65 && 1 <= value && value <= 33_280
}

// Whether an image can hold each of these items.
fn all_fit<A: Allocator + Copy>(pairs: &[Pair<A>]) -> bool
    ensures { IsTrue result → AllByRecursion Fits pairs.now }
{
    match pairs {
        [] => true,
        [first, rest @ ..] => fits(first) && all_fit(rest),
    }
}

// Whether the image of a store can hold the map after a batch.
fn takes<D: Disk, A: Allocator + Copy>(alloc: A, store: &Store<D, A>, batch: &Batch<A>) -> bool
    ensures { IsTrue result → CanHold store.now.limit (changed store.now.items batch.now) }
{
    match store.items().changed(alloc, batch) {
        Ok(target) => target.cost() <= u128::from(store.limit()) && all_fit(target.pairs()),
        Err(_) => false,
    }
}

/// Returns the result of a commit, where the image can hold the map after the batch.
pub(crate) fn commit<D: Disk + Drop, A: Allocator + Copy>(
    rt: &impl Abort,
    alloc: A,
    store: Store<D, A>,
    batch: Batch<A>,
) -> Commit<D, A> {
    assert!(rt; takes(alloc, &store, &batch));
    store.commit(alloc, batch)
}

/// Returns the store after a commit that succeeded.
pub(crate) fn stored_by<D: Disk + Drop, A: Allocator + Copy>(
    rt: &impl Abort,
    ended: Commit<D, A>,
) -> Store<D, A> {
    match ended {
        Commit::Stored(store) => store,
        _ => panic!(rt; "a commit is not stored"),
    }
}

/// Returns the store after a commit, which has to succeed.
pub(crate) fn stored<D: Disk + Drop, A: Allocator + Copy>(
    rt: &impl Abort,
    alloc: A,
    store: Store<D, A>,
    batch: Batch<A>,
) -> Store<D, A> {
    stored_by(rt, commit(rt, alloc, store, batch))
}

/// Returns the store of a disk that is opened.
pub(crate) fn opened<D: Disk + Drop, A: Allocator + Copy>(
    rt: &impl Abort,
    alloc: A,
    disk: D,
) -> Store<D, A> {
    Store::open(alloc, disk).ok().expect(rt, "a map on a disk")
}

/// Returns the result of a commit on a disk that is opened for it.
pub(crate) fn committed<D: Disk + Drop, A: Allocator + Copy>(
    rt: &impl Abort,
    alloc: A,
    disk: D,
    batch: &Batch<A>,
) -> Commit<D, A> {
    let store = opened(rt, alloc, disk);
    commit(rt, alloc, store, copied(rt, alloc, batch))
}

/// Returns the disk after a commit.
pub(crate) fn disk_of<D: Disk, A: Allocator + Copy>(commit: Commit<D, A>) -> D {
    match commit {
        Commit::Stored(store) => store.into_disk(),
        Commit::Unstarted(store, _, _) => store.into_disk(),
        Commit::Broken(broken) => broken.into_disk(),
    }
}

/// Returns the store that broke in a commit.
pub(crate) fn broken_by<D: Disk + Drop, A: Allocator + Copy>(
    rt: &impl Abort,
    ended: Commit<D, A>,
) -> Broken<D, A> {
    match ended {
        Commit::Broken(broken) => broken,
        _ => panic!(rt; "a commit is not broken"),
    }
}

/// Returns the number of failed calls of a store's disk.
pub(crate) fn faults_of<D: Disk + Drop, A: Allocator + Copy>(store: Store<D, A>) -> u64 {
    store.into_disk().faults()
}

/// Checks that a store has exactly the items that a text assigns in the order of their keys.
pub(crate) fn has_map<D: Disk, A: Allocator + Copy>(
    rt: &impl Abort,
    alloc: A,
    store: &Store<D, A>,
    want: &str,
) {
    holds(rt, is_just(rt, alloc, store.items(), want), &want);
}

// Edits of which the later one of a key is effective, and one that removes.
const FIVE_EDITS: &str = "01 = 0a; 02 = 14; 03 = 1e; 02; 03 = 1f";

// Whether a batch has each of the five edits, and the fourth is the one that removes.
fn are_the_five<A: Allocator + Copy>(batch: &Batch<A>) -> bool {
    let edits = batch.edits();
    edits.len() == 5 && edits[3].key() == [2].as_slice() && edits[3].value().is_none()
}

// Checks that a store on an empty disk has the map of the five edits after a commit of them.
fn keeps_the_later<D: Disk + Drop, A: Allocator + Copy>(rt: &impl Abort, alloc: A, disk: D) {
    let store = store_with(rt, alloc, disk, FIVE_EDITS);
    has_map(rt, alloc, &store, "01 = 0a; 03 = 1f");
}

#[test]
fn the_later_edit_of_a_key_counts(rt: HostRuntime) {
    assert!(rt; are_the_five(&edits(&rt, rt.alloc(), FIVE_EDITS)));
    keeps_the_later(&rt, rt.alloc(), empty(&rt, rt.alloc()));
}

// Checks that a store has the number and the map of a first commit.
fn is_first<D: Disk, A: Allocator + Copy>(rt: &impl Abort, alloc: A, store: &Store<D, A>) {
    holds(rt, store.number() == 2, &"the number");
    holds(rt, store.version() == 2, &"the version");
    has_map(rt, alloc, store, "01 = 24");
}

// Checks that a first commit is stored on a disk of 5,120 bytes, none of whose calls fails.
fn is_stored_on<D: Disk + Drop, A: Allocator + Copy>(rt: &impl Abort, alloc: A, disk: D) {
    let store = store_with(rt, alloc, formatted_over(rt, alloc, disk, 4), "01 = 24");
    is_first(rt, alloc, &store);
    holds(rt, faults_of(store) == 0, &"a failed call");
}

// A disk that reports its moments, for which the clauses on moments are not vacuous.
#[test]
fn a_disk_that_reports_its_moments_is_stored_on(rt: HostRuntime) {
    let disk = RecordingDisk::new(rt.alloc(), 5_120).expect(&rt, "a disk");
    is_stored_on(&rt, rt.alloc(), disk);
}
