//! Full pools, of which every page is used again, and the last number that a root may have.
use crate::edits::{assign, copied, each_of, edits, is_map};
use crate::holds::holds;
use crate::images::{changed, empty, formatted, store_with};
use crate::spelled::spelled;
use crate::stores::{commit, has_map, opened, stored};
use psu_disk::Disk;
use psu_items::{Batch, Commit, Store, UnstartedCause};
use std::alloc::Allocator;
use std::process::Abort;

// Commits of one value after another for this many keys: from the first value to before the last. From the value
// `again` on the store is opened again after each.
#[derive(Clone, Copy, Drop)]
struct CommitRun {
    keys: u8,
    first: u8,
    last: u8,
    again: u8,
}

// Returns the store, or the one that an opening finds on its disk where that is requested.
fn kept<D: Disk + Drop, A: Allocator + Copy>(
    rt: &impl Abort,
    alloc: A,
    store: Store<D, A>,
    is_opened: bool,
) -> Store<D, A> {
    if !is_opened {
        return store;
    }
    opened(rt, alloc, store.into_disk())
}

// Returns the store after a commit of a batch, and checks that the batch's items are then all that it has.
fn set_all<D: Disk + Drop, A: Allocator + Copy>(
    rt: &impl Abort,
    alloc: A,
    store: Store<D, A>,
    (batch, is_opened): (&Batch<A>, bool),
) -> Store<D, A> {
    let store = stored(rt, alloc, store, copied(rt, alloc, batch));
    let store = kept(rt, alloc, store, is_opened);
    holds(rt, is_map(store.items(), batch), &"the items of the batch");
    store
}

// Checks that after these commits on a disk its store has this number, and its map costs this many pages.
fn is_set_often<D: Disk + Drop, A: Allocator + Copy>(
    rt: &impl Abort,
    alloc: A,
    disk: D,
    (commit_run, number, pages): (CommitRun, u64, u128),
) {
    let mut store = opened(rt, alloc, disk);
    for value in commit_run.first..commit_run.last {
        let batch = each_of(rt, alloc, (0, commit_run.keys), value);
        store = set_all(rt, alloc, store, (&batch, value >= commit_run.again));
    }
    ends_with(rt, &store, number, pages);
}

// Checks that a store has this number, and its map costs this many pages.
fn ends_with<D: Disk, A: Allocator + Copy>(
    rt: &impl Abort,
    store: &Store<D, A>,
    number: u64,
    pages: u128,
) {
    holds(rt, store.number() == number, &number);
    holds(rt, store.items().cost() == pages, &pages);
}

// 240 items fill the limit of 480. A commit that changes them all takes the other half of the pool.
const MANY: CommitRun = CommitRun {
    keys: 240,
    first: 1,
    last: 6,
    again: 1,
};

#[test]
fn two_hundred_and_forty_items(rt: HostRuntime) {
    let disk = formatted(&rt, rt.alloc(), 492_544, 480);
    is_set_often(&rt, rt.alloc(), disk, (MANY, 6, 480));
}

// Two items fill the limit of 4, and a commit that changes both takes the whole pool of 8 pages. The commits continue
// in one store, and from the value 40 on each in one that was opened for it.
const TWO: CommitRun = CommitRun {
    keys: 2,
    first: 0,
    last: 60,
    again: 40,
};

#[test]
fn sixty_commits_in_a_pool_that_is_full(rt: HostRuntime) {
    let disk = empty(&rt, rt.alloc());
    is_set_often(&rt, rt.alloc(), disk, (TWO, 61, 4));
}

// Returns a batch that drops the key 0, and assigns this value to the key 200.
fn reassigned<A: Allocator + Copy>(rt: &impl Abort, alloc: A, value: u8) -> Batch<A> {
    let mut batch = edits(rt, alloc, "00");
    assign(rt, alloc, &mut batch, (200, value));
    batch
}

// Assigns a value to the key 0, replaces the key by the key 200, and drops that. The key 1 is unchanged.
fn passed_on<D: Disk + Drop, A: Allocator + Copy>(
    rt: &impl Abort,
    alloc: A,
    store: Store<D, A>,
    value: u8,
) -> Store<D, A> {
    let store = stored(rt, alloc, store, each_of(rt, alloc, (0, 1), value));
    let store = stored(rt, alloc, store, reassigned(rt, alloc, value));
    let store = stored(rt, alloc, store, edits(rt, alloc, "c8"));
    has_map(rt, alloc, &store, "01 = 63");
    store
}

// Repeats this sixty times on an empty image of limit 4 that two items fill.
fn is_passed_on_often<D: Disk + Drop, A: Allocator + Copy>(rt: &impl Abort, alloc: A, disk: D) {
    let mut store = store_with(rt, alloc, disk, "00 = 63; 01 = 63");
    for value in 0..60u8 {
        store = passed_on(rt, alloc, store, value);
    }
    ends_with(rt, &store, 182, 2);
}

// One item of a full image is changed again and again, and the other is unchanged; then the first is replaced by a
// third.
#[test]
fn sixty_commits_beside_what_stays(rt: HostRuntime) {
    is_passed_on_often(&rt, rt.alloc(), empty(&rt, rt.alloc()));
}

// A fresh image of limit 4 whose root has the last number but one.
const NEARLY_WORN: &str = "0: a5 'PSU 00 02 00 04 ff*7 fe";

// Returns the store after a commit of an empty batch that was not begun because the number is the last.
fn unstarted<D: Disk + Drop, A: Allocator + Copy>(
    rt: &impl Abort,
    ended: Commit<D, A>,
) -> Store<D, A> {
    match ended {
        Commit::Unstarted(store, batch, cause) => {
            holds(rt, cause == UnstartedCause::Worn, &"the cause");
            holds(rt, batch.edits().is_empty(), &"the batch");
            store
        }
        _ => panic!(rt; "a commit is begun"),
    }
}

// Checks that the root with the last number, which the commit on the one before it writes, accepts no commit, and that
// its map is unchanged.
fn is_worn<D: Disk + Drop, A: Allocator + Copy>(rt: &impl Abort, alloc: A, disk: D) {
    let store = opened(rt, alloc, changed(rt, alloc, disk, "01 = 24"));
    holds(rt, store.number() == u64::MAX, &"the last number");
    let ended = commit(rt, alloc, store, Batch::new(alloc));
    has_map(rt, alloc, &unstarted(rt, ended), "01 = 24");
}

// The root with the last number accepts no commit, and the one before it accepts one.
#[test]
fn the_last_number_is_worn(rt: HostRuntime) {
    is_worn(
        &rt,
        rt.alloc(),
        spelled(&rt, rt.alloc(), 5_120, NEARLY_WORN),
    );
}
