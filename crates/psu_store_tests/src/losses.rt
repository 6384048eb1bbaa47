//! Power losses during a commit and during the opening that follows, and disks that fail once.
use crate::edits::copied;
use crate::holds::holds;
use crate::images::{empty, formatted_with};
use crate::scenes::{Counts, Scene};
use crate::spelled::{bytes_of, remade};
use crate::stores::{broken_by, committed, disk_of, faults_of, opened, stored, stored_by};
use psu_disk::{Choice, Disk, FailingDisk, MemDisk};
use psu_items::{Broken, Store};
use std::alloc::Allocator;
use std::process::Abort;

// A power loss: the number of calls before it, and its effect on the bytes that are not safe.
#[derive(Clone, Copy, Drop)]
struct Loss {
    calls: u64,
    choice: Choice,
}

// Checks that the commit is stored on a disk where nothing fails.
fn is_stored<D: Disk + Drop, A: Allocator + Copy>(
    rt: &impl Abort,
    alloc: A,
    scene: &Scene<A>,
    disk: D,
) {
    let store = stored_by(rt, committed(rt, alloc, disk, &scene.batch));
    holds(rt, scene.has_target(&store).unwrap_or(false), &"the target");
}

// Returns the disk after an opening of it and a commit, whatever fails in them.
fn after_commit<D: Disk + Drop, A: Allocator + Copy>(
    rt: &impl Abort,
    alloc: A,
    scene: &Scene<A>,
    disk: D,
) -> D {
    disk_of(committed(rt, alloc, disk, &scene.batch))
}

// Returns a disk in memory after a power loss, in which no call fails any longer.
fn restored<A: Allocator + Copy>(disk: FailingDisk<MemDisk<A>>, choice: Choice) -> MemDisk<A> {
    let mut disk = disk.into_inner();
    disk.lose(choice);
    disk
}

// Returns the disk after a power loss during a commit.
fn left<A: Allocator + Copy>(
    rt: &impl Abort,
    alloc: A,
    scene: &Scene<A>,
    loss: Loss,
) -> MemDisk<A> {
    let calls = scene.counts.opening.saturating_add(loss.calls);
    let disk = FailingDisk::from_then_on(remade(rt, alloc, &scene.image), calls);
    restored(after_commit(rt, alloc, scene, disk), loss.choice)
}

// Whether an opening of a disk in memory finds the target, rather than the map before. `None` where it finds neither.
fn finds<A: Allocator + Copy>(alloc: A, scene: &Scene<A>, disk: MemDisk<A>) -> Option<bool> {
    scene.finds_target(alloc, disk)
}

// Whether the result of a power loss is possible: the map before unless all calls were made, and the target unless none
// was.
fn can_stand<A: Allocator + Copy>(rt: &impl Abort, alloc: A, scene: &Scene<A>, loss: Loss) -> bool {
    match finds(alloc, scene, left(rt, alloc, scene, loss)) {
        Some(true) => loss.calls > 0,
        Some(false) => loss.calls < scene.counts.commit,
        None => false,
    }
}

// Returns `Old`, `New`, or the byte of a fill.
fn choice_of(n: u16) -> Choice {
    match n {
        256 => Choice::Old,
        257 => Choice::New,
        _ => Choice::Fill((n % 256) as u8),
    }
}

// Checks that a power loss after each number of calls of a commit, and of each kind, leaves the map before it or the
// target.
fn each_loss_leaves_a_map<A: Allocator + Copy>(rt: &impl Abort, alloc: A, scene: &Scene<A>) {
    for calls in 0..scene.counts.commit.saturating_add(1) {
        for n in 0..258u16 {
            let choice = choice_of(n);
            let loss = Loss { calls, choice };
            holds(rt, can_stand(rt, alloc, scene, loss), &(calls, choice));
        }
    }
}

// Returns the disk after an opening, whatever fails in it.
fn after_opening<D: Disk, A: Allocator + Copy>(alloc: A, disk: D) -> D {
    match Store::open(alloc, disk) {
        Ok(store) => store.into_disk(),
        Err(refused) => refused.disk,
    }
}

// Whether the target is found on an image after a further power loss, during its opening.
fn finds_again<A: Allocator + Copy>(
    rt: &impl Abort,
    alloc: A,
    scene: &Scene<A>,
    image: &[u8],
    loss: Loss,
) -> Option<bool> {
    let disk = FailingDisk::from_then_on(remade(rt, alloc, image), loss.calls);
    let disk = restored(after_opening(alloc, disk), loss.choice);
    finds(alloc, scene, disk)
}

const CHOICES: [Choice; 5] = [
    Choice::Old,
    Choice::New,
    Choice::Fill(165),
    Choice::Fill(2),
    Choice::Fill(3),
];

// Checks that the target is found or is not found, as given, on an image that a power loss after k calls left, after a
// second power loss, in each call of the opening and of each kind. An opening reads the roots, a head and its value,
// and closes a gate: at most seven calls.
fn each_loss_finds<A: Allocator + Copy>(
    rt: &impl Abort,
    alloc: A,
    scene: &Scene<A>,
    (image, want, k): (&[u8], bool, u64),
) {
    for calls in 0..8u64 {
        for choice in CHOICES {
            let found = finds_again(rt, alloc, scene, image, Loss { calls, choice });
            holds(rt, found == Some(want), &(k, calls, choice, want));
        }
    }
}

// Checks that the map after one power loss is the map after a second.
fn second_changes_nothing<A: Allocator + Copy>(
    rt: &impl Abort,
    alloc: A,
    scene: &Scene<A>,
    first: Loss,
) {
    let image = bytes_of(rt, alloc, left(rt, alloc, scene, first));
    let found = finds(alloc, scene, remade(rt, alloc, &image));
    let want = found.expect(rt, "a map that can stand");
    each_loss_finds(rt, alloc, scene, (&image, want, first.calls));
}

// Checks that a power loss in the opening that follows a power loss does not change the map.
fn second_losses_change_nothing<A: Allocator + Copy>(rt: &impl Abort, alloc: A, scene: &Scene<A>) {
    for calls in 0..scene.counts.commit.saturating_add(1) {
        for choice in CHOICES {
            second_changes_nothing(rt, alloc, scene, Loss { calls, choice });
        }
    }
}

/// Checks that the commit is stored where nothing fails. A power loss during it leaves the map before it or the target,
/// and a second one, during the opening that follows, changes nothing.
pub(crate) fn losses_leave_a_map<A: Allocator + Copy>(rt: &impl Abort, alloc: A, scene: &Scene<A>) {
    is_stored(rt, alloc, scene, remade(rt, alloc, &scene.image));
    each_loss_leaves_a_map(rt, alloc, scene);
    second_losses_change_nothing(rt, alloc, scene);
}

// The calls of a commit of one item: its head and its value, the root, a gate and the other, with three syncs. The
// opening of an empty map makes a sync, and a read for each root.
const FIRST: Counts = Counts {
    limit: 4,
    version: 2,
    number: 1,
    opening: 3,
    commit: 8,
};

// Returns the scene of an image's first commit: of one item.
fn first_item<A: Allocator + Copy>(rt: &impl Abort, alloc: A) -> Scene<A> {
    let disk = empty(rt, alloc);
    Scene::of(rt, alloc, disk, ["01 = 24", "", "01 = 24"], FIRST)
}

#[test]
fn losses_in_the_first_commit(rt: HostRuntime) {
    losses_leave_a_map(&rt, rt.alloc(), &first_item(&rt, rt.alloc()));
}

// That opening makes a sync and reads two roots, two heads and two values; that commit writes five pages, a root and
// two gates, with three syncs.
const SEVERAL: Counts = Counts {
    limit: 8,
    version: 2,
    number: 2,
    opening: 7,
    commit: 11,
};

// A commit that changes the key 1, drops the key 2, and assigns a value of two pages to the key 3.
const THREE_EDITS: [&str; 3] = [
    "01 = 24; 02; 03 = 07*600",
    "01 = 0a; 02 = 14",
    "01 = 24; 03 = 07*600",
];

// Returns the scene of that commit on an image of limit 8.
fn several_items<A: Allocator + Copy>(rt: &impl Abort, alloc: A) -> Scene<A> {
    let disk = formatted_with(rt, alloc, (9_216, 8), THREE_EDITS[1]);
    Scene::of(rt, alloc, disk, THREE_EDITS, SEVERAL)
}

#[test]
fn losses_among_several_items(rt: HostRuntime) {
    each_loss_leaves_a_map(&rt, rt.alloc(), &several_items(&rt, rt.alloc()));
}

// Returns a store that is reopened, at the second attempt where the first fails, and whether the first did.
fn reopened<D: Disk + Drop, A: Allocator + Copy>(
    rt: &impl Abort,
    alloc: A,
    broken: Broken<D, A>,
) -> (Store<D, A>, bool) {
    match broken.reopen(alloc) {
        Ok(store) => (store, false),
        Err(broken) => (
            broken.reopen(alloc).ok().expect(rt, "the second trial"),
            true,
        ),
    }
}

// Checks that the next commit of a reopened store is stored, on a disk that failed twice. A disk that failed once is
// not tried, as it is to fail again.
fn continues<D: Disk + Drop, A: Allocator + Copy>(
    rt: &impl Abort,
    alloc: A,
    scene: &Scene<A>,
    (store, again): (Store<D, A>, bool),
) {
    if again {
        let store = stored(rt, alloc, store, copied(rt, alloc, &scene.batch));
        has_target(rt, alloc, scene, store.into_disk());
    }
}

// Checks that a disk that failed twice has the target.
fn has_target<D: Disk + Drop, A: Allocator + Copy>(
    rt: &impl Abort,
    alloc: A,
    scene: &Scene<A>,
    disk: D,
) {
    let store = opened(rt, alloc, disk);
    holds(
        rt,
        scene.is_target(store.items()).unwrap_or(false),
        &"the target",
    );
    holds(rt, faults_of(store) == 2, &"two failed calls");
}

// Whether the disk has the target after a commit that failed, and whether the reopening failed once too; then the store
// continues.
fn fails_again<D: Disk + Drop, A: Allocator + Copy>(
    rt: &impl Abort,
    alloc: A,
    scene: &Scene<A>,
    disk: D,
) -> (Option<bool>, bool) {
    let broken = broken_by(rt, committed(rt, alloc, disk, &scene.batch));
    let (store, again) = reopened(rt, alloc, broken);
    let target = scene.is_target(store.items());
    continues(rt, alloc, scene, (store, again));
    (target, again)
}

// Whether the reopening failed once too, on a disk that fails at the call k of the commit, and again `more` calls after
// it. `None` where the map is not the one that it has to be.
fn fails_twice<A: Allocator + Copy>(
    rt: &impl Abort,
    alloc: A,
    scene: &Scene<A>,
    (k, more): (u64, u64),
) -> Option<bool> {
    let call = scene.counts.opening.saturating_add(k);
    let disk = FailingDisk::once(remade(rt, alloc, &scene.image), call.saturating_add(more));
    let (target, again) = fails_again(rt, alloc, scene, FailingDisk::once(disk, call));
    (target? || k.saturating_add(1) < scene.counts.commit).then_some(again)
}

// Checks that the store continues where each call of a commit fails once, and then each of the reopening: its next
// commit is stored.
fn is_opened_again<A: Allocator + Copy>(rt: &impl Abort, alloc: A, scene: &Scene<A>) {
    let mut twice = 0u32;
    for k in 0..scene.counts.commit {
        for more in 0..12u64 {
            let again = fails_twice(rt, alloc, scene, (k, more));
            holds(rt, again.is_some(), &(k, more));
            twice = twice.saturating_add(u32::from(again.unwrap_or(false)));
        }
    }
    holds(rt, twice >= 77, &twice);
}

#[test]
fn is_opened_again_after_each_failed_call(rt: HostRuntime) {
    is_opened_again(&rt, rt.alloc(), &several_items(&rt, rt.alloc()));
}
