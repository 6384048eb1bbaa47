//! Devices whose disks fail: stores that break, power losses in a job, and a store that does not power on.
use crate::holds::holds;
use crate::plays::{LEAST, device_with, disk_after, disk_of, image_of, played, whole};
use crate::stores::{assign, opened, stored};
use psu_disk::{Choice, Disk, FailingDisk, MemDisk};
use psu_exec::{Exec, PowerCause, PowerFault};
use psu_items::{Batch, Store};
use psu_status::Enables;
use std::alloc::{Allocator, Global};
use std::process::Abort;

// A session waits for a job that does not fail.
const FLUSHED: &str = "open 1
1: *PSC 0 -> done
1: *OPC? -> parked
flush 1
whole
1 settles 1
flush
flush
flush
flushed";

// A session waits for a job that the disk fails: -320 for the wait and for each change of nonvolatile state, until the
// store is reopened.
const BROKEN: &str = "open 1
1: *PSC 0 -> done
1: *OPC? -> parked
flush 1
broken
1 settles error
1: *OPC? -> error
1: *SRE 4 -> error
1: *PSC? -> 0
flush
flush
flush
flushed";

// Returns the disk of a device with everything flushed, though it failed after this many calls: of a commit, or after
// it.
fn flushed<A: Allocator + Copy>(rt: &impl Abort, alloc: A, passes: u64) -> MemDisk<A> {
    let disk = FailingDisk::once(image_of(rt, alloc, LEAST), passes);
    let script = if passes < 11 { BROKEN } else { FLUSHED };
    disk_after(rt, alloc, disk, script).into_inner()
}

// Checks that a restart finds what was flushed.
fn is_flushed_after<A: Allocator + Copy>(rt: &impl Abort, alloc: A, passes: u64) {
    disk_after(rt, alloc, flushed(rt, alloc, passes), "keeps 0 0");
}

// Each call of a commit that fails breaks the store, until it is reopened.
#[test]
fn a_broken_store_is_opened_again(rt: HostRuntime) {
    for passes in 3..12u64 {
        is_flushed_after(&rt, rt.alloc(), passes);
    }
}

// Returns a store in which the item of the enables has one byte instead of two.
fn bad_items(rt: &impl Abort, alloc: Global) -> Store<MemDisk<Global>, Global> {
    let mut batch = Batch::new(alloc);
    assign(rt, alloc, &mut batch, &[1], &[36]);
    let store = opened(rt, alloc, image_of(rt, alloc, LEAST));
    opened(rt, alloc, stored(rt, alloc, store, batch))
}

// Returns why a device is not powered on with a store.
fn refusal<D: Disk + Drop, A: Allocator + Copy>(
    rt: &impl Abort,
    alloc: A,
    store: Store<D, A>,
) -> PowerCause {
    match Exec::power_on(alloc, store) {
        Ok(_) => panic!(rt; "a device"),
        Err(PowerFault { cause, store }) => {
            store.into_disk();
            cause
        }
    }
}

// No contents have such an item.
#[test]
fn bad_items_do_not_power_on(rt: HostRuntime) {
    let cause = refusal(&rt, rt.alloc(), bad_items(&rt, rt.alloc()));
    assert!(rt; cause == PowerCause::BadItems);
}

// The steps of one change and its job.
const ONE_CHANGE: &str = "open 1
1: *PSC 0 -> done
unflushed
flush";

// Returns the disk after it stopped after this many calls, the first of which open it, and then lost power with these
// bytes.
fn left_after<A: Allocator + Copy>(
    rt: &impl Abort,
    alloc: A,
    passes: u64,
    choice: Choice,
) -> MemDisk<A> {
    let disk = FailingDisk::from_then_on(image_of(rt, alloc, LEAST), passes);
    let exec = played(rt, alloc, disk, ONE_CHANGE);
    let mut disk = disk_of(rt, exec).into_inner();
    disk.lose(choice);
    disk
}

// Whether a device keeps what was before the job, or its target.
fn has_either<D: Disk, A: Allocator + Copy>(exec: &Exec<D, A>) -> bool {
    match exec.contents().enables() {
        None => true,
        Some(enables) => enables == Enables { sre: 0, ese: 0 },
    }
}

// Whether a restart finds either, where power is lost after this many calls with these bytes.
fn leaves_either<A: Allocator + Copy>(
    rt: &impl Abort,
    alloc: A,
    passes: u64,
    choice: Choice,
) -> bool {
    let exec = device_with(rt, alloc, left_after(rt, alloc, passes, choice));
    let is_so = has_either(&exec);
    whole(rt, exec);
    is_so
}

// Power is lost after each disk call of a job, with the bytes of the last sync, those written, or any: a restart finds
// the contents before the job or its target.
#[test]
fn a_loss_in_a_job_leaves_before_or_target(rt: HostRuntime) {
    let choices = [
        Choice::Old,
        Choice::New,
        Choice::Fill(0),
        Choice::Fill(0xa5),
        Choice::Fill(0xff),
    ];
    for passes in 3..12u64 {
        for choice in choices {
            let is_so = leaves_either(&rt, rt.alloc(), passes, choice);
            holds(&rt, is_so, &(passes, choice));
        }
    }
}
