//! Changes while a job is out, which may break the store: none is lost. After the last job the store holds what the
//! device has.
use crate::holds::holds;
use crate::plays::{device_with, image_of, plays, whole};
use crate::stores::opened;
use psu_call_steps::{beside, step_holds};
use psu_disk::{Choice, Disk, FailingDisk, MemDisk};
use psu_exec::{Condition, Exec};
use psu_items::{Items, Store};
use std::alloc::Allocator;
use std::process::Abort;

// The state before the changes, in which each of them is accepted: the enables, a register, two macros and three files.
const BEFORE: &str = r#"open 1
1 does *PSC 0
1 does VOLT 2;*SAV 3
1 does *DMC "A",#14*RST;*DMC "D",#14*CLS
1 does MMEM:DATA "F",#13abc
1 does MMEM:STOR:STAT 3,"S"
1 does MMEM:STOR:MACR "A","M"
flush"#;

// The number of disk calls for that: three to open it while it is empty, and in the commit those for the head and the
// value of each of six items, for a root and its gates, and for three syncs.
const BEGUN: u64 = 21;

// Each change of nonvolatile state, with the units that it needs before it.
const CHANGES: &str = r#"1 does *PSC 0;*SRE 5
1 does *PSC 0;*ESE 6
1 does *PSC 1;*SRE 0;*ESE 0
1 does VOLT 5;*SAV 3
1 does VOLT 7;*SAV 0
1 does DIAG:PUD:PROT OFF;*PUD #12hi
1 does *DMC "B",#14*CLS
1 does *RMC "A"
1 does *PMC
1 does MMEM:DATA "G",#11x
1 does MMEM:DEL "F"
1 does MMEM:COPY "F","H"
1 does MMEM:MOVE "F","H"
1 does MMEM:STOR:STAT 0,"T"
1 does MMEM:LOAD:STAT 4,"S"
1 does MMEM:STOR:MACR "A","N"
1 does MMEM:LOAD:MACR "C","M"
1 does OUTP:PON:STAT RCL0"#;

// A change of a part that none of the others changes: it is refused while the store is broken, and made once it is
// reopened.
const LAST: &str = "1: VOLT 3 -> done
1: *SAV 9 -> error
flush
1 does VOLT 3;*SAV 9
flush
flushed";

// Returns a device on a disk that fails once: after this many calls of the job that follows the state before the
// changes.
fn failing_after<A: Allocator + Copy>(
    rt: &impl Abort,
    alloc: A,
    calls: u64,
) -> Exec<FailingDisk<MemDisk<A>>, A> {
    let disk = FailingDisk::once(image_of(rt, alloc, 24), calls.saturating_add(BEGUN));
    device_with(rt, alloc, disk)
}

// Makes the state before the changes, a change, and a second one while its job is out, and returns whether the second
// is done.
fn change_both<D: Disk + Drop, A: Allocator + Copy>(
    rt: &impl Abort,
    exec: &mut Exec<D, A>,
    first: &str,
    second: &str,
) -> bool {
    plays(rt, exec, BEFORE);
    holds(rt, step_holds(exec, first), &first);
    beside(exec, second).expect(rt, "a job")
}

// Flushes two changes by two jobs, or by one where the second is refused, and returns whether the second is refused.
fn flush_both<D: Disk + Drop, A: Allocator + Copy>(
    rt: &impl Abort,
    exec: &mut Exec<D, A>,
    first: &str,
    second: &str,
) -> bool {
    let done = change_both(rt, exec, first, second);
    assert!(rt; exec.is_flushed() != done);
    plays(rt, exec, "flush\nflushed");
    !done
}

// Makes two changes, the first of which may break the store, and returns whether it does; then a third is refused, and
// made once the store is reopened.
fn break_and_reopen<D: Disk + Drop, A: Allocator + Copy>(
    rt: &impl Abort,
    exec: &mut Exec<D, A>,
    first: &str,
    second: &str,
) -> bool {
    change_both(rt, exec, first, second);
    if exec.condition() != Condition::Broken {
        return false;
    }
    plays(rt, exec, LAST);
    true
}

// Returns the items that a device keeps.
fn kept<D: Disk, A: Allocator + Copy>(rt: &impl Abort, alloc: A, exec: &Exec<D, A>) -> Items<A> {
    exec.contents()
        .encode_items(alloc)
        .ok()
        .expect(rt, "memory")
}

// Whether a device keeps these items.
fn keeps<D: Disk + Drop, A: Allocator + Copy>(
    rt: &impl Abort,
    alloc: A,
    exec: Exec<D, A>,
    items: &Items<A>,
) -> bool {
    let same = kept(rt, alloc, &exec).is_same(items);
    whole(rt, exec);
    same
}

// Whether a store holds these items, and a device that is powered on with it keeps them.
fn has<D: Disk + Drop, A: Allocator + Copy>(
    rt: &impl Abort,
    alloc: A,
    store: Store<D, A>,
    items: &Items<A>,
) -> bool {
    let held = store.items().is_same(items);
    let exec = Exec::power_on(alloc, store).ok().expect(rt, "a device");
    keeps(rt, alloc, exec, items) && held
}

// Returns the disk after a power loss: with the bytes that were synced.
fn lost<A: Allocator + Copy>(disk: FailingDisk<MemDisk<A>>) -> MemDisk<A> {
    let mut disk = disk.into_inner();
    disk.lose(Choice::Old);
    disk
}

// Whether a restart finds the contents of a device.
fn is_found<A: Allocator + Copy>(
    rt: &impl Abort,
    alloc: A,
    exec: Exec<FailingDisk<MemDisk<A>>, A>,
) -> bool {
    let items = kept(rt, alloc, &exec);
    let disk = lost(whole(rt, exec));
    has(rt, alloc, opened(rt, alloc, disk), &items)
}

// Whether the second of two changes is refused; a restart then finds all that was done.
fn is_second_refused<A: Allocator + Copy>(
    rt: &impl Abort,
    alloc: A,
    first: &str,
    second: &str,
) -> bool {
    let mut exec = failing_after(rt, alloc, 1_000);
    let refused = flush_both(rt, &mut exec, first, second);
    holds(rt, is_found(rt, alloc, exec), &(first, second));
    refused
}

// Returns how many second changes are refused after a first.
fn refusals<A: Allocator + Copy>(rt: &impl Abort, alloc: A, first: &str) -> u32 {
    let mut refused = 0u32;
    for second in CHANGES.lines() {
        if is_second_refused(rt, alloc, first, second) {
            refused = refused.saturating_add(1);
        }
    }
    refused
}

// The refused changes are: F after its deletion or its move, three each; H after a copy, two; A after each removal,
// two; B and C a second time.
#[test]
fn each_change_while_the_job_of_each_is_out(rt: HostRuntime) {
    let mut refused = 0u32;
    for first in CHANGES.lines() {
        refused = refused.saturating_add(refusals(&rt, rt.alloc(), first));
    }
    holds(&rt, refused == 14, &refused);
}

// Whether the job is broken by its call after this many; a restart then finds everything.
fn is_broken<A: Allocator + Copy>(
    rt: &impl Abort,
    alloc: A,
    calls: u64,
    first: &str,
    second: &str,
) -> bool {
    let mut exec = failing_after(rt, alloc, calls);
    if !break_and_reopen(rt, &mut exec, first, second) {
        whole(rt, exec);
        return false;
    }
    holds(rt, is_found(rt, alloc, exec), &(calls, first, second));
    true
}

// Returns how often a change's job breaks, each time with another second change while it is out, and at another call of
// the first eight.
fn breaks<A: Allocator + Copy>(rt: &impl Abort, alloc: A, first: &str) -> u32 {
    let mut breaks = 0u32;
    let mut calls = 0u64;
    for second in CHANGES.lines() {
        if is_broken(rt, alloc, calls, first, second) {
            breaks = breaks.saturating_add(1);
        }
        calls = calls.saturating_add(1) % 8;
    }
    breaks
}

// A commit that writes an item makes eight calls. That of the three changes that only remove makes six: twice each the
// last two fail in no job.
#[test]
fn each_change_while_a_store_breaks(rt: HostRuntime) {
    let mut all = 0u32;
    for first in CHANGES.lines() {
        all = all.saturating_add(breaks(&rt, rt.alloc(), first));
    }
    holds(&rt, all == 18 * 18 - 3 * 4, &all);
}
