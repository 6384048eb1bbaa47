//! What a run that ends early hands back: the disk where it was not opened, and otherwise the store, whole or broken.
use crate::holds::holds;
use crate::images::{formatted, least};
use crate::memory::{arena, leave};
use crate::runs::run_between;
use crate::spelled::spoiled;
use psu_disk::{Disk, FailingDisk, MemDisk};
use psu_run::{RecoverFault, Returned, RunCause, RunFault, StartCause, recover, report_text};
use std::alloc::{Allocator, Global};

const SAVE: &[u8] = b"*SAV 1;*OPC?\n";

// The fault of a run that saves, with memory of its own.
fn fault_on<D: Disk + Drop, A: Allocator + Copy>(
    alloc: Global,
    memory: A,
    disk: D,
) -> Option<RunFault<D, A>> {
    let mut reader = SAVE;
    let mut text = Vec::new(alloc);
    run_between(memory, &mut reader, &mut text, disk).err()
}

// A disk without a root is not opened.
#[test]
fn a_disk_that_is_not_opened(rt: HostRuntime) {
    let alloc = rt.alloc();
    let disk = MemDisk::new(alloc, 2_048).expect(&rt, "a disk");
    let fault = fault_on(alloc, alloc, disk).expect(&rt, "a fault");
    assert!(rt; fault.cause == RunCause::Open(StartCause::NoRoot) && !fault.is_worn());
    assert!(rt; matches!(fault.returned, Returned::Disk(_)));
}

// A store whose root has the last number: the save can't be flushed.
#[test]
fn a_store_without_a_number(rt: HostRuntime) {
    let alloc = rt.alloc();
    let image = formatted(alloc).expect(&rt, "an image");
    let disk = spoiled(alloc, image, "8: ff*8").expect(&rt, "an image");
    let fault = fault_on(alloc, alloc, disk).expect(&rt, "a fault");
    assert!(rt; fault.cause == RunCause::Device && fault.is_worn());
    assert!(rt; matches!(fault.returned, Returned::Store(_)));
}

// Whether a disk that stops after so many calls ends the run with a store that is broken, where it ends with a device
// fault; `None` where it does not.
fn is_broken(alloc: Global, calls: u64) -> Option<bool> {
    let fault = fault_on(
        alloc,
        alloc,
        FailingDisk::from_then_on(least(alloc)?, calls),
    )?;
    if fault.cause != RunCause::Device {
        return None;
    }
    Some(matches!(fault.returned, Returned::Broken(_)) && !fault.is_worn())
}

// A disk that stops in the first commit, at least two writes and three syncs: the store is broken, and stays so.
#[test]
fn a_store_that_broke(rt: HostRuntime) {
    let mut broken = 0u32;
    for calls in 0..24u64 {
        let is_broken = is_broken(rt.alloc(), calls);
        holds(&rt, is_broken != Some(false), &calls);
        broken = broken.saturating_add(u32::from(is_broken == Some(true)));
    }
    holds(&rt, broken >= 5, &broken);
}

// Whether memory is refused where so little of it is left.
fn is_refused(alloc: Global, left: usize) -> Option<bool> {
    let arena = arena(alloc).ok()?;
    leave(&arena, left).ok()?;
    let fault = fault_on(alloc, &arena, least(alloc)?)?;
    Some(matches!(fault.cause, RunCause::Memory(_)))
}

// Memory is refused before the store is open, and for the buffer of a piece, which has 65,536 bytes.
#[test]
fn memory_that_is_refused(rt: HostRuntime) {
    assert!(rt; is_refused(rt.alloc(), 0) == Some(true));
    assert!(rt; is_refused(rt.alloc(), 40_000) == Some(true));
}

// Whether a report, or its text, is refused memory.
#[test]
fn a_report_without_memory(rt: HostRuntime) {
    let alloc = rt.alloc();
    let memory = arena(alloc).expect(&rt, "an arena");
    leave(&memory, 0).expect(&rt, "room");
    let found = recover(&memory, least(alloc).expect(&rt, "an image")).found;
    assert!(rt; matches!(found.err(), Some(RecoverFault::Memory(_))));
    let report = recover(alloc, least(alloc).expect(&rt, "an image")).found;
    assert!(rt; report_text(alloc, &report.ok().expect(&rt, "a report")).is_ok());
}
