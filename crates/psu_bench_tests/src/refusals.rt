//! A bench for which there is no memory.
use crate::benches::formatted;
use bumpalo::Bump;
use psu_bench::Bench;
use psu_disk::MemDisk;
use psu_exec::{Exec, Session};
use psu_items::Store;
use std::alloc::Global;

// Allocates the rest of an arena, and prevents it from growing.
fn fill(arena: &Bump) -> Option<()> {
    arena.set_allocation_limit(Some(arena.allocated_bytes()));
    let left = arena.chunk_capacity();
    arena.try_alloc_slice_fill_clone(left, 0u8).ok()?;
    Some(())
}

type Device<'a> = Exec<MemDisk<Global>, &'a Bump>;

// Returns a device whose memory is an arena's.
fn powered_on<'a>(arena: &'a Bump, disk: MemDisk<Global>) -> Option<Device<'a>> {
    let store = Store::open(arena, disk).ok()?;
    Exec::power_on(arena, store).ok()
}

// Opens a session, and leaves no memory in the arena.
fn opens<'a>(arena: &'a Bump, exec: &mut Device<'a>) -> Option<Session> {
    let session = exec.open_session().ok()?;
    fill(arena)?;
    Some(session)
}

// Whether a device has this session, and nothing to flush.
fn is_as_before<'a>(exec: &Device<'a>, session: Option<Session>) -> bool {
    match session {
        Some(session) => exec.is_open(session) && exec.is_flushed(),
        None => false,
    }
}

// Whether a device is given back unchanged where no bench is made for it.
fn is_given_back<'a>(arena: &'a Bump, exec: Device<'a>, session: Option<Session>) -> bool {
    match Bench::new(arena, exec) {
        Ok(_) => false,
        Err(refused) => is_as_before(&refused.object, session),
    }
}

fn comes_back<'a>(arena: &'a Bump, mut exec: Device<'a>) -> bool {
    let session = opens(arena, &mut exec);
    is_given_back(arena, exec, session)
}

fn continues(alloc: Global, disk: MemDisk<Global>) -> Option<bool> {
    let arena = Bump::try_with_capacity(alloc, 4_000_000).ok()?;
    Some(comes_back(&arena, powered_on(&arena, disk)?))
}

// The device is given back unchanged, and continues.
#[test]
fn a_device_comes_back_where_there_is_no_bench(rt: HostRuntime) {
    let disk = formatted(&rt, rt.alloc());
    assert!(rt; continues(rt.alloc(), disk) == Some(true));
}
