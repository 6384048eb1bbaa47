//! The writing of the map after a batch, with its allocations first.
ghost use Rattle.std.specs.Prelude.{◌≡◌, ◌+◌, ◌<◌, ◌^◌, OnOk, IsErrOf};
ghost use Rattle.psu_disk.specs.Disk.{IsCrashImage};
ghost use Rattle.psu_disk.specs.Steps.{DiskStep, LeavesImages};
ghost use Rattle.psu_pages.specs.Outcome.{HasSameRoots};
ghost use Rattle.psu_pages.specs.Writing.{Reaches};
ghost use Rattle.psu_map.specs.Capacity.{CanHold};
ghost use Rattle.psu_map.specs.Batch.{changed};
ghost use Rattle.psu_items.specs.Image.{IsEitherRoot};
ghost use Rattle.psu_items.specs.Layout.{HaveKept};
ghost use Rattle.psu_items.specs.Standing.{KeepsMap};
ghost use Rattle.psu_items.specs.Writing.{SameAfterPool};
ghost use Rattle.psu_items.specs.declared.renew.Unwritten.TheVariants.{Memory, Device};

use crate::layout::lay_out;
use crate::put::put;
use psu_disk::Disk;
use psu_map::{Batch, Pair, Target};
use psu_pages::Pages;
use std::alloc::Allocator;

/// Why a map was not written.
#[derive(Clone, Copy, Drop)]
pub(crate) enum Unwritten {
    /// An allocation failed; no call of the disk was made.
    Memory,
    /// A call of the disk failed.
    Device,
}

/// Replaces the map by the map after a batch. All memory is allocated, and all pages are claimed, before the first call
/// of the disk.
pub(crate) fn renew<D: Disk, A: Allocator + Copy>(
    alloc: A,
    pages: &mut Pages<D, A>,
    before: &[Pair<A>],
    batch: &Batch<A>,
) -> Result<(), Unwritten>
    requires keeps { KeepsMap pages.old before.now }
    requires can { CanHold pages.old.limit (changed before.now batch.now) }
    requires number { pages.old.number + 1 < 2 ^ 64 }
    ensures keeps { OnOk result (KeepsMap pages.new (changed before.now batch.now)) }
    ensures version { OnOk result (pages.new.version ≡ 2) }
    ensures number { OnOk result (pages.new.number ≡ pages.old.number + 1) }
    ensures heads { OnOk result (HaveKept batch.now before.now pages.old.heads.items pages.new.heads.items) }
    ensures limit { pages.new.limit ≡ pages.old.limit }
    ensures step { DiskStep D.Disk pages.old.disk pages.new.disk result (λ cause. cause ≡ Device) }
    ensures same { IsErrOf result Memory → HasSameRoots pages.old pages.new × KeepsMap pages.new before.now }
    ensures left { LeavesImages D.Disk pages.old.disk pages.new.disk
        (IsEitherRoot pages.old.version pages.old.number pages.old.limit before.now
        (changed before.now batch.now)) }
    ensures after_pool { LeavesImages D.Disk pages.old.disk pages.new.disk (Reaches (SameAfterPool pages.old.limit) (IsCrashImage (D.state pages.old.disk))) }
{
    let Ok(target) = Target::of(alloc, before, batch) else {
        return Err(Unwritten::Memory);
    };
    let Ok(layout) = lay_out(alloc, pages, &target) else {
        return Err(Unwritten::Memory);
    };
    match put(pages, &target, layout) {
        Ok(()) => Ok(()),
        Err(_) => Err(Unwritten::Device),
    }
}
