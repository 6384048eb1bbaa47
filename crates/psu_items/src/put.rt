//! The part of a commit that writes.
ghost use Rattle.std.specs.Prelude.{◌≡◌, ◌≢◌, ◌+◌, ◌<◌, ◌^◌, true, Some, List, ℕ, length, OnOk, ⊤};
ghost use Rattle.std.specs.List.{AllByRecursion};
ghost use Rattle.psu_disk.specs.Disk.{IsCrashImage};
ghost use Rattle.psu_disk.specs.Steps.{DiskStep, LeavesImages};
ghost use Rattle.psu_map.specs.Map.{Item, get, IsSorted};
ghost use Rattle.psu_pages.specs.Free.{AreClaimed, IsRoster};
ghost use Rattle.psu_pages.specs.Image.{AreApart, AreClear, IsInPool, keys, pages_of, taken, Head as HeadOf};
ghost use Rattle.psu_pages.specs.Outcome.{EncodesPages, IsPlanned, HasSameHeads};
ghost use Rattle.psu_pages.specs.Shown.{items_in};
ghost use Rattle.psu_pages.specs.Writing.{IsWritten, Reaches};
ghost use Rattle.psu_items.specs.Image.{IsEitherRoot};
ghost use Rattle.psu_items.specs.Layout.{heads_of, keys_in, slots_of, value_at, IsSized, StandsWritten};
ghost use Rattle.psu_items.specs.Standing.{AreSpare, IsSpare, ShowsMap};
ghost use Rattle.psu_map.specs.Target.{aimed};
ghost use Rattle.psu_items.specs.Writing.{SameAfterPool};
ghost use Rattle.psu_items.specs.declared.layout.Slot.{Slot as SlotOf};
ghost use Rattle.psu_pages.specs.declared.standing.Standing.TheVariants.{One, Unsure};

use crate::layout::Layout;
use psu_disk::Disk;
use psu_map::Target;
use psu_pages::{Head, PageFault, Pages};
use std::alloc::Allocator;

/// Replaces the map on the disk by the target: writes the new items first, then the root that names all heads of the
/// layout.
pub(crate) fn put<D: Disk, A: Allocator + Copy>(
    pages: &mut Pages<D, A>,
    target: &Target<'_, A>,
    layout: Layout<A>,
) -> Result<(), PageFault>
    requires shut { pages.old.standing ≡ One }
    requires number { pages.old.number + 1 < 2 ^ 64 }
    requires planned { AllByRecursion (λ (slot : SlotOf A). slot.is_new ≡ true → IsPlanned pages.old slot.head) (slots_of layout) }
    requires sized { AllByRecursion (IsSized (aimed target.now)) (slots_of layout) }
    requires keys { keys (heads_of (slots_of layout)) ≡ keys_in (aimed target.now) }
    requires sorted { IsSorted (aimed target.now) }
    requires roster { IsRoster pages.old.limit (heads_of (slots_of layout)) }
    requires claimed { AreClaimed pages.old.free (taken (heads_of (slots_of layout))) }
    requires spare { AreSpare pages.old (taken pages.old.heads.items) (taken (heads_of (slots_of layout))) }
    requires there { AllByRecursion (λ place. place < length layout.heads.items) layout.unwritten.items }
    requires kept { D.honest → AllByRecursion (StandsWritten (D.state pages.old.disk).bytes (aimed target.now)) (slots_of layout) }
    ensures step { DiskStep D.Disk pages.old.disk pages.new.disk result (λ cause. ⊤) }
    ensures shows { OnOk result (ShowsMap pages.new (aimed target.now)) }
    ensures spare { OnOk result (IsSpare pages.new pages.new.heads.items) }
    ensures confirmed { OnOk result (D.confirmed pages.new.disk) }
    ensures limit { pages.new.limit ≡ pages.old.limit }
    ensures version { OnOk result (pages.new.version ≡ 2) }
    ensures number { OnOk result (pages.new.number ≡ pages.old.number + 1) }
    ensures heads { OnOk result (pages.new.heads.items ≡ heads_of (slots_of layout)) }
    ensures left { (before : List Item) → ShowsMap pages.old before
        → LeavesImages D.Disk pages.old.disk pages.new.disk
        (IsEitherRoot pages.old.version pages.old.number pages.old.limit before (aimed target.now)) }
    ensures after_pool { LeavesImages D.Disk pages.old.disk pages.new.disk (Reaches (SameAfterPool pages.old.limit) (IsCrashImage (D.state pages.old.disk))) }
{
    write_heads(pages, target, &layout)?;
    pages.publish_root(layout.heads)?;
    pages.close_old()?;
    Ok(())
}

// Writes the pages of the new heads.
fn write_heads<D: Disk, A: Allocator + Copy>(
    pages: &mut Pages<D, A>,
    target: &Target<'_, A>,
    layout: &Layout<A>,
) -> Result<(), PageFault>
    requires sure { pages.old.standing ≢ Unsure }
    requires planned { AllByRecursion (λ (slot : SlotOf A). slot.is_new ≡ true → IsPlanned pages.old slot.head) (slots_of layout.now) }
    requires sized { AllByRecursion (IsSized (aimed target.now)) (slots_of layout.now) }
    requires pool { AllByRecursion (IsInPool pages.old.limit) (taken (heads_of (slots_of layout.now))) }
    requires there { AllByRecursion (λ place. place < length layout.now.heads.items) layout.now.unwritten.items }
    requires apart { AreApart (taken (heads_of (slots_of layout.now))) }
    ensures step { DiskStep D.Disk pages.old.disk pages.new.disk result (λ cause. ⊤) }
    ensures same { HasSameHeads pages.old pages.new }
    ensures standing { OnOk result (pages.new.standing ≡ pages.old.standing) }
    ensures written { D.honest → AllByRecursion (StandsWritten (D.state pages.old.disk).bytes (aimed target.now)) (slots_of layout.now)
        → OnOk result (AllByRecursion (λ (slot : SlotOf A). IsWritten (D.state pages.new.disk).bytes slot.head
        (value_at (aimed target.now) slot.head.key)) (slots_of layout.now)) }
    ensures shown { D.honest → items_in pages.new.root (D.state pages.new.disk).bytes ≡ items_in pages.old.root (D.state pages.old.disk).bytes }
    ensures left { LeavesImages D.Disk pages.old.disk pages.new.disk (EncodesPages pages.old) }
    ensures after_pool { LeavesImages D.Disk pages.old.disk pages.new.disk (Reaches (SameAfterPool pages.old.limit) (IsCrashImage (D.state pages.old.disk))) }
{
    for place in &layout.unwritten {
        write_head(pages, target, &layout.heads[*place])?;
    }
    Ok(())
}

// Writes the pages of one new head.
fn write_head<D: Disk, A: Allocator + Copy>(
    pages: &mut Pages<D, A>,
    target: &Target<'_, A>,
    head: &Head<A>,
) -> Result<(), PageFault>
    requires sure { pages.old.standing ≢ Unsure }
    requires planned { IsPlanned pages.old head.now }
    requires has { get (aimed target.now) head.now.key ≡ Some (value_at (aimed target.now) head.now.key) }
    requires size { head.now.size ≡ length (value_at (aimed target.now) head.now.key) }
    ensures step { DiskStep D.Disk pages.old.disk pages.new.disk result (λ cause. ⊤) }
    ensures same { HasSameHeads pages.old pages.new }
    ensures standing { OnOk result (pages.new.standing ≡ pages.old.standing) }
    ensures planned { (other : HeadOf) → IsPlanned pages.old other → IsPlanned pages.new other }
    ensures written { D.honest → OnOk result (IsWritten (D.state pages.new.disk).bytes head.now (value_at (aimed target.now) head.now.key)) }
    ensures others { D.honest → (other : HeadOf) (its : List ℕ)
        → IsWritten (D.state pages.old.disk).bytes other its
        → AllByRecursion (IsInPool pages.old.limit) (pages_of other)
        → AreClear (pages_of head.now) (pages_of other) → IsWritten (D.state pages.new.disk).bytes other its }
    ensures shown { D.honest → items_in pages.new.root (D.state pages.new.disk).bytes ≡ items_in pages.old.root (D.state pages.old.disk).bytes }
    ensures left { LeavesImages D.Disk pages.old.disk pages.new.disk (EncodesPages pages.old) }
    ensures after_pool { LeavesImages D.Disk pages.old.disk pages.new.disk (Reaches (SameAfterPool pages.old.limit) (IsCrashImage (D.state pages.old.disk))) }
{
    let Some(value) = target.get(head.key()) else {
        unreachable!()
    };
    pages.write_new(head, value)
}
