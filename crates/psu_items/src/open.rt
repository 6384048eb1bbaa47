//! Opening a store on a disk.
ghost use Rattle.std.specs.Prelude.{◌≡◌, ◌≢◌, ◌⊎◌, [], List, ℕ, OnOk, IfOk, IfErr};
ghost use Rattle.psu_disk.specs.Steps.{DiskStep, LeavesImages};
ghost use Rattle.psu_map.specs.Map.{Item, IsSorted};
ghost use Rattle.psu_map.specs.Capacity.{IsMapOf};
ghost use Rattle.psu_pages.specs.Finding.{IfImage};
ghost use Rattle.psu_pages.specs.Outcome.{Closes, EncodesPages};
ghost use Rattle.psu_pages.specs.Shown.{items_in};
ghost use Rattle.psu_items.specs.Image.{listed, current_root, number_in, version_in, EachRepresents, Represents, IsRefusal, HasReadableRoot};
ghost use Rattle.psu_items.specs.Finding.{IsOldOrSame, IsUnread};
ghost use Rattle.psu_items.specs.Outcome.{opened_disk};
ghost use Rattle.psu_items.specs.Standing.{IsOnDisk, IsSpare};
ghost use Rattle.psu_pages.specs.declared.faults.OpenCause.TheVariants.{Device, Memory};
ghost use Rattle.psu_pages.specs.declared.faults.PageFault.TheVariants as PageFault;
ghost use Rattle.psu_pages.specs.declared.standing.Standing.TheVariants.{One, Unsure};

use crate::Store;
use crate::read::read_items;
use psu_disk::Disk;
use psu_map::Items;
use psu_pages::{ImageError, OpenCause, PageFault, Pages};
use std::alloc::Allocator;

impl<D: Disk, A: Allocator + Copy> Store<D, A> {
    /// Opens the map that a disk represents, after a power loss or without one. It begins with a sync, and closes the
    /// gate of the older root if that is open.
    pub fn open(alloc: A, disk: D) -> Result<Store<D, A>, ImageError<D>>
        ensures represented { D.honest → IfOk result (λ store. Represents (D.state disk).bytes store.limit store.items) }
        ensures represents { D.honest → IfOk result (λ store. IsOnDisk D.state store) }
        ensures number { D.honest → IfOk result (λ store. store.number ≡ number_in (current_root (D.state disk).bytes) (D.state disk).bytes) }
        ensures version { D.honest → IfOk result (λ store. store.version ≡ version_in (current_root (D.state disk).bytes) (D.state disk).bytes) }
        ensures refused { D.honest → IfErr result (λ e. IfImage e.cause (IsRefusal (D.state disk).bytes)) }
        ensures untouched { D.honest → IfErr result (λ e. e.cause ≢ Device → (D.state e.disk).bytes ≡ (D.state disk).bytes) }
        ensures step { DiskStep D.Disk disk (opened_disk result) result (λ e. e.cause ≡ Device) }
        ensures quiet { IfErr result (λ e. e.cause ≢ Device → D.failures e.disk ≡ D.failures disk) }
        ensures memory { D.honest → IfErr result (λ e. e.cause ≡ Memory → HasReadableRoot (D.state disk).bytes) }

        // Only the gate of the older root is written: each image is one from before, or has the current root and every
        // other byte as they were read. This holds of a refused disk too.
        ensures images { LeavesImages D.Disk disk (opened_disk result) (IsOldOrSame (D.state disk)) }

        // If each image represents one map, that map is found, and each image at any moment represents it, also of a
        // refused disk.
        ensures finds { D.honest → (limit : ℕ) (map : List Item) → EachRepresents (D.state disk) limit map
            → IfOk result (λ store. (store.limit ≡ limit) × (store.items ≡ map)) }
        ensures left { (limit : ℕ) (map : List Item) → EachRepresents (D.state disk) limit map
            → LeavesImages D.Disk disk (opened_disk result) (λ image. Represents image limit map) }
    {
        match Pages::open(alloc, disk) {
            Ok(pages) => take_up(alloc, pages),
            Err(refused) => Err(refused),
        }
    }
}

// Reads the map that the pages show, and leaves their root as the only one with an open gate.
fn take_up<D: Disk, A: Allocator + Copy>(
    alloc: A,
    mut pages: Pages<D, A>,
) -> Result<Store<D, A>, ImageError<D>>
    requires sure { pages.standing ≢ Unsure }
    requires none_older { pages.older.items ≡ [] }
    requires spare { IsSpare pages pages.heads.items }
    ensures words { IfOk result (λ store. (store.limit ≡ pages.limit) × (store.version ≡ pages.version) × (store.number ≡ pages.number)) }
    ensures sorted { IfOk result (λ store. IsSorted store.items) }
    ensures represents { D.honest → IfOk result (λ store. IsOnDisk D.state store) }
    ensures found { D.honest → IfOk result (λ store. IsMapOf store.items (listed (D.state pages.disk).bytes pages.heads.items)) }
    ensures causes { IfErr result (λ e. (e.cause ≡ Device) ⊎ (e.cause ≡ Memory)) }
    ensures untouched { D.honest → IfErr result (λ e. e.cause ≢ Device → (D.state e.disk).bytes ≡ (D.state pages.disk).bytes) }
    ensures step { DiskStep D.Disk pages.disk (opened_disk result) result (λ e. e.cause ≡ Device) }
    ensures quiet { IfErr result (λ e. e.cause ≢ Device → D.failures e.disk ≡ D.failures pages.disk) }
    ensures left { LeavesImages D.Disk pages.disk (opened_disk result) (EncodesPages pages) }
    ensures touched { LeavesImages D.Disk pages.disk (opened_disk result) (Closes pages) }
{
    match read_back(alloc, &mut pages) {
        Ok(items) => Ok(Store { pages, items }),
        Err(fault) => Err(ImageError {
            cause: unread(fault),
            disk: pages.into_disk(),
        }),
    }
}

// Reads the map, and closes the gate of the older root if it is open.
fn read_back<D: Disk, A: Allocator + Copy>(
    alloc: A,
    pages: &mut Pages<D, A>,
) -> Result<Items<A>, PageFault>
    requires sure { pages.old.standing ≢ Unsure }
    requires none_older { pages.old.older.items ≡ [] }
    requires spare { IsSpare pages.old pages.old.heads.items }
    ensures spare { OnOk result (IsSpare pages.new pages.new.heads.items) }
    ensures confirmed { OnOk result (D.confirmed pages.new.disk) }
    ensures one { OnOk result (pages.new.standing ≡ One) }
    ensures root { OnOk result (pages.new.root ≡ pages.old.root) }
    ensures words { OnOk result ((pages.new.limit ≡ pages.old.limit) × (pages.new.version ≡ pages.old.version) × (pages.new.number ≡ pages.old.number)) }
    ensures sorted { IfOk result IsSorted }
    ensures found { D.honest → IfOk result (λ items. IsMapOf items (listed (D.state pages.old.disk).bytes pages.old.heads.items)) }
    ensures shown { D.honest → OnOk result (items_in pages.new.root (D.state pages.new.disk).bytes ≡ items_in pages.old.root (D.state pages.old.disk).bytes) }
    ensures untouched { D.honest → IfErr result (λ cause. cause ≢ PageFault.Device → (D.state pages.new.disk).bytes ≡ (D.state pages.old.disk).bytes) }
    ensures step { DiskStep D.Disk pages.old.disk pages.new.disk result (λ cause. cause ≡ PageFault.Device) }
    ensures quiet { IfErr result (λ cause. cause ≢ PageFault.Device → D.failures pages.new.disk ≡ D.failures pages.old.disk) }
    ensures pages { IfErr result (λ cause. cause ≢ PageFault.NoPage) }
    ensures left { LeavesImages D.Disk pages.old.disk pages.new.disk (EncodesPages pages.old) }
    ensures touched { LeavesImages D.Disk pages.old.disk pages.new.disk (Closes pages.old) }
{
    let items = read_items(alloc, pages)?;
    pages.close_old()?;
    Ok(items)
}

// The cause for which a disk whose pages are not read is refused. Reading claims no pages.
fn unread(fault: PageFault) -> OpenCause
    requires { fault ≢ PageFault.NoPage }
    ensures { IsUnread fault result }
{
    match fault {
        PageFault::Device => OpenCause::Device,
        PageFault::Memory => OpenCause::Memory,
        PageFault::NoPage => unreachable!(),
    }
}
