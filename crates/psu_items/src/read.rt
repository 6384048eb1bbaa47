//! The items of the heads that a root names.
ghost use Rattle.std.specs.Prelude.{◌≡◌, ◌≢◌, ◌+◌, ◌<◌, length, drop, OnOk, IfOk, IfErr};
ghost use Rattle.psu_disk.specs.Disk.{IsCrashImage};
ghost use Rattle.psu_disk.specs.Steps.{DiskStep, LeavesImages};
ghost use Rattle.psu_map.specs.Capacity.{IsMapOf};
ghost use Rattle.psu_pages.specs.Outcome.{HasSameHeads};
ghost use Rattle.psu_items.specs.Image.{listed};
ghost use Rattle.psu_pages.specs.declared.faults.PageFault.TheVariants.{Device, NoPage};

use psu_disk::Disk;
use psu_map::{Items, Value};
use psu_pages::{PageFault, Pages};
use std::alloc::Allocator;

/// Reads the items of all heads, each page of a value once. It reads from the last head to the first: if two heads had
/// one key, the first one would count.
pub(crate) fn read_items<D: Disk, A: Allocator + Copy>(
    alloc: A,
    pages: &mut Pages<D, A>,
) -> Result<Items<A>, PageFault>
    ensures step { DiskStep D.Disk pages.old.disk pages.new.disk result (λ cause. cause ≡ Device) }
    ensures quiet { IfErr result (λ cause. cause ≢ Device → D.failures pages.new.disk ≡ D.failures pages.old.disk) }
    ensures pages { IfErr result (λ cause. cause ≢ NoPage) }
    ensures found { D.honest → IfOk result (λ items. IsMapOf items (listed (D.state pages.old.disk).bytes pages.old.heads.items)) }
    ensures same { HasSameHeads pages.old pages.new }
    ensures standing { pages.new.standing ≡ pages.old.standing }
    ensures seen { D.honest → (D.state pages.new.disk).bytes ≡ (D.state pages.old.disk).bytes }
    ensures left { LeavesImages D.Disk pages.old.disk pages.new.disk (IsCrashImage (D.state pages.old.disk)) }
{
    let mut items = Items::new(alloc);
    let mut at = pages.heads().len();
    while at > 0 {
        at -= 1;
        read_item(alloc, pages, at, &mut items)?;
    }
    Ok(items)
}

// Reads the item of one head, and adds it to those of the heads after it.
fn read_item<D: Disk, A: Allocator + Copy>(
    alloc: A,
    pages: &mut Pages<D, A>,
    at: usize,
    items: &mut Items<A>,
) -> Result<(), PageFault>
    requires { at < length pages.old.heads.items }
    ensures step { DiskStep D.Disk pages.old.disk pages.new.disk result (λ cause. cause ≡ Device) }
    ensures quiet { IfErr result (λ cause. cause ≢ Device → D.failures pages.new.disk ≡ D.failures pages.old.disk) }
    ensures pages { IfErr result (λ cause. cause ≢ NoPage) }
    ensures found { D.honest → OnOk result (IsMapOf items.old (listed (D.state pages.old.disk).bytes (drop (at + 1) pages.old.heads.items))
        → IsMapOf items.new (listed (D.state pages.old.disk).bytes (drop at pages.old.heads.items))) }
    ensures same { HasSameHeads pages.old pages.new }
    ensures standing { pages.new.standing ≡ pages.old.standing }
    ensures seen { D.honest → (D.state pages.new.disk).bytes ≡ (D.state pages.old.disk).bytes }
    ensures left { LeavesImages D.Disk pages.old.disk pages.new.disk (IsCrashImage (D.state pages.old.disk)) }
{
    let head = pages.heads()[at].share()?;
    let value = pages.load(alloc, &head)?;
    items.insert(head.key().to_vec(alloc)?, Value::new(value)?)?;
    Ok(())
}
