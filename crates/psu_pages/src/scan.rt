//! Reading the heads that a root names.
ghost use Rattle.std.specs.Prelude.{◌≡◌, ◌≢◌, ◌⊎◌, ◌+◌, ◌*◌, ◌≤◌, ◌++◌, ◌∷◌, [], true, false, length, map, slice_set, OnOk, IfOk, IfErr, IfSome, IsNone, IsErrOf};
ghost use Rattle.psu_disk.specs.Disk.{IsCrashImage};
ghost use Rattle.psu_disk.specs.Steps.{DiskStep, LeavesImages};
ghost use Rattle.psu_pages.specs.Image.{head_at, pages_of, IsHead};
ghost use Rattle.psu_pages.specs.Free.{is_free, Marks};
ghost use Rattle.psu_pages.specs.Finding.{IsFit, AreFit, CanStand};

use crate::pool::pool;
use crate::reading::read_page;
use crate::{FreeMap, Head, OpenCause, PAGE_SIZE};
use psu_disk::Disk;
use std::alloc::{AllocError, Allocator};

/// The heads that were read, and the pages that none of them has.
#[derive(Drop)]
pub(crate) struct Found<A: Allocator + Copy> {
    pub heads: Vec<Head<A>, A>,
    pub free: FreeMap<A>,
}

/// Reads the heads on these pages, each page once. Returns `None` if one of them isn't a valid head, or a page is named
/// twice or lies outside the pool.
pub(crate) fn scan<D: Disk, A: Allocator + Copy>(
    alloc: A,
    disk: &mut D,
    limit: u16,
    names: &[u16],
) -> Result<Option<Found<A>>, OpenCause>
    requires limit { limit ≤ 480 }
    requires room { 512 * (2 + 2 * limit) ≤ D.extent disk.old }
    ensures step { DiskStep D.Disk disk.old disk.new result (λ cause. cause ≡ OpenCause.Device) }
    ensures quiet { IfErr result (λ cause. cause ≢ OpenCause.Device → D.failures disk.new ≡ D.failures disk.old) }
    ensures cause { IfErr result (λ cause. (cause ≡ OpenCause.Device) ⊎ (cause ≡ OpenCause.Memory)) }
    ensures many { IfOk result (λ all. IfSome all (λ found. length found.heads.items ≡ length names.now)) }
    ensures fit { IfOk result (λ all. IfSome all (λ found. AreFit limit found.heads.items found.free)) }
    ensures found { D.honest → IfOk result (λ all. IfSome all (λ found. found.heads.items ≡ map (head_at (D.state disk.old).bytes) names.now)) }
    ensures none { D.honest → IfOk result (λ all. IsNone all → CanStand limit (map (head_at (D.state disk.old).bytes) names.now) → ⊥) }
    ensures seen { D.honest → (D.state disk.new).bytes ≡ (D.state disk.old).bytes }
    ensures left { LeavesImages D.Disk disk.old disk.new (IsCrashImage (D.state disk.old)) }
{
    let mut free = pool(alloc, limit)?;
    let mut heads = Vec::with_capacity(alloc, names.len())?;
    for name in names {
        let head = match read_head(alloc, disk, &mut free, *name) {
            Ok(Some(head)) => head,
            Ok(None) => return Ok(None),
            Err(cause) => return Err(cause),
        };
        add(&mut heads, head)?;
    }
    Ok(Some(Found { heads, free }))
}

// Reads the head on a page, and claims its pages. Returns `None` if it isn't a valid head, or one of its pages isn't
// free or is named twice. If an allocation fails, nothing was found wrong with the head.
fn read_head<D: Disk, A: Allocator + Copy>(
    alloc: A,
    disk: &mut D,
    free: &mut FreeMap<A>,
    name: u16,
) -> Result<Option<Head<A>>, OpenCause>
    requires { 512 * length free.old ≤ D.extent disk.old }
    ensures step { DiskStep D.Disk disk.old disk.new result (λ cause. cause ≡ OpenCause.Device) }
    ensures quiet { IfErr result (λ cause. cause ≢ OpenCause.Device → D.failures disk.new ≡ D.failures disk.old) }
    ensures cause { IfErr result (λ cause. (cause ≡ OpenCause.Device) ⊎ (cause ≡ OpenCause.Memory)) }
    ensures fit { IfOk result (λ found. IfSome found (IsFit free.old)) }
    ensures claimed { IfOk result (λ found. IfSome found (λ head. Marks false (pages_of head) free.old free.new)) }
    ensures found { D.honest → IfOk result (λ found. IfSome found (λ head. head ≡ head_at (D.state disk.old).bytes name)) }
    ensures none { D.honest → IfOk result (λ found. IsNone found → IsFit free.old (head_at (D.state disk.old).bytes name) → ⊥) }
    ensures memory { D.honest → IsErrOf result OpenCause.Memory → IsHead (head_at (D.state disk.old).bytes name) }
    ensures unclaimed { IsErrOf result OpenCause.Memory → (is_free free.old name ≡ true) × (free.new ≡ slice_set free.old name false) }
    ensures seen { D.honest → (D.state disk.new).bytes ≡ (D.state disk.old).bytes }
    ensures left { LeavesImages D.Disk disk.old disk.new (IsCrashImage (D.state disk.old)) }
{
    if !free.take(name) {
        return Ok(None);
    }
    let mut page = [0; PAGE_SIZE];
    read_page(disk, name, &mut page)?;
    let Some(head) = Head::on(alloc, name, &page)? else {
        return Ok(None);
    };
    if !free.take_all(head.pages()) {
        return Ok(None);
    }
    Ok(Some(head))
}

// Appends a head to the others.
fn add<A: Allocator + Copy>(heads: &mut Vec<Head<A>, A>, head: Head<A>) -> Result<(), AllocError>
    ensures { OnOk result (heads.new.items ≡ heads.old.items ++ head ∷ []) }
{
    heads.push(head)?;
    Ok(())
}
