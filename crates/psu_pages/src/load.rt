//! Reading the value of a head.
ghost use Rattle.std.specs.Prelude.{◌≡◌, ◌≢◌, ◌+◌, ◌*◌, ◌≤◌, IfOk, IfErr};
ghost use Rattle.std.specs.List.{AllByRecursion};
ghost use Rattle.psu_disk.specs.Disk.{IsCrashImage};
ghost use Rattle.psu_disk.specs.Steps.{DiskStep, LeavesImages};
ghost use Rattle.psu_pages.specs.Image.{value_in, IsHead, IsInPool, Head as HeadOf};
ghost use Rattle.psu_pages.specs.declared.faults.PageFault.TheVariants.{Device, NoPage};

use crate::reading::read_page;
use crate::{Head, PAGE_SIZE, PageFault, Pages};
use psu_disk::Disk;
use std::alloc::Allocator;

/// Reads the value of a head, each of its pages once.
pub(crate) fn read_value<D: Disk, A: Allocator + Copy>(
    alloc: A,
    disk: &mut D,
    head: &Head<A>,
) -> Result<Vec<u8, A>, PageFault>
    requires is_head { IsHead head.now }
    requires room { AllByRecursion (λ page. 512 * page + 512 ≤ D.extent disk.old) head.now.pages }
    ensures step { DiskStep D.Disk disk.old disk.new result (λ cause. cause ≡ Device) }
    ensures quiet { IfErr result (λ cause. cause ≢ Device → D.failures disk.new ≡ D.failures disk.old) }
    ensures pages { IfErr result (λ cause. cause ≢ NoPage) }
    ensures found { D.honest → IfOk result (λ value. value.items ≡ value_in (D.state disk.old).bytes head.now) }
    ensures seen { D.honest → (D.state disk.new).bytes ≡ (D.state disk.old).bytes }
    ensures left { LeavesImages D.Disk disk.old disk.new (IsCrashImage (D.state disk.old)) }
{
    let mut value = Vec::with_capacity(alloc, PAGE_SIZE * head.pages().len())?;
    for page in head.pages() {
        let mut bytes = [0; PAGE_SIZE];
        read_page(disk, *page, &mut bytes)?;
        value.extend_from_slice(&bytes)?;
    }
    value.truncate(head.size() as usize);
    Ok(value)
}

impl<D: Disk, A: Allocator + Copy> Pages<D, A> {
    ghost use Rattle.psu_pages.specs.Outcome.{IsPlanned, HasSameHeads};

    /// Reads the value of a head that is on its page.
    pub fn load(&mut self, alloc: A, head: &Head<A>) -> Result<Vec<u8, A>, PageFault>
        requires is_head { IsHead head.now }
        requires pool { AllByRecursion (IsInPool self.old.limit) head.now.pages }
        ensures step { DiskStep D.Disk self.old.disk self.new.disk result (λ cause. cause ≡ Device) }
        ensures quiet { IfErr result (λ cause. cause ≢ Device → D.failures self.new.disk ≡ D.failures self.old.disk) }
        ensures pages { IfErr result (λ cause. cause ≢ NoPage) }

        ensures found { D.honest → IfOk result (λ value. value.items ≡ value_in (D.state self.old.disk).bytes head.now) }
        ensures same { HasSameHeads self.old self.new }
        ensures standing { self.new.standing ≡ self.old.standing }
        ensures planned { (other : HeadOf) → IsPlanned self.old other → IsPlanned self.new other }
        ensures seen { D.honest → (D.state self.new.disk).bytes ≡ (D.state self.old.disk).bytes }
        ensures left { LeavesImages D.Disk self.old.disk self.new.disk (IsCrashImage (D.state self.old.disk)) }
    {
        read_value(alloc, &mut self.disk, head)
    }
}
