//! Claiming pages for items that are to be written.
ghost use Rattle.std.specs.Prelude.{◌≡◌, ◌≤◌, ◌<◌, true, ℕ, length, IfOk, OnOk, OnErr, IsErrOf};
ghost use Rattle.psu_pages.specs.Free.{free_pages, Marks};
ghost use Rattle.psu_pages.specs.Image.{AreClear, pages_of, Head as HeadOf};
ghost use Rattle.psu_pages.specs.declared.faults.PageFault.TheVariants.{NoPage, Device, Memory};

use crate::{Head, PAGE_SIZE, PageFault, Pages};
use psu_disk::Disk;
use std::alloc::Allocator;

impl<D: Disk, A: Allocator + Copy> Pages<D, A> {
    ghost use Rattle.psu_pages.specs.Outcome.{IsPlanned, HasPlanned, HasSameRoots, pages_for};

    /// Claims pages for an item with this key and a value of so many bytes. Makes no call of the disk.
    // Rarely called, and out of line: the loop over all items of a commit keeps its values in registers.
    #[cold]
    #[inline(never)]
    pub fn plan(&mut self, alloc: A, key: &[u8], size: u32) -> Result<Head<A>, PageFault>
        requires key_least { 1 ≤ length key.now }
        requires key_most { length key.now ≤ 65 }
        requires size_least { 1 ≤ size }
        requires size_most { size ≤ 33280 }
        ensures planned { IfOk result (HasPlanned self.old self.new key.now size) }
        ensures others { (other : HeadOf) → IsPlanned self.old other → IsPlanned self.new other }
        ensures roots { HasSameRoots self.old self.new }
        ensures no_page { IsErrOf result NoPage → length (free_pages self.old.free) < pages_for size }
        ensures memory { IsErrOf result Memory → pages_for size ≤ length (free_pages self.old.free) }
        ensures no_call { IsErrOf result Device → ⊥ }
        ensures unchanged { OnErr result (self.new ≡ self.old) }
    {
        let count = 1 + (size as usize + (PAGE_SIZE - 1)) / PAGE_SIZE;
        let mut pages = self.free.pick_free(alloc, count)?;
        let key = key.to_vec(alloc)?;
        let at = pages.remove(0);
        let head = Head::new(alloc, at, key, size, pages)?;
        self.free.keep_head(&head);
        Ok(head)
    }

    /// Releases the pages of a head that was planned.
    pub fn unplan(&mut self, head: Head<A>)
        requires { IsPlanned self.old head }
        ensures released { Marks true (pages_of head) self.old.free self.new.free }
        ensures others { (other : HeadOf) → IsPlanned self.old other → AreClear (pages_of head) (pages_of other) → IsPlanned self.new other }
        ensures roots { HasSameRoots self.old self.new }
    {
        self.free.free_head(&head);
    }
}
