//! From the present items to those of other heads: items are written, a root is published, and the older one is closed.
ghost use Rattle.std.specs.Prelude.{◌≡◌, ◌≢◌, ◌+◌, ◌<◌, ◌^◌, List, ℕ, length, map, OnOk, IfErr, ⊤};
ghost use Rattle.std.specs.List.{AllByRecursion};
ghost use Rattle.psu_disk.specs.Disk.{IsCrashImage, SameBut};
ghost use Rattle.psu_disk.specs.Steps.{DiskStep, LeavesImages};
ghost use Rattle.psu_pages.specs.Free.{AreClaimed, IsRoster};
ghost use Rattle.psu_pages.specs.Finding.{page_of};
ghost use Rattle.psu_pages.specs.Image.{AreClear, IsInPool, gate, gate_at, head_at, other, pages_of, taken, Head as HeadOf};
ghost use Rattle.psu_pages.specs.Shown.{item_in, items_in};
ghost use Rattle.psu_pages.specs.Spelling.{head_drafts, open_root};
ghost use Rattle.psu_pages.specs.Writing.{Misses, Reaches, AreWritten, IsWritten};
ghost use Rattle.psu_pages.specs.declared.faults.PageFault.TheVariants.{Device};
ghost use Rattle.psu_pages.specs.declared.standing.Standing.TheVariants.{One, Both, Unsure};

use crate::gates::{GATE_CLOSED, set_gate};
use crate::hand_over::hand_over;
use crate::page::Page;
use crate::root_page::spell_root;
use crate::switch::switch;
use crate::version::VERSION;
use crate::writing::write_item;
use crate::{Head, PageFault, Pages, Standing};
use psu_disk::Disk;
use std::alloc::Allocator;
use std::mem;

impl<D: Disk, A: Allocator + Copy> Pages<D, A> {
    ghost use Rattle.psu_pages.specs.Outcome.{Closes, EncodesPages, EncodesPagesOrHeads, IsPlanned, HasSameHeads, HasPublished, HasClosed};

    /// Writes the head of an item that was planned, and its value, each page by one call of the disk.
    pub fn write_new(&mut self, head: &Head<A>, value: &[u8]) -> Result<(), PageFault>
        requires planned { IsPlanned self.old head.now }
        requires size { length value.now ≡ head.now.size }
        requires sure { self.old.standing ≢ Unsure }
        ensures step { DiskStep D.Disk self.old.disk self.new.disk result (λ cause. ⊤) }
        ensures device { IfErr result (λ cause. cause ≡ Device) }

        ensures same { HasSameHeads self.old self.new }
        ensures standing { OnOk result (self.new.standing ≡ self.old.standing) }
        ensures planned { (other : HeadOf) → IsPlanned self.old other → IsPlanned self.new other }
        ensures spelled { D.honest → OnOk result (AreWritten (head_drafts head.now value.now) (D.state self.new.disk).bytes) }
        ensures written { D.honest → OnOk result (IsWritten (D.state self.new.disk).bytes head.now value.now) }
        ensures others { D.honest → (other : HeadOf) (its : List ℕ)
            → IsWritten (D.state self.old.disk).bytes other its
            → AllByRecursion (IsInPool self.old.limit) (pages_of other)
            → AreClear (pages_of head.now) (pages_of other)
            → IsWritten (D.state self.new.disk).bytes other its }

        // At every moment the disk represents the same items, and no page but those of the head is written.
        ensures shown { D.honest → items_in self.new.root (D.state self.new.disk).bytes ≡ items_in self.old.root (D.state self.old.disk).bytes }
        ensures left { LeavesImages D.Disk self.old.disk self.new.disk (EncodesPages self.old) }
        ensures touched { LeavesImages D.Disk self.old.disk self.new.disk (Reaches (Misses (pages_of head.now)) (IsCrashImage (D.state self.old.disk))) }
    {
        let standing = self.standing;
        self.standing = Standing::Unsure;
        write_item(&mut self.disk, head, value)?;
        self.standing = standing;
        Ok(())
    }

    /// Publishes a root of version 2 that names these heads. It becomes the current root in place of the present one,
    /// whatever the version of that one. The older root's gate stays open.
    pub fn publish_root(&mut self, heads: Vec<Head<A>, A>) -> Result<(), PageFault>
        requires shut { self.old.standing ≡ One }
        requires number { self.old.number + 1 < 2 ^ 64 }
        requires roster { IsRoster self.old.limit heads.items }
        requires claimed { AreClaimed self.old.free (taken heads.items) }
        requires there { D.honest → AllByRecursion (λ head. head_at (D.state self.old.disk).bytes head.at ≡ head) heads.items }
        ensures step { DiskStep D.Disk self.old.disk self.new.disk result (λ cause. ⊤) }
        ensures device { IfErr result (λ cause. cause ≡ Device) }

        ensures published { OnOk result (HasPublished self.old self.new heads.items) }
        ensures limit { self.new.limit ≡ self.old.limit }
        ensures planned { (other : HeadOf) → IsPlanned self.old other → AreClear (pages_of other) (taken heads.items) → IsPlanned self.new other }
        ensures spelled { D.honest → OnOk result (page_of self.new.root (D.state self.new.disk).bytes
            ≡ open_root self.old.limit (self.old.number + 1) heads.items) }
        ensures shown { D.honest → OnOk result (items_in self.new.root (D.state self.new.disk).bytes
            ≡ map (item_in (D.state self.old.disk).bytes) heads.items) }

        // At every moment the disk represents the items from before, or those of the heads, and no page but the next
        // root's is written.
        ensures left { LeavesImages D.Disk self.old.disk self.new.disk (EncodesPagesOrHeads self.old heads.items) }
        ensures touched { LeavesImages D.Disk self.old.disk self.new.disk
            (Reaches (SameBut (gate_at (other self.old.root)) 512) (IsCrashImage (D.state self.old.disk))) }
    {
        let next = self.root.other();
        let mut page = Page::new();
        spell_root(&mut page, self.limit, self.number + 1, &heads);
        self.standing = Standing::Unsure;
        switch(&mut self.disk, next, page.after_gate())?;
        self.root = next;
        self.version = VERSION;
        self.number += 1;
        self.standing = Standing::Both;
        self.older = mem::replace(&mut self.heads, heads);
        Ok(())
    }

    /// Closes the gate of the older root if it is open, releases the pages that only the older root names, and confirms
    /// that what was written is found again where it was put (`Disk::confirm`).
    pub fn close_old(&mut self) -> Result<(), PageFault>
        requires sure { self.old.standing ≢ Unsure }
        ensures step { DiskStep D.Disk self.old.disk self.new.disk result (λ cause. ⊤) }
        ensures device { IfErr result (λ cause. cause ≡ Device) }

        ensures closed { OnOk result (HasClosed self.old self.new) }
        ensures limit { self.new.limit ≡ self.old.limit }
        ensures planned { (other : HeadOf) → IsPlanned self.old other → IsPlanned self.new other }
        ensures zero { D.honest → OnOk result (self.old.standing ≡ Both → gate (other self.old.root) (D.state self.new.disk).bytes ≡ 0) }
        ensures none { OnOk result (self.old.standing ≡ One → (D.honest → D.state self.new.disk ≡ D.state self.old.disk) × (self.new.free ≡ self.old.free)) }
        ensures confirmed { OnOk result (D.confirmed self.new.disk) }

        // At every moment the disk represents the same items, and nothing but the older gate is written.
        ensures shown { D.honest → OnOk result (items_in self.new.root (D.state self.new.disk).bytes ≡ items_in self.old.root (D.state self.old.disk).bytes) }
        ensures left { LeavesImages D.Disk self.old.disk self.new.disk (EncodesPages self.old) }
        ensures touched { LeavesImages D.Disk self.old.disk self.new.disk (Closes self.old) }
    {
        self.close_gate()?;
        self.confirm()
    }

    // Closes the gate of the older root if it is open, and releases the pages that only the older root names.
    fn close_gate(&mut self) -> Result<(), PageFault>
        requires sure { self.old.standing ≢ Unsure }
        ensures step { DiskStep D.Disk self.old.disk self.new.disk result (λ cause. ⊤) }
        ensures device { IfErr result (λ cause. cause ≡ Device) }

        ensures closed { OnOk result (HasClosed self.old self.new) }
        ensures limit { self.new.limit ≡ self.old.limit }
        ensures planned { (other : HeadOf) → IsPlanned self.old other → IsPlanned self.new other }
        ensures zero { D.honest → OnOk result (self.old.standing ≡ Both → gate (other self.old.root) (D.state self.new.disk).bytes ≡ 0) }
        ensures none { OnOk result (self.old.standing ≡ One → (self.new.disk ≡ self.old.disk) × (self.new.free ≡ self.old.free)) }

        // At every moment the disk represents the same items, and nothing but the older gate is written.
        ensures shown { D.honest → OnOk result (items_in self.new.root (D.state self.new.disk).bytes ≡ items_in self.old.root (D.state self.old.disk).bytes) }
        ensures left { LeavesImages D.Disk self.old.disk self.new.disk (EncodesPages self.old) }
        ensures touched { LeavesImages D.Disk self.old.disk self.new.disk (Closes self.old) }
    {
        let Standing::Both = self.standing else {
            return Ok(());
        };
        self.standing = Standing::Unsure;
        set_gate(&mut self.disk, self.root.other(), GATE_CLOSED)?;
        hand_over(&mut self.free, &self.older, &self.heads);
        self.older.clear();
        self.standing = Standing::One;
        Ok(())
    }

    // Looks whether what was written is found again where it was put. It changes nothing.
    pub(crate) fn confirm(&mut self) -> Result<(), PageFault>
        ensures step { DiskStep D.Disk self.old.disk self.new.disk result (λ cause. ⊤) }
        ensures device { IfErr result (λ cause. cause ≡ Device) }
        ensures confirmed { OnOk result (D.confirmed self.new.disk) }

        ensures same { HasSameHeads self.old self.new }
        ensures standing { self.new.standing ≡ self.old.standing }
        ensures planned { (other : HeadOf) → IsPlanned self.old other → IsPlanned self.new other }
        ensures state { D.honest → D.state self.new.disk ≡ D.state self.old.disk }
        ensures left { LeavesImages D.Disk self.old.disk self.new.disk (IsCrashImage (D.state self.old.disk)) }
    {
        self.disk.confirm()?;
        Ok(())
    }
}
