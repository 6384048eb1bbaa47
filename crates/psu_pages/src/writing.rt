//! Writing the pages of an item, each by one call of the disk.
ghost use Rattle.std.specs.Prelude.{◌≡◌, ◌+◌, ◌*◌, ◌<◌, ◌≤◌, ◌^◌, ◌∷◌, [], length, take, drop, OnOk, ⊤};
ghost use Rattle.std.specs.List.{AllByRecursion};
ghost use Rattle.psu_disk.specs.Disk.{IsCrashImage};
ghost use Rattle.psu_disk.specs.Steps.{DiskStep, LeavesImages};
ghost use Rattle.psu_pages.specs.Image.{IsHead, AreApart, page_in, pages_of};
ghost use Rattle.psu_pages.specs.Spelling.{filled, value_drafts, head_drafts};
ghost use Rattle.psu_pages.specs.Writing.{Misses, Reaches, AreWritten, IsWritten};

use crate::page::Page;
use crate::{Head, PAGE_SIZE};
use psu_disk::{Disk, DiskFault};
use std::alloc::Allocator;

/// Writes the head of an item, and its value on the head's pages.
pub(crate) fn write_item<D: Disk, A: Allocator + Copy>(
    disk: &mut D,
    head: &Head<A>,
    value: &[u8],
) -> Result<(), DiskFault>
    requires is_head { IsHead head.now }
    requires size { length value.now ≡ head.now.size }
    requires low { AllByRecursion (λ page. page < 2 ^ 16) head.now.pages }
    requires apart { AreApart (pages_of head.now) }
    requires room { AllByRecursion (λ page. 512 * page + 512 ≤ D.extent disk.old) (pages_of head.now) }
    ensures step { DiskStep D.Disk disk.old disk.new result (λ fault. ⊤) }
    ensures spelled { D.honest → OnOk result (AreWritten (head_drafts head.now value.now) (D.state disk.new).bytes) }
    ensures written { D.honest → OnOk result (IsWritten (D.state disk.new).bytes head.now value.now) }
    ensures seen { D.honest → Misses (pages_of head.now) (D.state disk.old).bytes (D.state disk.new).bytes }
    ensures left { LeavesImages D.Disk disk.old disk.new (Reaches (Misses (pages_of head.now)) (IsCrashImage (D.state disk.old))) }
{
    write_page(disk, head.at(), &head.spell())?;
    write_value(disk, head.pages(), value)?;
    Ok(())
}

// Writes a value, 512 bytes on each page but the last.
fn write_value<D: Disk>(disk: &mut D, pages: &[u16], value: &[u8]) -> Result<(), DiskFault>
    requires apart { AreApart pages.now }
    requires room { AllByRecursion (λ page. 512 * page + 512 ≤ D.extent disk.old) pages.now }
    ensures step { DiskStep D.Disk disk.old disk.new result (λ fault. ⊤) }
    ensures written { D.honest → OnOk result (AreWritten (value_drafts pages.now value.now) (D.state disk.new).bytes) }
    ensures seen { D.honest → Misses pages.now (D.state disk.old).bytes (D.state disk.new).bytes }
    ensures left { LeavesImages D.Disk disk.old disk.new (Reaches (Misses pages.now) (IsCrashImage (D.state disk.old))) }
{
    let mut rest = value;
    for page in pages {
        let (first, after) = first_page(rest);
        let mut filled = Page::new();
        filled.add(first);
        write_page(disk, *page, &filled)?;
        rest = after;
    }
    Ok(())
}

// Splits bytes into those that fit on one page, and the rest.
fn first_page(bytes: &[u8]) -> (&[u8], &[u8])
    ensures first { result.0.now ≡ take 512 bytes.now }
    ensures fits { length result.0.now ≤ 512 }
    ensures rest { result.1.now ≡ drop 512 bytes.now }
{
    if bytes.len() < PAGE_SIZE {
        return (bytes, &[]);
    }
    bytes.split_at(PAGE_SIZE)
}

// Writes a page.
fn write_page<D: Disk>(disk: &mut D, at: u16, page: &Page) -> Result<(), DiskFault>
    requires { 512 * at + 512 ≤ D.extent disk.old }
    ensures step { DiskStep D.Disk disk.old disk.new result (λ fault. ⊤) }
    ensures written { D.honest → OnOk result (page_in at (D.state disk.new).bytes ≡ filled 512 page.now) }
    ensures seen { D.honest → Misses (at ∷ []) (D.state disk.old).bytes (D.state disk.new).bytes }
    ensures left { LeavesImages D.Disk disk.old disk.new (Reaches (Misses (at ∷ [])) (IsCrashImage (D.state disk.old))) }
{
    disk.write(PAGE_SIZE as u64 * u64::from(at), page.bytes())?;
    Ok(())
}
