//! Reading pages, each by one call of the disk.
ghost use Rattle.std.specs.Prelude.{◌≡◌, ◌+◌, ◌*◌, ◌≤◌, length, OnOk, ⊤};
ghost use Rattle.psu_disk.specs.Disk.{IsCrashImage};
ghost use Rattle.psu_disk.specs.Steps.{DiskStep, LeavesImages};
ghost use Rattle.psu_pages.specs.Image.{page_in};

use crate::PAGE_SIZE;
use psu_disk::{Disk, DiskFault};

/// Reads a page.
pub(crate) fn read_page<D: Disk>(disk: &mut D, page: u16, into: &mut [u8]) -> Result<(), DiskFault>
    requires room { 512 * page + 512 ≤ D.extent disk.old }
    requires whole { length into.old ≡ 512 }
    ensures step { DiskStep D.Disk disk.old disk.new result (λ fault. ⊤) }
    ensures bytes { D.honest → OnOk result (into.new ≡ page_in page (D.state disk.old).bytes) }
    ensures seen { D.honest → (D.state disk.new).bytes ≡ (D.state disk.old).bytes }
    ensures left { LeavesImages D.Disk disk.old disk.new (IsCrashImage (D.state disk.old)) }
{
    disk.read(PAGE_SIZE as u64 * u64::from(page), into)?;
    Ok(())
}
