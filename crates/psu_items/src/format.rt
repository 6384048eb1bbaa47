//! Formatting a disk.
ghost use Rattle.std.specs.Prelude.{◌≡◌, ◌+◌, ◌*◌, ◌≤◌, [], IfOk, IfErr};
ghost use Rattle.psu_disk.specs.Steps.{DiskStep};
ghost use Rattle.psu_items.specs.Standing.{IsOnDisk};
ghost use Rattle.psu_pages.specs.declared.faults.FormatCause.TheVariants.{Device as NotWritten, Memory as NoMemory};

use crate::Store;
use psu_disk::Disk;
use psu_map::Items;
use psu_pages::{FormatFault, Pages};
use std::alloc::Allocator;

impl<D: Disk, A: Allocator + Copy> Store<D, A> {
    ghost use Rattle.psu_items.specs.Outcome.{formatted_disk};

    /// Formats a disk, whatever it holds, and returns a store with an empty map. The limit is 4 to 480, and the disk
    /// has 512 bytes for each of the two roots and for each of the pool's pages, which are twice the limit. All memory
    /// is allocated before the first call of the disk.
    pub fn format(alloc: A, disk: D, limit: u16) -> Result<Store<D, A>, FormatFault<D>>
        requires limit_least { 4 ≤ limit }
        requires limit_most { limit ≤ 480 }
        requires room { 512 * (2 + 2 * limit) ≤ D.extent disk }
        ensures fresh { IfOk result (λ store. (store.items ≡ []) × (store.limit ≡ limit) × (store.version ≡ 2) × (store.number ≡ 1)) }
        ensures represents { D.honest → IfOk result (λ store. IsOnDisk D.state store) }
        ensures step { DiskStep D.Disk disk (formatted_disk result) result (λ e. e.cause ≡ NotWritten) }
        ensures no_call { IfErr result (λ e. e.cause ≡ NoMemory → e.disk ≡ disk) }
    {
        match Pages::format(alloc, disk, limit) {
            Ok(pages) => Ok(Store {
                pages,
                items: Items::new(alloc),
            }),
            Err(fault) => Err(fault),
        }
    }
}
