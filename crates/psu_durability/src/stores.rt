//! Stores on the program's disk, and openings of their image after a power loss or the end of the process.
ghost use Rattle.std.specs.Prelude.{◌≡◌, ◌⊎◌, IfOk};
ghost use Rattle.psu_disk.specs.Disk.{IsCrashImage};
ghost use Rattle.psu_items.specs.Outcome.{IfStored, disk_of};
ghost use Rattle.psu_map.specs.Batch.{changed};
ghost use Rattle.psu_map.specs.Capacity.{CanHold};
ghost use Rattle.psu_durability.specs.Premise.{KeepsModel};

use psu_disk::{Disk, FileDisk};
use psu_items::{Batch, Commit, ImageError, Store};
use std::alloc::Global;

/// Opens the image of a store again, where a power loss or the end of the process came while no call of it was made. An
/// opening that succeeds finds the map of the store.
pub fn open_again(
    alloc: Global,
    before: &Store<FileDisk, Global>,
    disk: FileDisk,
) -> Result<Store<FileDisk, Global>, ImageError<FileDisk>>
    requires kept { KeepsModel (IsCrashImage (⟦<FileDisk as Disk>⟧.state before.now.disk)) (⟦<FileDisk as Disk>⟧.state disk) }
    ensures { IfOk result (λ store. (store.limit ≡ before.now.limit) × (store.items ≡ before.now.items)) }
{
    before.items();
    Store::open(alloc, disk)
}

/// Commits a batch, and opens the image again. Where a power loss or the end of the process came at a moment since the
/// commit began, an opening that succeeds finds the map before or the map after the batch; where it came once the batch is
/// stored, the map after.
pub fn commit_and_open(
    store: Store<FileDisk, Global>,
    alloc: Global,
    batch: Batch<Global>,
    disk: FileDisk,
) -> (
    Commit<FileDisk, Global>,
    Result<Store<FileDisk, Global>, ImageError<FileDisk>>,
)
    requires { CanHold store.limit (changed store.items batch) }
    ensures either { KeepsModel (⟦<FileDisk as Disk>⟧.left_since (disk_of result.0) (⟦<FileDisk as Disk>⟧.moment store.disk)) (⟦<FileDisk as Disk>⟧.state disk)
        → IfOk result.1 (λ again. (again.limit ≡ store.limit) × ((again.items ≡ store.items) ⊎ (again.items ≡ changed store.items batch))) }
    ensures stored { IfStored result.0 (λ after. KeepsModel (IsCrashImage (⟦<FileDisk as Disk>⟧.state after.disk)) (⟦<FileDisk as Disk>⟧.state disk)
        → IfOk result.1 (λ again. (again.limit ≡ store.limit) × (again.items ≡ changed store.items batch))) }
{
    let ended = store.commit(alloc, batch);
    (ended, Store::open(alloc, disk))
}
