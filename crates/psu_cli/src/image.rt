//! New images in files.
ghost use Rattle.std.specs.Prelude.{◌≡◌, [], IfOk, IfErr};
ghost use Rattle.psu_disk.specs.FileCalls.{IsMade, LeavesNoFile};
ghost use Rattle.psu_items.specs.Standing.{IsOnDisk};

use crate::fault::Fault;
use psu_disk::{FileCalls, FileSystem, KeptDisk, SystemFile};
use psu_items::{IMAGE_LIMIT, IMAGE_SIZE, Store};
use std::alloc::Global;

/// Makes a formatted image in a new file at a path, and returns its store, which is empty. If that fails, no new file is
/// left there, and a file that was there is unchanged.
pub fn new_image<F: FileCalls + Drop, S: FileSystem<F>>(
    system: &mut S,
    alloc: Global,
    path: &str,
) -> Result<Store<KeptDisk<SystemFile<F, Global>, Global>, Global>, Fault>
    ensures made { IfOk result (λ _. (file : F) × IsMade S.made F.made path.now 263168 system.old file system.new) }
    ensures empty { IfOk result (λ store. (store.items ≡ []) × (store.limit ≡ 256) × (store.version ≡ 2)) }
    ensures represents { F.keeps → IfOk result (λ store. IsOnDisk (λ disk. F.state disk.medium.file) store) }
    ensures refused { IfErr result (λ _. LeavesNoFile S.made path.now system.old system.new) }
{
    let disk = match KeptDisk::make(system, alloc, path, IMAGE_SIZE) {
        Ok(disk) => disk,
        Err(fault) => return Err(Fault::File(fault)),
    };
    match Store::format(alloc, disk, IMAGE_LIMIT) {
        Ok(store) => Ok(store),
        Err(fault) => {
            system.remove(path);
            Err(Fault::Format(fault.cause))
        }
    }
}
