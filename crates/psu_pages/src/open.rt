//! Opening a disk, after a power loss or without one.
ghost use Rattle.std.specs.Prelude.{◌≡◌, ◌≢◌, ◌+◌, ◌*◌, ◌<◌, ◌≤◌, [], OnOk, IfOk, IfErr, IsErrOf};
ghost use Rattle.psu_disk.specs.Disk.{IsCrashImage, Only};
ghost use Rattle.psu_disk.specs.Steps.{DiskStep, LeavesImages};
ghost use Rattle.psu_pages.specs.Finding.{AreFit, IfImage, IsRefusal, HasReadableRoot, HasGates};
ghost use Rattle.psu_pages.specs.Free.{IsRoster};
ghost use Rattle.psu_pages.specs.Shown.{items_in, Encodes};
ghost use Rattle.psu_pages.specs.declared.faults.OpenCause.TheVariants.{Device, Memory};
ghost use Rattle.psu_pages.specs.declared.standing.Standing.TheVariants.{Unsure};

use crate::checks::stand_together;
use crate::choose::{Chosen, choose, read_roots};
use crate::head::read_words;
use crate::scan::scan;
use crate::{BadImage, FreeMap, Head, ImageError, OpenCause, PAGE_SIZE, Pages, Standing};
use psu_disk::Disk;
use std::alloc::Allocator;

// The current root, with its heads.
#[derive(Drop)]
struct Opened<A: Allocator + Copy> {
    chosen: Chosen,
    heads: Vec<Head<A>, A>,
    free: FreeMap<A>,
}

impl<D: Disk, A: Allocator + Copy> Pages<D, A> {
    ghost use Rattle.psu_pages.specs.Outcome.{opened_disk};

    /// Opens the items that a disk represents. Begins with a sync, and reads the two roots and the pages of the heads,
    /// each once. The gate of an older root that is open is left open. Nothing is written.
    pub fn open(alloc: A, mut disk: D) -> Result<Pages<D, A>, ImageError<D>>
        ensures found { D.honest → IfOk result (λ pages.
            Encodes pages.root pages.version pages.limit pages.number pages.heads.items
            (items_in pages.root (D.state disk).bytes) (D.state disk).bytes) }
        ensures sure { IfOk result (λ pages. pages.standing ≢ Unsure) }
        ensures fit { IfOk result (λ pages. AreFit pages.limit pages.heads.items pages.free) }
        ensures none_older { IfOk result (λ pages. pages.older.items ≡ []) }
        ensures refused { D.honest → IfErr result (λ e. IfImage e.cause (IsRefusal (D.state disk).bytes)) }
        ensures step { DiskStep D.Disk disk (opened_disk result) result (λ e. e.cause ≡ Device) }
        ensures quiet { IfErr result (λ e. e.cause ≢ Device → D.failures e.disk ≡ D.failures disk) }
        ensures memory { D.honest → IfErr result (λ e. e.cause ≡ Memory → HasReadableRoot (D.state disk).bytes) }
        ensures synced { D.honest → IfOk result (λ pages. Only (D.state pages.disk)) }
        ensures seen { D.honest → (D.state (opened_disk result)).bytes ≡ (D.state disk).bytes }
        ensures left { LeavesImages D.Disk disk (opened_disk result) (IsCrashImage (D.state disk)) }
    {
        if disk.size() < 2 * PAGE_SIZE as u64 {
            return Err(ImageError {
                cause: OpenCause::Image(BadImage::NoRoot),
                disk,
            });
        }
        match look(alloc, &mut disk) {
            Ok(
                Opened {
                    chosen,
                    heads,
                    free,
                },
            ) => Ok(Pages {
                disk,
                root: chosen.root,
                version: chosen.version,
                limit: chosen.limit,
                number: chosen.number,
                standing: chosen.standing(),
                heads,
                older: Vec::new(alloc),
                free,
            }),
            Err(cause) => Err(ImageError { cause, disk }),
        }
    }
}

// Finds the current root, and reads its heads.
fn look<D: Disk, A: Allocator + Copy>(alloc: A, disk: &mut D) -> Result<Opened<A>, OpenCause>
    requires { 1024 ≤ D.extent disk.old }
    ensures step { DiskStep D.Disk disk.old disk.new result (λ cause. cause ≡ Device) }
    ensures quiet { IfErr result (λ cause. cause ≢ Device → D.failures disk.new ≡ D.failures disk.old) }
    ensures memory { D.honest → IsErrOf result Memory → HasReadableRoot (D.state disk.old).bytes }
    ensures limit { IfOk result (λ o. (4 ≤ o.chosen.limit) × (o.chosen.limit ≤ 480) × (512 * (2 + 2 * o.chosen.limit) ≤ D.extent disk.old)) }
    ensures roster { IfOk result (λ o. IsRoster o.chosen.limit o.heads.items) }
    ensures fit { IfOk result (λ o. AreFit o.chosen.limit o.heads.items o.free) }
    ensures found { D.honest → IfOk result (λ o. Encodes o.chosen.root o.chosen.version o.chosen.limit
        o.chosen.number o.heads.items (items_in o.chosen.root (D.state disk.old).bytes) (D.state disk.old).bytes) }
    ensures gates { D.honest → IfOk result (λ o. HasGates o.chosen.root o.chosen.number o.chosen.both (D.state disk.old).bytes) }
    ensures refused { D.honest → IfErr result (λ cause. IfImage cause (IsRefusal (D.state disk.old).bytes)) }
    ensures synced { D.honest → OnOk result (Only (D.state disk.new)) }
    ensures seen { D.honest → (D.state disk.new).bytes ≡ (D.state disk.old).bytes }
    ensures left { LeavesImages D.Disk disk.old disk.new (IsCrashImage (D.state disk.old)) }
{
    let roots = read_roots(disk)?;
    let chosen = choose(&roots, disk.size())?;
    let Ok(names) = read_words(alloc, chosen.count, &roots.page(chosen.root)[18..498]) else {
        return Err(OpenCause::Memory);
    };
    let found = match scan(alloc, disk, chosen.limit, &names) {
        Ok(Some(found)) => found,
        Ok(None) => return Err(OpenCause::Image(BadImage::BadRoot)),
        Err(cause) => return Err(cause),
    };
    if !stand_together(&found.heads, chosen.limit, chosen.version) {
        return Err(OpenCause::Image(BadImage::BadRoot));
    }
    Ok(Opened {
        chosen,
        heads: found.heads,
        free: found.free,
    })
}
