//! What a restart would find in an image, without running on it. The run has no type in common with this but the disk.
ghost use Rattle.std.specs.Prelude.{◌≡◌, ℕ, List, IfOk, IfErr, false};
ghost use Rattle.std.specs.Option.{ForSome};
ghost use Rattle.psu_disk.specs.Steps.{DiskStep};
ghost use Rattle.psu_map.specs.Map.{Item};
ghost use Rattle.psu_items.specs.Image.{EachRepresents};
ghost use Rattle.psu_exec.specs.Jobs.{idle_disk};
ghost use Rattle.psu_exec.specs.declared.start_cause.StartCause.TheVariants.{Device};
ghost use Rattle.psu_exec.specs.declared.start_cause.StartFault.TheVariants.{Memory};
ghost use Rattle.psu_run.specs.Ends.{NotStarted, start_of};
ghost use Rattle.psu_run.specs.Recover.{IsReported, Reports};
ghost use Rattle.psu_run.specs.declared.recover_fault.RecoverFault.TheVariants.{Start};
ghost use Rattle.psu_status.specs.Status.{first_request};

mod listing;
mod report;

use crate::RecoverFault;
use crate::memory::{opening_fault, power_fault};
use listing::files_of;
use psu_disk::Disk;
use psu_exec::{Ended, Exec};
use psu_items::Store;
pub use report::{Report, ReportedFile, report_text};
use std::alloc::Allocator;

/// The report on an image, or why there is none, with its disk.
#[derive(Drop)]
pub struct Recovered<D, A: Allocator + Copy> {
    pub found: Result<Report<A>, RecoverFault>,
    pub disk: D,
}

/// Opens the image of a disk as a restart does, which may close an older gate that is still open, and reports the
/// contents that it finds. The report is of the contents that the image represents, with the first service request that
/// IEEE 488.2 prescribes for them. The disk is returned too. A device fault is returned only where a call of this disk
/// failed, and a map that each possible crash image of the disk represented, each still represents.
pub fn recover<D: Disk, A: Allocator + Copy>(alloc: A, disk: D) -> Recovered<D, A>
    ensures found { D.honest → IfOk result.found (IsReported (D.state disk).bytes) }
    ensures refused { D.honest → IfErr result.found (λ why. NotStarted (D.state disk).bytes (D.failures disk) (D.failures result.disk) (start_of why)) }
    ensures step { DiskStep D.Disk disk result.disk result.found (λ e. e ≡ Start Device) }
    ensures left { D.honest → (limit : ℕ) (map : List Item) → EachRepresents (D.state disk) limit map → EachRepresents (D.state result.disk) limit map }
{
    let store = match Store::open(alloc, disk) {
        Ok(store) => store,
        Err(refused) => {
            return Recovered {
                found: Err(opening_fault(&refused)),
                disk: refused.disk,
            };
        }
    };
    let version = store.version();
    let root = store.number();
    let limit = store.limit();
    let pages = store.items().cost();
    match Exec::power_on(alloc, store) {
        Ok(exec) => Recovered {
            found: report_of(alloc, &exec, version, root, limit, pages),
            disk: disk_of(exec),
        },
        Err(fault) => Recovered {
            found: Err(power_fault(&fault)),
            disk: fault.store.into_disk(),
        },
    }
}

// The disk of a device that has no job out.
fn disk_of<D: Disk, A: Allocator + Copy>(exec: Exec<D, A>) -> D
    requires { exec.device.flush.out ≡ false }
    ensures { ForSome exec.idle_store (λ idle_store. result ≡ idle_disk idle_store) }
{
    match exec.end() {
        Ended::Whole(store) => store.into_disk(),
        Ended::Failed(broken) => broken.into_disk(),
        Ended::Out(_) => unreachable!(),
    }
}

// The report of a device at power-on.
fn report_of<D: Disk, A: Allocator + Copy>(
    alloc: A,
    exec: &Exec<D, A>,
    version: u16,
    root: u64,
    limit: u16,
    pages: u128,
) -> Result<Report<A>, RecoverFault>
    ensures reports { IfOk result (Reports exec.now.device.flush.contents (first_request exec.now.device.volatile.instrument.status) version root limit pages) }
    ensures wants { IfErr result (λ e. start_of e ≡ Memory) }
{
    let contents = exec.contents();
    let files = match files_of(alloc, contents.names()) {
        Ok(files) => files,
        Err(sign) => return Err(RecoverFault::Memory(sign)),
    };
    Ok(Report {
        version,
        root,
        pages,
        limit,
        enables: contents.enables(),
        request: exec.first_request(),
        user: contents.user().len(),
        macros: contents.labels().len(),
        files,
        recall: contents.recall(),
    })
}
