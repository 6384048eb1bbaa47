//! Runs on the program's disk.
ghost use Rattle.std.specs.Prelude.{◌⊎◌, IfErr, IfOk};
ghost use Rattle.psu_run.specs.Ends.{fault_disk};
ghost use Rattle.psu_run.specs.Results.{disk_from};
ghost use Rattle.psu_durability.specs.Found.{FindsOld, RanShort, RanWell};

use psu_disk::{Disk, FileDisk};
use psu_items::{ImageError, Store};
use psu_run::{RunFault, RunStart, Sink, Source, run};
use std::alloc::Global;

/// Executes the lines of a reader on the image, and opens the image again. Where a power loss or the end of the process came
/// at a moment since the run began, an opening that succeeds finds the contents after a prefix of the units executed up
/// to some point of this run, which contains every unit before a `*OPC?` answered by that point, or what the image held
/// before the run. Where it came after a run that ended well, it finds the contents after all units.
pub fn run_and_open<R: Source, W: Sink>(
    alloc: Global,
    reader: &mut R,
    writer: &mut W,
    start: RunStart<FileDisk, Global>,
    disk: FileDisk,
) -> (
    Result<FileDisk, RunFault<FileDisk, Global>>,
    Result<Store<FileDisk, Global>, ImageError<FileDisk>>,
)
    ensures whole { IfOk result.0 (λ d. RanWell ⟦<FileDisk as Disk>⟧ (disk_from start) d (R.remaining reader.old) (W.written writer.old) (W.written writer.new) (⟦<FileDisk as Disk>⟧.state disk) result.1) }
    ensures early { IfErr result.0 (λ f. FindsOld ⟦<FileDisk as Disk>⟧ (disk_from start) (fault_disk f) (⟦<FileDisk as Disk>⟧.state disk) result.1
        ⊎ RanShort ⟦<FileDisk as Disk>⟧ f.cause (disk_from start) (fault_disk f) (R.remaining reader.old) (W.written writer.old) (W.written writer.new) (⟦<FileDisk as Disk>⟧.state disk) result.1) }
{
    let ended = run(alloc, reader, writer, start);
    (ended, Store::open(alloc, disk))
}
