//! Served devices on the program's disk.
ghost use Rattle.std.specs.Prelude.{IfOk};
ghost use Rattle.psu_durability.specs.Served.{PowersOnAfterRounds, PowersOnAgain};

use psu_bench::{Access, Gate, Served, power_on};
use psu_bench_power_loss::threads_are_events;
use psu_disk::{Disk, FileDisk};
use psu_exec::StartFault;
use std::alloc::Global;

/// Powers a served device on again with the image, after a power loss or the end of the process, whatever threads did
/// before, also midway through a job. A power-on that succeeds begins with the contents after a prefix of the units that
/// they executed, which contains every unit before an answered `*OPC?`.
pub fn power_on_again<G: Gate + Drop>(
    alloc: Global,
    disk: FileDisk,
    gate: G,
) -> Result<Access<Served<FileDisk, G>>, StartFault>
    ensures prefix { IfOk result (λ access. PowersOnAgain ⟦<Served<FileDisk, G> as Disk>⟧ (⟦<FileDisk as Disk>⟧.state disk) access.seat) }
    ensures rounds { IfOk result (λ access. PowersOnAfterRounds ⟦<Served<FileDisk, G> as Disk>⟧ (⟦<FileDisk as Disk>⟧.state disk) access.seat) }
{
    threads_are_events::<Served<FileDisk, G>, Global>();
    power_on(alloc, disk, gate)
}
