//! The power-on of a served device.
ghost use Rattle.std.specs.Prelude.{IfOk};
ghost use Rattle.psu_bench.specs.PowerOn.{BeginsWith};

use crate::{Access, Bench, Gate, Gated, Served};
use psu_disk::Disk;
use psu_exec::{Exec, StartFault};
use psu_items::Store;
use std::alloc::Global;
use std::sync::Arc;

/// Powers a device on with the contents of a disk, and returns the first access to it. The device begins in the state
/// at power-on that these contents prescribe, with no session and no lock (IEEE 488.2, 5.12), and its history has no
/// call.
pub fn power_on<D: Disk + Drop, G: Gate + Drop>(
    alloc: Global,
    disk: D,
    gate: G,
) -> Result<Access<Served<D, G>>, StartFault>
    ensures begins { D.honest → IfOk result (λ access. BeginsWith (D.state disk).bytes access.seat) }
{
    let Ok(gate) = Arc::new(alloc, gate) else {
        return Err(StartFault::Memory);
    };
    let disk = Gated::new(disk, Arc::try_clone(&gate)?);
    let store = match Store::open(alloc, disk) {
        Ok(store) => store,
        Err(refused) => return Err(StartFault::from(refused.cause)),
    };
    let exec = match Exec::power_on(alloc, store) {
        Ok(exec) => exec,
        Err(refused) => return Err(StartFault::from(refused.cause)),
    };
    let Ok((bench, seat)) = Bench::new(alloc, exec) else {
        return Err(StartFault::Memory);
    };
    match Arc::new(alloc, bench) {
        Ok(bench) => Ok(Access { bench, seat, gate }),
        Err(_refused) => Err(StartFault::Memory),
    }
}
