//! The powered-on device of a run.
ghost use Rattle.std.specs.Prelude.{◌≡◌, ◌≢◌, ◌↔◌, ◌≤◌, ℕ, List, IfOk, IfErr, IsTrue, length, true, false, None, Some};
ghost use Rattle.std.specs.Option.{ForSome};
ghost use Rattle.psu_disk.specs.Disk.{LeavesOnly};
ghost use Rattle.psu_items.specs.Finding.{IsOldOrSame};
ghost use Rattle.psu_items.specs.Image.{EachRepresents, Represents};
ghost use Rattle.psu_map.specs.Map.{Item};
ghost use Rattle.psu_exec.specs.Device.{is_broken, is_denied, is_open, wait_of};
ghost use Rattle.psu_power_loss.specs.World.{World};
ghost use Rattle.psu_exec.specs.declared.idle_store.Condition.TheVariants.{Worn};
ghost use Rattle.psu_run.specs.Ends.{IsByFailure, NotStarted, cause_of, fault_disk, start_of};
ghost use Rattle.psu_run.specs.Parts.{FaultOf, IsAt, IsMemory, IsWornAtLast, disk_in};
ghost use Rattle.psu_run.specs.Points.{IsWornOut, PowersOn, at_power_on};
ghost use Rattle.psu_run.specs.Results.{disk_from};
ghost use Rattle.psu_run.specs.declared.recover_fault.RecoverFault.{RecoverFault};

use crate::memory::{opening_fault, power_fault};
use crate::{Returned, RunCause, RunFault, RunStart};
use psu_disk::Disk;
use psu_exec::{Crowded, Ended, Exec, Session};
use psu_items::Store;
use std::alloc::Allocator;

/// A powered-on device: its one session is open and waits for nothing, no lock denies it, no job is out, and its store
/// is worn only where its number is the last.
#[derive(Drop)]
pub(crate) struct PoweredDevice<D: Disk, A: Allocator + Copy> {
    pub exec: Exec<D, A>,
    pub session: Session,
    pub ghost first: { session ≡ 1 },
    pub ghost open: { is_open exec.device 1 ≡ true },
    pub ghost allowed: { is_denied exec.device 1 ≡ false },
    pub ghost idle: { exec.device.flush.out ≡ false },
    pub ghost free: { wait_of exec.device.flush 1 ≡ None },
    pub ghost last: { IsWornAtLast exec },
}

impl<D: Disk, A: Allocator + Copy> PoweredDevice<D, A> {
    /// Powers on with the contents of a store, and opens the session. The image is any that represents the store's map.
    pub fn of_store(alloc: A, store: Store<D, A>) -> Result<PoweredDevice<D, A>, RunFault<D, A>>
        ensures starts { (image : List ℕ) → (D.honest → Represents image store.limit store.items × (length (D.state store.disk).bytes ≡ length image))
            → IfOk result (λ p. (power : World) × PowersOn D.honest image power × IsAt p.exec store.disk (at_power_on power (D.failures store.disk))) }
        ensures own { D.honest → Represents (D.state store.disk).bytes store.limit store.items }
        ensures stored { IfOk result (λ p. disk_in p.exec ≡ Some store.disk) }
        ensures whole { IfOk result (λ p. is_broken p.exec.device.flush.store ≡ false) }

        ensures other { IfErr result (λ f. f.cause ≢ RunCause.Write) }
        ensures input { IfErr result (λ f. (f.cause ≢ RunCause.Read) × (f.cause ≢ RunCause.TooLong)) }
        ensures refused { IfErr result (λ f. (why : RecoverFault) × (f.cause ≡ cause_of why)
            × ((image : List ℕ) → Represents image store.limit store.items → NotStarted image (D.failures store.disk) (D.failures store.disk) (start_of why))) }
        // Where memory is refused, no call of the disk failed.
        ensures memory { IfErr result (λ f. IsMemory f.cause → D.failures (fault_disk f) ≡ D.failures store.disk) }
        ensures failed { IfErr result (IsByFailure D.Disk (D.failures store.disk)) }
        ensures disk { IfErr result (λ f. fault_disk f ≡ store.disk) }
    {
        // (for what it says of the disk)
        store.items();
        let mut exec = match Exec::power_on(alloc, store) {
            Ok(exec) => exec,
            Err(fault) => {
                // (for what it says of the disk)
                fault.store.number();
                return Err(RunFault {
                    cause: RunCause::from(power_fault(&fault)),
                    returned: Returned::Store(fault.store),
                });
            }
        };
        match exec.open_session() {
            Ok(session) => Ok(PoweredDevice { exec, session }),
            Err(Crowded) => unreachable!(),
        }
    }

    /// Opens the disk that the run begins on, unless its store is open, powers on with its contents, and opens the session.
    pub fn on(alloc: A, start: RunStart<D, A>) -> Result<PoweredDevice<D, A>, RunFault<D, A>>
        ensures starts { IfOk result (λ p. (power : World) × PowersOn D.honest (D.state (disk_from start)).bytes power
            × ForSome (disk_in p.exec) (λ disk. IsAt p.exec disk (at_power_on power (D.failures disk)))) }
        ensures disk { IfOk result (λ p. (disk : D) × (disk_in p.exec ≡ Some disk) × (D.failures disk ≡ D.failures (disk_from start)) × (D.extent disk ≡ D.extent (disk_from start))) }
        ensures whole { IfOk result (λ p. is_broken p.exec.device.flush.store ≡ false) }

        ensures other { IfErr result (λ f. f.cause ≢ RunCause.Write) }
        ensures input { IfErr result (λ f. (f.cause ≢ RunCause.Read) × (f.cause ≢ RunCause.TooLong)) }
        ensures refused { IfErr result (λ f. (why : RecoverFault) × (f.cause ≡ cause_of why)
            × (D.honest → NotStarted (D.state (disk_from start)).bytes (D.failures (disk_from start)) (D.failures (fault_disk f)) (start_of why))) }
        // Where memory is refused, no call of the disk failed.
        ensures memory { IfErr result (λ f. IsMemory f.cause → D.failures (fault_disk f) ≡ D.failures (disk_from start)) }
        ensures failed { IfErr result (IsByFailure D.Disk (D.failures (disk_from start))) }
        ensures later { IfErr result (λ f. D.failures (disk_from start) ≤ D.failures (fault_disk f)) }
        ensures extent { IfErr result (λ f. D.extent (fault_disk f) ≡ D.extent (disk_from start)) }
        // At each moment since the call began, each possible crash image is one from before, or has the root that was
        // current when the disk was read.
        ensures time { D.honest → D.records → IfOk result (λ p.
            ForSome (disk_in p.exec) (λ disk. LeavesOnly D.moment D.left_since (disk_from start) disk (IsOldOrSame (D.state (disk_from start))))) }
        ensures time_refused { D.honest → D.records → IfErr result (λ f. LeavesOnly D.moment D.left_since (disk_from start) (fault_disk f) (IsOldOrSame (D.state (disk_from start)))) }

        // A disk that does not power on also keeps the map that each of its possible crash images represented.
        ensures left { D.honest → IfErr result (λ f. (limit : ℕ) (map : List Item)
            → EachRepresents (D.state (disk_from start)) limit map → EachRepresents (D.state (fault_disk f)) limit map) }
    {
        match start {
            RunStart::Store(store) => {
                let powered = PoweredDevice::of_store(alloc, store)?;
                Ok(powered)
            }
            RunStart::Image(disk) => {
                let store = match Store::open(alloc, disk) {
                    Ok(store) => store,
                    Err(refused) => {
                        return Err(RunFault {
                            cause: RunCause::from(opening_fault(&refused)),
                            returned: Returned::Disk(refused.disk),
                        });
                    }
                };
                let powered = PoweredDevice::of_store(alloc, store)?;
                Ok(powered)
            }
        }
    }

    /// Ends the device and returns its disk.
    pub fn into_disk(self) -> D
        ensures same { disk_in self.exec ≡ Some result }
        ensures stands { D.honest → is_broken self.exec.device.flush.store ≡ false
            → EachRepresents (D.state result) self.exec.device.flush.limit self.exec.device.flush.before }
        ensures worn { D.honest → self.exec.device.flush.store ≡ Worn → IsWornOut (D.state result).bytes }
    {
        match self.exec.end() {
            Ended::Whole(store) => store.into_disk(),
            Ended::Failed(broken) => broken.into_disk(),
            Ended::Out(_) => unreachable!(),
        }
    }

    /// Ends the run early, for this cause, and hands back the store with it.
    pub fn fault(self, cause: RunCause) -> RunFault<D, A>
        ensures { FaultOf self.exec cause result }
    {
        match self.exec.end() {
            Ended::Whole(store) => {
                // (for what it says of the disk)
                store.number();
                RunFault {
                    cause,
                    returned: Returned::Store(store),
                }
            }
            Ended::Failed(broken) => RunFault {
                cause,
                returned: Returned::Broken(broken),
            },
            Ended::Out(_) => unreachable!(),
        }
    }
}
