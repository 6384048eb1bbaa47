//! The flush: jobs are run until there is none.
ghost use Rattle.std.specs.Prelude.{◌≡◌, ◌≢◌, ◌⊎◌, ◌≤◌, ℕ, List, [], OnOk, OnSome, IfOk, IfErr, IfNone, true, false, None, Some};
ghost use Rattle.std.specs.Option.{ForSome};
ghost use Rattle.psu_disk.specs.Disk.{HasFailed, LeavesOnly};
ghost use Rattle.psu_items.specs.Image.{IsEither};
ghost use Rattle.psu_exec.specs.AcceptedEnd.{IsTrueOf};
ghost use Rattle.psu_exec.specs.Calls.{Commit, GaveBack, HasNone, HasWork, JobEnd, JobKind, Nothing, Reopen, Serves, Took, job_of};
ghost use Rattle.psu_exec.specs.Device.{is_broken, is_open, target, wait_of};
ghost use Rattle.psu_exec.specs.Jobs.{finished_of, job_data, job_disk};
ghost use Rattle.psu_exec.specs.declared.idle_store.Condition.TheVariants.{Whole, Worn};
ghost use Rattle.psu_run.specs.Ends.{Halts};
ghost use Rattle.psu_run.specs.Parts.{DeviceStops, IsMemory, IsTied, IsWornAtLast, Leads, disk_in, failures_of};
ghost use Rattle.psu_run.specs.Points.{Calls, EndsJob, IsFlush, IsJob, IsWornOut, MemoryRefused, NoNumber, StoreBroken, fault_of};
ghost use Rattle.psu_run.specs.Script.{finished};

use crate::memory::{refused_in, take};
use crate::{OutOfMemory, RunCause};
use psu_disk::Disk;
use psu_exec::{Condition, Exec, Job};
use std::alloc::Allocator;

const JOBS_MOST: u32 = 4;

/// What there was to do.
#[derive(Clone, Copy, Debug, PartialEq, Eq)]
pub(crate) enum Work {
    /// A job, which was run.
    Job,
    Nothing,
}

// Whether a commit has failed.
fn is_broken(condition: Condition) -> bool
    ensures { result ≡ is_broken condition }
{
    matches!(condition, Condition::Broken)
}

// Runs the job that is out, gives it back, and returns whether it ended out of memory.
fn run_job<D: Disk, A: Allocator + Copy>(
    exec: &mut Exec<D, A>,
    job: Job<D, A>,
) -> Option<OutOfMemory>
    requires out { exec.old.device.flush.out ≡ true }
    requires own { job_data job ≡ job_of exec.old.device.flush }
    // How the job ended: the device accepts this end, one that the kind of the job may have; the result says whether it is
    // out of memory; and on an honest disk the end is true of the disk.
    ensures run { (finished : JobEnd) × (over : List ℕ) × Serves exec.old.device (GaveBack finished (Some over)) exec.new.device
        × OnSome result (fault_of finished ≡ Some MemoryRefused) × IfNone result (fault_of finished ≢ Some MemoryRefused) × EndsJob (job_data job).kind finished
        × (D.honest → ForSome (disk_in exec.new) (λ disk. IsTrueOf (target exec.old.device.flush) finished (D.state disk)
        × (fault_of finished ≡ Some StoreBroken → HasFailed (D.failures (job_disk job)) (D.failures disk))
        × (fault_of finished ≡ Some NoNumber → IsWornOut (D.state disk).bytes))) }
    ensures disk { (disk : D) × (disk_in exec.new ≡ Some disk) × (D.failures (job_disk job) ≤ D.failures disk) × (D.extent disk ≡ D.extent (job_disk job))
        × (D.honest → D.records → LeavesOnly D.moment D.left_since (job_disk job) disk (IsEither (job_data job).limit (job_data job).before (job_data job).target)) }
    ensures worn { IsWornAtLast exec.new }
    // Only a failed disk call breaks a store that was whole.
    ensures breaks { (job_data job).kind ≡ Commit → is_broken exec.new.device.flush.store ≡ true → HasFailed (D.failures (job_disk job)) (failures_of exec.new) }
{
    let finished = job.run();
    let refused = refused_in(finished.end());
    match exec.give_back(finished) {
        Ok(_) => refused,
        Err(_) => unreachable!(),
    }
}

// Takes a job, runs it and gives it back, if there is one. A job that ends out of memory ends the run.
fn run_next<D: Disk, A: Allocator + Copy>(exec: &mut Exec<D, A>) -> Result<Work, RunCause>
    requires idle { exec.old.device.flush.out ≡ false }
    ensures job { IfOk result (λ work. work ≡ Work.Job → Leads exec.old exec.new (λ p q. (kind : JobKind) × IsJob D.honest kind p q)) }
    ensures take { IfOk result (λ work. work ≡ Work.Nothing → Leads exec.old exec.new (λ p q. Calls D.honest p (Took Nothing) q)) }
    ensures stops { IfErr result (λ cause. DeviceStops exec.old exec.new (Halts D.honest (Some cause) []) cause) }
    ensures memory { IfErr result IsMemory }
    ensures idle { exec.new.device.flush.out ≡ false }
    ensures open { is_open exec.new.device 1 ≡ is_open exec.old.device 1 }
    ensures locked { exec.new.device.volatile.locks ≡ exec.old.device.volatile.locks }
    ensures free { wait_of exec.old.device.flush 1 ≡ None → wait_of exec.new.device.flush 1 ≡ None }
    ensures worn { IsWornAtLast exec.old → IsWornAtLast exec.new }
    ensures some { IfOk result (λ work. work ≡ Work.Job → HasWork exec.old.device.flush) }
    // A disk call failed, or no number is left for a commit, or the store is whole, and all changes are flushed where it was
    // whole before.
    ensures left { IfOk result (λ work. work ≡ Work.Job → (before : ℕ) → IsTied before exec.old
        → HasFailed before (failures_of exec.new) ⊎ (exec.new.device.flush.store ≡ Worn)
        ⊎ ((exec.new.device.flush.store ≡ Whole) × (exec.old.device.flush.store ≡ Whole → exec.new.device.flush.unflushed ≡ 0))) }
    ensures none { IfOk result (λ work. work ≡ Work.Nothing → (exec.new.device ≡ exec.old.device) × HasNone exec.old.device.flush) }
{
    match take(exec) {
        Ok(job) => match run_job(exec, job) {
            None => Ok(Work::Job),
            Some(sign) => Err(RunCause::Memory(sign)),
        },
        Err(None) => Ok(Work::Nothing),
        Err(Some(sign)) => Err(RunCause::Memory(sign)),
    }
}

/// Takes, runs and gives back jobs until there is nothing to take, at most 4 jobs.
pub(crate) fn flush<D: Disk, A: Allocator + Copy>(exec: &mut Exec<D, A>) -> Result<(), RunCause>
    requires idle { exec.old.device.flush.out ≡ false }
    ensures flushes { OnOk result (Leads exec.old exec.new (IsFlush D.honest)) }
    ensures stops { IfErr result (λ cause. DeviceStops exec.old exec.new (Halts D.honest (Some cause) []) cause) }
    ensures other { IfErr result (λ cause. cause ≢ RunCause.Write) }
    ensures idle { exec.new.device.flush.out ≡ false }
    ensures open { is_open exec.new.device 1 ≡ is_open exec.old.device 1 }
    ensures locked { exec.new.device.volatile.locks ≡ exec.old.device.volatile.locks }
    ensures free { wait_of exec.old.device.flush 1 ≡ None → wait_of exec.new.device.flush 1 ≡ None }
    ensures worn { IsWornAtLast exec.old → IsWornAtLast exec.new }

    // Changes are left unflushed only where a disk call failed or the store is worn.
    ensures clean { OnOk result ((before : ℕ) → IsTied before exec.old → HasFailed before (failures_of exec.new)
        ⊎ (exec.new.device.flush.store ≡ Worn) ⊎ (exec.new.device.flush.unflushed ≡ 0)) }
{
    for _ in 0..JOBS_MOST {
        match run_next(exec)? {
            Work::Job => {}
            Work::Nothing => return Ok(()),
        }
    }
    Ok(())
}

/// Reopens a broken store. A store that stays broken ends the run.
pub(crate) fn reopen<D: Disk, A: Allocator + Copy>(exec: &mut Exec<D, A>) -> Result<(), RunCause>
    requires idle { exec.old.device.flush.out ≡ false }
    ensures reopens { OnOk result (Leads exec.old exec.new (λ p q. (q ≡ p) ⊎ IsJob D.honest Reopen p q)) }
    ensures stops { IfErr result (λ cause. DeviceStops exec.old exec.new (Halts D.honest (Some cause) []) cause) }
    ensures other { IfErr result (λ cause. cause ≢ RunCause.Write) }
    ensures failed { IfErr result (λ cause. cause ≡ RunCause.Device → (before : ℕ) → IsTied before exec.old → HasFailed before (failures_of exec.new)) }
    ensures idle { exec.new.device.flush.out ≡ false }
    ensures open { is_open exec.new.device 1 ≡ is_open exec.old.device 1 }
    ensures locked { exec.new.device.volatile.locks ≡ exec.old.device.volatile.locks }
    ensures free { wait_of exec.old.device.flush 1 ≡ None → wait_of exec.new.device.flush 1 ≡ None }
    ensures worn { IsWornAtLast exec.old → IsWornAtLast exec.new }
    ensures mended { OnOk result (is_broken exec.new.device.flush.store ≡ false) }
{
    if !is_broken(exec.condition()) {
        return Ok(());
    }
    match run_next(exec)? {
        Work::Job => {}
        Work::Nothing => unreachable!(),
    }
    if is_broken(exec.condition()) {
        return Err(RunCause::Device);
    }
    Ok(())
}
