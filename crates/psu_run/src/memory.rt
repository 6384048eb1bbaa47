//! What requests memory in a run, and the sign that it was refused.
ghost use Rattle.std.specs.Prelude.{◌≡◌, ◌≢◌, ◌++◌, ◌∷◌, [], IfOk, IfErr, IfNone, OnOk, OnErr, OnSome, None, Some, false, length};
ghost use Rattle.psu_exec.specs.Calls.{Allows, Job as JobToRun, Memory as NoMemory, Nothing, Took};
ghost use Rattle.psu_exec.specs.Jobs.{finished_of, job_data, job_store};
ghost use Rattle.psu_exec.specs.Starts.{start_of_opening, start_of_power_on};
ghost use Rattle.psu_run.specs.Ends.{start_of};
ghost use Rattle.psu_run.specs.Points.{MemoryRefused as IsOutOfMemory, fault_of};

use crate::{RecoverFault, RunCause};
use psu_disk::Disk;
use psu_exec::{End, Exec, Job, NoJob, PowerFault, StartFault};
use psu_items::{BrokenCause, ImageError, UnstartedCause};
use psu_lex::Bytes;
use psu_messages::{MemoryRefused, READ_SIZE};
use std::alloc::{AllocError, Allocator};

/// Memory was refused. Only the functions of this file can make one: those that request memory, and those that are given
/// the error of a call that did. So no other code of a run or of a report can say that memory was refused; no contract
/// can say that an allocation failed.
#[derive(Clone, Copy, Debug, PartialEq, Eq)]
pub struct OutOfMemory(());

impl From<MemoryRefused> for OutOfMemory {
    fn from(_: MemoryRefused) -> Self {
        OutOfMemory(())
    }
}

// ---- buffers and texts

/// Returns the buffer that a piece of the input is read into.
pub(crate) fn piece_buffer<A: Allocator + Copy>(alloc: A) -> Result<Vec<u8, A>, OutOfMemory>
    ensures { IfOk result (λ piece. length piece.items ≡ 65536) }
{
    match vec![in alloc; 0u8; READ_SIZE] {
        Ok(piece) => Ok(piece),
        Err(AllocError) => Err(OutOfMemory(())),
    }
}

/// Appends bytes.
#[inline(always)]
pub(crate) fn append<A: Allocator>(text: &mut Vec<u8, A>, more: &[u8]) -> Result<(), OutOfMemory>
    ensures added { OnOk result (text.new.items ≡ text.old.items ++ more.now) }
    ensures same { OnErr result (text.new.items ≡ text.old.items) }
{
    match text.extend_from_slice(more) {
        Ok(()) => Ok(()),
        Err(AllocError) => Err(OutOfMemory(())),
    }
}

/// Appends an item.
pub(crate) fn push<T: Drop, A: Allocator>(list: &mut Vec<T, A>, item: T) -> Result<(), OutOfMemory>
    ensures { OnOk result (list.new.items ≡ list.old.items ++ item ∷ []) }
{
    match list.push(item) {
        Ok(()) => Ok(()),
        Err(_) => Err(OutOfMemory(())),
    }
}

/// Returns a copy of these bytes.
pub(crate) fn copy_of<A: Allocator + Copy>(alloc: A, bytes: &[u8]) -> Result<Bytes<A>, OutOfMemory>
    ensures { IfOk result (λ copy. copy ≡ bytes.now) }
{
    match Bytes::of(alloc, bytes) {
        Ok(copy) => Ok(copy),
        Err(AllocError) => Err(OutOfMemory(())),
    }
}

// ---- the device

// The fault for a cause that may be that an allocation failed.
fn refusal_of(cause: StartFault) -> RecoverFault
    ensures { start_of result ≡ cause }
{
    match cause {
        StartFault::Start(cause) => RecoverFault::Start(cause),
        StartFault::Memory => RecoverFault::Memory(OutOfMemory(())),
    }
}

/// Returns why an image was not opened.
pub(crate) fn opening_fault<D: Disk>(refused: &ImageError<D>) -> RecoverFault
    ensures { start_of result ≡ start_of_opening refused.now.cause }
{
    refusal_of(StartFault::from(refused.cause))
}

/// Returns why a device did not power on.
pub(crate) fn power_fault<D: Disk, A: Allocator + Copy>(fault: &PowerFault<D, A>) -> RecoverFault
    ensures { start_of result ≡ start_of_power_on fault.now.cause }
{
    refusal_of(StartFault::from(fault.cause))
}

/// Takes a job from the device. There may be none, or memory is refused.
pub(crate) fn take<D: Disk, A: Allocator + Copy>(
    exec: &mut Exec<D, A>,
) -> Result<Job<D, A>, Option<OutOfMemory>>
    requires idle { exec.old.device.flush.out ≡ false }
    ensures step { IfOk result (λ job. Allows exec.old.device (Took (JobToRun (job_data job))) exec.new.device) }
    ensures job { IfOk result (λ job. exec.old.idle_store ≡ Some (job_store job)) }
    ensures none { IfErr result (λ refused. refused ≡ None → Allows exec.old.device (Took Nothing) exec.new.device) }
    ensures refused { IfErr result (λ refused. refused ≢ None → Allows exec.old.device (Took NoMemory) exec.new.device) }
    ensures same { OnErr result (exec.new.device ≡ exec.old.device) }
    ensures idle_store { OnErr result (exec.new.idle_store ≡ exec.old.idle_store) }
{
    match exec.take() {
        Ok(job) => Ok(job),
        Err(NoJob::Nothing) => Err(None),
        Err(NoJob::Memory) => Err(Some(OutOfMemory(()))),
        Err(NoJob::Out) => unreachable!(),
    }
}

/// Returns the sign that memory was refused in a job that ended this way, if it was.
pub(crate) fn refused_in<D: Disk, A: Allocator + Copy>(end: &End<D, A>) -> Option<OutOfMemory>
    ensures some { OnSome result (fault_of (finished_of end.now) ≡ Some IsOutOfMemory) }
    ensures none { IfNone result (fault_of (finished_of end.now) ≢ Some IsOutOfMemory) }
{
    let is_refused = match end {
        End::Unstarted(_, _, cause) => matches!(cause, UnstartedCause::Memory),
        End::Broken(broken) => matches!(broken.cause(), BrokenCause::Memory),
        _ => false,
    };
    is_refused.then_some(OutOfMemory(()))
}
