//! What a run has in hand.
ghost use Rattle.std.specs.Prelude.{◌≡◌, ◌⊎◌, ◌↔◌, ◌++◌, [], List, IsTrue};
ghost use Rattle.psu_messages.specs.ResponseBuffer.{nothing};
ghost use Rattle.psu_run.specs.Lines.{Message};
ghost use Rattle.psu_run.specs.Output.{OutputState, held};
ghost use Rattle.psu_run.specs.Parts.{EndsEarly, FaultOf};
ghost use Rattle.psu_exec.specs.Exec.{Exec};
ghost use Rattle.psu_run.specs.declared.run_fault.RunFault.{RunFault as AnyFault};

use crate::lines::Lines;
use crate::output::put_both;
use crate::powered_device::PoweredDevice;
use crate::{RunCause, RunFault, Sink};
use psu_disk::Disk;
use psu_messages::ResponseBuffer;
use std::alloc::Allocator;

/// The powered-on device, with its output that is not yet written.
#[derive(Drop)]
pub(crate) struct Responder<D: Disk, A: Allocator + Copy> {
    pub powered: PoweredDevice<D, A>,
    /// The output buffer: responses that are not yet written.
    pub output: Vec<u8, A>,
    /// The answers of the line in progress that are not yet in the output buffer.
    pub gathered: ResponseBuffer<A>,
}

/// What a run has in hand: the line that is being read, and the device with its output.
#[derive(Drop)]
pub(crate) struct RunState<D: Disk, A: Allocator + Copy> {
    pub alloc: A,
    pub lines: Lines<A>,
    pub responder: Responder<D, A>,
}

fn is_write(cause: RunCause) -> bool
    ensures { IsTrue result ↔ (cause ≡ RunCause.Write) }
{
    matches!(cause, RunCause::Write)
}

/// Writes the output before a fault by which the run then ends, unless the writer has failed. Where it fails now, that
/// is the fault.
pub(crate) fn write_before<W: Sink, D: Disk, A: Allocator + Copy>(
    fault: RunFault<D, A>,
    output: &[u8],
    gathered: &ResponseBuffer<A>,
    writer: &mut W,
) -> RunFault<D, A>
    ensures cause { (result.cause ≡ fault.cause) ⊎ (result.cause ≡ RunCause.Write) }
    ensures ends { (old : Exec D A D.Disk) (due : List Message) (before : OutputState)
        → EndsEarly old fault due before (held (W.written writer.old) (output.now ++ gathered.now.rest)) → EndsEarly old result due before (held (W.written writer.new) []) }
{
    if is_write(fault.cause) {
        return fault;
    }
    match put_both(writer, output, gathered.text()) {
        Ok(()) => fault,
        Err(cause) => RunFault { cause, ..fault },
    }
}

impl<D: Disk, A: Allocator + Copy> RunState<D, A> {
    /// Returns the state before the input: nothing is read, and there is no output.
    pub fn new(alloc: A, powered: PoweredDevice<D, A>) -> RunState<D, A>
        ensures powered { result.responder.powered ≡ powered }
        ensures line { result.lines.line.items ≡ [] }
        ensures none { result.responder.output.items ≡ [] }
        ensures fresh { result.responder.gathered ≡ nothing }
    {
        RunState {
            alloc,
            lines: Lines::new(alloc),
            responder: Responder {
                powered,
                output: Vec::new(alloc),
                gathered: ResponseBuffer::new(alloc),
            },
        }
    }

    /// Ends it, and returns the device.
    pub fn into_device(self) -> PoweredDevice<D, A>
        ensures { result ≡ self.responder.powered }
    {
        let RunState { responder, .. } = self;
        let Responder { powered, .. } = responder;
        powered
    }

    /// Ends the run early, for this cause, where all output is written.
    pub fn fault(self, cause: RunCause) -> RunFault<D, A>
        ensures { FaultOf self.responder.powered.exec cause result }
    {
        self.into_device().fault(cause)
    }

    /// Ends the run early, for this cause, once the output before it is written.
    pub fn end_early<W: Sink>(self, cause: RunCause, writer: &mut W) -> RunFault<D, A>
        ensures cause { (result.cause ≡ cause) ⊎ (result.cause ≡ RunCause.Write) }
        ensures ends { (fault : AnyFault D A D.Disk) × FaultOf self.responder.powered.exec cause fault
            × ((old : Exec D A D.Disk) (due : List Message) (before : OutputState)
            → EndsEarly old fault due before (held (W.written writer.old) (self.responder.output.items ++ self.responder.gathered.rest)) → EndsEarly old result due before (held (W.written writer.new) [])) }
    {
        let Responder {
            powered,
            output,
            gathered,
        } = self.responder;
        write_before(powered.fault(cause), output.as_slice(), &gathered, writer)
    }
}
