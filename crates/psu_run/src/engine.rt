//! The run over a reader and a writer.
ghost use Rattle.std.specs.Prelude.{◌≡◌, ◌≢◌, ◌⊎◌, ◌<◌, ◌≤◌, length, [], List, OnOk, IfOk, IfErr, IfSome, None, Some};
ghost use Rattle.psu_run.specs.Ends.{IsByFailure, failed_reads, failed_writes, fault_disk};
ghost use Rattle.psu_run.specs.Lines.{Brings, IsReadToEnd, IsReadUpToFault, IsTooLong, Message, ReadsNoFurther, messages};
ghost use Rattle.psu_run.specs.Output.{Fails, held};
ghost use Rattle.psu_run.specs.Parts.{Answers, Ends, EndsEarly};
ghost use Rattle.psu_run.specs.Results.{DoesNotStart, EachMoment, IsAsBefore, IsOfRun, WritesTo, disk_from, disk_of, end_of};
ghost use Rattle.psu_messages.specs.ResponseBuffer.{nothing};

use crate::intake::Intake;
use crate::jobs::flush;
use crate::laws::script_is_the_only_text;
use crate::memory::piece_buffer;
use crate::powered_device::PoweredDevice;
use crate::run_state::RunState;
use crate::{RunCause, RunFault, RunStart, Sink, Source};
use psu_disk::Disk;
use std::alloc::Allocator;

impl<D: Disk, A: Allocator + Copy> RunState<D, A> {
    // Executes the last line of the input, which has no line feed, and writes its response.
    fn last_line<W: Sink>(self, writer: &mut W) -> Result<PoweredDevice<D, A>, RunFault<D, A>>
        requires none { self.responder.output.items ≡ [] }
        requires fresh { self.responder.gathered ≡ nothing }
        ensures whole { IfOk result (λ p. Answers (messages self.lines.line.items) self.responder.powered.exec
            p.exec (held (W.written writer.old) []) (held (W.written writer.new) [])) }
        ensures early { IfErr result (λ f. EndsEarly self.responder.powered.exec f (messages self.lines.line.items)
            (held (W.written writer.old) []) (held (W.written writer.new) [])) }
        ensures input { IfErr result (λ f. (f.cause ≢ RunCause.Read) × (f.cause ≢ RunCause.TooLong)) }
    {
        if self.lines.is_empty() {
            return Ok(self.into_device());
        }
        let run = self.answer(b"\n", writer)?;
        Ok(run.into_device())
    }

    // Executes the last line of the input, which has no line feed, writes its response, and flushes.
    #[tactic(auto, using(crate::proofs::SessionOne::still_allowed))]
    fn finish<W: Sink>(self, writer: &mut W) -> Result<D, RunFault<D, A>>
        requires none { self.responder.output.items ≡ [] }
        requires fresh { self.responder.gathered ≡ nothing }
        ensures whole { IfOk result (λ d. Ends self.responder.powered.exec None d (messages self.lines.line.items)
            (held (W.written writer.old) []) (held (W.written writer.new) [])) }
        ensures early { IfErr result (λ f. EndsEarly self.responder.powered.exec f (messages self.lines.line.items)
            (held (W.written writer.old) []) (held (W.written writer.new) [])) }
        ensures input { IfErr result (λ f. (f.cause ≢ RunCause.Read) × (f.cause ≢ RunCause.TooLong)) }
    {
        let mut powered = self.last_line(writer)?;
        match flush(&mut powered.exec) {
            Ok(()) => {}
            Err(cause) => return Err(powered.fault(cause)),
        }
        if !powered.exec.is_flushed() {
            return Err(powered.fault(RunCause::Device));
        }
        Ok(powered.into_disk())
    }
}

// Executes the lines of the reader, which is read piece by piece, and writes their responses.
fn execute_pieces<R: Source, W: Sink, D: Disk, A: Allocator + Copy>(
    run: RunState<D, A>,
    piece: &mut [u8],
    reader: &mut R,
    writer: &mut W,
) -> Result<D, RunFault<D, A>>
    requires room { length piece.old ≡ 65536 }
    requires line { run.lines.line.items ≡ [] }
    requires none { run.responder.output.items ≡ [] }
    requires fresh { run.responder.gathered ≡ nothing }
    ensures whole { IfOk result (λ d. (due : List Message) × Brings (R.remaining reader.old) due
        × Ends run.responder.powered.exec None d due (held (W.written writer.old) []) (held (W.written writer.new) [])) }
    ensures early { IfErr result (λ f. (due : List Message) × Brings (R.remaining reader.old) due
        × EndsEarly run.responder.powered.exec f due (held (W.written writer.old) []) (held (W.written writer.new) [])) }
    ensures long { IfErr result (λ f. f.cause ≡ RunCause.TooLong → IsTooLong (R.remaining reader.old) (R.remaining reader.new) (R.reads reader.old) (R.reads reader.new)) }
    ensures short { OnOk result (IfSome (R.remaining reader.old) (λ input. length input ≤ 16777216)) }
    ensures ends { OnOk result (IsReadToEnd (R.remaining reader.old) (R.remaining reader.new) (R.reads reader.old) (R.reads reader.new)) }
    ensures fault { IfErr result (λ f. f.cause ≡ RunCause.Read → IsReadUpToFault (R.remaining reader.old) (R.remaining reader.new) (R.reads reader.old) (R.reads reader.new)) }
    ensures reads { ReadsNoFurther (failed_reads (end_of result)) (R.remaining reader.old) (R.remaining reader.new) (R.reads reader.old) (R.reads reader.new) }
{
    let mut run = run;
    let mut intake = Intake::new();
    'reading: while intake.may_read() {
        intake.count_read();
        let Ok(count) = reader.read_into(piece) else {
            return Err(run.fault(RunCause::Read));
        };
        if count == 0 {
            let disk = run.finish(writer)?;
            return Ok(disk);
        }
        let taken = count.min(intake.room());
        run = run.answer(&piece[..taken], writer)?;
        if taken < count {
            return Err(run.fault(RunCause::TooLong));
        }
        intake.count_bytes(count);
    }
    Err(run.fault(RunCause::TooLong))
}

/// Executes the lines of the reader on a disk's image, or on a store that is open, and writes their responses.
pub fn run<R: Source, W: Sink, D: Disk, A: Allocator + Copy>(
    alloc: A,
    reader: &mut R,
    writer: &mut W,
    start: RunStart<D, A>,
) -> Result<D, RunFault<D, A>>
    // On every disk the responses are those of the device. On an honest one, at each moment since the call began, each
    // possible crash image represents what one of the given disk does, or the contents after a prefix of the units
    // executed up to some point of this very run; that prefix contains every unit before a `*OPC?` answered by that
    // point. No clause can say which point belongs to a moment: a contract sees the reader, the writer and the disk only
    // at the two ends of the run.
    ensures whole { IfOk result (λ d. (written : WritesTo D.honest None (D.state (disk_from start)).bytes (R.remaining reader.old) (D.failures (disk_from start)) (D.failures d)
        (W.written writer.old) (W.written writer.new) (D.state d))
        × (D.honest → EachMoment D.Disk (disk_from start) d (IsOfRun (D.state (disk_from start)) written.run.last))) }
    ensures short { OnOk result (IfSome (R.remaining reader.old) (λ input. length input ≤ 16777216)) }

    // It succeeds only at the end of an input that is not too long, ends since the input is too long only where it is, and
    // by a read fault only where the last read failed and what was read is not too long. Otherwise no read failed. Each
    // read asks for 65,536 bytes, and once the input is too long none is made.
    ensures ends { OnOk result (IsReadToEnd (R.remaining reader.old) (R.remaining reader.new) (R.reads reader.old) (R.reads reader.new)) }
    ensures long { IfErr result (λ f. f.cause ≡ RunCause.TooLong → IsTooLong (R.remaining reader.old) (R.remaining reader.new) (R.reads reader.old) (R.reads reader.new)) }
    ensures fault { IfErr result (λ f. f.cause ≡ RunCause.Read → IsReadUpToFault (R.remaining reader.old) (R.remaining reader.new) (R.reads reader.old) (R.reads reader.new)) }
    ensures reads { ReadsNoFurther (failed_reads (end_of result)) (R.remaining reader.old) (R.remaining reader.new) (R.reads reader.old) (R.reads reader.new) }

    // It ends by a write fault exactly where a write failed, and then one did.
    ensures writes { Fails (failed_writes (end_of result)) (W.written writer.old).failed (W.written writer.new).failed }

    // The returned disk has the size of the given one, and the count of its failures has not decreased.
    ensures extent { D.extent (disk_of result) ≡ D.extent (disk_from start) }
    ensures later { D.failures (disk_from start) ≤ D.failures (disk_of result) }

    // After a fault: where the disk does not power on, nothing was read and nothing was written; otherwise the output
    // of the lines before the fault was written. Each image at a moment since the call began is as above.
    ensures early { IfErr result (λ f.
        (DoesNotStart D.honest f.cause (D.failures (disk_from start)) (D.failures (fault_disk f)) (R.remaining reader.old) (R.remaining reader.new) (W.written writer.old) (W.written writer.new) (D.state (disk_from start)) (D.state (fault_disk f))
        × (D.honest → EachMoment D.Disk (disk_from start) (fault_disk f) (IsAsBefore (D.state (disk_from start)))))
        ⊎ ((written : WritesTo D.honest (Some f.cause) (D.state (disk_from start)).bytes (R.remaining reader.old) (D.failures (disk_from start)) (D.failures (fault_disk f)) (W.written writer.old) (W.written writer.new) (D.state (fault_disk f)))
        × (D.honest → EachMoment D.Disk (disk_from start) (fault_disk f) (IsOfRun (D.state (disk_from start)) written.run.last)))) }

    // On every disk, honest or not: it ends by a fault of the device, also in a restart, only where a disk call failed,
    // unless the store that it hands back has the last number; on an honest disk the root shows that.
    ensures failed { IfErr result (IsByFailure D.Disk (D.failures (disk_from start))) }
{
    script_is_the_only_text::<D>();
    let powered = match PoweredDevice::on(alloc, start) {
        Ok(powered) => powered,
        Err(fault) => return Err(fault),
    };
    let mut piece = match piece_buffer(alloc) {
        Ok(piece) => piece,
        Err(sign) => return Err(powered.fault(RunCause::Memory(sign))),
    };
    let disk = execute_pieces(RunState::new(alloc, powered), &mut piece, reader, writer)?;
    Ok(disk)
}
