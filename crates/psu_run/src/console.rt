//! The executor of a run: it executes units on the device and outputs their answers.
ghost use Rattle.std.specs.Prelude.{◌≡◌, ◌≢◌, ◌⊎◌, ◌∷◌, ◌++◌, [], List, ℕ, IfErr, IfOk, IfSome, OnOk, None, Some};
ghost use Rattle.psu_messages.specs.Executions.{Advances, IsOver, StopsAt};
ghost use Rattle.psu_messages.specs.Relations.{IsAwaited};
ghost use Rattle.psu_messages.specs.ResponseBuffer.{nothing};
ghost use Rattle.psu_messages.specs.Shown.{progress_of};
ghost use Rattle.psu_run.specs.Ends.{Halts, NextBegins};
ghost use Rattle.psu_run.specs.Lines.{Message, source_of};
ghost use Rattle.psu_run.specs.Output.{SaysUntil, held};
ghost use Rattle.psu_run.specs.Parts.{Answers, DeviceStops, IsDone, IsMemory};

use crate::acting::unit;
use crate::lines::is_too_long;
use crate::run_state::Responder;
use crate::writing::append_output;
use crate::{OutOfMemory, RunCause, Sink};
use psu_disk::Disk;
use psu_exec::{Request, ScpiError};
use psu_messages::{
    Executor, MemoryRefused, Need, Progress, ResponseBuffer, Tried, execute_fault, execute_text,
};
use std::alloc::Allocator;
use std::convert::Infallible;
use std::mem;

// Executes the message of a line: its bytes, or the error that the line is too long.
#[inline(always)]
fn proceed<A: Allocator + Copy, F: Executor<A>>(
    executor: &mut F,
    line: &[u8],
    progress: &mut Progress<A, F::Wait>,
) -> Result<Option<Need>, F::Stop>
    requires { progress.old.units ≡ 0 }
    ensures goes { OnOk result (Advances F.relations.does
        (source_of line.now) executor.old
        (progress_of progress.old) executor.new (progress_of progress.new)) }
    ensures over { IfOk result (λ need. need ≡ None → IsOver (source_of line.now) (progress_of progress.new)) }
    ensures waits { IfOk result (λ some. IfSome some (IsAwaited F.relations executor.new)) }
    ensures stops { IfErr result (λ stop. StopsAt F.relations (source_of line.now) executor.old (progress_of progress.old) stop executor.new
        progress.new.gathered) }
{
    if is_too_long(line) {
        let need = execute_fault(executor, ScpiError::TooMuchData, progress)?;
        return Ok(need);
    }
    let need = execute_text(executor, line, progress)?;
    Ok(need)
}

// The executor of a run: a powered-on device with its output, and the writer.
#[derive(Drop)]
struct Console<'r, 'w, W: Sink, D: Disk, A: Allocator + Copy> {
    responder: &'r mut Responder<D, A>,
    writer: &'w mut W,
}

impl<'r, 'w, W: Sink, D: Disk, A: Allocator + Copy> Executor<A> for Console<'r, 'w, W, D, A> {
    type Stop = RunCause;

    // There is none: a unit is executed with the flushes that it waits for.
    type Wait = Infallible;

    ghost use Rattle.psu_run.specs.declared.run_cause.RunCause.{RunCause};

    // An effect is done on the device and on the output. Where a unit fails, the device stops and the output stays. Where it
    // stops otherwise, the device stays, and nothing more is output; of the text in the buffer some is missing if the writer
    // failed.
    ghost relations = { record {
      does = λ x effect y. (y.responder.ghost_name ≡ x.responder.ghost_name) × (y.writer.ghost_name ≡ x.writer.ghost_name)
          × IsDone x.responder.now.powered.exec (held (W.written x.writer.now) x.responder.now.output.items) effect y.responder.now.powered.exec (held (W.written y.writer.now) y.responder.now.output.items);
      fails = λ x request cause y. (y.responder.ghost_name ≡ x.responder.ghost_name) × (y.writer.ghost_name ≡ x.writer.ghost_name)
          × (held (W.written y.writer.now) y.responder.now.output.items ≡ held (W.written x.writer.now) x.responder.now.output.items)
          × DeviceStops x.responder.now.powered.exec y.responder.now.powered.exec (Halts D.honest (Some cause) (request ∷ [])) cause × (cause ≢ RunCause.Write);
      stops = λ x cause y. (y.responder.ghost_name ≡ x.responder.ghost_name) × (y.writer.ghost_name ≡ x.writer.ghost_name)
          × (y.responder.now.powered.exec ≡ x.responder.now.powered.exec) × (IsMemory cause ⊎ (cause ≡ RunCause.Write))
          × SaysUntil (Some cause) (held (W.written x.writer.now) x.responder.now.output.items) (held (W.written y.writer.now) y.responder.now.output.items) [];
      yields = λ _. ⊥;
    } };

    // It never yields: a run has no others.
    #[inline(always)]
    fn may_continue(&self) -> bool {
        true
    }

    #[inline(always)]
    fn try_unit(
        &mut self,
        request: &Request<'_>,
        parked: &Option<Infallible>,
    ) -> Result<Tried<A, Infallible>, RunCause> {
        match parked {
            None => {
                let outcome = unit(&mut self.responder.powered, request)?;
                Ok(Tried::Replied(outcome))
            }
            Some(never) => match *never {},
        }
    }

    #[inline(always)]
    fn send(&mut self, text: &[u8], _: bool) -> Result<(), RunCause> {
        append_output(&mut self.responder.output, text, self.writer)
    }

    fn out_of_memory(&self, refused: MemoryRefused) -> RunCause {
        RunCause::Memory(OutOfMemory::from(refused))
    }
}

impl<'r, 'w, W: Sink, D: Disk, A: Allocator + Copy> Console<'r, 'w, W, D, A> {
    // Executes the message of a complete line, and outputs its response.
    fn execute_line(&mut self, alloc: A, line: &[u8]) -> Result<(), RunCause>
        requires fresh { self.old.responder.now.gathered ≡ nothing }
        ensures runs { OnOk result (Answers (Message.Line (source_of line.now) ∷ []) self.old.responder.now.powered.exec self.new.responder.now.powered.exec
            (held (W.written self.old.writer.now) (self.old.responder.now.output.items ++ self.old.responder.now.gathered.rest))
            (held (W.written self.new.writer.now) (self.new.responder.now.output.items ++ self.new.responder.now.gathered.rest))) }
        ensures fresh { OnOk result (self.new.responder.now.gathered ≡ nothing) }
        ensures breaks { IfErr result (λ cause. (part : List ℕ)
            × SaysUntil (Some cause) (held (W.written self.old.writer.now) (self.old.responder.now.output.items ++ self.old.responder.now.gathered.rest))
            (held (W.written self.new.writer.now) (self.new.responder.now.output.items ++ self.new.responder.now.gathered.rest)) part
            × DeviceStops self.old.responder.now.powered.exec self.new.responder.now.powered.exec (λ p q. NextBegins D.honest (Some cause) (Message.Line (source_of line.now) ∷ []) p q × (q.text ≡ p.text ++ part)) cause) }
        ensures responder { self.new.responder.ghost_name ≡ self.old.responder.ghost_name }
        ensures writer { self.new.writer.ghost_name ≡ self.old.writer.ghost_name }
    {
        let buffer = ResponseBuffer::new(alloc);
        let mut progress = Progress::new(mem::replace(&mut self.responder.gathered, buffer));
        let done = proceed(self, line, &mut progress);
        self.responder.gathered = progress.gathered;
        match done {
            Ok(need) => match need {
                None => {
                    self.responder.gathered.restart();
                    Ok(())
                }
                Some(_) => unreachable!(),
            },
            Err(cause) => Err(cause),
        }
    }
}

impl<D: Disk, A: Allocator + Copy> Responder<D, A> {
    /// Executes the message of a complete line that is not the one of a power loss, and outputs its response. Where it
    /// stops early, the answers that were not output are left in the response buffer.
    pub fn answer_line<W: Sink>(
        &mut self,
        alloc: A,
        line: &[u8],
        writer: &mut W,
    ) -> Result<(), RunCause>
        requires fresh { self.old.gathered ≡ nothing }
        ensures runs { OnOk result (Answers (Message.Line (source_of line.now) ∷ []) self.old.powered.exec self.new.powered.exec
            (held (W.written writer.old) (self.old.output.items ++ self.old.gathered.rest)) (held (W.written writer.new) (self.new.output.items ++ self.new.gathered.rest))) }
        ensures fresh { OnOk result (self.new.gathered ≡ nothing) }
        ensures breaks { IfErr result (λ cause. (part : List ℕ)
            × SaysUntil (Some cause) (held (W.written writer.old) (self.old.output.items ++ self.old.gathered.rest)) (held (W.written writer.new) (self.new.output.items ++ self.new.gathered.rest)) part
            × DeviceStops self.old.powered.exec self.new.powered.exec (λ p q. NextBegins D.honest (Some cause) (Message.Line (source_of line.now) ∷ []) p q × (q.text ≡ p.text ++ part)) cause) }
    {
        let mut console = Console {
            responder: &mut *self,
            writer: &mut *writer,
        };
        console.execute_line(alloc, line)
    }
}
