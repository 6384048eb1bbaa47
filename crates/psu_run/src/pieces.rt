//! The lines that end in a piece of the input.
ghost use Rattle.std.specs.Prelude.{◌≡◌, ◌≢◌, ◌∷◌, ◌++◌, [], List, ℕ, OnOk, IfOk, IfErr};
ghost use Rattle.psu_messages.specs.ResponseBuffer.{nothing};
ghost use Rattle.psu_run.specs.Lines.{Message, messages};
ghost use Rattle.psu_run.specs.Output.{OutputState, held};
ghost use Rattle.psu_run.specs.Parts.{Answers, EndsEarly, Leads};
ghost use Rattle.psu_run.specs.Points.{Runs};

use crate::jobs::reopen;
use crate::lines::is_power;
use crate::output::put;
use crate::powered_device::PoweredDevice;
use crate::run_state::{Responder, RunState, write_before};
use crate::{RunCause, RunFault, RunStart, Sink};
use memchr::memchr;
use psu_disk::Disk;
use std::alloc::Allocator;

// Simulates a power loss at rest and a restart: changes that are not flushed are lost. A broken store is reopened
// before it.
#[tactic(auto, using(crate::proofs::SessionOne::still_allowed))]
fn restart_device<D: Disk, A: Allocator + Copy>(
    alloc: A,
    powered: PoweredDevice<D, A>,
) -> Result<PoweredDevice<D, A>, RunFault<D, A>>
    ensures runs { IfOk result (λ p. Leads powered.exec p.exec (Runs D.honest (Message.Power ∷ []))) }
    ensures stops { IfErr result (λ f. (rest : List Message) (output : OutputState) → EndsEarly powered.exec f (Message.Power ∷ rest) output output) }
    ensures other { IfErr result (λ f. f.cause ≢ RunCause.Write) }
    ensures input { IfErr result (λ f. (f.cause ≢ RunCause.Read) × (f.cause ≢ RunCause.TooLong)) }
{
    let mut powered = powered;
    match reopen(&mut powered.exec) {
        Ok(()) => {}
        Err(cause) => return Err(powered.fault(cause)),
    }
    powered.exec.contents();
    let powered = PoweredDevice::on(alloc, RunStart::Image(powered.into_disk()))?;
    Ok(powered)
}

impl<D: Disk, A: Allocator + Copy> RunState<D, A> {
    // Simulates a power loss at rest and a restart, and keeps the output that is not yet written.
    fn restart<W: Sink>(self, writer: &mut W) -> Result<RunState<D, A>, RunFault<D, A>>
        ensures runs { IfOk result (λ r. Leads self.responder.powered.exec r.responder.powered.exec (Runs D.honest (Message.Power ∷ []))) }
        ensures same { IfOk result (λ r. (r.lines ≡ self.lines) × (r.responder.output ≡ self.responder.output) × (r.responder.gathered ≡ self.responder.gathered)) }
        ensures silent { OnOk result (W.written writer.new ≡ W.written writer.old) }
        ensures stops { IfErr result (λ f. (rest : List Message) → EndsEarly self.responder.powered.exec f (Message.Power ∷ rest)
            (held (W.written writer.old) (self.responder.output.items ++ self.responder.gathered.rest)) (held (W.written writer.new) [])) }
        ensures input { IfErr result (λ f. (f.cause ≢ RunCause.Read) × (f.cause ≢ RunCause.TooLong)) }
    {
        let Responder {
            powered,
            output,
            gathered,
        } = self.responder;
        match restart_device(self.alloc, powered) {
            Ok(powered) => Ok(RunState {
                responder: Responder {
                    powered,
                    output,
                    gathered,
                },
                ..self
            }),
            Err(fault) => Err(write_before(fault, output.as_slice(), &gathered, writer)),
        }
    }

    // Executes the lines that end in a piece of the input, and outputs their responses. At a fault the output before it
    // is written.
    fn execute_lines<W: Sink>(
        self,
        piece: &[u8],
        writer: &mut W,
    ) -> Result<RunState<D, A>, RunFault<D, A>>
        requires { self.responder.gathered ≡ nothing }
        // However the input continues: the messages due before this piece are those that end in it, which were executed, and
        // those due after it.
        ensures fed { IfOk result (λ r. (done : List Message)
            × ((input : List ℕ) → messages (self.lines.line.items ++ (piece.now ++ input)) ≡ done ++ messages (r.lines.line.items ++ input))
            × Answers done self.responder.powered.exec r.responder.powered.exec
            (held (W.written writer.old) (self.responder.output.items ++ self.responder.gathered.rest)) (held (W.written writer.new) (r.responder.output.items ++ r.responder.gathered.rest))) }
        ensures fresh { IfOk result (λ r. r.responder.gathered ≡ nothing) }
        ensures stopped { IfErr result (λ f. (input : List ℕ) → EndsEarly self.responder.powered.exec f (messages (self.lines.line.items ++ (piece.now ++ input)))
            (held (W.written writer.old) (self.responder.output.items ++ self.responder.gathered.rest)) (held (W.written writer.new) [])) }
        ensures input { IfErr result (λ f. (f.cause ≢ RunCause.Read) × (f.cause ≢ RunCause.TooLong)) }
    {
        let mut run = self;
        let mut rest = piece;
        while let Some(at) = memchr(b'\n', rest) {
            let line = match run.lines.ended(&rest[..at]) {
                Ok(line) => line,
                Err(sign) => return Err(run.end_early(RunCause::Memory(sign), writer)),
            };
            rest = &rest[at + 1..];
            if is_power(line) {
                run.lines.clear();
                run = run.restart(writer)?;
                continue;
            }
            match run.responder.answer_line(run.alloc, line, writer) {
                Ok(()) => run.lines.clear(),
                Err(cause) => return Err(run.end_early(cause, writer)),
            }
        }
        match run.lines.extend(rest) {
            Ok(()) => Ok(run),
            Err(sign) => Err(run.end_early(RunCause::Memory(sign), writer)),
        }
    }

    /// Executes the lines that end in a piece of the input, and writes their responses; at a fault, the output before it.
    pub fn answer<W: Sink>(
        self,
        piece: &[u8],
        writer: &mut W,
    ) -> Result<RunState<D, A>, RunFault<D, A>>
        requires none { self.responder.output.items ≡ [] }
        requires fresh { self.responder.gathered ≡ nothing }
        ensures fed { IfOk result (λ r. (done : List Message)
            × ((input : List ℕ) → messages (self.lines.line.items ++ (piece.now ++ input)) ≡ done ++ messages (r.lines.line.items ++ input))
            × Answers done self.responder.powered.exec r.responder.powered.exec
            (held (W.written writer.old) []) (held (W.written writer.new) [])) }
        ensures none { IfOk result (λ r. r.responder.output.items ≡ []) }
        ensures fresh { IfOk result (λ r. r.responder.gathered ≡ nothing) }
        ensures stopped { IfErr result (λ f. (input : List ℕ) → EndsEarly self.responder.powered.exec f (messages (self.lines.line.items ++ (piece.now ++ input)))
            (held (W.written writer.old) []) (held (W.written writer.new) [])) }
        // Neither a failed read nor the length of the input is the cause.
        ensures input { IfErr result (λ f. (f.cause ≢ RunCause.Read) × (f.cause ≢ RunCause.TooLong)) }
    {
        let mut run = self.execute_lines(piece, writer)?;
        let Ok(()) = put(writer, run.responder.output.as_slice()) else {
            return Err(run.fault(RunCause::Write));
        };
        run.responder.output.clear();
        Ok(run)
    }
}
