//! A transmission in execution.
ghost use Rattle.std.specs.Prelude.{◌≡◌, None, IfOk, IfErr, IfSome};
ghost use Rattle.psu_messages.specs.Relations.{IsAwaited};
ghost use Rattle.psu_messages.specs.Executions.{Advances, IsOver, StopsAt, beginning};
ghost use Rattle.psu_messages.specs.Units.{source_of};

use crate::cursor::SavedPlace;
use crate::messages::{execute_fault, execute_rest};
use crate::{Executor, Input, Need, Progress, ResponseBuffer};
use std::alloc::Allocator;
use std::marker::Model;

/// A transmission in execution: what is executed, and how far it is. Contracts see what it is and its progress. It
/// keeps a place up to which all units are done, so that a call passes over at most the units of the call before it.
#[derive(Drop)]
pub struct Transmission<A: Allocator + Copy, W: Copy> {
    input: Input<A>,
    // A place in its text up to which all units are done.
    place: SavedPlace<A>,
    progress: Progress<A, W>,
}

impl<A: Allocator + Copy, W: Copy> Model for Transmission<A, W> {
    ghost use Rattle.psu_messages.specs.Shown.{progress_of};
    ghost use Rattle.psu_messages.specs.Transmissions.{IsPlaced, Shown};
    ghost use Rattle.psu_messages.specs.Units.{source_of};

    ghost Value = { Shown };

    ghost view = { λ t. record { source = source_of t.input; progress = progress_of t.progress } };

    ghost invariant = { λ t. IsPlaced (source_of t.input) t.place t.progress.units };
}

impl<A: Allocator + Copy, W: Copy> Transmission<A, W> {
    /// Returns a transmission of which nothing is done. Its response buffer may be that of another one, whose allocation it
    /// takes over.
    pub fn new(alloc: A, input: Input<A>, buffer: ResponseBuffer<A>) -> Transmission<A, W>
        ensures source { result.source ≡ source_of input }
        ensures progress { result.progress ≡ beginning }
    {
        let size = input.size();
        Transmission {
            input,
            place: SavedPlace::start(alloc, size),
            progress: Progress::new(buffer),
        }
    }

    /// Ends the transmission, and returns its response buffer for another one.
    pub fn into_buffer(self) -> ResponseBuffer<A> {
        let progress = self.progress;
        progress.gathered
    }

    /// Returns what is executed.
    pub fn input(&self) -> &Input<A>
        ensures { source_of result.now ≡ self.now.source }
    {
        &self.input
    }

    /// Executes the rest of the transmission, up to a unit that has to wait or before which the executor yields. Returns
    /// what is waited for, or none if the transmission is over. Another call continues it, here or elsewhere. If the
    /// executor stops, it stops for good; responses that are not sent are left, except the response of a unit for which
    /// an allocation failed.
    pub fn proceed<F: Executor<A, Wait = W>>(
        &mut self,
        executor: &mut F,
        alloc: A,
    ) -> Result<Option<Need>, F::Stop>
        ensures source { self.new.source ≡ self.old.source }
        ensures advances { IfOk result (λ _. Advances F.relations.does self.old.source executor.old self.old.progress executor.new self.new.progress) }
        ensures over { IfOk result (λ need. need ≡ None → IsOver self.old.source self.new.progress) }
        ensures waits { IfOk result (λ some. IfSome some (IsAwaited F.relations executor.new)) }
        ensures stops { IfErr result (λ stop. StopsAt F.relations self.old.source executor.old self.old.progress stop executor.new self.new.progress.text) }
    {
        match &self.input {
            Input::Text(text) => {
                let need = execute_rest(
                    executor,
                    alloc,
                    text.as_slice(),
                    &mut self.place,
                    &mut self.progress,
                )?;
                Ok(need)
            }
            Input::Fault(error) => {
                let need = execute_fault(executor, *error, &mut self.progress)?;
                Ok(need)
            }
        }
    }
}
