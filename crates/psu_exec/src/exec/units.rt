//! The execution of program message units, and the waits that they leave.
ghost use Rattle.std.specs.Prelude.{◌≡◌, ◌≢◌, [], ◌⊎◌, ◌↔◌, ◌<◌, ℕ, true, false, List, Some, None, is_none, IfErr, IfSome, IfNone, OnOk, OnErr};
ghost use Rattle.psu_exec.specs.Device.{Answer, AnswersCall, Error, Held, Later, MayMean, Reply, RunGives, after_meant, called, followed, here, is_denied, is_full, is_late, is_open, is_whole, meant, reads_nonvolatile, refused, wait_of, with_device};
ghost use Rattle.psu_exec.specs.Opc.{asks_opc};
ghost use Rattle.psu_exec.specs.declared.waits.Wait.TheVariants.{Until};
ghost use Rattle.psu_lex.specs.declared.scpi_error.ScpiError.{ScpiError as AnyError};
ghost use Rattle.psu_lex.specs.declared.scpi_error.ScpiError.TheVariants.{MediaFull, OutOfMemory};
ghost use Rattle.psu_exec.specs.Calls.{Allows, settle_answer, wait_settled};
ghost use Rattle.psu_exec.specs.Calls.Entry.{Executed, Settled};
ghost use Rattle.psu_exec.specs.Shown.{outcome_of};
ghost use Rattle.psu_instrument.specs.Commands.{meaning};
ghost use Rattle.psu_instrument.specs.Meaning.{Completes, Keeps, Meaning};
ghost use Rattle.psu_nv.specs.Commands as nv;
ghost use Rattle.psu_nv.specs.Contents.{fits};
ghost use Rattle.psu_nv.specs.Views.{command_of};
ghost use Rattle.psu_tree.specs.Nonvolatile.{is_nonvolatile};

use crate::rules::{completed, is_full, is_whole, parks};
use crate::{ExecOf, Idle, Outcome, Request, ScpiError, Session, Wait};
use psu_instrument::{Act, Completion};
use psu_nv::NvCommand;
use psu_tree::{Command, nonvolatile};
use std::alloc::Allocator;

impl<S: Idle, A: Allocator + Copy> ExecOf<S, A> {
    /// Executes one program message unit of a session; Later if the session isn't open.
    pub fn execute(&mut self, session: Session, request: &Request<'_>) -> Outcome<A>
        ensures step { Allows self.old.device (Executed session request.now (outcome_of result)) self.new.device }
        ensures idle_store { self.new.idle_store ≡ self.old.idle_store }

        // Consequences of the step: `*OPC?` is answered only if no change is unflushed; no response is empty; an
        // error is reported and changes nothing else but the RQS bits that follow from it; a unit with the outcome
        // Later changes nothing; the outcome for an open session is Held exactly if another session's lock denies it,
        // and then nothing changes.
        ensures complete { asks_opc request.now.reading ≡ true → (text : List ℕ) → outcome_of result ≡ Answer text → self.old.device.flush.unflushed ≡ 0 }
        ensures text { (text : List ℕ) → outcome_of result ≡ Answer text → text ≢ [] }
        ensures refused { (e : AnyError) → outcome_of result ≡ Error e → self.new.device ≡ followed self.old.device (refused self.old.device e) }
        ensures later { outcome_of result ≡ Later → self.new.device ≡ self.old.device }
        ensures held { is_open self.old.device session ≡ true → (outcome_of result ≡ Held) ↔ (is_denied self.old.device session ≡ true) }
        ensures same { outcome_of result ≡ Held → self.new.device ≡ self.old.device }

        // Consequences of the step: no session opens or closes, and no lock changes.
        ensures still_open { self.new.device.volatile.open_now ≡ self.old.device.volatile.open_now }
        ensures still_locked { self.new.device.volatile.locks ≡ self.old.device.volatile.locks }
    {
        // A field is named, so that the proof has the invariant of this state.
        let _ = &self.alloc;
        if !self.is_open(session) {
            return Outcome::Later;
        }
        if self.is_denied(session) {
            return Outcome::Held;
        }
        if self.is_late(session, self.reads_nonvolatile(request)) {
            return Outcome::Later;
        }
        let old = self.enabled();
        let outcome = self.answer(session, request);
        self.follow(old);
        // So that it has that of the new state.
        let _ = &self.alloc;
        outcome
    }

    // Executes a unit now: expands the macro that it calls, or acts by the meaning of its reading.
    fn answer(&mut self, session: Session, request: &Request<'_>) -> Outcome<A>
        requires late { is_late self.old.device.flush session (reads_nonvolatile request.now.reading (is_none self.old.device.flush.contents.enables)) ≡ false }
        ensures may { RunGives self.old.device session request.now (outcome_of result) }
        ensures is { self.new ≡ with_device self.old (after_meant self.old.device session (meant (here self.old.device session) request.now.reading) (outcome_of result)) }
    {
        if let Some(outcome) = self.expand(request) {
            return outcome;
        }
        self.act(session, request)
    }

    /// Returns the result of a session's wait: Done if it isn't parked, Parked only while a change is unflushed; Later
    /// if the session isn't open.
    pub fn settle(&mut self, session: Session) -> Outcome<A>
        ensures step { Allows self.old.device (Settled session (outcome_of result)) self.new.device }
        ensures idle_store { self.new.idle_store ≡ self.old.idle_store }

        // Consequences of the step: the session keeps waiting only while a change is unflushed; its wait ends with 1
        // only if no change before it is unflushed; no response is empty; and an error is reported.
        ensures parked { result ≡ Outcome.Parked → 0 < self.old.device.flush.unflushed }
        ensures complete { (text : List ℕ) → outcome_of result ≡ Answer text → (c : Completion) × (wait_of self.old.device.flush session ≡ Some (Until c 0)) }
        ensures text { (text : List ℕ) → outcome_of result ≡ Answer text → text ≢ [] }
        ensures refused { (e : AnyError) → outcome_of result ≡ Error e
            → self.new.device.volatile ≡ (followed self.old.device (refused self.old.device e)).volatile }
        ensures kept { self.new.device.flush.contents ≡ self.old.device.flush.contents }

        // Consequences of the step: no session opens or closes, and no lock changes.
        ensures still_open { self.new.device.volatile.open_now ≡ self.old.device.volatile.open_now }
        ensures still_locked { self.new.device.volatile.locks ≡ self.old.device.volatile.locks }
    {
        if !self.is_open(session) {
            return Outcome::Later;
        }
        let old = self.enabled();
        let outcome = self.end_wait(session);
        self.follow(old);
        outcome
    }

    // Returns the result of a session's wait, before the RQS bits are updated.
    fn end_wait(&mut self, session: Session) -> Outcome<A>
        ensures value { outcome_of result ≡ settle_answer (wait_of self.old.device.flush session) }
        ensures is { self.new ≡ with_device self.old (wait_settled self.old.device session (outcome_of result)) }
        ensures parked { result ≡ Outcome.Parked → 0 < self.old.device.flush.unflushed }
    {
        let place = session.place();
        match self.waits[place] {
            None => Outcome::Done,
            Some(Wait::CutOff) => {
                self.waits[place] = None;
                self.refuse(ScpiError::StorageFault)
            }
            Some(Wait::Until(completion, n)) => {
                if n != 0 {
                    return Outcome::Parked;
                }
                self.waits[place] = None;
                completed(self.alloc, completion)
            }
        }
    }

    // Returns the outcome of a unit that calls a macro; none if it calls none, and then nothing has changed.
    fn expand(&mut self, request: &Request<'_>) -> Option<Outcome<A>>
        ensures none { IfNone result ((called self.old.device request.now ≡ None) × (self.new ≡ self.old)) }
        ensures some { IfSome result (λ o. (body : List ℕ) × (called self.old.device request.now ≡ Some body) × AnswersCall request.now body (outcome_of o)) }
        ensures is { IfSome result (λ o. (session : ℕ) → (m : Meaning) → self.new ≡ with_device self.old (after_meant self.old.device session m (outcome_of o))) }
    {
        match self
            .instrument
            .expansion(self.alloc, &self.contents, request)
        {
            None => None,
            Some(Ok(text)) => Some(Outcome::Expand(text)),
            Some(Err(error)) => Some(self.refuse(error)),
        }
    }

    // Whether the unit reads as a command that changes what is nonvolatile.
    fn reads_nonvolatile(&self, request: &Request<'_>) -> bool
        ensures { result ≡ reads_nonvolatile request.now.reading (is_none self.now.device.flush.contents.enables) }
    {
        match &request.reading {
            Ok(command) => nonvolatile(command, self.contents.enables().is_none()),
            Err(_) => false,
        }
    }

    // Executes a unit that calls no macro and is not late, by the meaning of its reading.
    fn act(&mut self, session: Session, request: &Request<'_>) -> Outcome<A>
        requires late { is_late self.old.device.flush session (reads_nonvolatile request.now.reading (is_none self.old.device.flush.contents.enables)) ≡ false }
        ensures may { MayMean self.old.device.flush (meant (here self.old.device session) request.now.reading) (outcome_of result) }
        ensures is { self.new ≡ with_device self.old (after_meant self.old.device session (meant (here self.old.device session) request.now.reading) (outcome_of result)) }
    {
        match &request.reading {
            Ok(command) => self.perform(session, command),
            Err(error) => self.refuse(*error),
        }
    }

    // Whether the session's unit is executed later.
    fn is_late(&self, session: Session, nonvolatile: bool) -> bool
        ensures { result ≡ is_late self.now.device.flush session nonvolatile }
    {
        self.waits[session.place()].is_some()
            || (is_full(self.store, self.unflushed) && nonvolatile)
    }

    // Executes a command that is not late.
    fn perform(&mut self, session: Session, command: &Command<'_>) -> Outcome<A>
        requires late { is_late self.old.device.flush session (is_nonvolatile command.now (is_none self.old.device.flush.contents.enables)) ≡ false }
        ensures may { MayMean self.old.device.flush (meaning (here self.old.device session) command.now) (outcome_of result) }
        ensures is { self.new ≡ with_device self.old (after_meant self.old.device session (meaning (here self.old.device session) command.now) (outcome_of result)) }
    {
        let available = self.service_states[session.place()].available;
        match self
            .instrument
            .act(self.alloc, self.limit, &self.contents, available, command)
        {
            Err(error) => self.refuse(error),
            Ok(Act::Done) => Outcome::Done,
            Ok(Act::Answer(text)) => Outcome::Answer(text),
            Ok(Act::Keep(change)) => self.accept(&change),
            Ok(Act::Complete(completion)) => self.complete(session, completion),
        }
    }

    // Accepts or refuses a change of the nonvolatile contents: by the lookup of its names and labels, then by the
    // store, then by its cost.
    fn accept(&mut self, change: &NvCommand<'_>) -> Outcome<A>
        requires room { is_full self.old.device.flush ≡ false }
        ensures may { MayMean self.old.device.flush (Keeps (command_of change.now)) (outcome_of result) }
        ensures is { (session : ℕ) → self.new ≡ with_device self.old (after_meant self.old.device session (Keeps (command_of change.now)) (outcome_of result)) }
    {
        if let Some(error) = self.contents.refusal(change) {
            return self.refuse(error);
        }
        if !is_whole(self.store) {
            return self.refuse(ScpiError::StorageFault);
        }
        match self.note(change) {
            Ok(()) => Outcome::Done,
            Err(error) => self.refuse(error),
        }
    }

    // Makes a change of the nonvolatile contents, and counts it.
    fn note(&mut self, change: &NvCommand<'_>) -> Result<(), ScpiError>
        requires room { self.old.device.flush.unflushed < 1024 }
        requires found { nv.refused self.old.device.flush.contents (command_of change.now) ≡ None }
        ensures ok { OnOk result (self.new ≡ with_device self.old (after_meant self.old.device 0 (Keeps (command_of change.now)) Reply.Done)) }
        ensures fitting { OnOk result (fits self.old.device.flush.limit (nv.apply self.old.device.flush.contents (command_of change.now)) ≡ true) }
        ensures err { OnErr result (self.new ≡ self.old) }
        ensures full { IfErr result (λ e. ((e ≡ OutOfMemory)
            × (fits self.old.device.flush.limit (nv.apply self.old.device.flush.contents (command_of change.now)) ≡ true))
            ⊎ ((e ≡ MediaFull) × (fits self.old.device.flush.limit
            (nv.apply self.old.device.flush.contents (command_of change.now)) ≡ false))) }
        ensures memory { IfErr result (λ e. e ≡ OutOfMemory → nv.takes_memory (command_of change.now) ≡ true) }
    {
        self.contents.change_if_it_fits(self.limit, change)?;
        self.touched.add(change);
        self.unflushed += 1;
        self.instrument.keep(change);
        Ok(())
    }

    // Executes `*OPC?`, `*WAI` or `*OPC`.
    fn complete(&mut self, session: Session, completion: Completion) -> Outcome<A>
        ensures may { MayMean self.old.device.flush (Completes completion) (outcome_of result) }
        ensures is { self.new ≡ with_device self.old (after_meant self.old.device session (Completes completion) (outcome_of result)) }
    {
        if !is_whole(self.store) {
            return self.refuse(ScpiError::StorageFault);
        }
        if !parks(completion) {
            self.instrument.pend(self.unflushed);
            return Outcome::Done;
        }
        if self.unflushed != 0 {
            self.waits[session.place()] = Some(Wait::Until(completion, self.unflushed));
            return Outcome::Parked;
        }
        completed(self.alloc, completion)
    }

    // Refuses a unit: reports the error.
    fn refuse(&mut self, error: ScpiError) -> Outcome<A>
        ensures value { result ≡ Outcome.Error error }
        ensures state { self.new ≡ with_device self.old (refused self.old.device error) }
    {
        self.instrument.refuse(error);
        Outcome::Error(error)
    }
}
