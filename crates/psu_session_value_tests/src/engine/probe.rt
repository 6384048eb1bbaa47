//! The executor of the rows.
use crate::engine::devices::Power;
use crate::engine::log::{Log, Turn};
use psu_exec::{Outcome, Request, Session};
use psu_messages::{Executor, MemoryRefused, Need, Tried};
use std::alloc::Global;

/// The executor has stopped permanently.
#[derive(Drop)]
pub(crate) struct Stopped;

/// A device with its session, and a log of the calls.
#[derive(Drop)]
pub(crate) struct Probe<'a> {
    pub(crate) exec: &'a mut Power,
    pub(crate) session: Session,
    pub(crate) log: &'a mut Log,
}

impl<'a> Executor<Global> for Probe<'a> {
    type Stop = Stopped;

    // The session whose unit waits.
    type Wait = Session;

    ghost relations = { record { does = λ _ _ _. Unit {0}; fails = λ _ _ _ _. Unit {0}; stops = λ _ _ _. Unit {0}; yields = λ _. ⊥ } };

    // It never yields.
    fn may_continue(&self) -> bool {
        true
    }

    fn try_unit(
        &mut self,
        request: &Request<'_>,
        parked: &Option<Session>,
    ) -> Result<Tried<Global, Session>, Stopped> {
        let outcome = match parked {
            None => self.first_try(request)?,
            Some(session) => self.next_try(*session)?,
        };
        Ok(Tried::of(outcome, self.session))
    }

    fn send(&mut self, text: &[u8], is_last: bool) -> Result<(), Stopped> {
        if self.log.turn() == Turn::Ends {
            return Err(Stopped);
        }
        self.log.send(text, is_last).ok_or(Stopped)
    }

    fn out_of_memory(&self, _: MemoryRefused) -> Stopped {
        Stopped
    }
}

impl<'a> Probe<'a> {
    // Executes a unit, as the log's turn says.
    fn first_try(&mut self, request: &Request<'_>) -> Result<Outcome<Global>, Stopped> {
        match self.log.turn() {
            Turn::Continues => self.executed(request),
            Turn::Ends => Err(Stopped),
            Turn::Held => Ok(self.put_off(Need::Lock, Outcome::Held)),
            Turn::Later => Ok(self.put_off(Need::Room, Outcome::Later)),
        }
    }

    // Settles the wait of a unit that was accepted, as the log's turn says.
    fn next_try(&mut self, session: Session) -> Result<Outcome<Global>, Stopped> {
        match self.log.turn() {
            Turn::Continues => self.settled(session),
            Turn::Ends => Err(Stopped),
            Turn::Held | Turn::Later => Ok(self.put_off(Need::Flush, Outcome::Parked)),
        }
    }

    // Puts the unit off, which has to wait for this.
    fn put_off(&mut self, need: Need, outcome: Outcome<Global>) -> Outcome<Global> {
        self.log.need = need;
        outcome
    }

    // Executes a unit on the device.
    fn executed(&mut self, request: &Request<'_>) -> Result<Outcome<Global>, Stopped> {
        if self.exec.is_open(self.session) {
            Ok(self.exec.execute(self.session, request))
        } else {
            Err(Stopped)
        }
    }

    // Settles the wait of a session on the device.
    fn settled(&mut self, session: Session) -> Result<Outcome<Global>, Stopped> {
        if self.exec.is_open(session) {
            Ok(self.exec.settle(session))
        } else {
            Err(Stopped)
        }
    }
}
