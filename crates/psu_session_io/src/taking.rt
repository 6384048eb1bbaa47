//! The output of a session that threads share: what is to be written, by whom, and what is left to other threads.
ghost use Rattle.std.specs.Prelude.{◌≡◌, ◌≢◌, ◌↔◌, true, None, [], IsTrue, IfOk, OnErr};
ghost use Rattle.psu_session.specs.State.{HasWork, writes};
ghost use Rattle.psu_session_io.specs.Leaving.{EndsTaking, HasRoom, HasSent, HasSentAll, IsAwaited, IsForOthers, IsUnwritten, LeavesToOthers, MayBeNoted, Notes, Takes};
ghost use Rattle.psu_session_io.specs.Shared.{with_value};

use crate::linear::{Closing, Remainder};
use crate::{ConnectionSide, SharedSession};
use psu_hislip::Side;
use psu_messages::Need;
use psu_replies::CannotDrop;
use std::marker::PhantomData;

impl SharedSession {
    // ---- writes that are over

    // Notes that the write on a connection is over.
    fn end_write(&mut self, side: Side)
        requires { writes side self.old.state ≡ true }
        ensures noted { MayBeNoted side self.old.state self.new.state }
        ensures rest { self.new ≡ with_value self.old self.old.phase self.new.state }
    {
        self.session.written(side);
    }

    // Notes that the write on a connection is over, if it is.
    fn note_write(&mut self, side: Side)
        ensures noted { MayBeNoted side self.old.state self.new.state }
        ensures rest { self.new ≡ with_value self.old self.old.phase self.new.state }
    {
        if self.session.writes(side) && self.writes.is_complete(side) {
            self.end_write(side);
        }
    }

    /// Notes which writes are over.
    pub fn note_writes(&mut self)
        ensures { Notes self.old self.new }
    {
        self.note_write(Side::Sync);
        self.note_write(Side::Async);
    }

    // Whether the thread that writes on a connection, if there is one, is to continue the session after that: for output
    // there, to execute, or since the session ends once all is sent.
    fn is_awaited(&self, side: Side) -> bool
        ensures { IsTrue result ↔ IsAwaited side self.now.waits self.now.state }
    {
        self.session.has_failed()
            || self.session.has_output(side)
            || (side == Side::Sync && self.is_executable())
    }

    // Leaves the session to the thread that writes on a connection, if there is one and it is to continue it; or notes
    // that its write is over.
    fn leave_to_writer(&mut self, side: Side)
        ensures noted { MayBeNoted side self.old.state self.new.state }
        ensures rest { self.new ≡ with_value self.old self.old.phase self.new.state }
    {
        if self.session.writes(side) && self.is_awaited(side) && !self.writes.leave(side) {
            self.end_write(side);
        }
    }

    /// Leaves the session to the threads that write, where they are to continue it; or notes that their writes are over.
    pub(crate) fn leave_to_writers(&mut self)
        ensures { Notes self.old self.new }
    {
        self.leave_to_writer(Side::Sync);
        self.leave_to_writer(Side::Async);
    }

    // ---- what is left to others

    // Whether there are bytes to be sent on a connection, and no thread writes there.
    fn is_unwritten(&self, side: Side) -> bool
        ensures { IsTrue result ↔ IsUnwritten side self.now.state }
    {
        self.session.has_output(side) && !self.session.writes(side)
    }

    // Whether something is to be executed, and need not wait.
    fn is_executable(&self) -> bool
        ensures { IsTrue result ↔ ((self.now.waits ≡ None) × HasWork self.now.state) }
    {
        match self.waits {
            None => self.session.has_work(),
            Some(_) => false,
        }
    }

    // Whether a release waits.
    pub(crate) fn has_releases(&self) -> bool
        ensures { IsTrue result ↔ (self.now.state.releases ≢ []) }
    {
        self.session.next_due().is_some()
    }

    // Whether there is something for the threads of the other connection.
    fn is_for_others(&self, side: Side) -> bool
        ensures { IsTrue result ↔ IsForOthers side self.now.waits self.now.state }
    {
        match side {
            Side::Sync => self.is_unwritten(Side::Async),
            Side::Async => {
                self.is_unwritten(Side::Sync) || self.is_executable() || self.has_releases()
            }
        }
    }

    // Whether the reader of a connection, which may wait for room, waits and has room.
    fn has_room(&self, waits: bool, side: Side) -> bool
        ensures { IsTrue result ↔ HasRoom waits side self.now.state }
    {
        if !waits || self.session.is_full(side) {
            return false;
        }
        true
    }

    // Returns what is to be done once these bytes, if any, were taken.
    fn remainder<S: ConnectionSide>(
        &mut self,
        bytes: Option<Vec<u8>>,
        more: bool,
        duty: CannotDrop,
    ) -> Remainder<S>
        ensures leaves { LeavesToOthers S.SIDE more result self.old self.new }
        ensures bytes { result.bytes ≡ bytes }
    {
        let sync_room = self.has_room(self.sync_reader_waits, Side::Sync);
        let async_room = self.has_room(self.async_reader_waits, Side::Async);
        self.sync_reader_waits = self.sync_reader_waits && !sync_room;
        self.async_reader_waits = self.async_reader_waits && !async_room;
        Remainder {
            more: more || (bytes.is_some() && self.session.has_failed()),
            bytes,
            late: self.waits == Some(Need::Room),
            other: self.is_for_others(S::SIDE),
            sync_room,
            async_room,
            due: self.session.next_due(),
            duty,
            side: PhantomData,
        }
    }

    // Whether all output of a connection is written.
    fn has_sent(&self, side: Side) -> bool
        ensures { IsTrue result ↔ HasSent side self.now.state }
    {
        !self.session.has_output(side) && !self.session.writes(side)
    }

    // Whether the session has failed, and all its output is written.
    fn has_sent_all(&self) -> bool
        ensures { IsTrue result ↔ HasSentAll self.now.state }
    {
        self.session.has_failed() && self.has_sent(Side::Sync) && self.has_sent(Side::Async)
    }

    /// Takes what is to be written on a connection, if no thread writes there. Returns that, with what is left to the
    /// other threads.
    pub(crate) fn take<S: ConnectionSide>(
        &mut self,
        more: bool,
        duty: CannotDrop,
    ) -> Result<Remainder<S>, Closing>
        ensures takes { IfOk result (λ remainder. Takes S.SIDE more remainder self.old self.new) }
        ensures ended { OnErr result (EndsTaking self.old self.new) }
    {
        match self.session.take_output(S::SIDE) {
            Ok(Some(bytes)) => {
                self.writes.begin(S::SIDE);
                Ok(self.remainder(Some(bytes), more, duty))
            }
            Ok(None) if !self.has_sent_all() => Ok(self.remainder(None, more, duty)),
            Ok(None) => Err(self.end(duty)),
            Err(_) => Err(Closing { duty }),
        }
    }
}
