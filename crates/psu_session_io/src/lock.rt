//! The lock of a session.
ghost use Rattle.std.specs.Prelude.{◌≡◌, ℕ, IfErr};
ghost use Rattle.psu_session_io.specs.Leaving.{IsAfter, IsAfterWrite};

use crate::linear::{AfterWrite, Closing, Disconnected, NextTask, Pending, Written};
use crate::writes::Writes;
use crate::{ConnectionSide, Token};
use psu_hislip::Side;
use psu_locks::Session;
use psu_replies::CannotDrop;
use std::alloc::AllocError;
use std::sync::{Arc, Mutex, MutexGuard, Wait};

/// What lies under the lock of a session: the session, and what its threads call the device by.
pub trait Locked {
    ghost use Rattle.psu_session.specs.Phases.{disconnected};
    ghost use Rattle.psu_session_io.specs.Leaving.{Notes};
    ghost use Rattle.psu_session_io.specs.Shared.{Shared, with_phase};

    /// The number of the session.
    ghost number: { Self → ℕ };

    /// The session.
    ghost shared: { Self → Shared };

    /// Returns the number of the session.
    fn number(&self) -> Session
        ensures { result ≡ number self.now };

    /// Returns which writes are over, as the lock and the session share it.
    fn writes(&self) -> Result<Arc<Writes>, AllocError>;

    /// Notes which writes are over.
    fn note_writes(&mut self)
        ensures noted { Notes (shared self.old) (shared self.new) }
        ensures number { number self.new ≡ number self.old };

    /// Notes that a connection has ended.
    fn disconnect(&mut self, connection: Disconnected) -> Closing
        ensures disconnected { shared self.new ≡ with_phase (shared self.old) (disconnected (shared self.old).phase) }
        ensures number { number self.new ≡ number self.old };
}

/// The lock of a session. Where another lock is taken too, this is the first.
#[derive(Drop)]
pub struct SessionLock<V> {
    session: Mutex<V>,
    writes: Arc<Writes>,
}

impl<V: Locked + Drop> SessionLock<V> {
    /// Returns the lock of a session that no thread serves yet; the session where memory is refused.
    pub fn new(session: V) -> Result<SessionLock<V>, V>
        ensures refused { IfErr result (λ refused. refused ≡ session) }
    {
        let Ok(writes) = session.writes() else {
            return Err(session);
        };
        Ok(SessionLock {
            session: Mutex::new(session),
            writes,
        })
    }

    /// Waits until no other thread holds the session, and holds it. It knows then which writes are over.
    pub fn lock<'t, R: Wait, S>(&'t self, rt: &R, token: &'t mut Token<S>) -> MutexGuard<'t, V> {
        let _ = token;
        let mut session = self.session.lock(rt);
        session.note_writes();
        session
    }

    /// Waits until no other thread holds the session, and holds it, to close it.
    pub fn lock_to_close<R: Wait>(&self, rt: &R) -> MutexGuard<'_, V> {
        self.session.lock(rt)
    }

    /// Notes the result of a write. Bytes that are written are reported to the session without its lock, and the thread
    /// continues the session only where it has to, or another thread waits for the end of the write. A connection that
    /// has ended ends the session.
    #[inline(always)]
    pub fn note_write<R: Wait, S: ConnectionSide>(
        &self,
        rt: &R,
        token: &mut Token<S>,
        write: Result<Written<S>, Disconnected>,
    ) -> Result<NextTask<S>, Closing>
        ensures { IsAfter write result }
    {
        let _ = token;
        match write {
            Ok(written) => Ok(self.end_write(written)),
            Err(disconnected) => {
                let mut session = self.session.lock(rt);
                Err(session.disconnect(disconnected))
            }
        }
    }

    // Whether a thread writes on a connection, or is about to.
    pub(crate) fn is_writing(&self, side: Side) -> bool {
        !self.writes.is_complete(side)
    }

    // Ends a write. Returns what its thread does then.
    #[inline(always)]
    fn end_write<S: ConnectionSide>(&self, written: Written<S>) -> NextTask<S>
        ensures { IsAfterWrite written.after result }
    {
        let Written {
            sent: _,
            after,
            duty,
            side,
        } = written;
        let AfterWrite { more, again, due } = after;
        let awaited = self.writes.end(S::SIDE);
        if more || awaited {
            return NextTask::Continue(Pending { again, duty, side });
        }
        duty.end();
        NextTask::Wait(due)
    }

    // Ends the session.
    pub(crate) fn abandon<R: Wait>(&self, rt: &R) -> Closing {
        let mut session = self.session.lock(rt);
        session.disconnect(Disconnected {
            duty: CannotDrop::begin(),
        })
    }
}
