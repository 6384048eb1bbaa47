//! Locks between sessions.
ghost use Rattle.std.specs.Prelude.{◌≡◌, IfSome};
ghost use Rattle.psu_exec.specs.Device.{is_denied};
ghost use Rattle.psu_exec.specs.Calls.{Allows};
ghost use Rattle.psu_exec.specs.Calls.Entry.{Locked, Released, Ticked, Informed, Due};
ghost use Rattle.psu_locks.specs.Table.{FailsFirst, IsSettled};

use crate::{ExecOf, Freed, Grant, Idle, Info, Kind, LockRefusal, Session, Sessions};
use std::alloc::Allocator;

impl<S: Idle, A: Allocator + Copy> ExecOf<S, A> {
    /// Whether another session's lock denies a session.
    pub(crate) fn is_denied(&self, session: Session) -> bool
        ensures { result ≡ is_denied self.now.device session }
    {
        !self.locks.may_command(session)
    }

    /// Requests a lock for a session. `now` and `timeout` are in milliseconds. A request that can't be granted now waits
    /// for the timeout; with a timeout of 0 it fails at once, and so does one of a session that isn't open.
    pub fn lock(
        &mut self,
        session: Session,
        kind: Kind,
        now: u64,
        timeout: u32,
    ) -> Result<Grant, LockRefusal>
        ensures step { Allows self.old.device (Locked session kind now timeout result) self.new.device }
        ensures idle_store { self.new.idle_store ≡ self.old.idle_store }
    {
        if !self.is_open(session) {
            return Ok(Grant::Failed);
        }
        self.locks.request(session, kind, now, timeout)
    }

    /// Releases the exclusive lock of a session, or else its shared one. Returns which, and the sessions whose requests
    /// were then granted, in order of arrival. A session that isn't open holds none.
    pub fn release(&mut self, session: Session) -> Result<(Freed, Sessions), LockRefusal>
        ensures step { Allows self.old.device (Released session result) self.new.device }
        ensures idle_store { self.new.idle_store ≡ self.old.idle_store }
    {
        if !self.is_open(session) {
            return Err(LockRefusal::NotHeld);
        }
        self.locks.release(session)
    }

    /// Fails the lock requests whose timeout has expired, and returns their sessions, in order of arrival.
    pub fn tick(&mut self, now: u64) -> Sessions
        ensures step { Allows self.old.device (Ticked now result) self.new.device }
        ensures idle_store { self.new.idle_store ≡ self.old.idle_store }
    {
        self.locks.tick(now)
    }

    /// Returns whether the exclusive lock is held, and how many sessions hold a lock.
    pub fn inform(&self) -> Info
        ensures { Allows self.now.device (Informed result) self.now.device }
    {
        self.locks.info()
    }

    /// The earliest time at which a waiting lock request fails, if one waits.
    pub fn next_deadline(&self) -> Option<u128>
        ensures step { Allows self.now.device (Due result) self.now.device }
        ensures first { IfSome result (λ deadline. FailsFirst self.now.device.volatile.locks.waiting deadline) }

        // An invariant of the locks: no waiting request can be granted, and each session has at most one.
        ensures settled { IsSettled self.now.device.volatile.locks }
    {
        self.locks.next_deadline()
    }
}
