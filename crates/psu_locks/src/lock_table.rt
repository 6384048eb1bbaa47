//! The lock table: the lock holders, and the waiting requests in order of arrival.
ghost use Rattle.std.specs.Prelude.{◌≡◌, ◌≤◌, max, Some, None, IfOk, IfErr, IfSome, []};
ghost use Rattle.psu_locks.specs.Locks.{Locks, no_locks, may_command, info_of, request_refusal, grant_of, after_grant, at_moment, waits, holders_after, kept, granted, looked_through, freed_of, without, without_session, of_others, failed_at, still_waiting};
ghost use Rattle.psu_locks.specs.Table.{CommandsAlone, FailsFirst, IsSettled, next_deadline};
ghost use Rattle.psu_locks.specs.declared.results.LockRefusal.TheVariants.{NotHeld};

use crate::holders::Holders;
use crate::requests::LockRequest;
use crate::{Freed, Grant, Info, Kind, LockRefusal, LockString, SESSIONS, Session, Sessions};
use arrayvec::ArrayVec;
use std::marker::Model;

/// The locks of an instrument with sixteen sessions. No call allocates. A time is a number of milliseconds from any
/// start; a time before the latest one passed so far counts as the latest.
#[derive(Drop)]
pub struct LockTable {
    holders: Holders,
    waiting: ArrayVec<LockRequest, SESSIONS>,
    latest: u64,
}

impl Model for LockTable {
    ghost use Rattle.psu_locks.specs.Locks.{Locks};

    ghost Value = { Locks };

    ghost use Rattle.psu_locks.specs.Table.{IsSettled};

    ghost view = { λ t. record { holders = t.holders; waiting = t.waiting.items; latest = t.latest } };

    ghost invariant = { λ t. IsSettled (record { holders = t.holders; waiting = t.waiting.items; latest = t.latest }) };
}

impl LockTable {
    /// Returns a table in which no lock is held and no request waits.
    pub fn new() -> LockTable
        ensures locks { result ≡ no_locks [] }
        ensures settled { IsSettled result }
    {
        LockTable {
            holders: Holders {
                exclusive: None,
                string: LockString::empty(),
                sharers: [false; SESSIONS],
            },
            waiting: ArrayVec::new(),
            latest: 0,
        }
    }

    /// Whether a session may execute commands. With no lock held every session may; while an exclusive lock is held
    /// only its holder may; otherwise those that share the string.
    pub fn may_command(&self, session: Session) -> bool
        ensures value { result ≡ may_command self.now.holders session }
        ensures alone { CommandsAlone self.now.holders session }
    {
        self.holders.may_command(session)
    }

    /// Returns whether the exclusive lock is held, and how many sessions hold a lock.
    pub fn info(&self) -> Info
        ensures { result ≡ info_of self.now.holders }
    {
        self.holders.info()
    }

    /// Returns the time at which the next waiting request fails, if one waits: the least of the deadlines.
    pub fn next_deadline(&self) -> Option<u128>
        ensures deadline { result ≡ next_deadline self.now.waiting }
        ensures first { IfSome result (λ deadline. FailsFirst self.now.waiting deadline) }
        ensures settled { IsSettled self.now }
    {
        next_deadline(&self.waiting)
    }

    /// Requests a lock. A request that can't be granted now waits for `timeout` milliseconds, and with a timeout of 0
    /// fails at once.
    ///
    /// A session that already holds this kind of lock is refused with `AlreadyHeld`, even while a request of it waits.
    pub fn request(
        &mut self,
        session: Session,
        kind: Kind,
        now: u64,
        timeout: u32,
    ) -> Result<Grant, LockRefusal>
        ensures grant { IfOk result (λ grant. (request_refusal self.old session kind ≡ None)
            × (grant ≡ grant_of self.old session kind timeout)
            × (self.new ≡ after_grant (at_moment self.old now) session kind timeout grant)) }
        ensures refused { IfErr result (λ refusal. (request_refusal self.old session kind ≡ Some refusal) × (self.new ≡ self.old)) }
        ensures settled { IsSettled self.new }
    {
        if self.holders.holds_kind(session, &kind) {
            return Err(LockRefusal::AlreadyHeld);
        }
        if waits(&self.waiting, session) {
            return Err(LockRefusal::Waiting);
        }
        self.latest = self.latest.max(now);
        if self.holders.can_grant(session, &kind) {
            self.holders.put(session, kind);
            return Ok(Grant::Granted);
        }
        if timeout == 0 {
            return Ok(Grant::Failed);
        }
        let deadline = self.latest as u128 + timeout as u128;
        self.waiting.push(LockRequest {
            session,
            kind,
            deadline,
        });
        Ok(Grant::Queued)
    }

    /// Releases a session's exclusive lock, or else its shared one; returns which, and the sessions whose waiting
    /// requests were granted as a result, in order of arrival.
    pub fn release(&mut self, session: Session) -> Result<(Freed, Sessions), LockRefusal>
        ensures freed { IfOk result (λ r. (freed_of self.old.holders session ≡ Some r.0)
            × (r.1 ≡ granted (without self.old.holders session r.0) self.old.waiting)
            × (self.new ≡ looked_through self.old (without self.old.holders session r.0) self.old.waiting)) }
        ensures refused { IfErr result (λ refusal. (refusal ≡ NotHeld) × (freed_of self.old.holders session ≡ None) × (self.new ≡ self.old)) }
        ensures settled { IsSettled self.new }
    {
        let Some(freed) = self.holders.freed(session) else {
            return Err(LockRefusal::NotHeld);
        };
        self.holders.remove(session, freed);
        let sessions = look_through(&mut self.holders, &mut self.waiting);
        Ok((freed, sessions))
    }

    /// Ends a session, removing its locks and its request. Returns the sessions whose requests were granted as a
    /// result, in order of arrival.
    pub fn drop_session(&mut self, session: Session) -> Sessions
        ensures granted { result ≡ granted (without_session self.old.holders session) (of_others session self.old.waiting) }
        ensures left { self.new ≡ looked_through self.old (without_session self.old.holders session) (of_others session self.old.waiting) }
        ensures settled { IsSettled self.new }
    {
        self.holders.remove_all(session);
        keep_others(&mut self.waiting, session);
        look_through(&mut self.holders, &mut self.waiting)
    }

    /// Fails the requests whose deadlines are reached, and returns their sessions, in order of arrival.
    pub fn tick(&mut self, now: u64) -> Sessions
        ensures failed { result ≡ failed_at (max self.old.latest now) self.old.waiting }
        ensures left { self.new ≡ record (at_moment self.old now) { waiting = still_waiting (max self.old.latest now) self.old.waiting } }
        ensures settled { IsSettled self.new }
    {
        self.latest = self.latest.max(now);
        fail_at(&mut self.waiting, self.latest as u128)
    }
}

fn waits(waiting: &[LockRequest], session: Session) -> bool
    ensures value { result ≡ waits waiting.now session }
    ensures in_range { (1 ≤ session) × (session ≤ 16) }
{
    let number = session.number();
    waiting
        .iter()
        .any(|request| request.session.number() == number)
}

// Returns the least of the deadlines.
fn next_deadline(waiting: &[LockRequest]) -> Option<u128>
    ensures { result ≡ next_deadline waiting.now }
{
    waiting.iter().map(|request| request.deadline).min()
}

// Removes the request of a session.
fn keep_others(waiting: &mut ArrayVec<LockRequest, SESSIONS>, session: Session)
    ensures { waiting.new.items ≡ of_others session waiting.old.items }
{
    waiting.retain(|request| request.session.number() != session.number());
}

// Goes through the waiting requests in order of arrival, grants each that can be granted, and returns the sessions of
// those.
fn look_through(holders: &mut Holders, waiting: &mut ArrayVec<LockRequest, SESSIONS>) -> Sessions
    ensures holders { holders.new ≡ holders_after holders.old waiting.old.items }
    ensures kept { waiting.new.items ≡ kept holders.old waiting.old.items }
    ensures granted { result ≡ granted holders.old waiting.old.items }
{
    let mut sessions = Sessions::new();
    let mut at = 0;
    let count = waiting.len();
    for turn in 0..count {
        let request = &waiting[at];
        if holders.can_grant(request.session, &request.kind) {
            let request = waiting.remove(at);
            sessions.push(request.session);
            holders.put(request.session, request.kind);
            continue;
        }
        at += 1;
    }
    sessions
}

// Removes the requests whose deadlines are reached, and returns their sessions.
fn fail_at(waiting: &mut ArrayVec<LockRequest, SESSIONS>, now: u128) -> Sessions
    ensures failed { result ≡ failed_at now waiting.old.items }
    ensures kept { waiting.new.items ≡ still_waiting now waiting.old.items }
{
    let mut sessions = Sessions::new();
    for request in waiting.as_slice() {
        if request.deadline <= now {
            sessions.push(request.session);
        }
    }
    waiting.retain(|request| now < request.deadline);
    sessions
}
