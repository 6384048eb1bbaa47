//! The operations of the device, each with what it does.
ghost use Rattle.std.specs.Prelude.{refl};
ghost use Rattle.std.specs.Result.{result_ok};
ghost use Rattle.psu_exec.specs.Calls.Entry.{Took, GaveBack, Opened, Closed, Cleared, Sent, Delivered, Queried, Fetched, Notified, Locked, Released, Ticked, Informed, Due};
ghost use Rattle.psu_exec.specs.Shown.{outcome_of, over_of};
ghost use Rattle.psu_exec.specs.Jobs.{finished_of, taken_of};
ghost use Rattle.psu_bench.specs.Tries.{tried};

use crate::machine::{Operation, QuietOperation};
use psu_disk::Disk;
use psu_exec::{
    Crowded, Exec, Finished, Freed, Grant, Info, Job, Kind, LockRefusal, NoJob, Notifications,
    Outcome, Request, Session, Sessions, Stranger,
};
use std::alloc::Allocator;

/// How a unit of a session is tried.
#[derive(Drop)]
pub enum Try<'r, 't> {
    /// The unit is executed.
    Execute(&'r Request<'t>),
    /// The unit waits, and the result of its wait is asked for.
    Settle,
}

/// Tries a unit of a session: executes it, or returns the result of its wait; Later if the session isn't open.
#[derive(Drop)]
pub struct TryUnit<'r, 't>(pub Session, pub Try<'r, 't>);

impl<'r, 't, D: Disk, A: Allocator + Copy> Operation<D, A> for TryUnit<'r, 't> {
    type Reply = Outcome<A>;

    ghost entry = { λ o reply. tried o.0 o.1 (outcome_of reply) };

    fn perform(self, exec: &mut Exec<D, A>) -> Outcome<A> {
        match self.1 {
            Try::Execute(request) => exec.execute(self.0, request),
            Try::Settle => exec.settle(self.0),
        }
    }
}

/// Takes a job.
#[derive(Drop)]
pub struct Take;

impl<D: Disk, A: Allocator + Copy> Operation<D, A> for Take {
    type Reply = Result<Job<D, A>, NoJob>;

    ghost entry = { λ _ reply. Took (taken_of reply) };

    fn perform(self, exec: &mut Exec<D, A>) -> Result<Job<D, A>, NoJob> {
        exec.take()
    }
}

/// Gives back a finished job.
pub struct GiveBack<D: Disk, A: Allocator + Copy>(pub Finished<D, A>);

impl<D: Disk, A: Allocator + Copy> Operation<D, A> for GiveBack<D, A> {
    type Reply = Result<Sessions, Stranger<D, A>>;

    ghost entry = { λ o reply. GaveBack (finished_of o.0.end) (over_of reply) };

    fn perform(self, exec: &mut Exec<D, A>) -> Result<Sessions, Stranger<D, A>> {
        let GiveBack(finished) = self;
        exec.give_back(finished)
    }
}

/// Opens a session under the least free number.
#[derive(Drop)]
pub struct OpenSession;

impl<D: Disk, A: Allocator + Copy> Operation<D, A> for OpenSession {
    type Reply = Result<Session, Crowded>;

    ghost entry = { λ _ reply. Opened (result_ok reply) };

    fn perform(self, exec: &mut Exec<D, A>) -> Result<Session, Crowded> {
        exec.open_session()
    }
}

/// Closes a session if it is open. Returns the sessions whose lock requests were then granted.
#[derive(Drop)]
pub struct CloseSession(pub Session);

impl<D: Disk, A: Allocator + Copy> Operation<D, A> for CloseSession {
    type Reply = Sessions;

    ghost entry = { λ o reply. Closed o.0 reply };

    fn perform(self, exec: &mut Exec<D, A>) -> Sessions {
        exec.close_session(self.0)
    }
}

/// Drops the wait of a session if it is open.
#[derive(Drop)]
pub struct Clear(pub Session);

impl<D: Disk, A: Allocator + Copy> Operation<D, A> for Clear {
    type Reply = ();

    ghost entry = { λ o _. Cleared o.0 };

    fn perform(self, exec: &mut Exec<D, A>) {
        exec.clear(self.0);
    }
}

/// If a session is open, records that a response was sent to it. Returns the notifications after that.
#[derive(Drop)]
pub struct MarkSent(pub Session);

impl<D: Disk, A: Allocator + Copy> Operation<D, A> for MarkSent {
    type Reply = Notifications;

    ghost entry = { λ o reply. Sent o.0 reply.requesting reply.has_work };

    fn perform(self, exec: &mut Exec<D, A>) -> Notifications {
        exec.mark_sent(self.0)
    }
}

/// If a session is open, records that what was sent to it is delivered.
#[derive(Drop)]
pub struct MarkDelivered(pub Session);

impl<D: Disk, A: Allocator + Copy> Operation<D, A> for MarkDelivered {
    type Reply = ();

    ghost entry = { λ o _. Delivered o.0 };

    fn perform(self, exec: &mut Exec<D, A>) {
        exec.mark_delivered(self.0);
    }
}

/// Returns the response to a status query; 0 if the session isn't open.
#[derive(Drop)]
pub struct Query(pub Session);

impl<D: Disk, A: Allocator + Copy> Operation<D, A> for Query {
    type Reply = u8;

    ghost entry = { λ o reply. Queried o.0 reply };

    fn perform(self, exec: &mut Exec<D, A>) -> u8 {
        exec.query(self.0)
    }
}

/// Fetches the service request of a session; none if it isn't open.
#[derive(Drop)]
pub struct Fetch(pub Session);

impl<D: Disk, A: Allocator + Copy> Operation<D, A> for Fetch {
    type Reply = Option<u8>;

    ghost entry = { λ o reply. Fetched o.0 reply };

    fn perform(self, exec: &mut Exec<D, A>) -> Option<u8> {
        exec.fetch(self.0)
    }
}

/// Returns the sessions that have requested service since the last such call, and whether a take would return a job.
#[derive(Drop)]
pub struct Notify;

impl<D: Disk, A: Allocator + Copy> Operation<D, A> for Notify {
    type Reply = Notifications;

    ghost entry = { λ _ reply. Notified reply.requesting reply.has_work };

    fn perform(self, exec: &mut Exec<D, A>) -> Notifications {
        exec.take_notifications()
    }
}

/// Requests a lock for a session. `now` and `timeout` are in milliseconds. `Failed` if the session isn't open.
#[derive(Drop)]
pub struct Lock {
    pub session: Session,
    pub kind: Kind,
    pub now: u64,
    pub timeout: u32,
}

impl<D: Disk, A: Allocator + Copy> Operation<D, A> for Lock {
    type Reply = Result<Grant, LockRefusal>;

    ghost entry = { λ o reply. Locked o.session o.kind o.now o.timeout reply };

    fn perform(self, exec: &mut Exec<D, A>) -> Result<Grant, LockRefusal> {
        exec.lock(self.session, self.kind, self.now, self.timeout)
    }
}

/// Releases a lock of a session, and returns the sessions whose lock requests were then granted. A session that isn't
/// open holds none.
#[derive(Drop)]
pub struct Release(pub Session);

impl<D: Disk, A: Allocator + Copy> Operation<D, A> for Release {
    type Reply = Result<(Freed, Sessions), LockRefusal>;

    ghost entry = { λ o reply. Released o.0 reply };

    fn perform(self, exec: &mut Exec<D, A>) -> Result<(Freed, Sessions), LockRefusal> {
        exec.release(self.0)
    }
}

/// Fails the lock requests whose timeout has expired, and returns their sessions.
#[derive(Drop)]
pub struct Tick(pub u64);

impl<D: Disk, A: Allocator + Copy> Operation<D, A> for Tick {
    type Reply = Sessions;

    ghost entry = { λ o reply. Ticked o.0 reply };

    fn perform(self, exec: &mut Exec<D, A>) -> Sessions {
        exec.tick(self.0)
    }
}

/// Returns whether the exclusive lock is held, and how many sessions hold a lock.
#[derive(Drop)]
pub struct Inform;

impl<D: Disk, A: Allocator + Copy> Operation<D, A> for Inform {
    type Reply = Info;

    ghost entry = { λ _ reply. Informed reply };

    fn perform(self, exec: &mut Exec<D, A>) -> Info {
        exec.inform()
    }
}

/// Returns the earliest time at which a waiting lock request fails, in milliseconds, if one waits.
#[derive(Drop)]
pub struct NextDeadline;

impl<D: Disk, A: Allocator + Copy> Operation<D, A> for NextDeadline {
    type Reply = Option<u128>;

    ghost entry = { λ _ reply. Due reply };

    fn perform(self, exec: &mut Exec<D, A>) -> Option<u128> {
        exec.next_deadline()
    }
}

impl<D: Disk, A: Allocator + Copy> QuietOperation<D, A> for Clear {
    ghost quiet = { λ operation reply. refl };
}

impl<D: Disk, A: Allocator + Copy> QuietOperation<D, A> for MarkDelivered {
    ghost quiet = { λ operation reply. refl };
}

impl<D: Disk, A: Allocator + Copy> QuietOperation<D, A> for Query {
    ghost quiet = { λ operation reply. refl };
}

impl<D: Disk, A: Allocator + Copy> QuietOperation<D, A> for Fetch {
    ghost quiet = { λ operation reply. refl };
}

impl<D: Disk, A: Allocator + Copy> QuietOperation<D, A> for Inform {
    ghost quiet = { λ operation reply. refl };
}

impl<D: Disk, A: Allocator + Copy> QuietOperation<D, A> for NextDeadline {
    ghost quiet = { λ operation reply. refl };
}
