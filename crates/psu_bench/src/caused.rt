//! What a call causes for other threads. These types have no `Drop`: there is no way to end one but to report it, or to
//! pass it on.
ghost use Rattle.std.specs.Prelude.{◌≡◌};
ghost use Rattle.psu_bench.specs.Reports.{Reports, reports_of, reports_of_job, service_reports};

use crate::{JobEnding, LockedRegistry, Others};
use psu_exec::{CannotDrop, Grant, Notifications, Sessions};

/// What a call of the device has caused for other threads: sessions request service, or the flusher has something to do.
pub struct Caused {
    pub(crate) requesting: Sessions,
    pub(crate) wakes_flusher: bool,
    pub(crate) duty: CannotDrop,
}

impl Caused {
    // Returns what the notifications of the device say.
    pub(crate) fn of(notifications: Notifications) -> Caused
        ensures requesting { result.requesting ≡ notifications.requesting }
        ensures flusher { result.wakes_flusher ≡ notifications.has_work }
    {
        Caused {
            requesting: notifications.requesting,
            wakes_flusher: notifications.has_work,
            duty: CannotDrop::begin(),
        }
    }

    /// Reports it to the other threads: each part of it once, and nothing else.
    #[inline(always)]
    pub fn report<O: Others>(self, others: &mut O)
        ensures { Reports O.tells others.old (reports_of self) others.new }
    {
        let Caused {
            requesting,
            wakes_flusher,
            duty,
        } = self;
        duty.end();
        report_service(others, &requesting);
        if wakes_flusher {
            others.wake_flusher();
        }
    }
}

/// How a job ended, and what that has caused for threads other than the flusher: waits are over, and sessions request
/// service. It says too whether there was then more to flush.
pub struct CausedByJob {
    pub(crate) ending: JobEnding,
    pub(crate) over: Sessions,
    pub(crate) requesting: Sessions,
    pub(crate) has_work: bool,
    pub(crate) duty: CannotDrop,
}

impl CausedByJob {
    /// How the job ended.
    pub fn ending(&self) -> JobEnding
        ensures { result ≡ self.now.ending }
    {
        self.ending
    }

    /// Whether there was more to flush once it had ended.
    pub fn has_work(&self) -> bool
        ensures { result ≡ self.now.has_work }
    {
        self.has_work
    }

    /// Reports it to the other threads: each part of it once, and nothing else.
    pub fn report<O: Others>(self, others: &mut O)
        ensures { Reports O.tells others.old (reports_of_job self) others.new }
    {
        let CausedByJob {
            ending: _,
            over,
            requesting,
            has_work: _,
            duty,
        } = self;
        duty.end();
        others.job_ended(&over);
        report_service(others, &requesting);
    }
}

/// The sessions whose lock requests a call of the device has granted, or failed.
pub struct Granted {
    sessions: Sessions,
    grant: Grant,
    duty: CannotDrop,
}

impl Granted {
    // Returns the result of the lock requests of sessions.
    pub(crate) fn new(sessions: Sessions, grant: Grant) -> Granted
        ensures sessions { result.sessions ≡ sessions }
        ensures grant { result.grant ≡ grant }
    {
        Granted {
            sessions,
            grant,
            duty: CannotDrop::begin(),
        }
    }

    /// Passes the result on to the sessions, once.
    pub fn pass_on<R: LockedRegistry>(self, registry: &mut R)
        ensures { R.passes registry.old (record { sessions = self.sessions; grant = self.grant }) registry.new }
    {
        let Granted {
            sessions,
            grant,
            duty,
        } = self;
        duty.end();
        registry.pass_on(&sessions, grant);
    }
}

// Reports that sessions request service, if there are any.
#[inline(always)]
fn report_service<O: Others>(others: &mut O, requesting: &Sessions)
    ensures { Reports O.tells others.old (service_reports requesting.now) others.new }
{
    if !requesting.is_empty() {
        others.service_requested(requesting);
    }
}
