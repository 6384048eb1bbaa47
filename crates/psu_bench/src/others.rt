//! The other threads, as a thread that calls the device reports to them.
ghost use Rattle.psu_bench.specs.Reports.{Report, ServiceRequested, FlusherWoken, JobEnded};

use psu_exec::{Grant, Sessions};

/// The other threads, as a thread that calls the device reports to them. They are known only by how a report
/// (`Report`) leads from one of their states to another.
pub trait Others {
    /// The registry of the open sessions, locked.
    type Registry: LockedRegistry + Drop;

    /// A report.
    ghost tells: { Self → Report → Self → Type 0 };

    /// Locks the registry. A call that gives lock requests of other sessions a result is made, and the results are
    /// passed on, while the registry is locked; so they are passed on before another lock is requested or released,
    /// and the sessions that the device names are those of the registry.
    fn lock_registry(&self) -> Self::Registry;

    /// Notifies sessions that they request service.
    fn service_requested(&mut self, sessions: &Sessions)
        ensures { tells self.old (ServiceRequested sessions.now) self.new };

    /// Wakes the flusher: a job can be taken, or a lock request waits, whose deadline it watches.
    fn wake_flusher(&mut self)
        ensures { tells self.old FlusherWoken self.new };

    /// Wakes the sessions whose waits are over, and those whose units wait for room, as the end of a job may have made
    /// some.
    fn job_ended(&mut self, over: &Sessions)
        ensures { tells self.old (JobEnded over.now) self.new };
}

/// The registry of the open sessions, locked. It is known only by how a result that is passed on (`Passed`) leads from
/// one of its states to another.
pub trait LockedRegistry {
    ghost use Rattle.psu_bench.specs.Reports.{Passed};

    /// A result is passed on.
    ghost passes: { Self → Passed → Self → Type 0 };

    /// Passes the result of their lock requests on to sessions. If it is `Granted`, locks have been released, and each
    /// session that waits for one is woken, even if there is no session to pass a result on to.
    fn pass_on(&mut self, sessions: &Sessions, grant: Grant)
        ensures { passes self.old (record { sessions = sessions.now; grant = grant }) self.new };
}
