//! Releases of locks, each after the message that its client sent last.
ghost use Rattle.std.specs.Prelude.{◌≡◌, IfErr, OnOk};
ghost use Rattle.psu_session.specs.Releasing.{due_at, is_first_due};
ghost use Rattle.psu_session.specs.Room.{KeepsCapacity};
ghost use Rattle.psu_session.specs.Shown.{release_of, releases_of, state_of};
ghost use Rattle.psu_session.specs.State.{is_due, settled};
ghost use Rattle.psu_session.specs.declared.phase.EndCause.TheVariants.{Memory};

use crate::limits::RELEASE_PATIENCE;
use crate::numbers::is_ahead;
use crate::{EndCause, Parts, Release, Work};

impl Release {
    // Whether its wait is over at a time, after the message of a number.
    fn is_due(self, all: bool, now: u64, last: u32) -> bool
        ensures { result ≡ is_due all now last (release_of self) }
    {
        all || !is_ahead(last, self.number)
            || now.saturating_sub(self.requested_at) >= RELEASE_PATIENCE
    }
}

impl Parts {
    // Whether the wait of the first release is over.
    fn is_first_due(&self, all: bool, now: u64) -> bool
        ensures { result ≡ is_first_due all now self.now.last (releases_of self.now.releases.items) }
    {
        match self.releases.front() {
            Some(release) => release.is_due(all, now, self.last),
            None => false,
        }
    }

    /// Returns when the wait of the first release is over at the latest.
    pub fn next_due(&self) -> Option<u64>
        ensures { result ≡ due_at (releases_of self.now.releases.items) }
    {
        let release = self.releases.front()?;
        Some(release.requested_at.saturating_add(RELEASE_PATIENCE))
    }

    /// Queues the releases whose wait is over.
    pub(crate) fn settle(&mut self, all: bool, now: u64) -> Result<(), EndCause>
        ensures done { OnOk result (state_of self.new ≡ settled all now (state_of self.old)) }
        ensures cause { IfErr result (λ cause. cause ≡ Memory) }
        ensures capacity { KeepsCapacity self.old self.new }
    {
        while self.is_first_due(all, now) {
            if self.waiting.push_back(Work::Release).is_err() {
                return Err(EndCause::Memory);
            }
            let _ = self.releases.pop_front();
        }
        Ok(())
    }
}
