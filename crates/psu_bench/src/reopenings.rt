//! When a store that broke is opened again.
ghost use Rattle.std.specs.Prelude.{◌≡◌, ℕ, None, false};
ghost use Rattle.psu_bench.specs.Reopenings.{after_job, left_of_second};

use crate::JobEnding;

/// A second, in milliseconds.
const SECOND: u64 = 1_000;

/// Returns how many milliseconds it is until a second has passed since a time, if there is one; 0 once it has.
pub(crate) fn left_of_second(since: Option<u64>, now: u64) -> u64
    ensures { result ≡ left_of_second since now }
{
    match since {
        Some(since) => SECOND.saturating_sub(now.saturating_sub(since)),
        None => 0,
    }
}

/// When a store that broke is opened again: one that broke within a second of its reopening a second after that, and
/// any other at once.
#[derive(Clone, Copy, Debug, PartialEq, Eq)]
pub struct Reopenings {
    // When the store was opened again, in milliseconds.
    reopened: Option<u64>,
    // When it broke within a second of that.
    broken: Option<u64>,
}

impl Reopenings {
    /// Returns that the store was never opened again.
    pub fn new() -> Reopenings
        ensures reopened { result.reopened ≡ None }
        ensures broken { result.broken ≡ None }
    {
        Reopenings {
            reopened: None,
            broken: None,
        }
    }

    /// Notes how a job ended at this time.
    pub fn note(&mut self, ending: JobEnding, now: u64)
        ensures { self.new ≡ after_job self.old ending now }
    {
        match ending {
            JobEnding::Reopened => self.reopened = Some(now),
            JobEnding::Broken => {
                if left_of_second(self.reopened, now) > 0 {
                    self.broken = Some(now);
                }
            }
            JobEnding::Stored | JobEnding::Worn | JobEnding::OutOfMemory => {}
        }
    }

    /// Whether how long it is until a job may be run depends on the time. If not, one may be run at any time.
    pub fn needs_time(&self) -> bool
        ensures { result ≡ false → (now : ℕ) → left_of_second self.now.broken now ≡ 0 }
    {
        self.broken.is_some()
    }

    /// Returns how many milliseconds it is until a job may be run: 0 where the store did not break within a second of
    /// its reopening, or that was a second ago.
    pub fn time_left(&self, now: u64) -> u64
        ensures { result ≡ left_of_second self.now.broken now }
    {
        left_of_second(self.broken, now)
    }
}
