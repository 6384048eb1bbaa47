//! The flusher: it puts changes on the disk, and fails lock requests whose time is over.
ghost use Rattle.std.specs.Prelude.{◌≡◌, ◌<◌, Result, Some};
ghost use Rattle.psu_exec.specs.declared.job.NoJob.{NoJob as AnyNoJob};
ghost use Rattle.psu_bench.specs.Callers.{CausesByRound};
ghost use Rattle.psu_bench.specs.Lines.{condition_shown};
ghost use Rattle.psu_bench.specs.Reopenings.{after_job, left_of_second};
ghost use Rattle.psu_bench.specs.declared.caused.CausedByJob.{CausedByJob};
ghost use Rattle.psu_threads.specs.Rounds.{IsNoted, pause_after, pause_without_job, shown_last, shown_without_job};

use crate::reporter::Reporter;
use crate::server::Server;
use psu_bench::operations::NextDeadline;
use psu_bench::{Caller, JobEnding, Others, Reopenings, ReportedCondition, ServedDisk};
use psu_disk::Disk;
use psu_exec::NoJob;
use std::rt::Clock;
use std::sync::Wait;

/// How long the flusher waits after a job that did not go well, in milliseconds, unless others have something to be
/// flushed before.
const RETRY_PAUSE: u64 = 1000;

// Returns how long the flusher sleeps at most after a job that ended so, in milliseconds; none where it sleeps until there
// is something to do, since nothing more was to be flushed.
fn pause_after(ending: JobEnding, has_work: bool) -> Option<u64>
    ensures { result ≡ pause_after ending has_work }
{
    match ending {
        JobEnding::Stored if !has_work => None,
        JobEnding::Stored | JobEnding::Reopened => Some(0),
        JobEnding::Broken | JobEnding::Worn | JobEnding::OutOfMemory => Some(RETRY_PAUSE),
    }
}

/// The flusher.
#[derive(Drop)]
pub struct Flusher<'a, 'b, D: ServedDisk> {
    server: &'a Server,
    caller: Caller<'b, D>,
    // The condition that the store has shown last; that it works where it has shown none.
    condition: ReportedCondition,
    // When a store that broke is opened again.
    reopenings: Reopenings,
}

impl<'a, 'b, D: ServedDisk> Flusher<'a, 'b, D> {
    /// Returns the flusher of a server that has just powered on.
    pub fn new(server: &'a Server, caller: Caller<'b, D>) -> Flusher<'a, 'b, D>
        ensures { result.caller ≡ caller.entry }
    {
        Flusher {
            server,
            caller,
            condition: ReportedCondition::Works,
            reopenings: Reopenings::new(),
        }
    }

    // Notes the condition of the store, for an operator too where it has changed: else the thread that writes the
    // operator's lines would be woken at each job's end.
    fn note<R: Wait>(&mut self, rt: &R, condition: ReportedCondition)
        ensures condition { self.new.condition ≡ condition }
        ensures caller { self.new.caller ≡ self.old.caller }
        ensures reopenings { self.new.reopenings ≡ self.old.reopenings }
    {
        if condition != self.condition {
            self.condition = condition;
            self.server.operator.note(rt, condition);
        }
    }

    // Notes what the end of a job, at this time, shows of the store.
    fn note_end<R: Wait>(&mut self, rt: &R, ending: JobEnding, now: u64)
        ensures caller { self.new.caller ≡ self.old.caller }
        ensures condition { self.new.condition ≡ shown_last self.old.condition (condition_shown ending) }
        ensures reopenings { self.new.reopenings ≡ after_job self.old.reopenings ending now }
    {
        self.reopenings.note(ending, now);
        if let Some(condition) = ReportedCondition::shown_by(ending) {
            self.note(rt, condition);
        }
    }

    // Returns the time of the end of a job, if it is noted, or else 0: most jobs are stored, and to read the clock costs
    // more than a turn.
    fn time_of<R: Clock>(&self, rt: &R, ending: JobEnding) -> u64 {
        if ending == JobEnding::Stored {
            return 0;
        }
        self.server.now(rt)
    }

    // Notes that there is no job, and returns how long the flusher sleeps then at most. Where there is nothing to do after
    // the store broke, a reopening has found all stored.
    fn note_none<R: Wait>(&mut self, rt: &R, none: NoJob) -> Option<u64>
        ensures pause { result ≡ pause_without_job none }
        ensures condition { self.new.condition ≡ shown_without_job self.old.condition none }
        ensures caller { self.new.caller ≡ self.old.caller }
        ensures reopenings { self.new.reopenings ≡ self.old.reopenings }
    {
        match none {
            NoJob::Memory => return Some(RETRY_PAUSE),
            NoJob::Out => {}
            NoJob::Nothing => {
                if self.condition == ReportedCondition::Broken {
                    self.note(rt, ReportedCondition::Works);
                }
            }
        }
        None
    }

    // Makes a round, and reports what it has caused. Returns how long the flusher sleeps after it at most, in milliseconds;
    // none where it sleeps until there is something to do.
    fn round<R: Wait + Clock>(&mut self, rt: &R) -> Option<u64>
        ensures calls { (made : Result CausedByJob AnyNoJob) × CausesByRound D.Disk made self.old.caller self.new.caller
            × IsNoted made result self.old.condition self.old.reopenings self.new.condition self.new.reopenings }
    {
        match self.caller.round(rt) {
            Ok(caused) => {
                let ending = caused.ending();
                let pause = pause_after(ending, caused.has_work());
                let now = self.time_of(rt, ending);
                self.note_end(rt, ending, now);
                caused.report(&mut Reporter {
                    rt,
                    server: self.server,
                });
                pause
            }
            Err(none) => self.note_none(rt, none),
        }
    }

    // Makes a round, unless at this time the store broke less than a second ago, within a second of its reopening. Returns
    // as `round` does, or how long it is until one may be made.
    fn round_at<R: Wait + Clock>(&mut self, rt: &R, now: u64) -> Option<u64>
        ensures put_off { 0 < left_of_second self.old.reopenings.broken now
            → (self.new ≡ self.old) × (result ≡ Some (left_of_second self.old.reopenings.broken now)) }
        ensures calls { left_of_second self.old.reopenings.broken now ≡ 0
            → (made : Result CausedByJob AnyNoJob) × CausesByRound D.Disk made self.old.caller self.new.caller
            × IsNoted made result self.old.condition self.old.reopenings self.new.condition self.new.reopenings }
    {
        let left = self.reopenings.time_left(now);
        if left > 0 {
            return Some(left);
        }
        self.round(rt)
    }

    // Milliseconds to the next deadline of a lock request.
    fn left<R: Wait + Clock>(&mut self, rt: &R) -> Option<u64> {
        let deadline = self.caller.call(rt, NextDeadline)?;
        let now = u128::from(self.server.now(rt));
        Some(u64::try_from(deadline.saturating_sub(now)).unwrap_or(u64::MAX))
    }

    // Fails the lock requests whose time is over; milliseconds to the next.
    fn tick<R: Wait + Clock>(&mut self, rt: &R) -> Option<u64> {
        let left = self.left(rt)?;
        if left > 0 {
            return Some(left);
        }
        let others = Reporter {
            rt,
            server: self.server,
        };
        let mut registry = others.lock_registry();
        let now = self.server.now(rt);
        self.caller.tick(rt, now).pass_on(&mut registry);
        drop(registry);
        self.left(rt)
    }

    // Sleeps until the flusher is notified, or for as long as the last round and the next deadline of a lock request allow.
    fn sleep<R: Wait + Clock>(&self, rt: &R, round: Option<u64>, lock: Option<u64>) {
        let left = match (round, lock) {
            (Some(0), _) => return,
            (Some(one), Some(other)) => Some(one.min(other)),
            (left, None) | (None, left) => left,
        };
        self.server.flusher_signal.wait(rt, left);
    }

    /// Flushes and ticks for ever. No clause speaks of a loop that doesn't return: what holds each round to what
    /// `round_at` ensures is that a job, and a finished one, can't be let go (`psu_exec::Job`).
    pub fn flush<R: Wait + Clock>(&mut self, rt: &R) {
        for _ in rt.forever() {
            let now = if self.reopenings.needs_time() {
                self.server.now(rt)
            } else {
                0
            };
            let round = self.round_at(rt, now);
            let lock = self.tick(rt);
            self.sleep(rt, round, lock);
        }
    }
}
