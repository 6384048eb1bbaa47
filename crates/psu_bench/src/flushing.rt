//! The rounds of the flusher.
ghost use Rattle.std.specs.Prelude.{◌≡◌};
ghost use Rattle.psu_turn.specs.Seats.{IsOf};
ghost use Rattle.psu_exec.specs.Shown.{over_of};
ghost use Rattle.psu_bench.specs.Callers.{MakesRound, MakesRounds, ending_of, over_sessions};

use crate::operations::{GiveBack, Take};
use crate::{Bench, Gate, Point, Seat};
use psu_disk::Disk;
use psu_exec::{End, NoJob, Sessions, Stranger};
use psu_items::UnstartedCause;
use std::alloc::Allocator;
use std::sync::Wait;

/// How a job ended.
#[derive(Clone, Copy, Debug, PartialEq, Eq)]
pub enum JobEnding {
    /// Its changes are stored.
    Stored,
    /// The store that broke is open again.
    Reopened,
    /// The store broke, or could not be opened again.
    Broken,
    /// Nothing was stored: the store has used up its numbers.
    Worn,
    /// Nothing was stored: an allocation failed.
    OutOfMemory,
}

impl JobEnding {
    // Returns how a finished job ended.
    fn of<D: Disk, A: Allocator + Copy>(end: &End<D, A>) -> JobEnding
        ensures { result ≡ ending_of end.now }
    {
        match end {
            End::Stored(_) => JobEnding::Stored,
            End::Reopened(_) => JobEnding::Reopened,
            End::Broken(_) => JobEnding::Broken,
            End::Unstarted(_, _, UnstartedCause::Worn) => JobEnding::Worn,
            End::Unstarted(_, _, UnstartedCause::Memory) => JobEnding::OutOfMemory,
        }
    }
}

impl<D: Disk + Drop, A: Allocator + Copy> Bench<D, A> {
    /// Makes a round: takes a job, runs it outside the turn, and gives back its result. The gate is called before the job
    /// is run. Returns how the job ended, with the sessions whose waits are over, or why there is no job.
    pub fn round<R: Wait, G: Gate>(
        &self,
        rt: &R,
        seat: &mut Seat,
        gate: &G,
    ) -> Result<(JobEnding, Sessions), NoJob>
        requires own { IsOf self.now seat.old }
        ensures calls { MakesRound A D.Disk result seat.old seat.new }
        ensures own { IsOf self.now seat.new }
    {
        let job = self.call(rt, seat, Take)?;
        gate.at(Point::BeforeRun);
        let finished = job.run();
        let ending = JobEnding::of(finished.end());
        let given = self.call(rt, seat, GiveBack(finished));
        Ok((ending, sessions_over(given)))
    }
}

// Returns the sessions whose waits are over. A stranger ends none here, and is discarded; a finished job is none where
// its job was taken of the same bench.
fn sessions_over<D: Disk + Drop, A: Allocator + Copy>(
    given: Result<Sessions, Stranger<D, A>>,
) -> Sessions
    ensures { result ≡ over_sessions (over_of given) }
{
    match given {
        Ok(over) => over,
        Err(stranger) => {
            stranger.discard();
            Sessions::new()
        }
    }
}

/// Makes this number of rounds. With one round it returns at once. It is for a program without the server, whose own
/// flusher (psu_threads) also reports what each round has caused.
pub fn flusher<D: Disk + Drop, A: Allocator + Copy, R: Wait, G: Gate>(
    rt: &R,
    bench: &Bench<D, A>,
    mut seat: Seat,
    rounds: u64,
    gate: &G,
) -> Seat
    requires own { IsOf bench.now seat }
    ensures calls { MakesRounds A D.Disk rounds seat result }
    ensures own { IsOf bench.now result }
{
    for _ in 0..rounds {
        let _made = bench.round(rt, &mut seat, gate);
    }
    seat
}
