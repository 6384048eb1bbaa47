//! Laws of the histories of the bench, with the disks of its threads.
ghost use Rattle.psu_bench_power_loss.specs.Kept.{EachOpcIsKept};
ghost use Rattle.psu_bench_power_loss.specs.Lives.{HistoriesHappen, LivesAreEvents, SeenHistoriesHappen, SomeHistoryHappens, ThreadsLeavePrefix};
ghost use Rattle.psu_bench_power_loss.specs.Threads.{DisksLeavePrefix, EndsAreTrue, RoundsAreRuns, RoundsHaveSteps, SomeStepsExist, ThreadsAreEvents};

use psu_disk::Disk;
use std::alloc::Allocator;

/// The power-loss theorem holds for threads: what happens while they run, the calls of a legal history and the disk
/// calls of its jobs, is a list of events of the theorem. The histories that happen are those whose accepted ends are each
/// true of some disk, and there are such histories.
pub fn histories_are_lives()
    ensures events { LivesAreEvents }
    ensures each { HistoriesHappen }
    ensures some { SomeHistoryHappens }
    ensures prefix { ThreadsLeavePrefix }
{}

/// The history that a seat has seen of a bench over honest disks is one that happens.
pub fn seen_histories_happen<D: Disk>()
    ensures { SeenHistoriesHappen D.honest }
{}

/// The power-loss theorem holds of the disk that the threads have. An end that is accepted is true of the disk that it
/// carries. The calls of a legal history, with the disk calls of each run of a job between its take and its give-back,
/// are events of the theorem, each with the threads' disk: that of the end that was accepted last, and during a run
/// the one that its last disk call left. A disk need record its moments only where steps name disk calls, or a moment of
/// the run that is under way. A history whose accepted ends are those of rounds that seats make has such steps.
pub fn threads_are_events<D: Disk, A: Allocator + Copy>()
    ensures ends { D.honest → EndsAreTrue D A D.Disk }
    ensures events { D.honest → ThreadsAreEvents D A D.Disk }
    ensures prefix { D.honest → DisksLeavePrefix D A D.Disk }
    ensures runs { RoundsAreRuns D A D.Disk }
    ensures rounds { RoundsHaveSteps D A D.Disk }
    ensures some { SomeStepsExist D A D.Disk }
{}

/// Where a seat's `*OPC?` was answered at once, each image that a power loss may leave from then on represents contents with
/// all that the seat had executed before it.
pub fn each_opc_is_kept<D: Disk, A: Allocator + Copy>()
    ensures { D.honest → EachOpcIsKept D A D.Disk }
{
    threads_are_events::<D, A>();
}
