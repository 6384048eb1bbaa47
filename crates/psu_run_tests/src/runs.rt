//! A run, and its result.
use psu_disk::Disk;
use psu_run::{RunCause, RunFault, RunStart, Sink, Source, StartCause, run};
use std::alloc::{Allocator, Global};
use std::io::Read;

/// The cause of a run whose disk fails when it is opened.
pub(crate) const NOT_OPENED: RunCause = RunCause::Open(StartCause::Device);

/// The result of a run: its text, why it ended early, whether it ended early with a worn store, and the disk.
#[derive(Drop)]
pub(crate) struct Ran<D: Disk> {
    pub(crate) text: Vec<u8>,
    pub(crate) cause: Option<RunCause>,
    pub(crate) is_worn: bool,
    pub(crate) disk: D,
}

/// Runs; all rows run through this function, so its contract is read in one proof only.
pub(crate) fn run_between<R: Source, W: Sink, D: Disk, A: Allocator + Copy>(
    memory: A,
    reader: &mut R,
    writer: &mut W,
    disk: D,
) -> Result<D, RunFault<D, A>> {
    run(memory, reader, writer, RunStart::Image(disk))
}

/// Runs this input on a disk.
pub(crate) fn run_on<D: Disk>(alloc: Global, input: &[u8], disk: D) -> Ran<D> {
    let mut reader = input;
    run_from(alloc, alloc, &mut reader, disk)
}

/// Runs the input of a reader, with memory of its own.
pub(crate) fn run_from<R: Read, D: Disk, A: Allocator + Copy>(
    alloc: Global,
    memory: A,
    reader: &mut R,
    disk: D,
) -> Ran<D> {
    let mut text = Vec::new(alloc);
    let (cause, is_worn, disk) = match run_between(memory, reader, &mut text, disk) {
        Ok(disk) => (None, false, disk),
        Err(fault) => (Some(fault.cause), fault.is_worn(), fault.into_disk()),
    };
    Ran {
        text,
        cause,
        is_worn,
        disk,
    }
}
