//! Images in memory, the output and the disk of a run on one, and the report on it.
use crate::runs::run_between;
use psu_call_steps::image;
use psu_disk::MemDisk;
use psu_items::IMAGE_LIMIT;
use psu_run::{recover, report_text};
use std::alloc::Global;

/// Returns a formatted image of 256 pages, where memory suffices.
pub(crate) fn formatted(alloc: Global) -> Option<MemDisk<Global>> {
    image(alloc, IMAGE_LIMIT)
}

/// Returns a formatted image of 4 pages, the smallest.
pub(crate) fn least(alloc: Global) -> Option<MemDisk<Global>> {
    image(alloc, 4)
}

/// Returns what a run on a formatted image writes, where it succeeds.
pub(crate) fn written(alloc: Global, input: &[u8]) -> Option<Vec<u8>> {
    written_on(alloc, formatted(alloc)?, input)
}

/// Returns what a run on this disk writes, where it succeeds.
pub(crate) fn written_on(alloc: Global, disk: MemDisk<Global>, input: &[u8]) -> Option<Vec<u8>> {
    let mut reader = input;
    let mut text = Vec::new(alloc);
    run_between(alloc, &mut reader, &mut text, disk).ok()?;
    Some(text)
}

/// Returns the disk after a run on it, where that succeeds.
pub(crate) fn left_by(
    alloc: Global,
    disk: MemDisk<Global>,
    input: &[u8],
) -> Option<MemDisk<Global>> {
    let mut reader = input;
    let mut text = Vec::new(alloc);
    run_between(alloc, &mut reader, &mut text, disk).ok()
}

/// Returns the text of the report on a disk.
pub(crate) fn reported(alloc: Global, disk: MemDisk<Global>) -> Option<Vec<u8>> {
    let report = recover(alloc, disk).found.ok()?;
    report_text(alloc, &report).ok()
}
