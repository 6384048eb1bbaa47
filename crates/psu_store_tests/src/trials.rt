//! The rows of tables, each with the input of a trial, and the wanted result.
use crate::bad_heads::{GREAT, ONE_HEAD, is_filled};
use crate::bad_roots::is_sized;
use crate::holds::holds;
use crate::kept_ranges::are_as_wanted;
use crate::maps::costs;
use crate::migrations::{OLD, becomes};
use crate::openings::{IMAGE, SIZE, is_spelled};
use psu_tables::row;
use std::alloc::Allocator;
use std::process::Abort;

/// The trial of each row of a table.
#[derive(Clone, Copy, Drop)]
pub(crate) enum Trial {
    /// Parts are written over an image with two items, which is opened.
    Two,
    /// Parts are written over an image of limit 100, which is opened.
    Great,
    /// Parts are written over an image of version 1, which is opened.
    Old,
    /// A disk of a size is opened.
    Sized,
    /// An image that items fill is opened.
    Filled,
    /// An image of version 1 is opened or changed.
    Written,
    /// The pages of a map are counted.
    Costs,
    /// Ranges are written before a sync that fails.
    Ranges,
}

// Whether a row holds.
fn is_so<A: Allocator + Copy>(
    rt: &impl Abort,
    alloc: A,
    trial: Trial,
    (given, wanted): (&str, &str),
) -> bool {
    match trial {
        Trial::Two => is_spelled(rt, alloc, (SIZE, IMAGE, given), wanted),
        Trial::Great => is_spelled(rt, alloc, (GREAT, ONE_HEAD, given), wanted),
        Trial::Old => is_spelled(rt, alloc, (SIZE, OLD, given), wanted),
        Trial::Sized => is_sized(rt, alloc, given, wanted),
        Trial::Filled => is_filled(rt, alloc, given, wanted),
        Trial::Written => becomes(rt, alloc, given, wanted),
        Trial::Costs => costs(rt, alloc, given, wanted),
        Trial::Ranges => are_as_wanted(rt, alloc, given, wanted),
    }
}

/// Checks that each row of the table holds, and that it has at least one.
pub(crate) fn rows_hold<A: Allocator + Copy>(rt: &impl Abort, alloc: A, trial: Trial, table: &str) {
    let mut rows = 0u32;
    for line in table.lines() {
        if let Some(row) = row(line) {
            holds(rt, is_so(rt, alloc, trial, row), &line);
            rows = rows.saturating_add(1);
        }
    }
    holds(rt, rows > 0, &table);
}
