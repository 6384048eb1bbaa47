//! Steps that are played, one after another.
use crate::device_steps::{device_step_holds, doing_of};
use crate::devices::{image, powered_on};
use crate::session_steps::session_step;
use crate::sights::{is_seen, sight_of};
use psu_disk::{Disk, MemDisk};
use psu_exec::Exec;
use psu_tables::{is_step, parted};
use std::alloc::Allocator;

/// A step that does not hold, and its line in its script, from 1.
#[derive(Clone, Copy, Debug)]
pub struct StepFault<'s> {
    pub line: u32,
    pub step: &'s str,
}

// Whether a step of the device or of a session holds.
fn changing_step<D: Disk + Drop, A: Allocator + Copy>(exec: &mut Exec<D, A>, step: &str) -> bool {
    let (word, rest) = parted(step);
    match doing_of(word) {
        Some(doing) => device_step_holds(exec, doing, rest),
        None => session_step(exec, step),
    }
}

/// Whether a line is a step that holds.
pub fn step_holds<D: Disk + Drop, A: Allocator + Copy>(exec: &mut Exec<D, A>, step: &str) -> bool {
    let (word, rest) = parted(step);
    match sight_of(word) {
        Some(sight) => is_seen(exec, sight, rest),
        None => changing_step(exec, step),
    }
}

/// Plays a script on a device, up to a step that does not hold, and returns the number of its steps.
pub fn play<'s, D: Disk + Drop, A: Allocator + Copy>(
    exec: &mut Exec<D, A>,
    script: &'s str,
) -> Result<u32, StepFault<'s>> {
    let mut line = 0u32;
    let mut steps = 0u32;
    for step in script.lines() {
        line = line.saturating_add(1);
        if is_step(step) {
            if !step_holds(exec, step) {
                return Err(StepFault { line, step });
            }
            steps = steps.saturating_add(1);
        }
    }
    Ok(steps)
}

// Plays a script on a device, which then ends.
fn play_to_end<D: Disk + Drop, A: Allocator + Copy>(
    mut exec: Exec<D, A>,
    script: &str,
) -> Result<u32, StepFault<'_>> {
    let played = play(&mut exec, script);
    drop(exec);
    played
}

// Returns a device that is powered on with a fresh image.
fn new_device<A: Allocator + Copy>(alloc: A, limit: u16) -> Option<Exec<MemDisk<A>, A>> {
    powered_on(alloc, image(alloc, limit)?)
}

/// Plays a script on a device of its own, which is powered on with a fresh image in memory, whose contents may cost
/// this many pages. Returns the number of its steps; 0 where an image can't have this limit, or memory is refused.
pub fn play_anew<A: Allocator + Copy>(
    alloc: A,
    limit: u16,
    script: &str,
) -> Result<u32, StepFault<'_>> {
    match new_device(alloc, limit) {
        Some(exec) => play_to_end(exec, script),
        None => Ok(0),
    }
}
