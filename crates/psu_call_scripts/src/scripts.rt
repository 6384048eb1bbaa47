//! Files of scripts.
use psu_call_steps::{StepFault, play_anew};
use std::alloc::Allocator;

/// The number of scripts of a file, and of their steps.
#[derive(Clone, Copy)]
pub(crate) struct Count {
    pub(crate) scripts: u32,
    pub(crate) steps: u32,
}

impl Count {
    // Returns the count with one more script, which has this many steps.
    fn with_script(self, steps: u32) -> Count {
        Count {
            scripts: self.scripts.saturating_add(1),
            steps: self.steps.saturating_add(steps),
        }
    }
}

// Returns the number of lines of a part of a file.
fn lines_of(part: &str) -> u32 {
    let mut lines = 0u32;
    for _ in part.split("\n") {
        lines = lines.saturating_add(1);
    }
    lines
}

// Plays a script, which begins with its title, in this line of its file, and returns the number of its steps. The title
// is the step that does not hold where there is no step, or no device.
fn play_script<A: Allocator + Copy>(
    alloc: A,
    limit: u16,
    line: u32,
    script: &str,
) -> Result<u32, StepFault<'_>> {
    let (title, steps) = script.split_once("\n").unwrap_or((script, ""));
    match play_anew(alloc, limit, steps) {
        Ok(0) => Err(StepFault { line, step: title }),
        Ok(count) => Ok(count),
        Err(fault) => Err(StepFault {
            line: line.saturating_add(fault.line),
            step: fault.step,
        }),
    }
}

/// Plays the scripts of a file, up to a step that does not hold, which is returned with its line. Each begins on a
/// device with a fresh image, whose contents may cost this many pages.
pub(crate) fn play_scripts<A: Allocator + Copy>(
    alloc: A,
    limit: u16,
    text: &str,
) -> Result<Count, StepFault<'_>> {
    let mut count = Count {
        scripts: 0,
        steps: 0,
    };
    let mut parts = text.split("\n== ");
    let mut line = lines_of(parts.next().unwrap_or("")).saturating_add(1);
    for script in parts {
        match play_script(alloc, limit, line, script) {
            Ok(steps) => count = count.with_script(steps),
            Err(fault) => return Err(fault),
        }
        line = line.saturating_add(lines_of(script));
    }
    Ok(count)
}
