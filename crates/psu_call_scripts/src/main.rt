//! Plays the scripts of its folder: what sessions do with a device, and the results. The head of each file says what
//! its scripts are about; `psu_call_steps` has the table of their steps.
//!
//! A script begins with a line `== ` and its title, and each begins on a device that is powered on with a fresh image.
//! What is before the first script, empty lines and lines that begin with `#` are not played. In a file `{x*64}` means
//! 64 x, and `\n` NL.
#![tactic(auto)]

mod scripts;

use psu_call_steps::StepFault;
use psu_tables::written;
use scripts::{Count, play_scripts};
use std::fs;
use std::io::{Eprint, Print};
use std::process::ExitCode;
use std::rt::Files;

// The files of scripts, in the program's working directory, and how many pages the contents of an image may cost on
// which their scripts begin.
const FILES: [(&str, u16); 6] = [
    ("sessions.txt", 256),
    ("locks.txt", 256),
    ("status.txt", 256),
    ("jobs.txt", 256),
    ("pages.txt", 4),
    ("thresholds.txt", 480),
];

fn main(rt: HostRuntime) -> ExitCode {
    for (name, limit) in FILES {
        if !play_file(&rt, name, limit) {
            return ExitCode::FAILURE;
        }
    }
    ExitCode::SUCCESS
}

// Reads the text of a file.
fn text_of<R: Files + Alloc>(rt: &R, name: &str) -> Option<String<R::A>>
where
    R::A: Copy,
{
    written(rt.alloc(), &fs::read_to_string(rt, name).ok()?)
}

// Plays the scripts of a file, prints how many there are, and returns whether all of them hold.
fn play_file<R: Files + Alloc + Print + Eprint>(rt: &R, name: &str, limit: u16) -> bool
where
    R::A: Copy,
{
    match text_of(rt, name) {
        Some(text) => is_reported(rt, name, play_scripts(rt.alloc(), limit, &text)),
        None => {
            let _ = eprintln!(rt; "{name} can't be read");
            false
        }
    }
}

// Prints the result of a file, and returns whether all of its scripts hold.
fn is_reported(
    rt: &(impl Print + Eprint),
    name: &str,
    played: Result<Count, StepFault<'_>>,
) -> bool {
    match played {
        Ok(Count { scripts, steps }) => {
            println!(rt; "{name}: {scripts} scripts, {steps} steps").is_ok()
        }
        Err(StepFault { line, step }) => {
            let _ = eprintln!(rt; "{name}:{line}: does not hold: {step}");
            false
        }
    }
}
