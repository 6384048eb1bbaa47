//! The program `psu`: a simulated power supply that takes SCPI messages and keeps what they confirmed through power loss.
#![tactic(auto)]

mod streams;

use psu_cli::{
    Choice, Fault, WordsFault, choice_of, make_image, recover_image, run_image, run_in_memory,
};
use psu_server::{Open, serve};
use std::fmt::Display;
use std::io::Eprint;
use std::process::ExitCode;
use streams::stand_ins;

/// The exit status of a command line that asks for no command.
const REFUSED: u8 = 2;

fn main(rt: HostRuntime) -> ExitCode {
    let alloc = rt.alloc();
    let _streams = stand_ins(&rt);
    let Ok(arguments) = std::env::args(&rt) else {
        return ExitCode::from(REFUSED);
    };
    let Ok(words) = arguments.collect::<Vec<String>>(alloc) else {
        return ended(&rt, Err(Fault::Memory));
    };
    let choice = match choice_of(alloc, words.as_slice()) {
        Ok(choice) => choice,
        Err(WordsFault::Refused) => return ExitCode::from(REFUSED),
        Err(WordsFault::Memory) => return ended(&rt, Err(Fault::Memory)),
    };
    match choice {
        Choice::Make(image) => ended(&rt, make_image(&rt, alloc, image)),
        Choice::Run(None) => ended(&rt, run_in_memory(&rt, alloc)),
        Choice::Run(Some(image)) => ended(&rt, run_image(&rt, alloc, image)),
        Choice::Recover(image) => ended(&rt, recover_image(&rt, alloc, image)),
        Choice::Serve(image, port) => {
            let fault = serve(rt, alloc, image, port, Open);
            ended(&rt, Err(fault))
        }
    }
}

// The exit status of a command; a fault is one line on standard error.
fn ended<F: Display + Drop>(rt: &impl Eprint, outcome: Result<(), F>) -> ExitCode {
    match outcome {
        Ok(()) => ExitCode::SUCCESS,
        Err(fault) => {
            let _ = eprintln!(rt; "psu: {fault}");
            ExitCode::FAILURE
        }
    }
}
