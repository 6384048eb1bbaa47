//! Runs the examples of the programmer's guide and the worked rows with it on the instrument, each on a fresh image.
#![tactic(auto)]

mod guide;
mod play;
mod play_fault;

use guide::guide_held;
use play_fault::PlayFault;
use psu_examples::GuideFault;
use std::alloc::Allocator;
use std::io::Eprint;
use std::process::ExitCode;
use std::{fs, str};

// The documents, in the program's working directory.
const DOCUMENTS: [&str; 2] = ["COMMANDS.md", "ROWS.md"];

fn main(rt: HostRuntime) -> ExitCode {
    for name in DOCUMENTS {
        let Ok(document) = fs::read(&rt, name) else {
            let _ = eprintln!(rt; "{name} can't be read");
            return ExitCode::FAILURE;
        };
        match guide_held(rt.alloc(), &document) {
            Ok(count) => {
                if println!(rt; "{name}: {count} examples hold").is_err() {
                    return ExitCode::FAILURE;
                }
            }
            Err(fault) => {
                report(&rt, name, &fault);
                return ExitCode::FAILURE;
            }
        }
    }
    ExitCode::SUCCESS
}

// Reports on standard error why a document does not hold.
fn report<A: Allocator + Copy>(rt: &impl Eprint, name: &str, fault: &GuideFault<A, PlayFault>) {
    let _ = match fault {
        GuideFault::Empty => eprintln!(rt; "{name} has no example"),
        GuideFault::Memory => eprintln!(rt; "out of memory"),
        GuideFault::Ended(line, PlayFault::Memory) => eprintln!(rt; "{name}:{line}: out of memory"),
        GuideFault::Ended(line, PlayFault::Run(cause)) => eprintln!(rt;
            "{name}:{line}: the run ends with {cause}"
        ),
        GuideFault::Differs(line, came) => {
            let text = str::from_utf8(came).unwrap_or("bytes that are no text\n");
            eprint!(rt; "{name}:{line}: is answered\n{text}")
        }
    };
}
