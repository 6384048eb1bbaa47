//! An image of the greatest limit, which is full, and the report on it: a hundred registers and 140 files of one byte, of
//! two pages each, fill 480 pages, and one more item does not fit.
use crate::hold::Hold;
use crate::images::is_reported;
use crate::server::{formatted, removed, served};
use psu_client::{Client, Missed, joined_as};
use psu_server::Point;
use std::alloc::Global;
use std::fs::File;
use std::rt::Files;

const IMAGE: &str = "full.image";

// The greatest limit of an image, in pages.
const LIMIT: u16 = 480;

// The numbers of the files, in their names.
const FILES: (u32, u32) = (100, 240);

// The root of the format has number 1, and each of the two jobs writes the next.
const REPORT: &str = "image version 2 root 3
pages 480 of 480
enables none
request none
user 0
macros 0
";

// Returns a text that continues with each of these numbers, after one text and before another; none where memory is
// refused.
fn listed(alloc: Global, begin: &str, numbers: (u32, u32), around: [&str; 2]) -> Option<String> {
    let mut text = begin.to_string(alloc).ok()?;
    let [before, after] = around;
    for number in numbers.0..numbers.1 {
        let number = format!(in alloc; "{before}{number}{after}").ok()?;
        text.push_str(number.as_str()).ok()?;
    }
    Some(text)
}

// Sends a message that continues with each of these numbers.
fn says(client: &mut Client, text: Option<String>) -> Result<(), Missed> {
    match text {
        Some(text) => client.say(text.as_bytes()),
        None => Err(Missed::Ground("memory")),
    }
}

// Saves in all registers but the first, and makes the files. No change is refused.
fn fills(client: &mut Client, alloc: Global) -> Result<(), Missed> {
    let (first, end) = FILES;
    let begin = "MMEM:DATA \"F100\",#11x";
    let files = listed(alloc, begin, (first + 1, end), [";DATA \"F", "\",#11x"]);
    says(client, listed(alloc, "*SAV 1", (2, 100), [";*SAV ", ""]))?;
    says(client, files)?;
    client.ask(b"*ESR?", b"128\n")
}

// Reads the catalog, which has all files and no free byte.
fn has_all_files(client: &mut Client, alloc: Global) -> Result<(), Missed> {
    client.say(b"MMEM:CAT?")?;
    let Some(mut files) = listed(alloc, "245760,0", FILES, [",\"F", ",BIN,1\""]) else {
        return Err(Missed::Ground("memory"));
    };
    match files.push('\n') {
        Ok(()) => client.hear(files.as_bytes()),
        Err(_) => Err(Missed::Ground("memory")),
    }
}

// One more item does not fit, as enables or as a file; all others are there, the last register too.
fn is_full(client: &mut Client, alloc: Global) -> Result<(), Missed> {
    client.ask(b"*OPC?;*PSC 0;:SYST:ERR?", b"1;-254,\"Media full\"\n")?;
    client.ask(b"MMEM:DATA \"G\",#10;:SYST:ERR?", b"-254,\"Media full\"\n")?;
    has_all_files(client, alloc)?;
    client.ask(b"*RST;*RCL 99;VOLT?", b"1.000\n")
}

// The report on the image has all files.
fn has_report<R: Files<File = File> + Alloc<A = Global>>(
    rt: &R,
    alloc: Global,
) -> Result<(), Missed> {
    match listed(alloc, REPORT, FILES, ["file F", ",BIN,1\n"]) {
        Some(report) => is_reported(rt, IMAGE, report.as_str()),
        None => Err(Missed::Ground("memory")),
    }
}

// The first job has the first save, and is held until all other changes are made, so that there are two.
#[test]
fn an_image_of_the_greatest_limit_is_filled(rt: HostRuntime) -> Result<(), Missed> {
    let alloc = rt.alloc();
    let hold = Hold::new(rt, alloc, Some(Point::BeforeRun))?;
    formatted(&rt, alloc, IMAGE, LIMIT)?;
    let port = served(rt, alloc, IMAGE, hold.another()?)?;
    let mut one = joined_as(&rt, port, 1)?;
    one.say(b"VOLT 1;*SAV 0")?;
    hold.wait_until_held()?;
    fills(&mut one, alloc)?;
    hold.release()?;
    is_full(&mut one, alloc)?;
    has_report(&rt, alloc)?;
    removed(&rt, IMAGE);
    Ok(())
}
