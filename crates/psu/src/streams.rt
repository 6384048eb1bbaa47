//! The standard streams of the program.
use std::fs::{File, OpenOptions};
use std::os::fd::AsRawFd;
use std::rt::Files;

/// Files in the place of standard streams that are closed, to be kept while the program runs: an image or a connection would else be opened under
/// the number of one, and what is printed would be written into it.
pub fn stand_ins<R: Files<File = File>>(rt: &R) -> [Option<File>; 3] {
    [stand_in(rt), stand_in(rt), stand_in(rt)]
}

// A file in the place of the first stream that is closed; none where all are open.
fn stand_in<R: Files<File = File>>(rt: &R) -> Option<File> {
    let mut options = OpenOptions::new();
    options.read(true).write(true);
    let file = options.open(rt, "/dev/null").ok()?;
    if file.as_raw_fd() < 3 {
        Some(file)
    } else {
        None
    }
}
