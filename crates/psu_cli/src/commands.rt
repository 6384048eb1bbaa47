//! The commands of the program, thin over the server.
use crate::fault::Fault;
use crate::image::new_image;
use psu_disk::{Disk, FileDisk, MemDisk, OsFiles};
use psu_items::{IMAGE_LIMIT, IMAGE_SIZE, Store};
use psu_run::{Recovered, RunStart, recover, report_text, run};
use std::alloc::Global;
use std::fs::File;
use std::io::{self, Input, Print, Write};
use std::rt::Files;

/// Makes a formatted image at a path where no file is. If that fails, no new file is left there.
pub fn make_image<R: Files<File = File>>(rt: &R, alloc: Global, path: &str) -> Result<(), Fault> {
    new_image(&mut OsFiles { files: rt }, alloc, path)?;
    Ok(())
}

/// Reads messages from standard input, on a fresh image in memory.
pub fn run_in_memory<R: Input + Print>(rt: &R, alloc: Global) -> Result<(), Fault> {
    let Ok(disk) = MemDisk::new(alloc, IMAGE_SIZE) else {
        return Err(Fault::Memory);
    };
    match Store::format(alloc, disk, IMAGE_LIMIT) {
        Ok(store) => run_on(rt, alloc, RunStart::Store(store)),
        Err(fault) => Err(Fault::Format(fault.cause)),
    }
}

/// Reads messages from standard input, on the image at a path.
pub fn run_image<R: Files<File = File> + Input + Print>(
    rt: &R,
    alloc: Global,
    path: &str,
) -> Result<(), Fault> {
    match FileDisk::of(&mut OsFiles { files: rt }, alloc, path) {
        Ok(disk) => run_on(rt, alloc, RunStart::Image(disk)),
        Err(fault) => Err(Fault::File(fault)),
    }
}

fn run_on<R: Input + Print, D: Disk + Drop>(
    rt: &R,
    alloc: Global,
    start: RunStart<D, Global>,
) -> Result<(), Fault> {
    let mut writer = io::writer(rt);
    match run(alloc, &mut rt.reader(), &mut writer, start) {
        Ok(_) => Ok(()),
        Err(fault) => Err(Fault::Run(fault.cause)),
    }
}

/// Prints what a restart would find in the image at a path.
pub fn recover_image<R: Files<File = File> + Print>(
    rt: &R,
    alloc: Global,
    path: &str,
) -> Result<(), Fault> {
    let disk = match FileDisk::of(&mut OsFiles { files: rt }, alloc, path) {
        Ok(disk) => disk,
        Err(fault) => return Err(Fault::File(fault)),
    };
    let Recovered { found, .. } = recover(alloc, disk);
    let report = match found {
        Ok(report) => report,
        Err(fault) => return Err(Fault::Recover(fault)),
    };
    let Ok(text) = report_text(alloc, &report) else {
        return Err(Fault::Memory);
    };
    match io::writer(rt).write_all(&text) {
        Ok(()) => Ok(()),
        Err(_) => Err(Fault::Write),
    }
}
