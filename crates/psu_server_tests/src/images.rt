//! The contents of an image: lines that are executed on it, and items that it keeps.
use psu_client::Missed;
use psu_disk::{Disk, FileDisk, MemDisk, OsFiles};
use psu_items::Store;
use psu_run::{Recovered, RunStart, recover, report_text, run};
use std::alloc::Global;
use std::fs::{self, File};
use std::rt::Files;

/// Executes lines on an image, which is then at rest.
pub(crate) fn executed<R: Files<File = File>>(
    rt: &R,
    alloc: Global,
    image: &str,
    lines: &[u8],
) -> Result<(), Missed> {
    let Ok(disk) = FileDisk::of(&mut OsFiles { files: rt }, alloc, image) else {
        return Err(Missed::Ground("an image"));
    };
    let mut reader = lines;
    let mut output = Vec::new(alloc);
    match run(alloc, &mut reader, &mut output, RunStart::Image(disk)) {
        Ok(_) => Ok(()),
        Err(_) => Err(Missed::Ground("a run")),
    }
}

// Copies an image to a disk in memory.
fn copied<R: Files<File = File> + Alloc<A = Global>>(
    rt: &R,
    image: &str,
) -> Result<MemDisk<Global>, Missed> {
    let Ok(bytes) = fs::read(rt, image) else {
        return Err(Missed::Ground("a copy"));
    };
    let Ok(mut disk) = MemDisk::new(rt.alloc(), bytes.len() as u64) else {
        return Err(Missed::Ground("memory"));
    };
    if bytes.len() as u64 <= disk.size() && disk.write(0, bytes.as_slice()).is_ok() {
        Ok(disk)
    } else {
        Err(Missed::Ground("an image of the right size"))
    }
}

/// Checks that a copy of an image opens and has this item.
pub(crate) fn is_kept<R: Files<File = File> + Alloc<A = Global>>(
    rt: &R,
    image: &str,
    key: &[u8],
    value: &[u8],
) -> Result<(), Missed> {
    let disk = copied(rt, image)?;
    let Ok(store) = Store::open(rt.alloc(), disk) else {
        return Err(Missed::Claim("the image opens"));
    };
    match store.items().get(key) {
        Some(kept) if kept == value => Ok(()),
        _ => Err(Missed::Claim("the item is kept")),
    }
}

/// Checks that this is the report on a copy of an image.
pub(crate) fn is_reported<R: Files<File = File> + Alloc<A = Global>>(
    rt: &R,
    image: &str,
    report: &str,
) -> Result<(), Missed> {
    let Recovered { found, .. } = recover(rt.alloc(), copied(rt, image)?);
    let Ok(found) = found else {
        return Err(Missed::Claim("the image is in order"));
    };
    match report_text(rt.alloc(), &found) {
        Ok(text) if text.as_slice() == report.as_bytes() => Ok(()),
        _ => Err(Missed::Claim("this is the report")),
    }
}
