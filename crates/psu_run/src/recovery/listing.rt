//! The files of a report.
ghost use Rattle.std.specs.Prelude.{◌≡◌, IfOk, map};
ghost use Rattle.psu_run.specs.Recover.{entry, of_value, reported};

use crate::memory::{copy_of, push};
use crate::{OutOfMemory, ReportedFile};
use psu_items::Pair;
use psu_nv::FileKind;
use std::alloc::Allocator;

// The type of a file, and the number of its bytes.
fn of_value(value: &[u8]) -> (FileKind, usize)
    ensures { result ≡ of_value value.now }
{
    match value {
        [] => (FileKind::Macro, 0),
        [code, bytes @ ..] => (FileKind::of_stored(*code), bytes.len()),
    }
}

// A file as it is reported.
fn file_of<A: Allocator + Copy>(alloc: A, file: &Pair<A>) -> Result<ReportedFile<A>, OutOfMemory>
    ensures { IfOk result (λ f. reported f ≡ entry file.now) }
{
    let (kind, size) = of_value(file.value());
    Ok(ReportedFile {
        name: copy_of(alloc, file.key())?,
        kind,
        size,
    })
}

/// Files as they are reported, in their order.
pub(crate) fn files_of<A: Allocator + Copy>(
    alloc: A,
    kept: &[Pair<A>],
) -> Result<Vec<ReportedFile<A>, A>, OutOfMemory>
    ensures { IfOk result (λ files. map reported files.items ≡ map entry kept.now) }
{
    let mut files = Vec::new(alloc);
    for file in kept {
        push(&mut files, file_of(alloc, file)?)?;
    }
    Ok(files)
}
