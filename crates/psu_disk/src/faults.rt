//! The errors of disks and of files.

use thiserror::Error;

/// The error of a disk call that failed. Each call of [`Disk`](crate::Disk) says what a failure leaves.
#[derive(Clone, Copy, Debug, PartialEq, Eq, Drop)]
pub struct DiskFault;

/// Why a file is not opened or created as a disk.
#[derive(Clone, Copy, Debug, PartialEq, Eq, Error)]
pub enum OpenFault {
    /// There is no file at the path, or no directory to create it in.
    #[error("no such file")]
    NoFile,
    /// It isn't a regular file, has more than 16 MiB, can't be read, written and locked, or is open as another disk.
    #[error("device fault")]
    NotOpened,
    #[error("out of memory")]
    Memory,
    /// The file that was to be created exists already.
    #[error("file exists")]
    Exists,
}
