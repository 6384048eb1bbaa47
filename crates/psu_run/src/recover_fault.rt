//! Why an image has no report, or no device powers on from it.
use crate::OutOfMemory;
use psu_exec::StartCause;
use thiserror::Error;

/// Why an image has no report, or no device powers on from it.
#[derive(Clone, Copy, Debug, PartialEq, Eq, Error)]
pub enum RecoverFault {
    /// The device does not start from the disk.
    #[error("{0}")]
    Start(StartCause),
    /// An allocation failed.
    #[error("out of memory")]
    Memory(OutOfMemory),
}
