//! Why a command of the program fails.
use psu_disk::OpenFault;
use psu_items::FormatCause;
use psu_run::{RecoverFault, RunCause};
use thiserror::Error;

/// Why a command of the program fails, by the text that standard error shows after `psu: `.
#[derive(Clone, Copy, Debug, PartialEq, Eq, Error)]
pub enum Fault {
    #[error("{0}")]
    File(OpenFault),
    #[error("{0}")]
    Run(RunCause),
    #[error("{0}")]
    Recover(RecoverFault),
    #[error("{0}")]
    Format(FormatCause),
    #[error("write fault")]
    Write,
    #[error("out of memory")]
    Memory,
}
