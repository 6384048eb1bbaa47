//! Why a run ends early.
ghost use Rattle.std.specs.Prelude.{◌≡◌};
ghost use Rattle.psu_run.specs.Ends.{cause_of};
ghost use Rattle.psu_run.specs.declared.run_cause.RunCause.TheVariants.{Memory};

use crate::{OutOfMemory, RecoverFault};
use psu_exec::StartCause;
use thiserror::Error;

/// Why a run ends early.
#[derive(Clone, Copy, Debug, PartialEq, Eq, Error)]
pub enum RunCause {
    /// The reader failed.
    #[error("read fault")]
    Read,
    /// The writer failed, or accepts no more.
    #[error("write fault")]
    Write,
    /// The disk does not power on, at the start or at a restart.
    #[error("{0}")]
    Open(StartCause),
    /// A flush at the end of the input leaves changes that are not flushed, or a unit that waited for a flush can't
    /// continue.
    #[error("device fault")]
    Device,
    /// The input has too many reads or bytes.
    #[error("input too long")]
    TooLong,
    /// An allocation failed outside of a unit.
    #[error("out of memory")]
    Memory(OutOfMemory),
}

impl From<RecoverFault> for RunCause {
    ghost from_gives = { λ fault e. e ≡ cause_of fault };

    fn from(fault: RecoverFault) -> Self {
        match fault {
            RecoverFault::Start(cause) => RunCause::Open(cause),
            RecoverFault::Memory(sign) => RunCause::Memory(sign),
        }
    }
}

impl From<OutOfMemory> for RunCause {
    ghost from_gives = { λ sign e. e ≡ Memory sign };

    fn from(sign: OutOfMemory) -> Self {
        RunCause::Memory(sign)
    }
}
