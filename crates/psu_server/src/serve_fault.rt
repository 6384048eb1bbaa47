//! Why a server does not start.
ghost use Rattle.std.specs.Prelude.{◌≡◌};
ghost use Rattle.std.specs.IoError.{error_kind};
ghost use Rattle.std.specs.declared.io.ErrorKind.TheVariants as ErrorKind;
ghost use Rattle.psu_exec.specs.declared.start_cause.StartFault.TheVariants as StartFault;
ghost use Rattle.psu_server.specs.declared.serve_fault.ServeFault.TheVariants as ServeFault;

use psu_disk::OpenFault;
use psu_exec::StartFault;
use std::io::{Error as IoError, ErrorKind};
use thiserror::Error;

/// Why a server does not start.
#[derive(Clone, Copy, Debug, PartialEq, Eq, Error)]
pub enum ServeFault {
    /// The file of the image is not opened.
    #[error("{0}")]
    File(OpenFault),
    /// The device does not start, or an allocation failed.
    #[error("{0}")]
    Start(StartFault),
    /// The port is taken, or the network or the clock fails.
    #[error("network fault")]
    Network,
}

impl From<IoError> for ServeFault {
    ghost from_gives = { λ error fault.
        (error_kind error ≡ ErrorKind.OutOfMemory → fault ≡ ServeFault.Start StartFault.Memory)
        × ((error_kind error ≡ ErrorKind.OutOfMemory → ⊥) → fault ≡ ServeFault.Network) };

    fn from(error: IoError) -> Self {
        match error.kind() {
            ErrorKind::OutOfMemory => ServeFault::Start(StartFault::Memory),
            _ => ServeFault::Network,
        }
    }
}
