//! Why a new instrument does not answer an example.
use psu_run::RunCause;

/// Why a new instrument does not answer an example.
#[derive(Drop)]
pub enum PlayFault {
    /// Memory was refused for its image.
    Memory,
    /// Its run ended early.
    Run(RunCause),
}
