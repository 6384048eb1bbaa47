//! Why a device doesn't power on or start.
ghost use Rattle.std.specs.Prelude.{◌≡◌};
ghost use Rattle.psu_exec.specs.Starts.{start_of_opening, start_of_power_on};
ghost use Rattle.psu_exec.specs.declared.start_cause.StartFault.TheVariants.{Memory};

use psu_disk::Disk;
use psu_items::{BadImage, OpenCause, Store};
use std::alloc::{AllocError, Allocator};
use thiserror::Error;

/// Why a device doesn't start from its disk, other than for an allocation failure.
#[derive(Clone, Copy, Debug, PartialEq, Eq, Error)]
pub enum StartCause {
    /// A call of the disk failed.
    #[error("device fault")]
    Device,
    /// The disk doesn't have two roots, or none of them is open.
    #[error("no root")]
    NoRoot,
    /// The content of the current root is invalid.
    #[error("bad root")]
    BadRoot,
    /// The current root has a version that is not supported.
    #[error("bad version")]
    BadVersion,
    /// The items encode no contents, or contents that an image of this limit cannot store.
    #[error("bad items")]
    BadItems,
}

/// Why a device doesn't start.
#[derive(Clone, Copy, Debug, PartialEq, Eq, Error)]
pub enum StartFault {
    /// The device doesn't start from its disk.
    #[error("{0}")]
    Start(StartCause),
    /// An allocation failed.
    #[error("out of memory")]
    Memory,
}

impl From<OpenCause> for StartFault {
    ghost from_gives = { λ cause fault. fault ≡ start_of_opening cause };

    fn from(cause: OpenCause) -> Self {
        match cause {
            OpenCause::Device => StartFault::Start(StartCause::Device),
            OpenCause::Image(BadImage::NoRoot) => StartFault::Start(StartCause::NoRoot),
            OpenCause::Image(BadImage::BadRoot) => StartFault::Start(StartCause::BadRoot),
            OpenCause::Image(BadImage::BadVersion) => StartFault::Start(StartCause::BadVersion),
            OpenCause::Memory => StartFault::Memory,
        }
    }
}

impl From<PowerCause> for StartFault {
    ghost from_gives = { λ cause fault. fault ≡ start_of_power_on cause };

    fn from(cause: PowerCause) -> Self {
        match cause {
            PowerCause::BadItems => StartFault::Start(StartCause::BadItems),
            PowerCause::Memory => StartFault::Memory,
        }
    }
}

impl From<AllocError> for StartFault {
    ghost from_gives = { λ _ fault. fault ≡ Memory };

    fn from(_: AllocError) -> Self {
        StartFault::Memory
    }
}

/// Why a power-on failed.
#[derive(Clone, Copy, Debug, PartialEq, Eq)]
pub enum PowerCause {
    /// The items of the store encode no contents, or contents that an image of its limit cannot store.
    BadItems,
    /// An allocation failed.
    Memory,
}

/// A failed power-on: its cause and the store.
#[derive(Drop)]
pub struct PowerFault<D: Disk, A: Allocator + Copy> {
    pub cause: PowerCause,
    pub store: Store<D, A>,
}
