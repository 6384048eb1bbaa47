//! Why an image isn't opened, a disk isn't formatted, and calls on pages fail.
ghost use Rattle.std.specs.Prelude.{◌≡◌};
ghost use Rattle.psu_pages.specs.declared.faults.OpenCause.TheVariants as open_cause;
ghost use Rattle.psu_pages.specs.declared.faults.PageFault.TheVariants as page_fault;

use psu_disk::DiskFault;
use std::alloc::AllocError;
use thiserror::Error;

/// Why an image represents no items.
#[derive(Clone, Copy, Debug, PartialEq, Eq, Drop)]
pub enum BadImage {
    /// The disk is too small for two roots, or neither of them is open.
    NoRoot,
    /// The current root isn't of this format, or its contents are invalid; or both roots are open and have the same
    /// number.
    BadRoot,
    /// The current root is of a version that isn't supported.
    BadVersion,
}

/// Why a disk isn't opened.
#[derive(Clone, Copy, Debug, PartialEq, Eq, Drop)]
pub enum OpenCause {
    /// A call of the disk failed.
    Device,
    /// The image on the disk represents no items.
    Image(BadImage),
    /// An allocation failed.
    Memory,
}

impl From<DiskFault> for OpenCause {
    ghost from_gives = { λ _ e. e ≡ open_cause.Device };

    fn from(_: DiskFault) -> Self {
        OpenCause::Device
    }
}

impl From<BadImage> for OpenCause {
    ghost from_gives = { λ bad e. e ≡ open_cause.Image bad };

    fn from(bad: BadImage) -> Self {
        OpenCause::Image(bad)
    }
}

impl From<AllocError> for OpenCause {
    ghost from_gives = { λ _ e. e ≡ open_cause.Memory };

    fn from(_: AllocError) -> Self {
        OpenCause::Memory
    }
}

/// A disk whose image wasn't opened, and why.
#[derive(Drop)]
pub struct ImageError<D> {
    pub cause: OpenCause,
    pub disk: D,
}

/// Why a disk wasn't formatted.
#[derive(Clone, Copy, Debug, PartialEq, Eq, Error)]
pub enum FormatCause {
    /// A call of the disk failed.
    #[error("device fault")]
    Device,
    /// An allocation failed.
    #[error("out of memory")]
    Memory,
}

/// A disk that wasn't formatted. What it holds is unspecified.
#[derive(Drop)]
pub struct FormatFault<D> {
    pub cause: FormatCause,
    pub disk: D,
}

/// Why a call on pages failed.
#[derive(Clone, Copy, Debug, PartialEq, Eq, Drop)]
pub enum PageFault {
    /// Too few pages are free.
    NoPage,
    /// A call of the disk failed.
    Device,
    /// An allocation failed.
    Memory,
}

impl From<DiskFault> for PageFault {
    ghost from_gives = { λ _ e. e ≡ page_fault.Device };

    fn from(_: DiskFault) -> Self {
        PageFault::Device
    }
}

impl From<AllocError> for PageFault {
    ghost from_gives = { λ _ e. e ≡ page_fault.Memory };

    fn from(_: AllocError) -> Self {
        PageFault::Memory
    }
}
