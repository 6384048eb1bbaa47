//! A load, and what is measured at an output.
use psu_settings::{Milliamperes, Millivolts};

/// A resistance in milliohms.
#[derive(Clone, Copy, Debug, PartialEq, Eq)]
pub struct Milliohms(pub u32);

/// What is measured at an output.
#[derive(Clone, Copy, Debug, PartialEq, Eq)]
pub struct Measured {
    pub voltage: Millivolts,
    pub current: Milliamperes,
    /// Whether the output is in current limit.
    pub limited: bool,
}
