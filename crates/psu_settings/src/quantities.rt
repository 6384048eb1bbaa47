//! The quantities of settings, each a type of its own.

/// A voltage in millivolts.
#[derive(Clone, Copy, Debug, PartialEq, Eq)]
pub struct Millivolts(pub u32);

impl Millivolts {
    /// The greatest voltage, and the greatest level of the overvoltage protection, of an output.
    pub const GREATEST: Millivolts = Millivolts(60_000);
}

/// A current in milliamperes.
#[derive(Clone, Copy, Debug, PartialEq, Eq)]
pub struct Milliamperes(pub u32);

impl Milliamperes {
    /// The greatest current limit of an output.
    pub const GREATEST: Milliamperes = Milliamperes(5_000);
}
