//! The limits of the contents. Contracts state them as numbers.

/// The number of registers of settings.
pub const REGISTERS: usize = 100;

/// The maximum size of a macro's body, in bytes.
pub(crate) const BODY_MOST: usize = 1_024;

/// The maximum number of macros.
pub(crate) const MACROS_MOST: usize = 32;
