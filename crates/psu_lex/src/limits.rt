//! The limits of what messages contain and name. Contracts state them as numbers.

/// The maximum size of a text that is executed, in bytes: of a line, of a transmission, and of the expansion of a macro.
pub const TEXT_MOST: usize = 65_536;

/// The maximum size of a macro's label, in bytes.
pub const LABEL_MOST: usize = 12;

/// The maximum size of a file's name, in bytes.
pub const NAME_MOST: usize = 64;

/// The maximum size of user data, in bytes.
pub const USER_DATA_MOST: usize = 63;

/// The maximum size of a file, in bytes.
pub const FILE_MOST: usize = 32_768;
