//! The limits of sessions and of their locks. Contracts state them as numbers.

/// The maximum number of sessions open at once.
pub const SESSIONS: usize = 16;

/// The maximum size of a shared lock's string, in bytes.
pub const LOCK_STRING_MOST: usize = 256;
