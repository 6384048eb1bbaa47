//! How much is read at once, and how much is buffered.

/// How many bytes of messages are read at once.
pub const READ_SIZE: usize = 65_536;

/// How many bytes of responses are buffered before a part of them is sent, or written.
pub const RESPONSE_ROOM: usize = 65_536;
