//! The sizes of messages, of their payloads and of transmissions. Contracts state them as numbers.

/// The size of a header, in bytes.
pub const HEADER_SIZE: u64 = 16;

/// The maximum size of a received payload that is kept, in bytes.
pub const PAYLOAD_MOST: u64 = 65_536;

/// The maximum size of a transmission, in bytes.
pub const TRANSMISSION_MOST: usize = 65_536;

/// The maximum size of a payload that is sent, in bytes: with its header it is as large as a payload may be.
pub const SENT_PAYLOAD_MOST: u64 = 65_520;

/// The maximum message size that the server accepts, 65,536 bytes, as AsyncMaximumMessageSizeResponse carries it.
pub(crate) const MESSAGE_SIZE: [u8; 8] = [0, 0, 0, 0, 0, 1, 0, 0];
