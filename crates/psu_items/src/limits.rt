//! The sizes of the images that the program makes. Contracts state them as numbers.

/// The number of pages that the items of such an image may cost.
pub const IMAGE_LIMIT: u16 = 256;

/// The size of such an image, in bytes: two roots and twice the limit, in pages of 512 bytes.
pub const IMAGE_SIZE: u64 = 263_168;
