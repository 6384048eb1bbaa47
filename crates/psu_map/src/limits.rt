//! The size of a page. Contracts state it as a number.

/// The size of a page, in bytes: what the cost of a map is counted in, and what the image that stores it is divided into.
pub const PAGE_SIZE: usize = 512;
