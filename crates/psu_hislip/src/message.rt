//! A message of a stream.
use crate::Header;
use std::alloc::Allocator;

/// A message of a stream of bytes.
#[derive(Drop)]
pub enum Message<A: Allocator + Copy> {
    /// A header and its payload, of at most 65,536 bytes.
    Frame(Header, Vec<u8, A>),
    /// A header whose payload is longer and is skipped.
    Oversize(Header),
    /// Sixteen bytes that are not a header. No message follows them.
    BadHeader,
}
