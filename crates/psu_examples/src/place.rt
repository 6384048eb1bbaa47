//! The place of a reader in the guide.
use crate::example::Example;
use std::alloc::Allocator;

/// The place of a reader in the guide.
#[derive(Drop)]
pub(crate) enum Place<A: Allocator + Copy> {
    /// In the text.
    Text,
    /// In a block that is not an example.
    Block,
    /// In an example, with what was read of it.
    Inside(Example<A>),
}
