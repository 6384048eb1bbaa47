//! A macro's body.
ghost use Rattle.std.specs.Prelude.{◌≡◌, IfOk};

use std::alloc::{AllocError, Allocator};
use std::marker::Model;

/// The bytes of a macro's body. Contracts see them as a list.
#[derive(Drop)]
pub(crate) struct Body<A: Allocator + Copy> {
    bytes: Vec<u8, A>,
}

impl<A: Allocator + Copy> Model for Body<A> {
    ghost use Rattle.std.specs.Prelude.{List, ℕ};

    ghost Value = { List ℕ };

    ghost view = { λ body. body.bytes.items };
}

impl<A: Allocator + Copy> Body<A> {
    // Copies the bytes into memory of its own.
    pub(crate) fn of(alloc: A, bytes: &[u8]) -> Result<Body<A>, AllocError>
        ensures { IfOk result (λ body. body ≡ bytes.now) }
    {
        Ok(Body {
            bytes: bytes.to_vec(alloc)?,
        })
    }

    pub(crate) fn bytes(&self) -> &[u8]
        ensures { result.now ≡ self.now }
    {
        &self.bytes
    }
}
