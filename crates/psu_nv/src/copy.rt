//! Copying contents.
ghost use Rattle.std.specs.Prelude.{◌≡◌, IfOk};

use crate::Contents;
use std::alloc::{AllocError, Allocator};

impl<A: Allocator + Copy> Contents<A> {
    /// Copies the contents into memory of their own.
    pub fn copy(&self, alloc: A) -> Result<Contents<A>, AllocError>
        ensures { IfOk result (λ copy. copy ≡ self.now) }
    {
        Ok(Contents {
            alloc,
            registers: self.registers.copy(),
            user: self.user.copy(),
            macros: self.macros.copy(alloc)?,
            enables: self.enables,
            files: self.files.copy(alloc)?,
            recall: self.recall,
        })
    }
}
