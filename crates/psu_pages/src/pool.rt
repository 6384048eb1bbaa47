//! The pool of a disk, before any of its pages is claimed.
ghost use Rattle.std.specs.Prelude.{◌≤◌, IfOk};
ghost use Rattle.psu_pages.specs.Free.{IsPool};

use crate::FreeMap;
use std::alloc::{AllocError, Allocator};

/// Returns the map in which all pages of the pool are free, and those of the roots are not.
pub(crate) fn pool<A: Allocator + Copy>(alloc: A, limit: u16) -> Result<FreeMap<A>, AllocError>
    requires { limit ≤ 480 }
    ensures { IfOk result (IsPool limit) }
{
    let mut free = FreeMap::new(alloc, 2 + 2 * limit)?;
    free.claim(0);
    free.claim(1);
    Ok(free)
}
