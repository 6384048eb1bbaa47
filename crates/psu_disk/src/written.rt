//! The ranges written since the last successful sync, up to a maximum number of them.
ghost use Rattle.std.specs.Prelude.{◌≡◌, ◌<◌, ◌≤◌, ◌∷◌, ◌++◌, [], length, false, true, vec_capacity, IfOk};
ghost use Rattle.psu_disk.specs.Medium.{KeepsRange};

use crate::touched::Span;
use std::alloc::{AllocError, Allocator};

// The maximum number of ranges that are kept: more than a commit writes.
const RANGES_MOST: usize = 1024;

// The spans that are kept. If it is full, there were others.
#[derive(Drop)]
pub(crate) struct Written<A: Allocator> {
    pub(crate) spans: Vec<Span, A>,
    pub(crate) full: bool,
    ghost room: { 1024 ≤ vec_capacity spans },
}

impl<A: Allocator> Written<A> {
    // Returns ranges of which none is known. All the memory is allocated now, so that none is needed later.
    pub(crate) fn full(alloc: A) -> Result<Written<A>, AllocError>
        ensures spans { IfOk result (λ written. written.spans.items ≡ []) }
        ensures full { IfOk result (λ written. written.full ≡ true) }
    {
        Ok(Written {
            spans: Vec::with_capacity(alloc, RANGES_MOST)?,
            full: true,
        })
    }

    // Adds a written range if fewer than 1,024 are kept; otherwise they are full.
    pub(crate) fn add(&mut self, span: Span)
        ensures keeps { KeepsRange span self.old.spans.items self.new.spans.items self.old.full self.new.full }
        ensures room { length self.old.spans.items < 1024 → (self.new.spans.items ≡ self.old.spans.items ++ span ∷ []) × (self.new.full ≡ self.old.full) }
    {
        if self.spans.len() < RANGES_MOST {
            self.spans.push_reserved(span);
        } else {
            self.full = true;
        }
    }

    // Resets the ranges to none.
    pub(crate) fn clear(&mut self)
        ensures spans { self.new.spans.items ≡ [] }
        ensures full { self.new.full ≡ false }
    {
        self.spans.clear();
        self.full = false;
    }
}
