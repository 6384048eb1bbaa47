//! What keeps a value from being dropped.

/// A field of each value that must not be dropped: a job, and what a thread owes to others.
///
/// It has no `Drop`, so a struct with a field of this type has none either, and none can be derived for it. Such a
/// field is private: only code that sees it can make the struct, or take it apart and end this value, so everywhere
/// else a body that lets the struct go does not compile.
pub struct CannotDrop(());

impl CannotDrop {
    /// Begins what must be done.
    #[inline(always)]
    pub fn begin() -> CannotDrop {
        CannotDrop(())
    }

    /// Ends it, once it is done.
    #[inline(always)]
    pub fn end(self) {
        let CannotDrop(()) = self;
    }
}
