//! Which gates of the two roots are open.

/// The state of the gates of the two roots.
#[derive(Clone, Copy, Debug, PartialEq, Eq, Drop)]
pub enum Standing {
    /// The gate of the current root is open, and the other is closed.
    One,
    /// The gate of the older root is open beside that of the current root.
    Both,
    /// A call of the disk failed during a write: which root is the current one is not known.
    Unsure,
}
