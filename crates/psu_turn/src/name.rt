//! The number under which the history has the calls of a seat.

/// The number of a seat. No value of it is constructed.
pub enum Name {
    /// The seat was released.
    Spent,
    /// The seat was split from the seat of this number, and has no number of its own yet.
    Unnamed(u64),
    Named(u64),
}
