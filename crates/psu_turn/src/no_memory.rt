//! The error of creating a turn.

/// There was no memory for a turn. The object is returned.
#[derive(Drop)]
pub struct NoMemory<T> {
    pub object: T,
}
