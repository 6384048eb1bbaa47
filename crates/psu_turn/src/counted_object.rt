//! The content of the table's slot.

/// The object, and the number of calls that were made on it.
#[derive(Drop)]
pub struct CountedObject<T> {
    pub object: T,
    pub count: u64,
}
