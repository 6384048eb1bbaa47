//! One call of a history.

/// An entry of the history, with the number of the seat that made the call. No value of it is constructed.
pub struct Numbered<E> {
    pub seat: u64,
    pub entry: E,
}
