//! What a seat takes over when another is joined to it.
use crate::Numbered;
use std::collections::LinkedList;

/// What a seat took over. No value of it is constructed.
pub enum Inherited<E> {
    Nothing,
    /// The other seat's number, all that it had seen, and its calls.
    From(u64, LinkedList<Numbered<E>>, LinkedList<E>),
}
