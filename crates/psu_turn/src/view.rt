//! What a seat knows about the turn.
use crate::{Inherited, Name, Numbered, Stage};
use std::collections::LinkedList;

/// What a seat knows: its number, the object's initial state, the history that it has seen, its own calls, what it took
/// over, and its position in the queue. No value of it is constructed.
pub struct View<S, E> {
    pub name: Name,
    pub opening: Option<S>,
    pub seen: LinkedList<Numbered<E>>,
    pub mine: LinkedList<E>,
    pub inherited: Inherited<E>,
    pub stage: Stage<S>,
}
