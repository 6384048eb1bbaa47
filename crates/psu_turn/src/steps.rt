//! The kinds of step, each with what its seat learns from it.
ghost use Rattle.psu_turn.specs.Rule.{spent};
ghost use Rattle.psu_turn.specs.Steps.{draws, takes_turn, is_called, adds, leaves, looks, is_named, child, joined};

use crate::{CountedObject, Machine, Naming, View};
use atomic_table::{Join, Play, Split};
use std::marker::PhantomData;

// A ticket is drawn.
pub(crate) struct Draw;

impl<T, S, E> Play<Option<CountedObject<T>>, View<S, E>> for Draw {
    ghost then = { draws };
}

// The served ticket is looked at, and the object is taken if the ticket is the seat's.
pub(crate) struct Take;

impl<T: Machine> Play<Option<CountedObject<T>>, View<T::State, T::Entry>> for Take {
    ghost then = { takes_turn T.state };
}

// The served ticket is looked at, and the object stays.
pub(crate) struct Know;

impl<T, S, E> Play<Option<CountedObject<T>>, View<S, E>> for Know {
    ghost then = { is_called };
}

// An entry is added to the history.
pub(crate) struct Add<J> {
    marker: PhantomData<J>,
}

impl<T: Machine, J: Naming<T::Entry>> Play<Option<CountedObject<T>>, View<T::State, T::Entry>>
    for Add<J> {
    ghost then = { adds T.state T.allows J.entry };
}

// The turn is released.
pub(crate) struct Leave;

impl<T, S, E> Play<Option<CountedObject<T>>, View<S, E>> for Leave {
    ghost then = { leaves };
}

// The history is looked at.
pub(crate) struct Look;

impl<T: Machine> Play<Option<CountedObject<T>>, View<T::State, T::Entry>> for Look {
    ghost then = { looks T.allows };
}

// A seat that was split off gets its number.
pub(crate) struct Call;

impl<T, S, E> Play<Option<CountedObject<T>>, View<S, E>> for Call {
    ghost then = { is_named };
}

pub(crate) struct Fork;

impl<S, E> Split<View<S, E>> for Fork {
    ghost left = { λ v. v };

    ghost right = { child };
}

pub(crate) struct Merge;

impl<S, E> Join<View<S, E>> for Merge {
    ghost both = { joined };

    ghost spent = { spent };
}
