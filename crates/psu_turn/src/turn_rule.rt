//! The rule of the turn's table.
ghost use Rattle.psu_turn.specs.Rule.{OneHistory, newcomer};

use crate::{CountedObject, Machine, View};
use atomic_table::TableRule;
use std::snapshot::Snapshot;

pub(crate) struct TurnRule;

impl<T: Machine> TableRule<Option<CountedObject<T>>, View<T::State, T::Entry>, Snapshot<T>>
    for TurnRule {
    ghost holds = { λ key. OneHistory T.state T.allows (T.state key.value) };

    ghost first = { λ key. newcomer (T.state key.value) };
}
