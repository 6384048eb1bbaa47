//! An item of the map that a commit is to store.
ghost use Rattle.std.specs.Prelude.{◌≡◌, ◌↔◌, IsTrue, true};
ghost use Rattle.psu_map.specs.Target.{item_in};

use crate::Pair;
use crate::search::Keyed;
use std::alloc::Allocator;
use std::marker::Model;

/// An item, as references to its bytes. Contracts see an `Entry` of `specs/`.
#[derive(Drop)]
pub struct Entry<'t> {
    /// The bytes of the key.
    pub key: &'t [u8],
    /// The bytes of the value.
    pub value: &'t [u8],
    /// Whether it is marked as unchanged: the current map has it, with this value.
    pub stands: bool,
}

impl<'t> Model for Entry<'t> {
    ghost use Rattle.psu_map.specs.Target.{Entry};

    ghost Value = { Entry };

    ghost view = { λ e. record { key = e.key.now; value = e.value.now; stands = e.stands } };
}

impl<'t> Keyed for Entry<'t> {
    ghost item = { item_in };

    fn its_key(&self) -> &[u8] {
        self.key
    }
}

impl<'t> Entry<'t> {
    /// Returns an item that is unchanged.
    pub(crate) fn standing<A: Allocator + Copy>(pair: &'t Pair<A>) -> Entry<'t>
        ensures item { item_in result ≡ pair.now }
        ensures stands { result.stands ≡ true }
    {
        Entry {
            key: pair.key(),
            value: pair.value(),
            stands: true,
        }
    }

    /// Whether it is unchanged and has this value.
    pub(crate) fn stands_with(&self, value: &[u8]) -> bool
        ensures { IsTrue result ↔ ((self.now.stands ≡ true) × (self.now.value ≡ value.now)) }
    {
        self.stands && self.value == value
    }
}
