//! The object while it is out of its slot.
ghost use Rattle.std.specs.Prelude.{◌≡◌, true};
ghost use Rattle.psu_turn.specs.Sights.{is_out};

use crate::seat::Place;

/// The object, taken for one call. It has no `Drop`: it can only be given back, by `Turn::leave`.
pub struct Taken<T, S, E> {
    /// To be called once.
    pub object: T,
    pub(crate) place: Place<T, S, E>,
    pub(crate) ticket: u64,
    pub(crate) count: u64,
    ghost out: { is_out ticket count place.me ≡ true },
}
