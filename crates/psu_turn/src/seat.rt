//! A caller's seat.
ghost use Rattle.std.specs.Prelude.{◌≡◌, Some, None};
ghost use Rattle.psu_turn.specs.Sights.{sight, IsReady};

use crate::{CountedObject, View};
use atomic_table::Badge;
use std::marker::Model;
use std::mem;

// A seat at the table, which may have the slot.
pub(crate) type Place<T, S, E> = atomic_table::Seat<Option<CountedObject<T>>, View<S, E>>;

/// A caller's seat: what a thread needs for its calls. It doesn't name the object's type, and may be passed to another
/// thread.
///
/// Contracts see its turn, its number there, the history that it has seen and its own calls (`Sight`). While a call is
/// made with it, between `Turn::enter` and `Turn::leave`, they see none of these.
#[derive(Drop)]
pub struct Seat<S, E> {
    badge: Badge<View<S, E>>,
}

impl<S, E> Model for Seat<S, E> {
    ghost use Rattle.psu_turn.specs.Seats.{Sight};

    ghost Value = { Sight S E };

    ghost use Rattle.psu_turn.specs.Sights.{sight_of, IsAtRest};

    ghost view = { λ s. sight_of s.badge.table_id s.badge.views };

    ghost invariant = { λ s. IsAtRest s.badge.views };
}

impl<S, E> Seat<S, E> {
    /// Returns a blank seat, of no turn, with which no call can be made. It stands in for a seat that is taken out of its
    /// place for a while, and has no bytes.
    pub fn blank() -> Seat<S, E>
        ensures { result.opening ≡ None }
    {
        Seat {
            badge: Badge::blank(),
        }
    }

    // Takes the seat's place at the table. The seat is blank until its place is put back.
    pub(crate) fn rise<T>(&mut self) -> Place<T, S, E>
        requires here { (opening : S) × (self.old.opening ≡ Some opening) }
        ensures ready { IsReady result.me }
        ensures same { sight result.table_id result.me.0 ≡ self.old }
    {
        mem::replace(&mut self.badge, Badge::blank()).into_seat()
    }

    pub(crate) fn rest<T>(place: Place<T, S, E>) -> Seat<S, E>
        requires ready { IsReady place.me }
        ensures same { result ≡ sight place.table_id place.me.0 }
    {
        Seat {
            badge: place.into_badge(),
        }
    }
}
