//! The entry of a call.
ghost use Rattle.std.specs.Prelude.{Option};

use std::marker::Brand;

/// Which entry a call adds to the history. A caller passes `Brand`, and its proof chooses the entry.
pub trait Naming<E> {
    ghost entry: { Option E };
}

impl<E> Naming<E> for Brand {
    ghost use Rattle.std.specs.Prelude.{None};

    ghost entry = { None };
}
