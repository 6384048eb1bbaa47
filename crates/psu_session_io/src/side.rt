//! The connections of a session, as types.
ghost use Rattle.psu_hislip.specs.declared.side.Side.{Side};
ghost use Rattle.psu_hislip.specs.declared.side.Side.TheVariants.{Sync, Async};

use psu_hislip::Side;

/// A connection of a session, as a type: so bytes of the one can't be used as bytes of the other.
pub trait ConnectionSide {
    ghost SIDE: { Side };

    /// Which connection it is.
    const SIDE: Side;
}

/// The synchronous connection. A thread of this side executes transmissions and writes their responses.
pub struct Synchronous;

impl ConnectionSide for Synchronous {
    ghost SIDE = { Sync };

    const SIDE: Side = Side::Sync;
}

/// The asynchronous connection. A thread of this side never executes a transmission, nor writes on the synchronous
/// connection, so a device clear does not wait for a client that does not read.
pub struct Asynchronous;

impl ConnectionSide for Asynchronous {
    ghost SIDE = { Async };

    const SIDE: Side = Side::Async;
}
