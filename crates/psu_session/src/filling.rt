//! Whether a session holds so much that a reader waits.
ghost use Rattle.std.specs.Prelude.{◌↔◌, IsTrue};
ghost use Rattle.psu_session.specs.Holding.{IsBounded, IsFull};
ghost use Rattle.psu_session.specs.Shown.{state_of};

use crate::Parts;
use crate::limits::OUTPUT_ROOM;
use psu_hislip::Side;

impl Parts {
    /// Whether so much is held of what was received on a connection, or is to be sent there, that its reader waits.
    pub fn is_full(&self, side: Side) -> bool
        ensures full { IsTrue result ↔ IsFull side (state_of self.now) }
        ensures bounded { IsBounded (state_of self.now) }
    {
        match side {
            Side::Sync => self.held.is_exceeded() || OUTPUT_ROOM < self.sync_output.len(),
            Side::Async => self.owed.is_exceeded() || OUTPUT_ROOM < self.async_output.len(),
        }
    }
}
