//! The device of a session.
ghost use Rattle.psu_replies.specs.Reply.{outcome_of};
ghost use Rattle.psu_session.specs.Events.{Call, Executed, Settled, Sent, Delivered, Queried, Fetched, Locked, Released, Informed, Cleared};

use psu_locks::{Freed, Grant, Info, Kind, LockRefusal};
use psu_replies::Outcome;
use psu_tree::Request;
use std::alloc::Global;

/// The device of a session. It is known only by how a call (`Call`) leads from one of its states to another.
pub trait Device {
    /// A call, with its reply.
    ghost does: { Self → Call → Self → Type 0 };

    /// Tries a unit.
    fn execute(&mut self, request: &Request<'_>) -> Outcome<Global>
        ensures { does self.old (Executed request.now (outcome_of result)) self.new };

    /// Returns the result of the wait of a unit that was accepted.
    fn settle(&mut self) -> Outcome<Global>
        ensures { does self.old (Settled (outcome_of result)) self.new };

    /// A response is sent.
    fn mark_sent(&mut self)
        ensures { does self.old Sent self.new };

    /// The client has read the last response whole.
    fn mark_delivered(&mut self)
        ensures { does self.old Delivered self.new };

    /// Returns the status byte for a status query.
    fn query(&mut self) -> u8
        ensures { does self.old (Queried result) self.new };

    /// Returns the status byte of the service request that is to be sent, if there is one.
    fn fetch(&mut self) -> Option<u8>
        ensures { does self.old (Fetched result) self.new };

    /// Requests a lock, with a timeout in milliseconds.
    fn lock(&mut self, kind: Kind, timeout: u32) -> Result<Grant, LockRefusal>
        ensures { does self.old (Locked kind timeout result) self.new };

    /// Releases a lock.
    fn release(&mut self) -> Result<Freed, LockRefusal>
        ensures { does self.old (Released result) self.new };

    /// Returns which locks are held.
    fn inform(&mut self) -> Info
        ensures { does self.old (Informed result) self.new };

    /// A device clear begins.
    fn clear(&mut self)
        ensures { does self.old Cleared self.new };
}
