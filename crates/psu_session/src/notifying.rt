//! Notifications of what other sessions cause.
ghost use Rattle.std.specs.Prelude.{◌≡◌, []};
ghost use Rattle.psu_session.specs.Room.{HasReplyRoom, KeepsCapacity};
ghost use Rattle.psu_session.specs.Step.{IsServiceRequested, IsLockGranted};
ghost use Rattle.psu_session.specs.Serving.{Appends};
ghost use Rattle.psu_session.specs.Shown.{state_of};

use crate::{Device, Parts};
use psu_hislip::{Header, MessageType, lock_response};
use psu_locks::Grant;

impl Parts {
    /// Answers the lock request that waits, if there is one, with its result.
    pub fn lock_granted<D: Device>(&mut self, grant: Grant, device: &mut D)
        requires { HasReplyRoom self.old }
        ensures done { Appends D.does (IsLockGranted (state_of self.old).lock_waits grant) [] [] (state_of self.old) device.old (state_of self.new) device.new }
        ensures uncalled { device.new ≡ device.old }
        ensures capacity { KeepsCapacity self.old self.new }
    {
        if !self.lock_waits {
            return;
        }
        if let Some(header) = lock_response(Ok(grant)) {
            self.lock_waits = false;
            self.put_header(header);
        }
    }

    /// Sends the session's service request, if the device has one.
    pub fn service_requested<D: Device>(&mut self, device: &mut D)
        requires { HasReplyRoom self.old }
        ensures done { Appends D.does IsServiceRequested [] [] (state_of self.old) device.old (state_of self.new) device.new }
        ensures capacity { KeepsCapacity self.old self.new }
    {
        if let Some(byte) = device.fetch() {
            self.put_header(Header::new(MessageType::AsyncServiceRequest, byte, 0, 0));
        }
    }
}
