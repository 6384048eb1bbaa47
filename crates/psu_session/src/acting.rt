//! What is done immediately for an action of a message.
ghost use Rattle.std.specs.Prelude.{◌≡◌, ◌+◌, ◌<◌, IfErr, OnOk, OnErr, [], ◌∷◌, Some, false};
ghost use Rattle.psu_hislip.specs.Action.{act};
ghost use Rattle.psu_hislip.specs.Header.{header_bytes};
ghost use Rattle.psu_hislip.specs.declared.side.Side.TheVariants.{Async};
ghost use Rattle.psu_session.specs.Credit.{cost, cost_of};
ghost use Rattle.psu_session.specs.Locking.{kind_of};
ghost use Rattle.psu_session.specs.Events.{Put, calls};
ghost use Rattle.psu_session.specs.Step.{Does, IsInformed, IsLocked, IsQueried, delivers, puts, release_in, works_in};
ghost use Rattle.psu_session.specs.Serving.{Appends, Runs};
ghost use Rattle.psu_session.specs.Room.{HasReplyRoom, HasRoom, KeepsCapacity};
ghost use Rattle.psu_session.specs.Shown.{order_of, state_of};
ghost use Rattle.psu_session.specs.State.{Execute, added};
ghost use Rattle.psu_session.specs.Stopping.{IsQueueCause};
ghost use Rattle.psu_session.specs.declared.phase.EndCause.TheVariants.{Memory, TooMuchHeld};

use crate::locking::lock_kind;
use crate::{Device, EndCause, Order, Parts, Release, Work};
use psu_hislip::{
    Action, Header, LockResponse, MessageType, Origin, Side, lock_info_response, lock_response,
};
use psu_lex::ScpiError;
use psu_locks::Kind;
use psu_messages::Input;
use std::alloc::Global;

// Reports to the device that the client has read the last response whole, if the client said so.
fn deliver<D: Device>(device: &mut D, is_delivered: bool)
    ensures { Runs D.does device.old (calls (delivers is_delivered)) device.new }
{
    if is_delivered {
        device.mark_delivered();
    }
}

impl Parts {
    // Appends frames to the output of a connection.
    pub(crate) fn put(&mut self, side: Side, frames: &[u8]) -> Result<(), EndCause>
        ensures done { OnOk result (state_of self.new ≡ added (state_of self.old) [] [] (Put side frames.now ∷ [])) }
        ensures cause { IfErr result (λ cause. cause ≡ Memory) }
        ensures capacity { KeepsCapacity self.old self.new }
    {
        match side {
            Side::Sync => {
                self.sync_output.extend_from_slice(frames)?;
            }
            Side::Async => {
                self.async_output.extend_from_slice(frames)?;
            }
        }
        Ok(())
    }

    // Appends a message without payload to the output of the asynchronous connection.
    pub(crate) fn put_header(&mut self, header: Header)
        requires { HasReplyRoom self.old }
        ensures done { state_of self.new ≡ added (state_of self.old) [] [] (puts header) }
        ensures capacity { KeepsCapacity self.old self.new }
    {
        self.async_output
            .extend_from_slice(&header.bytes())
            .unwrap();
    }

    // Queues a transmission, unless more would be held than a session may hold.
    #[inline(always)]
    fn order(&mut self, origin: Origin, input: Input<Global>) -> Result<(), EndCause>
        requires { HasRoom self.old }
        ensures done { OnOk result (state_of self.new ≡ added (state_of self.old) (Execute (order_of (record { origin = origin; input = input })) ∷ []) [] []) }
        ensures refused { IfErr result (λ cause. (cause ≡ TooMuchHeld)
            × (4194304 < (state_of self.old).held + cost_of
            (order_of (record { origin = origin; input = input })))) }
        ensures capacity { KeepsCapacity self.old self.new }
    {
        self.held.take(input.size())?;
        self.waiting
            .push_back_reserved(Work::Execute(Order { origin, input }));
        Ok(())
    }

    // Adds a release that waits for the message of a number, unless more would be held than a session may hold.
    fn ask_release(&mut self, now: u64, number: u32) -> Result<(), EndCause>
        requires { HasRoom self.old }
        ensures done { OnOk result (state_of self.new ≡ added (state_of self.old) [] (record { number = number; requested_at = now } ∷ []) []) }
        ensures refused { IfErr result (λ cause. (cause ≡ TooMuchHeld) × (4194304 < (state_of self.old).owed + cost 0)) }
        ensures capacity { KeepsCapacity self.old self.new }
    {
        self.owed.take(0)?;
        self.releases.push_back_reserved(Release {
            number,
            requested_at: now,
        });
        Ok(())
    }

    // Answers a status query, after the last response counts as read if the client said so.
    fn answer_status<D: Device>(&mut self, device: &mut D, is_delivered: bool)
        requires { HasReplyRoom self.old }
        ensures done { Appends D.does (IsQueried is_delivered) [] [] (state_of self.old) device.old (state_of self.new) device.new }
        ensures capacity { KeepsCapacity self.old self.new }
    {
        deliver(device, is_delivered);
        let byte = device.query();
        self.put_header(Header::new(MessageType::AsyncStatusResponse, byte, 0, 0));
    }

    // Requests a lock. A request that waits is answered once it has a result.
    fn ask_for_lock<D: Device>(&mut self, device: &mut D, timeout: u32, kind: Kind)
        requires { HasReplyRoom self.old }
        ensures done { Appends D.does (IsLocked false timeout (Some kind)) [] [] (state_of self.old) device.old (state_of self.new) device.new }
        ensures capacity { KeepsCapacity self.old self.new }
    {
        let reply = device.lock(kind, timeout);
        match lock_response(reply) {
            Some(header) => self.put_header(header),
            None => self.lock_waits = true,
        }
    }

    // Requests the lock of a string. A string that no lock has is refused, and so is a request while another one waits:
    // its result could else be taken for that of the first.
    fn answer_lock<D: Device>(&mut self, device: &mut D, timeout: u32, string: &[u8])
        requires { HasReplyRoom self.old }
        ensures done { Appends D.does (IsLocked (state_of self.old).lock_waits timeout (kind_of string.now)) [] []
            (state_of self.old) device.old (state_of self.new) device.new }
        ensures capacity { KeepsCapacity self.old self.new }
    {
        if self.lock_waits {
            self.put_header(LockResponse::Error.header());
            return;
        }
        match lock_kind(string) {
            Some(kind) => self.ask_for_lock(device, timeout, kind),
            None => self.put_header(LockResponse::Error.header()),
        }
    }

    // Answers which locks are held.
    fn answer_info<D: Device>(&mut self, device: &mut D)
        requires { HasReplyRoom self.old }
        ensures done { Appends D.does IsInformed [] [] (state_of self.old) device.old (state_of self.new) device.new }
        ensures capacity { KeepsCapacity self.old self.new }
    {
        let info = device.inform();
        self.put_header(lock_info_response(info));
    }

    /// Does what an action of a message requests, or queues it.
    #[inline(always)]
    pub(crate) fn act<D: Device>(
        &mut self,
        device: &mut D,
        now: u64,
        number: u32,
        action: Action<Global>,
    ) -> Result<(), EndCause>
        requires { HasRoom self.old }
        ensures done { OnOk result (Appends D.does (Does (state_of self.old).lock_waits (act action))
            (works_in (act action)) (release_in now number (act action)) (state_of self.old) device.old
            (state_of self.new) device.new) }
        ensures uncalled { OnErr result (device.new ≡ device.old) }
        ensures cause { IfErr result (λ cause. IsQueueCause cause (works_in (act action)) (release_in now number (act action)) (state_of self.old)) }
        ensures capacity { KeepsCapacity self.old self.new }
    {
        match action {
            Action::Send(side, frames) => self.put(side, frames.as_slice()),
            Action::Execute(origin, text) => self.order(origin, Input::Text(text)),
            Action::TooMuch(origin) => self.order(origin, Input::Fault(ScpiError::TooMuchData)),
            Action::Trigger(origin) => self.order(origin, Input::Fault(ScpiError::TriggerIgnored)),
            Action::Delivered => {
                device.mark_delivered();
                Ok(())
            }
            Action::Status(is_delivered) => {
                self.answer_status(device, is_delivered);
                Ok(())
            }
            Action::Lock(timeout, string) => {
                self.answer_lock(device, timeout, string.as_slice());
                Ok(())
            }
            Action::Release => self.ask_release(now, number),
            Action::Info => {
                self.answer_info(device);
                Ok(())
            }
            Action::Clear => {
                device.clear();
                Ok(())
            }
            Action::Closed => Ok(()),
        }
    }
}
