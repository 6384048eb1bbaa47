//! Sessions and their service states.
ghost use Rattle.std.specs.Prelude.{◌≡◌, Some, None, IfOk, OnErr, true};
ghost use Rattle.psu_exec.specs.Device.{is_open, service_state_of, with_device};
ghost use Rattle.psu_exec.specs.Calls.{Allows, has_work, unparked, with_answer, with_session};
ghost use Rattle.psu_exec.specs.Calls.Entry.{Opened, Closed, Cleared, Sent, Delivered, Queried, Fetched, Notified};

use crate::service_states::{initial_service_state, rqs_updated, take_unreported};
use crate::waits::least_free;
use crate::{Condition, Crowded, ExecOf, Idle, Notifications, ServiceState, Session, Sessions};
use std::alloc::Allocator;

impl<S: Idle, A: Allocator + Copy> ExecOf<S, A> {
    /// Opens a session under the least free number; `Crowded` if sixteen sessions are open. It requests service if an
    /// enabled bit is set.
    pub fn open_session(&mut self) -> Result<Session, Crowded>
        ensures opened { IfOk result (λ session. Allows self.old.device (Opened (Some session)) self.new.device) }
        ensures open { IfOk result (λ session. is_open self.new.device session ≡ true) }
        ensures crowded { OnErr result (Allows self.old.device (Opened None) self.new.device) }
        ensures idle_store { self.new.idle_store ≡ self.old.idle_store }
    {
        match least_free(&self.open_now) {
            None => Err(Crowded),
            Some(session) => {
                let enabled = self.instrument.enabled(false);
                let service_state = rqs_updated(0, enabled, initial_service_state());
                self.set_session(session, true, service_state);
                Ok(session)
            }
        }
    }

    /// Closes a session, if it is open: drops its wait, its service state, its locks and its lock request. Returns the
    /// sessions whose lock requests were then granted, in order of arrival.
    pub fn close_session(&mut self, session: Session) -> Sessions
        ensures step { Allows self.old.device (Closed session result) self.new.device }
        ensures idle_store { self.new.idle_store ≡ self.old.idle_store }
    {
        if !self.is_open(session) {
            return Sessions::new();
        }
        let granted = self.locks.drop_session(session);
        self.set_session(session, false, initial_service_state());
        granted
    }

    /// Drops the wait of a session, if it is open.
    pub fn clear(&mut self, session: Session)
        ensures step { Allows self.old.device (Cleared session) self.new.device }
        ensures idle_store { self.new.idle_store ≡ self.old.idle_store }

        // Consequences of the step: no session opens or closes, and no lock changes.
        ensures still_open { self.new.device.volatile.open_now ≡ self.old.device.volatile.open_now }
        ensures still_locked { self.new.device.volatile.locks ≡ self.old.device.volatile.locks }
    {
        if self.is_open(session) {
            self.unpark(session);
        }
    }

    // Sets whether a session is open and its service state, and drops its wait.
    fn set_session(&mut self, session: Session, opens: bool, service_state: ServiceState)
        ensures { self.new ≡ with_device self.old (with_session self.old.device session opens service_state) }
    {
        self.open_now[session.place()] = opens;
        self.service_states[session.place()] = service_state;
        self.unpark(session);
    }

    // Drops the wait of a session.
    fn unpark(&mut self, session: Session)
        ensures { self.new ≡ with_device self.old (record self.old.device { flush = unparked self.old.device.flush session }) }
    {
        self.waits[session.place()] = None;
    }

    /// Records that a response was sent to a session, if it is open: a message is available to it (MAV) until it is
    /// delivered. Returns the notifications after that.
    pub fn mark_sent(&mut self, session: Session) -> Notifications
        ensures step { Allows self.old.device (Sent session result.requesting result.has_work) self.new.device }
        ensures idle_store { self.new.idle_store ≡ self.old.idle_store }
    {
        if !self.is_open(session) {
            return Notifications {
                requesting: Sessions::new(),
                has_work: false,
            };
        }
        self.set_available(session, true);
        self.take_notifications()
    }

    /// Records that what was sent to a session is delivered, if it is open.
    pub fn mark_delivered(&mut self, session: Session)
        ensures step { Allows self.old.device (Delivered session) self.new.device }
        ensures idle_store { self.new.idle_store ≡ self.old.idle_store }
    {
        if self.is_open(session) {
            self.set_available(session, false);
        }
    }

    // Sets whether a response was sent to a session that it has not read (MAV), and updates its RQS.
    fn set_available(&mut self, session: Session, available: bool)
        ensures { self.new ≡ with_device self.old (with_answer self.old.device session available) }
    {
        let service_state = self.service_state(session);
        let old = self.instrument.enabled(service_state.available);
        let new = self.instrument.enabled(available);
        let marked = ServiceState {
            available,
            ..service_state
        };
        self.service_states[session.place()] = rqs_updated(old, new, marked);
    }

    // The service state of a session.
    fn service_state(&self, session: Session) -> ServiceState
        ensures { result ≡ service_state_of self.now.device session }
    {
        self.service_states[session.place()]
    }

    /// Answers a status query of a session, by the status byte with its RQS in bit 6, and then clears RQS; 0 if the
    /// session isn't open.
    pub fn query(&mut self, session: Session) -> u8
        ensures step { Allows self.old.device (Queried session result) self.new.device }
        ensures idle_store { self.new.idle_store ≡ self.old.idle_store }
    {
        if !self.is_open(session) {
            return 0;
        }
        let service_state = self.service_state(session);
        let byte = self
            .instrument
            .polled(service_state.available, service_state.rqs);
        self.service_states[session.place()].rqs = false;
        byte
    }

    /// Fetches the service request of a session, one for all that were made since the last fetch: the status byte with
    /// bit 6 set. None if the session isn't open.
    pub fn fetch(&mut self, session: Session) -> Option<u8>
        ensures step { Allows self.old.device (Fetched session result) self.new.device }
        ensures idle_store { self.new.idle_store ≡ self.old.idle_store }
    {
        if !self.is_open(session) {
            return None;
        }
        let service_state = self.service_state(session);
        let byte = if service_state.unfetched {
            Some(self.instrument.polled(service_state.available, true))
        } else {
            None
        };
        self.service_states[session.place()].unfetched = false;
        byte
    }

    /// Returns the open sessions that requested service since the last call, and whether a take would return a job.
    pub fn take_notifications(&mut self) -> Notifications
        ensures step { Allows self.old.device (Notified result.requesting result.has_work) self.new.device }
        ensures idle_store { self.new.idle_store ≡ self.old.idle_store }
    {
        let requesting = take_unreported(&self.open_now, &mut self.service_states);
        Notifications {
            requesting,
            has_work: self.has_work(),
        }
    }

    // Whether a take would return a job.
    fn has_work(&self) -> bool
        ensures { result ≡ has_work self.now.device.flush }
    {
        let changed = self.unflushed != 0;
        self.idle_store.is_some()
            && match self.store {
                Condition::Whole => changed,
                Condition::Broken => true,
                Condition::Worn => false,
            }
    }
}
