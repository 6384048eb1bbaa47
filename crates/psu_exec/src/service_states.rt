//! The service states of sessions, and the bits that cause a service request.
ghost use Rattle.std.specs.Prelude.{◌≡◌, ◌+◌, ◌<◌, ◌≤◌, ◌&&◌, ◌++◌, ℕ, false, get_or, length, map};
ghost use Rattle.psu_exec.specs.ServiceStates.{rqs_updated, rqs_updated_by, named, initial_service_state, reported, unreported_from};

use crate::{SESSIONS, Session, Sessions};

/// The service state of a session: whether a response was sent that it has not read (MAV), its request for service
/// (RQS), and whether it has a service request that is not fetched, and one that is not reported by `take_notifications`. That of a
/// session which isn't open has no meaning.
#[derive(Clone, Copy, Debug, PartialEq, Eq)]
pub struct ServiceState {
    /// MAV: a response was sent that is not known to be delivered.
    pub available: bool,
    /// RQS.
    pub rqs: bool,
    /// A service request was made that is not fetched.
    pub unfetched: bool,
    /// A service request was made since the last call of `take_notifications`.
    pub unreported: bool,
}

/// The enabled bits of a session that has read its responses, and of one that has not.
#[derive(Clone, Copy, Debug, PartialEq, Eq)]
pub struct Enabled {
    pub read: u8,
    pub unread: u8,
}

impl Enabled {
    ghost use Rattle.psu_exec.specs.ServiceStates.{bits_of};

    /// The enabled bits of a session, by whether a response was sent that it has not read.
    pub fn bits(self, available: bool) -> u8
        ensures { result ≡ bits_of self available }
    {
        if available { self.unread } else { self.read }
    }
}

/// The service state of a session that was sent no response and has not requested service.
pub(crate) fn initial_service_state() -> ServiceState
    ensures { result ≡ initial_service_state }
{
    ServiceState {
        available: false,
        rqs: false,
        unfetched: false,
        unreported: false,
    }
}

/// Returns the service state of a session whose enabled bits were `old` and are `new`. If one of them rises, RQS is
/// set and service is requested, unless RQS was set before; if none of them is left, RQS is cleared.
pub(crate) fn rqs_updated(old: u8, new: u8, service_state: ServiceState) -> ServiceState
    ensures { result ≡ rqs_updated old new service_state }
{
    if (old ^ new) & new != 0 {
        if service_state.rqs {
            return service_state;
        }
        return ServiceState {
            available: service_state.available,
            rqs: true,
            unfetched: true,
            unreported: true,
        };
    }
    if new == 0 && old != 0 {
        return ServiceState {
            rqs: false,
            ..service_state
        };
    }
    service_state
}

// The service state of a session after a change of the status alone.
fn rqs_updated_by(old: Enabled, new: Enabled, service_state: ServiceState) -> ServiceState
    ensures { result ≡ rqs_updated_by old new service_state }
{
    rqs_updated(
        old.bits(service_state.available),
        new.bits(service_state.available),
        service_state,
    )
}

/// Updates RQS of all sessions after a change of the status.
pub(crate) fn follow(service_states: &mut [ServiceState; SESSIONS], old: Enabled, new: Enabled)
    ensures { service_states.new ≡ map (rqs_updated_by old new) service_states.old }
{
    if old.read == new.read && old.unread == new.unread {
        return;
    }
    follow_each(service_states, old, new);
}

fn follow_each(service_states: &mut [ServiceState; SESSIONS], old: Enabled, new: Enabled)
    ensures { service_states.new ≡ map (rqs_updated_by old new) service_states.old }
{
    for i in 0..SESSIONS {
        service_states[i] = rqs_updated_by(old, new, service_states[i]);
    }
}

// Whether a session has a service request to report. All are looked at, without a branch: mostly there is none.
#[inline(always)]
fn some_unreported(service_states: &[ServiceState; SESSIONS]) -> bool
    ensures { result ≡ false → (i : ℕ) → i < 16 → (get_or service_states.now i initial_service_state).unreported ≡ false }
{
    let mut some = false;
    for i in 0..SESSIONS {
        some = some || service_states[i].unreported;
    }
    some
}

// Adds the session of a place if it is open and has a service request to report.
fn push_unreported(
    sessions: &mut Sessions,
    place: usize,
    is_open: bool,
    service_state: ServiceState,
)
    requires place { place < 16 }
    requires room { length sessions.old ≤ place }
    ensures { sessions.new ≡ sessions.old ++ named (place + 1) (is_open && service_state.unreported) }
{
    if is_open && service_state.unreported {
        sessions.push(Session::at(place));
    }
}

/// Returns the open sessions that have a service request to report, and marks the requests of all as reported.
pub(crate) fn take_unreported(
    open_now: &[bool; SESSIONS],
    service_states: &mut [ServiceState; SESSIONS],
) -> Sessions
    ensures requesting { result ≡ unreported_from 1 open_now.now service_states.old }
    ensures reported { service_states.new ≡ map reported service_states.old }
{
    let mut requesting = Sessions::new();
    if !some_unreported(service_states) {
        return requesting;
    }
    for i in 0..SESSIONS {
        push_unreported(&mut requesting, i, open_now[i], service_states[i]);
        service_states[i].unreported = false;
    }
    requesting
}
