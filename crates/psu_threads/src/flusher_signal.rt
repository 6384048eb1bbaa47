//! What the flusher waits on.
use std::mem;
use std::rt::Clock;
use std::sync::{Condvar, Mutex, Wait};
use std::time::Duration;

// Whether the flusher is notified, and whether it sleeps.
#[derive(Clone, Copy, Debug, PartialEq, Eq)]
enum SignalState {
    // It is not notified, and awake.
    Quiet,
    // It is not notified, and sleeps.
    Asleep,
    // It is notified: awake, or a thread wakes it.
    Notified,
}

/// What the flusher waits on. To notify it does not allocate.
#[derive(Drop)]
pub struct FlusherSignal {
    state: Mutex<SignalState>,
    changed: Condvar,
}

impl FlusherSignal {
    /// Returns a signal by which the flusher is not notified.
    pub fn new() -> FlusherSignal {
        FlusherSignal {
            state: Mutex::new(SignalState::Quiet),
            changed: Condvar::new(),
        }
    }

    /// Notifies the flusher that there is something to do. Only where it sleeps this is a call of the system.
    pub fn notify<R: Wait>(&self, rt: &R) {
        let before = mem::replace(&mut *self.state.lock(rt), SignalState::Notified);
        if before == SignalState::Asleep {
            self.changed.notify_all();
        }
    }

    /// Waits until the flusher is notified, for so many milliseconds at most, at least one, if a limit is given.
    pub fn wait<R: Wait + Clock>(&self, rt: &R, limit: Option<u64>) {
        let mut state = self.state.lock(rt);
        if *state == SignalState::Quiet {
            *state = SignalState::Asleep;
        }
        let sleeps = |state: &mut SignalState| *state == SignalState::Asleep;
        let mut state = match limit {
            None => self.changed.wait_while(rt, state, sleeps),
            Some(limit) => {
                let limit = Duration::from_millis(limit.max(1));
                self.changed.wait_timeout_while(rt, state, limit, sleeps).0
            }
        };
        *state = SignalState::Quiet;
    }
}
