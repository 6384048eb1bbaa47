//! The other threads of the server, for a thread that calls the device. This is trusted and not proved: that each method
//! posts the notices that it is named for.
use crate::registry::Registry;
use crate::server::Server;
use psu_bench::{LockedRegistry, Others};
use psu_exec::{Grant, Session, Sessions};
use psu_session_io::Notice;
use std::sync::{MutexGuard, Wait};

/// Reports to the other threads of the server what the calls of a thread have caused.
#[derive(Drop)]
pub struct Reporter<'a, 'r, R: Wait> {
    pub rt: &'r R,
    pub server: &'a Server,
}

/// The registry of the server, locked by a thread.
#[derive(Drop)]
pub struct HeldRegistry<'a, 'r, R: Wait> {
    rt: &'r R,
    pub registry: MutexGuard<'a, Registry>,
}

impl<'a, 'r, R: Wait> Reporter<'a, 'r, R> {
    // Posts a notice to sessions.
    fn post(&self, sessions: &Sessions, notice: Notice) {
        let registry = self.server.registry.lock(self.rt);
        registry.post(self.rt, sessions, notice);
    }

    /// Wakes a session: what its next unit waits for may have come.
    pub fn wake(&self, session: Session) {
        let mut sessions = Sessions::new();
        sessions.push(session);
        self.post(&sessions, Notice::Continue);
    }
}

impl<'a, 'r, R: Wait> Others for Reporter<'a, 'r, R> {
    type Registry = HeldRegistry<'a, 'r, R>;

    ghost tells = { λ _ _ _. Unit {0} };

    fn lock_registry(&self) -> HeldRegistry<'a, 'r, R> {
        HeldRegistry {
            rt: self.rt,
            registry: self.server.registry.lock(self.rt),
        }
    }

    fn service_requested(&mut self, sessions: &Sessions) {
        self.post(sessions, Notice::Service);
    }

    fn wake_flusher(&mut self) {
        self.server.flusher_signal.notify(self.rt);
    }

    fn job_ended(&mut self, over: &Sessions) {
        let registry = self.server.registry.lock(self.rt);
        registry.post(self.rt, over, Notice::Continue);
        registry.wake_late(self.rt);
    }
}

impl<'a, 'r, R: Wait> LockedRegistry for HeldRegistry<'a, 'r, R> {
    ghost passes = { λ _ _ _. Unit {0} };

    fn pass_on(&mut self, sessions: &Sessions, grant: Grant) {
        match grant {
            Grant::Granted => {
                self.registry.post(self.rt, sessions, Notice::Granted);
                self.registry.wake_all(self.rt);
            }
            Grant::Failed => self.registry.post(self.rt, sessions, Notice::Failed),
            Grant::Queued => {}
        }
    }
}
