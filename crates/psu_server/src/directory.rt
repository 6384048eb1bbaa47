//! The sessions that a connection may join.
ghost use Rattle.std.specs.Prelude.{◌≡◌, IfSome};
ghost use Rattle.std.specs.Arc.{arc_value};

use psu_bench::ServedDisk;
use psu_exec::Session;
use psu_threads::SessionOf;
use std::sync::Arc;

/// The sessions that a second connection may join. A thread holds it for one call of its methods, and takes no other lock
/// meanwhile.
#[derive(Drop)]
pub(crate) struct Directory<D: ServedDisk> {
    sessions: [Option<Arc<SessionOf<D>>>; 16],
}

impl<D: ServedDisk> Directory<D> {
    /// Returns a directory without sessions.
    pub fn new() -> Directory<D> {
        Directory {
            sessions: [
                None, None, None, None, None, None, None, None, None, None, None, None, None, None,
                None, None,
            ],
        }
    }

    /// Sets which session has a number; none where its session is about to be closed.
    pub fn set(&mut self, number: Session, session: Option<Arc<SessionOf<D>>>) {
        self.sessions[number.place()] = session;
    }

    /// Returns the session of a number.
    pub fn session(&self, number: Session) -> Option<Arc<SessionOf<D>>>
        ensures { IfSome result (λ session. (arc_value session).number ≡ number) }
    {
        let session = self.sessions[number.place()].as_ref()?;
        if session.number != number {
            return None;
        }
        Arc::try_clone(session).ok()
    }
}
