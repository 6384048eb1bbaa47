//! The device of a script's sessions.
use psu_disk::MemDisk;
use psu_exec::{Exec, Freed, Grant, Info, Kind, LockRefusal, Outcome, Request, Session, Sessions};
use psu_session::Device;
use std::alloc::Global;

/// A device on a disk in memory.
pub(crate) type Power = Exec<MemDisk<Global>, Global>;

/// A device in memory, for the session that calls it now.
#[derive(Drop)]
pub(crate) struct MemDevice<'a> {
    pub(crate) exec: &'a mut Power,
    /// The session that calls it.
    pub(crate) session: Session,
    /// The sessions that were granted a lock when one was released.
    pub(crate) granted: Sessions,
}

impl<'a> Device for MemDevice<'a> {
    ghost does = { λ _ _ _. Unit {0} };

    fn execute(&mut self, request: &Request<'_>) -> Outcome<Global> {
        self.exec.execute(self.session, request)
    }

    fn settle(&mut self) -> Outcome<Global> {
        self.exec.settle(self.session)
    }

    fn mark_sent(&mut self) {
        self.exec.mark_sent(self.session);
    }

    fn mark_delivered(&mut self) {
        self.exec.mark_delivered(self.session);
    }

    fn query(&mut self) -> u8 {
        self.exec.query(self.session)
    }

    fn fetch(&mut self) -> Option<u8> {
        self.exec.fetch(self.session)
    }

    fn lock(&mut self, kind: Kind, timeout: u32) -> Result<Grant, LockRefusal> {
        self.exec.lock(self.session, kind, 0, timeout)
    }

    fn release(&mut self) -> Result<Freed, LockRefusal> {
        let (freed, granted) = self.exec.release(self.session)?;
        self.granted = granted;
        Ok(freed)
    }

    fn inform(&mut self) -> Info {
        self.exec.inform()
    }

    fn clear(&mut self) {
        self.exec.clear(self.session);
    }
}
