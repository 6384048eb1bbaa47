//! A disk that refuses writes for a time, like one without room: all of them, or all but those of its two roots.
ghost use Rattle.std.specs.Prelude.{◌≡◌, ◌≤◌};
ghost use Rattle.psu_disk.specs.Disk.{HasFailed};

use crate::ground::allocated;
use psu_client::Missed;
use psu_disk::{Disk, DiskFault};
use std::alloc::Global;
use std::sync::Arc;
use std::sync::atomic::{AtomicBool, AtomicUsize, Ordering};

/// Where the pages of the items begin, after the two roots.
const POOL: u64 = 1_024;

#[derive(Drop)]
struct State {
    // One write of so many is refused; none where this is 0.
    of: AtomicUsize,
    writes: AtomicUsize,
    spares_roots: AtomicBool,
    refused: AtomicUsize,
}

/// The state of a disk, as a test sets it.
#[derive(Drop)]
pub(crate) struct Health {
    state: Arc<State>,
}

impl Health {
    /// Returns the state of a disk that accepts writes.
    pub(crate) fn new(alloc: Global) -> Result<Health, Missed> {
        let state = State {
            of: AtomicUsize::new(0),
            writes: AtomicUsize::new(0),
            spares_roots: AtomicBool::new(false),
            refused: AtomicUsize::new(0),
        };
        Ok(Health {
            state: allocated(Arc::new(alloc, state))?,
        })
    }

    /// Returns another handle to the state, for the disk.
    pub(crate) fn another(&self) -> Result<Health, Missed> {
        Ok(Health {
            state: allocated(Arc::try_clone(&self.state))?,
        })
    }

    /// Makes the disk refuse one write of so many from now on; none where this is 0.
    pub(crate) fn refuse_one_of(&self, of: usize) {
        self.state.of.store(of, Ordering::SeqCst);
    }

    /// Makes the disk refuse each write from now on, or accept each.
    pub(crate) fn be_sick(&self, is_sick: bool) {
        self.refuse_one_of(if is_sick { 1 } else { 0 });
    }

    /// Makes the disk refuse only writes of items while it is sick, and accept those of its roots.
    pub(crate) fn spare_roots(&self) {
        self.state.spares_roots.store(true, Ordering::SeqCst);
    }

    /// The number of writes that were refused.
    pub(crate) fn refused(&self) -> usize {
        self.state.refused.load(Ordering::SeqCst)
    }

    // Whether a write at this place is refused. Those of the roots are not counted where they are accepted.
    fn refuses(&self, at: u64) -> bool {
        if at < POOL && self.state.spares_roots.load(Ordering::SeqCst) {
            return false;
        }
        let of = self.state.of.load(Ordering::SeqCst);
        let write = self.state.writes.fetch_add(1, Ordering::SeqCst);
        let refuses = of > 0 && write % of == 0;
        if refuses {
            self.state.refused.fetch_add(1, Ordering::SeqCst);
        }
        refuses
    }
}

/// A disk that refuses writes while it is sick; it still reads and syncs.
#[derive(Drop)]
pub(crate) struct SickDisk<D: Disk> {
    inner: D,
    health: Health,
    failed: u64,
}

impl<D: Disk> SickDisk<D> {
    /// Returns a disk over another, in this health.
    pub(crate) fn new(inner: D, health: Health) -> SickDisk<D> {
        SickDisk {
            inner,
            health,
            failed: 0,
        }
    }

    fn fail(&mut self) -> DiskFault
        ensures extent { D.extent self.new.inner ≡ D.extent self.old.inner }
        ensures failed { HasFailed self.old.failed self.new.failed }
        ensures later { self.old.failed ≤ self.new.failed }
    {
        self.failed = self.failed.saturating_add(1);
        DiskFault
    }
}

impl<D: Disk> Disk for SickDisk<D> {
    ghost use Rattle.std.specs.Prelude.{[]};
    ghost use Rattle.psu_disk.specs.Memory.{memory};

    ghost honest = { ⊥ };

    ghost records = { ⊥ };

    ghost extent = { λ d. D.extent d.inner };

    ghost state = { λ _. memory [] [] };

    ghost moment = { λ _. 0 };

    ghost left_since = { λ _ _ _. ⊥ };

    ghost failures = { λ d. d.failed };

    ghost confirmed = { λ d. D.confirmed d.inner };

    ghost sized = { λ honest. absurd honest };

    ghost counts_now = { λ records. absurd records };

    ghost only_now = { λ records. absurd records };

    fn size(&self) -> u64 {
        self.inner.size()
    }

    fn faults(&self) -> u64 {
        self.failed
    }

    fn read(&mut self, at: u64, into: &mut [u8]) -> Result<(), DiskFault> {
        if self.inner.read(at, into).is_err() {
            return Err(self.fail());
        }
        Ok(())
    }

    fn write(&mut self, at: u64, bytes: &[u8]) -> Result<(), DiskFault> {
        if self.health.refuses(at) || self.inner.write(at, bytes).is_err() {
            return Err(self.fail());
        }
        Ok(())
    }

    fn sync(&mut self) -> Result<(), DiskFault> {
        if self.inner.sync().is_err() {
            return Err(self.fail());
        }
        Ok(())
    }

    fn confirm(&mut self) -> Result<(), DiskFault> {
        if self.inner.confirm().is_err() {
            return Err(self.fail());
        }
        Ok(())
    }
}
