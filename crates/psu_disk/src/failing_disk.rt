//! A disk that fails after some calls, for tests of what a run that stops midway leaves, and of what one failure does.
ghost use Rattle.psu_disk.specs.Disk.{IsCrashImage, Range, Holds, SameBut, IsSynced, IsFlagged, Touches, Only, Follows, HasCause};
ghost use Rattle.psu_disk.specs.Failing.{is_failing};
ghost use Rattle.psu_disk.specs.Steps.{DiskElapses};
ghost use Rattle.psu_disk.specs.declared.failing_disk.Failing.TheVariants.{Always, Once};
ghost use Rattle.std.specs.Prelude.{◌≡◌, ◌+◌, ◌≤◌, ◌^◌, ◌-◌, ◌↔◌, min, true, false, IsErr, List, ℕ, length, OnOk, OnErr};

use crate::{Disk, DiskFault};

/// Which calls of a failing disk fail, once the calls that it passes on first are used up.
#[derive(Clone, Copy, Debug, PartialEq, Eq)]
pub enum Failing {
    /// The next call, and no other.
    Once,
    /// Every call.
    Always,
}

/// A disk that passes the first calls on to the disk below it, and then fails one call, or every call, without passing
/// it on.
#[derive(Drop)]
pub struct FailingDisk<D: Disk> {
    inner: D,
    failing: Failing,
    passes: u64,
    failed: u64,
}

impl<D: Disk> FailingDisk<D> {
    /// Returns a disk that passes the first `k` calls on, and fails every call after them.
    pub fn from_then_on(inner: D, k: u64) -> FailingDisk<D>
        ensures inner { result.inner ≡ inner }
        ensures failing { result.failing ≡ Always }
        ensures passes { result.passes ≡ k }
        ensures failed { result.failed ≡ 0 }
    {
        FailingDisk {
            inner,
            failing: Failing::Always,
            passes: k,
            failed: 0,
        }
    }

    /// Returns a disk that fails the call after the first `k`, and no other.
    pub fn once(inner: D, k: u64) -> FailingDisk<D>
        ensures inner { result.inner ≡ inner }
        ensures failing { result.failing ≡ Once }
        ensures passes { result.passes ≡ k }
        ensures failed { result.failed ≡ 0 }
    {
        FailingDisk {
            inner,
            failing: Failing::Once,
            passes: k,
            failed: 0,
        }
    }

    /// Returns the disk below it, as the calls that were passed on left it.
    pub fn into_inner(self) -> D
        ensures { result ≡ self.inner }
    {
        let FailingDisk { inner, .. } = self;
        inner
    }

    // Whether the next call fails.
    fn is_failing(&self) -> bool
        ensures { result ≡ is_failing self.now.failing self.now.passes self.now.failed }
    {
        match self.failing {
            Failing::Once => self.passes == 0 && self.failed == 0,
            Failing::Always => self.passes == 0,
        }
    }

    // Counts the next call: `Ok` if it is passed on, `Err` if it fails.
    fn step(&mut self) -> Result<(), DiskFault>
        ensures inner { self.new.inner ≡ self.old.inner }
        ensures failing { self.new.failing ≡ self.old.failing }
        ensures passes { self.new.passes ≡ self.old.passes - 1 }
        ensures fails { IsErr result ↔ (is_failing self.old.failing self.old.passes self.old.failed ≡ true) }
        ensures failed { is_failing self.old.failing self.old.passes self.old.failed ≡ true → self.new.failed ≡ min (self.old.failed + 1) (2 ^ 64 - 1) }
        ensures passed { is_failing self.old.failing self.old.passes self.old.failed ≡ false → self.new.failed ≡ self.old.failed }
    {
        if self.is_failing() {
            self.failed = self.failed.saturating_add(1);
            return Err(DiskFault);
        }
        self.passes = self.passes.saturating_sub(1);
        Ok(())
    }
}

impl<D: Disk> Disk for FailingDisk<D> {
    ghost use Rattle.psu_disk.specs.Failing.{failures_of};

    ghost honest = { D.honest };

    ghost records = { D.records };

    ghost extent = { λ f. D.extent f.inner };

    ghost state = { λ f. D.state f.inner };

    ghost moment = { λ f. D.moment f.inner };

    ghost left_since = { λ f. D.left_since f.inner };

    ghost failures = { failures_of D.Disk };

    ghost confirmed = { λ f. D.confirmed f.inner };

    ghost sized = { λ h f. D.sized h f.inner };

    ghost counts_now = { λ h f. D.counts_now h f.inner };

    ghost only_now = { λ h f. D.only_now h f.inner };

    fn size(&self) -> u64 {
        self.inner.size()
    }

    fn faults(&self) -> u64 {
        self.inner.faults().saturating_add(self.failed)
    }

    fn read(&mut self, at: u64, into: &mut [u8]) -> Result<(), DiskFault>
        requires { at + length into.old ≤ D.extent self.old.inner }
        ensures extent { D.extent self.new.inner ≡ D.extent self.old.inner }
        ensures cause { HasCause (failures_of D.Disk self.old) (failures_of D.Disk self.new) result }
        ensures bytes { D.honest → OnOk result (into.new ≡ Range at (length into.old) (D.state self.old.inner).bytes) }
        ensures state { D.honest → D.state self.new.inner ≡ D.state self.old.inner }
        ensures seen { D.honest → (D.state self.new.inner).bytes ≡ (D.state self.old.inner).bytes }
        ensures left { D.honest → (x : List ℕ) → IsCrashImage (D.state self.new.inner) x → IsCrashImage (D.state self.old.inner) x }
        ensures time { D.records → DiskElapses D.Disk self.old.inner self.new.inner }
        ensures failing { self.new.failing ≡ self.old.failing }
        ensures passes { self.new.passes ≡ self.old.passes - 1 }
        // A call that is to fail isn't passed on.
        ensures fails { is_failing self.old.failing self.old.passes self.old.failed ≡ true
            → IsErr result × (self.new.inner ≡ self.old.inner)
            × (self.new.failed ≡ min (self.old.failed + 1) (2 ^ 64 - 1)) }
        // Every other call is passed on, and fails only if it fails there.
        ensures passed { is_failing self.old.failing self.old.passes self.old.failed ≡ false
            → (self.new.failed ≡ self.old.failed)
            × HasCause (D.failures self.old.inner) (D.failures self.new.inner) result }
    {
        self.step()?;
        self.inner.read(at, into)
    }

    fn write(&mut self, at: u64, bytes: &[u8]) -> Result<(), DiskFault>
        requires { at + length bytes.now ≤ D.extent self.old.inner }
        ensures extent { D.extent self.new.inner ≡ D.extent self.old.inner }
        ensures cause { HasCause (failures_of D.Disk self.old) (failures_of D.Disk self.new) result }
        ensures written { D.honest → OnOk result (Holds at bytes.now (D.state self.old.inner).bytes (D.state self.new.inner).bytes) }
        ensures flagged { D.honest → OnOk result (IsFlagged at (length bytes.now) (D.state self.new.inner)) }
        ensures state { D.honest → Touches at (length bytes.now) (D.state self.old.inner) (D.state self.new.inner) }
        ensures seen { D.honest → SameBut at (length bytes.now) (D.state self.old.inner).bytes (D.state self.new.inner).bytes }
        ensures left { D.honest → Follows (SameBut at (length bytes.now)) (IsCrashImage (D.state self.old.inner)) (IsCrashImage (D.state self.new.inner)) }
        ensures time { D.records → DiskElapses D.Disk self.old.inner self.new.inner }
        ensures failing { self.new.failing ≡ self.old.failing }
        ensures passes { self.new.passes ≡ self.old.passes - 1 }
        // A call that is to fail isn't passed on.
        ensures fails { is_failing self.old.failing self.old.passes self.old.failed ≡ true
            → IsErr result × (self.new.inner ≡ self.old.inner)
            × (self.new.failed ≡ min (self.old.failed + 1) (2 ^ 64 - 1)) }
        // Every other call is passed on, and fails only if it fails there.
        ensures passed { is_failing self.old.failing self.old.passes self.old.failed ≡ false
            → (self.new.failed ≡ self.old.failed)
            × HasCause (D.failures self.old.inner) (D.failures self.new.inner) result }
    {
        self.step()?;
        self.inner.write(at, bytes)
    }

    fn sync(&mut self) -> Result<(), DiskFault>
        ensures extent { D.extent self.new.inner ≡ D.extent self.old.inner }
        ensures cause { HasCause (failures_of D.Disk self.old) (failures_of D.Disk self.new) result }
        ensures synced { D.honest → OnOk result (IsSynced (D.state self.new.inner)) }
        ensures seen { D.honest → (D.state self.new.inner).bytes ≡ (D.state self.old.inner).bytes }
        ensures err { D.honest → OnErr result (D.state self.new.inner ≡ D.state self.old.inner) }
        ensures only { D.honest → OnOk result (Only (D.state self.new.inner)) }
        ensures left { D.honest → (x : List ℕ) → IsCrashImage (D.state self.new.inner) x → IsCrashImage (D.state self.old.inner) x }
        ensures time { D.records → DiskElapses D.Disk self.old.inner self.new.inner }
        ensures failing { self.new.failing ≡ self.old.failing }
        ensures passes { self.new.passes ≡ self.old.passes - 1 }
        // A call that is to fail isn't passed on.
        ensures fails { is_failing self.old.failing self.old.passes self.old.failed ≡ true
            → IsErr result × (self.new.inner ≡ self.old.inner)
            × (self.new.failed ≡ min (self.old.failed + 1) (2 ^ 64 - 1)) }
        // Every other call is passed on, and fails only if it fails there.
        ensures passed { is_failing self.old.failing self.old.passes self.old.failed ≡ false
            → (self.new.failed ≡ self.old.failed)
            × HasCause (D.failures self.old.inner) (D.failures self.new.inner) result }
    {
        self.step()?;
        self.inner.sync()
    }

    // It is not among the calls that are counted: it moves no bytes.
    fn confirm(&mut self) -> Result<(), DiskFault> {
        self.inner.confirm()
    }
}
