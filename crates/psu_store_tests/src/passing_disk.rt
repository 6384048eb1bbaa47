//! A disk that passes each call on to its medium, and trusts a sync that succeeds after one that failed.
ghost use Rattle.std.specs.Prelude.{◌≡◌};
ghost use Rattle.psu_disk.specs.Disk.{HasCause};

use psu_disk::{Disk, DiskFault, Medium};

/// A disk over a medium with nothing between them. Nothing is claimed of its bytes: after a sync that failed it loses
/// some.
#[derive(Drop)]
pub(crate) struct PassingDisk<M: Medium> {
    medium: M,
    faults: u64,
}

impl<M: Medium> PassingDisk<M> {
    /// Returns the disk over a medium.
    pub(crate) fn new(medium: M) -> PassingDisk<M> {
        PassingDisk { medium, faults: 0 }
    }

    /// Returns the medium below it.
    pub(crate) fn into_inner(self) -> M {
        let PassingDisk { medium, faults: _ } = self;
        medium
    }

    // Returns the answer of a call, after counting it where it failed.
    fn counted(&mut self, answer: Result<(), DiskFault>) -> Result<(), DiskFault>
        ensures same { result ≡ answer }
        ensures medium { self.new.medium ≡ self.old.medium }
        ensures cause { HasCause self.old.faults self.new.faults answer }
    {
        if answer.is_err() {
            self.faults = self.faults.saturating_add(1);
        }
        answer
    }
}

impl<M: Medium> Disk for PassingDisk<M> {
    ghost use Rattle.std.specs.Prelude.{[]};
    ghost use Rattle.psu_disk.specs.Memory.{memory};

    ghost honest = { ⊥ };

    ghost records = { ⊥ };

    ghost extent = { λ d. M.extent d.medium };

    ghost state = { λ _. memory [] [] };

    ghost moment = { λ _. 0 };

    ghost left_since = { λ _ _ _. ⊥ };

    ghost failures = { λ d. d.faults };

    ghost confirmed = { λ d. M.confirmed d.medium };

    ghost sized = { λ honest. absurd honest };

    ghost counts_now = { λ records. absurd records };

    ghost only_now = { λ records. absurd records };

    fn size(&self) -> u64 {
        self.medium.size()
    }

    fn faults(&self) -> u64 {
        self.faults
    }

    fn read(&mut self, at: u64, into: &mut [u8]) -> Result<(), DiskFault> {
        let answer = self.medium.read(at, into);
        self.counted(answer)
    }

    fn write(&mut self, at: u64, bytes: &[u8]) -> Result<(), DiskFault> {
        let answer = self.medium.write(at, bytes);
        self.counted(answer)
    }

    fn sync(&mut self) -> Result<(), DiskFault> {
        let answer = self.medium.sync();
        self.counted(answer)
    }

    fn confirm(&mut self) -> Result<(), DiskFault> {
        let answer = self.medium.confirm();
        self.counted(answer)
    }
}
