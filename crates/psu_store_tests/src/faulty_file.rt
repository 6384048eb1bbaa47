//! A file in memory that breaks its promises when a call fails, for tests of what is written again.
ghost use Rattle.std.specs.Prelude.{◌≡◌, length};

use crate::ForgettingMedium;
use psu_disk::{Choice, DiskFault, FileCalls, FileFacts, LockAnswer, Medium};
use std::alloc::Allocator;

/// A file whose pages are rolled back at a failed sync: a read then returns the bytes of the last successful one. One of its
/// writes fails, after the first half of its bytes. Nothing is claimed of its bytes.
#[derive(Drop)]
pub(crate) struct FaultyFile<A: Allocator + Copy> {
    pub(crate) medium: ForgettingMedium<A>,
    /// The writes that are made before the one that fails; 0 if none fails.
    pub(crate) writes: u64,
}

impl<A: Allocator + Copy> FileCalls for FaultyFile<A> {
    ghost use Rattle.std.specs.Prelude.{[], false, length};
    ghost use Rattle.psu_disk.specs.Memory.{memory};

    ghost made = { λ _ _ _. Unit {0} };

    ghost keeps = { ⊥ };

    ghost records = { ⊥ };

    ghost extent = { λ f. length f.medium.bytes.items };

    ghost state = { λ _. memory [] [] };

    ghost past = { λ _. [] };

    ghost forgotten = { λ _ _. false };

    ghost works = { λ _. ⊥ };

    ghost sized = { λ keeps. absurd keeps };

    ghost at_risk = { λ keeps. absurd keeps };

    ghost effect = { λ keeps. absurd keeps };

    ghost passes = { λ records. absurd records };

    ghost working = { λ _ _ _ works. absurd works };

    fn size(&self) -> u64 {
        self.medium.size()
    }

    fn read_at(&mut self, at: u64, into: &mut [u8]) -> Result<(), DiskFault> {
        self.medium.read(at, into)
    }

    fn write_at(&mut self, at: u64, bytes: &[u8]) -> Result<(), DiskFault> {
        let is_last = self.writes == 1;
        self.writes = self.writes.saturating_sub(1);
        if is_last {
            self.medium.write(at, &bytes[..bytes.len() / 2])?;
            return Err(DiskFault);
        }
        self.medium.write(at, bytes)
    }

    fn sync_data(&mut self) -> Result<(), DiskFault> {
        let answer = self.medium.sync();
        if answer.is_err() {
            self.medium.lose(Choice::Old);
        }
        answer
    }

    fn sync_all(&mut self) -> Result<(), DiskFault> {
        self.sync_data()
    }

    fn look(&mut self) -> Option<FileFacts> {
        Some(FileFacts {
            length: self.medium.size(),
            names: 1,
            is_file: true,
        })
    }

    fn try_lock(&mut self) -> LockAnswer {
        LockAnswer::Locked
    }
}
