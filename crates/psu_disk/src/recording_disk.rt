//! A disk in memory that keeps its state at each past moment, so that every clause on moments holds for it.
ghost use Rattle.std.specs.Prelude.{◌≡◌, ◌∷◌, ◌++◌, [], false, length, replicate, IfOk, OnOk, OnErr};
ghost use Rattle.psu_disk.specs.Memory.{memory};

use crate::memory::{mark, put};
use crate::{Disk, DiskFault};
use std::alloc::{AllocError, Allocator};
use std::marker::Model;

// The state of a disk at a moment.
#[derive(Drop)]
struct Moment<A: Allocator + Copy> {
    bytes: Vec<u8, A>,
    unsynced: Vec<bool, A>,
}

impl<A: Allocator + Copy> Model for Moment<A> {
    ghost use Rattle.psu_disk.specs.Disk.{DiskState};
    ghost use Rattle.psu_disk.specs.Memory.{memory};

    ghost Value = { DiskState };

    ghost view = { λ m. memory m.bytes.items m.unsynced.items };
}

/// A disk in memory that records its past moments. Each write and each sync copies the whole disk, and fails if an
/// allocation fails.
#[derive(Drop)]
pub struct RecordingDisk<A: Allocator + Copy> {
    alloc: A,
    bytes: Vec<u8, A>,
    unsynced: Vec<bool, A>,
    past: Vec<Moment<A>, A>,
    failed: u64,
    ghost marked_whole: { length unsynced.items ≡ length bytes.items },
}

impl<A: Allocator + Copy> RecordingDisk<A> {
    /// Returns a disk of `size` bytes 00, none of them unsynced, with no past moment.
    pub fn new(alloc: A, size: u64) -> Result<RecordingDisk<A>, AllocError>
        ensures bytes { IfOk result (λ disk. disk.bytes.items ≡ replicate size 0) }
        ensures synced { IfOk result (λ disk. disk.unsynced.items ≡ replicate size false) }
        ensures past { IfOk result (λ disk. disk.past.items ≡ []) }
        ensures failed { IfOk result (λ disk. disk.failed ≡ 0) }
    {
        Ok(RecordingDisk {
            alloc,
            bytes: vec![in alloc; 0; size as usize]?,
            unsynced: vec![in alloc; false; size as usize]?,
            past: Vec::new(alloc),
            failed: 0,
        })
    }
}

// Appends a copy of the present state to the past ones.
fn remember<A: Allocator + Copy>(
    alloc: A,
    bytes: &[u8],
    unsynced: &[bool],
    past: &mut Vec<Moment<A>, A>,
) -> Result<(), AllocError>
    ensures ok { OnOk result (past.new.items ≡ past.old.items ++ memory bytes.now unsynced.now ∷ []) }
    ensures err { OnErr result (past.new.items ≡ past.old.items) }
{
    past.push(Moment {
        bytes: bytes.to_vec(alloc)?,
        unsynced: unsynced.to_vec(alloc)?,
    })?;
    Ok(())
}

impl<A: Allocator + Copy> Disk for RecordingDisk<A> {
    ghost use Rattle.std.specs.Prelude.{length, refl};
    ghost use Rattle.std.proofs.Common.{inl};
    ghost use Rattle.psu_disk.specs.Memory.{memory};
    ghost use Rattle.psu_disk.specs.Past.{IsCrashImageSince, only_now};

    ghost honest = { Unit {0} };

    ghost records = { Unit {0} };

    ghost extent = { λ d. length d.bytes.items };

    ghost state = { λ d. memory d.bytes.items d.unsynced.items };

    ghost moment = { λ d. length d.past.items };

    ghost left_since = { λ d. IsCrashImageSince d.past.items (memory d.bytes.items d.unsynced.items) };

    ghost failures = { λ d. d.failed };

    ghost confirmed = { λ _. Unit {0} };

    ghost sized = { λ _ d. refl };

    ghost counts_now = { λ _ d t x le now. inl now };

    ghost only_now = { λ _ d x left. only_now d.past.items (memory d.bytes.items d.unsynced.items) x left };

    fn size(&self) -> u64 {
        self.bytes.len() as u64
    }

    fn faults(&self) -> u64 {
        self.failed
    }

    fn read(&mut self, at: u64, into: &mut [u8]) -> Result<(), DiskFault> {
        let start = at as usize;
        into.copy_from_slice(&self.bytes[start..start + into.len()]);
        Ok(())
    }

    fn write(&mut self, at: u64, bytes: &[u8]) -> Result<(), DiskFault> {
        match remember(self.alloc, &self.bytes, &self.unsynced, &mut self.past) {
            Ok(()) => {
                put(&mut self.bytes, at as usize, bytes);
                mark(&mut self.unsynced, at as usize, bytes.len(), true);
                Ok(())
            }
            Err(_) => {
                self.failed = self.failed.saturating_add(1);
                Err(DiskFault)
            }
        }
    }

    #[tactic(auto, unfolding(crate::specs::Disk::IsCrashImage))]
    fn sync(&mut self) -> Result<(), DiskFault> {
        match remember(self.alloc, &self.bytes, &self.unsynced, &mut self.past) {
            Ok(()) => {
                self.unsynced.fill(false);
                Ok(())
            }
            Err(_) => {
                self.failed = self.failed.saturating_add(1);
                Err(DiskFault)
            }
        }
    }

    fn confirm(&mut self) -> Result<(), DiskFault> {
        Ok(())
    }
}
