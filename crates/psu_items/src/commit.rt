//! One step of a store: from a map to the map after a batch.
ghost use Rattle.std.specs.Prelude.{◌≡◌, ◌+◌, ◌≤◌, ◌^◌, ◌↔◌, IsTrue};
ghost use Rattle.psu_disk.specs.Disk.{IsCrashImage, LeavesOnly};
ghost use Rattle.psu_disk.specs.Steps.{LeavesImages};
ghost use Rattle.psu_pages.specs.Writing.{Reaches};
ghost use Rattle.psu_map.specs.Capacity.{CanHold};
ghost use Rattle.psu_map.specs.Batch.{changed};
ghost use Rattle.psu_items.specs.Image.{EachRepresents, EachIsEither, IsEither, IsEitherRoot};
ghost use Rattle.psu_items.specs.Standing.{IsOnDisk};
ghost use Rattle.psu_items.specs.Writing.{SameAfterPool, EachKeepsHeads};

use crate::renew::{Unwritten, renew};
use crate::{Broken, BrokenCause, Store};
use psu_disk::Disk;
use psu_map::{Batch, Plan};
use std::alloc::Allocator;

/// Why a commit was not started.
#[derive(Clone, Copy, Debug, PartialEq, Eq, Drop)]
pub enum UnstartedCause {
    /// An allocation failed.
    Memory,
    /// The root's number is the last that there is.
    Worn,
}

/// The outcome of a commit.
#[derive(Drop)]
pub enum Commit<D: Disk, A: Allocator + Copy> {
    /// The store holds the map after the batch.
    Stored(Store<D, A>),
    /// No call of the disk was made: the store and the batch are unchanged.
    Unstarted(Store<D, A>, Batch<A>, UnstartedCause),
    /// A call of the disk failed.
    Broken(Broken<D, A>),
}

impl<D: Disk, A: Allocator + Copy> Store<D, A> {
    ghost use Rattle.psu_items.specs.Outcome.{disk_of, IfStored, IfUnstarted, IfBroken, IsWorn, HasStored, IsUnchanged, HasBroken};

    /// Replaces the map by the map after the batch, writing only the items that differ. The root is written as version
    /// 2, under the next number: even an empty batch turns an image of version 1 into one of version 2, and the pages
    /// of unchanged items stay. All memory is allocated, and all pages are claimed, before the first call of the disk.
    pub fn commit(self, alloc: A, batch: Batch<A>) -> Commit<D, A>
        requires { CanHold self.limit (changed self.items batch) }
        ensures stored { IfStored result (HasStored self batch) }
        ensures works { IfStored result (λ store. D.failures store.disk ≡ D.failures self.disk) }
        ensures later { D.failures self.disk ≤ D.failures (disk_of result) }
        ensures unstarted { IfUnstarted result (IsUnchanged self batch) }
        ensures worn { 2 ^ 64 ≤ self.number + 1 → IsWorn result }
        ensures broken { IfBroken result (HasBroken self batch) }
        ensures extent { D.extent (disk_of result) ≡ D.extent self.disk }
        ensures represents_stored { D.honest → IfStored result (λ store. IsOnDisk D.state store) }
        ensures represents_unstarted { D.honest → IfUnstarted result (λ store _ _. IsOnDisk D.state store) }
        ensures left_stored { D.honest → IfStored result (λ store. EachRepresents (D.state store.disk) self.limit (changed self.items batch)) }
        ensures left_broken { D.honest → IfBroken result (λ broken. EachIsEither (D.state broken.disk) self.limit self.items (changed self.items batch)) }
        ensures time { D.honest → D.records
            → LeavesOnly D.moment D.left_since self.disk (disk_of result) (IsEither self.limit self.items (changed self.items batch)) }

        // At each moment each possible crash image represents the map before, under its version and its number, or the
        // map after the batch, as version 2 and under the next number.
        ensures roots { LeavesImages D.Disk self.disk (disk_of result)
            (IsEitherRoot self.version self.number self.limit self.items (changed self.items batch)) }

        // Items that no edit changes keep their pages.
        ensures heads { D.honest → IfStored result (λ store. EachKeepsHeads batch (D.state self.disk) (D.state store.disk)) }

        // After the roots and the pool, each possible crash image has the bytes of one from before.
        ensures after_pool { LeavesImages D.Disk self.disk (disk_of result) (Reaches (SameAfterPool self.limit) (IsCrashImage (D.state self.disk))) }
    {
        if self.is_worn() {
            return Commit::Unstarted(self, batch, UnstartedCause::Worn);
        }
        let Store { mut pages, items } = self;
        let plan = match Plan::with(alloc, items, batch) {
            Ok(plan) => plan,
            Err((items, batch)) => {
                return Commit::Unstarted(Store { pages, items }, batch, UnstartedCause::Memory);
            }
        };
        match renew(alloc, &mut pages, plan.pairs(), plan.edits()) {
            Ok(()) => Commit::Stored(Store {
                pages,
                items: plan.made(),
            }),
            Err(Unwritten::Memory) => {
                let (items, batch) = plan.into_parts();
                Commit::Unstarted(Store { pages, items }, batch, UnstartedCause::Memory)
            }
            Err(Unwritten::Device) => {
                let (before, batch) = plan.into_parts();
                Commit::Broken(Broken {
                    limit: pages.limit(),
                    disk: pages.into_disk(),
                    before,
                    batch,
                    cause: BrokenCause::Device,
                })
            }
        }
    }

    // Whether the root's number is the last that there is.
    fn is_worn(&self) -> bool
        ensures { IsTrue result ↔ (2 ^ 64 ≤ self.now.number + 1) }
    {
        self.number() == u64::MAX
    }
}
