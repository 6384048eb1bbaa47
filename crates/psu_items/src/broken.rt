//! A store whose disk failed in a commit.
ghost use Rattle.std.specs.Prelude.{◌≡◌, ◌≢◌, ◌⊎◌, ◌↔◌, List, ℕ, IsTrue, IfOk, IfErr, OnErr};
ghost use Rattle.psu_disk.specs.Disk.{IsCrashImage, LeavesOnly};
ghost use Rattle.psu_disk.specs.Steps.{DiskStep, LeavesImages};
ghost use Rattle.psu_map.specs.Batch.{changed};
ghost use Rattle.psu_items.specs.Image.{EachIsEither, IsEither, current_root, number_in};
ghost use Rattle.psu_items.specs.Finding.{IsOldOrSame};
ghost use Rattle.psu_items.specs.Recovering.{broken_cause};
ghost use Rattle.psu_items.specs.Recovered.{recovered_disk};
ghost use Rattle.psu_items.specs.Standing.{IsOnDisk};
ghost use Rattle.psu_items.specs.declared.broken.BrokenCause.TheVariants.{Device, Strange, Memory};

use crate::Store;
use psu_disk::Disk;
use psu_map::{Batch, Items};
use psu_pages::OpenCause;
use std::alloc::Allocator;

/// Why a store is broken.
#[derive(Clone, Copy, Debug, PartialEq, Eq, Drop)]
pub enum BrokenCause {
    /// A call of the disk failed.
    Device,
    /// The disk holds neither map.
    Strange,
    /// An allocation failed.
    Memory,
}

impl From<OpenCause> for BrokenCause {
    ghost from_gives = { λ cause broken. broken ≡ broken_cause cause };

    fn from(cause: OpenCause) -> Self {
        match cause {
            OpenCause::Device => BrokenCause::Device,
            OpenCause::Image(_) => BrokenCause::Strange,
            OpenCause::Memory => BrokenCause::Memory,
        }
    }
}

/// A store whose disk failed in a commit. Each possible crash image of the disk represents the map before the commit,
/// or the map after its batch.
#[derive(Drop)]
pub struct Broken<D: Disk, A: Allocator + Copy> {
    pub(crate) disk: D,
    pub(crate) limit: u16,
    pub(crate) before: Items<A>,
    pub(crate) batch: Batch<A>,
    pub(crate) cause: BrokenCause,
    ghost either: { D.honest → (image : List ℕ) → IsCrashImage (D.state disk) image → ∥ IsEither limit before (changed before batch) image ∥₁ },
}

impl<D: Disk, A: Allocator + Copy> Broken<D, A> {
    ghost use Rattle.psu_items.specs.Outcome.{reopened_disk, IsStillBroken};

    /// The map before the commit.
    pub fn before(&self) -> &Items<A>
        ensures value { result.now ≡ self.now.before }
        ensures represents { D.honest → EachIsEither (D.state self.now.disk) self.now.limit self.now.before (changed self.now.before self.now.batch) }
    {
        &self.before
    }

    /// The batch of the failed commit.
    pub fn batch(&self) -> &Batch<A>
        ensures { result.now ≡ self.now.batch }
    {
        &self.batch
    }

    /// The limit: how many pages the map may take.
    pub fn limit(&self) -> u16
        ensures { result ≡ self.now.limit }
    {
        self.limit
    }

    /// The cause: why the store is broken.
    pub fn cause(&self) -> BrokenCause
        ensures { result ≡ self.now.cause }
    {
        self.cause
    }

    /// Opens the disk again, beginning with a sync, and returns the store with the map found: the one before the commit
    /// or the one after the batch. If the disk holds neither or is not opened, the store stays broken.
    pub fn reopen(self, alloc: A) -> Result<Store<D, A>, Broken<D, A>>
        ensures found { IfOk result (λ store. ((store.items ≡ self.before) ⊎ (store.items ≡ changed self.before self.batch)) × (store.limit ≡ self.limit)) }
        ensures same { IfErr result (IsStillBroken self) }
        ensures represents { D.honest → IfOk result (λ store. IsOnDisk D.state store) }
        ensures left { D.honest → IfErr result (λ broken. EachIsEither (D.state broken.disk) broken.limit broken.before (changed broken.before broken.batch)) }
        ensures time { D.honest → D.records
            → LeavesOnly D.moment D.left_since self.disk (reopened_disk result) (IsEither self.limit self.before (changed self.before self.batch)) }
        ensures strange { D.honest → IfErr result (λ broken. broken.cause ≢ Strange) }
        ensures quiet { IfErr result (λ broken. broken.cause ≢ Device → D.failures broken.disk ≡ D.failures self.disk) }
        ensures number { D.honest → IfOk result (λ store. store.number ≡ number_in (current_root (D.state self.disk).bytes) (D.state self.disk).bytes) }
        ensures step { DiskStep D.Disk self.disk (reopened_disk result) result (λ e. e.cause ≡ Device) }

        // Only the gate of the older root is written.
        ensures images { LeavesImages D.Disk self.disk (reopened_disk result) (IsOldOrSame (D.state self.disk)) }
    {
        let Broken {
            disk,
            limit,
            before,
            batch,
            cause: _,
        } = self;
        let Ok(target) = before.changed(alloc, &batch) else {
            return Err(Broken {
                disk,
                limit,
                before,
                batch,
                cause: BrokenCause::Memory,
            });
        };
        match recover(alloc, disk, limit, &before, &target) {
            Ok(store) => Ok(store),
            Err(unfound) => Err(Broken {
                disk: unfound.disk,
                limit,
                before,
                batch,
                cause: unfound.cause,
            }),
        }
    }

    /// Returns the disk, as the failed commit left it.
    pub fn into_disk(self) -> D
        ensures value { result ≡ self.disk }
        ensures represents { D.honest → EachIsEither (D.state result) self.limit self.before (changed self.before self.batch) }
    {
        self.disk
    }
}

// A disk on which neither of two maps was found, and why.
#[derive(Drop)]
struct Unfound<D> {
    cause: BrokenCause,
    disk: D,
}

// Opens the disk, and returns the store if it holds one of two maps.
fn recover<D: Disk, A: Allocator + Copy>(
    alloc: A,
    disk: D,
    limit: u16,
    before: &Items<A>,
    target: &Items<A>,
) -> Result<Store<D, A>, Unfound<D>>
    ensures found { IfOk result (λ store. (store.items ≡ before.now) ⊎ (store.items ≡ target.now)) }
    ensures limit { IfOk result (λ store. store.limit ≡ limit) }
    ensures represents { D.honest → IfOk result (λ store. IsOnDisk D.state store) }
    ensures quiet { IfErr result (λ e. e.cause ≢ Device → D.failures e.disk ≡ D.failures disk) }
    ensures strange { D.honest → EachIsEither (D.state disk) limit before.now target.now → IfErr result (λ e. e.cause ≢ Strange) }
    ensures number { D.honest → IfOk result (λ store. store.number ≡ number_in (current_root (D.state disk).bytes) (D.state disk).bytes) }
    ensures step { DiskStep D.Disk disk (recovered_disk result) result (λ e. e.cause ≡ Device) }
    ensures images { LeavesImages D.Disk disk (recovered_disk result) (IsOldOrSame (D.state disk)) }
{
    match Store::open(alloc, disk) {
        Ok(store) => match one_of(store, limit, before, target) {
            Ok(store) => Ok(store),
            Err(strange) => Err(strange),
        },
        Err(refused) => Err(Unfound {
            cause: BrokenCause::from(refused.cause),
            disk: refused.disk,
        }),
    }
}

// Returns the store if it holds one of two maps. If it holds another, the cause is `Strange`, whatever the disk:
// nothing here allocates.
fn one_of<D: Disk, A: Allocator + Copy>(
    store: Store<D, A>,
    limit: u16,
    before: &Items<A>,
    target: &Items<A>,
) -> Result<Store<D, A>, Unfound<D>>
    ensures same { IfOk result (λ found. found ≡ store) }
    ensures limit { IfOk result (λ found. found.limit ≡ limit) }
    ensures found { IfOk result (λ found. (found.items ≡ before.now) ⊎ (found.items ≡ target.now)) }
    ensures strange { IfErr result (λ e. e.cause ≡ Strange) }
    ensures disk { IfErr result (λ e. e.disk ≡ store.disk) }
    ensures neither { OnErr result ((store.limit ≡ limit) × ((store.items ≡ before.now) ⊎ (store.items ≡ target.now)) → ⊥) }
{
    if is_one_of(&store, limit, before, target) {
        return Ok(store);
    }
    Err(Unfound {
        cause: BrokenCause::Strange,
        disk: store.into_disk(),
    })
}

// Whether the store has this limit and one of these two maps.
fn is_one_of<D: Disk, A: Allocator + Copy>(
    store: &Store<D, A>,
    limit: u16,
    before: &Items<A>,
    target: &Items<A>,
) -> bool
    ensures { IsTrue result ↔ ((store.now.limit ≡ limit) × ((store.now.items ≡ before.now) ⊎ (store.now.items ≡ target.now))) }
{
    store.limit() == limit && (store.items().is_same(before) || store.items().is_same(target))
}
