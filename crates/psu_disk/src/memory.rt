//! A disk in memory. It keeps the bytes that a read returns, the bytes that the last sync made durable, and a mark for
//! each unsynced byte.
ghost use Rattle.std.specs.Prelude.{◌≡◌, ℕ, ◌+◌, ◌<◌, ◌≤◌, List, length, replicate, IsTrue, true, false, slice_index, slice_index_or, IfOk, IsOk, OnOk, OnErr};
ghost use Rattle.psu_disk.specs.Disk.{IsCrashImage, Range, Holds, SameBut, IsSynced, IsFlagged, Touches, Only, Follows, HasCause};
ghost use Rattle.psu_disk.specs.Loss.{lost};
ghost use Rattle.psu_disk.specs.Memory.{memory, marked};
ghost use Rattle.psu_disk.specs.Touched.{is_in, IsKeptUp};
ghost use Rattle.std.proofs.Props.{props};

use crate::touched::{Span, Touched};
use crate::{Choice, Disk, DiskFault};
use std::alloc::{AllocError, Allocator};

/// A disk in memory. None of its calls fails, and none allocates.
#[derive(Drop)]
pub struct MemDisk<A: Allocator + Copy> {
    bytes: Vec<u8, A>,
    synced: Vec<u8, A>,
    unsynced: Vec<bool, A>,
    touched: Touched,
    ghost synced_whole: { length synced.items ≡ length bytes.items },
    ghost marked_whole: { length unsynced.items ≡ length bytes.items },
    ghost kept_up: { IsKeptUp bytes.items synced.items unsynced.items touched.spans } by { Prim.hlevel props },
}

impl<A: Allocator + Copy> MemDisk<A> {
    /// Returns a disk of `size` bytes 00, none of them unsynced. Allocates the memory for all later calls.
    pub fn new(alloc: A, size: u64) -> Result<MemDisk<A>, AllocError>
        ensures bytes { IfOk result (λ disk. disk.bytes.items ≡ replicate size 0) }
        ensures synced { IfOk result (λ disk. disk.unsynced.items ≡ replicate size false) }
        ensures made_sure { IfOk result (λ disk. disk.synced.items ≡ replicate size 0) }
    {
        Ok(MemDisk {
            bytes: vec![in alloc; 0; size as usize]?,
            synced: vec![in alloc; 0; size as usize]?,
            unsynced: vec![in alloc; false; size as usize]?,
            touched: Touched::new(),
        })
    }

    /// Simulates a power loss: the unsynced bytes become as chosen, and none is unsynced any more.
    #[tactic(auto, unfolding(crate::specs::Disk::IsCrashImage))]
    pub fn lose(&mut self, choice: Choice)
        ensures size { length self.new.bytes.items ≡ length self.old.bytes.items }
        ensures left { IsCrashImage (memory self.old.bytes.items self.old.unsynced.items) self.new.bytes.items }
        ensures synced { IsSynced (memory self.new.bytes.items self.new.unsynced.items) }
        ensures choice { (k : ℕ) → IsTrue (slice_index_or self.old.unsynced.items k false)
            → slice_index self.new.bytes.items k
            ≡ lost choice (slice_index self.old.synced.items k) (slice_index self.old.bytes.items k) }
        ensures made_sure { self.new.synced.items ≡ self.new.bytes.items }
    {
        lose_bytes(&mut self.bytes, &self.synced, &self.unsynced, choice);
        self.synced.copy_from_slice(&self.bytes);
        self.unsynced.fill(false);
        self.touched = Touched::new();
    }
}

fn lose_bytes(bytes: &mut [u8], synced: &[u8], unsynced: &[bool], choice: Choice)
    requires synced { length synced.now ≡ length bytes.old }
    requires unsynced { length unsynced.now ≡ length bytes.old }
    ensures same { (k : ℕ) → slice_index_or unsynced.now k false ≡ false → slice_index bytes.new k ≡ slice_index bytes.old k }
    ensures choice { (k : ℕ) → IsTrue (slice_index_or unsynced.now k false)
        → slice_index bytes.new k ≡ lost choice (slice_index synced.now k) (slice_index bytes.old k) }
{
    for i in 0..bytes.len() {
        if unsynced[i] {
            bytes[i] = choice.after_loss(synced[i], bytes[i]);
        }
    }
}

// Overwrites the bytes from `at` on.
pub(crate) fn put(all: &mut [u8], at: usize, bytes: &[u8])
    requires { at + length bytes.now ≤ length all.old }
    ensures { Holds at bytes.now all.old all.new }
{
    all[at..at + bytes.len()].copy_from_slice(bytes);
}

// Marks `n` bytes from `at` on, as unsynced or not.
pub(crate) fn mark(unsynced: &mut [bool], at: usize, n: usize, with: bool)
    requires { at + n ≤ length unsynced.old }
    ensures { unsynced.new ≡ marked with at n unsynced.old }
{
    unsynced[at..at + n].fill(with);
}

// Makes the bytes of the spans durable. Each marked byte lies in one of the spans.
fn settle(bytes: &[u8], synced: &mut [u8], unsynced: &mut [bool], spans: &[Span])
    requires synced { length synced.old ≡ length bytes.now }
    requires unsynced { length unsynced.old ≡ length bytes.now }
    requires kept_up { IsKeptUp bytes.now synced.old unsynced.old spans.now }
    ensures synced { synced.new ≡ bytes.now }
    ensures unsynced { (k : ℕ) → slice_index_or unsynced.new k false ≡ false }
{
    for span in spans {
        settle_span(bytes, synced, unsynced, *span);
    }
}

// Makes the bytes of one span durable.
fn settle_span(bytes: &[u8], synced: &mut [u8], unsynced: &mut [bool], span: Span)
    requires synced { length synced.old ≡ length bytes.now }
    requires unsynced { length unsynced.old ≡ length bytes.now }
    requires fits { span.low < span.high → span.high ≤ length bytes.now }
    ensures synced_in { (k : ℕ) → is_in span k ≡ true → slice_index synced.new k ≡ slice_index bytes.now k }
    ensures synced_out { (k : ℕ) → is_in span k ≡ false → slice_index synced.new k ≡ slice_index synced.old k }
    ensures unsynced_in { (k : ℕ) → is_in span k ≡ true → slice_index_or unsynced.new k false ≡ false }
    ensures unsynced_out { (k : ℕ) → is_in span k ≡ false → slice_index_or unsynced.new k false ≡ slice_index_or unsynced.old k false }
{
    if span.low < span.high {
        put(synced, span.low, &bytes[span.low..span.high]);
        mark(unsynced, span.low, span.high - span.low, false);
    }
}

impl<A: Allocator + Copy> Disk for MemDisk<A> {
    ghost use Rattle.psu_disk.specs.Memory.{memory};
    ghost use Rattle.std.specs.Prelude.{refl};

    ghost honest = { Unit {0} };

    ghost records = { ⊥ };

    ghost extent = { λ d. length d.bytes.items };

    ghost state = { λ d. memory d.bytes.items d.unsynced.items };

    ghost moment = { λ _. 0 };

    ghost left_since = { λ _ _ _. ⊥ };

    ghost failures = { λ _. 0 };

    ghost confirmed = { λ _. Unit {0} };

    ghost sized = { λ _ d. refl };

    ghost counts_now = { λ records. absurd records };

    ghost only_now = { λ records. absurd records };

    fn size(&self) -> u64 {
        self.bytes.len() as u64
    }

    fn faults(&self) -> u64 {
        0
    }

    fn read(&mut self, at: u64, into: &mut [u8]) -> Result<(), DiskFault>
        requires { at + length into.old ≤ length self.old.bytes.items }
        ensures extent { length self.new.bytes.items ≡ length self.old.bytes.items }
        ensures cause { HasCause 0 0 result }
        ensures bytes { Unit {0} → OnOk result (into.new ≡ Range at (length into.old) self.old.bytes.items) }
        ensures state { Unit {0} → memory self.new.bytes.items self.new.unsynced.items ≡ memory self.old.bytes.items self.old.unsynced.items }
        ensures seen { Unit {0} → self.new.bytes.items ≡ self.old.bytes.items }
        ensures left { Unit {0} → (x : List ℕ) → IsCrashImage
            (memory self.new.bytes.items self.new.unsynced.items) x
            → IsCrashImage (memory self.old.bytes.items self.old.unsynced.items) x }
        // The call succeeds, and the bytes that the last sync made durable stay.
        ensures works { IsOk result }
        ensures made_sure { self.new.synced.items ≡ self.old.synced.items }
    {
        let start = at as usize;
        into.copy_from_slice(&self.bytes[start..start + into.len()]);
        Ok(())
    }

    fn write(&mut self, at: u64, bytes: &[u8]) -> Result<(), DiskFault>
        requires { at + length bytes.now ≤ length self.old.bytes.items }
        ensures extent { length self.new.bytes.items ≡ length self.old.bytes.items }
        ensures cause { HasCause 0 0 result }
        ensures written { Unit {0} → OnOk result (Holds at bytes.now self.old.bytes.items self.new.bytes.items) }
        ensures flagged { Unit {0} → OnOk result (IsFlagged at (length bytes.now) (memory self.new.bytes.items self.new.unsynced.items)) }
        ensures state { Unit {0} → Touches at (length bytes.now)
            (memory self.old.bytes.items self.old.unsynced.items)
            (memory self.new.bytes.items self.new.unsynced.items) }
        ensures seen { Unit {0} → SameBut at (length bytes.now) self.old.bytes.items self.new.bytes.items }
        ensures left { Unit {0} → Follows (SameBut at (length bytes.now))
            (IsCrashImage (memory self.old.bytes.items self.old.unsynced.items))
            (IsCrashImage (memory self.new.bytes.items self.new.unsynced.items)) }
        // The call succeeds, and the bytes that the last sync made durable stay.
        ensures works { IsOk result }
        ensures made_sure { self.new.synced.items ≡ self.old.synced.items }
    {
        put(&mut self.bytes, at as usize, bytes);
        mark(&mut self.unsynced, at as usize, bytes.len(), true);
        self.touched.add(at as usize, at as usize + bytes.len());
        Ok(())
    }

    /// Its cost grows with the ranges written since the last sync.
    #[tactic(auto, unfolding(crate::specs::Disk::IsCrashImage))]
    fn sync(&mut self) -> Result<(), DiskFault>
        ensures extent { length self.new.bytes.items ≡ length self.old.bytes.items }
        ensures cause { HasCause 0 0 result }
        ensures synced { Unit {0} → OnOk result (IsSynced (memory self.new.bytes.items self.new.unsynced.items)) }
        ensures seen { Unit {0} → self.new.bytes.items ≡ self.old.bytes.items }
        ensures err { Unit {0} → OnErr result (memory self.new.bytes.items self.new.unsynced.items ≡ memory self.old.bytes.items self.old.unsynced.items) }
        ensures only { Unit {0} → OnOk result (Only (memory self.new.bytes.items self.new.unsynced.items)) }
        ensures left { Unit {0} → (x : List ℕ) → IsCrashImage
            (memory self.new.bytes.items self.new.unsynced.items) x
            → IsCrashImage (memory self.old.bytes.items self.old.unsynced.items) x }
        // The call succeeds, and makes the bytes durable that a read returns.
        ensures works { IsOk result }
        ensures made_sure { self.new.synced.items ≡ self.old.bytes.items }
    {
        settle(
            &self.bytes,
            &mut self.synced,
            &mut self.unsynced,
            &self.touched.spans,
        );
        self.touched = Touched::new();
        Ok(())
    }

    fn confirm(&mut self) -> Result<(), DiskFault>
        ensures extent { length self.new.bytes.items ≡ length self.old.bytes.items }
        ensures cause { HasCause 0 0 result }
        ensures confirmed { OnOk result (Unit {0}) }
        ensures state { Unit {0} → memory self.new.bytes.items self.new.unsynced.items ≡ memory self.old.bytes.items self.old.unsynced.items }
        ensures seen { Unit {0} → self.new.bytes.items ≡ self.old.bytes.items }
        ensures left { Unit {0} → (x : List ℕ) → IsCrashImage
            (memory self.new.bytes.items self.new.unsynced.items) x
            → IsCrashImage (memory self.old.bytes.items self.old.unsynced.items) x }
        // The call succeeds, and the bytes that the last sync made durable stay.
        ensures works { IsOk result }
        ensures made_sure { self.new.synced.items ≡ self.old.synced.items }
    {
        Ok(())
    }
}
