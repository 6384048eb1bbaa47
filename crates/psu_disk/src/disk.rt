//! A disk as the layers above see it: the bytes that a read returns, and the possible crash images.
ghost use Rattle.std.specs.Prelude.{◌≡◌, ◌+◌, ◌≤◌, List, ℕ, length, OnOk, OnErr};
ghost use Rattle.psu_disk.specs.Disk.{DiskState, IsCrashImage, Range, Holds, SameBut, IsSynced, IsFlagged, Touches, Only, Follows, Elapses, HasCause};

use crate::DiskFault;

/// A disk of a fixed number of bytes with calls that may fail: read, write, sync and confirm.
///
/// Between two syncs a power loss may leave any bytes in the ranges that were written, and leaves the bytes outside
/// them unchanged. After a successful sync it leaves what a read returns. What was synced counts as stored once the disk
/// has confirmed that it is found again.
pub trait Disk {
    /// The premise of every clause on bytes: this kind of disk behaves as they say.
    ghost honest: { Type 0 };

    /// The premise of every clause on past moments: this kind of disk records them.
    ghost records: { Type 0 };

    /// The number of bytes that the disk has.
    ghost extent: { Self → ℕ };

    /// The bytes that a read returns, and which of them a power loss may change.
    ghost state: { Self → DiskState };

    /// The current moment, as a number that never decreases.
    ghost moment: { Self → ℕ };

    /// The possible crash images at the moments from the given one on.
    ghost left_since: { Self → ℕ → List ℕ → Type 0 };

    /// The number of calls that failed. The count saturates at its maximum.
    ghost failures: { Self → ℕ };

    /// The last call was a `confirm` that succeeded.
    ghost confirmed: { Self → Type 0 };

    /// The number of bytes.
    fn size(&self) -> u64
        ensures { result ≡ extent self.now };

    /// The number of calls that failed. The count saturates at its maximum.
    fn faults(&self) -> u64
        ensures { result ≡ failures self.now };

    /// Fills `into` with the bytes from `at` on.
    fn read(&mut self, at: u64, into: &mut [u8]) -> Result<(), DiskFault>
        requires { at + length into.old ≤ extent self.old }
        ensures extent { extent self.new ≡ extent self.old }
        ensures cause { HasCause (failures self.old) (failures self.new) result }

        ensures bytes { honest → OnOk result (into.new ≡ Range at (length into.old) (state self.old).bytes) }
        ensures state { honest → state self.new ≡ state self.old }

        // Consequences, for the proofs of the layers above.
        ensures seen { honest → (state self.new).bytes ≡ (state self.old).bytes }
        ensures left { honest → (x : List ℕ) → IsCrashImage (state self.new) x → IsCrashImage (state self.old) x }
        ensures time { records → Elapses (moment self.old) (moment self.new) (left_since self.old) (left_since self.new) (IsCrashImage (state self.new)) };

    /// Writes the bytes at `at`. From the start of the call until a successful sync, a power loss may leave any bytes
    /// in the range. After a failed write a read may return any bytes in the range; the bytes outside it are unchanged.
    fn write(&mut self, at: u64, bytes: &[u8]) -> Result<(), DiskFault>
        requires { at + length bytes.now ≤ extent self.old }
        ensures extent { extent self.new ≡ extent self.old }
        ensures cause { HasCause (failures self.old) (failures self.new) result }

        ensures written { honest → OnOk result (Holds at bytes.now (state self.old).bytes (state self.new).bytes) }
        ensures flagged { honest → OnOk result (IsFlagged at (length bytes.now) (state self.new)) }
        ensures state { honest → Touches at (length bytes.now) (state self.old) (state self.new) }

        // Consequences of these, for the proofs of the layers above.
        ensures seen { honest → SameBut at (length bytes.now) (state self.old).bytes (state self.new).bytes }
        ensures left { honest → Follows (SameBut at (length bytes.now)) (IsCrashImage (state self.old)) (IsCrashImage (state self.new)) }
        ensures time { records → Elapses (moment self.old) (moment self.new) (left_since self.old) (left_since self.new) (IsCrashImage (state self.new)) };

    /// Makes the written bytes durable: after a successful sync a power loss leaves what a read returns. A failed sync
    /// changes nothing.
    fn sync(&mut self) -> Result<(), DiskFault>
        ensures extent { extent self.new ≡ extent self.old }
        ensures cause { HasCause (failures self.old) (failures self.new) result }

        ensures synced { honest → OnOk result (IsSynced (state self.new)) }
        ensures seen { honest → (state self.new).bytes ≡ (state self.old).bytes }
        ensures err { honest → OnErr result (state self.new ≡ state self.old) }

        // Consequences of these, for the proofs of the layers above.
        ensures only { honest → OnOk result (Only (state self.new)) }
        ensures left { honest → (x : List ℕ) → IsCrashImage (state self.new) x → IsCrashImage (state self.old) x }
        ensures time { records → Elapses (moment self.old) (moment self.new) (left_since self.old) (left_since self.new) (IsCrashImage (state self.new)) };

    /// Looks whether what was synced is found again where it was put: of a disk in a file, whether the file still has its
    /// length and a name. It changes nothing.
    fn confirm(&mut self) -> Result<(), DiskFault>
        ensures extent { extent self.new ≡ extent self.old }
        ensures cause { HasCause (failures self.old) (failures self.new) result }
        ensures confirmed { OnOk result (confirmed self.new) }

        ensures state { honest → state self.new ≡ state self.old }

        // Consequences, for the proofs of the layers above.
        ensures seen { honest → (state self.new).bytes ≡ (state self.old).bytes }
        ensures left { honest → (x : List ℕ) → IsCrashImage (state self.new) x → IsCrashImage (state self.old) x }
        ensures time { records → Elapses (moment self.old) (moment self.new) (left_since self.old) (left_since self.new) (IsCrashImage (state self.new)) };

    /// The number of bytes in the state is the disk's size.
    ghost sized: { honest → (d : Self) → length (state d).bytes ≡ extent d };

    /// The possible crash images now are among those since any moment so far.
    ghost counts_now: { records → (d : Self) (t : ℕ) (x : List ℕ) → t ≤ moment d → IsCrashImage (state d) x → left_since d t x };

    /// The possible crash images since the current moment are those of now.
    ghost only_now: { records → (d : Self) (x : List ℕ) → left_since d (moment d) x → IsCrashImage (state d) x };
}
