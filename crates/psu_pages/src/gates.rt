//! What is written to a root's page, and synced.
ghost use Rattle.std.specs.Prelude.{◌≡◌, ◌+◌, ◌≤◌, length, OnOk, ⊤};
ghost use Rattle.psu_disk.specs.Disk.{IsCrashImage, Range, Holds, SameBut, Only};
ghost use Rattle.psu_disk.specs.Steps.{DiskStep, LeavesImages};
ghost use Rattle.psu_pages.specs.Image.{gate, gate_at};
ghost use Rattle.psu_pages.specs.Writing.{Reaches};

use crate::Root;
use psu_disk::{Disk, DiskFault};

/// The byte of an open gate.
pub(crate) const GATE_OPEN: u8 = 165;

/// The byte that closes a gate. Every other byte than [`GATE_OPEN`] is that of a closed gate too.
pub(crate) const GATE_CLOSED: u8 = 0;

/// Writes a gate's byte and makes it durable.
pub(crate) fn set_gate<D: Disk>(disk: &mut D, root: Root, byte: u8) -> Result<(), DiskFault>
    requires { 1024 ≤ D.extent disk.old }
    ensures step { DiskStep D.Disk disk.old disk.new result (λ fault. ⊤) }
    ensures done { D.honest → OnOk result (gate root (D.state disk.new).bytes ≡ byte) }
    ensures seen { D.honest → SameBut (gate_at root) 1 (D.state disk.old).bytes (D.state disk.new).bytes }
    ensures synced { D.honest → OnOk result (Only (D.state disk.new)) }
    ensures left { LeavesImages D.Disk disk.old disk.new (Reaches (SameBut (gate_at root) 1) (IsCrashImage (D.state disk.old))) }
{
    put(disk, root.gate(), &[byte])?;
    Ok(())
}

/// Writes the contents of a root after its gate, and makes all that was written durable.
pub(crate) fn write_contents<D: Disk>(
    disk: &mut D,
    root: Root,
    contents: &[u8],
) -> Result<(), DiskFault>
    requires roots { 1024 ≤ D.extent disk.old }
    requires contents { length contents.now ≡ 511 }
    ensures step { DiskStep D.Disk disk.old disk.new result (λ fault. ⊤) }
    ensures has_contents { D.honest → OnOk result (Range (gate_at root + 1) 511 (D.state disk.new).bytes ≡ contents.now) }
    ensures seen { D.honest → SameBut (gate_at root + 1) 511 (D.state disk.old).bytes (D.state disk.new).bytes }
    ensures synced { D.honest → OnOk result (Only (D.state disk.new)) }
    ensures left { LeavesImages D.Disk disk.old disk.new (Reaches (SameBut (gate_at root + 1) 511) (IsCrashImage (D.state disk.old))) }
{
    put(disk, root.gate() + 1, contents)?;
    Ok(())
}

// Writes bytes and makes all that was written durable.
fn put<D: Disk>(disk: &mut D, at: u64, bytes: &[u8]) -> Result<(), DiskFault>
    requires { at + length bytes.now ≤ D.extent disk.old }
    ensures step { DiskStep D.Disk disk.old disk.new result (λ fault. ⊤) }
    ensures done { D.honest → OnOk result (Holds at bytes.now (D.state disk.old).bytes (D.state disk.new).bytes) }
    ensures seen { D.honest → SameBut at (length bytes.now) (D.state disk.old).bytes (D.state disk.new).bytes }
    ensures synced { D.honest → OnOk result (Only (D.state disk.new)) }
    ensures left { LeavesImages D.Disk disk.old disk.new (Reaches (SameBut at (length bytes.now)) (IsCrashImage (D.state disk.old))) }
{
    disk.write(at, bytes)?;
    make_sure(disk)?;
    Ok(())
}

/// Makes all that was written durable: after it a power loss leaves what a read returns.
pub(crate) fn make_sure<D: Disk>(disk: &mut D) -> Result<(), DiskFault>
    ensures step { DiskStep D.Disk disk.old disk.new result (λ fault. ⊤) }
    ensures synced { D.honest → OnOk result (Only (D.state disk.new)) }
    ensures seen { D.honest → (D.state disk.new).bytes ≡ (D.state disk.old).bytes }
    ensures left { LeavesImages D.Disk disk.old disk.new (IsCrashImage (D.state disk.old)) }
{
    disk.sync()?;
    Ok(())
}
