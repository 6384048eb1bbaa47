//! The calls of the program's disk.
ghost use Rattle.std.specs.Prelude.{◌≡◌, ◌+◌, ◌≤◌, List, ℕ, length, OnOk, OnErr};
ghost use Rattle.psu_disk.specs.Disk.{Only, Range, Touches};
ghost use Rattle.psu_disk.specs.Steps.{DiskElapses};

use psu_disk::{Disk, DiskFault, FileDisk};

/// Both premises of a disk hold of the program's: its state is that of the model of its calls, and it records its past
/// moments.
pub fn has_a_model()
    ensures honest { ⟦<FileDisk as Disk>⟧.honest }
    ensures records { ⟦<FileDisk as Disk>⟧.records }
{}

/// After a sync that succeeded, a power loss leaves what a read returns; one that failed changes nothing.
pub fn sync(disk: &mut FileDisk) -> Result<(), DiskFault>
    ensures synced { OnOk result (Only (⟦<FileDisk as Disk>⟧.state disk.new)) }
    ensures failed { OnErr result (⟦<FileDisk as Disk>⟧.state disk.new ≡ ⟦<FileDisk as Disk>⟧.state disk.old) }
    ensures time { DiskElapses ⟦<FileDisk as Disk>⟧ disk.old disk.new }
{
    disk.sync()
}

/// A read returns the bytes of the disk's state, and changes nothing.
pub fn read(disk: &mut FileDisk, at: u64, into: &mut [u8]) -> Result<(), DiskFault>
    requires { at + length into.old ≤ ⟦<FileDisk as Disk>⟧.extent disk.old }
    ensures bytes { OnOk result (into.new ≡ Range at (length into.old) (⟦<FileDisk as Disk>⟧.state disk.old).bytes) }
    ensures state { ⟦<FileDisk as Disk>⟧.state disk.new ≡ ⟦<FileDisk as Disk>⟧.state disk.old }
{
    disk.read(at, into)
}

/// A write changes its range alone, at each moment of it.
pub fn write(disk: &mut FileDisk, at: u64, bytes: &[u8]) -> Result<(), DiskFault>
    requires { at + length bytes.now ≤ ⟦<FileDisk as Disk>⟧.extent disk.old }
    ensures state { Touches at (length bytes.now) (⟦<FileDisk as Disk>⟧.state disk.old) (⟦<FileDisk as Disk>⟧.state disk.new) }
    ensures time { DiskElapses ⟦<FileDisk as Disk>⟧ disk.old disk.new }
{
    disk.write(at, bytes)
}

fn is_send<T: Send>(_value: &T) {}

/// The disk may move to another thread.
pub fn may_move(disk: &FileDisk) {
    is_send(disk);
}
