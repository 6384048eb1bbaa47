//! The theorem, the laws of its definitions, and those that relate the calls of the program to its events.
ghost use Rattle.std.specs.Prelude.{◌≡◌, ◌+◌, ◌≤◌, length, OnOk};
ghost use Rattle.psu_disk.specs.Disk.{HasCause, Holds, IsSynced, Range};
ghost use Rattle.psu_power_loss.specs.Events.{CallsHappen, DiskCallsHappen, MomentsAreEither, MomentsKeepMaps, RestartCallsHappen, RestartsHappen};
ghost use Rattle.psu_power_loss.specs.Headline.{AnsweredIsGreatest, BrokenLife, BrokenOffRestart, EachIsAccounted, EachStaysConsistent, EachWaitIsExact, NoneIsBad, PowersOnWithPrefix, PrefixLeft, SomeLife};
ghost use Rattle.psu_power_loss.specs.World.{Moves};

use psu_disk::{Disk, DiskFault};

/// After any events, in any order, each possible crash image represents the contents after a prefix of the executed
/// units that includes each unit before an answered `*OPC?`. An image can store these contents, so no restart is
/// refused for bad items.
pub fn restart_finds_a_prefix()
    ensures prefix { PrefixLeft }
    ensures good { NoneIsBad }
{}

/// A restart powers on with the contents after such a prefix, and with the enables and the first service request that
/// IEEE 488.2 prescribes for them.
pub fn restart_powers_on()
    ensures { PowersOnWithPrefix }
{}

/// While power is on, the history determines which changes are flushed, and which are those that are counted as
/// unflushed.
pub fn counts_are_of_the_history()
    ensures accounted { EachIsAccounted }
    ensures consistent { EachStaysConsistent }
    ensures waits { EachWaitIsExact }
{}

/// The meaning of the number of units before an answered `*OPC?`, and that the rules of the events can be met.
pub fn rules_are_sound()
    ensures answered { AnsweredIsGreatest }
    ensures some_life { SomeLife }
    ensures broken_life { BrokenLife }
    ensures broken_off { BrokenOffRestart }
{}

/// The postconditions of a call of the device make it an event; so do those of a job or of an opening for each of its
/// disk calls, and those of a power-on.
pub fn calls_are_events()
    ensures calls { CallsHappen }
    ensures disk_calls { DiskCallsHappen }
    ensures restart_calls { RestartCallsHappen }
    ensures restarts { RestartsHappen }
{}

/// What the postconditions of a job or of an opening state of every moment since its start holds after each of its
/// disk calls.
pub fn moments_are_events<D: Disk>()
    ensures jobs { D.records → MomentsAreEither D.moment D.left_since D.state }
    ensures openings { D.records → MomentsKeepMaps D.moment D.left_since D.state }
{}

/// Reads from the disk. Whether the read succeeds or fails, the disk changes as an event may change it.
pub fn read_is_an_event<D: Disk>(disk: &mut D, at: u64, into: &mut [u8]) -> Result<(), DiskFault>
    requires { at + length into.old ≤ D.extent disk.old }
    ensures moves { D.honest → Moves (D.state disk.old) (D.state disk.new) }
    ensures bytes { D.honest → OnOk result (into.new ≡ Range at (length into.old) (D.state disk.old).bytes) }
    ensures cause { HasCause (D.failures disk.old) (D.failures disk.new) result }
{
    disk.read(at, into)
}

/// Writes to the disk. Whether the write succeeds or fails, the disk changes as an event may change it.
pub fn write_is_an_event<D: Disk>(disk: &mut D, at: u64, bytes: &[u8]) -> Result<(), DiskFault>
    requires { at + length bytes.now ≤ D.extent disk.old }
    ensures moves { D.honest → Moves (D.state disk.old) (D.state disk.new) }
    ensures written { D.honest → OnOk result (Holds at bytes.now (D.state disk.old).bytes (D.state disk.new).bytes) }
    ensures cause { HasCause (D.failures disk.old) (D.failures disk.new) result }
{
    disk.write(at, bytes)
}

/// Syncs the disk. Whether the sync succeeds or fails, the disk changes as an event may change it.
pub fn sync_is_an_event<D: Disk>(disk: &mut D) -> Result<(), DiskFault>
    ensures moves { D.honest → Moves (D.state disk.old) (D.state disk.new) }
    ensures synced { D.honest → OnOk result (IsSynced (D.state disk.new)) }
    ensures cause { HasCause (D.failures disk.old) (D.failures disk.new) result }
{
    disk.sync()
}

/// Has the disk confirm that what was synced is found again. Whether it does or not, the disk changes as an event may
/// change it.
pub fn confirm_is_an_event<D: Disk>(disk: &mut D) -> Result<(), DiskFault>
    ensures moves { D.honest → Moves (D.state disk.old) (D.state disk.new) }
    ensures confirmed { OnOk result (D.confirmed disk.new) }
    ensures cause { HasCause (D.failures disk.old) (D.failures disk.new) result }
{
    disk.confirm()
}
