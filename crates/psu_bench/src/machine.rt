//! The device's state as the object of a turn, with the states and the entries of its history, and the operations on it.
ghost use Rattle.psu_bench.specs.Calls.{AllowsOn};

use psu_disk::Disk;
use psu_exec::Exec;
use psu_turn::Machine;
use std::alloc::Allocator;
use std::marker::Model;

/// The state of the device between two calls. No value of this type is made; only contracts refer to it.
pub struct DeviceState {
    unmade: (),
}

impl Model for DeviceState {
    ghost use Rattle.psu_nv.specs.Contents.{fresh};
    ghost use Rattle.psu_exec.specs.Device.{State, power_on};

    ghost Value = { State };

    ghost view = { λ _. power_on 0 fresh };
}

/// A call of the device with its reply. No value of this type is made; only contracts refer to it.
pub struct Call {
    unmade: (),
}

impl Model for Call {
    ghost use Rattle.psu_exec.specs.Calls.{Entry};
    ghost use Rattle.psu_exec.specs.Calls.Entry.{Cleared};

    ghost Value = { Entry };

    ghost view = { λ _. Cleared 0 };
}

/// The device's state with its store.
#[derive(Drop)]
pub(crate) struct BoxedDevice<D: Disk, A: Allocator + Copy> {
    // Several kilobytes, which would otherwise be moved twice in each turn.
    pub exec: Box<Exec<D, A>, A>,
}

impl<D: Disk, A: Allocator + Copy> Machine for BoxedDevice<D, A> {
    type State = DeviceState;

    type Entry = Call;

    ghost state = { λ g. g.exec.value.device };

    ghost allows = { AllowsOn D.honest };
}

/// An operation of the device. It is known only by the entry that it adds to the history with its reply. The trait has
/// no name outside of this crate, so that no other crate adds an operation.
pub trait Operation<D: Disk, A: Allocator + Copy> {
    ghost use Rattle.psu_exec.specs.Calls.{Entry};

    /// The reply of the device.
    type Reply;

    /// The call that the operation is, with this reply.
    ghost entry: { Self → Self.Reply → Entry };

    /// Performs the operation.
    fn perform(self, exec: &mut Exec<D, A>) -> Self::Reply
        ensures { AllowsOn D.honest exec.old.device (entry self result) exec.new.device };
}

/// An operation that causes nothing for other threads, whatever the state of the device: no session has a new service
/// request, and there is nothing new to flush. A thread performs it by `Caller::call`, and each other operation by a method
/// that returns what it has caused; a session that opens finds its own service request once its connections are joined.
pub trait QuietOperation<D: Disk, A: Allocator + Copy>: Operation<D, A> {
    ghost use Rattle.std.specs.Prelude.{◌≡◌, true};
    ghost use Rattle.psu_exec.specs.Quiet.{is_quiet};

    /// Its entry is one that causes nothing, whatever the reply.
    ghost quiet: { (operation : Self) (reply : Self.Reply) → is_quiet (Self.Operation.entry operation reply) ≡ true };
}
