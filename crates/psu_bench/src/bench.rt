//! The shared state, which threads call in turns.
ghost use Rattle.std.specs.Prelude.{◌≡◌, IfOk, IfErr, length};
ghost use Rattle.psu_turn.specs.Seats.{Begins, IsOf, SeatCalls, Sees, Splits, Joins, Closes};
ghost use Rattle.psu_bench.specs.Calls.{AllowsOn};

use crate::machine::{BoxedDevice, Operation};
use crate::{Call, DeviceState};
use psu_disk::Disk;
use psu_exec::Exec;
use psu_turn::{NoMemory, Turn};
use std::alloc::Allocator;
use std::marker::{Brand, Model};
use std::snapshot::Snapshot;
use std::sync::{Mutex, Wait};

/// The handle that a thread needs for its calls of a bench.
pub type Seat = psu_turn::Seat<DeviceState, Call>;

/// The device's state, shared by threads that call it in turns. Contracts see which bench it is.
///
/// Before its turn a thread takes a mutex, at which threads wait asleep: many threads that waited for the turn itself
/// would take the processor from each other. No other lock is taken while a thread holds it.
#[derive(Drop)]
pub struct Bench<D: Disk, A: Allocator + Copy> {
    turn: Turn<BoxedDevice<D, A>, A>,
    pub(crate) mutex: Mutex<()>,
}

impl<D: Disk, A: Allocator + Copy> Model for Bench<D, A> {
    ghost use Rattle.psu_turn.specs.Turns.{TurnId, turn_id_coded};

    ghost Value = { TurnId };

    ghost coded = { turn_id_coded };

    ghost view = { λ b. b.turn };
}

impl<D: Disk, A: Allocator + Copy> Bench<D, A> {
    /// Creates a bench with its first seat. If an allocation fails, the state is returned unchanged.
    pub fn new(alloc: A, exec: Exec<D, A>) -> Result<(Bench<D, A>, Seat), NoMemory<Exec<D, A>>>
        ensures seat { IfOk result (λ made. Begins made.0 exec.device made.1) }
        ensures back { IfErr result (λ refused. refused.object ≡ exec) }
    {
        let exec = match Box::new(alloc, exec) {
            Ok(exec) => exec,
            Err(refused) => return Err(NoMemory {
                object: refused.value,
            }),
        };
        match Turn::new(alloc, BoxedDevice { exec }) {
            Ok((turn, seat)) => Ok((
                Bench {
                    turn,
                    mutex: Mutex::new(()),
                },
                seat,
            )),
            Err(
                NoMemory {
                    object: BoxedDevice { exec },
                },
            ) => Err(NoMemory {
                object: Box::into_inner(exec),
            }),
        }
    }

    /// Performs an operation, in a turn.
    pub fn call<R: Wait, O: Operation<D, A>>(
        &self,
        rt: &R,
        seat: &mut Seat,
        operation: O,
    ) -> O::Reply
        requires own { IsOf self.now seat.old }
        ensures call { SeatCalls (AllowsOn D.honest) seat.old (O.entry operation result) seat.new }
        ensures own { IsOf self.now seat.new }
    {
        let _guard = self.mutex.lock(rt);
        self.in_turn(rt, seat, operation)
    }

    // Performs an operation, in a turn, for a thread that has the mutex. Each call of the device is made here.
    pub(crate) fn in_turn<R: Wait, O: Operation<D, A>>(
        &self,
        rt: &R,
        seat: &mut Seat,
        operation: O,
    ) -> O::Reply
        requires own { IsOf self.now seat.old }
        ensures call { SeatCalls (AllowsOn D.honest) seat.old (O.entry operation result) seat.new }
        ensures own { IsOf self.now seat.new }
    {
        let call = Snapshot::of(&operation);
        let mut taken = self.turn.enter(rt, seat);
        let reply = operation.perform(&mut taken.object.exec);
        self.turn.leave::<Brand, _, _>(seat, taken, &call, &reply);
        reply
    }

    /// Returns the number of calls so far. It waits for no other thread. It is for a program that watches others call.
    pub fn progress(&self, seat: &mut Seat) -> u64
        requires own { IsOf self.now seat.old }
        ensures look { Sees (AllowsOn D.honest) seat.old seat.new }
        ensures length { result ≡ length seat.new.seen }
        ensures own { IsOf self.now seat.new }
    {
        self.turn.progress(seat)
    }

    /// Creates a seat for another thread. It waits for no other thread.
    pub fn split(&self, seat: &mut Seat) -> Seat
        requires own { IsOf self.now seat.old }
        ensures same { seat.new ≡ seat.old }
        ensures split { Splits seat.old result }
        ensures own { IsOf self.now result }
    {
        self.turn.split(seat)
    }

    /// Consumes another seat; this seat has then seen its calls. It waits for no other thread. It is for a program that
    /// joins its threads, as the server never does.
    pub fn join(&self, seat: &mut Seat, other: Seat)
        requires own { IsOf self.now seat.old × IsOf self.now other }
        ensures join { Joins (AllowsOn D.honest) seat.old other seat.new }
        ensures own { IsOf self.now seat.new }
    {
        self.turn.join(seat, other);
    }

    /// Waits for the last turn, and returns the state. It is for a program that joins its threads, as the server never
    /// does.
    pub fn close<R: Wait>(self, rt: &R, seat: Seat) -> Exec<D, A>
        requires own { IsOf self seat }
        ensures close { Closes (AllowsOn D.honest) seat result.device }
    {
        let Bench { turn, mutex: _ } = self;
        let BoxedDevice { exec } = turn.close(rt, seat);
        Box::into_inner(exec)
    }
}
