//! The turn: three words, and a slot that has the object while no seat has taken it.
ghost use Rattle.std.specs.Prelude.{◌≡◌, ◌+◌, ◌^◌, ◌<◌, ◌≤◌, nat_lt, [], ◌∷◌, Option, Some, None, IfOk, IfErr, length};
ghost use Rattle.psu_turn.specs.Rule.{at_stage};
ghost use Rattle.psu_turn.specs.Seats.{Begins, IsOf, SeatCalls, Sees, Splits, Joins, Closes};
ghost use Rattle.psu_turn.specs.Sights.{IsReady, number_of};
ghost use Rattle.psu_turn.specs.declared.stage.Stage.TheVariants.{Waiting, Called, Out};
ghost use Rattle.psu_turn.specs.declared.name.Name.TheVariants.{Named};

use crate::patience::Patience;
use crate::seat::Place;
use crate::steps::{Add, Call, Draw, Fork, Know, Leave, Look, Merge, Take};
use crate::turn_rule::TurnRule;
use crate::{CountedObject, Machine, Naming, NoMemory, Seat, Taken, View};
use atomic_table::{Closed, Refused, Table};
use std::alloc::Allocator;
use std::marker::Model;
use std::snapshot::Snapshot;
use std::sync::Wait;

// The number of turns that there are.
const TURNS: u64 = 1 << 62;

/// Whether there is a turn for a ticket: there are 2^62, counted from 0. A call that finds them used up waits forever.
pub fn has_turn(ticket: u64) -> bool
    ensures { result ≡ nat_lt ticket (2 ^ 62) }
{
    ticket < TURNS
}

// The words of the table: the number of calls, the next ticket, and the ticket that is served.
const COUNT: usize = 0;

const NEXT: usize = 1;

const SERVED: usize = 2;

/// An object that many threads call, each in its turn. Contracts see which turn it is: a seat belongs to one turn only.
#[derive(Drop)]
pub struct Turn<T: Machine, A: Allocator + Copy> {
    table: Table<Option<CountedObject<T>>, View<T::State, T::Entry>, Snapshot<T>, TurnRule, A>,
}

impl<T: Machine, A: Allocator + Copy> Model for Turn<T, A> {
    ghost use Rattle.std.specs.Prelude.{◌≡◌};
    ghost use Rattle.psu_turn.specs.Turns.{TurnId, turn_id_coded};

    ghost Value = { TurnId };

    ghost coded = { turn_id_coded };

    ghost view = { λ t. t.table.shared.table_id };

    ghost invariant = { λ t. (t.table.shared.table_id.words ≡ 3) × (t.table.shared.table_id.slots ≡ 1) };
}

impl<T: Machine, A: Allocator + Copy> Turn<T, A> {
    ghost use Rattle.psu_turn.specs.Takings.{seat_of, state_of};

    /// Creates a turn of this object, with the first seat. If there is no memory, returns the object as it was. It is
    /// the only call that allocates.
    pub fn new(alloc: A, object: T) -> Result<(Turn<T, A>, Seat<T::State, T::Entry>), NoMemory<T>>
        ensures seat { IfOk result (λ made. Begins made.0 (T.state object) made.1) }
        ensures back { IfErr result (λ refused. refused.object ≡ object) }
    {
        let about = Snapshot::of(&object);
        let Ok(mut slots) = Vec::with_capacity(alloc, 1) else {
            return Err(NoMemory { object });
        };
        slots.push_reserved(Some(CountedObject { object, count: 0 }));
        match Table::new(alloc, &[0, 0, 0], slots, &about) {
            Ok((table, place)) => Ok((Turn { table }, Seat::rest(place))),
            Err(Refused { mut slots }) => {
                let Some(Some(CountedObject { object, count: _ })) = slots.pop() else {
                    unreachable!()
                };
                slots.destroy_empty();
                Err(NoMemory { object })
            }
        }
    }

    /// Waits for the turn, and takes the object for one call.
    pub fn enter<R: Wait>(
        &self,
        rt: &R,
        seat: &mut Seat<T::State, T::Entry>,
    ) -> Taken<T, T::State, T::Entry>
        requires own { IsOf self.now seat.old }
        ensures seat { seat_of result ≡ seat.old }
        ensures state { state_of result ≡ Some (T.state result.object) }
    {
        let mut place = seat.rise();
        let ticket = self.draw(rt, &mut place);
        let CountedObject { object, count } = self.take(rt, &mut place, ticket);
        Taken {
            object,
            place,
            ticket,
            count,
        }
    }

    /// Gives the object back, restores the seat, and adds the entry to the history. The call and its reply are for the
    /// proof only, which chooses the entry by them.
    pub fn leave<J: Naming<T::Entry>, C, P>(
        &self,
        seat: &mut Seat<T::State, T::Entry>,
        taken: Taken<T, T::State, T::Entry>,
        _call: &C,
        _reply: &P,
    )
        requires own { (seat_of taken).turn ≡ self.now }
        requires allowed { (before : _) × (e : _) × (state_of taken ≡ Some before) × (J.entry ≡ Some e) × T.allows before e (T.state taken.object) }
        ensures call { (e : _) → J.entry ≡ Some e → SeatCalls T.allows (seat_of taken) e seat.new }
        ensures own { IsOf self.now seat.new }
    {
        let Taken {
            object,
            mut place,
            ticket,
            count,
        } = taken;
        let count = count + 1;
        let before = self
            .table
            .shared
            .exchange(&mut place, 0, Some(CountedObject { object, count }));
        let None = before else { unreachable!() };
        self.table.shared.store::<Add<J>>(&mut place, COUNT, count);
        self.table
            .shared
            .store::<Leave>(&mut place, SERVED, ticket + 1);
        *seat = Seat::rest(place);
    }

    /// Returns the number of calls so far. Waits for no other thread.
    pub fn progress(&self, seat: &mut Seat<T::State, T::Entry>) -> u64
        requires own { IsOf self.now seat.old }
        ensures look { Sees T.allows seat.old seat.new }
        ensures length { result ≡ length seat.new.seen }
        ensures own { IsOf self.now seat.new }
    {
        let mut place = seat.rise();
        let calls = self.table.shared.load::<Look>(&mut place, COUNT);
        *seat = Seat::rest(place);
        calls
    }

    /// Returns a seat for another thread. Waits for no other thread.
    pub fn split(&self, seat: &mut Seat<T::State, T::Entry>) -> Seat<T::State, T::Entry>
        requires own { IsOf self.now seat.old }
        ensures same { seat.new ≡ seat.old }
        ensures split { Splits seat.old result }
        ensures own { IsOf self.now result }
    {
        let mut place = seat.rise();
        let mut other = self.table.shared.split_seat::<Fork>(&mut place);
        self.table.shared.load::<Call>(&mut other, COUNT);
        *seat = Seat::rest(place);
        Seat::rest(other)
    }

    /// Joins another seat to this one: the other is released, and this one has seen its calls. Waits for no other
    /// thread.
    pub fn join(&self, seat: &mut Seat<T::State, T::Entry>, mut other: Seat<T::State, T::Entry>)
        requires own { IsOf self.now seat.old × IsOf self.now other }
        ensures join { Joins T.allows seat.old other seat.new }
        ensures own { IsOf self.now seat.new }
    {
        let mut place = seat.rise();
        self.table
            .shared
            .join_seat::<Merge>(&mut place, other.rise());
        self.table.shared.load::<Look>(&mut place, COUNT);
        *seat = Seat::rest(place);
    }

    /// Waits for the last turn, and returns the object.
    pub fn close<R: Wait>(self, rt: &R, mut seat: Seat<T::State, T::Entry>) -> T
        requires own { IsOf self seat }
        ensures close { Closes T.allows seat (T.state result) }
    {
        let mut place = seat.rise();
        let ticket = self.draw(rt, &mut place);
        self.await_call(rt, &mut place, ticket);
        let Turn { table } = self;
        let mut closed = table.close_with(place);
        let Some(CountedObject { object, count: _ }) = closed.take(0) else {
            unreachable!()
        };
        closed.free();
        object
    }

    // Draws a ticket, and returns it.
    fn draw<R: Wait>(&self, rt: &R, place: &mut Place<T, T::State, T::Entry>) -> u64
        requires own { place.old.table_id ≡ self.now }
        requires ready { IsReady place.old.me }
        ensures same { (place.new.table_id ≡ place.old.table_id) × (place.new.id ≡ place.old.id) }
        ensures drawn { place.new.me ≡ (at_stage place.old.me.0 (Waiting result), place.old.me.1) }
    {
        let mut patience = Patience::new();
        for _ in rt.forever() {
            let next = self.table.shared.peek(NEXT);
            if has_turn(next) {
                let found = self
                    .table
                    .shared
                    .compare_exchange::<Draw>(place, NEXT, next, next + 1);
                if found == next {
                    return next;
                }
            }
            patience.pause();
        }
        unreachable!()
    }

    // Waits until the ticket is served, and takes the object from its slot.
    fn take<R: Wait>(
        &self,
        rt: &R,
        place: &mut Place<T, T::State, T::Entry>,
        ticket: u64,
    ) -> CountedObject<T>
        requires own { place.old.table_id ≡ self.now }
        requires named { place.old.me.0.name ≡ Named (number_of place.old.me.0.name) }
        requires waiting { (place.old.me.0.stage ≡ Waiting ticket) × (place.old.me.1 ≡ []) }
        ensures same { (place.new.table_id ≡ place.old.table_id) × (place.new.id ≡ place.old.id) }
        ensures room { (result.count ≤ ticket) × (ticket < 2 ^ 62) }
        ensures out { place.new.me ≡ (at_stage place.old.me.0 (Out ticket (T.state result.object) result.count), (0, None) ∷ []) }
    {
        let mut patience = Patience::new();
        for _ in rt.forever() {
            if self.table.shared.load::<Take>(place, SERVED) == ticket {
                let Some(held) = self.table.shared.exchange(place, 0, None) else {
                    unreachable!()
                };
                return held;
            }
            patience.pause();
        }
        unreachable!()
    }

    // Waits until the ticket is served.
    fn await_call<R: Wait>(&self, rt: &R, place: &mut Place<T, T::State, T::Entry>, ticket: u64)
        requires own { place.old.table_id ≡ self.now }
        requires named { place.old.me.0.name ≡ Named (number_of place.old.me.0.name) }
        requires waiting { place.old.me.0.stage ≡ Waiting ticket }
        ensures same { (place.new.table_id ≡ place.old.table_id) × (place.new.id ≡ place.old.id) }
        ensures called { place.new.me ≡ (at_stage place.old.me.0 (Called ticket), place.old.me.1) }
    {
        let mut patience = Patience::new();
        for _ in rt.forever() {
            if self.table.shared.load::<Know>(place, SERVED) == ticket {
                return;
            }
            patience.pause();
        }
        unreachable!()
    }
}
