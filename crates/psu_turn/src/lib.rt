//! A counted turn: one object that many threads call, one at a time, and one legal sequential history of all their
//! calls.
//!
//! A thread has a [`Seat`], waits for the turn by [`Turn::enter`], calls the object that it then holds, and gives it
//! back by [`Turn::leave`]. What the calls may return, and which states they may leave, is specified once, by the
//! relation of a [`Machine`].
#![tactic(auto)]

mod counted_object;
mod inherited;
mod machine;
mod name;
mod naming;
mod no_memory;
mod numbered;
mod patience;
mod seat;
mod stage;
mod steps;
mod taken;
mod turn;
mod turn_rule;
mod view;

pub use counted_object::CountedObject;
pub use inherited::Inherited;
pub use machine::Machine;
pub use name::Name;
pub use naming::Naming;
pub use no_memory::NoMemory;
pub use numbered::Numbered;
pub use seat::Seat;
pub use stage::Stage;
pub use taken::Taken;
pub use turn::{Turn, has_turn};
pub use view::View;
