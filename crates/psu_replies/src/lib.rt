//! What the device, the message engine and a session say to one another: the outcome of a unit, with its reply; and what a
//! value has that must not be dropped. It knows nothing of an instrument.
#![tactic(auto)]

mod cannot_drop;
mod outcome;

pub use cannot_drop::CannotDrop;
pub use outcome::Outcome;
