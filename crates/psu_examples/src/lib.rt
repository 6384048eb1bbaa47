//! The examples of a guide: how they are read, and whether each is answered as it states. The player that answers them
//! is known only by what it may answer.
#![tactic(auto)]

mod check;
mod example;
mod guide_fault;
mod place;
mod player;
mod reading;

pub use check::examples_held;
pub use example::Example;
pub use guide_fault::GuideFault;
pub use player::Player;
pub use reading::examples_of;
