//! A client of the server, for tests over sockets: frames that it sends and waits for, sessions that it opens, and
//! faults where something else is received than expected. It knows nothing of how the server is made.
#![tactic(auto)]

mod actions;
mod client;
mod joining;
mod long_answer;
mod missed;
mod script;
mod wire;

pub use client::Client;
pub use joining::{begun, connected, joined_again, joined_as, joined_soon, settle};
pub use long_answer::repeated;
pub use missed::{Missed, holds};
pub use psu_tables::header;
pub use script::Cast;
pub use wire::{bare, expect_header, is_ended, is_silent, next, send};
