//! The power-loss theorem for the device shared by threads: what they do is a list of events of the theorem, so each image
//! that a power loss leaves represents the contents after a prefix of the units that they executed, which contains all that
//! a seat had executed before its answered `*OPC?`.
#![tactic(auto)]

mod laws;

pub use laws::{each_opc_is_kept, histories_are_lives, seen_histories_happen, threads_are_events};
