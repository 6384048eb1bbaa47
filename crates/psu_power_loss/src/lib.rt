//! The power-loss theorem: what a restart finds after any calls, disk calls, losses of power and ends of the process.
#![tactic(auto)]

mod laws;

pub use laws::{
    calls_are_events, confirm_is_an_event, counts_are_of_the_history, moments_are_events,
    read_is_an_event, restart_finds_a_prefix, restart_powers_on, rules_are_sound, sync_is_an_event,
    write_is_an_event,
};
