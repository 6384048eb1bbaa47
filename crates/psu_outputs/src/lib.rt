//! The four outputs: their settings, what is measured with a resistor at each, and the protection that trips.
//!
//! The settings stand in psu_settings. The electrical rules are this project's profile.
#![tactic(auto)]

mod laws;
mod measuring;
mod outputs;
mod quantities;
mod supply;

pub use laws::{each_trip_has_its_cause, each_trip_is_once};
pub use outputs::Outputs;
pub use psu_settings::{
    Milliamperes, Millivolts, Output, OutputSettings, Setting, Settings, bytes_determine_settings,
};
pub use quantities::{Measured, Milliohms};
