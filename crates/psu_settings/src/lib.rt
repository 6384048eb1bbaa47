//! The settings of the four outputs, within their ranges, and the bytes as which they are stored.
//!
//! Settings are those of SCPI-1999 (volume 2, SOURce and OUTPut); their ranges and bytes are this project's profile.
#![tactic(auto)]

mod laws;
mod output;
mod output_settings;
mod quantities;
mod setting;
mod settings;

pub use laws::bytes_determine_settings;
pub use output::Output;
pub use output_settings::OutputSettings;
pub use quantities::{Milliamperes, Millivolts};
pub use setting::Setting;
pub use settings::Settings;
