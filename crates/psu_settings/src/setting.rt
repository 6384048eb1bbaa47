//! One setting of an output.
ghost use Rattle.std.specs.Prelude.{◌≡◌};
ghost use Rattle.psu_settings.specs.Settings.{is_in_range};

use crate::{Milliamperes, Millivolts};

/// One setting of an output, with its new value.
#[derive(Clone, Copy, Debug, PartialEq, Eq)]
pub enum Setting {
    /// The voltage, 0 to 60,000 mV.
    Voltage(Millivolts),
    /// The current limit, 0 to 5,000 mA.
    Current(Milliamperes),
    /// The level of the overvoltage protection, 0 to 60,000 mV.
    ProtectionLevel(Millivolts),
    /// Whether the overvoltage protection is on.
    Protection(bool),
    /// Whether the output is on.
    State(bool),
}

impl Setting {
    /// Whether the setting is within its range.
    pub fn is_in_range(self) -> bool
        ensures { result ≡ is_in_range self }
    {
        match self {
            Setting::Voltage(voltage) => voltage.0 <= Millivolts::GREATEST.0,
            Setting::Current(current) => current.0 <= Milliamperes::GREATEST.0,
            Setting::ProtectionLevel(level) => level.0 <= Millivolts::GREATEST.0,
            Setting::Protection(_) | Setting::State(_) => true,
        }
    }
}
