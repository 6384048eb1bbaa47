//! One output with its load and its trip.
ghost use Rattle.std.specs.Prelude.{◌≡◌, ◌≤◌};
ghost use Rattle.psu_outputs.specs.Measuring.{measured};
ghost use Rattle.psu_outputs.specs.Outputs.{checked, conflicts, with_load, with_settings};

use crate::{Measured, Milliohms};
use psu_settings::{OutputSettings, Setting};

/// One output: its settings, the load connected to it, and whether it is tripped.
#[derive(Clone, Copy, Debug, PartialEq, Eq)]
pub(crate) struct Supply {
    pub settings: OutputSettings,
    pub load: Milliohms,
    pub tripped: bool,
}

impl Supply {
    /// As at power-on: the settings of `*RST`, 10 ohms, not tripped.
    pub(crate) const RESET: Supply = Supply {
        settings: OutputSettings::RESET,
        load: Milliohms(10000),
        tripped: false,
    };

    /// What is measured at the output.
    pub(crate) fn measured(&self) -> Measured
        requires { 1 ≤ self.now.load.0 }
        ensures { result ≡ measured self.now.settings self.now.load.0 }
    {
        Measured::of(self.settings, self.load)
    }

    // Returns the output tripped and off if its protection is on and the measured voltage is above the level, else
    // unchanged.
    fn checked(self) -> Supply
        requires { 1 ≤ self.load.0 }
        ensures { result ≡ checked self }
    {
        let measured = self.measured();
        if self.settings.protection && measured.voltage.0 > self.settings.level.0 {
            Supply {
                settings: self.settings.with(Setting::State(false)),
                tripped: true,
                ..self
            }
        } else {
            self
        }
    }

    /// Returns the output with another load, which may trip it.
    pub(crate) fn with_load(self, load: Milliohms) -> Supply
        requires { 1 ≤ load.0 }
        ensures { result ≡ with_load self load.0 }
    {
        Supply { load, ..self }.checked()
    }

    /// Whether the output is tripped and the settings switch it on.
    pub(crate) fn conflicts(&self, settings: OutputSettings) -> bool
        ensures { result ≡ conflicts self.now settings }
    {
        self.tripped && settings.on
    }

    /// Returns the output with other settings, which may trip it.
    pub(crate) fn with_settings(self, settings: OutputSettings) -> Supply
        requires { 1 ≤ self.load.0 }
        ensures { result ≡ with_settings self settings }
    {
        Supply { settings, ..self }.checked()
    }
}
