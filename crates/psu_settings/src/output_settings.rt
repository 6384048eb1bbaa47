//! The settings of one output.
ghost use Rattle.std.specs.Prelude.{◌≡◌, true, IfSome, IfNone};
ghost use Rattle.psu_settings.specs.declared.output_settings.OutputSettings.{OutputSettings as Each};
ghost use Rattle.psu_settings.specs.Settings.{with_setting, is_allowed};

use crate::{Milliamperes, Millivolts, Setting};

/// The settings of one output.
#[derive(Clone, Copy, Debug, PartialEq, Eq)]
pub struct OutputSettings {
    /// 0 to 60,000 mV.
    pub voltage: Millivolts,
    /// The current limit, 0 to 5,000 mA.
    pub current: Milliamperes,
    /// The level of the overvoltage protection, 0 to 60,000 mV.
    pub level: Millivolts,
    /// Whether the overvoltage protection is on.
    pub protection: bool,
    /// Whether the output is on.
    pub on: bool,
}

impl OutputSettings {
    /// The settings of `*RST`.
    pub const RESET: OutputSettings = OutputSettings {
        voltage: Millivolts(0),
        current: Milliamperes(0),
        level: Millivolts::GREATEST,
        protection: false,
        on: false,
    };

    /// Returns the settings with one of them changed.
    pub fn with(self, setting: Setting) -> OutputSettings
        ensures { result ≡ with_setting self setting }
    {
        match setting {
            Setting::Voltage(voltage) => OutputSettings { voltage, ..self },
            Setting::Current(current) => OutputSettings { current, ..self },
            Setting::ProtectionLevel(level) => OutputSettings { level, ..self },
            Setting::Protection(protection) => OutputSettings { protection, ..self },
            Setting::State(on) => OutputSettings { on, ..self },
        }
    }

    // Whether each setting is within its range.
    pub(crate) fn is_allowed(&self) -> bool
        ensures { result ≡ is_allowed self.now }
    {
        self.voltage.0 <= Millivolts::GREATEST.0
            && self.current.0 <= Milliamperes::GREATEST.0
            && self.level.0 <= Millivolts::GREATEST.0
    }
}

impl OutputSettings {
    ghost use Rattle.psu_settings.specs.Settings.{output_bytes};

    // Encodes the settings in seven bytes, as a register stores them.
    pub(crate) fn to_bytes(self) -> [u8; 7]
        requires { is_allowed self ≡ true }
        ensures { result ≡ output_bytes self }
    {
        let [v1, v0] = (self.voltage.0 as u16).to_be_bytes();
        let [i1, i0] = (self.current.0 as u16).to_be_bytes();
        let [l1, l0] = (self.level.0 as u16).to_be_bytes();
        let protection = if self.protection { 1u8 } else { 0 };
        let on = if self.on { 2u8 } else { 0 };
        [v1, v0, i1, i0, l1, l0, protection + on]
    }

    // Decodes seven bytes; `None` unless they encode settings within their ranges.
    pub(crate) fn of_bytes(bytes: &[u8]) -> Option<OutputSettings>
        ensures found { IfSome result (λ o. (is_allowed o ≡ true) × (output_bytes o ≡ bytes.now)) }
        ensures none { IfNone result ((o : Each) → is_allowed o ≡ true → output_bytes o ≡ bytes.now → ⊥) }
    {
        let [v1, v0, i1, i0, l1, l0, flags] = bytes else {
            return None;
        };
        if *flags > 3 {
            return None;
        }
        let settings = OutputSettings {
            voltage: Millivolts(u16::from_be_bytes([*v1, *v0]) as u32),
            current: Milliamperes(u16::from_be_bytes([*i1, *i0]) as u32),
            level: Millivolts(u16::from_be_bytes([*l1, *l0]) as u32),
            protection: *flags & 1 != 0,
            on: *flags & 2 != 0,
        };
        if settings.is_allowed() {
            Some(settings)
        } else {
            None
        }
    }
}
