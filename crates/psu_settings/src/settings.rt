//! The settings of the four outputs.
ghost use Rattle.std.specs.Prelude.{◌≡◌, OnOk, IfErr, IfSome, true, false, List, IfNone};
ghost use Rattle.psu_settings.specs.Settings.{reset, is_reset, settings_of, is_in_range, after_set, AreSettings, bytes_of, is_allowed};
ghost use Rattle.std.specs.List.{list_all};
ghost use Rattle.psu_lex.specs.declared.scpi_error.ScpiError.TheVariants.{DataOutOfRange};
ghost use Rattle.psu_settings.specs.declared.output_settings.OutputSettings.{OutputSettings as Each};

use crate::{Output, OutputSettings, Setting};
use psu_lex::ScpiError;
use std::marker::Model;

/// The settings of the four outputs, as a register stores them. Contracts see the list of the four.
#[derive(Clone, Copy, Debug, PartialEq, Eq)]
pub struct Settings {
    outputs: [OutputSettings; 4],
}

impl Model for Settings {
    ghost use Rattle.std.specs.Prelude.{List};
    ghost use Rattle.psu_settings.specs.declared.output_settings.OutputSettings.{OutputSettings};
    ghost use Rattle.psu_settings.specs.Settings.{AreSettings};

    ghost Value = { List OutputSettings };

    ghost view = { λ s. s.outputs };

    ghost invariant = { λ s. AreSettings s.outputs };

    ghost inverse = { λ outputs. record { outputs = outputs } };
}

impl Settings {
    /// The settings of `*RST`: 0 V, 0 A, protection level 60 V, protection off, output off.
    pub fn reset() -> Settings
        ensures { result ≡ reset }
    {
        Settings {
            outputs: [OutputSettings::RESET; 4],
        }
    }

    /// Whether the settings are those of `*RST`.
    pub fn is_reset(&self) -> bool
        ensures { result ≡ is_reset self.now }
    {
        let _ = &self.outputs;
        *self == Settings::reset()
    }

    /// The settings of one output.
    pub fn get(&self, output: Output) -> OutputSettings
        ensures { result ≡ settings_of self.now output }
    {
        self.outputs[output.place()]
    }

    /// Changes one setting of an output. A setting out of its range is refused, and then nothing changes.
    pub fn set(&mut self, output: Output, setting: Setting) -> Result<(), ScpiError>
        ensures set { OnOk result ((is_in_range setting ≡ true) × (self.new ≡ after_set self.old output setting)) }
        ensures refused { IfErr result (λ error. (error ≡ DataOutOfRange) × (is_in_range setting ≡ false) × (self.new ≡ self.old)) }
    {
        if !setting.is_in_range() {
            return Err(ScpiError::DataOutOfRange);
        }
        let place = output.place();
        self.outputs[place] = self.outputs[place].with(setting);
        Ok(())
    }
}

impl Settings {
    /// Encodes the settings in 28 bytes, seven for each output: voltage, current and protection level in two bytes
    /// each, the high one first, then the flags (bit 0 protection on, bit 1 output on).
    pub fn to_bytes(&self) -> [u8; 28]
        ensures { result ≡ bytes_of self.now }
    {
        let mut bytes = [0; 28];
        for place in 0..4usize {
            let these = self.outputs[place].to_bytes();
            bytes[7 * place..7 * place + 7].copy_from_slice(&these);
        }
        bytes
    }

    /// Decodes the settings from 28 bytes, each within its range; `None` for other bytes.
    pub fn of_bytes(bytes: &[u8]) -> Option<Settings>
        ensures found { IfSome result (λ settings. bytes_of settings ≡ bytes.now) }
        ensures allowed { IfSome result AreSettings }
        ensures again { (outputs : List Each) → AreSettings outputs → bytes_of outputs ≡ bytes.now → IfSome result (λ settings. settings ≡ outputs) }
        ensures none { IfNone result ((outputs : List Each) → AreSettings outputs → bytes_of outputs ≡ bytes.now → ⊥) }
    {
        if bytes.len() != 28 {
            return None;
        }
        let mut outputs = [OutputSettings::RESET; 4];
        for place in 0..4usize {
            let Some(output) = OutputSettings::of_bytes(&bytes[7 * place..7 * place + 7]) else {
                return None;
            };
            outputs[place] = output;
        }
        Some(Settings { outputs })
    }
}

impl Settings {
    /// The settings of four outputs, each within its ranges.
    pub fn of_outputs(outputs: [OutputSettings; 4]) -> Settings
        requires { list_all is_allowed outputs ≡ true }
        ensures { result ≡ outputs }
    {
        Settings { outputs }
    }

    /// The settings of each output, within their ranges.
    pub fn outputs(self) -> [OutputSettings; 4]
        ensures value { result ≡ self }
        ensures allowed { AreSettings result }
    {
        self.outputs
    }
}
