//! The four outputs, with their loads and trips.
ghost use Rattle.std.specs.Prelude.{◌≡◌, ◌⊎◌, OnOk, OnErr, IfErr, false, true, map, if◌then◌else◌};
ghost use Rattle.std.specs.List.{list_any};
ghost use Rattle.psu_outputs.specs.declared.supply.Supply.{Supply as Each};
ghost use Rattle.psu_settings.specs.Settings.{after_set, is_in_range};
ghost use Rattle.psu_outputs.specs.Measuring.{measured};
ghost use Rattle.psu_outputs.specs.Outputs.{reset_supplies, supply_of, with_supply, all_settings, any_conflicts, with_all, with_load, without_trip, restored, is_load, is_in_limit, AreSupplies, conditions};
ghost use Rattle.psu_lex.specs.declared.scpi_error.ScpiError.TheVariants.{DataOutOfRange, SettingsConflict};

use crate::supply::Supply;
use crate::{Measured, Milliohms};
use psu_lex::ScpiError;
use psu_settings::{Output, OutputSettings, Setting, Settings};
use std::marker::Model;

/// The four outputs: settings, loads and trips. No call allocates.
///
/// After each change an output whose protection is on and whose measured voltage is above its level trips: its state
/// becomes off, and it stays tripped until it is cleared.
#[derive(Drop)]
pub struct Outputs {
    supplies: [Supply; 4],
}

impl Model for Outputs {
    ghost use Rattle.std.specs.Prelude.{List};
    ghost use Rattle.psu_outputs.specs.declared.supply.Supply.{Supply};
    ghost use Rattle.psu_outputs.specs.Outputs.{AreSettled, AreSupplies};

    ghost Value = { List Supply };

    ghost view = { λ o. o.supplies };

    ghost invariant = { λ o. AreSupplies o.supplies × AreSettled o.supplies };
}

impl Outputs {
    /// The outputs at power-on: the settings of `*RST`, loads of 10 ohms, no trips.
    pub fn new() -> Outputs
        ensures { result ≡ reset_supplies }
    {
        Outputs {
            supplies: [Supply::RESET; 4],
        }
    }

    /// The settings of all outputs.
    pub fn get(&self) -> Settings
        ensures { result ≡ all_settings self.now }
    {
        let mut settings = [OutputSettings::RESET; 4];
        for place in 0..4usize {
            settings[place] = self.supplies[place].settings;
        }
        Settings::of_outputs(settings)
    }

    /// Changes all settings of the outputs; each output may then trip. Settings that switch a tripped output on are
    /// refused, and then nothing has changed.
    pub fn set(&mut self, settings: Settings) -> Result<(), ScpiError>
        ensures set { OnOk result ((any_conflicts self.old settings ≡ false) × (self.new ≡ with_all self.old settings)) }
        ensures refused { IfErr result (λ error. (error ≡ SettingsConflict) × (any_conflicts self.old settings ≡ true) × (self.new ≡ self.old)) }
    {
        let settings = settings.outputs();
        if self.conflicts(&settings) {
            return Err(ScpiError::SettingsConflict);
        }
        self.supplies = with_all(self.supplies, &settings);
        Ok(())
    }

    /// Changes one setting of an output, which may then trip. The setting is refused if it is out of its range, or else
    /// if it switches a tripped output on; then nothing has changed.
    pub fn set_one(&mut self, output: Output, setting: Setting) -> Result<(), ScpiError>
        ensures set { OnOk result ((is_in_range setting ≡ true)
            × (any_conflicts self.old (after_set (all_settings self.old) output setting) ≡ false)
            × (self.new ≡ with_all self.old (after_set (all_settings self.old) output setting))) }
        ensures refused { IfErr result (λ error. ((error ≡ DataOutOfRange) × (is_in_range setting ≡ false))
            ⊎ ((error ≡ SettingsConflict) × (is_in_range setting ≡ true)
            × (any_conflicts self.old (after_set (all_settings self.old) output setting) ≡ true))) }
        ensures same { OnErr result (self.new ≡ self.old) }
    {
        if !setting.is_in_range() {
            return Err(ScpiError::DataOutOfRange);
        }
        let place = output.place();
        let supply = self.supplies[place];
        let settings = supply.settings.with(setting);
        if supply.conflicts(settings) {
            return Err(ScpiError::SettingsConflict);
        }
        self.supplies[place] = supply.with_settings(settings);
        Ok(())
    }

    /// Clears all trips and changes all settings of the outputs; each output may then trip. This is never refused.
    pub fn restore(&mut self, settings: Settings)
        ensures { self.new ≡ restored self.old settings }
    {
        self.supplies = with_all(without_trips(self.supplies), &settings.outputs());
    }

    /// The settings of one output.
    pub fn settings(&self, output: Output) -> OutputSettings
        ensures { let s = supply_of self.now output in result ≡ s.settings }
    {
        self.supplies[output.place()].settings
    }

    /// What is measured at an output.
    pub fn measure(&self, output: Output) -> Measured
        ensures { let s = supply_of self.now output in result ≡ measured s.settings s.load.0 }
    {
        self.supplies[output.place()].measured()
    }

    /// Whether an output is tripped. A tripped output is off until the trip is cleared.
    pub fn trip(&self, output: Output) -> bool
        ensures value { let s = supply_of self.now output in result ≡ s.tripped }
        ensures off { result ≡ true → (let s = supply_of self.now output in s.settings.on ≡ false) }
    {
        self.supplies[output.place()].tripped
    }

    /// Clears the trip of an output, which stays off.
    pub fn clear(&mut self, output: Output)
        ensures { self.new ≡ with_supply self.old output (without_trip (supply_of self.old output)) }
    {
        let place = output.place();
        self.supplies[place].tripped = false;
    }

    /// The load of an output.
    pub fn load(&self, output: Output) -> Milliohms
        ensures { let s = supply_of self.now output in result ≡ s.load }
    {
        self.supplies[output.place()].load
    }

    /// Connects a load of 1 to 10,000,000 milliohms; any other is refused, and nothing has changed then.
    pub fn set_load(&mut self, output: Output, load: Milliohms) -> Result<(), ScpiError>
        ensures set { OnOk result ((is_load load.0 ≡ true) × (self.new ≡ with_supply self.old output (with_load (supply_of self.old output) load.0))) }
        ensures refused { IfErr result (λ error. (error ≡ DataOutOfRange) × (is_load load.0 ≡ false) × (self.new ≡ self.old)) }
    {
        if load.0 < 1 || load.0 > 10_000_000 {
            return Err(ScpiError::DataOutOfRange);
        }
        let place = output.place();
        self.supplies[place] = self.supplies[place].with_load(load);
        Ok(())
    }

    /// The condition bits of QUEStionable: bit 0 where an output is tripped, bit 1 where one is in current limit.
    pub fn conditions(&self) -> u16
        ensures { result ≡ conditions self.now }
    {
        bit(self.is_tripped(), 1) + bit(self.is_in_limit(), 2)
    }

    // Whether the settings switch a tripped output on.
    fn conflicts(&self, settings: &[OutputSettings; 4]) -> bool
        ensures { result ≡ any_conflicts self.now settings.now }
    {
        for place in 0..4usize {
            if self.supplies[place].conflicts(settings[place]) {
                return true;
            }
        }
        false
    }

    // Whether an output is tripped.
    fn is_tripped(&self) -> bool
        ensures { result ≡ list_any (λ (s : Each). s.tripped) self.now }
    {
        self.supplies.iter().any(|supply| supply.tripped)
    }

    // Whether an output is in current limit.
    fn is_in_limit(&self) -> bool
        ensures { result ≡ list_any is_in_limit self.now }
    {
        for supply in &self.supplies {
            if supply.measured().limited {
                return true;
            }
        }
        false
    }
}

// Returns the outputs with other settings, which may trip them.
fn with_all(supplies: [Supply; 4], settings: &[OutputSettings; 4]) -> [Supply; 4]
    requires { AreSupplies supplies }
    ensures { result ≡ with_all supplies settings.now }
{
    let mut supplies = supplies;
    for place in 0..4usize {
        supplies[place] = supplies[place].with_settings(settings[place]);
    }
    supplies
}

// Returns the outputs with their trips cleared.
fn without_trips(supplies: [Supply; 4]) -> [Supply; 4]
    requires { AreSupplies supplies }
    ensures { result ≡ map without_trip supplies }
{
    let mut supplies = supplies;
    for place in 0..4usize {
        supplies[place].tripped = false;
    }
    supplies
}

// The value if `on`, else 0.
fn bit(on: bool, value: u16) -> u16
    ensures { result ≡ (if on then value else 0) }
{
    if on { value } else { 0 }
}
