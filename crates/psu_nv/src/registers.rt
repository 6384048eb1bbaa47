//! The registers of contents.
ghost use Rattle.std.specs.Prelude.{◌≡◌, ◌≤◌, replicate, slice_set, if◌then◌else◌};
ghost use Rattle.psu_settings.specs.Settings.{reset, is_reset};
ghost use Rattle.psu_nv.specs.Commands.{settings_at};
ghost use Rattle.psu_nv.specs.Costs.{registers_cost};

use crate::{REGISTERS, Register};
use psu_settings::Settings;
use std::marker::Model;

// The settings of a hundred registers, whether each of them holds those of `*RST`, and the pages that they cost in all,
// so that no command iterates over them. Contracts see the list of settings.
#[derive(Drop)]
pub(crate) struct Registers {
    all: [Settings; REGISTERS],
    reset: [bool; REGISTERS],
    pages: u8,
}

impl Model for Registers {
    ghost use Rattle.std.specs.Prelude.{List, ◌≡◌, length, map};
    ghost use Rattle.psu_settings.specs.Settings.{is_reset};
    ghost use Rattle.psu_settings.specs.declared.output_settings.OutputSettings.{OutputSettings};
    ghost use Rattle.psu_nv.specs.Costs.{registers_cost};

    ghost Value = { List (List OutputSettings) };

    ghost view = { λ r. r.all };

    ghost invariant = { λ r. (r.reset ≡ map is_reset r.all) × (length r.all ≡ 100) × (r.pages ≡ registers_cost r.all) };
}

impl Registers {
    // Returns registers that each hold the settings of `*RST`.
    pub(crate) fn reset() -> Registers
        ensures { result ≡ replicate 100 reset }
    {
        Registers {
            all: [Settings::reset(); REGISTERS],
            reset: [true; REGISTERS],
            pages: 0,
        }
    }

    // Copies the registers.
    pub(crate) fn copy(&self) -> Registers
        ensures { result ≡ self.now }
    {
        Registers {
            all: self.all,
            reset: self.reset,
            pages: self.pages,
        }
    }

    // The settings of a register.
    pub(crate) fn get(&self, register: Register) -> Settings
        ensures { result ≡ settings_at self.now register.number }
    {
        self.all[register.number() as usize]
    }

    // Whether a register holds the settings of `*RST`.
    pub(crate) fn is_reset(&self, register: Register) -> bool
        ensures { result ≡ is_reset (settings_at self.now register.number) }
    {
        self.reset[register.number() as usize]
    }

    // Replaces the settings of a register.
    pub(crate) fn set(&mut self, register: Register, settings: Settings)
        ensures { self.new ≡ slice_set self.old register.number settings }
    {
        let pages = self.pages_with(register, settings);
        self.all[register.number() as usize] = settings;
        self.reset[register.number() as usize] = settings.is_reset();
        self.pages = pages;
    }

    // The pages that the registers cost.
    pub(crate) fn pages(&self) -> u8
        ensures { result ≡ registers_cost self.now }
    {
        self.pages
    }

    // The pages that the registers would cost if this one held these settings.
    pub(crate) fn pages_with(&self, register: Register, settings: Settings) -> u8
        ensures { result ≡ registers_cost (slice_set self.now register.number settings) }
    {
        let others = self.pages - register_pages(self.is_reset(register));
        others + register_pages(settings.is_reset())
    }
}

// The pages of a register, which do not depend on its number.
fn register_pages(reset: bool) -> u8
    ensures value { result ≡ (if reset then 0 else 2) }
    ensures most { result ≤ 2 }
{
    if reset { 0 } else { 2 }
}
