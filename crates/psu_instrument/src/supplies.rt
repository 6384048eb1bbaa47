//! The settings and measurements of the outputs.
ghost use Rattle.std.specs.Prelude.{◌≡◌, ℕ, Bool};
ghost use Rattle.psu_nv.specs.Contents.{Contents as Kept};
ghost use Rattle.psu_outputs.specs.Outputs.{restored, supply_of, with_supply, without_trip};
ghost use Rattle.psu_tree.specs.Commands.{greatest_of};
ghost use Rattle.psu_instrument.specs.Instrument.{with_supplies};
ghost use Rattle.psu_instrument.specs.Meaning.{ActsAs, situation};
ghost use Rattle.psu_instrument.specs.Supplies.{queried, level_queried, level_of, level_set, load, set, switch_of};

use crate::common::flag_response;
use crate::{Act, Instrument};
use psu_lex::{ScpiError, fixed3, whole};
use psu_outputs::Milliohms;
use psu_settings::{Milliamperes, Millivolts, Output, Setting, Settings};
use psu_tree::{Extreme, Level, OutputQuery, Switch};
use std::alloc::Allocator;

// `VOLTage`, `CURRent`, `VOLTage:PROTection`, in millivolts and milliamperes.
pub(crate) fn level_of(level: Level, n: u16) -> Setting
    ensures { result ≡ level_of level n }
{
    match level {
        Level::Voltage => Setting::Voltage(Millivolts(n as u32)),
        Level::Current => Setting::Current(Milliamperes(n as u32)),
        Level::Protection => Setting::ProtectionLevel(Millivolts(n as u32)),
    }
}

// `OUTPut`, `VOLTage:PROTection:STATe`.
pub(crate) fn switch_of(switch: Switch, on: bool) -> Setting
    ensures { result ≡ switch_of switch on }
{
    match switch {
        Switch::Output => Setting::State(on),
        Switch::Protection => Setting::Protection(on),
    }
}

// Returns the maximum of a level, in thousandths of its unit; the minimum is 0.
fn greatest_of(level: Level) -> u32
    ensures { result ≡ greatest_of level }
{
    match level {
        Level::Voltage | Level::Protection => Millivolts::GREATEST.0,
        Level::Current => Milliamperes::GREATEST.0,
    }
}

impl Instrument {
    // Updates the condition register of QUEStionable from the outputs.
    fn follow(&mut self)
        ensures { self.new ≡ with_supplies self.old self.old.supplies }
    {
        self.status.condition(self.outputs.conditions());
    }

    // `*RST`, `*RCL`: applies the settings, with no trips except those that the settings cause.
    pub(crate) fn restore(&mut self, settings: Settings)
        ensures { self.new ≡ with_supplies self.old (restored self.old.supplies settings) }
    {
        self.outputs.restore(settings);
        self.follow();
    }

    // Changes one setting of an output.
    pub(crate) fn set<'c, A: Allocator + Copy>(
        &mut self,
        output: Output,
        thing: Setting,
    ) -> Result<Act<'c, A>, ScpiError>
        ensures { (limit : ℕ) (contents : Kept) (available : Bool)
            → ActsAs (set (situation limit contents self.old available) output thing) self.old result self.new }
    {
        self.outputs.set_one(output, thing)?;
        self.follow();
        Ok(Act::Done)
    }

    // `VOLTage:PROTection:CLEar`.
    pub(crate) fn clear_trip(&mut self, output: Output)
        ensures { self.new ≡ with_supplies self.old (with_supply self.old.supplies output (without_trip (supply_of self.old.supplies output))) }
    {
        self.outputs.clear(output);
        self.follow();
    }

    // `SIMulation:LOAD`.
    pub(crate) fn load<'c, A: Allocator + Copy>(
        &mut self,
        output: Output,
        milliohms: u32,
    ) -> Result<Act<'c, A>, ScpiError>
        ensures { (limit : ℕ) (contents : Kept) (available : Bool)
            → ActsAs (load (situation limit contents self.old available) output milliohms) self.old result
            self.new }
    {
        self.outputs.set_load(output, Milliohms(milliohms))?;
        self.follow();
        Ok(Act::Done)
    }

    // Returns the setting of a level, in thousandths of its unit.
    fn level_set(&self, level: Level, output: Output) -> u32
        ensures { result ≡ level_set (supply_of self.now.supplies output) level }
    {
        let settings = self.outputs.settings(output);
        match level {
            Level::Voltage => settings.voltage.0,
            Level::Current => settings.current.0,
            Level::Protection => settings.level.0,
        }
    }

    // `VOLTage?` and the other level queries.
    pub(crate) fn level_query<'c, A: Allocator + Copy>(
        &self,
        alloc: A,
        level: Level,
        output: Output,
        extreme: Option<Extreme>,
    ) -> Result<Act<'c, A>, ScpiError>
        ensures { (limit : ℕ) (contents : Kept) (available : Bool)
            → ActsAs (level_queried (situation limit contents self.now available) level output extreme) self.now
            result self.now }
    {
        match extreme {
            None => Ok(Act::Answer(fixed3(alloc, self.level_set(level, output) as i64)?)),
            Some(Extreme::Least) => Ok(Act::Answer(fixed3(alloc, 0)?)),
            Some(Extreme::Greatest) => Ok(Act::Answer(fixed3(alloc, greatest_of(level) as i64)?)),
        }
    }

    // `OUTPut?`, `VOLTage:PROTection:STATe?` and `:TRIPped?`, `MEASure:VOLTage?` and `:CURRent?`, `SIMulation:LOAD?`.
    pub(crate) fn output_query<'c, A: Allocator + Copy>(
        &self,
        alloc: A,
        query: OutputQuery,
        output: Output,
    ) -> Result<Act<'c, A>, ScpiError>
        ensures { (limit : ℕ) (contents : Kept) (available : Bool)
            → ActsAs (queried (situation limit contents self.now available) query output) self.now result self.now }
    {
        let outputs = &self.outputs;
        match query {
            OutputQuery::State => Ok(Act::Answer(flag_response(
                alloc,
                outputs.settings(output).on,
            )?)),
            OutputQuery::Protection => {
                Ok(Act::Answer(flag_response(alloc, outputs.settings(output).protection)?))
            }
            OutputQuery::Tripped => Ok(Act::Answer(flag_response(alloc, outputs.trip(output))?)),
            OutputQuery::Voltage => {
                Ok(Act::Answer(fixed3(alloc, outputs.measure(output).voltage.0 as i64)?))
            }
            OutputQuery::Current => {
                Ok(Act::Answer(fixed3(alloc, outputs.measure(output).current.0 as i64)?))
            }
            OutputQuery::Load => Ok(Act::Answer(whole(alloc, outputs.load(output).0 as u64)?)),
        }
    }
}
