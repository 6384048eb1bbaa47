//! What is measured at an output with a load.
ghost use Rattle.std.specs.Prelude.{◌≡◌, ◌≤◌, ◌<◌, ◌^◌};
ghost use Rattle.psu_outputs.specs.Measuring.{measured, rounded};

use crate::{Measured, Milliohms};
use psu_settings::{Milliamperes, Millivolts, OutputSettings};

impl Measured {
    // What is measured at an output that is off.
    const NOTHING: Measured = Measured {
        voltage: Millivolts(0),
        current: Milliamperes(0),
        limited: false,
    };

    // What is measured at an output with these settings and this load.
    pub(crate) fn of(settings: OutputSettings, load: Milliohms) -> Measured
        requires some { 1 ≤ load.0 }
        ensures { result ≡ measured settings load.0 }
    {
        if !settings.on {
            return Measured::NOTHING;
        }
        let drop = settings.current.0 as u64 * load.0 as u64;
        let drive = settings.voltage.0 as u64 * 1000;
        if drop < drive {
            Measured {
                voltage: Millivolts(rounded(drop, 1000)),
                current: settings.current,
                limited: true,
            }
        } else {
            Measured {
                voltage: settings.voltage,
                current: Milliamperes(rounded(drive, load.0 as u64)),
                limited: false,
            }
        }
    }
}

// The quotient, with half a unit rounded up.
fn rounded(dividend: u64, divisor: u64) -> u32
    requires some { 1 ≤ divisor }
    requires fits { rounded dividend divisor < 2 ^ 32 }
    ensures { result ≡ rounded dividend divisor }
{
    ((2 * dividend as u128 + divisor as u128) / (2 * divisor as u128)) as u32
}
