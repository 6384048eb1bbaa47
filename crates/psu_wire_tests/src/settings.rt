//! The settings of the outputs, and their bytes.
use psu_settings::{Millivolts, Output, Setting, Settings};

// The settings of `*RST`, and 5.25 V on output 1.
const SETTINGS: [u8; 28] = [
    0x14, 0x82, 0, 0, 0xea, 0x60, 0, 0, 0, 0, 0, 0xea, 0x60, 0, 0, 0, 0, 0, 0xea, 0x60, 0, 0, 0, 0,
    0, 0xea, 0x60, 0,
];

#[test]
fn settings_as_bytes(rt: HostRuntime) {
    let mut settings = Settings::reset();
    assert!(rt; settings.set(Output::First, Setting::Voltage(Millivolts(5_250))) == Ok(()));
    assert!(rt; settings.to_bytes() == SETTINGS);
    assert!(rt; Settings::of_bytes(&SETTINGS) == Some(settings));
}

#[test]
fn bytes_that_are_no_settings(rt: HostRuntime) {
    let mut other = SETTINGS;
    other[6] = 4;
    assert!(rt; Settings::of_bytes(&other).is_none());
    assert!(rt; Settings::of_bytes(&SETTINGS[1..]).is_none());
}
