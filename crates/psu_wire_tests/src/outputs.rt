//! The outputs with loads: measuring, limits and trips.
use psu_lex::ScpiError;
use psu_outputs::{
    Measured, Milliamperes, Milliohms, Millivolts, Output, Outputs, Setting, Settings,
};

// Changes one more setting of the outputs.
fn set(outputs: &mut Outputs, setting: Setting) -> Result<(), ScpiError> {
    let mut settings = outputs.get();
    settings.set(Output::First, setting)?;
    outputs.set(settings)
}

// Whether one more setting can be changed.
fn is_set(outputs: &mut Outputs, setting: Setting) -> bool {
    set(outputs, setting) == Ok(())
}

#[test]
fn a_load_in_current_limit(rt: HostRuntime) {
    let mut outputs = Outputs::new();
    assert!(rt;
        is_set(&mut outputs, Setting::Voltage(Millivolts(12_000)))
            && is_set(&mut outputs, Setting::Current(Milliamperes(1_000)))
            && is_set(&mut outputs, Setting::State(true))
    );
    // 12 V through 10 ohms would be 1.2 A: the limit holds 10 V and 1 A.
    let want = Measured {
        voltage: Millivolts(10_000),
        current: Milliamperes(1_000),
        limited: true,
    };
    assert!(rt; outputs.measure(Output::First) == want && outputs.conditions() == 2);
}

// Whether a load of 7 kilohms is accepted and a short circuit is refused.
fn loads(outputs: &mut Outputs) -> bool {
    outputs.set_load(Output::First, Milliohms(7_000_000)) == Ok(())
        && outputs.set_load(Output::First, Milliohms(0)) == Err(ScpiError::DataOutOfRange)
        && outputs.load(Output::First) == Milliohms(7_000_000)
}

#[test]
fn a_load_of_kilohms(rt: HostRuntime) {
    let mut outputs = Outputs::new();
    assert!(rt;
        is_set(&mut outputs, Setting::Voltage(Millivolts(12_000)))
            && is_set(&mut outputs, Setting::Current(Milliamperes(1_000)))
            && is_set(&mut outputs, Setting::State(true))
            && loads(&mut outputs)
    );
    // 12 V through 7 kilohms is 1.714 mA, rounded to 2 mA.
    assert!(rt; outputs.measure(Output::First).current == Milliamperes(2));
}

// Whether an output at 6 V trips by its protection at 5 V.
fn trips(outputs: &mut Outputs) -> bool {
    is_set(outputs, Setting::ProtectionLevel(Millivolts(5_000)))
        && is_set(outputs, Setting::Protection(true))
        && is_set(outputs, Setting::Current(Milliamperes(5_000)))
        && is_set(outputs, Setting::Voltage(Millivolts(6_000)))
        && is_set(outputs, Setting::State(true))
        && outputs.trip(Output::First)
}

// Whether the first output is on.
fn is_on(outputs: &Outputs) -> bool {
    outputs.get().get(Output::First).on
}

#[test]
fn an_output_that_trips(rt: HostRuntime) {
    let mut outputs = Outputs::new();
    assert!(rt; trips(&mut outputs) && !is_on(&outputs) && outputs.conditions() == 1);
    let on = set(&mut outputs, Setting::State(true));
    assert!(rt; on == Err(ScpiError::SettingsConflict));
    outputs.clear(Output::First);
    assert!(rt; !outputs.trip(Output::First) && !is_on(&outputs));
    let high = set(&mut outputs, Setting::Voltage(Millivolts(60_001)));
    assert!(rt; high == Err(ScpiError::DataOutOfRange));
}
