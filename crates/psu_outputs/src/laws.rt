//! The laws of trips, which no code needs to run.
ghost use Rattle.psu_outputs.specs.Trips.{ATripSwitchesOff, EachTripHasItsCause, EachTripIsCleared, TripsOnce, TripsStay};

/// At a change that a call of `Outputs` makes, an output trips exactly if it is on, its protection is on and the
/// measured voltage is above its level, as the change asks for it. A trip switches the output off and changes nothing
/// else. The output stays tripped and off until its trip is cleared, by `clear` or `restore`.
pub fn each_trip_has_its_cause()
    ensures cause { EachTripHasItsCause }
    ensures off { ATripSwitchesOff }
    ensures stay { TripsStay }
{}

/// Over any changes, each trip of an output is cleared before the next: an output that was on and is tripped after them,
/// with none cleared, has tripped once.
pub fn each_trip_is_once()
    ensures cleared { EachTripIsCleared }
    ensures once { TripsOnce }
{}
