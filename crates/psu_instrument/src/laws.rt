//! Laws of the definitions: nonvolatile commands, power-on, and responses.
ghost use Rattle.psu_instrument.specs.Nonvolatile.{KeptAreNonvolatile, NonvolatileAreKept};
ghost use Rattle.psu_instrument.specs.PowerOn.{PowersOnAsRecalled};
ghost use Rattle.psu_instrument.specs.Speaking.{EachAnswerHasText, NoAnswerRaisesABit};

/// The nonvolatile commands are those that the table of commands marks as nonvolatile, given the present power-on
/// status clear flag: each command that changes the nonvolatile contents is marked so, and each that is marked so
/// changes them or is refused.
pub fn kept_commands_are_nonvolatile()
    ensures nonvolatile { KeptAreNonvolatile }
    ensures kept { NonvolatileAreKept }
{}

/// Power-on with register 0 applies its settings as `*RCL 0` does.
pub fn power_on_recalls_register_0()
    ensures { PowersOnAsRecalled }
{}

/// No response is empty (IEEE 488.2, 8.4.1).
pub fn each_answer_has_text()
    ensures { EachAnswerHasText }
{}

/// A query that is answered raises no enabled bit of the status byte, whether its session has a response to read or
/// not: so no session requests service for it (IEEE 488.2, 11.3). It may clear bits: those of what it reads.
pub fn no_answer_raises_a_bit()
    ensures { NoAnswerRaisesABit }
{}
