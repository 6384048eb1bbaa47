//! The commands that are read from units, and the faults of a reading in their order. A number is rounded half away from
//! zero before it is checked.
use crate::holds::holds;
use crate::tree::{read, read_units};
use psu_lex::{ScpiError, Units};
use psu_settings::Output;
use psu_tables::bracketed;
use psu_tree::{Command, Enable, Flag, Level, Path, Query, Switch, request};

// Units, and what each sets: enable registers, the flag of `*PSC`, the voltage of output 3, the state of output 2; or
// what it queries.
const UNITS: &str = "
[*sRe 00005] service 5
[*SRE \t5 ] service 5
[*SRE +5] service 5
[*SRE 000000000005] service 5
[*SRE 1 E +2] service 100
[*SRE 255.4] service 255
[*ESE -0] event 0
[*ESE -0.4] event 0
[*PSC 0] power-on no
[*PSC -0.4] power-on no
[*PSC 0.5] power-on yes
[*PSC -32767] power-on yes
[*PSC 32767.4] power-on yes
[SOUR3:VOLT 5250.5 mv] voltage 5251
[SOUR3:VOLT 5.2505] voltage 5251
[SOUR3:VOLT MAX] voltage 60000
[SOUR3:VOLT -0.0004] voltage 0
[SOUR3:VOLT 1.5 V] voltage 1500
[OUTP2 -0.5] output yes
[ *idn?\r] query identification
[*STB? ] query status-byte
[*OPC?] query operation-complete
[ *sre? ] query service
";

// Returns the word for a query.
fn called(query: Query) -> &'static str {
    match query {
        Query::Identification => "identification",
        Query::StatusByte => "status-byte",
        Query::OperationComplete => "operation-complete",
        Query::Enable(Enable::ServiceRequest) => "service",
        _ => "another",
    }
}

fn is_yes_or_no(is: bool, cell: &str) -> bool {
    cell == (if is { "yes" } else { "no" })
}

// Whether a command sets what its row says, or queries it.
fn puts(command: &Command<'_>, what: &str, value: &str) -> bool {
    match command {
        Command::Enable(Enable::ServiceRequest, bits) => what == "service"
            && value.parse() == Ok(*bits),
        Command::Enable(Enable::EventStatus, bits) => what == "event" && value.parse() == Ok(*bits),
        Command::Flag(Flag::PowerOnClear, on) => what == "power-on" && is_yes_or_no(*on, value),
        Command::Level(Level::Voltage, Output::Third, millivolts) => what == "voltage"
            && value.parse() == Ok(*millivolts),
        Command::Switch(Switch::Output, Output::Second, on) => what == "output"
            && is_yes_or_no(*on, value),
        Command::Query(query) => what == "query" && called(*query) == value,
        _ => false,
    }
}

// Whether the reading of a unit is the one of a cell, `fault 151` for a fault.
fn is_reading(reading: Result<Command<'_>, ScpiError>, cell: &str) -> bool {
    match (reading, cell.split_once(" ")) {
        (Ok(command), Some((what, value))) => puts(&command, what, value),
        (Err(error), Some((what, value))) => what == "fault"
            && value.parse() == Ok(error.magnitude()),
        _ => false,
    }
}

fn is_line(line: &str) -> bool {
    match bracketed(line) {
        Some((text, cell)) => is_reading(read(text.as_bytes()), cell),
        None => line.is_empty(),
    }
}

#[test]
fn commands_and_queries_of_units(rt: HostRuntime) {
    for line in UNITS.lines() {
        holds(&rt, is_line(line), line);
    }
}

// Faults of a byte, of the syntax, of the header, of the number of data, and then of each datum.
const FAULTS: &str = "
*SRE \u{ff} -> 101
*SRE ,\u{ff} -> 101
*SRE 5, -> 102
*SRE5 ,5 -> 102
:*IDN? -> 102
*SRE ? -> 102
*SRE 1 E + 2 -> 102
*SRE5 -> 113
SRE 5 -> 113
*IDN -> 113
*ESR 1,2 -> 113
FOO 1E99999 -> 113
*SRE -> 109
*PSC  -> 109
*SRE 5,FOO -> 108
*IDN? 'a' -> 108
*SRE? 5 -> 108
*SRE FOO -> 104
*PSC ON -> 104
*ESE '5' -> 104
*ESE #11a -> 104
*ESE 1E32001 V -> 123
*ESE 1 V -> 131
*ESE 999 V -> 131
*ESE 255.5 -> 222
*ESE -1 -> 222
*SRE 256 -> 222
*PSC 32768 -> 222
*PSC -32767.5 -> 222
";

#[test]
fn faults_of_a_reading_come_in_order(rt: HostRuntime) {
    read_units(&rt, FAULTS);
}

// The units of a message: a command, a query, and a fault.
const MESSAGE: &[u8] = b"*SRE 255; *sre? ;*ESE 'a";

const READ: &str = "service 255, query service, fault 151";

// Whether the readings of units are the cells of a text.
fn are_readings(units: Units<'_>, cells: &str) -> bool {
    let mut units = units;
    let mut path = Path::root();
    let mut cells = cells.split(", ");
    while let Some(unit) = units.next_unit() {
        match cells.next() {
            Some(cell) if is_reading(request(&mut path, &unit, false).reading, cell) => {}
            _ => return false,
        }
    }
    cells.next().is_none()
}

#[test]
fn units_of_a_message_are_read(rt: HostRuntime) {
    assert!(rt; are_readings(Units::of(MESSAGE), READ));
}
